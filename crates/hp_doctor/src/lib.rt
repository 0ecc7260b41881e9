//! What the planner's refusals, notes and faults mean, and where they are, for those who write domains and problems,
//! and what looks wrong in what it accepts.
#![tactic(auto)]

mod accepting;
mod explaining;
mod finding;
mod gathered;
mod hints;
pub mod laws;
mod linting;
mod loading;
mod mending;
mod nesting;
mod notes;
mod pieces;
mod reading;
mod remarking;
mod sentences;
mod telling;
mod texts;
mod words;

pub use accepting::{Accepted, Stop, accept, refusal_status};
pub use explaining::explain;
pub use finding::{Aim, Finding};
pub use linting::{lint, refuse, status_told};
pub use loading::{Names, NoMemory};
pub use mending::{Mend, Mended};
pub use notes::push_in;
pub use pieces::{HostPieces, MemPieces, Pieces};
pub use reading::finding_of;
pub use remarking::push_remark;
pub use sentences::sentence;
pub use telling::{Halt, write};
pub use texts::{Text, Texts};
