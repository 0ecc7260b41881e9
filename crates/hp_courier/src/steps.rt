//! Calls of a walk, one by one.
ghost use Rattle.std.specs.Prelude.{◌≡◌, true, OnOk};

use hp_net::{Step, Walk};
use std::alloc::AllocError;

/// Makes the next visit, and where it is a decomposition leaves out what lies below it.
pub fn next_alone<W: Walk>(walk: &mut W) -> Result<Step, AllocError>
    requires { W.is_live walk.old ≡ true }
    ensures { OnOk result (W.is_live walk.new ≡ true) }
{
    let step = walk.next()?;
    if let Step::Did = step {
        walk.prune();
    }
    Ok(step)
}

/// Goes to the parent, where nothing more comes at the node reached or below it, and says whether it went.
pub fn leave<W: Walk>(walk: &mut W) -> Result<bool, AllocError>
    requires { W.is_live walk.old ≡ true }
    ensures { OnOk result (W.is_live walk.new ≡ true) }
{
    match walk.step()? {
        None if !walk.path().is_empty() => {
            walk.back();
            Ok(true)
        }
        _ => Ok(false),
    }
}
