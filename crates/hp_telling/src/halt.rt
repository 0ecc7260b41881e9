//! How the telling of a text stops before its end.

/// Why the telling stopped.
#[derive(Clone, Copy)]
pub enum Halt {
    /// Memory was wanting.
    NoMemory,
    /// The sink didn't take all that was written.
    Failed,
}
