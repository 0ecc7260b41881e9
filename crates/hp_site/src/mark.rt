//! Moments of a search.

/// A moment of a search: how many changes of its world and of its network could be undone, how many steps there were,
/// what they cost, and how many decompositions might follow.
#[derive(Clone, Copy)]
pub struct Mark {
    pub world: usize,
    pub net: usize,
    pub steps: usize,
    pub cost: i128,
    pub depth: u32,
}
