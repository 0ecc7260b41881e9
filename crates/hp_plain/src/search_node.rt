//! Nodes of the tree, in memory.
use hp_cells::Cell;
use hp_net::Net;
use hp_world::World;

/// A search node: its world, its network, the steps so far with their cost, and the number of decompositions that may
/// follow.
pub(crate) struct SearchNode {
    pub(crate) world: World,
    pub(crate) net: Net,
    pub(crate) steps: Vec<Cell>,
    pub(crate) cost: i128,
    pub(crate) depth: u32,
}

impl Drop for SearchNode {
    fn drop(self) {
        let SearchNode {
            world,
            net,
            steps,
            cost: _,
            depth: _,
        } = self;
        drop(world);
        drop(net);
        drop(steps);
    }
}
