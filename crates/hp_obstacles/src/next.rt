//! The tasks that may be done next where a walk stands.
ghost use Rattle.std.specs.Prelude.{◌≡◌, ℕ, List, true, IfOk, MatchOption, map};
ghost use Rattle.std.specs.List.{All};
ghost use Rattle.hp_links.specs.Linked.{PartBelow, focused};
ghost use Rattle.hp_net.specs.Standings.{node_reached};
ghost use Rattle.hp_search.specs.Planned.{stands_planned, tree_planned};
ghost use Rattle.hp_syntax.specs.GroundViews.{ground_of};
ghost use Rattle.hp_syntax.specs.Terms.{Term};
ghost use Rattle.hp_world.specs.Stages.{AllBelow, terms_at};
ghost use Rattle.hp_obstacles.specs.Tasks as plain;
ghost use Rattle.hp_obstacles.specs.Tasks.{tasks_next};

use hp_best::to_grounds;
use hp_cells::Cell;
use hp_net::laws::tasks_have_places;
use hp_net::{Net, Walk};
use hp_search::Planner;
use hp_syntax::Ground;
use std::alloc::{AllocError, Global};

/// The tasks that may be done next in a network, in order.
fn next_cells(alloc: Global, net: &Net) -> Result<Vec<Cell>, AllocError>
    ensures tasks { IfOk result (λ v. (terms : List Term)
        → terms_at terms v.items ≡ tasks_next (focused terms net.now.now)) }
    ensures below { IfOk result (λ v. (k : ℕ) → All (PartBelow k) net.now.now.parts → AllBelow k v.items) }
{
    // Nothing runs here: the law makes known that each of them has a place.
    tasks_have_places();
    let ids = net.candidates(alloc)?;
    let mut cells = Vec::new(alloc);
    for id in &ids {
        cells.push(net.task(*id))?;
    }
    Ok(cells)
}

/// The tasks that may be done next at the node where a walk stands, in the order of the candidates.
pub fn next_tasks(alloc: Global, walk: &Planner) -> Result<Vec<Ground>, AllocError>
    requires live { walk.now.live ≡ true }
    ensures { IfOk result (λ v. MatchOption (node_reached (tree_planned walk.now) (stands_planned walk.now)) ⊥
        (λ n. map ground_of v.items ≡ plain.next_tasks n)) }
{
    let cells = next_cells(alloc, walk.net())?;
    to_grounds(alloc, walk.cells(), cells.as_slice())
}
