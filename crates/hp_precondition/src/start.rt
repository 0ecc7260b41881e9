//! How the satisfiers of a precondition begin.
ghost use Rattle.std.specs.Prelude.{◌≡◌, ◌<◌, ◌+◌, ◌^◌, ◌≤◌, Some, IfOk, length, slice_get, true};
ghost use Rattle.hp_syntax.specs.Preconditions.{precondition_events};
ghost use Rattle.hp_syntax.specs.Syntax.{Precondition};
ghost use Rattle.hp_eval.specs.Slotted.{bindings_of};
ghost use Rattle.hp_nodes.specs.NodeViews.{laid_of};
ghost use Rattle.hp_suspended.specs.Fitting.{IsExpressionAt};
ghost use Rattle.hp_suspended.specs.Nodes.{expression_at};
ghost use Rattle.hp_suspended.specs.SceneViews.{IsReady, code_in, setting_of};
ghost use Rattle.hp_suspended.specs.Settings.{axioms_in, state_in};
ghost use Rattle.hp_precondition.specs.Picks.{picked_rest, PickedSuits, PickedFits, picked_start, picked_kept, picked_live, picked_open};
ghost use Rattle.hp_precondition.specs.PreconditionNodes.{IsPreconditionAt, asks_nothing, precondition_at};

use crate::once::Once;
use crate::picked::Picked;
use hp_cells::Cells;
use hp_code::{CodeNode, Op};
use hp_eval::Slots;
use hp_gen::{Gen, Scene};
use hp_pick::{First, Sorted};
use std::alloc::{AllocError, Global};

// The node of an index.
fn node_at<'s>(node: usize, scene: &'s Scene<'_>) -> &'s CodeNode
    requires { node < length (code_in scene.now).nodes }
    ensures is { slice_get (code_in scene.now).nodes node ≡ Some (laid_of result.now) }
    ensures small { node + 1 < 2 ^ 64 }
{
    let nodes = scene.code.nodes();
    let _ = nodes.len();
    &nodes[node]
}

// Whether the expression of a node is the conjunction of nothing.
fn asks_nothing(node: usize, scene: &Scene<'_>) -> bool
    requires { IsExpressionAt (code_in scene.now) node }
    ensures { result ≡ asks_nothing (expression_at (code_in scene.now) node) }
{
    let here = node_at(node, scene);
    match &here.op {
        Op::And => here.to == node + 1,
        _ => false,
    }
}

/// The satisfiers of a precondition, by its node, under the bindings of the slots, with so many axiom levels: at most
/// 128. The slots are those of the node's rule.
pub fn satisfiers<'a>(
    alloc: Global,
    scene: &Scene<'a>,
    cells: &Cells,
    node: usize,
    nest: u32,
    slots: &Slots,
) -> Result<Picked, AllocError>
    requires ready { IsReady scene.now cells.now slots.now }
    requires node { IsPreconditionAt (code_in scene.now) node }
    requires levels { nest ≤ 128 }
    ensures rest { IfOk result (λ s. (p : Precondition) → precondition_at (code_in scene.now) node ≡ Some p
        → picked_rest s scene.now cells.now slots.now ≡ precondition_events (axioms_in (setting_of scene.now cells.now)) nest
        (state_in (setting_of scene.now cells.now)) p (bindings_of cells.now slots.now)) }
    ensures suits { IfOk result (λ s. PickedSuits s scene.now cells.now) }
    ensures fits { IfOk result (λ s. PickedFits s slots.now) }
    ensures start { IfOk result (λ s. picked_start s ≡ length slots.now.trail) }
    ensures kept { IfOk result (λ s. picked_kept s ≡ length cells.now) }
    ensures live { IfOk result (λ s. picked_live s ≡ true) }
    ensures open { IfOk result (λ s. picked_open s ≡ true) }
{
    let op = &node_at(node, scene).op;
    let below = node + 1;
    match op {
        Op::Plain => {
            if asks_nothing(below, scene) {
                return Ok(Picked::Once(Once::start(cells, slots)));
            }
            let inner = Gen::start(alloc, scene, cells, below, nest, slots)?;
            let inner = Box::new(alloc, inner)?;
            Ok(Picked::All(inner))
        }
        Op::First => {
            let inner = Gen::start(alloc, scene, cells, below, nest, slots)?;
            let first = Box::new(alloc, First::new::<Scene<'a>>(inner))?;
            Ok(Picked::First(first))
        }
        Op::Sort(key) => {
            let key = key.copy(alloc)?;
            let inner = Gen::start(alloc, scene, cells, below, nest, slots)?;
            let sorted = Sorted::new::<Scene<'a>>(alloc, inner, key, slots);
            let sorted = Box::new(alloc, sorted)?;
            Ok(Picked::Sorted(sorted))
        }
        _ => unreachable!(),
    }
}
