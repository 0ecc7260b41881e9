//! The branches of a method, one after the other, up to the first with events.
ghost use Rattle.std.specs.Prelude.{◌≡◌, ◌<◌, ◌+◌, ◌^◌, ◌≤◌, IfNone, IfOk, IfSome, List, Some, length, slice_get};
ghost use Rattle.hp_syntax.specs.Syntax.{Branch};
ghost use Rattle.hp_syntax.specs.Walk.{chosen_branch};
ghost use Rattle.hp_nodes.specs.NodeViews.{laid_of};
ghost use Rattle.hp_code.specs.CodeViews.{rules_in};
ghost use Rattle.hp_eval.specs.Growth.{Grows};
ghost use Rattle.hp_eval.specs.Slotted.{AreBelow, Binds, bindings_of};
ghost use Rattle.hp_suspended.specs.SceneViews.{IsReady, code_in, setting_of};
ghost use Rattle.hp_suspended.specs.Settings.{state_in};
ghost use Rattle.hp_precondition.specs.Picks.{picked_kept, picked_start};
ghost use Rattle.hp_method.specs.Branches.{AreBranchesIn, ArePartsOf, Chooses, ChosenFits, Hears, IsBranchAt, IsChosenAt, branch_at, branches_at};

use hp_cells::Cells;
use hp_code::CodeNode;
use hp_eval::{Event, Sats, Slots};
use hp_gen::Scene;
use hp_precondition::{Picked, satisfiers};
use std::alloc::{AllocError, Global};

/// The branch that is chosen: its number among the method's branches, the node of its tasks, the satisfiers of its
/// precondition, and the first event of these, which was heard and isn't the end. Where it is a Sat, its bindings stand
/// in the slots.
#[derive(Drop)]
pub struct Chosen {
    pub number: usize,
    pub tasks: usize,
    pub sats: Picked,
    pub first: Event,
}

// The node of an index.
fn node_at<'s>(node: usize, scene: &'s Scene<'_>) -> &'s CodeNode
    requires { node < length (code_in scene.now).nodes }
    ensures is { slice_get (code_in scene.now).nodes node ≡ Some (laid_of result.now) }
    ensures small { node + 1 < 2 ^ 64 }
{
    let nodes = scene.code.nodes();
    let _ = nodes.len();
    &nodes[node]
}

// The nodes of the precondition and of the tasks of the branch of a node.
fn parts(node: usize, scene: &Scene<'_>) -> (usize, usize)
    requires { IsBranchAt (code_in scene.now) node }
    ensures { (b : Branch) → branch_at (code_in scene.now) node ≡ Some b → ArePartsOf (code_in scene.now) b result }
{
    let nodes = scene.code.nodes();
    let _ = nodes.len();
    let pre = node + 1;
    (pre, node_at(pre, scene).to)
}

// The branch of a node and of this number, where its precondition has any events.
fn heard<'a>(
    alloc: Global,
    scene: &Scene<'a>,
    nest: u32,
    node: usize,
    number: usize,
    slots: &mut Slots,
    cells: &mut Cells,
) -> Result<Option<Chosen>, AllocError>
    requires ready { IsReady scene.now cells.old slots.old }
    requires node { IsBranchAt (code_in scene.now) node }
    requires levels { nest ≤ 128 }
    ensures hears { IfOk result (λ o. (b : Branch)
        → Hears scene.now cells.old cells.new slots.old slots.new nest node b o) }
    ensures number { IfOk result (λ o. IfSome o (λ x. x.number ≡ number)) }
    ensures fits { IfOk result (λ o. IfSome o (ChosenFits scene.now cells.new slots.new)) }
    ensures start { IfOk result (λ o. IfSome o (λ x. picked_start x.sats ≡ length slots.old.trail)) }
    ensures kept { IfOk result (λ o. IfSome o (λ x. length cells.old ≤ picked_kept x.sats)) }
    ensures above { Binds slots.old slots.new }
    ensures below { AreBelow (length cells.new) slots.new }
    ensures cells { Grows cells.old cells.new }
{
    let (pre, tasks) = parts(node, scene);
    let mut sats = satisfiers(alloc, scene, cells, pre, nest, slots)?;
    let first = sats.next(scene, cells, slots)?;
    if first == Event::End {
        sats.close(slots);
        return Ok(None);
    }
    Ok(Some(Chosen {
        number,
        tasks,
        sats,
        first,
    }))
}

/// The first of a method's branches whose precondition has any events under the bindings of the slots, with so many
/// axiom levels: at most 128. The branches are the nodes from one index up to another; the slots are those of the
/// method. Where there is no such branch, the slots are as before; else the bindings of before stand below those that
/// are made here.
pub fn chosen_branch<'a>(
    alloc: Global,
    scene: &Scene<'a>,
    nest: u32,
    start: usize,
    end: usize,
    slots: &mut Slots,
    cells: &mut Cells,
) -> Result<Option<Chosen>, AllocError>
    requires ready { IsReady scene.now cells.old slots.old }
    requires branches { AreBranchesIn (code_in scene.now) start end }
    requires levels { nest ≤ 128 }
    ensures chooses { IfOk result (λ o. (bs : List Branch) → branches_at (code_in scene.now) start end ≡ Some bs
        → Chooses scene.now cells.new slots.new o (chosen_branch (rules_in (code_in scene.now)) nest
        (state_in (setting_of scene.now cells.old)) bs (bindings_of cells.old slots.old))) }
    ensures number { IfOk result (λ o. IfSome o (λ x. (bs : List Branch)
        → branches_at (code_in scene.now) start end ≡ Some bs → IsChosenAt (rules_in (code_in scene.now)) nest
        (state_in (setting_of scene.now cells.old)) (bindings_of cells.old slots.old) bs x.number)) }
    ensures fits { IfOk result (λ o. IfSome o (ChosenFits scene.now cells.new slots.new)) }
    ensures before { IfOk result (λ o. IfNone o (slots.new ≡ slots.old)) }
    ensures start { IfOk result (λ o. IfSome o (λ x. picked_start x.sats ≡ length slots.old.trail)) }
    ensures kept { IfOk result (λ o. IfSome o (λ x. length cells.old ≤ picked_kept x.sats)) }
    ensures above { Binds slots.old slots.new }
    ensures below { AreBelow (length cells.new) slots.new }
    ensures cells { Grows cells.old cells.new }
{
    let mut at = start;
    let mut number = 0;
    while at < end {
        if let Some(chosen) = heard(alloc, scene, nest, at, number, slots, cells)? {
            return Ok(Some(chosen));
        }
        at = node_at(at, scene).to;
        number += 1;
    }
    Ok(None)
}
