//! The effects and the cost of an operator.
ghost use Rattle.std.specs.Prelude.{◌≡◌, ◌<◌, ◌+◌, ◌-◌, ◌^◌, ◌≤◌, [], Some, IfOk, MatchOption, OnOk, drop, is_some, length, map, slice_get, take, true};
ghost use Rattle.hp_syntax.specs.Views.{pattern_of};
ghost use Rattle.hp_nodes.specs.NodeViews.{laid_of};
ghost use Rattle.hp_code.specs.Sources.{Body, Sided};
ghost use Rattle.hp_eval.specs.Growth.{Grows};
ghost use Rattle.hp_eval.specs.Slotted.{bindings_of};
ghost use Rattle.hp_world.specs.Stages.{ChangesBelow, changes_of};
ghost use Rattle.hp_suspended.specs.SceneViews.{IsReady, code_in, setting_of};
ghost use Rattle.hp_effect.specs.Gathering.{PutsAll};
ghost use Rattle.hp_operator.specs.Bodies.{IsBodyIn, IsEachAt, ChangesEach, StandsCost, StandsEffect, GoesAll, GoesInto, IsCostAt, behind_side, body_at, body_going, effect_at, effect_going, goes_on, is_adding, list_going, on_side};
ghost use Rattle.hp_operator.specs.Changed.{any_adds, is_add};

use crate::changed::Changed;
use hp_cells::Cells;
use hp_code::{CodeNode, Op};
use hp_effect::{Changes, Obstacle, cost, put_atom, put_each, put_protection};
use hp_eval::{Sats, Slots};
use hp_gen::{Gen, Scene};
use hp_syntax::{Pat, Side};
use std::alloc::Global;

// The node of an index.
fn node_at<'s>(node: usize, scene: &'s Scene<'_>) -> &'s CodeNode
    requires { node < length (code_in scene.now).nodes }
    ensures is { slice_get (code_in scene.now).nodes node ≡ Some (laid_of result.now) }
    ensures small { node + 1 < 2 ^ 64 }
{
    let nodes = scene.code.nodes();
    let _ = nodes.len();
    &nodes[node]
}

// The nodes between two indices.
fn nodes_between<'s>(first: usize, end: usize, scene: &'s Scene<'_>) -> &'s [CodeNode]
    requires order { first ≤ end }
    requires within { end ≤ length (code_in scene.now).nodes }
    ensures { map laid_of result.now ≡ take (end - first) (drop first (code_in scene.now).nodes) }
{
    let nodes = scene.code.nodes();
    &nodes[first..end]
}

// Whether a node adds an atom.
fn adds(node: &CodeNode) -> bool
    ensures { result ≡ is_add (laid_of node.now) }
{
    matches!(&node.op, Op::Add(_))
}

// Whether one of the nodes adds an atom.
fn some_add(nodes: &[CodeNode]) -> bool
    ensures { result ≡ any_adds (map laid_of nodes.now) }
{
    for node in nodes {
        if adds(node) {
            return true;
        }
    }
    false
}

// The list that effects with these changes are of by themselves.
fn side_of(nodes: &[CodeNode]) -> Side
    ensures { is_adding result ≡ any_adds (map laid_of nodes.now) }
{
    if some_add(nodes) {
        Side::Adds
    } else {
        Side::Deletes
    }
}

// The changes for each satisfier of an expression.
fn changed_below<'s>(node: usize, end: usize, scene: &'s Scene<'_>) -> &'s [CodeNode]
    requires { IsEachAt (code_in scene.now) node end }
    ensures { ChangesEach (code_in scene.now) node end (map laid_of result.now) }
{
    let first = node_at(node + 1, scene).to;
    nodes_between(first, end, scene)
}

// The list that the effect of a node is of by itself; `None` where the cost stands.
fn side_at(node: usize, end: usize, scene: &Scene<'_>) -> Option<Side>
    requires { IsBodyIn (code_in scene.now) node end }
    ensures { MatchOption result (StandsCost (code_in scene.now) node end) (StandsEffect (code_in scene.now) node end) }
{
    let here = node_at(node, scene);
    match &here.op {
        Op::Delete(_) => Some(Side::Deletes),
        Op::Unguard(_) => Some(Side::Deletes),
        Op::Add(_) => Some(Side::Adds),
        Op::Guard(_) => Some(Side::Adds),
        Op::Each => Some(side_of(changed_below(node, here.to, scene))),
        _ => None,
    }
}

// The pattern of the cost that stands first.
fn cost_at<'s>(node: usize, end: usize, scene: &'s Scene<'_>) -> &'s Pat
    requires { IsCostAt (code_in scene.now) node end }
    ensures { body_at (code_in scene.now) node end ≡ Some (record { effects = []; cost = pattern_of result.now }) }
{
    match &node_at(node, scene).op {
        Op::Cost(pattern) => pattern,
        _ => unreachable!(),
    }
}

// Whether an effect, if there is one, is put on a side: on that of adds any is.
fn is_on(side: Side, found: Option<Side>) -> bool
    ensures { result ≡ goes_on side found }
{
    match (side, found) {
        (_, None) => false,
        (Side::Adds, Some(_)) => true,
        (Side::Deletes, Some(Side::Deletes)) => true,
        (Side::Deletes, Some(Side::Adds)) => false,
    }
}

// The scene in which what an operator does is looked for, and how deep axioms may call one another.
#[derive(Drop)]
struct Doing<'s, 'a> {
    alloc: Global,
    scene: &'s Scene<'a>,
    nest: u32,
}

impl Doing<'_, '_> {
    // Puts the atoms of an effect for each satisfier into changes.
    fn put_satisfied(
        &self,
        side: Side,
        node: usize,
        end: usize,
        slots: &mut Slots,
        cells: &mut Cells,
        changes: &mut Changes,
    ) -> Result<(), Obstacle>
        requires ready { IsReady self.now.scene.now cells.old slots.old }
        requires each { IsEachAt (code_in self.now.scene.now) node end }
        requires levels { self.now.nest ≤ 128 }
        requires below { ChangesBelow (length cells.old) changes.old }
        ensures puts { (x : Sided) → effect_at (code_in self.now.scene.now) node ≡ Some x
            → PutsAll side result (effect_going (setting_of self.now.scene.now cells.old) self.now.nest x
            (bindings_of cells.old slots.old)) cells.new (changes_of cells.old changes.old) changes.new }
        ensures slots { slots.new ≡ slots.old }
        ensures cells { Grows cells.old cells.new }
    {
        let changed = Changed {
            nodes: changed_below(node, end, self.scene),
        };
        let mut sats = Gen::start(self.alloc, self.scene, cells, node + 1, self.nest, slots)?;
        let put = put_each(side, &changed, &mut sats, self.scene, slots, cells, changes);
        sats.close(slots);
        put
    }

    // Puts the atoms of the effect of a node into changes.
    fn put_effect(
        &self,
        side: Side,
        node: usize,
        slots: &mut Slots,
        cells: &mut Cells,
        changes: &mut Changes,
    ) -> Result<(), Obstacle>
        requires ready { IsReady self.now.scene.now cells.old slots.old }
        requires effect { is_some (effect_at (code_in self.now.scene.now) node) ≡ true }
        requires levels { self.now.nest ≤ 128 }
        requires below { ChangesBelow (length cells.old) changes.old }
        ensures puts { (x : Sided) → effect_at (code_in self.now.scene.now) node ≡ Some x
            → PutsAll side result (effect_going (setting_of self.now.scene.now cells.old) self.now.nest x
            (bindings_of cells.old slots.old)) cells.new (changes_of cells.old changes.old) changes.new }
        ensures slots { slots.new ≡ slots.old }
        ensures cells { Grows cells.old cells.new }
    {
        let here = node_at(node, self.scene);
        match &here.op {
            Op::Delete(atom) => put_atom(side, atom, slots, cells, changes),
            Op::Add(atom) => put_atom(side, atom, slots, cells, changes),
            Op::Unguard(atom) => put_protection(side, atom, slots, cells, changes),
            Op::Guard(atom) => put_protection(side, atom, slots, cells, changes),
            Op::Each => self.put_satisfied(side, node, here.to, slots, cells, changes),
            _ => unreachable!(),
        }
    }

    // Puts the atoms of effects on a side into changes: on that of deletes those before all that add anything, on that
    // of adds all. What is left stands at the node that is answered.
    fn put_side(
        &self,
        side: Side,
        start: usize,
        end: usize,
        slots: &mut Slots,
        cells: &mut Cells,
        changes: &mut Changes,
    ) -> Result<usize, Obstacle>
        requires ready { IsReady self.now.scene.now cells.old slots.old }
        requires body { IsBodyIn (code_in self.now.scene.now) start end }
        requires levels { self.now.nest ≤ 128 }
        requires below { ChangesBelow (length cells.old) changes.old }
        ensures puts { (b : Body) → body_at (code_in self.now.scene.now) start end ≡ Some b
            → PutsAll side result (list_going (setting_of self.now.scene.now cells.old) self.now.nest (on_side side b)
            (bindings_of cells.old slots.old)) cells.new (changes_of cells.old changes.old) changes.new }
        ensures left { IfOk result (λ at. (b : Body) → body_at (code_in self.now.scene.now) start end ≡ Some b
            → body_at (code_in self.now.scene.now) at end ≡ Some (behind_side side b)) }
        ensures body { IfOk result (λ at. IsBodyIn (code_in self.now.scene.now) at end) }
        ensures slots { slots.new ≡ slots.old }
        ensures cells { Grows cells.old cells.new }
    {
        let mut at = start;
        while is_on(side, side_at(at, end, self.scene)) {
            self.put_effect(side, at, slots, cells, changes)?;
            at = node_at(at, self.scene).to;
        }
        Ok(at)
    }

    // Puts the atoms of an operator's effects into changes, and gives its cost.
    fn put_body(
        &self,
        first: usize,
        end: usize,
        slots: &mut Slots,
        cells: &mut Cells,
        changes: &mut Changes,
    ) -> Result<i64, Obstacle>
        requires ready { IsReady self.now.scene.now cells.old slots.old }
        requires body { IsBodyIn (code_in self.now.scene.now) first end }
        requires levels { self.now.nest ≤ 128 }
        requires blank { changes.old ≡ record { unguard = []; delete = []; add = []; guard = [] } }
        ensures goes { (b : Body) → body_at (code_in self.now.scene.now) first end ≡ Some b
            → GoesInto result (body_going (setting_of self.now.scene.now cells.old) self.now.nest b
            (bindings_of cells.old slots.old)) cells.new changes.new }
        ensures slots { slots.new ≡ slots.old }
        ensures cells { Grows cells.old cells.new }
    {
        let adds = self.put_side(Side::Deletes, first, end, slots, cells, changes)?;
        let last = self.put_side(Side::Adds, adds, end, slots, cells, changes)?;
        let cost = cost(self.alloc, cost_at(last, end, self.scene), slots, cells)?;
        Ok(cost)
    }

    // The changes and the cost of an operator, or what stops its effects.
    fn body(
        &self,
        first: usize,
        end: usize,
        slots: &mut Slots,
        cells: &mut Cells,
    ) -> Result<(Changes, i64), Obstacle>
        requires ready { IsReady self.now.scene.now cells.old slots.old }
        requires body { IsBodyIn (code_in self.now.scene.now) first end }
        requires levels { self.now.nest ≤ 128 }
        ensures goes { (b : Body) → body_at (code_in self.now.scene.now) first end ≡ Some b
            → GoesAll result (body_going (setting_of self.now.scene.now cells.old) self.now.nest b
            (bindings_of cells.old slots.old)) cells.new }
        ensures slots { slots.new ≡ slots.old }
        ensures cells { Grows cells.old cells.new }
    {
        let mut changes = Changes::new(self.alloc);
        match self.put_body(first, end, slots, cells, &mut changes) {
            Ok(cost) => Ok((changes, cost)),
            Err(obstacle) => Err(obstacle),
        }
    }
}

/// The changes and the cost of an operator under the bindings of the slots, with so many axiom levels: at most 128. Its
/// effects and its cost are the nodes from one index up to another, those behind its precondition; what deletes comes
/// before what adds. A cut and a fault stop them, and so does want of memory.
pub fn effects(
    alloc: Global,
    scene: &Scene<'_>,
    nest: u32,
    first: usize,
    end: usize,
    slots: &mut Slots,
    cells: &mut Cells,
) -> Result<(Changes, i64), Obstacle>
    requires ready { IsReady scene.now cells.old slots.old }
    requires body { IsBodyIn (code_in scene.now) first end }
    requires levels { nest ≤ 128 }
    ensures goes { (b : Body) → body_at (code_in scene.now) first end ≡ Some b
        → GoesAll result (body_going (setting_of scene.now cells.old) nest b (bindings_of cells.old slots.old))
        cells.new }
    ensures slots { slots.new ≡ slots.old }
    ensures cells { Grows cells.old cells.new }
{
    let doing = Doing { alloc, scene, nest };
    doing.body(first, end, slots, cells)
}
