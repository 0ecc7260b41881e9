//! A walk of a small tree that meets the trait, and lists of calls of any walk.
ghost use Rattle.std.specs.Prelude.{◌≡◌, [], ◌∷◌, ◌++◌, true, false, map, IfOk, OnOk, Some, option_map, length, slice_get};
ghost use Rattle.hp_syntax.specs.Walk.{skip};
ghost use Rattle.hp_world.specs.Stages.{AllBelow, terms_at};
ghost use Rattle.hp_net.specs.Standings.{standing, step_of, stepped, next_below};
ghost use Rattle.hp_net.specs.Runs.{MayCall, MayRun, after_call, after_calls, visit_of, visited};
ghost use Rattle.hp_part_trials.specs.Moves.{call_of, no_end, if_some};
ghost use Rattle.hp_part_trials.specs.Twins.{standing_of, path_of, visits_left, task, did_of};

use hp_cells::{Cell, Cells};
use hp_net::{Step, Walk};
use hp_syntax::Name;
use hp_world::World;
use std::alloc::{AllocError, Global};

/// The node that is reached.
#[derive(Clone, Copy)]
pub enum At {
    Root,
    First,
    Second,
}

/// How many visits are left.
#[derive(Clone, Copy)]
pub enum Left {
    Four,
    Three,
    Two,
    One,
    Nothing,
}

/// Walks the tree of one task that is done in two ways.
pub struct Twins {
    cells: Cells,
    world: World,
    steps: Vec<Cell>,
    at: At,
    left: Left,
    at_did: bool,
    ghost world_is: { world ≡ record { past = []; now = record { places = []; guards = [] }; parts = [] } },
    ghost steps_are: { terms_at cells steps.items ≡ task ∷ [] },
    ghost below: { AllBelow (length cells) steps.items },
}

impl Drop for Twins {
    fn drop(self) {
        let Twins {
            cells,
            world,
            steps,
            at: _,
            left: _,
            at_did: _,
        } = self;
        drop(cells);
        drop(world);
        drop(steps);
    }
}

// What a step meets, and where it leads.
#[derive(Clone, Copy)]
struct Met {
    step: Option<Step>,
    at: At,
    left: Left,
}

fn meeting(step: Step, at: At, left: Left) -> Met
    ensures { result ≡ record { step = Some step; at = at; left = left } }
{
    Met {
        step: Some(step),
        at,
        left,
    }
}

// What a step meets: the next visit, where it is at or below the node reached.
fn next_met(at: At, left: Left) -> Met
    ensures step { result.step ≡ option_map step_of (next_below (path_of at) (visits_left left)) }
    ensures stands { standing_of result.at result.left (did_of result.step)
        ≡ stepped (standing (path_of at) (visits_left left) false) }
{
    match (at, left) {
        (At::Root | At::First, Left::Four) => meeting(Step::Did, At::First, Left::Three),
        (At::Root | At::First, Left::Three) => meeting(Step::Plan, At::First, Left::Two),
        (At::Root | At::Second, Left::Two) => meeting(Step::Did, At::Second, Left::One),
        (At::Root | At::Second, Left::One) => meeting(Step::Plan, At::Second, Left::Nothing),
        (at, left) => Met {
            step: None,
            at,
            left,
        },
    }
}

// What is left without what lies at or below a node.
fn without(at: At, left: Left) -> Left
    ensures { visits_left result ≡ skip (path_of at) (visits_left left) }
{
    match (at, left) {
        (At::Root, _) => Left::Nothing,
        (At::First, Left::Four | Left::Three) => Left::Two,
        (At::Second, Left::Two | Left::One) => Left::Nothing,
        (_, left) => left,
    }
}

// The cell of the one task.
fn task_cell(alloc: Global, cells: &mut Cells) -> Result<Cell, AllocError>
    ensures { IfOk result (λ c. slice_get cells.new c ≡ Some task) }
{
    let name = Name::new(alloc, b"!go")?;
    let symbol = cells.sym(&name)?;
    let nil = cells.nil();
    let task = cells.cons(symbol, nil)?;
    Ok(task)
}

impl Twins {
    ghost use Rattle.std.specs.Prelude.{◌≡◌, [], false, IfOk};
    ghost use Rattle.hp_syntax.specs.Walk.{visits};
    ghost use Rattle.hp_net.specs.Standings.{standing};
    ghost use Rattle.hp_part_trials.specs.Twins.{standing_of, twins};

    /// Nothing is visited yet.
    pub fn new(alloc: Global) -> Result<Twins, AllocError>
        ensures { IfOk result (λ w. standing_of w.at w.left w.at_did
            ≡ standing [] (visits twins.rules twins.nest twins.root []) false) }
    {
        let mut cells = Cells::new(alloc)?;
        let task = task_cell(alloc, &mut cells)?;
        let steps = vec![in alloc; task]?;
        Ok(Twins {
            cells,
            world: World::new(alloc),
            steps,
            at: At::Root,
            left: Left::Four,
            at_did: false,
        })
    }
}

impl Walk for Twins {
    ghost use Rattle.std.specs.Prelude.{true, None};
    ghost use Rattle.hp_part_trials.specs.Twins.{twins, standing_of};

    ghost tree = { λ s. twins };

    ghost stands = { λ s. standing_of s.at s.left s.at_did };

    ghost terms = { λ s. s.cells };

    ghost is_live = { λ s. true };

    ghost root_cells = { λ s. None };

    fn step(&mut self) -> Result<Option<Step>, AllocError> {
        let met = next_met(self.at, self.left);
        self.at = met.at;
        self.left = met.left;
        self.at_did = met.step == Some(Step::Did);
        Ok(met.step)
    }

    fn back(&mut self) {
        self.at = At::Root;
        self.at_did = false;
    }

    fn prune(&mut self) {
        self.left = without(self.at, self.left);
        self.at_did = false;
    }

    fn plan(&self) -> &[Cell] {
        match self.at {
            At::Root => &[],
            At::First => self.steps.as_slice(),
            At::Second => self.steps.as_slice(),
        }
    }

    fn cost(&self) -> i128 {
        match self.at {
            At::Root => 0,
            At::First => 1_000,
            At::Second => 1_000,
        }
    }

    fn world(&self) -> &World {
        &self.world
    }

    fn cells(&self) -> &Cells {
        &self.cells
    }

    fn path(&self) -> &[u64] {
        match self.at {
            At::Root => &[],
            At::First => &[0],
            At::Second => &[1],
        }
    }

    fn live(&self) -> bool {
        true
    }
}

/// A call that moves a walk.
#[derive(Clone, Copy)]
pub enum Move {
    Step,
    Back,
    Next,
    Prune,
}

// Makes a call, and tells the step of the visit that it makes, if it makes one.
fn make<W: Walk>(walk: &mut W, call: Move) -> Result<Option<Step>, AllocError>
    requires live { W.is_live walk.old ≡ true }
    requires may { MayCall (call_of call) (W.stands walk.old) }
    ensures step { IfOk result (λ s. s ≡ option_map step_of (visit_of (call_of call) (W.stands walk.old))) }
    ensures stands { OnOk result (W.stands walk.new ≡ after_call (call_of call) (W.stands walk.old)) }
    ensures live { OnOk result (W.is_live walk.new ≡ true) }
{
    match call {
        Move::Step => walk.step(),
        Move::Back => {
            walk.back();
            Ok(None)
        }
        Move::Next => Ok(unless_end(walk.next()?)),
        Move::Prune => {
            walk.prune();
            Ok(None)
        }
    }
}

fn unless_end(step: Step) -> Option<Step>
    ensures { result ≡ no_end step }
{
    match step {
        Step::End => None,
        step => Some(step),
    }
}

// Puts a step behind others, if there is one.
fn put(step: Option<Step>, steps: &mut Vec<Step>) -> Result<(), AllocError>
    ensures { OnOk result (steps.new.items ≡ steps.old.items ++ if_some step) }
{
    match step {
        Some(step) => Ok(steps.push(step)?),
        None => Ok(()),
    }
}

/// Makes calls, and puts the steps of all visits that they make behind others.
pub fn make_all<W: Walk>(
    walk: &mut W,
    calls: &[Move],
    steps: &mut Vec<Step>,
) -> Result<(), AllocError>
    requires live { W.is_live walk.old ≡ true }
    requires may { MayRun (map call_of calls.now) (W.stands walk.old) }
    ensures steps { OnOk result (steps.new.items ≡ steps.old.items
        ++ map step_of (visited (map call_of calls.now) (W.stands walk.old))) }
    ensures stands { OnOk result (W.stands walk.new ≡ after_calls (map call_of calls.now) (W.stands walk.old)) }
    ensures live { OnOk result (W.is_live walk.new ≡ true) }
{
    match calls {
        [] => Ok(()),
        [call, rest @ ..] => {
            let step = make(walk, *call)?;
            put(step, steps)?;
            make_all(walk, rest, steps)
        }
    }
}
