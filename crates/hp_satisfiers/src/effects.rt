//! The changes and the cost of operators.
ghost use Rattle.std.specs.Prelude.{◌≡◌, ◌≤◌, [], IfOk, map, length};
ghost use Rattle.hp_syntax.specs.Changes.{effect_values, effects_values, effects};
ghost use Rattle.hp_syntax.specs.Preconditions.{heard};
ghost use Rattle.hp_syntax.specs.declared.limits.TheConstants.{MOST_VARIABLES};
ghost use Rattle.hp_syntax.specs.Views.{atoms_of, effect_of, operator_of};
ghost use Rattle.hp_eval.specs.Growth.{Grows};
ghost use Rattle.hp_eval.specs.Slotted.{AreBelow, bindings_of};
ghost use Rattle.hp_world.specs.Stages.{StageBelow, ChangesBelow, changes_of};
ghost use Rattle.hp_effect.specs.Gathering.{each_going, PutsAll};
ghost use Rattle.hp_answers.specs.AnswerViews.{answer_events, AllFit};
ghost use Rattle.hp_satisfiers.specs.Scenes.{axioms_in, stage_in, state_in};
ghost use Rattle.hp_satisfiers.specs.EffectsOutcomes.{GoesAll, GoesInto, ComesTo};

use crate::expressions::Scene;
use crate::listed::Listed;
use hp_answers::answer::Answer;
use hp_cells::Cells;
use hp_effect::{Changes, Obstacle, Side, cost, put_atom, put_each, put_protection};
use hp_eval::Slots;
use hp_syntax::{AtomPat, Effect, Operator, RunFault};
use std::alloc::{AllocError, Global};

/// The outcome of an operator's effects: changes and a cost, or a cut or a fault that stops them.
#[derive(Drop)]
pub enum EffectsOutcome {
    Went(Changes, i64),
    Cut,
    Fault(RunFault),
}

// Puts the values of atoms under each Sat that is heard of a list, in turn, into changes. A cut or a fault stops.
fn put_listed(
    alloc: Global,
    side: Side,
    atoms: &Vec<AtomPat>,
    found: Vec<Answer>,
    vars: usize,
    cells: &mut Cells,
    changes: &mut Changes,
) -> Result<(), Obstacle>
    requires few { vars ≤ MOST_VARIABLES }
    requires fit { AllFit vars (length cells.old) found.items }
    requires below { ChangesBelow (length cells.old) changes.old }
    ensures puts { PutsAll side result (each_going (atoms_of atoms.now.items) (heard (answer_events cells.old found.items)))
        cells.new (changes_of cells.old changes.old) changes.new }
    ensures cells { Grows cells.old cells.new }
{
    let mut slots = Slots::new(alloc, vars)?;
    let mut sats = Listed::new(found, &slots, cells);
    put_each(side, atoms, &mut sats, &(), &mut slots, cells, changes)
}

impl Scene<'_> {
    // Puts the atoms of an effect into changes.
    fn put_effect(
        &self,
        side: Side,
        effect: &Effect,
        slots: &Slots,
        nest: u32,
        cells: &mut Cells,
        changes: &mut Changes,
    ) -> Result<(), Obstacle>
        requires slots { AreBelow (length cells.old) slots.now }
        requires world { StageBelow (length cells.old) (stage_in self.now) }
        requires below { ChangesBelow (length cells.old) changes.old }
        ensures puts { PutsAll side result
            (effect_values (axioms_in self.now) nest (state_in cells.old self.now) (effect_of effect.now)
            (bindings_of cells.old slots.now))
            cells.new (changes_of cells.old changes.old) changes.new }
        ensures cells { Grows cells.old cells.new }
    {
        match effect {
            Effect::Atom(atom) => put_atom(side, atom, slots, cells, changes),
            Effect::Protection(atom) => put_protection(side, atom, slots, cells, changes),
            Effect::Forall(_, expr, atoms) => {
                let found = self.events(expr, slots, nest, cells)?;
                put_listed(self.alloc, side, atoms, found, slots.vars(), cells, changes)
            }
        }
    }

    // Puts the atoms of effects into changes, from left to right.
    fn put_effects(
        &self,
        side: Side,
        effects: &[Effect],
        slots: &Slots,
        nest: u32,
        cells: &mut Cells,
        changes: &mut Changes,
    ) -> Result<(), Obstacle>
        requires slots { AreBelow (length cells.old) slots.now }
        requires world { StageBelow (length cells.old) (stage_in self.now) }
        requires below { ChangesBelow (length cells.old) changes.old }
        ensures puts { PutsAll side result
            (effects_values (axioms_in self.now) nest (state_in cells.old self.now) (map effect_of effects.now)
            (bindings_of cells.old slots.now))
            cells.new (changes_of cells.old changes.old) changes.new }
        ensures cells { Grows cells.old cells.new }
    {
        for effect in effects {
            self.put_effect(side, effect, slots, nest, cells, changes)?;
        }
        Ok(())
    }

    // Puts the atoms of an operator's lists into changes, the delete list first. Gives its cost.
    fn put_lists(
        &self,
        operator: &Operator,
        slots: &Slots,
        nest: u32,
        cells: &mut Cells,
        changes: &mut Changes,
    ) -> Result<i64, Obstacle>
        requires slots { AreBelow (length cells.old) slots.now }
        requires world { StageBelow (length cells.old) (stage_in self.now) }
        requires blank { changes.old ≡ record { unguard = []; delete = []; add = []; guard = [] } }
        ensures goes { GoesInto result (effects (axioms_in self.now) nest (state_in cells.old self.now)
            (operator_of operator.now) (bindings_of cells.old slots.now)) cells.new changes.new }
        ensures cells { Grows cells.old cells.new }
    {
        let (dels, adds) = (operator.dels.as_slice(), operator.adds.as_slice());
        self.put_effects(Side::Deletes, dels, slots, nest, cells, changes)?;
        self.put_effects(Side::Adds, adds, slots, nest, cells, changes)?;
        let cost = cost(self.alloc, &operator.cost, slots, cells)?;
        Ok(cost)
    }

    // The changes and the cost of an operator, or the obstacle.
    fn changes_and_cost(
        &self,
        operator: &Operator,
        slots: &Slots,
        nest: u32,
        cells: &mut Cells,
    ) -> Result<(Changes, i64), Obstacle>
        requires slots { AreBelow (length cells.old) slots.now }
        requires world { StageBelow (length cells.old) (stage_in self.now) }
        ensures goes { GoesAll result (effects (axioms_in self.now) nest (state_in cells.old self.now)
            (operator_of operator.now) (bindings_of cells.old slots.now)) cells.new }
        ensures cells { Grows cells.old cells.new }
    {
        let mut changes = Changes::new(self.alloc);
        match self.put_lists(operator, slots, nest, cells, &mut changes) {
            Ok(cost) => Ok((changes, cost)),
            Err(obstacle) => Err(obstacle),
        }
    }

    /// The outcome of an operator's effects: its delete list first, then its add list, then its cost.
    pub fn effects(
        &self,
        operator: &Operator,
        slots: &Slots,
        nest: u32,
        cells: &mut Cells,
    ) -> Result<EffectsOutcome, AllocError>
        requires slots { AreBelow (length cells.old) slots.now }
        requires world { StageBelow (length cells.old) (stage_in self.now) }
        ensures comes { IfOk result (λ x. ComesTo x (effects (axioms_in self.now) nest (state_in cells.old self.now)
            (operator_of operator.now) (bindings_of cells.old slots.now)) cells.new) }
        ensures cells { Grows cells.old cells.new }
    {
        match self.changes_and_cost(operator, slots, nest, cells) {
            Ok((changes, cost)) => Ok(EffectsOutcome::Went(changes, cost)),
            Err(Obstacle::Cut) => Ok(EffectsOutcome::Cut),
            Err(Obstacle::Fault(fault)) => Ok(EffectsOutcome::Fault(fault)),
            Err(Obstacle::NoMemory) => Err(AllocError),
        }
    }
}
