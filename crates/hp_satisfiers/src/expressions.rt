//! The satisfiers of expressions in a state, as lists by their definition, as far as they are heard.
ghost use Rattle.std.specs.Prelude.{◌≡◌, ◌<◌, true, [], IfOk, Contains, length, slice_index_or};
ghost use Rattle.hp_syntax.specs.Events as plain;
ghost use Rattle.hp_syntax.specs.Events.{sat, axioms_of, events_of_all};
ghost use Rattle.hp_syntax.specs.Views.{domain_of, atom_of, axiom_of, expression_of, expressions_of};
ghost use Rattle.hp_eval.specs.GoalViews.{goal_of, GoalBelow};
ghost use Rattle.hp_eval.specs.Growth.{Grows};
ghost use Rattle.hp_eval.specs.Slotted.{AreBelow, bindings_of};
ghost use Rattle.hp_world.specs.Stages.{StageBelow, state_of};
ghost use Rattle.hp_answers.specs.AnswerViews.{answer_event, answer_events, Fits, AllFit, Finds, Hears};
ghost use Rattle.hp_laws.specs.HeardAlike.{AreHeardAlike, turned};
ghost use Rattle.hp_answers.specs.RuleIndexes.{axiom_at};
ghost use Rattle.hp_satisfiers.specs.Scenes.{rules_in, axioms_in, stage_in, state_in, atoms_at, below_at, placed_events};
ghost use Rattle.hp_satisfiers.specs.Sources.{item_count, pieces, joined, SourceBelow};

use crate::conclusions::{conclusion, own_slots};
use crate::matches::{assigned, state_events, tested};
use hp_answers::answer::{Answer, add, only, satisfied, stopped, turn};
use hp_answers::rule_index::RuleIndex;
use hp_cells::Cells;
use hp_eval::{Goal, Slots, fill_goal};
use hp_syntax::{AtomPat, Axiom, Expr, ExprKind};
use hp_world::World;
use std::alloc::{AllocError, Global};

/// The rules and the world in which expressions are looked at.
#[derive(Drop)]
pub struct Scene<'a> {
    pub alloc: Global,
    pub book: &'a RuleIndex<'a>,
    pub world: &'a World,
}

// Items whose events follow one another.
#[derive(Clone, Copy)]
enum Source<'a> {
    // Parts of which one must hold.
    Parts(&'a [Expr]),
    // Answers, where a part, or its negation, takes the place of each Sat.
    Sats(&'a [Answer], &'a Expr, bool),
    // Places of axioms, for a goal.
    Axioms(&'a [usize], &'a Goal),
    // Answers of an axiom's branches, where a conclusion by its head, for a goal, takes the place of each Sat.
    Branches(&'a [Answer], &'a AtomPat, &'a Goal),
}

impl Source<'_> {
    // The number of the items.
    fn count(self) -> usize
        ensures { result ≡ item_count self.entry }
    {
        match self {
            Source::Parts(parts) => parts.len(),
            Source::Sats(found, _, _) => found.len(),
            Source::Axioms(places, _) => places.len(),
            Source::Branches(found, _, _) => found.len(),
        }
    }
}

// The item of a number.
fn at<T>(items: &[T], number: usize) -> &T
    requires { number < length items.now }
    ensures { result.now ≡ slice_index_or items.now number result.now }
{
    &items[number]
}

impl Scene<'_> {
    /// The events of an expression, with so many axiom levels. All that are heard are there; behind a fault, where
    /// nothing is heard, the list may be cut short.
    #[cycle(events)]
    pub fn events(
        &self,
        expr: &Expr,
        slots: &Slots,
        level: u32,
        cells: &mut Cells,
    ) -> Result<Vec<Answer>, AllocError>
        requires slots { AreBelow (length cells.old) slots.now }
        requires world { StageBelow (length cells.old) self.now.world.now.now }
        ensures found { IfOk result (λ v. AreHeardAlike (answer_events cells.new v.items)
            (sat (axioms_of (domain_of self.now.book.now.domain.now).rules) level
            (state_of cells.old self.now.world.now.now) (expression_of expr.now)
            (bindings_of cells.old slots.now))) }
        ensures fit { IfOk result (λ v. AllFit (length slots.now.values) (length cells.new) v.items) }
        ensures cells { Grows cells.old cells.new }
    {
        match &expr.kind {
            ExprKind::Atom(atom) => self.atom_events(atom, slots, level, cells),
            ExprKind::And(parts) => self.all_events(parts.as_slice(), slots, level, cells),
            ExprKind::Or(parts) => {
                let source = Source::Parts(parts.as_slice());
                self.joined_events(source, slots, level, cells)
            }
            ExprKind::Not(part) => {
                let found = self.events(part, slots, level, cells)?;
                turn(self.alloc, true, found, slots)
            }
            ExprKind::Forall(_, range, body) => {
                self.forall_events(range, body, slots, level, cells)
            }
            ExprKind::Assign(v, value) => assigned(self.alloc, *v, value, slots, cells),
            ExprKind::Call(call) => tested(self.alloc, call, slots, cells),
        }
    }

    // The events of a body that must hold for each satisfier of a range.
    #[cycle(events)]
    fn forall_events(
        &self,
        range: &Expr,
        body: &Expr,
        slots: &Slots,
        level: u32,
        cells: &mut Cells,
    ) -> Result<Vec<Answer>, AllocError>
        requires slots { AreBelow (length cells.old) slots.now }
        requires world { StageBelow (length cells.old) (stage_in self.now) }
        ensures finds { IfOk result (λ v.
            let axioms = axioms_in self.now in
            let state = state_in cells.old self.now in
            let e = bindings_of cells.old slots.now in
            Finds cells.new (length slots.now.values) v.items (turned true
            (plain.through (sat axioms level state (expression_of range.now) e)
            (λ b. turned true (sat axioms level state (expression_of body.now) b) b)) e)) }
        ensures cells { Grows cells.old cells.new }
    {
        let found = self.events(range, slots, level, cells)?;
        let source = Source::Sats(found.as_slice(), body, true);
        let refuted = self.joined_events(source, slots, level, cells)?;
        turn(self.alloc, true, refuted, slots)
    }

    // The events of parts that must all hold. Each part in turn takes the place of each satisfier of those before.
    #[cycle(events)]
    fn all_events(
        &self,
        parts: &[Expr],
        slots: &Slots,
        level: u32,
        cells: &mut Cells,
    ) -> Result<Vec<Answer>, AllocError>
        requires slots { AreBelow (length cells.old) slots.now }
        requires world { StageBelow (length cells.old) (stage_in self.now) }
        ensures finds { IfOk result (λ v. Hears cells.new (length slots.now.values) v.items
            (events_of_all (atoms_at (axioms_in self.now) level (state_in cells.old self.now))
            (expressions_of parts.now) (bindings_of cells.old slots.now))) }
        ensures cells { Grows cells.old cells.new }
    {
        let mut found = satisfied(self.alloc, slots)?;
        for part in parts {
            let source = Source::Sats(found.as_slice(), part, false);
            found = self.joined_events(source, slots, level, cells)?;
        }
        Ok(found)
    }

    // The events of all items, item after item. The first fault ends them.
    #[cycle(events)]
    fn joined_events(
        &self,
        source: Source<'_>,
        slots: &Slots,
        level: u32,
        cells: &mut Cells,
    ) -> Result<Vec<Answer>, AllocError>
        requires slots { AreBelow (length cells.old) slots.now }
        requires source { SourceBelow (length slots.now.values) (length cells.old) source }
        requires world { StageBelow (length cells.old) (stage_in self.now) }
        ensures finds { IfOk result (λ v. Hears cells.new (length slots.now.values) v.items
            (joined (pieces self.now level cells.old slots.now source.entry))) }
        ensures cells { Grows cells.old cells.new }
    {
        let mut found = Vec::new(self.alloc);
        for number in 0..source.count() {
            let more = self.item_events(source, number, slots, level, cells)?;
            let over = add(&mut found, more)?;
            if over {
                return Ok(found);
            }
        }
        Ok(found)
    }

    // The events of the item of a number.
    #[cycle(events)]
    fn item_events(
        &self,
        source: Source<'_>,
        number: usize,
        slots: &Slots,
        level: u32,
        cells: &mut Cells,
    ) -> Result<Vec<Answer>, AllocError>
        requires number { number < item_count source }
        requires slots { AreBelow (length cells.old) slots.now }
        requires source { SourceBelow (length slots.now.values) (length cells.old) source }
        requires world { StageBelow (length cells.old) (stage_in self.now) }
        ensures finds { IfOk result (λ v. Hears cells.new (length slots.now.values) v.items
            (slice_index_or (pieces self.now level cells.old slots.now source.entry) number [])) }
        ensures cells { Grows cells.old cells.new }
    {
        match source {
            Source::Parts(parts) => self.events(at(parts, number), slots, level, cells),
            Source::Sats(found, part, negate) => {
                self.one_events(at(found, number), part, negate, slots, level, cells)
            }
            Source::Axioms(places, goal) => {
                self.axiom_events(*at(places, number), goal, slots, level, cells)
            }
            Source::Branches(found, head, goal) => {
                conclusion(self.alloc, head, goal, slots, at(found, number), cells)
            }
        }
    }

    // The events where a part, or its negation, takes the place of a Sat.
    #[cycle(events)]
    fn one_events(
        &self,
        found: &Answer,
        part: &Expr,
        negate: bool,
        slots: &Slots,
        level: u32,
        cells: &mut Cells,
    ) -> Result<Vec<Answer>, AllocError>
        requires found { Fits (length slots.now.values) (length cells.old) found.now }
        requires world { StageBelow (length cells.old) (stage_in self.now) }
        ensures finds { IfOk result (λ v.
            let part_events = sat (axioms_in self.now) level (state_in cells.old self.now) (expression_of part.now) in
            Hears cells.new (length slots.now.values) v.items
            (plain.in_place (λ b. turned negate (part_events b) b) (answer_event cells.old found.now))) }
        ensures cells { Grows cells.old cells.new }
    {
        match found {
            Answer::Sat(own) => {
                let more = self.events(part, own, level, cells)?;
                turn(self.alloc, negate, more, own)
            }
            Answer::Cut => only(self.alloc, Answer::Cut),
            Answer::Fault(fault) => only(self.alloc, Answer::Fault(*fault)),
        }
    }

    // The events of an atom.
    #[cycle(events)]
    fn atom_events(
        &self,
        atom: &AtomPat,
        slots: &Slots,
        level: u32,
        cells: &mut Cells,
    ) -> Result<Vec<Answer>, AllocError>
        requires slots { AreBelow (length cells.old) slots.now }
        requires world { StageBelow (length cells.old) (stage_in self.now) }
        ensures finds { IfOk result (λ v. Hears cells.new (length slots.now.values) v.items
            (atoms_at (axioms_in self.now) level (state_in cells.old self.now) (atom_of atom.now)
            (bindings_of cells.old slots.now))) }
        ensures cells { Grows cells.old cells.new }
    {
        match fill_goal(self.alloc, atom, slots, cells) {
            Ok(goal) => self.goal_events(&goal, slots, level, cells),
            Err(stop) => stopped(self.alloc, stop),
        }
    }

    // The events of a goal: by the atoms of the world, and then by the axioms of its name, in the order of the domain.
    #[cycle(events)]
    fn goal_events(
        &self,
        goal: &Goal,
        slots: &Slots,
        level: u32,
        cells: &mut Cells,
    ) -> Result<Vec<Answer>, AllocError>
        requires slots { AreBelow (length cells.old) slots.now }
        requires goal { GoalBelow (length cells.old) goal.now }
        requires world { StageBelow (length cells.old) (stage_in self.now) }
        ensures finds { IfOk result (λ v.
            let axioms = axioms_in self.now in
            let state = state_in cells.old self.now in
            Hears cells.new (length slots.now.values) v.items
            (plain.goal_events axioms (below_at axioms level state) state (goal_of cells.old goal.now)
            (bindings_of cells.old slots.now))) }
        ensures cells { Grows cells.old cells.new }
    {
        let mut found = state_events(self.alloc, self.world, goal, slots, cells)?;
        let source = Source::Axioms(self.book.axioms(&goal.name), goal);
        let more = self.joined_events(source, slots, level, cells)?;
        add(&mut found, more)?;
        Ok(found)
    }

    // The events of a goal by the axiom of a place.
    #[cycle(events)]
    fn axiom_events(
        &self,
        place: usize,
        goal: &Goal,
        slots: &Slots,
        level: u32,
        cells: &mut Cells,
    ) -> Result<Vec<Answer>, AllocError>
        requires slots { AreBelow (length cells.old) slots.now }
        requires goal { GoalBelow (length cells.old) goal.now }
        requires world { StageBelow (length cells.old) (stage_in self.now) }
        ensures finds { IfOk result (λ v. Hears cells.new (length slots.now.values) v.items
            (placed_events (below_at (axioms_in self.now) level (state_in cells.old self.now))
            (axiom_at (rules_in self.now) place) (goal_of cells.old goal.now)
            (bindings_of cells.old slots.now))) }
        ensures cells { Grows cells.old cells.new }
    {
        let Some(axiom) = self.book.axiom(place) else {
            return Ok(Vec::new(self.alloc));
        };
        let started = own_slots(self.alloc, axiom, goal, cells)?;
        match started {
            Some(own) => {
                let found = self.branch_events(axiom, &own, level, cells)?;
                let source = Source::Branches(found.as_slice(), &axiom.head, goal);
                self.joined_events(source, slots, level, cells)
            }
            None => Ok(Vec::new(self.alloc)),
        }
    }

    // The events of an axiom's branches: a cut where no level is left, or those of the first branch that has any.
    #[cycle(events)]
    fn branch_events(
        &self,
        rule: &Axiom,
        slots: &Slots,
        level: u32,
        cells: &mut Cells,
    ) -> Result<Vec<Answer>, AllocError>
        requires known { Contains (axioms_in self.now) (axiom_of rule.now) }
        requires slots { AreBelow (length cells.old) slots.now }
        requires world { StageBelow (length cells.old) (stage_in self.now) }
        ensures finds { IfOk result (λ v. Hears cells.new (length slots.now.values) v.items
            (plain.branch_events (below_at (axioms_in self.now) level (state_in cells.old self.now))
            (axiom_of rule.now) (bindings_of cells.old slots.now))) }
        ensures cells { Grows cells.old cells.new }
    {
        if level == 0 {
            return only(self.alloc, Answer::Cut);
        }
        for clause in &rule.clauses {
            let found = self.events(&clause.body, slots, level - 1, cells)?;
            if !found.is_empty() {
                return Ok(found);
            }
        }
        Ok(Vec::new(self.alloc))
    }
}
