//! Satisfiers by a generator, compared with those that the engine that copies lists.
ghost use Rattle.std.specs.Prelude.{◌≡◌, ◌≤◌, IsTrue, OnOk, None, length, true};
ghost use Rattle.hp_eval.specs.Slotted.{AreBelow};
ghost use Rattle.hp_suspended.specs.Fitting.{IsExpressionAt};
ghost use Rattle.hp_suspended.specs.SceneViews.{IsReady, code_in};
ghost use Rattle.hp_syntax.specs.Checks.{domain_faults, first_of};
ghost use Rattle.hp_syntax.specs.Numbered.{IsNumberedDomain};
ghost use Rattle.hp_syntax.specs.Views.{domain_of};
ghost use Rattle.hp_world.specs.Recorded.{Knows};
ghost use Rattle.hp_world.specs.Stages.{StageBelow};

use crate::events::Count;
use crate::look_ups::draws::Draws;
use crate::look_ups::rounds::{Table, change_or_undo};
use crate::look_ups::scans::is_within;
use crate::scenes::body_of;
use hp_answers::answer::Answer;
use hp_answers::rule_index::RuleIndex;
use hp_cells::Cells;
use hp_check::check_domain;
use hp_code::{asked_parts, lower};
use hp_eval::{Event, Sats, Slots};
use hp_forms::domain;
use hp_gen::Gen;
use hp_laws::pair_laws::checked_rules_have_few_variables;
use hp_satisfiers::expressions;
use hp_suspended::Scene;
use hp_syntax::{Axiom, Domain, Rule};
use hp_text::read;
use hp_world::World;
use std::alloc::{AllocError, Global};

/// Axioms, of which the first branch is looked for: an expression of each kind, faults, and levels that don't suffice.
pub const RULES: &str = "(defdomain kinds (
  (:- (all ?x ?y) ((at ?x ?y)))
  (:- (by_first ?x) ((at a ?x)))
  (:- (by_second ?x) ((in ?x b)))
  (:- (ground) ((on c d)))
  (:- (unknown) ((no c d)))
  (:- (nothing) ())
  (:- (both ?x ?y ?z) ((at ?x ?y) (in ?y ?z)))
  (:- (three ?x) ((at ?x ?x) (in ?x a) (on b ?x)))
  (:- (either ?x) ((or (at ?x a) (and (in ?x b) (on ?x c)) (on d ?x))))
  (:- (neither ?x) ((at ?x b) (not (or (in ?x a) (on ?x b)))))
  (:- (each ?x ?y) ((at ?x a) (forall (?y) ((in ?x ?y)) ((on ?y ?x)))))
  (:- (valued ?x ?y) ((at ?x b) (assign ?y (call + 1 2)) (call < ?y 4)))
  (:- (faulty ?x ?y) ((at ?x c) (assign ?y (call + ?x 1))))
  (:- (free ?x ?y) ((or (at ?x d) (call < ?y 4))))
  (:- (near ?x ?y) near ((on ?x ?y)) far ((at ?x ?z) (in ?z ?y)))
  (:- (way ?x ?y) ((at ?x ?y)))
  (:- (way ?x ?y) ((at ?x ?z) (way ?z ?y)))
  (:- (reach ?x) ((near a ?x)))
  (:- (close ?x) ((at ?x a) (way ?x b)))
  (:- (blocked ?x) ((on ?x a) (not (way ?x b))))
))";

/// How many lists there were, the events in them, and how many of them differed.
#[derive(Clone, Copy, Debug)]
pub struct Tally {
    lists: usize,
    events: Count,
    differ: usize,
}

impl Tally {
    pub fn new() -> Tally {
        Tally {
            lists: 0,
            events: Count::new(),
            differ: 0,
        }
    }

    fn note_list(&mut self, is_same: bool) {
        self.lists = self.lists.saturating_add(1);
        if !is_same {
            self.differ = self.differ.saturating_add(1);
        }
    }
}

// Whether variables stand for the same.
fn are_same(one: &Slots, other: &Slots, vars: u32) -> bool {
    for v in 0..vars {
        if one.value_of(v) != other.value_of(v) {
            return false;
        }
    }
    true
}

// Whether an event under the bindings of slots is this answer.
fn is_answer(event: Event, slots: &Slots, answer: &Answer) -> bool {
    match (event, answer) {
        (Event::Sat, Answer::Sat(found)) => are_same(slots, found, 3),
        (Event::Cut, Answer::Cut) => true,
        (Event::Fault(fault), Answer::Fault(found)) => fault == *found,
        _ => false,
    }
}

// Whether satisfiers are these answers, up to a fault, and then the end.
fn are_answers<B, S: Sats<B>>(
    sats: &mut S,
    base: &B,
    answers: &[Answer],
    cells: &mut Cells,
    slots: &mut Slots,
    tally: &mut Tally,
) -> Result<bool, AllocError>
    requires live { S.is_live sats.old ≡ true }
    requires open { S.is_open sats.old ≡ true }
    requires base { S.suits sats.old base.now cells.old }
    requires slots { S.fits sats.old slots.old }
    requires cells { S.kept sats.old ≤ length cells.old }
    ensures slots { S.fits sats.new slots.new }
    ensures open { S.is_open sats.new ≡ true }
    ensures base { S.suits sats.new base.now cells.new }
{
    for answer in answers {
        let event = sats.next(base, cells, slots)?;
        tally.events.note(event);
        if !is_answer(event, slots, answer) {
            return Ok(false);
        }
        if matches!(event, Event::Fault(_)) {
            return Ok(true);
        }
    }
    Ok(matches!(sats.next(base, cells, slots)?, Event::End))
}

// Whether all atoms of a world are cells, and none is protected.
fn is_plain(world: &World, cells: &Cells) -> bool
    ensures { IsTrue result → StageBelow (length cells.now) world.now.now }
{
    is_within(world, cells) && world.guards().is_empty()
}

// What the engine that copies lists of an axiom's first branch.
fn listed(
    alloc: Global,
    scene: &Scene<'_>,
    book: &RuleIndex<'_>,
    axiom: &Axiom,
    level: u32,
    cells: &mut Cells,
    slots: &Slots,
) -> Result<Vec<Answer>, AllocError>
    requires knows { Knows cells.old scene.now.world }
    requires world { StageBelow (length cells.old) scene.now.world.now }
    requires slots { AreBelow (length cells.old) slots.now }
    ensures { IsReady scene.now cells.new slots.now }
{
    let plain = expressions::Scene {
        alloc,
        book,
        world: &scene.world,
    };
    match axiom.clauses.as_slice() {
        [clause, ..] => plain.events(&clause.body, slots, level, cells),
        [] => Ok(Vec::new(alloc)),
    }
}

// Compares what a node gives with what is listed of its axiom.
fn compare(
    alloc: Global,
    scene: &Scene<'_>,
    book: &RuleIndex<'_>,
    axiom: &Axiom,
    node: usize,
    level: u32,
    cells: &mut Cells,
    tally: &mut Tally,
) -> Result<(), AllocError>
    requires knows { Knows cells.old scene.now.world }
    requires node { IsExpressionAt (code_in scene.now) node }
    requires level { level ≤ 128 }
    ensures knows { OnOk result (Knows cells.new scene.now.world) }
{
    if !is_plain(&scene.world, cells) {
        tally.note_list(false);
        return Ok(());
    }
    let mut slots = Slots::new(alloc, 3)?;
    let answers = listed(alloc, scene, book, axiom, level, cells, &slots)?;
    let mut sats = Gen::start(alloc, scene, cells, node, level, &slots)?;
    let is_same = are_answers(&mut sats, scene, &answers, cells, &mut slots, tally)?;
    tally.note_list(is_same);
    Ok(())
}

// Compares the first branch of each axiom whose name no other has.
fn compare_all(
    alloc: Global,
    scene: &Scene<'_>,
    book: &RuleIndex<'_>,
    rules: &[Rule],
    level: u32,
    cells: &mut Cells,
    tally: &mut Tally,
) -> Result<(), AllocError>
    requires knows { Knows cells.old scene.now.world }
    requires level { level ≤ 128 }
    ensures knows { OnOk result (Knows cells.new scene.now.world) }
{
    for rule in rules {
        if let Rule::Axiom(axiom) = rule {
            if let Some(node) = body_of(scene.code, &axiom.head.name) {
                compare(alloc, scene, book, axiom, node, level, cells, tally)?;
            }
        }
    }
    Ok(())
}

// Compares them with no axiom level, and with up to three.
fn compare_levels(
    alloc: Global,
    scene: &Scene<'_>,
    book: &RuleIndex<'_>,
    rules: &[Rule],
    cells: &mut Cells,
    tally: &mut Tally,
) -> Result<(), AllocError>
    requires { Knows cells.old scene.now.world }
    ensures { OnOk result (Knows cells.new scene.now.world) }
{
    for level in 0..4 {
        compare_all(alloc, scene, book, rules, level, cells, tally)?;
    }
    Ok(())
}

// Compares them in a world, behind each of so many changes and undoings.
fn compare_rounds(
    alloc: Global,
    scene: &mut Scene<'_>,
    book: &RuleIndex<'_>,
    rules: &[Rule],
    table: &Table,
    cells: &mut Cells,
) -> Result<Tally, AllocError>
    requires { Knows cells.old scene.old.world }
{
    let mut draws = Draws { state: 1 };
    let mut tally = Tally::new();
    for round in 0..400 {
        change_or_undo(cells, table, &mut scene.world, &mut draws, round)?;
        compare_levels(alloc, scene, book, rules, cells, &mut tally)?;
    }
    Ok(tally)
}

// Compares the expressions of a domain in an empty world that is changed and undone.
fn compared(
    alloc: Global,
    domain: &Domain,
    table: &Table,
    cells: &mut Cells,
) -> Result<Tally, AllocError>
    requires numbered { IsNumberedDomain (domain_of domain.now) }
    requires checked { first_of (domain_faults (domain_of domain.now)) ≡ None }
{
    checked_rules_have_few_variables();
    let book = RuleIndex::new(alloc, domain)?;
    let code = lower(alloc, domain)?;
    let parts = asked_parts(alloc, &code)?;
    let world = World::indexed(alloc, parts.as_slice())?;
    let mut scene = Scene { world, code: &code };
    compare_rounds(
        alloc,
        &mut scene,
        &book,
        domain.rules.as_slice(),
        table,
        cells,
    )
}

/// What generators give, compared with what is listed, if all is as it must be to be compared.
pub fn compared_satisfiers(
    alloc: Global,
    table: &Table,
    cells: &mut Cells,
) -> Result<Option<Tally>, AllocError> {
    let Ok(forest) = read(alloc, RULES.as_bytes()) else {
        return Ok(None);
    };
    let Ok(domain) = domain(alloc, &forest) else {
        return Ok(None);
    };
    if check_domain(&domain).is_some() {
        return Ok(None);
    }
    let tally = compared(alloc, &domain, table, cells)?;
    Ok(Some(tally))
}
