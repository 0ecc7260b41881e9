//! What is picked of satisfiers that answer from a list.
ghost use Rattle.std.specs.Prelude.{◌≡◌, ◌<◌, ◌≤◌, IfOk, length, true};
ghost use Rattle.hp_eval.specs.Slotted.{no_bindings};
ghost use Rattle.hp_part_trials.specs.Answered.{AnswersBelow};

use crate::fixtures::number;
use crate::parts::answers::{Reply, answers_of};
use hp_cells::{Cell, Cells};
use hp_effect::{Changes, Obstacle, Part, Side, put_each};
use hp_eval::{Event, Sats, Slots};
use hp_fixtures::page::Page;
use hp_pick::{First, Sorted};
use hp_syntax::{AtomPat, FaultKind, RunFault, SortKey, SortOrder, Span};
use std::alloc::{AllocError, Global};

// Where the fault and the key of the trials stand.
const SPAN: Span = Span { from: 3, to: 5 };

const FAULT: RunFault = RunFault {
    kind: FaultKind::NotList,
    span: SPAN,
};

const DOWNWARD: SortKey = SortKey {
    span: SPAN,
    var: 1,
    order: SortOrder::Down,
};

// Five events, and the number that ?1 stands for after each, by its thousandths.
type Told = [(Event, Option<i64>); 5];

// Cells of three numbers.
#[derive(Clone, Copy)]
struct Numbers {
    nine: Cell,
    one: Cell,
    five: Cell,
}

// Three numbers have cells.
fn three_numbers(cells: &mut Cells) -> Result<Numbers, AllocError>
    ensures nine { IfOk result (λ n. n.nine < length cells.new) }
    ensures one { IfOk result (λ n. n.one < length cells.new) }
    ensures five { IfOk result (λ n. n.five < length cells.new) }
{
    let nine = cells.num(9_000)?;
    let one = cells.num(1_000)?;
    let five = cells.num(5_000)?;
    Ok(Numbers { nine, one, five })
}

// Five events of satisfiers, if no call fails.
fn first_five<B, S: Sats<B>>(
    sats: &mut S,
    base: &B,
    cells: &mut Cells,
    slots: &mut Slots,
) -> Result<Told, AllocError>
    requires live { S.is_live sats.old ≡ true }
    requires open { S.is_open sats.old ≡ true }
    requires base { S.suits sats.old base.now cells.old }
    requires slots { S.fits sats.old slots.old }
    requires cells { S.kept sats.old ≤ length cells.old }
    ensures slots { S.fits sats.new slots.new }
    ensures open { S.is_open sats.new ≡ true }
{
    let mut told = [(Event::End, None); 5];
    for place in 0..5 {
        let event = sats.next(base, cells, slots)?;
        told[place] = (event, number(cells, slots.value_of(1)));
    }
    Ok(told)
}

// The events of answers, which are then closed, and whether no call failed.
fn heard(
    cells: &mut Cells,
    slots: &mut Slots,
    answers: Vec<Reply>,
) -> Result<(Told, bool), AllocError>
    requires answers { AnswersBelow (length cells.old) answers.items }
    requires slots { slots.old ≡ no_bindings 2 }
{
    let mut sats = answers_of(answers, cells);
    let told = first_five(&mut sats, &7, cells, slots)?;
    sats.close(slots);
    Ok((told, sats.live()))
}

// The events of the first of answers.
fn heard_first(
    cells: &mut Cells,
    slots: &mut Slots,
    answers: Vec<Reply>,
) -> Result<Told, AllocError>
    requires answers { AnswersBelow (length cells.old) answers.items }
    requires slots { slots.old ≡ no_bindings 2 }
{
    let mut sats = First::new::<u8>(answers_of(answers, cells));
    first_five(&mut sats, &7, cells, slots)
}

// The events of answers in their order.
fn heard_in_order(
    alloc: Global,
    cells: &mut Cells,
    slots: &mut Slots,
    answers: Vec<Reply>,
) -> Result<Told, AllocError>
    requires answers { AnswersBelow (length cells.old) answers.items }
    requires slots { slots.old ≡ no_bindings 2 }
{
    let mut sats = Sorted::new::<u8>(alloc, answers_of(answers, cells), DOWNWARD, slots);
    first_five(&mut sats, &7, cells, slots)
}

// How many atoms are put among those to add, each of some for each Sat of answers, and what comes of it.
fn put_for_each(
    alloc: Global,
    cells: &mut Cells,
    slots: &mut Slots,
    answers: Vec<Reply>,
    atoms: &Vec<AtomPat>,
) -> (usize, Result<(), Obstacle>)
    requires answers { AnswersBelow (length cells.old) answers.items }
    requires slots { slots.old ≡ no_bindings 2 }
{
    let mut changes = Changes::new(alloc);
    let mut sats = answers_of(answers, cells);
    let put = put_each(Side::Adds, atoms, &mut sats, &7, slots, cells, &mut changes);
    sats.close(slots);
    (changes.list(Part::Add).len(), put)
}

fn show_answers(page: &mut Page, alloc: Global, cells: &mut Cells) -> Result<(), AllocError> {
    page.title("Events come one at a time: of a Cut, 9, a fault and a Cut");
    let Numbers { nine, .. } = three_numbers(cells)?;
    let mut slots = Slots::new(alloc, 2)?;
    let answers = vec![in alloc;
        Reply::Cut,
        Reply::Sat(nine),
        Reply::Fault(FAULT),
        Reply::Cut,
    ]?;
    page.told(
        "each with ?1, and that no call failed",
        &heard(cells, &mut slots, answers),
    );
    page.line("bindings once they are closed", &slots.mark());
    Ok(())
}

// The events, and what ?1 is at the second. Behind the last Sat any bindings may stand.
fn show_second(page: &mut Page, told: &Told) {
    let [
        (first, _),
        (second, value),
        (third, _),
        (fourth, _),
        (fifth, _),
    ] = told;
    page.line("events", &[*first, *second, *third, *fourth, *fifth]);
    page.line("?1 at the second", value);
}

fn show_first(page: &mut Page, alloc: Global, cells: &mut Cells) -> Result<(), AllocError> {
    page.title("The first satisfier is the last: of a Cut, 9, 1 and a Cut");
    let Numbers { nine, one, .. } = three_numbers(cells)?;
    let mut slots = Slots::new(alloc, 2)?;
    let answers = vec![in alloc; Reply::Cut, Reply::Sat(nine), Reply::Sat(one), Reply::Cut]?;
    let told = heard_first(cells, &mut slots, answers)?;
    show_second(page, &told);
    Ok(())
}

fn show_sorted(page: &mut Page, alloc: Global, cells: &mut Cells) -> Result<(), AllocError> {
    page.title("Satisfiers are sorted: 1, a Cut, 9 and 5, downward");
    let Numbers { nine, one, five } = three_numbers(cells)?;
    let mut slots = Slots::new(alloc, 2)?;
    let answers = vec![in alloc;
        Reply::Sat(one),
        Reply::Cut,
        Reply::Sat(nine),
        Reply::Sat(five),
    ]?;
    page.told(
        "each with ?1",
        &heard_in_order(alloc, cells, &mut slots, answers),
    );
    Ok(())
}

fn show_put(
    page: &mut Page,
    alloc: Global,
    cells: &mut Cells,
    atoms: &Vec<AtomPat>,
) -> Result<(), AllocError> {
    let Numbers { nine, one, .. } = three_numbers(cells)?;
    let mut slots = Slots::new(alloc, 2)?;
    let answers = vec![in alloc; Reply::Sat(nine), Reply::Sat(one)]?;
    page.line(
        "of 9 and 1",
        &put_for_each(alloc, cells, &mut slots, answers, atoms),
    );
    Ok(())
}

fn show_not_put(page: &mut Page, alloc: Global, cells: &mut Cells) -> Result<(), AllocError> {
    let Numbers { nine, .. } = three_numbers(cells)?;
    let mut slots = Slots::new(alloc, 2)?;
    let answers = vec![in alloc; Reply::Cut, Reply::Sat(nine)]?;
    let none = Vec::new(alloc);
    page.line(
        "of a Cut and 9",
        &put_for_each(alloc, cells, &mut slots, answers, &none),
    );
    Ok(())
}

/// Answers, the first of answers, answers in an order, and the atoms that are put for each.
pub fn show_picks(
    page: &mut Page,
    alloc: Global,
    cells: &mut Cells,
    atoms: &Vec<AtomPat>,
) -> Result<(), AllocError> {
    show_answers(page, alloc, cells)?;
    show_first(page, alloc, cells)?;
    show_sorted(page, alloc, cells)?;
    page.title("An atom is put for each satisfier");
    show_put(page, alloc, cells, atoms)?;
    show_not_put(page, alloc, cells)
}
