//! A whole list of satisfiers is heard, and put in order.
ghost use Rattle.std.specs.Prelude.{◌≡◌, ◌<◌, ◌≤◌, true, [], List, map, length, IfOk, OnOk, Ok};
ghost use Rattle.std.specs.List.{All};
ghost use Rattle.std.specs.List.Sorted.{IsPermutation};
ghost use Rattle.hp_syntax.specs.Terms.{Term};
ghost use Rattle.hp_syntax.specs.Views.{key_of, order_of};
ghost use Rattle.hp_syntax.specs.Preconditions.{keyed, sorts_before, sorted, sorted_events};
ghost use Rattle.hp_eval.specs.Slotted.{AreBelow, undone};
ghost use Rattle.hp_eval.specs.Growth.{Grows};
ghost use Rattle.hp_pick.specs.Noted.{IsNoted, entry_of, with_notes, HearsOn, Hears, HearsInOrder};

use crate::noted::{Noted, NotedSats, note};
use hp_cells::Cells;
use hp_eval::{EvalStop, Sats, Slots};
use hp_syntax::{SortKey, SortOrder};
use std::alloc::{AllocError, Global};

// Hears the next event and notes it: true where more may come, false at the end.
fn hear_next<B, S: Sats<B>>(
    alloc: Global,
    inner: &mut S,
    key: &SortKey,
    base: &B,
    cells: &mut Cells,
    slots: &mut Slots,
    notes: &mut NotedSats,
) -> Result<bool, EvalStop>
    requires live { S.is_live inner.old ≡ true }
    requires open { S.is_open inner.old ≡ true }
    requires base { S.suits inner.old base.now cells.old }
    requires slots { S.fits inner.old slots.old }
    requires cells { S.kept inner.old ≤ length cells.old }
    requires noted { All (IsNoted (length cells.old) (undone (S.start inner.old) slots.old)) notes.old.sats.items }
    ensures step { HearsOn result
        (with_notes cells.old notes.old (keyed (key_of key.now) (S.rest inner.old base.now cells.old slots.old)))
        (with_notes cells.new notes.new (keyed (key_of key.now) (S.rest inner.new base.now cells.new slots.new)))
        (with_notes cells.new notes.new (keyed (key_of key.now) [])) }
    ensures fewer { result ≡ Ok true → length (S.rest inner.new base.now cells.new slots.new)
        < length (S.rest inner.old base.now cells.old slots.old) }
    ensures noted { All (IsNoted (length cells.new) (undone (S.start inner.new) slots.new)) notes.new.sats.items }
    ensures base { S.suits inner.new base.now cells.new }
    ensures slots { S.fits inner.new slots.new }
    ensures undone { undone (S.start inner.new) slots.new ≡ undone (S.start inner.old) slots.old }
    ensures start { S.start inner.new ≡ S.start inner.old }
    ensures kept { (S.kept inner.old ≤ S.kept inner.new) × (S.kept inner.new ≤ length cells.new) }
    ensures cells { Grows cells.old cells.new }
    ensures live { OnOk result (S.is_live inner.new ≡ true) }
    ensures open { S.is_open inner.new ≡ true }
{
    let event = inner.next(base, cells, slots)?;
    note(alloc, event, key, cells, slots, notes)
}

// Hears all events, or those before a fault.
fn hear<B, S: Sats<B>>(
    alloc: Global,
    inner: &mut S,
    key: &SortKey,
    base: &B,
    cells: &mut Cells,
    slots: &mut Slots,
) -> Result<NotedSats, EvalStop>
    requires live { S.is_live inner.old ≡ true }
    requires open { S.is_open inner.old ≡ true }
    requires base { S.suits inner.old base.now cells.old }
    requires slots { S.fits inner.old slots.old }
    requires cells { S.kept inner.old ≤ length cells.old }
    ensures heard { Hears cells.new result
        (keyed (key_of key.now) (S.rest inner.old base.now cells.old slots.old)) }
    ensures noted { IfOk result (λ notes.
        All (IsNoted (length cells.new) (undone (S.start inner.new) slots.new)) notes.sats.items) }
    ensures slots { S.fits inner.new slots.new }
    ensures undone { undone (S.start inner.new) slots.new ≡ undone (S.start inner.old) slots.old }
    ensures start { S.start inner.new ≡ S.start inner.old }
    ensures kept { (S.kept inner.old ≤ S.kept inner.new) × (S.kept inner.new ≤ length cells.new) }
    ensures cells { Grows cells.old cells.new }
    ensures open { S.is_open inner.new ≡ true }
{
    let mut notes = NotedSats::new(alloc);
    while hear_next(alloc, inner, key, base, cells, slots, &mut notes)? {}
    Ok(notes)
}

// Hears all events, or those before a fault, and closes.
fn hear_whole<B, S: Sats<B>>(
    alloc: Global,
    inner: &mut S,
    key: &SortKey,
    base: &B,
    cells: &mut Cells,
    slots: &mut Slots,
) -> Result<NotedSats, EvalStop>
    requires live { S.is_live inner.old ≡ true }
    requires open { S.is_open inner.old ≡ true }
    requires base { S.suits inner.old base.now cells.old }
    requires slots { S.fits inner.old slots.old }
    requires cells { S.kept inner.old ≤ length cells.old }
    ensures heard { Hears cells.new result
        (keyed (key_of key.now) (S.rest inner.old base.now cells.old slots.old)) }
    ensures noted { IfOk result (λ notes. All (IsNoted (length cells.new) slots.new) notes.sats.items) }
    ensures below { AreBelow (length cells.new) slots.new }
    ensures slots { slots.new ≡ undone (S.start inner.old) slots.old }
    ensures kept { S.kept inner.old ≤ length cells.new }
    ensures cells { Grows cells.old cells.new }
{
    let heard = hear(alloc, inner, key, base, cells, slots);
    inner.close(slots);
    heard
}

// Puts satisfiers into the order of their numbers. Equal ones keep their order. An error leaves them as they are.
fn sort(sats: &mut Vec<Noted>, order: &SortOrder) -> Result<(), AllocError>
    ensures sorted { OnOk result ((c : List Term) → map (entry_of c) sats.new.items
        ≡ sorted (sorts_before (order_of order.now)) (map (entry_of c) sats.old.items)) }
    ensures permutation { IsPermutation sats.old.items sats.new.items }
{
    match order {
        SortOrder::Down => sats.sort_by(|m, n| n.number.cmp(&m.number)),
        SortOrder::Up | SortOrder::Unknown(_, _) => sats.sort_by(|m, n| m.number.cmp(&n.number)),
    }
}

/// Hears all events and closes, and puts the satisfiers in their order.
pub(crate) fn hear_in_order<B, S: Sats<B>>(
    alloc: Global,
    inner: &mut S,
    key: &SortKey,
    base: &B,
    cells: &mut Cells,
    slots: &mut Slots,
) -> Result<NotedSats, EvalStop>
    requires live { S.is_live inner.old ≡ true }
    requires open { S.is_open inner.old ≡ true }
    requires base { S.suits inner.old base.now cells.old }
    requires slots { S.fits inner.old slots.old }
    requires cells { S.kept inner.old ≤ length cells.old }
    ensures heard { HearsInOrder cells.new result (sorted_events (key_of key.now).order
        (keyed (key_of key.now) (S.rest inner.old base.now cells.old slots.old))) }
    ensures noted { IfOk result (λ notes. All (IsNoted (length cells.new) slots.new) notes.sats.items) }
    ensures below { AreBelow (length cells.new) slots.new }
    ensures slots { slots.new ≡ undone (S.start inner.old) slots.old }
    ensures kept { S.kept inner.old ≤ length cells.new }
    ensures cells { Grows cells.old cells.new }
{
    let mut notes = hear_whole(alloc, inner, key, base, cells, slots)?;
    sort(&mut notes.sats, &key.order)?;
    Ok(notes)
}
