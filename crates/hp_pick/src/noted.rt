//! Notes on satisfiers while their whole list is heard.
ghost use Rattle.std.specs.Prelude.{◌≡◌, ◌<◌, ◌^◌, [], false, true, List, IfOk, Ok, length};
ghost use Rattle.std.specs.List.{All};
ghost use Rattle.hp_syntax.specs.Views.{key_of};
ghost use Rattle.hp_syntax.specs.Values.{bound};
ghost use Rattle.hp_syntax.specs.Preconditions.{keyed};
ghost use Rattle.hp_eval.specs.Slotted.{Slotted, Binds, AreBelow, bindings_of};
ghost use Rattle.hp_eval.specs.Events.{PlainEvent, event_of, left_after, AreOfFirst};
ghost use Rattle.hp_pick.specs.Noted.{IsNoted, number_at, with_notes, AddsSat, HearsOn};

use hp_cells::{Cell, Cells, View};
use hp_eval::{EvalStop, Event, Slots};
use hp_syntax::{FaultKind, RunFault, SortKey};
use std::alloc::{AllocError, Global};

/// A satisfier: the number by which it is sorted, and the cells of its variables.
pub(crate) struct Noted {
    pub(crate) number: i64,
    pub(crate) values: Vec<Option<Cell>>,
}

impl Drop for Noted {
    fn drop(self) {
        let Noted { number: _, values } = self;
        drop(values);
    }
}

/// The satisfiers of a list, and whether a Cut stood in it.
pub(crate) struct NotedSats {
    pub(crate) sats: Vec<Noted>,
    pub(crate) cut: bool,
}

impl Drop for NotedSats {
    fn drop(self) {
        let NotedSats { sats, cut: _ } = self;
        drop(sats);
    }
}

impl NotedSats {
    pub(crate) fn new(alloc: Global) -> NotedSats
        ensures sats { result.sats.items ≡ [] }
        ensures cut { result.cut ≡ false }
    {
        NotedSats {
            sats: Vec::new(alloc),
            cut: false,
        }
    }
}

// The number that the variable of a key stands for.
fn number_of(key: &SortKey, cells: &Cells, slots: &Slots) -> Result<i64, RunFault>
    requires below { AreBelow (length cells.now) slots.now }
    ensures { result ≡ number_at key.now.span (bound (bindings_of cells.now slots.now) key.now.var) }
{
    let Some(cell) = slots.value_of(key.var) else {
        return Err(RunFault {
            kind: FaultKind::NotGround,
            span: key.span,
        });
    };
    match cells.get(cell) {
        View::Num(n) => Ok(n),
        View::Nil | View::Sym(_) | View::Cons(_, _) => Err(RunFault {
            kind: FaultKind::NotNumber,
            span: key.span,
        }),
    }
}

// A copy of the variables' cells.
fn values_of(alloc: Global, slots: &Slots) -> Result<Vec<Option<Cell>>, AllocError>
    ensures copy { IfOk result (λ values. values.items ≡ slots.now.values) }
    ensures few { IfOk result (λ values. length values.items < 2 ^ 32) }
{
    // Variables are named by 32 bits; of more there is no copy.
    let Ok(vars) = u32::try_from(slots.vars()) else {
        return Err(AllocError);
    };
    let mut values = Vec::with_capacity(alloc, vars as usize)?;
    for v in 0..vars {
        values.push(slots.get(v))?;
    }
    Ok(values)
}

// Notes a Sat whose bindings are in the slots.
fn note_sat(
    alloc: Global,
    key: &SortKey,
    cells: &Cells,
    slots: &Slots,
    notes: &mut NotedSats,
) -> Result<(), EvalStop>
    requires below { AreBelow (length cells.now) slots.now }
    ensures adds { AddsSat (key_of key.now) cells.now result (bindings_of cells.now slots.now) notes.old notes.new }
    ensures noted { (start : Slotted) → Binds start slots.now
        → All (IsNoted (length cells.now) start) notes.old.sats.items
        → All (IsNoted (length cells.now) start) notes.new.sats.items }
{
    let number = number_of(key, cells, slots)?;
    let values = values_of(alloc, slots)?;
    notes.sats.push(Noted { number, values })?;
    Ok(())
}

/// Notes the first event of a list, whose bindings are in the slots if it is a Sat: true where more may come, false at
/// the end.
pub(crate) fn note(
    alloc: Global,
    event: Event,
    key: &SortKey,
    cells: &Cells,
    slots: &Slots,
    notes: &mut NotedSats,
) -> Result<bool, EvalStop>
    requires below { AreBelow (length cells.now) slots.now }
    ensures step { (xs : List PlainEvent) → event ≡ event_of xs → AreOfFirst xs (bindings_of cells.now slots.now)
        → HearsOn result (with_notes cells.now notes.old (keyed (key_of key.now) xs))
        (with_notes cells.now notes.new (keyed (key_of key.now) (left_after xs)))
        (with_notes cells.now notes.new (keyed (key_of key.now) [])) }
    ensures fewer { (xs : List PlainEvent) → event ≡ event_of xs → result ≡ Ok true
        → length (left_after xs) < length xs }
    ensures noted { (start : Slotted) → Binds start slots.now
        → All (IsNoted (length cells.now) start) notes.old.sats.items
        → All (IsNoted (length cells.now) start) notes.new.sats.items }
{
    match event {
        Event::Sat => {
            note_sat(alloc, key, cells, slots, notes)?;
            Ok(true)
        }
        Event::Cut => {
            notes.cut = true;
            Ok(true)
        }
        Event::Fault(fault) => Err(EvalStop::Fault(fault)),
        Event::End => Ok(false),
    }
}
