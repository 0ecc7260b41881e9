//! The cost of an operator.
ghost use Rattle.std.specs.Prelude.{◌≡◌, ◌<◌, Some, length, slice_get};
ghost use Rattle.hp_syntax.specs.Changes.{cost_value};
ghost use Rattle.hp_syntax.specs.Terms.{Term};
ghost use Rattle.hp_syntax.specs.Views.{pattern_of};
ghost use Rattle.hp_eval.specs.Growth.{Grows};
ghost use Rattle.hp_eval.specs.Slotted.{AreBelow, bindings_of};
ghost use Rattle.hp_effect.specs.Costs.{Costs, number_in};

use hp_cells::{Cell, Cells, View};
use hp_eval::{EvalStop, Slots, value};
use hp_syntax::{FaultKind, Pat, PatKind, RunFault};
use std::alloc::Global;

// The number that a cell's term is.
fn number(cell: Cell, cells: &Cells) -> Option<i64>
    requires { cell < length cells.now }
    ensures { (t : Term) → slice_get cells.now cell ≡ Some t → result ≡ number_in t }
{
    match cells.get(cell) {
        View::Num(n) => Some(n),
        View::Nil => None,
        View::Sym(_) => None,
        View::Cons(..) => None,
    }
}

/// The number that a cost's pattern stands for, or the first fault from the left; another value is a fault at the
/// pattern.
pub fn cost(alloc: Global, pat: &Pat, slots: &Slots, cells: &mut Cells) -> Result<i64, EvalStop>
    requires slots { AreBelow (length cells.old) slots.now }
    ensures costs { Costs result (cost_value (pattern_of pat.now) (bindings_of cells.old slots.now)) }
    ensures cells { Grows cells.old cells.new }
{
    // A written number is known without a cell for it.
    if let PatKind::Num(n) = &pat.kind {
        return Ok(*n);
    }
    let cell = value(alloc, pat, slots, cells)?;
    match number(cell, cells) {
        Some(n) => Ok(n),
        None => Err(EvalStop::Fault(RunFault {
            kind: FaultKind::NotNumber,
            span: pat.span,
        })),
    }
}
