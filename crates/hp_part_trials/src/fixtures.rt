//! Symbols, numbers and atoms that several trials take.
ghost use Rattle.std.specs.Prelude.{◌<◌, ◌≤◌, IfOk, length};

use hp_cells::{Cell, Cells, View};
use hp_syntax::Name;
use std::alloc::{AllocError, Global};

/// Atoms as heads of axioms, tasks, and a cost.
pub const SAMPLES: &str = "(defdomain samples (
  (:- (go (3)) ())
  (:- (go ?0) ())
  (:- (go . ?0) ())
  (:- (p ?0 (f ?1 . ?2) (call + 1 2) . ?1) ())
  (:- (p a) ())
  (:method (m) () ((:immediate go (3))))
  (:operator (!m) () () ((forall () () ((p a)))) 7)
))";

/// A symbol's cell.
pub fn symbol(alloc: Global, cells: &mut Cells, word: &[u8]) -> Result<Cell, AllocError>
    ensures below { IfOk result (λ cell. cell < length cells.new) }
    ensures more { length cells.old ≤ length cells.new }
{
    let name = Name::new(alloc, word)?;
    cells.sym(&name)
}

/// The number that a cell names, by its thousandths, if there is a cell and it names one.
pub fn number(cells: &Cells, cell: Option<Cell>) -> Option<i64> {
    match cell {
        Some(cell) if cell.index() < cells.len() => match cells.get(cell) {
            View::Num(n) => Some(n),
            _ => None,
        },
        _ => None,
    }
}
