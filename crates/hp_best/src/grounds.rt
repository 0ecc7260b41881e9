//! Terms that outlive the cells that name them.
ghost use Rattle.std.specs.Prelude.{◌≡◌, ◌<◌, IfOk, length, map};
ghost use Rattle.hp_cells.specs.Cells.{NamesList};
ghost use Rattle.hp_cells.specs.Keys.{parts_of};
ghost use Rattle.hp_eval.specs.GoalViews.{term_at};
ghost use Rattle.hp_syntax.specs.GroundViews.{ground_of, grounds_of};
ghost use Rattle.hp_world.specs.Stages.{AllBelow, terms_at};

use hp_cells::{Cell, Cells, View};
use hp_syntax::Ground;
use std::alloc::{AllocError, Global};

/// The terms of the parts of a list. However many they are, no call waits for the next part.
#[cycle(ground)]
fn list_parts(alloc: Global, cells: &Cells, list: Cell) -> Result<Vec<Ground>, AllocError>
    requires { NamesList cells.now list }
    ensures { IfOk result (λ v. grounds_of v.items ≡ parts_of (term_at cells.now list)) }
{
    let mut parts = Vec::new(alloc);
    let mut rest = list;
    while let View::Cons(head, tail) = cells.get(rest) {
        let part = to_ground(alloc, cells, head)?;
        parts.push(part)?;
        rest = tail;
    }
    Ok(parts)
}

/// The term of a cell, in memory of its own.
#[cycle(ground)]
pub fn to_ground(alloc: Global, cells: &Cells, cell: Cell) -> Result<Ground, AllocError>
    requires { cell < length cells.now }
    ensures { IfOk result (λ g. ground_of g ≡ term_at cells.now cell) }
{
    match cells.get(cell) {
        View::Nil => Ok(Ground::List(Vec::new(alloc))),
        View::Sym(name) => {
            let own = name.copy(alloc)?;
            Ok(Ground::Sym(own))
        }
        View::Num(n) => Ok(Ground::Num(n)),
        View::Cons(_, _) => {
            let parts = list_parts(alloc, cells, cell)?;
            Ok(Ground::List(parts))
        }
    }
}

/// The terms of cells, in memory of their own.
pub fn to_grounds(alloc: Global, cells: &Cells, list: &[Cell]) -> Result<Vec<Ground>, AllocError>
    requires { AllBelow (length cells.now) list.now }
    ensures { IfOk result (λ v. map ground_of v.items ≡ terms_at cells.now list.now) }
{
    let mut terms = Vec::with_capacity(alloc, list.len())?;
    for cell in list {
        let term = to_ground(alloc, cells, *cell)?;
        terms.push_reserved(term);
    }
    Ok(terms)
}
