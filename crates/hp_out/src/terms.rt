//! The texts of terms, by the cells that name them.

ghost use Rattle.std.specs.Prelude.{◌≡◌, ℕ, ◌≤◌, ◌<◌, [], ◌∷◌, ◌++◌, Some, OnErr, codes, length};
ghost use Rattle.hp_cells.specs.Cells.{NamesList};
ghost use Rattle.hp_cells.specs.Keys.{parts_of};
ghost use Rattle.hp_eval.specs.GoalViews.{term_at};
ghost use Rattle.hp_io.specs.Rules.{Rose};
ghost use Rattle.hp_out.specs.Pages.{desk, Puts};
ghost use Rattle.hp_syntax.specs.Report.{lines_text};
ghost use Rattle.hp_syntax.specs.TermTexts.{num_text, term_text, terms_text};
ghost use Rattle.hp_world.specs.Stages.{AllBelow, StageBelow, live_atoms, state_of, terms_at};

use crate::page::Page;
use hp_cells::{Cell, Cells, View};
use hp_io::{Failed, Sink};
use hp_syntax::{Decimals, sign};
use hp_world::World;
use itoa::Buffer;

/// Puts a number on a page, by its count of thousandths.
pub fn push_number<K: Sink>(page: &mut Page, sink: &mut K, number: i64) -> Result<(), Failed>
    ensures puts { Puts result (num_text number)
        (desk (K.bytes sink.old) page.old) (desk (K.bytes sink.new) page.new) }
    ensures later { K.faults sink.old ≤ K.faults sink.new }
    ensures cause { OnErr result (Rose (K.faults sink.old) (K.faults sink.new)) }
{
    let magnitude = number.unsigned_abs();
    let decimals = Decimals::new((magnitude % 1000) as u32);
    let mut whole = Buffer::new();
    let digits = whole.format(magnitude / 1000).as_bytes();
    page.push_all(sink, &[sign(number < 0), digits, decimals.as_bytes()])
}

/// Puts the text of a term on a page.
#[cycle(term)]
pub fn push_term<K: Sink>(
    page: &mut Page,
    sink: &mut K,
    cells: &Cells,
    cell: Cell,
) -> Result<(), Failed>
    requires { cell < length cells.now }
    ensures puts { Puts result (term_text (term_at cells.now cell))
        (desk (K.bytes sink.old) page.old) (desk (K.bytes sink.new) page.new) }
    ensures later { K.faults sink.old ≤ K.faults sink.new }
    ensures cause { OnErr result (Rose (K.faults sink.old) (K.faults sink.new)) }
{
    match cells.get(cell) {
        View::Nil => page.push(sink, b"()"),
        View::Sym(name) => page.push(sink, name.bytes()),
        View::Num(n) => push_number(page, sink, n),
        View::Cons(head, tail) => {
            page.push(sink, b"(")?;
            push_term(page, sink, cells, head)?;
            push_parts(page, sink, cells, tail)
        }
    }
}

/// Puts what follows in a list on a page: its parts, and the closing bracket. However many the parts are, no call waits
/// for the next part.
#[cycle(term)]
fn push_parts<K: Sink>(
    page: &mut Page,
    sink: &mut K,
    cells: &Cells,
    list: Cell,
) -> Result<(), Failed>
    requires { NamesList cells.now list }
    ensures puts { Puts result (terms_text (parts_of (term_at cells.now list)))
        (desk (K.bytes sink.old) page.old) (desk (K.bytes sink.new) page.new) }
    ensures later { K.faults sink.old ≤ K.faults sink.new }
    ensures cause { OnErr result (Rose (K.faults sink.old) (K.faults sink.new)) }
{
    let mut rest = list;
    while let View::Cons(head, tail) = cells.get(rest) {
        page.push(sink, b" ")?;
        push_term(page, sink, cells, head)?;
        rest = tail;
    }
    page.push(sink, b")")
}

/// Puts the line of a term on a page.
pub fn push_line<K: Sink>(
    page: &mut Page,
    sink: &mut K,
    cells: &Cells,
    cell: Cell,
) -> Result<(), Failed>
    requires { cell < length cells.now }
    ensures puts { Puts result (term_text (term_at cells.now cell) ++ codes "\n")
        (desk (K.bytes sink.old) page.old) (desk (K.bytes sink.new) page.new) }
    ensures later { K.faults sink.old ≤ K.faults sink.new }
    ensures cause { OnErr result (Rose (K.faults sink.old) (K.faults sink.new)) }
{
    push_term(page, sink, cells, cell)?;
    page.push(sink, b"\n")
}

/// Puts a line for each term on a page.
pub fn push_lines<K: Sink>(
    page: &mut Page,
    sink: &mut K,
    cells: &Cells,
    list: &[Cell],
) -> Result<(), Failed>
    requires { AllBelow (length cells.now) list.now }
    ensures puts { Puts result (lines_text (terms_at cells.now list.now))
        (desk (K.bytes sink.old) page.old) (desk (K.bytes sink.new) page.new) }
    ensures later { K.faults sink.old ≤ K.faults sink.new }
    ensures cause { OnErr result (Rose (K.faults sink.old) (K.faults sink.new)) }
{
    for cell in list {
        push_line(page, sink, cells, *cell)?;
    }
    Ok(())
}

/// Puts the line of what stands at a place on a page, if an atom does.
fn push_place<K: Sink>(
    page: &mut Page,
    sink: &mut K,
    cells: &Cells,
    place: Option<Cell>,
) -> Result<(), Failed>
    requires { (atom : ℕ) → place ≡ Some atom → atom < length cells.now }
    ensures puts { Puts result (lines_text (terms_at cells.now (live_atoms (place ∷ []))))
        (desk (K.bytes sink.old) page.old) (desk (K.bytes sink.new) page.new) }
    ensures later { K.faults sink.old ≤ K.faults sink.new }
    ensures cause { OnErr result (Rose (K.faults sink.old) (K.faults sink.new)) }
{
    match place {
        Some(atom) => push_line(page, sink, cells, atom),
        None => Ok(()),
    }
}

/// Puts a line for each atom of a world on a page.
pub fn push_atoms<K: Sink>(
    page: &mut Page,
    sink: &mut K,
    cells: &Cells,
    world: &World,
) -> Result<(), Failed>
    requires { StageBelow (length cells.now) world.now.now }
    ensures puts { Puts result (lines_text (state_of cells.now world.now.now))
        (desk (K.bytes sink.old) page.old) (desk (K.bytes sink.new) page.new) }
    ensures later { K.faults sink.old ≤ K.faults sink.new }
    ensures cause { OnErr result (Rose (K.faults sink.old) (K.faults sink.new)) }
{
    for place in 0..world.places() {
        push_place(page, sink, cells, world.at(place))?;
    }
    Ok(())
}
