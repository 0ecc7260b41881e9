//! The texts of terms that have memory of their own.

ghost use Rattle.std.specs.Prelude.{◌≤◌, ◌++◌, OnErr, codes, map};
ghost use Rattle.hp_io.specs.Rules.{Rose};
ghost use Rattle.hp_out.specs.Pages.{desk, Puts};
ghost use Rattle.hp_syntax.specs.GroundViews.{ground_of, grounds_of};
ghost use Rattle.hp_syntax.specs.Report.{lines_text};
ghost use Rattle.hp_syntax.specs.Terms.{Listed};
ghost use Rattle.hp_syntax.specs.TermTexts.{term_text, terms_text};

use crate::page::Page;
use crate::terms::push_number;
use hp_io::{Failed, Sink};
use hp_syntax::Ground;

/// Puts the text of a term on a page.
#[cycle(ground)]
fn push_ground<K: Sink>(page: &mut Page, sink: &mut K, term: &Ground) -> Result<(), Failed>
    ensures puts { Puts result (term_text (ground_of term.now))
        (desk (K.bytes sink.old) page.old) (desk (K.bytes sink.new) page.new) }
    ensures later { K.faults sink.old ≤ K.faults sink.new }
    ensures cause { OnErr result (Rose (K.faults sink.old) (K.faults sink.new)) }
{
    match term {
        Ground::Sym(name) => page.push(sink, name.bytes()),
        Ground::Num(n) => push_number(page, sink, *n),
        Ground::List(parts) => push_list(page, sink, parts.as_slice()),
    }
}

/// Puts the text of a list on a page, which begins with its first part.
#[cycle(ground)]
fn push_list<K: Sink>(page: &mut Page, sink: &mut K, parts: &[Ground]) -> Result<(), Failed>
    ensures puts { Puts result (term_text (Listed (grounds_of parts.now)))
        (desk (K.bytes sink.old) page.old) (desk (K.bytes sink.new) page.new) }
    ensures later { K.faults sink.old ≤ K.faults sink.new }
    ensures cause { OnErr result (Rose (K.faults sink.old) (K.faults sink.new)) }
{
    match parts {
        [] => page.push(sink, b"()"),
        [first, others @ ..] => {
            page.push(sink, b"(")?;
            push_ground(page, sink, first)?;
            push_others(page, sink, others)
        }
    }
}

/// Puts what follows in a list on a page: its parts behind the first, and the closing bracket. However many the parts
/// are, no call waits for the next part.
#[cycle(ground)]
fn push_others<K: Sink>(page: &mut Page, sink: &mut K, parts: &[Ground]) -> Result<(), Failed>
    ensures puts { Puts result (terms_text (grounds_of parts.now))
        (desk (K.bytes sink.old) page.old) (desk (K.bytes sink.new) page.new) }
    ensures later { K.faults sink.old ≤ K.faults sink.new }
    ensures cause { OnErr result (Rose (K.faults sink.old) (K.faults sink.new)) }
{
    for part in parts {
        page.push(sink, b" ")?;
        push_ground(page, sink, part)?;
    }
    page.push(sink, b")")
}

/// Puts the line of a term on a page.
fn push_ground_line<K: Sink>(page: &mut Page, sink: &mut K, term: &Ground) -> Result<(), Failed>
    ensures puts { Puts result (term_text (ground_of term.now) ++ codes "\n")
        (desk (K.bytes sink.old) page.old) (desk (K.bytes sink.new) page.new) }
    ensures later { K.faults sink.old ≤ K.faults sink.new }
    ensures cause { OnErr result (Rose (K.faults sink.old) (K.faults sink.new)) }
{
    push_ground(page, sink, term)?;
    page.push(sink, b"\n")
}

/// Puts a line for each term on a page.
pub fn push_ground_lines<K: Sink>(
    page: &mut Page,
    sink: &mut K,
    terms: &[Ground],
) -> Result<(), Failed>
    ensures puts { Puts result (lines_text (map ground_of terms.now))
        (desk (K.bytes sink.old) page.old) (desk (K.bytes sink.new) page.new) }
    ensures later { K.faults sink.old ≤ K.faults sink.new }
    ensures cause { OnErr result (Rose (K.faults sink.old) (K.faults sink.new)) }
{
    for term in terms {
        push_ground_line(page, sink, term)?;
    }
    Ok(())
}
