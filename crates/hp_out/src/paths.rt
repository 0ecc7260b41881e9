//! The texts of paths.

ghost use Rattle.std.specs.Prelude.{◌≤◌, ◌++◌, OnErr, codes, decimal};
ghost use Rattle.std.specs.List.{flat_map};
ghost use Rattle.hp_io.specs.Rules.{Rose};
ghost use Rattle.hp_out.specs.Pages.{desk, Puts};
ghost use Rattle.hp_syntax.specs.Report.{path_line, path_text};

use crate::page::Page;
use hp_io::{Failed, Sink};
use itoa::Buffer;

/// Puts a number of a path on a page.
fn push_number<K: Sink>(page: &mut Page, sink: &mut K, number: u64) -> Result<(), Failed>
    ensures puts { Puts result (decimal number)
        (desk (K.bytes sink.old) page.old) (desk (K.bytes sink.new) page.new) }
    ensures later { K.faults sink.old ≤ K.faults sink.new }
    ensures cause { OnErr result (Rose (K.faults sink.old) (K.faults sink.new)) }
{
    let mut digits = Buffer::new();
    page.push(sink, digits.format(number).as_bytes())
}

/// Puts a number of a path on a page, behind a point.
fn push_next<K: Sink>(page: &mut Page, sink: &mut K, number: u64) -> Result<(), Failed>
    ensures puts { Puts result (codes "." ++ decimal number)
        (desk (K.bytes sink.old) page.old) (desk (K.bytes sink.new) page.new) }
    ensures later { K.faults sink.old ≤ K.faults sink.new }
    ensures cause { OnErr result (Rose (K.faults sink.old) (K.faults sink.new)) }
{
    page.push(sink, b".")?;
    push_number(page, sink, number)
}

/// Puts the numbers behind the first of a path on a page.
fn push_others<K: Sink>(page: &mut Page, sink: &mut K, numbers: &[u64]) -> Result<(), Failed>
    ensures puts { Puts result (flat_map (λ j. codes "." ++ decimal j) numbers.now)
        (desk (K.bytes sink.old) page.old) (desk (K.bytes sink.new) page.new) }
    ensures later { K.faults sink.old ≤ K.faults sink.new }
    ensures cause { OnErr result (Rose (K.faults sink.old) (K.faults sink.new)) }
{
    for number in numbers {
        push_next(page, sink, *number)?;
    }
    Ok(())
}

/// Puts the numbers of a path on a page, joined by points, or a dash where it is empty.
pub fn push_path<K: Sink>(page: &mut Page, sink: &mut K, path: &[u64]) -> Result<(), Failed>
    ensures puts { Puts result (path_text path.now)
        (desk (K.bytes sink.old) page.old) (desk (K.bytes sink.new) page.new) }
    ensures later { K.faults sink.old ≤ K.faults sink.new }
    ensures cause { OnErr result (Rose (K.faults sink.old) (K.faults sink.new)) }
{
    match path {
        [] => page.push(sink, b"-"),
        [first, others @ ..] => {
            push_number(page, sink, *first)?;
            push_others(page, sink, others)
        }
    }
}

/// Puts the line of a path on a page.
pub fn push_path_line<K: Sink>(page: &mut Page, sink: &mut K, path: &[u64]) -> Result<(), Failed>
    ensures puts { Puts result (path_line path.now)
        (desk (K.bytes sink.old) page.old) (desk (K.bytes sink.new) page.new) }
    ensures later { K.faults sink.old ≤ K.faults sink.new }
    ensures cause { OnErr result (Rose (K.faults sink.old) (K.faults sink.new)) }
{
    page.push(sink, b"path ")?;
    push_path(page, sink, path)?;
    page.push(sink, b"\n")
}
