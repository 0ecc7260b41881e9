//! The texts of plans that were derived.

ghost use Rattle.std.specs.Prelude.{◌≤◌, ◌++◌, OnErr, codes, decimal};
ghost use Rattle.hp_io.specs.Rules.{Rose};
ghost use Rattle.hp_out.specs.Lines.{derived_text};
ghost use Rattle.hp_out.specs.Pages.{desk, Puts};
ghost use Rattle.hp_syntax.specs.Report.{path_text};

use crate::page::Page;
use crate::paths::push_path;
use crate::plans::push_cost;
use hp_io::{Failed, Sink};
use itoa::Buffer;

/// Puts a number of decompositions on a page, and the end of its line.
fn push_expansions<K: Sink>(page: &mut Page, sink: &mut K, expansions: u64) -> Result<(), Failed>
    ensures puts { Puts result (codes " expansions " ++ decimal expansions ++ codes "\n")
        (desk (K.bytes sink.old) page.old) (desk (K.bytes sink.new) page.new) }
    ensures later { K.faults sink.old ≤ K.faults sink.new }
    ensures cause { OnErr result (Rose (K.faults sink.old) (K.faults sink.new)) }
{
    let mut number = Buffer::new();
    page.push_all(
        sink,
        &[b" expansions ", number.format(expansions).as_bytes(), b"\n"],
    )
}

/// Puts a path and the decompositions on the way on a page, and the end of their line.
fn push_way<K: Sink>(
    page: &mut Page,
    sink: &mut K,
    path: &[u64],
    expansions: u64,
) -> Result<(), Failed>
    ensures puts { Puts result
        (codes " path " ++ path_text path.now ++ codes " expansions " ++ decimal expansions ++ codes "\n")
        (desk (K.bytes sink.old) page.old) (desk (K.bytes sink.new) page.new) }
    ensures later { K.faults sink.old ≤ K.faults sink.new }
    ensures cause { OnErr result (Rose (K.faults sink.old) (K.faults sink.new)) }
{
    page.push(sink, b" path ")?;
    push_path(page, sink, path)?;
    push_expansions(page, sink, expansions)
}

/// Puts the line of a plan that was derived on a page: its cost, which is a count of thousandths, its path, and the
/// decompositions on the way.
pub fn push_derived<K: Sink>(
    page: &mut Page,
    sink: &mut K,
    cost: i128,
    path: &[u64],
    expansions: u64,
) -> Result<(), Failed>
    ensures puts { Puts result (derived_text cost path.now expansions)
        (desk (K.bytes sink.old) page.old) (desk (K.bytes sink.new) page.new) }
    ensures later { K.faults sink.old ≤ K.faults sink.new }
    ensures cause { OnErr result (Rose (K.faults sink.old) (K.faults sink.new)) }
{
    push_cost(page, sink, b"derived cost ", cost)?;
    push_way(page, sink, path, expansions)
}
