//! The texts of endings.

ghost use Rattle.std.specs.Prelude.{◌≤◌, ◌++◌, OnErr, codes, decimal};
ghost use Rattle.hp_io.specs.Rules.{Rose};
ghost use Rattle.hp_out.specs.Endings.{ending_of};
ghost use Rattle.hp_out.specs.Pages.{desk, Puts};
ghost use Rattle.hp_syntax.specs.Report.{AtFault, ending_word, ending_text};

use crate::ending::Ending;
use crate::page::Page;
use crate::words::fault_word;
use hp_io::{Failed, Sink};
use hp_syntax::RunFault;
use itoa::Buffer;

/// Puts a fault on a page: its kind and its span.
fn push_fault<K: Sink>(page: &mut Page, sink: &mut K, fault: RunFault) -> Result<(), Failed>
    ensures puts { Puts result (ending_word (AtFault fault))
        (desk (K.bytes sink.old) page.old) (desk (K.bytes sink.new) page.new) }
    ensures later { K.faults sink.old ≤ K.faults sink.new }
    ensures cause { OnErr result (Rose (K.faults sink.old) (K.faults sink.new)) }
{
    let mut from = Buffer::new();
    let mut to = Buffer::new();
    page.push_all(
        sink,
        &[
            b"fault ",
            fault_word(fault.kind),
            b" at ",
            from.format(fault.span.from).as_bytes(),
            b"-",
            to.format(fault.span.to).as_bytes(),
        ],
    )
}

/// Puts the words of an ending on a page.
fn push_word<K: Sink>(page: &mut Page, sink: &mut K, ending: &Ending) -> Result<(), Failed>
    ensures puts { Puts result (ending_word (ending_of ending.now))
        (desk (K.bytes sink.old) page.old) (desk (K.bytes sink.new) page.new) }
    ensures later { K.faults sink.old ≤ K.faults sink.new }
    ensures cause { OnErr result (Rose (K.faults sink.old) (K.faults sink.new)) }
{
    match *ending {
        Ending::Stopped => page.push(sink, b"stopped"),
        Ending::End => page.push(sink, b"end"),
        Ending::Cut => page.push(sink, b"cut"),
        Ending::Fault(fault) => push_fault(page, sink, fault),
    }
}

/// Puts the counts of an ending on a page, and the end of its line.
fn push_counts<K: Sink>(
    page: &mut Page,
    sink: &mut K,
    plans: u64,
    expansions: u64,
) -> Result<(), Failed>
    ensures puts { Puts result
        (codes " plans " ++ decimal plans ++ codes " expansions " ++ decimal expansions ++ codes "\n")
        (desk (K.bytes sink.old) page.old) (desk (K.bytes sink.new) page.new) }
    ensures later { K.faults sink.old ≤ K.faults sink.new }
    ensures cause { OnErr result (Rose (K.faults sink.old) (K.faults sink.new)) }
{
    let mut first = Buffer::new();
    let mut second = Buffer::new();
    page.push_all(
        sink,
        &[
            b" plans ",
            first.format(plans).as_bytes(),
            b" expansions ",
            second.format(expansions).as_bytes(),
            b"\n",
        ],
    )
}

/// Puts the line of an ending on a page.
pub fn push_ending<K: Sink>(
    page: &mut Page,
    sink: &mut K,
    ending: &Ending,
    plans: u64,
    expansions: u64,
) -> Result<(), Failed>
    ensures puts { Puts result (ending_text (ending_of ending.now) plans expansions)
        (desk (K.bytes sink.old) page.old) (desk (K.bytes sink.new) page.new) }
    ensures later { K.faults sink.old ≤ K.faults sink.new }
    ensures cause { OnErr result (Rose (K.faults sink.old) (K.faults sink.new)) }
{
    push_word(page, sink, ending)?;
    push_counts(page, sink, plans, expansions)
}
