//! The lines of a run.

use hp_check::Note;
use hp_fixtures::page::Page;
use hp_io::{Input, MemSink};
use hp_out::{Ending, Pen, Refusal};
use hp_syntax::{CheckFault, CheckKind, FaultKind, Name, RunFault, Span, TextKind, What};
use std::alloc::{AllocError, Global};

const SPAN: Span = Span { from: 25, to: 29 };

const UNKNOWN_ORDER: CheckFault = CheckFault {
    kind: CheckKind::UnknownOrder,
    in_problem: false,
    span: SPAN,
};

const ZERO_DIVISOR: RunFault = RunFault {
    kind: FaultKind::ZeroDivisor,
    span: SPAN,
};

/// What a sink takes of the line of a refusal, and whether it takes all.
fn show_refusal(page: &mut Page, sink: Result<MemSink, AllocError>, refusal: &Refusal) {
    if let Ok(mut sink) = sink {
        let is_taken = Pen::new(&mut sink).refusal_line(refusal).is_ok();
        page.row(sink.bytes(), &is_taken);
    }
}

fn show_refusals(page: &mut Page, alloc: Global) {
    page.title("Refusals have a line each");
    for refusal in [
        Refusal::Usage,
        Refusal::Read(Input::Domain),
        Refusal::Read(Input::Problem),
        Refusal::Text(Input::Domain, TextKind::TooNested, 64),
        Refusal::Text(Input::Problem, TextKind::TooLarge, 4_194_304),
        Refusal::Form(Input::Domain, What::Head, SPAN),
        Refusal::Check(UNKNOWN_ORDER),
    ] {
        show_refusal(page, MemSink::new(alloc, 100), &refusal);
    }
}

/// What a sink takes of an empty text and the line of a note, and whether it takes all.
fn show_note(page: &mut Page, sink: Result<MemSink, AllocError>, note: &Note) {
    if let Ok(mut sink) = sink {
        let mut pen = Pen::new(&mut sink);
        let is_taken = pen.text(b"").is_ok() && pen.note_line(note).is_ok();
        page.row(sink.bytes(), &is_taken);
    }
}

fn note_of(alloc: Global, in_problem: bool) -> Result<Note, AllocError> {
    Ok(Note {
        name: Name::new(alloc, b"deliver")?,
        span: SPAN,
        in_problem,
    })
}

fn show_notes(page: &mut Page, alloc: Global) -> Result<(), AllocError> {
    page.title("Notes have a line each");
    for in_problem in [false, true] {
        let note = note_of(alloc, in_problem)?;
        show_note(page, MemSink::new(alloc, 100), &note);
    }
    Ok(())
}

/// A sink that takes three bytes a write, and has so much room.
fn slow_sink(alloc: Global, room: usize) -> Result<MemSink, AllocError> {
    let mut sink = MemSink::new(alloc, room)?;
    sink.take_at_most(3);
    Ok(sink)
}

fn show_prefixes_of_a_refusal(page: &mut Page, alloc: Global) {
    page.title("A line that fails leaves a prefix");
    for room in 0..37 {
        show_refusal(page, slow_sink(alloc, room), &Refusal::Check(UNKNOWN_ORDER));
    }
}

/// What a sink takes of the line of an ending, and whether it takes all.
fn show_ending(
    page: &mut Page,
    sink: Result<MemSink, AllocError>,
    ending: &Ending,
    plans: u64,
    expansions: u64,
) {
    if let Ok(mut sink) = sink {
        let mut pen = Pen::new(&mut sink);
        let is_taken = pen.ending_line(ending, plans, expansions).is_ok();
        page.row(sink.bytes(), &is_taken);
    }
}

/// A sink whose second write fails.
fn sink_for_one_write(alloc: Global) -> Result<MemSink, AllocError> {
    let mut sink = MemSink::new(alloc, 100)?;
    sink.fail_at(1)?;
    Ok(sink)
}

fn show_endings(page: &mut Page, alloc: Global) {
    page.title("Endings have a line each, in one piece or in many");
    for ending in [
        Ending::Stopped,
        Ending::End,
        Ending::Cut,
        Ending::Fault(ZERO_DIVISOR),
    ] {
        show_ending(page, sink_for_one_write(alloc), &ending, 2, 12);
        show_ending(page, slow_sink(alloc, 100), &ending, 2, 12);
    }
}

fn show_prefixes_of_an_ending(page: &mut Page, alloc: Global) {
    page.title("An ending that fails leaves a prefix");
    for room in 0..67 {
        show_ending(
            page,
            slow_sink(alloc, room),
            &Ending::Fault(ZERO_DIVISOR),
            0,
            u64::MAX,
        );
    }
}

/// Refusals, notes and endings.
pub fn show_lines(page: &mut Page, alloc: Global) -> Result<(), AllocError> {
    show_refusals(page, alloc);
    show_notes(page, alloc)?;
    show_prefixes_of_a_refusal(page, alloc);
    show_endings(page, alloc);
    show_prefixes_of_an_ending(page, alloc);
    Ok(())
}
