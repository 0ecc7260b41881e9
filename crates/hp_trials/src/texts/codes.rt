//! A domain that is compiled, and what its goals ask for.

use hp_code::asked_parts;
use hp_fixtures::page::Page;
use hp_fixtures::reading::code_of;
use std::alloc::Global;

/// The goal knows its name, its second argument, if the axiom's goal has it, and its third one for certain, so that
/// none behind that serves.
const ROADS: &str = "(defdomain roads ((:- (near ?x) ((road ?y ?x b ?x)))))";

/// The parts of atoms that the goals of a domain ask for, if the text is one in which the checks find nothing.
fn parts_of(alloc: Global, text: &str) -> Option<Vec<usize>> {
    let code = code_of(alloc, text)?;
    asked_parts(alloc, &code).ok()
}

/// The parts that goals ask for, one a line.
pub fn show_asked(page: &mut Page, alloc: Global) {
    page.title("Parts of atoms that the goals of a domain ask for");
    if let Some(parts) = parts_of(alloc, ROADS) {
        for part in parts.as_slice() {
            page.line(ROADS, part);
        }
    }
}
