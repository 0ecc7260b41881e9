//! Calls of the parts of an engine, over small types that meet their traits.
ghost use Rattle.std.specs.Prelude.{◌≡◌};
ghost use Rattle.hp_eval.specs.Slotted.{no_bindings};

mod answers;
mod cells;
mod generators;
mod goals;
mod large_networks;
mod matches;
mod networks;
mod picks;
mod prunes;
mod undone_networks;
mod values;
mod walks;
mod worlds;

use crate::fixtures::SAMPLES;
use hp_cells::Cells;
use hp_eval::Slots;
use hp_fixtures::page::Page;
use hp_fixtures::reading::domain_of;
use hp_syntax::{AtomPat, Effect, Method, NetPat, Operator, Rule};
use std::alloc::{AllocError, Global};

// The tasks of a method's only branch.
fn tasks_of(method: &Method) -> Option<&NetPat> {
    match method.branches.as_slice() {
        [branch] => Some(&branch.tasks),
        _ => None,
    }
}

// The atoms that an operator's only effect adds for each satisfier.
fn added_of(operator: &Operator) -> Option<&Vec<AtomPat>> {
    match operator.adds.as_slice() {
        [Effect::Forall(_, _, atoms)] => Some(atoms),
        _ => None,
    }
}

// What is told of terms, over the rules of the samples.
fn show_samples(
    page: &mut Page,
    alloc: Global,
    cells: &mut Cells,
    unbound: &Slots,
    rules: &[Rule],
) -> Result<(), AllocError>
    requires { unbound.now ≡ no_bindings 0 }
{
    if let [
        Rule::Axiom(list),
        Rule::Axiom(variable),
        Rule::Axiom(open),
        Rule::Axiom(wide),
        Rule::Axiom(a),
        Rule::Method(method),
        Rule::Operator(operator),
    ] = rules
    {
        if let Some(tasks) = tasks_of(method) {
            values::show_patterns(page, alloc, cells, unbound, &list.head, tasks);
        }
        matches::show_matches(
            page,
            alloc,
            cells,
            unbound,
            &list.head,
            &variable.head,
            &open.head,
        );
        goals::show_goals(page, alloc, cells, &wide.head, &open.head)?;
        if let Some(atoms) = added_of(operator) {
            picks::show_picks(page, alloc, cells, atoms)?;
        }
        worlds::show_worlds(page, alloc, cells)?;
        worlds::show_changes(page, alloc, cells, unbound, &a.head, &operator.cost);
    }
    Ok(())
}

// What is told over the samples, where they are read.
fn show_read(page: &mut Page, alloc: Global, cells: &mut Cells) -> Result<(), AllocError> {
    let unbound = Slots::new(alloc, 0)?;
    match domain_of(alloc, SAMPLES) {
        Some(domain) => show_samples(page, alloc, cells, &unbound, domain.rules.as_slice()),
        None => Ok(page.title("the samples are no domain")),
    }
}

fn show_parts(page: &mut Page, alloc: Global, cells: &mut Cells) -> Result<(), AllocError> {
    values::show_values(page, alloc, cells)?;
    show_read(page, alloc, cells)?;
    networks::show_networks(page, alloc, cells)
}

/// What these calls give.
pub fn show_all(page: &mut Page, alloc: Global) -> Result<(), AllocError> {
    page.title("== parts");
    cells::show_cells(page, alloc)?;
    show_parts(page, alloc, &mut Cells::new(alloc)?)?;
    generators::show_generators(page, alloc, &mut Cells::new(alloc)?)?;
    prunes::show_prunes(page, alloc)
}
