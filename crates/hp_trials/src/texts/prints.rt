//! Each call once, on small values. What stands in no text that is read is built by hand.

use hp_fixtures::page::Page;
use hp_fixtures::reading::{domain_of, problem_of};
use hp_print::{atom_pat_text, domain_text, ground_text, pat_text, problem_text, tasks_text};
use hp_syntax::{Axiom, Ground, Name, NetPat, Pair, Problem, Rule};
use std::alloc::{AllocError, Global};

fn pair(alloc: Global) -> Result<Ground, AllocError> {
    let symbol = Ground::Sym(Name::new(alloc, b"a")?);
    Ok(Ground::List(vec![in alloc; symbol, Ground::Num(3_000)]?))
}

fn nested(alloc: Global) -> Result<Ground, AllocError> {
    let empty = Ground::List(Vec::new(alloc));
    Ok(Ground::List(vec![in alloc; empty, Ground::Num(-7_500)]?))
}

fn text_of(alloc: Global, ground: Result<Ground, AllocError>) -> Result<Vec<u8>, AllocError> {
    let ground = ground?;
    ground_text(alloc, &ground)
}

fn show_grounds(page: &mut Page, alloc: Global) {
    page.title("Ground terms are written, and so many bytes");
    page.text(text_of(alloc, pair(alloc)));
    page.text(text_of(alloc, nested(alloc)));
    page.text(text_of(alloc, Ok(Ground::Num(i64::MIN))));
}

/// Axioms whose heads have each kind of term, and a tail.
const AXIOMS: &str =
    "(defdomain d ((:- (of () ?y (call + ?x 1) (a ?y) (a ?x . ?y)) ()) (:- (near ?x . ?y) ())))";

fn show_head(page: &mut Page, alloc: Global, axiom: &Axiom) {
    for term in &axiom.head.args {
        page.text(pat_text(alloc, term, axiom.vars.as_slice()));
    }
    page.text(atom_pat_text(alloc, &axiom.head, axiom.vars.as_slice()));
}

fn show_heads(page: &mut Page, alloc: Global, rules: &[Rule]) {
    for rule in rules {
        if let Rule::Axiom(axiom) = rule {
            show_head(page, alloc, axiom);
        }
    }
}

/// A domain with rules is shown by a whole run.
const EMPTY: &str = "(defdomain d ())";

fn show_domains(page: &mut Page, alloc: Global) {
    page.title("The terms of two heads are written, and the heads");
    if let Some(domain) = domain_of(alloc, AXIOMS) {
        show_heads(page, alloc, domain.rules.as_slice());
    }
    page.title("A domain is written");
    if let Some(domain) = domain_of(alloc, EMPTY) {
        page.text(domain_text(alloc, &domain));
    }
}

fn show_tasks(page: &mut Page, alloc: Global, problem: &Problem) {
    for pair in &problem.pairs {
        page.text(tasks_text(alloc, &pair.tasks, problem.vars.as_slice()));
    }
}

fn show_task_lists(page: &mut Page, alloc: Global) {
    page.title("Task lists are written");
    for text in [
        "(defproblem p d () ())",
        "(defproblem p d () (:unordered (go ?x) (:immediate go ?y)))",
    ] {
        if let Some(problem) = problem_of(alloc, text) {
            show_tasks(page, alloc, &problem);
        }
    }
}

/// Two atoms, and two tasks in any order.
const ONE_PAIR: &str = "(defproblem p d ((at ?x) (by ?y)) (:unordered (go ?x) (go ?y)))";

/// Takes the last of tasks in any order out of a pair.
fn last_task(pair: &mut Pair) -> Option<NetPat> {
    match &mut pair.tasks {
        NetPat::Unordered(tasks) => tasks.pop(),
        _ => None,
    }
}

/// Makes the last task of the first pair a pair without atoms.
fn part(alloc: Global, problem: &mut Problem) -> Result<(), AllocError> {
    if let Some(pair) = problem.pairs.first_mut()
        && let Some(tasks) = last_task(pair)
    {
        let state = Vec::new(alloc);
        problem.pairs.push(Pair { state, tasks })?;
    }
    Ok(())
}

fn show_pairs(page: &mut Page, alloc: Global, problem: &mut Problem) -> Result<(), AllocError> {
    part(alloc, problem)?;
    page.title("A problem of two pairs is written, behind the tasks of each");
    show_tasks(page, alloc, problem);
    page.text(problem_text(alloc, problem));
    Ok(())
}

/// Ground terms, terms, atoms, tasks, a domain and a problem.
pub fn show_prints(page: &mut Page, alloc: Global) -> Result<(), AllocError> {
    show_grounds(page, alloc);
    show_domains(page, alloc);
    show_task_lists(page, alloc);
    if let Some(mut problem) = problem_of(alloc, ONE_PAIR) {
        show_pairs(page, alloc, &mut problem)?;
    }
    Ok(())
}
