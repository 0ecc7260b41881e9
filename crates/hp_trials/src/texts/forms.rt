//! How wide domains and problems may be, and what is left out. What the grammar refuses is shown by whole runs.

use hp_fixtures::page::Page;
use hp_fixtures::reading::{domain_of, is_domain, is_problem};
use hp_fixtures::repeats::with_repeats;
use hp_syntax::{Domain, PatKind, Rule};
use std::alloc::{AllocError, Global};

/// Lists may be as wide as a text is long: only nesting takes room on the stack.
fn show_wide_domains(page: &mut Page, alloc: Global) -> Result<(), AllocError> {
    page.title("Wide lists of a domain are read and dropped");
    for text in [
        "(defdomain d ((:- (p) ({300000 (q)}))))",
        "(defdomain d ((:method (p){60000  () ()})))",
        "(defdomain d ((:- (p{300000  ?x}) ())))",
        "(defdomain d ((:- (p (a{300000  b})) ())))",
        "(defdomain d ((:- (p) (call +{200000  1}))))",
        "(defdomain d ({60000 (:- (p) ())}))",
    ] {
        page.line(text, &is_domain(alloc, with_repeats(alloc, text)?.as_str()));
    }
    Ok(())
}

/// So may those of a problem.
fn show_wide_problems(page: &mut Page, alloc: Global) -> Result<(), AllocError> {
    page.title("Wide lists of a problem are read and dropped");
    for text in [
        "(defproblem p d ({60000 (q)}) ())",
        "(defproblem p d () ({60000 (q)}))",
        "(defproblem p d () (:unordered{60000  (q)}))",
        "(defproblem p d () (:ordered (nil{60000  (q)})))",
    ] {
        page.line(
            text,
            &is_problem(alloc, with_repeats(alloc, text)?.as_str()),
        );
    }
    Ok(())
}

/// Whether the one rule is an operator whose cost is one, and stands where the operator does.
fn costs_one(domain: &Domain) -> bool {
    match domain.rules.as_slice() {
        [Rule::Operator(operator)] => {
            matches!(operator.cost.kind, PatKind::Num(1_000)) && operator.cost.span == operator.span
        }
        _ => false,
    }
}

fn show_cost(page: &mut Page, alloc: Global) {
    page.title("A cost that is left out is one, and stands where its operator does");
    let text = "(defdomain d ((:operator (!go) () () ())))";
    match domain_of(alloc, text) {
        Some(domain) => page.line(text, &costs_one(&domain)),
        None => page.line(text, &"no domain"),
    }
}

/// Domains and problems.
pub fn show_forms(page: &mut Page, alloc: Global) -> Result<(), AllocError> {
    show_cost(page, alloc);
    show_wide_domains(page, alloc)?;
    show_wide_problems(page, alloc)
}
