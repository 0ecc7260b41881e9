//! Texts that are made.

use hp_fixtures::page::Page;
use hp_make::{Made, make};
use std::alloc::{AllocError, Global};

fn show_made(page: &mut Page, made: &Made) {
    let (domain, problem) = (made.domain.as_slice(), made.problem.as_slice());
    page.line(
        "the domain's prefix",
        &domain.starts_with(b"(defdomain transport (\n("),
    );
    page.line("the domain's end", &domain.ends_with(b" done () ())\n))\n"));
    page.line(
        "the problem's prefix",
        &problem.starts_with(b"(defproblem made transport ("),
    );
    page.line(
        "the problem's end",
        &problem.ends_with(b" (goal p1 t0)) ((all)))\n"),
    );
}

/// A problem of two packages, and its domain.
pub fn show_makings(page: &mut Page, alloc: Global) -> Result<(), AllocError> {
    page.title("Both texts are made");
    show_made(page, &make(alloc, 1, 2)?);
    Ok(())
}
