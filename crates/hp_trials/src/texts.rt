//! Calls that read, form, check, make and write texts.

mod checks;
mod codes;
mod copies;
pub mod folders;
mod forests;
mod forms;
mod lines;
mod makings;
mod names;
mod prints;

use hp_fixtures::page::Page;
use std::alloc::{AllocError, Global};

fn show_read(page: &mut Page, alloc: Global) -> Result<(), AllocError> {
    forests::show_forests(page, alloc)?;
    forms::show_forms(page, alloc)?;
    checks::show_checks(page, alloc);
    codes::show_asked(page, alloc);
    copies::show_copies(page, alloc);
    names::show_names(page, alloc)
}

fn show_written(page: &mut Page, alloc: Global) -> Result<(), AllocError> {
    prints::show_prints(page, alloc)?;
    makings::show_makings(page, alloc)?;
    folders::show_folders(page, alloc)?;
    lines::show_lines(page, alloc)
}

/// What these calls give.
pub fn show_all(page: &mut Page, alloc: Global) -> Result<(), AllocError> {
    page.title("== texts");
    show_read(page, alloc)?;
    show_written(page, alloc)
}
