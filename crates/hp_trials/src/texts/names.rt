//! Names.

use hp_fixtures::page::Page;
use hp_syntax::Name;
use std::alloc::{AllocError, Global};
use std::collections::HashSet;

/// Whether a copy is found in a set of the name alone.
fn is_found(alloc: Global, name: Name, copy: &Name) -> Result<bool, AllocError> {
    let mut names = HashSet::new(alloc);
    names.insert(name)?;
    Ok(names.contains(copy))
}

fn show_copy(page: &mut Page, copy: &Name, name: &Name, other: &Name) {
    page.row(copy.bytes(), &(*copy == *name));
    page.row(copy.bytes(), &(*copy != *other));
}

/// A name and its copy.
pub fn show_names(page: &mut Page, alloc: Global) -> Result<(), AllocError> {
    page.title("A copy of a name is equal to it, not to another, and found in a set");
    let name = Name::new(alloc, b"kiwi")?;
    let copy = name.copy(alloc)?;
    let other = Name::new(alloc, b"banjo")?;
    show_copy(page, &copy, &name, &other);
    page.row(copy.bytes(), &is_found(alloc, name, &copy));
    Ok(())
}
