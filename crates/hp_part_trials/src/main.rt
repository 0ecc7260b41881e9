//! Trials of the public calls of the parts of an engine, of look-ups, and of walks by both engines. What each call
//! gives is printed, and the gate compares it with what is wanted. No whole run is tried here, so that these proofs
//! don't begin anew where the top call changes.
#![tactic(auto)]

mod both;
mod events;
mod fixtures;
mod look_ups;
mod parts;
mod scenes;
mod wide;

use hp_fixtures::page::Page;
use std::alloc::{AllocError, Global};
use std::io;

fn show_calls(page: &mut Page, alloc: Global) -> Result<(), AllocError> {
    parts::show_all(page, alloc)?;
    look_ups::show_all(page, alloc)?;
    wide::show_all(page, alloc)
}

fn print_calls(rt: &(impl Print + AllocGlobal)) -> io::Result<()> {
    let mut page = Page::new(rt.alloc());
    show_calls(&mut page, rt.alloc())?;
    print!(rt; "{}", page.lines()?)
}

fn main(rt: HostRuntime) -> io::Result<()> {
    print_calls(&rt)?;
    both::print_all(&rt)
}
