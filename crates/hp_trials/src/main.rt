//! Trials of the public calls: of what reads, forms, checks, makes and writes texts, and of whole runs; laws and
//! samples are cited. What each call gives is printed, and the gate compares it with what is wanted.
#![tactic(auto)]

mod laws;
mod runs;
mod texts;

use crate::texts::folders::show_host;
use hp_fixtures::page::Page;
use std::io;
use std::rt::Files;

fn print_texts(rt: &(impl Files + Print + AllocGlobal)) -> io::Result<()> {
    let mut page = Page::new(rt.alloc());
    texts::show_all(&mut page, rt.alloc())?;
    show_host(&mut page, rt);
    print!(rt; "{}", page.lines()?)
}

fn main(rt: HostRuntime) -> io::Result<()> {
    laws::cite_all();
    print_texts(&rt)?;
    runs::print_all(&rt)
}
