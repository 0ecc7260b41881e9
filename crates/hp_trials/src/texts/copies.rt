//! Copies of parts of domains.

use hp_fixtures::page::Page;
use hp_fixtures::reading::domain_of;
use hp_print::{atom_pat_text, pat_text, tasks_text};
use hp_syntax::{
    AtomPat, Branch, Method, Name, NetPat, Pat, PatKind, Pre, Rule, SortKey, SortOrder,
};
use std::alloc::Global;

/// A method whose head has a call and a tail, whose key has an order that there isn't, and whose tasks are one
/// immediate task below an order, and below none.
const SAMPLE: &str = "(defdomain d ((:method (go (call plus ?0) . ?1)
  (:sort-by ?1 up (p ?1)) (:unordered (:ordered (:immediate go (call plus ?0) . ?1))))))";

/// The text of a copy, its place and those of its arguments.
fn show_call(page: &mut Page, alloc: Global, pattern: &Pat, vars: &[Name]) {
    let Ok(copy) = pattern.copy(alloc) else {
        return page.title("no memory");
    };
    page.text(pat_text(alloc, &copy, vars));
    page.line("a call", &copy.span);
    if let PatKind::Call(_, args) = &copy.kind {
        for arg in args {
            page.line("an argument", &arg.span);
        }
    }
}

/// The text of a copy, its place and that of its tail.
fn show_atom(page: &mut Page, alloc: Global, atom: &AtomPat, vars: &[Name]) {
    let Ok(copy) = atom.copy(alloc) else {
        return page.title("no memory");
    };
    page.text(atom_pat_text(alloc, &copy, vars));
    page.line("an atom", &copy.span);
    page.line("its tail", &copy.tail);
}

/// The number of a copy's variable, its place, and its order with the place of that.
fn show_key(page: &mut Page, alloc: Global, key: &SortKey) {
    let Ok(copy) = key.copy(alloc) else {
        return page.title("no memory");
    };
    page.line("a key", &(copy.var, copy.span));
    if let SortOrder::Unknown(name, span) = &copy.order {
        page.row(name.bytes(), span);
    }
}

fn show_tasks(page: &mut Page, alloc: Global, tasks: &NetPat, vars: &[Name]) {
    if let Ok(copy) = tasks.copy(alloc) {
        page.text(tasks_text(alloc, &copy, vars));
    }
}

fn show_branch(page: &mut Page, alloc: Global, branch: &Branch, vars: &[Name]) {
    if let Pre::Sorted(key, _) = &branch.pre {
        show_key(page, alloc, key);
    }
    show_tasks(page, alloc, &branch.tasks, vars);
}

fn show_method(page: &mut Page, alloc: Global, method: &Method) {
    let vars = method.vars.as_slice();
    if let [call] = method.head.args.as_slice() {
        show_call(page, alloc, call, vars);
    }
    show_atom(page, alloc, &method.head, vars);
    if let [branch] = method.branches.as_slice() {
        show_branch(page, alloc, branch, vars);
    }
}

/// Copies of a call, an atom, a key and tasks.
pub fn show_copies(page: &mut Page, alloc: Global) {
    page.title("Copies show the same: each with its place in the text that it was read from");
    if let Some(domain) = domain_of(alloc, SAMPLE)
        && let [Rule::Method(method)] = domain.rules.as_slice()
    {
        show_method(page, alloc, method);
    }
}
