//! The text of `check` on a domain and a problem that are accepted.

ghost use Rattle.std.specs.Prelude.{◌≡◌, ◌≤◌, ◌++◌, ◌<◌, IfOk, OnOk, IfErr, codes, decimal, map};
ghost use Rattle.std.specs.List.{count_by};
ghost use Rattle.hp_check.specs.NoteViews.{note_of};
ghost use Rattle.hp_out.specs.Writing.{Wrote, sink_run};
ghost use Rattle.hp_syntax.specs.Notes as plain;
ghost use Rattle.hp_syntax.specs.Views.{rule_of, domain_of, pair_of, problem_of};
ghost use Rattle.hp_top.specs.CheckTexts.{is_operator, is_method, is_axiom, atoms_written, counts_text, domain_line, pairs_text, problem_line, count_lines, notes_text, check_text};
ghost use Rattle.hp_telling.specs.Telling.{Halts};

use crate::writing::{write, write_notes};
use hp_check::Note;
use hp_io::Sink;
use hp_syntax::{Domain, Pair, Problem, Rule};
use hp_telling::Halt;
use itoa::Buffer;
use std::alloc::{AllocError, Global};

/// How many rules of each kind there are.
#[derive(Clone, Copy)]
struct RuleCounts {
    operators: usize,
    methods: usize,
    axioms: usize,
}

fn count_rules(rules: &[Rule]) -> RuleCounts
    ensures operators { result.operators ≡ count_by is_operator (map rule_of rules.now) }
    ensures methods { result.methods ≡ count_by is_method (map rule_of rules.now) }
    ensures axioms { result.axioms ≡ count_by is_axiom (map rule_of rules.now) }
{
    let mut counts = RuleCounts {
        operators: 0,
        methods: 0,
        axioms: 0,
    };
    for rule in rules {
        match rule {
            Rule::Operator(_) => counts.operators += 1,
            Rule::Method(_) => counts.methods += 1,
            Rule::Axiom(_) => counts.axioms += 1,
        }
    }
    counts
}

/// A word and a number behind it.
pub fn push_count(text: &mut Vec<u8>, word: &[u8], count: u128) -> Result<(), AllocError>
    ensures { OnOk result (text.new.items ≡ text.old.items ++ word.now ++ decimal count) }
{
    let mut buffer = Buffer::new();
    text.extend_from_slice(word)?;
    text.extend_from_slice(buffer.format(count).as_bytes())
}

/// How many rules there are of each kind.
#[tactic(auto, unfolding(crate::specs::CheckTexts::counts_text))]
fn push_counts(text: &mut Vec<u8>, rules: &[Rule]) -> Result<(), AllocError>
    ensures { OnOk result (text.new.items ≡ text.old.items ++ counts_text (map rule_of rules.now)) }
{
    let counts = count_rules(rules);
    push_count(text, b" operators ", counts.operators as u128)?;
    push_count(text, b" methods ", counts.methods as u128)?;
    push_count(text, b" axioms ", counts.axioms as u128)
}

/// The line of a domain.
#[tactic(auto, unfolding(crate::specs::CheckTexts::domain_line))]
fn push_domain_line(text: &mut Vec<u8>, domain: &Domain) -> Result<(), AllocError>
    ensures { OnOk result (text.new.items ≡ text.old.items ++ domain_line (domain_of domain.now)) }
{
    text.extend_from_slice(b"domain ")?;
    text.extend_from_slice(domain.name.bytes())?;
    push_counts(text, domain.rules.as_slice())?;
    text.extend_from_slice(b"\n")
}

/// How many atoms the states have, as they are written.
pub fn atoms_written(pairs: &[Pair]) -> u128
    ensures { result ≡ atoms_written (map pair_of pairs.now) }
{
    let mut count = 0u128;
    for pair in pairs {
        count += pair.state.len() as u128;
    }
    count
}

/// How many pairs there are, where there are several.
#[tactic(auto, unfolding(crate::specs::CheckTexts::pairs_text))]
fn push_pairs(text: &mut Vec<u8>, count: usize) -> Result<(), AllocError>
    ensures { OnOk result (text.new.items ≡ text.old.items ++ pairs_text count) }
{
    if count < 2 {
        return Ok(());
    }
    push_count(text, b" pairs ", count as u128)
}

/// The line of a problem.
#[tactic(auto, unfolding(crate::specs::CheckTexts::problem_line))]
fn push_problem_line(text: &mut Vec<u8>, problem: &Problem) -> Result<(), AllocError>
    ensures { OnOk result (text.new.items ≡ text.old.items ++ problem_line (problem_of problem.now)) }
{
    text.extend_from_slice(b"problem ")?;
    text.extend_from_slice(problem.name.bytes())?;
    push_pairs(text, problem.pairs.len())?;
    push_count(text, b" atoms ", atoms_written(problem.pairs.as_slice()))?;
    text.extend_from_slice(b"\n")
}

/// The lines of counts.
fn count_lines(alloc: Global, domain: &Domain, problem: &Problem) -> Result<Vec<u8>, AllocError>
    ensures { IfOk result (λ text. text.items ≡ count_lines (domain_of domain.now) (problem_of problem.now)) }
{
    let mut text = Vec::new(alloc);
    push_domain_line(&mut text, domain)?;
    push_problem_line(&mut text, problem)?;
    Ok(text)
}

/// Writes the notes, and that the domain and the problem are accepted.
fn tell_notes<K: Sink>(notes: &[Note], out: &mut K) -> Result<(), Halt>
    ensures ok { OnOk result (Wrote (notes_text (map note_of notes.now) ++ codes "accepted\n")
        (K.bytes out.old) (K.bytes out.new)) }
    ensures err { IfErr result (λ h. Halts h (notes_text (map note_of notes.now) ++ codes "accepted\n")
        (sink_run (K.faults out.old) (K.faults out.new) (K.bytes out.old) (K.bytes out.new))) }
    ensures later { K.faults out.old ≤ K.faults out.new }
{
    match write_notes(out, notes) {
        Ok(()) => write(out, b"accepted\n"),
        Err(halt) => Err(halt),
    }
}

/// Writes the lines of counts, the notes, and that the domain and the problem are accepted.
pub fn tell_accepted<K: Sink>(
    alloc: Global,
    domain: &Domain,
    problem: &Problem,
    notes: &[Note],
    out: &mut K,
) -> Result<(), Halt>
    requires { map note_of notes.now ≡ plain.notes (domain_of domain.now) (problem_of problem.now) }
    ensures ok { OnOk result (Wrote (check_text (domain_of domain.now) (problem_of problem.now))
        (K.bytes out.old) (K.bytes out.new)) }
    ensures err { IfErr result (λ h. Halts h (check_text (domain_of domain.now) (problem_of problem.now))
        (sink_run (K.faults out.old) (K.faults out.new) (K.bytes out.old) (K.bytes out.new))) }
    ensures later { K.faults out.old ≤ K.faults out.new }
{
    let Ok(lines) = count_lines(alloc, domain, problem) else {
        return Err(Halt::NoMemory);
    };
    match write(out, lines.as_slice()) {
        Ok(()) => tell_notes(notes, out),
        Err(halt) => Err(halt),
    }
}
