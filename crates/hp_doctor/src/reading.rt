//! Reading lines of the planner.

ghost use Rattle.std.specs.Prelude.{◌≡◌};
ghost use Rattle.hp_doctor.specs.Findings.{are_counts, check_refusal, fault_at, finding_of, form_refusal, kind_refusal};
ghost use Rattle.hp_doctor.specs.Findings.{note_of, note_place, pair_refusal, problem_of, refusal_in, refusal_of};
ghost use Rattle.hp_doctor.specs.Findings.{text_refusal};

use crate::finding::Finding;
use crate::words::{
    behind_at, check_kind, count, fault_kind, input, is, next, offset, span, text_kind, what,
};
use hp_io::Input;
use hp_out::Refusal;
use hp_syntax::{CheckFault, CheckKind, RunFault, TextKind};

/// What a line tells of a place, without the line feed that ends it: a refusal, a note or a fault of the planner, as
/// it writes them. Other lines tell nothing.
pub fn finding_of(line: &[u8]) -> Option<Finding>
    ensures { result ≡ finding_of line.now }
{
    let (word, words) = next(line);
    if is(word, b"refused") {
        refusal_of(words)
    } else if is(word, b"note") {
        note_of(words)
    } else if is(word, b"fault") {
        fault_at(words)
    } else {
        None
    }
}

fn refusal_of(words: &[u8]) -> Option<Finding>
    ensures { result ≡ refusal_of words.now }
{
    if is(words, b"usage") {
        return Some(Finding::Refused(Refusal::Usage));
    }
    let (word, words) = next(words);
    if is(word, b"read") {
        let which = input(words)?;
        return Some(Finding::Refused(Refusal::Read(which)));
    }
    let which = input(word)?;
    let (word, words) = next(words);
    refusal_in(which, word, words)
}

fn refusal_in(which: Input, word: &[u8], words: &[u8]) -> Option<Finding>
    ensures { result ≡ refusal_in which word.now words.now }
{
    if is(word, b"Expected") {
        form_refusal(which, words)
    } else if is(word, b"NoPair") {
        pair_refusal(which, words)
    } else {
        kind_refusal(which, text_kind(word), check_kind(word), words)
    }
}

fn kind_refusal(
    which: Input,
    kind: Option<TextKind>,
    check: Option<CheckKind>,
    words: &[u8],
) -> Option<Finding>
    ensures { result ≡ kind_refusal which kind check words.now }
{
    match (kind, check) {
        (Some(kind), _) => text_refusal(which, kind, words),
        (None, Some(check)) => check_refusal(which, check, words),
        (None, None) => None,
    }
}

fn text_refusal(which: Input, kind: TextKind, words: &[u8]) -> Option<Finding>
    ensures { result ≡ text_refusal which kind words.now }
{
    let offset = offset(behind_at(words)?)?;
    Some(Finding::Refused(Refusal::Text(which, kind, offset)))
}

fn form_refusal(which: Input, words: &[u8]) -> Option<Finding>
    ensures { result ≡ form_refusal which words.now }
{
    let (word, words) = next(words);
    let what = what(word)?;
    let span = span(behind_at(words)?)?;
    Some(Finding::Refused(Refusal::Form(which, what, span)))
}

fn check_refusal(which: Input, kind: CheckKind, words: &[u8]) -> Option<Finding>
    ensures { result ≡ check_refusal which kind words.now }
{
    let in_problem = is_problem(which)?;
    let span = span(behind_at(words)?)?;
    Some(Finding::Refused(Refusal::Check(CheckFault {
        kind,
        in_problem,
        span,
    })))
}

fn pair_refusal(which: Input, words: &[u8]) -> Option<Finding>
    ensures { result ≡ pair_refusal which words.now }
{
    match which {
        Input::Domain | Input::Plan => None,
        Input::Problem => {
            let (number, words) = next(words);
            let (word, words) = next(words);
            if !is(word, b"of") {
                return None;
            }
            let number = count(number)?;
            let count = count(words)?;
            Some(Finding::Refused(Refusal::NoPair(number, count)))
        }
    }
}

/// Whether it is the problem's text and not the domain's. Of a plan there are no checks and notes.
fn is_problem(which: Input) -> Option<bool>
    ensures { result ≡ problem_of which }
{
    match which {
        Input::Domain => Some(false),
        Input::Problem => Some(true),
        Input::Plan => None,
    }
}

fn note_of(words: &[u8]) -> Option<Finding>
    ensures { result ≡ note_of words.now }
{
    let (word, words) = next(words);
    if !is(word, b"NoRule") {
        return None;
    }
    let (_, words) = next(words);
    note_place(words)
}

fn note_place(words: &[u8]) -> Option<Finding>
    ensures { result ≡ note_place words.now }
{
    let (word, words) = next(words);
    if !is(word, b"in") {
        return None;
    }
    let (word, words) = next(words);
    let in_problem = is_problem(input(word)?)?;
    let span = span(behind_at(words)?)?;
    Some(Finding::Unserved { in_problem, span })
}

fn fault_at(words: &[u8]) -> Option<Finding>
    ensures { result ≡ fault_at words.now }
{
    let (word, words) = next(words);
    let kind = fault_kind(word)?;
    let (word, words) = next(behind_at(words)?);
    let span = span(word)?;
    if !are_counts(words) {
        return None;
    }
    Some(Finding::Met(RunFault { kind, span }))
}

/// Whether the words tell how many plans there are, and how many expansions.
fn are_counts(words: &[u8]) -> bool
    ensures { result ≡ are_counts words.now }
{
    let (first, words) = next(words);
    let (plans, words) = next(words);
    let (second, expansions) = next(words);
    is(first, b"plans")
        && count(plans).is_some()
        && is(second, b"expansions")
        && count(expansions).is_some()
}
