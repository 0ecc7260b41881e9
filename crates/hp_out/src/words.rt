//! The words of which lines are made.

ghost use Rattle.std.specs.Prelude.{◌≡◌};
ghost use Rattle.hp_out.specs.Lines.{what_word, kind_word, check_word, input_word, text_of, underived_word};
ghost use Rattle.hp_syntax.specs.Report.{fault_word};

use hp_io::Input;
use hp_syntax::{CheckKind, FaultKind, TextKind, What};

pub fn what_word(what: What) -> &'static [u8]
    ensures { result.now ≡ what_word what }
{
    match what {
        What::Domain => b"Domain",
        What::Problem => b"Problem",
        What::Name => b"Name",
        What::Rules => b"Rules",
        What::Rule => b"Rule",
        What::Head => b"Head",
        What::Pre => b"Pre",
        What::Expr => b"Expr",
        What::Variable => b"Variable",
        What::Term => b"Term",
        What::Tail => b"Tail",
        What::Atom => b"Atom",
        What::Atoms => b"Atoms",
        What::Effects => b"Effects",
        What::Tasks => b"Tasks",
        What::Ground => b"Ground",
        What::End => b"End",
    }
}

pub fn kind_word(kind: TextKind) -> &'static [u8]
    ensures { result.now ≡ kind_word kind }
{
    match kind {
        TextKind::BadByte => b"BadByte",
        TextKind::BadNumber => b"BadNumber",
        TextKind::NumberRange => b"NumberRange",
        TextKind::TokenLong => b"TokenLong",
        TextKind::Unclosed => b"Unclosed",
        TextKind::ExtraClose => b"ExtraClose",
        TextKind::TooNested => b"TooNested",
        TextKind::TooLarge => b"TooLarge",
    }
}

pub fn check_word(kind: CheckKind) -> &'static [u8]
    ensures { result.now ≡ check_word kind }
{
    match kind {
        CheckKind::OtherDomain => b"OtherDomain",
        CheckKind::UnknownCall => b"UnknownCall",
        CheckKind::CallArity => b"CallArity",
        CheckKind::VariableInProblem => b"VariableInProblem",
        CheckKind::CallInHead => b"CallInHead",
        CheckKind::TooManyVariables => b"TooManyVariables",
        CheckKind::ExprNested => b"ExprNested",
        CheckKind::UnknownOrder => b"UnknownOrder",
    }
}

pub fn fault_word(kind: FaultKind) -> &'static [u8]
    ensures { result.now ≡ fault_word kind }
{
    match kind {
        FaultKind::NotGround => b"NotGround",
        FaultKind::NotNumber => b"NotNumber",
        FaultKind::Overflow => b"Overflow",
        FaultKind::ZeroDivisor => b"ZeroDivisor",
        FaultKind::NegativePower => b"NegativePower",
        FaultKind::NotList => b"NotList",
        FaultKind::TooDeep => b"TooDeep",
        FaultKind::FractionPower => b"FractionPower",
    }
}

pub fn input_word(which: Input) -> &'static [u8]
    ensures { result.now ≡ input_word which }
{
    match which {
        Input::Domain => b"domain",
        Input::Problem => b"problem",
        Input::Plan => b"plan",
    }
}

/// The text of the problem, or of the domain.
pub fn text_of(in_problem: bool) -> Input
    ensures { result ≡ text_of in_problem }
{
    if in_problem {
        Input::Problem
    } else {
        Input::Domain
    }
}

/// The word for what keeps a plan from being derived.
pub fn underived_word(is_cut: bool) -> &'static [u8]
    ensures { result.now ≡ underived_word is_cut }
{
    if is_cut { b"cut" } else { b"end" }
}
