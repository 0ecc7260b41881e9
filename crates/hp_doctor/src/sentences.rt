//! What each finding means, in one sentence for those who begin.

ghost use Rattle.std.specs.Prelude.{◌≡◌};
ghost use Rattle.hp_doctor.specs.Sentences.{check_sentence, fault_sentence, kind_sentence, refusal_sentence};
ghost use Rattle.hp_doctor.specs.Sentences.{sentence, what_sentence};

use crate::finding::Finding;
use hp_out::Refusal;
use hp_syntax::{CheckKind, FaultKind, TextKind, What};

const USAGE: &[u8] =
    b"the words behind `gudsjilp` are no command: one is missing, too many, or not what is wanted there";

const UNREAD: &[u8] = b"this file isn't there, or it can't be read";

const NO_PAIR: &[u8] =
    b"the problem has no pair of this number: pairs of a state and tasks are counted from 1";

const NO_RULE: &[u8] =
    b"no operator and no method has this name, so the task can't be done: is it spelled as in the head of its rule?";

const BAD_BYTE: &[u8] =
    b"this byte may stand in a comment alone: names are made of ASCII letters, digits and signs";

const BAD_NUMBER: &[u8] =
    b"a number is digits, maybe with a sign before them and a point with at most three digits behind it: 12, -3, 2.75";

const NUMBER_RANGE: &[u8] =
    b"this number is out of range: numbers go from -9223372036854775.808 to 9223372036854775.807";

const TOKEN_LONG: &[u8] = b"this name is longer than 256 bytes";

const UNCLOSED: &[u8] = b"this bracket is never closed: a closing one is missing behind it";

const EXTRA_CLOSE: &[u8] =
    b"this bracket closes nothing: it is one too many, or an opening one is missing before it";

const TOO_NESTED: &[u8] = b"64 brackets are open here already, and no more may be";

const TOO_LARGE: &[u8] = b"the file is larger than 4194304 bytes";

const DOMAIN: &[u8] =
    b"a domain's file is one list that begins with `defdomain`: (defdomain NAME (RULE ..))";

const PROBLEM: &[u8] =
    b"a problem's file is one list that begins with `defproblem`: (defproblem NAME DOMAIN (ATOM ..) (TASK ..))";

const NAME: &[u8] = b"a name is wanted here";

const RULES: &[u8] =
    b"behind its name a domain has all its rules in one list: (defdomain NAME (RULE ..))";

const RULE: &[u8] = b"a rule is a list that begins with `:operator`, `:method` or `:-`";

const HEAD: &[u8] =
    b"an operator's head is a list that begins with a name with `!` in front, a method's or an axiom's one without";

const PRE: &[u8] =
    b"a precondition is wanted here, a list of conditions such as ((at ?x ?y)), or () where there is none";

const EXPR: &[u8] =
    b"a condition is wanted here: an atom such as (at ?x ?y), or a list with `and`, `or`, `not`, `forall` or the like";

const VARIABLE: &[u8] = b"a variable is wanted here: a name with `?` in front";

const TERM: &[u8] = b"a term is wanted here: a name, a variable, a number, or a list of terms";

const TAIL: &[u8] =
    b"behind a dot stands the rest of the list: a variable or a list, and nothing else";

const ATOM: &[u8] =
    b"an atom is wanted here: a list that begins with a plain name, such as (at truck depot)";

const ATOMS: &[u8] =
    b"a list of atoms is wanted here, such as ((at truck depot)), or () where there is none";

const EFFECTS: &[u8] =
    b"a list of what is deleted or added is wanted here, such as ((at ?x ?y)), or () for nothing";

const TASKS: &[u8] =
    b"a list of tasks is wanted here, such as ((go ?x) (!load ?y)), or () where nothing is to be done";

const GROUND: &[u8] =
    b"here stand names, numbers and lists alone: in a problem no call, in a plan no variable either";

const END: &[u8] =
    b"what stands before this is whole already, and nothing more may follow: is a bracket at a wrong place?";

const OTHER_DOMAIN: &[u8] = b"the problem names another domain than the one that is given";

const UNKNOWN_CALL: &[u8] =
    b"there is no such call: there are + - * / ^ mod min max abs, and < <= > >= = != and member, which are tests";

const CALL_ARITY: &[u8] = b"this call has another number of arguments than it takes";

const VARIABLE_IN_PROBLEM: &[u8] = b"a problem says what is so, and so it has no variables";

const CALL_IN_HEAD: &[u8] =
    b"a head can't hold a call: let a variable stand here, and give it its value by `assign`";

const TOO_MANY_VARIABLES: &[u8] = b"this rule has more than 256 variables: split it";

const EXPR_NESTED: &[u8] =
    b"conditions may nest 24 deep, and this one stands deeper: an axiom may take a part of it";

const UNKNOWN_ORDER: &[u8] = b"the order of `:sort-by` is one of < <= > >=";

const NOT_GROUND: &[u8] =
    b"a value was wanted here, but the variable stands for nothing: no condition before this gives it a value";

const NOT_NUMBER: &[u8] = b"a number was wanted here, and something else came";

const OVERFLOW: &[u8] =
    b"the result is out of range: numbers go from -9223372036854775.808 to 9223372036854775.807";

const ZERO_DIVISOR: &[u8] = b"here something was divided by 0";

const NEGATIVE_POWER: &[u8] = b"a power was wanted here whose exponent is negative";

const NOT_LIST: &[u8] = b"a list was wanted here, and something else came";

const TOO_DEEP: &[u8] = b"the list that came to be here nests deeper than 64";

const FRACTION_POWER: &[u8] = b"a power was wanted here whose exponent isn't whole";

/// What a finding means.
pub fn sentence(finding: Finding) -> &'static [u8]
    ensures { result.now ≡ sentence finding }
{
    match finding {
        Finding::Refused(refusal) => refusal_sentence(refusal),
        Finding::Unserved { .. } => NO_RULE,
        Finding::Met(fault) => fault_sentence(fault.kind),
    }
}

fn refusal_sentence(refusal: Refusal) -> &'static [u8]
    ensures { result.now ≡ refusal_sentence refusal }
{
    match refusal {
        Refusal::Usage => USAGE,
        Refusal::Read(_) => UNREAD,
        Refusal::Text(_, kind, _) => kind_sentence(kind),
        Refusal::Form(_, what, _) => what_sentence(what),
        Refusal::Check(fault) => check_sentence(fault.kind),
        Refusal::NoPair(_, _) => NO_PAIR,
    }
}

fn kind_sentence(kind: TextKind) -> &'static [u8]
    ensures { result.now ≡ kind_sentence kind }
{
    match kind {
        TextKind::BadByte => BAD_BYTE,
        TextKind::BadNumber => BAD_NUMBER,
        TextKind::NumberRange => NUMBER_RANGE,
        TextKind::TokenLong => TOKEN_LONG,
        TextKind::Unclosed => UNCLOSED,
        TextKind::ExtraClose => EXTRA_CLOSE,
        TextKind::TooNested => TOO_NESTED,
        TextKind::TooLarge => TOO_LARGE,
    }
}

fn what_sentence(what: What) -> &'static [u8]
    ensures { result.now ≡ what_sentence what }
{
    match what {
        What::Domain => DOMAIN,
        What::Problem => PROBLEM,
        What::Name => NAME,
        What::Rules => RULES,
        What::Rule => RULE,
        What::Head => HEAD,
        What::Pre => PRE,
        What::Expr => EXPR,
        What::Variable => VARIABLE,
        What::Term => TERM,
        What::Tail => TAIL,
        What::Atom => ATOM,
        What::Atoms => ATOMS,
        What::Effects => EFFECTS,
        What::Tasks => TASKS,
        What::Ground => GROUND,
        What::End => END,
    }
}

fn check_sentence(kind: CheckKind) -> &'static [u8]
    ensures { result.now ≡ check_sentence kind }
{
    match kind {
        CheckKind::OtherDomain => OTHER_DOMAIN,
        CheckKind::UnknownCall => UNKNOWN_CALL,
        CheckKind::CallArity => CALL_ARITY,
        CheckKind::VariableInProblem => VARIABLE_IN_PROBLEM,
        CheckKind::CallInHead => CALL_IN_HEAD,
        CheckKind::TooManyVariables => TOO_MANY_VARIABLES,
        CheckKind::ExprNested => EXPR_NESTED,
        CheckKind::UnknownOrder => UNKNOWN_ORDER,
    }
}

fn fault_sentence(kind: FaultKind) -> &'static [u8]
    ensures { result.now ≡ fault_sentence kind }
{
    match kind {
        FaultKind::NotGround => NOT_GROUND,
        FaultKind::NotNumber => NOT_NUMBER,
        FaultKind::Overflow => OVERFLOW,
        FaultKind::ZeroDivisor => ZERO_DIVISOR,
        FaultKind::NegativePower => NEGATIVE_POWER,
        FaultKind::NotList => NOT_LIST,
        FaultKind::TooDeep => TOO_DEEP,
        FaultKind::FractionPower => FRACTION_POWER,
    }
}
