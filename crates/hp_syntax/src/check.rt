use crate::pattern::Span;

/// The kinds of faults that the checks find. The numbers are those by which they are known.
#[derive(Clone, Copy, Debug, PartialEq, Eq)]
pub enum CheckKind {
    /// The problem names another domain; told with that name.
    OtherDomain = 1,
    /// A call of a name that the call table lacks; told with the call.
    UnknownCall = 2,
    /// A call with another number of arguments than the call table has; told with the call.
    CallArity = 3,
    /// A variable as a term or as a tail of the problem; told with it.
    VariableInProblem = 4,
    /// A call in a head; told with the call.
    CallInHead = 5,
    /// A rule of more than 256 variables; told with the rule.
    TooManyVariables = 6,
    /// An expression at level 25; told with it.
    ExprNested = 7,
    /// A sort by a name that is no order; told with the name.
    UnknownOrder = 8,
}

/// A fault that a check finds, at a span of the domain's or of the problem's text.
#[derive(Clone, Copy, Debug, PartialEq, Eq)]
pub struct CheckFault {
    pub kind: CheckKind,
    pub in_problem: bool,
    pub span: Span,
}
