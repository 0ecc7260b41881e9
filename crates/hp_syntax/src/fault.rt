use crate::pattern::Span;

/// What can go wrong with a value while a plan is looked for. The numbers are those by which the
/// kinds are known.
#[derive(Clone, Copy, Debug, PartialEq, Eq)]
pub enum FaultKind {
    /// A value was wanted of a variable without one.
    NotGround = 1,
    /// A number was wanted, and the value is none.
    NotNumber = 2,
    /// A number left the signed 64-bit range.
    Overflow = 3,
    /// A quotient or a remainder by 0.
    ZeroDivisor = 4,
    /// A power with a negative exponent.
    NegativePower = 5,
    /// A list was wanted, and the value is none.
    NotList = 6,
    /// A list nested deeper than 64.
    TooDeep = 7,
    /// A power whose exponent is no whole number.
    FractionPower = 8,
}

/// A fault of a run, at the place in the domain's text that met it.
#[derive(Clone, Copy, Debug, PartialEq, Eq)]
pub struct RunFault {
    pub kind: FaultKind,
    pub span: Span,
}
