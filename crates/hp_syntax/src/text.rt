/// Why a text is refused. The numbers are those by which the kinds are known, and the offset that
/// is told with each is a byte's.
#[derive(Clone, Copy, Debug, PartialEq, Eq)]
pub enum TextKind {
    /// A byte that may stand in a comment alone; told with its offset.
    BadByte = 1,
    /// A numeral that isn't a sign, where there is one, and digits; told with its first byte.
    BadNumber = 2,
    /// A number outside the signed 64-bit range; told with its first byte.
    NumberRange = 3,
    /// A token of more than 256 bytes; told with its first byte.
    TokenLong = 4,
    /// Brackets that are open at the end; told with the innermost one.
    Unclosed = 5,
    /// A closing bracket where none is open; told with its offset.
    ExtraClose = 6,
    /// An opening bracket where 64 are open; told with its offset.
    TooNested = 7,
    /// A text of more than 4,194,304 bytes; told with that number.
    TooLarge = 8,
}
