//! The spelling of a token.

ghost use Rattle.std.specs.List.{list_all};
ghost use Rattle.std.specs.Prelude.{◌≡◌, ◌^◌, ◌<◌, ◌≤◌, length, take, slice_index, true, false, IfSome, IfNone, IsTrue, codes, ◌++◌};
ghost use Rattle.std.specs.Char.{digit_value};
ghost use Rattle.std.specs.Str.Parse.{digits_value, starts_with_minus, without_leading_sign};
ghost use Rattle.hp_syntax.specs.Text as text;
ghost use Rattle.hp_text.specs.Spellings.{IsSplit, parts_value, plain_spelling, spelling_by};

/// Numbers of so few bytes are in range.
const SMALL: usize = 15;

/// With one more digit behind it this is out of range, and so are the numbers above it.
const GREAT: u64 = 1_000_000_000_000_000;

/// No more decimals are kept.
const MOST_DECIMALS: usize = 3;

/// The spelling of a token: a name, a number, or no number though it begins like one.
#[derive(Clone, Copy, Debug, PartialEq, Eq)]
pub enum Spelling {
    Name,
    Number(i64),
    NoNumber,
    OutOfRange,
}

// A digit, or a point and a digit, begins these bytes.
fn begins_unsigned(bytes: &[u8]) -> bool
    ensures { result ≡ text.begins_unsigned bytes.now }
{
    match bytes {
        [] => false,
        [first] => first.is_ascii_digit(),
        [first, second, ..] => first.is_ascii_digit()
            || (*first == b'.' && second.is_ascii_digit()),
    }
}

// No digit, point or sign comes behind the digit nine, which most names are told by.
#[inline(always)]
pub fn is_numeral(token: &[u8]) -> bool
    ensures { result ≡ text.is_numeral token.now }
{
    match token {
        [] => false,
        [first, rest @ ..] => *first <= b'9'
            && (begins_unsigned(token) || (matches!(first, b'+' | b'-') && begins_unsigned(rest))),
    }
}

// The number of digits that these bytes begin with.
fn digits_end(bytes: &[u8]) -> usize
    ensures within { result ≤ length bytes.now }
    ensures digits { list_all text.is_digit (take result bytes.now) ≡ true }
    ensures ends { result < length bytes.now → text.is_digit (slice_index bytes.now result) ≡ false }
{
    for (i, byte) in bytes.iter().enumerate() {
        if !byte.is_ascii_digit() {
            return i;
        }
    }
    bytes.len()
}

fn are_digits(bytes: &[u8]) -> bool
    ensures { result ≡ list_all text.is_digit bytes.now }
{
    bytes.iter().all(|byte| byte.is_ascii_digit())
}

fn without_sign(token: &[u8]) -> &[u8]
    ensures { result.now ≡ without_leading_sign token.now }
{
    if matches!(token.first(), Some(b'+' | b'-')) {
        &token[1..]
    } else {
        token
    }
}

fn is_negative(token: &[u8]) -> bool
    ensures { result ≡ starts_with_minus token.now }
{
    matches!(token.first(), Some(b'-'))
}

// What stands behind the digits that these bytes begin with, where it is a point or nothing.
fn behind_digits(bytes: &[u8], end: usize) -> Option<&[u8]>
    requires within { end ≤ length bytes.now }
    requires digits { list_all text.is_digit (take end bytes.now) ≡ true }
    requires ends { end < length bytes.now → text.is_digit (slice_index bytes.now end) ≡ false }
    ensures some { IfSome result (λ d. (d.now ≡ text.behind_point bytes.now)
        × (text.before_point bytes.now ≡ take end bytes.now)) }
    ensures none { IfNone result (text.is_decimal bytes.now ≡ false) }
{
    if end == bytes.len() {
        return Some(b"");
    }
    if bytes[end] == b'.' {
        return Some(&bytes[end + 1..]);
    }
    None
}

// The digits before and behind the point, where these bytes are a decimal.
fn decimal_parts(bytes: &[u8]) -> Option<(&[u8], &[u8])>
    ensures some { IfSome result (λ p. IsSplit bytes.now p.0.now p.1.now) }
    ensures none { IfNone result (text.is_decimal bytes.now ≡ false) }
{
    let end = digits_end(bytes);
    let decimals = behind_digits(bytes, end)?;
    if end + decimals.len() > 0 && decimals.len() <= MOST_DECIMALS && are_digits(decimals) {
        return Some((&bytes[..end], decimals));
    }
    None
}

fn is_well_spelled(token: &[u8]) -> bool
    ensures { result ≡ text.is_well_spelled token.now }
{
    decimal_parts(without_sign(token)).is_some()
}

/// Whether a token is a sign and a decimal so short that no such number is out of range.
pub fn is_small_number(token: &[u8]) -> bool
    ensures spelled { IsTrue result → text.is_well_spelled token.now ≡ true }
    ensures range { IsTrue result → text.is_in_range token.now ≡ true }
{
    token.len() <= SMALL && is_well_spelled(token)
}

// The number of a digit.
fn digit_number(digit: u8) -> u64
    requires { text.is_digit digit ≡ true }
    ensures value { result ≡ digit_value digit }
    ensures few { result < 10 }
{
    u64::from(digit - b'0')
}

// The number of digits, unless it is so great that its thousandths are out of range.
fn whole_number(digits: &[u8]) -> Option<u64>
    requires { list_all text.is_digit digits.now ≡ true }
    ensures some { IfSome result (λ n. (n ≡ digits_value 10 digits.now) × (n < 10 ^ 16)) }
    ensures none { IfNone result (10 ^ 16 ≤ digits_value 10 digits.now) }
{
    let mut number = 0u64;
    for digit in digits {
        if number >= GREAT {
            return None;
        }
        number = number * 10 + digit_number(*digit);
    }
    Some(number)
}

// The thousandths that the digits behind a point are.
fn decimals_number(decimals: &[u8]) -> u64
    requires { list_all text.is_digit decimals.now ≡ true }
    ensures value { result ≡ digits_value 10 (take 3 (decimals.now ++ codes "000")) }
    ensures few { result < 1000 }
{
    match decimals {
        [] => 0,
        [a] => digit_number(*a) * 100,
        [a, b] => digit_number(*a) * 100 + digit_number(*b) * 10,
        [a, b, c, ..] => digit_number(*a) * 100 + digit_number(*b) * 10 + digit_number(*c),
    }
}

// The thousandths of a decimal, unless they are far out of range.
fn thousandths(whole: &[u8], decimals: &[u8]) -> Option<u64>
    requires whole { list_all text.is_digit whole.now ≡ true }
    requires decimals { list_all text.is_digit decimals.now ≡ true }
    ensures some { IfSome result (λ n. n ≡ parts_value whole.now decimals.now) }
    ensures none { IfNone result (10 ^ 19 ≤ parts_value whole.now decimals.now) }
{
    let number = whole_number(whole)?;
    Some(number * 1000 + decimals_number(decimals))
}

// The number of so many thousandths, unless it is out of range.
fn signed(is_negative: bool, thousandths: u64) -> Option<i64>
    ensures some { IfSome result (λ n. text.ANumber n ≡ spelling_by is_negative thousandths) }
    ensures none { IfNone result (text.OutOfRange ≡ spelling_by is_negative thousandths) }
{
    if is_negative {
        return 0i64.checked_sub_unsigned(thousandths);
    }
    0i64.checked_add_unsigned(thousandths)
}

// The spelling of a decimal of these digits.
fn decimal_spelling(is_negative: bool, whole: &[u8], decimals: &[u8]) -> Spelling
    requires whole { list_all text.is_digit whole.now ≡ true }
    requires decimals { list_all text.is_digit decimals.now ≡ true }
    ensures { plain_spelling result ≡ spelling_by is_negative (parts_value whole.now decimals.now) }
{
    let number = match thousandths(whole, decimals) {
        Some(number) => signed(is_negative, number),
        None => None,
    };
    match number {
        Some(number) => Spelling::Number(number),
        None => Spelling::OutOfRange,
    }
}

// The spelling of a numeral.
#[inline(never)]
fn numeral_spelling(token: &[u8]) -> Spelling
    requires { text.is_numeral token.now ≡ true }
    ensures { plain_spelling result ≡ text.spelling_of token.now }
{
    match decimal_parts(without_sign(token)) {
        Some((whole, decimals)) => decimal_spelling(is_negative(token), whole, decimals),
        None => Spelling::NoNumber,
    }
}

/// The spelling of a token.
#[inline(always)]
#[tactic(auto, unfolding(hp_syntax::specs::Text::spelling_of))]
pub fn spelling_of(token: &[u8]) -> Spelling
    ensures { plain_spelling result ≡ text.spelling_of token.now }
{
    if is_numeral(token) {
        numeral_spelling(token)
    } else {
        Spelling::Name
    }
}
