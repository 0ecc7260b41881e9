//! Numbers in words.

ghost use Rattle.std.specs.List.{list_all};
ghost use Rattle.std.specs.Prelude.{true, nat_le, ◌≡◌, ◌^◌, ◌<◌, Some};
ghost use Rattle.hp_syntax.specs.Text.{is_digit};
ghost use Rattle.hp_words.specs.Numbers.{is_number, number_from, number_within, only_if};

/// Whether all bytes are digits.
fn are_digits(bytes: &[u8]) -> bool
    ensures { result ≡ list_all is_digit bytes.now }
{
    for byte in bytes {
        if !is_digit(*byte) {
            return false;
        }
    }
    true
}

fn is_digit(byte: u8) -> bool
    ensures { result ≡ is_digit byte }
{
    byte.is_ascii_digit()
}

/// Whether a word is `0`, or digits without a leading zero.
pub fn is_number(word: &[u8]) -> bool
    ensures { result ≡ is_number word.now }
{
    !word.is_empty() && are_digits(word) && (word.len() == 1 || word[0] != b'0')
}

/// The number that digits spell, where it is at most `most`.
pub fn number_up_to(digits: &[u8], most: u128) -> Option<u64>
    requires digits { list_all is_digit digits.now ≡ true }
    requires most { most < 2 ^ 64 }
    ensures { result ≡ only_if (nat_le (number_from 0 digits.now) most) (Some (number_from 0 digits.now)) }
{
    let mut number = 0u128;
    for digit in digits {
        number = number * 10 + u128::from(*digit - b'0');
        if number > most {
            return None;
        }
    }
    Some(number as u64)
}

/// The number that a word spells, where it is within these bounds.
pub fn number_within(word: &[u8], least: u64, most: u64) -> Option<u64>
    ensures { result ≡ number_within least most word.now }
{
    if !is_number(word) {
        return None;
    }
    let number = number_up_to(word, u128::from(most))?;
    if number < least { None } else { Some(number) }
}
