//! Numbers in decimal digits.

ghost use Rattle.std.specs.Prelude.{◌≡◌, ◌+◌, ◌*◌, ◌<◌, ◌^◌};
ghost use Rattle.std.specs.List.{list_all};
ghost use Rattle.std.specs.Char.{is_ascii_digit};
ghost use Rattle.std.specs.Option.{SomeIff};
ghost use Rattle.rc_text.specs.Numbers.{u64_of, is_number};

/// Why a word is no number of 64 bits.
#[derive(Clone, Copy, Debug, PartialEq, Eq)]
pub enum NumFault {
    /// It is empty, or has a byte that is no decimal digit.
    Form,
    /// Its digits stand for more than 2^64 - 1.
    Range,
}

fn has_digits_only(word: &[u8]) -> bool
    ensures { result ≡ list_all is_ascii_digit word.now }
{
    word.iter().all(|byte| byte.is_ascii_digit())
}

/// Whether a word is one or more decimal digits.
pub fn is_number(word: &[u8]) -> bool
    ensures { result ≡ is_number word.now }
{
    !word.is_empty() && has_digits_only(word)
}

/// A number with one digit more, if that has 64 bits at most.
fn with_digit(number: u64, digit: u8) -> Option<u64>
    ensures { SomeIff result (number * 10 + digit < 2 ^ 64) (number * 10 + digit) }
{
    number.checked_mul(10)?.checked_add(u64::from(digit))
}

/// The number that a word of decimal digits stands for. Zeros in front don't count, however many they are.
pub fn read_u64(word: &[u8]) -> Result<u64, NumFault>
    ensures { result ≡ u64_of word.now }
{
    if !is_number(word) {
        return Err(NumFault::Form);
    }
    let mut number = 0;
    for byte in word {
        match with_digit(number, *byte - b'0') {
            Some(more) => number = more,
            None => return Err(NumFault::Range),
        }
    }
    Ok(number)
}
