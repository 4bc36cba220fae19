//! Numbers in texts: decimal digits without a sign and without a leading zero.

ghost use Rattle.std.specs.Prelude.{◌≡◌, ◌+◌, ◌*◌, ◌<◌, ◌≤◌, ◌==◌, ◌||◌, ◌++◌, IsTrue, IfSome, IfNone, OnOk, OnErr, nat_lt, length, slice_index};
ghost use Rattle.std.specs.Fmt.{decimal};
ghost use Rattle.std.specs.List.{list_all};
ghost use Rattle.std.specs.Char.{is_ascii_digit};
ghost use Rattle.std.specs.Str.Parse.{digits_value};
ghost use Rattle.ely_base.specs.Numbers.{number_of};

use crate::refused::NoMemory;
use itoa::Buffer;

/// Whether the text is one byte, or begins with a byte above `0`.
fn leads(text: &[u8]) -> bool
    ensures { result ≡ (length text.now == 1 || nat_lt 48 (slice_index text.now 0)) }
{
    text.len() == 1 || text.len() > 1 && text[0] > 48
}

/// Whether the text is digits.
fn is_digits(text: &[u8]) -> bool
    ensures { result ≡ list_all is_ascii_digit text.now }
{
    text.iter().all(|b| b.is_ascii_digit())
}

/// The number with one more digit, if it is at most `max`.
fn with_digit(value: u64, digit: u8, max: u64) -> Option<u64>
    requires { digit < 10 }
    ensures fits { IfSome result (λ n. (n ≡ value * 10 + digit) × (n ≤ max)) }
    ensures large { IfNone result (max < value * 10 + digit) }
{
    let tens = value.checked_mul(10)?;
    let next = tens.checked_add(u64::from(digit))?;
    if next > max { None } else { Some(next) }
}

/// The number of some digits, if it is at most `max`.
fn value_up_to(text: &[u8], max: u64) -> Option<u64>
    requires { IsTrue (list_all is_ascii_digit text.now) }
    ensures fits { IfSome result (λ n. (n ≡ digits_value 10 text.now) × (n ≤ max)) }
    ensures large { IfNone result (max < digits_value 10 text.now) }
{
    let mut value: u64 = 0;
    for b in text {
        match with_digit(value, *b - 48, max) {
            Some(next) => value = next,
            None => return None,
        }
    }
    Some(value)
}

/// The number that the text is, if it is one up to `max`.
pub fn read_number(text: &[u8], max: u64) -> Option<u64>
    ensures { result ≡ number_of max text.now }
{
    if !leads(text) || !is_digits(text) {
        return None;
    }
    value_up_to(text, max)
}

/// Writes the decimal digits of the number behind what is there.
pub fn push_number(out: &mut Vec<u8>, number: u64) -> Result<(), NoMemory>
    ensures ok { OnOk result (out.new.items ≡ out.old.items ++ decimal number) }
    ensures err { OnErr result (out.new.items ≡ out.old.items) }
{
    let mut buffer = Buffer::new();
    out.extend_from_slice(buffer.format(number).as_bytes())?;
    Ok(())
}
