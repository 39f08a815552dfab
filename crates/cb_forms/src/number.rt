//! Words that spell numbers.
ghost use Rattle.std.specs.Prelude.{◌≡◌, ◌<◌, ◌^◌, IsTrue, Ok, Err, MatchOption, SomeIff};
ghost use Rattle.std.specs.List.{All};
ghost use Rattle.cb_forms.specs.Bytes.{is_digit};
ghost use Rattle.cb_forms.specs.Words as spec;

use crate::fault::Fault;
use crate::token::Token;

/// Whether a word is an optional sign and then digits.
pub(crate) fn is_integer(word: &[u8]) -> bool
    ensures { result ≡ spec.spells_integer word.now }
{
    is_digits(without_sign(word))
}

/// Whether a word is a number with a point or an exponent.
pub(crate) fn is_float(word: &[u8]) -> bool
    ensures { result ≡ spec.is_float word.now }
{
    let text = without_sign(word);
    let has_digits = begins_with_digit(text);
    match after_digits(text) {
        [b'.', rest @ ..] => {
            let end = after_digits(rest);
            (has_digits || begins_with_digit(rest)) && (end.is_empty() || is_exponent(end))
        }
        rest => has_digits && is_exponent(rest),
    }
}

/// The number that a word spells, or `None` where it does not fit 64 bits with a sign.
pub(crate) fn integer(word: &[u8]) -> Option<i64>
    requires { IsTrue (spec.spells_integer word.now) }
    ensures { MatchOption result
        (spec.integer_token word.now ≡ Err Fault.IntegerOutOfRange)
        (λ n. spec.integer_token word.now ≡ Ok (Token.Int n)) }
{
    let magnitude = digits_value(without_sign(word))?;
    match word {
        [b'-', ..] => 0i64.checked_sub_unsigned(magnitude),
        _ => 0i64.checked_add_unsigned(magnitude),
    }
}

/// The text without the sign that it may begin with.
fn without_sign(text: &[u8]) -> &[u8]
    ensures { result.now ≡ spec.without_sign text.now }
{
    match text {
        [b'+' | b'-', rest @ ..] => rest,
        _ => text,
    }
}

fn begins_with_digit(text: &[u8]) -> bool
    ensures { result ≡ spec.begins_with_digit text.now }
{
    matches!(text, [b'0'..=b'9', ..])
}

/// What stands after the digits that a text begins with.
fn after_digits(text: &[u8]) -> &[u8]
    ensures { result.now ≡ spec.after_digits text.now }
{
    let mut rest = text;
    while let [b'0'..=b'9', more @ ..] = rest {
        rest = more;
    }
    rest
}

/// Whether a text is one digit or more, and nothing else.
fn is_digits(text: &[u8]) -> bool
    ensures { result ≡ spec.is_digits text.now }
{
    begins_with_digit(text) && after_digits(text).is_empty()
}

/// Whether a text is `e` or `E`, an optional sign and digits.
fn is_exponent(text: &[u8]) -> bool
    ensures { result ≡ spec.is_exponent text.now }
{
    match text {
        [b'e' | b'E', rest @ ..] => is_digits(without_sign(rest)),
        _ => false,
    }
}

/// The number that digits stand for, or `None` where it does not fit 64 bits.
fn digits_value(digits: &[u8]) -> Option<u64>
    requires { All (λ b. IsTrue (is_digit b)) digits.now }
    ensures { SomeIff result (spec.digits_value digits.now < 2 ^ 64)
        (spec.digits_value digits.now) }
{
    let mut value: u64 = 0;
    for digit in digits {
        value = value
            .checked_mul(10)?
            .checked_add(u64::from(*digit - b'0'))?;
    }
    Some(value)
}
