// Integer, word and real constants. Each function gives the length of what stands at the start.
ghost use Rattle.std.specs.Prelude.{◌≡◌, ◌≤◌, length, IfSome};
ghost use Rattle.text.specs.Bytes.{bytes, is_digit};
ghost use Rattle.scanner.specs.Parts.{one_or_more, is_one_of};
ghost use Rattle.scanner.specs.Constants.{is_decimal, is_exponent, is_fraction, is_word};
ghost use Rattle.scanner.specs.Promises.Reach.{reach, is_hexadecimal, is_magnitude};

use crate::runs::{is_hex_digit, run_of_some};

fn digits(s: &[u8]) -> Option<usize>
    ensures within { IfSome result (λ n. n ≤ length s.now) }
    ensures counts { result ≡ reach (one_or_more is_digit) s.now }
{
    run_of_some(s, text::is_digit)
}

// An optional negation symbol, then digits.
#[tactic(auto, using(crate::proofs::NumberLaws::decimal_laws), unfolding(crate::specs::Promises::Reach::longer))]
fn decimal(s: &[u8]) -> Option<usize>
    ensures { result ≡ reach is_decimal s.now }
{
    match s {
        [b'~', rest @ ..] => Some(1 + digits(rest)?),
        _ => digits(s),
    }
}

fn is_exponent_symbol(b: u8) -> bool
    ensures { result ≡ is_one_of (bytes "Ee") b }
{
    matches!(b, b'E' | b'e')
}

// `E` or `e`, then an integer.
#[tactic(auto, using(crate::proofs::NumberLaws::exponent_laws), unfolding(crate::specs::Promises::Reach::longer))]
fn exponent(s: &[u8]) -> Option<usize>
    ensures { result ≡ reach is_exponent s.now }
{
    let (b, rest) = s.split_first()?;
    if !is_exponent_symbol(*b) {
        return None;
    }
    Some(1 + decimal(rest)?)
}

// A point and digits, with the exponent behind them.
#[tactic(auto, using(crate::proofs::NumberLaws::fraction_laws), unfolding(crate::specs::Constants::is_fraction))]
fn fraction(s: &[u8]) -> Option<usize>
    ensures { result ≡ reach is_fraction s.now }
{
    let [b'.', rest @ ..] = s else {
        return None;
    };
    let n = digits(rest)?;
    Some(1 + n + exponent(&rest[n..]).unwrap_or(0))
}

// `0x` and hexadecimal digits.
#[tactic(auto, using(crate::proofs::NumberLaws::hexadecimal_laws), unfolding(crate::specs::Promises::Reach::longer, crate::specs::Promises::Reach::is_hexadecimal))]
fn hexadecimal(s: &[u8]) -> Option<usize>
    ensures { result ≡ reach is_hexadecimal s.now }
{
    let [b'0', b'x', rest @ ..] = s else {
        return None;
    };
    Some(2 + run_of_some(rest, is_hex_digit)?)
}

// An integer or a real without a negation symbol.
#[tactic(auto, using(crate::proofs::NumberLaws::magnitude_laws))]
pub fn magnitude(s: &[u8]) -> Option<usize>
    ensures { result ≡ reach is_magnitude s.now }
{
    if let Some(n) = hexadecimal(s) {
        return Some(n);
    }
    let n = digits(s)?;
    let rest = &s[n..];
    if let Some(k) = fraction(rest) {
        return Some(n + k);
    }
    Some(n + exponent(rest).unwrap_or(0))
}

// A word constant.
#[tactic(auto, using(crate::proofs::NumberLaws::word_laws), unfolding(crate::specs::Promises::Reach::longer))]
pub fn word(s: &[u8]) -> Option<usize>
    ensures { result ≡ reach is_word s.now }
{
    let [b'0', b'w', rest @ ..] = s else {
        return None;
    };
    match rest.strip_prefix(b"x") {
        Some(hex) => Some(3 + run_of_some(hex, is_hex_digit)?),
        None => Some(2 + digits(rest)?),
    }
}
