// String constants.
ghost use Rattle.std.specs.Prelude.{◌≡◌, ◌≤◌, length, drop};
ghost use Rattle.text.specs.Bytes.{bytes};
ghost use Rattle.scanner.specs.Parts.{is_one_of};
ghost use Rattle.scanner.specs.Strings.{between_characters, escape, control, number, gap};
ghost use Rattle.scanner.specs.Promises.Extents.{further, extent, extent_of, Goes};

use crate::runs::{is_hex_digit, is_plain, run, spaces, stands};

// What is read of a string constant: its end, and how many characters are denoted.
#[derive(Clone, Copy)]
pub struct Quoted {
    pub end: usize,
    pub count: usize,
}

// The bytes that stand for a character behind a backslash.
fn is_plain_escape(b: u8) -> bool
    ensures { result ≡ is_one_of (bytes "abtnvfr\"\\") b }
{
    matches!(
        b,
        b'"' | b'\\' | b'a' | b'b' | b'f' | b'n' | b'r' | b't' | b'v'
    )
}

// The digits of `\ddd`.
#[tactic(auto, using(crate::proofs::Bytes::digit_laws))]
fn decimal(s: &[u8], at: usize) -> Option<Quoted>
    requires { at ≤ length s.now }
    ensures { Goes s.now (number 10 3 0) at result }
{
    if s.len() - at < 3 {
        return None;
    }
    let a = s[at];
    if !text::is_digit(a) {
        return None;
    }
    let b = s[at + 1];
    if !text::is_digit(b) {
        return None;
    }
    let c = s[at + 2];
    if !text::is_digit(c) {
        return None;
    }
    if 255 < 100 * ((a - b'0') as usize) + 10 * ((b - b'0') as usize) + ((c - b'0') as usize) {
        return None;
    }
    Some(Quoted {
        end: at + 3,
        count: 1,
    })
}

// The digits of `\uxxxx`: no value is over 255, so the first two are 0.
fn hexadecimal(s: &[u8], at: usize) -> Option<Quoted>
    requires { at ≤ length s.now }
    ensures { Goes s.now (number 16 4 0) at result }
{
    if s.len() - at < 4 {
        return None;
    }
    if s[at] != b'0' {
        return None;
    }
    if s[at + 1] != b'0' {
        return None;
    }
    if !is_hex_digit(s[at + 2]) {
        return None;
    }
    if !is_hex_digit(s[at + 3]) {
        return None;
    }
    Some(Quoted {
        end: at + 4,
        count: 1,
    })
}

// What stands behind `\^`.
fn control(s: &[u8], at: usize) -> Option<Quoted>
    ensures { Goes s.now control at result }
{
    if s.len() <= at {
        return None;
    }
    let b = s[at];
    if b < 64 {
        return None;
    }
    if 95 < b {
        return None;
    }
    Some(Quoted {
        end: at + 1,
        count: 1,
    })
}

// The rest of a gap.
fn gap(s: &[u8], from: usize) -> Option<Quoted>
    ensures { Goes s.now gap from result }
{
    let at = spaces(s, from);
    if !stands(s, at, b'\\') {
        return None;
    }
    Some(Quoted {
        end: at + 1,
        count: 0,
    })
}

// What stands behind a backslash.
fn escape(s: &[u8], at: usize) -> Option<Quoted>
    ensures { Goes s.now escape at result }
{
    if s.len() <= at {
        return None;
    }
    let b = s[at];
    if text::is_space(b) {
        return gap(s, at + 1);
    }
    if is_plain_escape(b) {
        return Some(Quoted {
            end: at + 1,
            count: 1,
        });
    }
    if b == b'^' {
        return control(s, at + 1);
    }
    if b == b'u' {
        return hexadecimal(s, at + 1);
    }
    if text::is_digit(b) {
        return decimal(s, at);
    }
    None
}

// The string constant whose opening quote stands before an offset.
// By an index, because its parts have different lengths.
pub fn string(s: &[u8], from: usize) -> Option<Quoted>
    ensures { extent_of result ≡ further from 0 (extent between_characters (drop from s.now)) }
{
    let mut at = from;
    let mut total = 0;
    while at < s.len() {
        let b = s[at];
        if b == b'"' {
            return Some(Quoted {
                end: at + 1,
                count: total,
            });
        }
        if b == b'\\' {
            let Quoted { end, count } = escape(s, at + 1)?;
            at = end;
            total += count;
            continue;
        }
        let end = run(s, at, is_plain);
        if end == at {
            return None;
        }
        total += end - at;
        at = end;
    }
    None
}
