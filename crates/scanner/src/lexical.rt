// The longest token at the start of a text, and the kind of a token.
ghost use Rattle.std.specs.Prelude.{◌≡◌, ◌≤◌, ◌∷◌, true, false, drop};
ghost use Rattle.text.specs.Bytes.{is_space, is_letter, is_digit};
ghost use Rattle.scanner.specs.Lexical.{closes, longest, kind_of};
ghost use Rattle.scanner.specs.Promises.Reach.{longer, reach, positive, kind_if};

use crate::runs::{is_alphanumeric, is_symbol, run, spaces, stands};
use crate::{numbers, strings};

// The end of a comment that starts with the two bytes before an offset. By an index: a `for` over pairs of bytes takes twice the time.
fn comment_end(s: &[u8], from: usize) -> Option<usize>
    ensures { result ≡ longer from (reach (λ t. closes t 1) (drop from s.now)) }
{
    if s.len() == 0 {
        return None;
    }
    let last = s.len() - 1;
    let mut at = from;
    let mut depth: usize = 1;
    while at < last {
        let b = s[at];
        at += 1;
        if b == b'*' {
            if s[at] == b')' {
                at += 1;
                depth -= 1;
                if depth == 0 {
                    return Some(at);
                }
            }
            continue;
        }
        if b == b'(' {
            if s[at] == b'*' {
                at += 1;
                depth += 1;
            }
        }
    }
    None
}

// A token that starts with `~`.
fn negation(rest: &[u8]) -> usize
    requires { rest.now ≡ 126 ∷ drop 1 rest.now }
    ensures is { result ≡ longest rest.now }
    ensures some { 1 ≤ result }
{
    if let Some(n) = numbers::magnitude(&rest[1..]) {
        return 1 + n;
    }
    run(rest, 1, is_symbol)
}

// A token that starts with `#`.
fn hash(rest: &[u8]) -> usize
    requires { rest.now ≡ 35 ∷ drop 1 rest.now }
    ensures is { result ≡ longest rest.now }
    ensures some { 1 ≤ result }
{
    if !stands(rest, 1, b'"') {
        return run(rest, 1, is_symbol);
    }
    let Some(string) = strings::string(rest, 2) else {
        return 1;
    };
    if string.count == 1 {
        return string.end;
    }
    1
}

// A token that starts with `"`.
fn quoted(rest: &[u8]) -> Option<usize>
    requires { rest.now ≡ 34 ∷ drop 1 rest.now }
    ensures { result ≡ positive (longest rest.now) }
{
    Some(strings::string(rest, 1)?.end)
}

// A token that starts with a digit.
fn number(rest: &[u8], b: u8) -> Option<usize>
    requires rest_value { rest.now ≡ b ∷ drop 1 rest.now }
    requires b_value { is_digit b ≡ true }
    ensures { result ≡ positive (longest rest.now) }
{
    numbers::word(rest).or_else(|| numbers::magnitude(rest))
}

// A token that starts with `(`.
#[tactic(auto, using(crate::proofs::TokenLaws::bracket_laws), unfolding(crate::specs::Promises::Reach::positive))]
fn bracket(rest: &[u8]) -> Option<usize>
    requires { rest.now ≡ 40 ∷ drop 1 rest.now }
    ensures { result ≡ positive (longest rest.now) }
{
    if stands(rest, 1, b'*') {
        return comment_end(rest, 2);
    }
    Some(1)
}

// A token that starts with `.`.
#[tactic(auto, using(crate::proofs::TokenLaws::dots_laws))]
fn dots(rest: &[u8]) -> usize
    requires { rest.now ≡ 46 ∷ drop 1 rest.now }
    ensures is { result ≡ longest rest.now }
    ensures some { 1 ≤ result }
{
    if stands(rest, 1, b'.') {
        if stands(rest, 2, b'.') {
            return 3;
        }
    }
    1
}

// A token that starts with none of letters, primes, digits, white space.
fn other(rest: &[u8], b: u8) -> Option<usize>
    requires rest_value { rest.now ≡ b ∷ drop 1 rest.now }
    requires b_value { (is_space b ≡ false) × (is_letter b ≡ false) × (b ≡ 39 → ⊥) × (is_digit b ≡ false) }
    ensures { result ≡ positive (longest rest.now) }
{
    match b {
        b'"' => quoted(rest),
        b'#' => Some(hash(rest)),
        b'(' => bracket(rest),
        b'.' => Some(dots(rest)),
        b'~' => Some(negation(rest)),
        b')' | b',' | b';' | b'[' | b']' | b'_' | b'{' | b'}' => Some(1),
        _ if is_symbol(b) => Some(run(rest, 1, is_symbol)),
        _ => None,
    }
}

// The length of the longest token at the start, where one begins there. A prime is asked for last: few tokens start with one.
pub fn token_length(rest: &[u8]) -> Option<usize>
    ensures { result ≡ positive (longest rest.now) }
{
    let b = *rest.first()?;
    if text::is_letter(b) {
        return Some(run(rest, 1, is_alphanumeric));
    }
    if text::is_digit(b) {
        return number(rest, b);
    }
    if text::is_space(b) {
        return Some(spaces(rest, 1));
    }
    if b == b'\'' {
        return Some(run(rest, 1, is_alphanumeric));
    }
    other(rest, b)
}

// The kind where the token is the word, else the other.
#[tactic(auto, unfolding(crate::specs::Promises::Reach::kind_if))]
fn kind_if(token: &[u8], word: &[u8], kind: u8, other: u8) -> u8
    ensures { result ≡ kind_if token.now word.now kind other }
{
    if text::same(token, word) {
        return kind;
    }
    other
}

// The kind of a token, by its text.
pub fn kind_of(token: &[u8]) -> u8
    ensures { result ≡ kind_of token.now }
{
    if token.len() < 2 {
        return 0;
    }
    match token[0] {
        b'(' => {
            if stands(token, 1, b'*') {
                return 1;
            }
            0
        }
        b'.' => kind_if(token, b"...", 2, 0),
        b'a' => kind_if(token, b"and", 3, kind_if(token, b"abstype", 9, 0)),
        b'd' => kind_if(token, b"datatype", 8, kind_if(token, b"do", 15, 0)),
        b'e' => kind_if(token, b"eqtype", 7, kind_if(token, b"exception", 10, 0)),
        b'f' => kind_if(token, b"fun", 5, kind_if(token, b"functor", 19, 0)),
        b'i' => kind_if(
            token,
            b"infix",
            12,
            kind_if(token, b"infixr", 13, kind_if(token, b"include", 20, 0)),
        ),
        b'l' => kind_if(token, b"local", 16, 0),
        b'n' => kind_if(token, b"nonfix", 14, 0),
        b'o' => kind_if(token, b"open", 11, 0),
        b's' => kind_if(token, b"structure", 17, kind_if(token, b"signature", 18, 0)),
        b't' => kind_if(token, b"type", 6, 0),
        b'v' => kind_if(token, b"val", 4, 0),
        _ => 0,
    }
}
