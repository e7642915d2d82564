// Tests of bytes, and runs of bytes that pass one.
ghost use Rattle.std.specs.Prelude.{◌≡◌, ◌+◌, ◌≤◌, eqb, length, drop, ℕ, Bool, IfSome};
ghost use Rattle.text.specs.Bytes.{is_space, first_is};
ghost use Rattle.scanner.specs.Parts.{one_or_more};
ghost use Rattle.scanner.specs.Constants.{is_hex_digit};
ghost use Rattle.scanner.specs.Lexical.{is_alphanumeric_byte, is_symbol};
ghost use Rattle.scanner.specs.Promises.Reach.{is_plain, run, reach, Decides};

// What an alphanumeric identifier goes on with.
pub fn is_alphanumeric(b: u8) -> bool
    ensures { result ≡ is_alphanumeric_byte b }
{
    text::is_alphanumeric(b) || b == b'\'' || b == b'_'
}

// The bytes of symbolic identifiers: `*` for each that is one.
const SYMBOL: u8 = b'*';

const SYMBOLS: [u8; 256] =
    *b"---------------------------------*-****---**-*-*----------*-*****---------------------------*-*-*---------------------------*-*---------------------------------------------------------------------------------------------------------------------------------";

pub fn is_symbol(b: u8) -> bool
    ensures { result ≡ is_symbol b }
{
    SYMBOLS[b as usize] == SYMBOL
}

pub fn is_hex_digit(b: u8) -> bool
    ensures { result ≡ is_hex_digit b }
{
    match b {
        b'A'..=b'F' | b'a'..=b'f' => true,
        _ => text::is_digit(b),
    }
}

// The bytes that stand for themselves in a string constant.
pub fn is_plain(b: u8) -> bool
    ensures { result ≡ is_plain b }
{
    match b {
        b'"' | b'\\' => false,
        _ => b' ' <= b && b <= b'~',
    }
}

// How many bytes at the start pass a test.
fn run_length<F: Fn(u8) -> bool>(s: &[u8], passes: F) -> usize
    requires { F.IsAlwaysCallable passes }
    ensures within { result ≤ length s.now }
    ensures counts { (test : ℕ → Bool) → Decides (F.post passes) test → result ≡ run test s.now }
{
    s.iter().position(|b| !passes(*b)).unwrap_or(s.len())
}

// The same, where one byte or more does.
pub fn run_of_some<F: Fn(u8) -> bool>(s: &[u8], passes: F) -> Option<usize>
    requires { F.IsAlwaysCallable passes }
    ensures within { IfSome result (λ n. n ≤ length s.now) }
    ensures counts { (test : ℕ → Bool) → Decides (F.post passes) test → result ≡ reach (one_or_more test) s.now }
{
    match run_length(s, passes) {
        0 => None,
        n => Some(n),
    }
}

// The end of the bytes that pass a test, from an offset on.
pub fn run<F: Fn(u8) -> bool>(s: &[u8], from: usize, passes: F) -> usize
    requires { F.IsAlwaysCallable passes }
    ensures { (test : ℕ → Bool) → Decides (F.post passes) test → result ≡ from + run test (drop from s.now) }
{
    if s.len() <= from {
        return from;
    }
    from + run_length(&s[from..], passes)
}

fn is_blank(b: u8) -> bool
    ensures { result ≡ eqb b 32 }
{
    b == b' '
}

// The end of the white space that starts at an offset: runs of blanks, and other white space between them. One run of white space
// takes a third longer.
pub fn spaces(s: &[u8], from: usize) -> usize
    ensures { result ≡ from + run is_space (drop from s.now) }
{
    let mut at = run(s, from, is_blank);
    while at < s.len() {
        if !text::is_space(s[at]) {
            return at;
        }
        at = run(s, at + 1, is_blank);
    }
    at
}

// Whether a byte stands at an offset.
#[tactic(auto, using(crate::proofs::ReachLaws::first_laws))]
pub fn stands(s: &[u8], at: usize, b: u8) -> bool
    ensures { result ≡ first_is (λ c. eqb c b) (drop at s.now) }
{
    if s.len() <= at {
        return false;
    }
    s[at] == b
}
