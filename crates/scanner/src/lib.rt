// Tokens straight from the text (document 02, Ticket 2), and the commands of a record that they are.
#![tactic(auto)]

pub mod lexical; // lexical.rt: the longest token and its kind
mod numbers; // numbers.rt: integers, words and reals
mod runs; // runs.rt: runs of bytes that pass a test
mod strings; // strings.rt: string and character constants

ghost use Rattle.std.specs.Prelude.{◌≡◌, ◌++◌, ◌*◌, ◌≤◌, length, drop};
ghost use Rattle.reader.specs.Tokens.{count_of, no_tokens};
ghost use Rattle.reader.specs.Reading.{max_text};
ghost use Rattle.scanner.specs.Scan.{number_at, scan_text, limited, read, commands, scan as scan·};
ghost use Rattle.scanner.specs.declared.ScanError.TheVariants.{Refused};
ghost use Rattle.scanner.specs.Answers.{number_of, place_of, reply_of};
ghost use Rattle.scanner.specs.Promises.Answers.{scanned_in};

use lexical::{kind_of, token_length};
use reader::MAX_TEXT;
use reader::tokens::{MAX_TOKENS, Span, Tokens};
use text::first_broken;

// Why a text is refused.
#[derive(Clone, Copy, Debug, PartialEq, Eq)]
pub enum Refusal {
    // The text has too many bytes or too many tokens.
    TooLong,
    // The offset of the first byte of the first broken character.
    NotUtf8(usize),
    // The offset of a comment without an end.
    OpenComment(usize),
    // The offset of a double quote that begins no string constant.
    NoString(usize),
    // The offset of another byte that begins no token.
    BeginsNoToken(usize),
}

impl Refusal {
    // The number of the documents.
    #[tactic(auto, unfolding(crate::specs::Answers::number_of))]
    pub fn number(self) -> u64
        ensures { result ≡ number_of self }
    {
        match self {
            Refusal::TooLong => 1,
            Refusal::NotUtf8(_) => 2,
            Refusal::OpenComment(_) => 10,
            Refusal::NoString(_) => 11,
            Refusal::BeginsNoToken(_) => 12,
        }
    }

    // The place.
    #[tactic(auto, unfolding(crate::specs::Answers::place_of))]
    pub fn place(self) -> usize
        ensures { result ≡ place_of self }
    {
        match self {
            Refusal::TooLong => 0,
            Refusal::NotUtf8(place)
            | Refusal::OpenComment(place)
            | Refusal::NoString(place)
            | Refusal::BeginsNoToken(place) => place,
        }
    }
}

// Why `scan` writes nothing.
#[derive(Clone, Copy, Debug, PartialEq, Eq)]
pub enum ScanError {
    Refused(Refusal),
    // The output is shorter than the commands.
    OutputTooShort,
}

impl From<Refusal> for ScanError {
    ghost from_gives = { λ why e. e ≡ Refused why };

    fn from(why: Refusal) -> ScanError {
        ScanError::Refused(why)
    }
}

// ---- tokens
// The refusal at an offset where no token begins, by the byte there.
#[tactic(auto, unfolding(crate::specs::Scan::number_at, crate::specs::Answers::number_of, crate::specs::Answers::place_of))]
fn refused_at(b: u8, at: usize) -> Refusal
    ensures { (number_of result ≡ number_at b) × (place_of result ≡ at) }
{
    match b {
        b'(' => Refusal::OpenComment(at),
        b'"' => Refusal::NoString(at),
        _ => Refusal::BeginsNoToken(at),
    }
}

// The tokens of a text, into an empty list; tokens past the list's end are left out, and the text is refused.
// By an index, because tokens have different lengths.
fn fill(text: &[u8], tokens: &mut Tokens) -> Result<(), Refusal>
    requires text_len_bound { length text.now ≤ max_text }
    requires empty { tokens.old ≡ no_tokens }
    ensures { scanned_in result tokens.new ≡ limited (scan_text text.now) }
{
    let mut at: usize = 0;
    let mut fit = true;
    while at < text.len() {
        let rest = &text[at..];
        let Some(len) = token_length(rest) else {
            return Err(refused_at(text[at], at));
        };
        if tokens.count() < MAX_TOKENS {
            let span = Span {
                start: at as u16,
                len: len as u16,
            };
            tokens.push(kind_of(&rest[..len]), span);
        } else {
            fit = false;
        }
        at += len;
    }
    if fit { Ok(()) } else { Err(Refusal::TooLong) }
}

// The tokens of a text: 1 and 2, then 10 to 12, then 1 for the tokens. The list becomes that of the tokens where none is told.
pub fn tables(text: &[u8], tokens: &mut Tokens) -> Result<(), Refusal>
    ensures { scanned_in result tokens.new ≡ read text.now }
{
    tokens.clear();
    read_text(text, tokens)
}

// The same, into an empty list. `scan` makes one: to empty it there takes a twentieth more time.
#[tactic(auto, unfolding(crate::specs::Scan::read, crate::specs::Answers::number_of, crate::specs::Answers::place_of))]
fn read_text(text: &[u8], tokens: &mut Tokens) -> Result<(), Refusal>
    requires { tokens.old ≡ no_tokens }
    ensures { scanned_in result tokens.new ≡ read text.now }
{
    if MAX_TEXT < text.len() {
        return Err(Refusal::TooLong);
    }
    if let Some(place) = first_broken(text) {
        return Err(Refusal::NotUtf8(place));
    }
    fill(text, tokens)
}

// ---- commands of a record
// Writes 0x05 kind(u8) length(u16) for each token, from the output's start on.
fn write(tokens: &Tokens, out: &mut [u8])
    requires { 4 * count_of tokens.now ≤ length out.old }
    ensures { out.new ≡ commands tokens.now.kinds tokens.now.lengths ++ drop (4 * count_of tokens.now) out.old }
{
    for (k, (kind, span)) in tokens.kinds().iter().zip(tokens.spans()).enumerate() {
        let len = span.len;
        let [low, high] = len.to_le_bytes();
        let at = 4 * k;
        out[at] = 0x05;
        out[at + 1] = *kind;
        out[at + 2] = low;
        out[at + 3] = high;
    }
}

// The tokens of a text as commands at the output's start.
pub fn scan(text: &[u8], out: &mut [u8]) -> Result<usize, ScanError>
    ensures { reply_of result out.new ≡ scan· text.now out.old }
{
    let mut tokens = Tokens::new();
    read_text(text, &mut tokens)?;
    let size = 4 * tokens.count();
    if out.len() < size {
        return Err(ScanError::OutputTooShort);
    }
    write(&tokens, out);
    Ok(size)
}
