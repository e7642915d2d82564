// The record: commands, tokens, the record check, the end of a field (document 01, "The record" and module 3).
#![tactic(auto)]

pub mod commands; // commands.rt: the commands, each read at an offset
pub mod tokens; // tokens.rt: the tokens
mod grammar; // grammar.rt: the fields of every form, group and choice
pub mod tree; // tree.rt: the record check behind the tokens

ghost use Rattle.std.specs.Prelude.{◌≡◌};
ghost use Rattle.text.specs.Utf8.{boundary};
ghost use Rattle.reader.specs.Reading.{number_of, place_of};
ghost use Rattle.reader.specs.Promises.Reading.{TextReads, RecordReads, Reads};

use text::first_broken;
use tokens::{Tokens, read_tokens};
use tree::tree_end;

// Why a sheet that is read is refused.
#[derive(Clone, Copy, Debug, PartialEq, Eq)]
pub enum Refusal {
    // The text or the record is too long.
    TooLong,
    // The offset in the text of the first byte of the first broken character.
    NotUtf8(usize),
    // The offset in the record of the first command that is malformed.
    Malformed(usize),
    // The offset in the record of the 201st form inside one another.
    TooDeep(usize),
}

impl Refusal {
    // The number of the documents.
    pub fn number(self) -> u64
        ensures { result ≡ number_of self }
    {
        match self {
            Refusal::TooLong => 1,
            Refusal::NotUtf8(_) => 2,
            Refusal::Malformed(_) => 3,
            Refusal::TooDeep(_) => 4,
        }
    }

    // The place.
    pub fn place(self) -> usize
        ensures { result ≡ place_of self }
    {
        match self {
            Refusal::TooLong => 0,
            Refusal::NotUtf8(place) | Refusal::Malformed(place) | Refusal::TooDeep(place) => place,
        }
    }
}

pub const MAX_TEXT: usize = 32768;

pub const MAX_RECORD: usize = 65536;

// Refusals 1 and 2.
#[tactic(auto, unfolding(crate::specs::Reading::read, crate::specs::Reading::read_text))]
pub fn check_text(text: &[u8], rec: &[u8]) -> Result<(), Refusal>
    ensures { TextReads text.now rec.now result }
{
    if MAX_TEXT < text.len() || MAX_RECORD < rec.len() {
        return Err(Refusal::TooLong);
    }
    match first_broken(text) {
        Some(place) => Err(Refusal::NotUtf8(place)),
        None => Ok(()),
    }
}

// Refusals 3 and 4, over a text of this length; or the tokens and where the list of declarations starts.
fn read_record(text: &[u8], size: u16, rec: &[u8], tokens: &mut Tokens) -> Result<usize, Refusal>
    ensures { RecordReads (boundary text.now) size rec.now tokens.new result }
{
    let tree = read_tokens(text, size, rec, tokens)?;
    tree_end(rec, tokens.count(), tree)?;
    Ok(tree)
}

// Refusals 1 to 4, in this order; or the tokens and the offset in the record where the list of declarations starts.
pub fn check(text: &[u8], rec: &[u8], tokens: &mut Tokens) -> Result<usize, Refusal>
    ensures { Reads text.now rec.now tokens.new result }
{
    check_text(text, rec)?;
    read_record(text, text.len() as u16, rec, tokens)
}
