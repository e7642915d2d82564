// Questions about the form at an offset and about a token's text; what `AppExp` sees of its expressions.
#![tactic(auto, unfolding(crate::specs::Promises::Looks::head, crate::specs::Promises::Looks::seen_of, crate::specs::Promises::Looks::heads_of, crate::specs::Promises::Looks::heads_from, crate::specs::Promises::Looks::seen_behind, crate::specs::Promises::Looks::asked_first, crate::specs::Promises::Looks::named, crate::specs::Promises::State::read_of, crate::specs::Meaning::passes, crate::specs::Meaning::token_text, crate::specs::Meaning::is_command, crate::specs::Meaning::on_new_line, crate::specs::Meaning::needs_newline, crate::specs::Meaning::sees, crate::specs::Meaning::both_seen, crate::specs::Meaning::head_of, crate::specs::Meaning::heads_from, crate::specs::Meaning::heads_at, reader::specs::Forms::exp_number, reader::specs::Fields::first_form, text::specs::Bytes::bytes, reader::specs::Commands::form_width, reader::specs::Promises::Tree::told))]

ghost use Rattle.std.specs.Prelude.{◌≡◌};
ghost use Rattle.layout.specs.Layout.{is_bang, is_pipe, is_alphabetic, is_alphanumeric, is_if_exp, body_exp_needs_newline};
ghost use Rattle.layout.specs.Promises.Lent.{page_of, rec_of, count_of};
ghost use Rattle.layout.specs.Meaning.{on_new_line, passes, sees};
ghost use Rattle.layout.specs.Promises.Looks.{head_of, heads_from, heads_behind, heads_at, asked_first};

use crate::fields::form;
use crate::names::{Name, op_path_name};
use crate::{Page, Status, Stop};
use reader::commands::Family;
use reader::tree::exp_end;
use text::at::byte_at;
use text::{same, starts_alphanumeric, starts_with_letter};

// The number of `PathExp` among the expressions.
const PATH_EXP: usize = 5;

// The commands of the expressions that are asked about.
const PAREN_EXP: u8 = 0x48;

const SEQ_EXP: u8 = 0x4C;

const LET_EXP: u8 = 0x4D;

const HANDLE_EXP: u8 = 0x53;

const IF_EXP: u8 = 0x55;

const WHILE_EXP: u8 = 0x56;

const CASE_EXP: u8 = 0x57;

// ---- a token's text
// Each of the four is one test of the text.
pub fn is_bang(page: &Page, k: usize) -> bool
    ensures { result ≡ passes (page_of page) is_bang k }
{
    same(page.text_of(k), b"!")
}

pub fn is_pipe(page: &Page, k: usize) -> bool
    ensures { result ≡ passes (page_of page) is_pipe k }
{
    same(page.text_of(k), b"|>")
}

pub fn alphabetic(page: &Page, k: usize) -> bool
    ensures { result ≡ passes (page_of page) is_alphabetic k }
{
    starts_with_letter(page.text_of(k))
}

pub fn alphanumeric(page: &Page, k: usize) -> bool
    ensures { result ≡ passes (page_of page) is_alphanumeric k }
{
    starts_alphanumeric(page.text_of(k))
}

// ---- the form at an offset
pub fn is_if_exp(page: &Page, at: usize) -> bool
    ensures { result ≡ sees (page_of page) is_if_exp at }
{
    byte_at(page.rec, at) == IF_EXP
}

// The expressions whose body stands on a new line.
fn on_new_line(command: u8) -> bool
    ensures { result ≡ on_new_line command }
{
    matches!(
        command,
        SEQ_EXP | LET_EXP | HANDLE_EXP | IF_EXP | WHILE_EXP | CASE_EXP
    )
}

// `body_exp_needs_newline`, which looks through `ParenExp`.
pub fn body_exp_needs_newline(page: &Page, at: usize) -> bool
    ensures { result ≡ sees (page_of page) body_exp_needs_newline at }
{
    for i in at..page.rec.len() {
        let command = page.rec[i];
        if command != PAREN_EXP {
            return on_new_line(command);
        }
    }
    false
}

// ---- what `AppExp` sees of its expressions
// What is seen of the expression of a form's number, whose fields stand at the offset: the name of a `PathExp`.
fn head_of(page: &Page, number: usize, fields: usize) -> Result<Option<Name>, Stop>
    ensures { result ≡ head_of (rec_of page) number fields }
{
    if number != PATH_EXP {
        return Ok(None);
    }
    Ok(Some(op_path_name(page, fields)?))
}

// What is seen of both; the second expression stands at `arg`. It is there before names are looked for.
fn heads_from(
    page: &Page,
    number: usize,
    fields: usize,
    arg: usize,
) -> Result<(Option<Name>, Option<Name>), Stop>
    ensures { result ≡ heads_from (rec_of page) number fields arg }
{
    let (other, behind) = form(page, arg, Family::Exp)?;
    let func = head_of(page, number, fields)?;
    let arg = head_of(page, other, behind)?;
    Ok((func, arg))
}

// What `AppExp` sees of `func`, at the offset, and of `arg`, where `func` ends.
pub fn heads_behind(
    page: &Page,
    func: usize,
    arg: usize,
) -> Result<(Option<Name>, Option<Name>), Stop>
    ensures { result ≡ heads_behind (rec_of page) func arg }
{
    let (number, fields) = form(page, func, Family::Exp)?;
    heads_from(page, number, fields, arg)
}

// The same where `func` was not walked to its end: the end is looked for.
fn heads(page: &Page, func: usize) -> Result<(Option<Name>, Option<Name>), Stop>
    ensures { result ≡ heads_at (rec_of page) (count_of page) func }
{
    let (number, fields) = form(page, func, Family::Exp)?;
    match exp_end(page.rec, page.count(), func) {
        Ok(arg) => heads_from(page, number, fields, arg),
        Err(why) => Err(Stop::Absent(why.place())),
    }
}

// The answer of `AppExp` whose `func` gave one: 000 asks for both expressions and their names before it walks.
pub fn asked_first(page: &Page, func: usize, answer: Status) -> Status
    ensures { result ≡ asked_first (rec_of page) (count_of page) func answer }
{
    match heads(page, func) {
        Ok(_) => answer,
        Err(why) => Err(why),
    }
}
