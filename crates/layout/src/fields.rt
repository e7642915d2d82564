// The fields of a record, each read at the cursor.
#![tactic(auto, unfolding(crate::specs::Promises::State::read_of, crate::specs::Promises::State::group_of, crate::specs::Promises::State::gone_of, crate::specs::Promises::State::present_of, crate::specs::Promises::State::declared_of, crate::specs::Promises::State::onwards_of, crate::specs::Promises::State::behind, reader::specs::Check::token_fits, reader::specs::Check::form_fits, reader::specs::Commands::command, reader::specs::Commands::absent_at, reader::specs::Commands::token_at, reader::specs::Commands::list_at, reader::specs::Commands::group_at, reader::specs::Commands::choice_at, reader::specs::Commands::form_at, reader::specs::Commands::declaration_at, reader::specs::Promises::Commands::declaration_in))]

ghost use Rattle.std.specs.Prelude.{◌≡◌};
ghost use Rattle.reader.specs.Commands.{absent_at, list_at, choice_at, form_at, form_width};
ghost use Rattle.reader.specs.Check.{token_fits};
ghost use Rattle.reader.specs.Promises.Commands.{family_of};
ghost use Rattle.layout.specs.Promises.Lent.{rec_of, count_of};
ghost use Rattle.layout.specs.Promises.State.{read_of, group_of, gone_of, present_of, declared_of, onwards_of};

use crate::{Page, Status, Stop};
use reader::commands::{self, Declaration, Family};
use reader::tree::{first_fits, ty_end_within};

// A token, whose number is below the count, with the cursor behind it.
pub fn token_no(page: &Page, at: usize) -> Result<(usize, usize), Stop>
    ensures { result ≡ read_of 3 at (token_fits (rec_of page) (count_of page) at) }
{
    match commands::token_at(page.rec, at) {
        Some(k) if k < page.count() => Ok((k, at + 3)),
        _ => Err(Stop::Absent(at)),
    }
}

// How many items a list has, with the cursor behind its command.
// It, the next two and the one before are a `match` of two arms; what they share is `Result`.
pub fn list(page: &Page, at: usize) -> Result<(usize, usize), Stop>
    ensures { result ≡ read_of 3 at (list_at (rec_of page) at) }
{
    match commands::list_at(page.rec, at) {
        Some(n) => Ok((n, at + 3)),
        None => Err(Stop::Absent(at)),
    }
}

// Which alternative a choice takes, with the cursor behind its command.
pub fn choice(page: &Page, at: usize) -> Result<(usize, usize), Stop>
    ensures { result ≡ read_of 2 at (choice_at (rec_of page) at) }
{
    match commands::choice_at(page.rec, at) {
        Some(which) => Ok((which, at + 2)),
        None => Err(Stop::Absent(at)),
    }
}

// The number of a form of the family, with the cursor behind its command.
pub fn form(page: &Page, at: usize, family: Family) -> Result<(usize, usize), Stop>
    ensures { result ≡ read_of (form_width (family_of family)) at (form_at (rec_of page) (family_of family) at) }
{
    match commands::form_at(page.rec, family, at) {
        Some(n) => Ok((n, at + commands::form_width(family))),
        None => Err(Stop::Absent(at)),
    }
}

// The cursor behind the command of a group.
pub fn group(page: &Page, at: usize) -> Status
    ensures { result ≡ group_of (rec_of page) at }
{
    if commands::group_at(page.rec, at) {
        Ok(at + 1)
    } else {
        Err(Stop::Absent(at))
    }
}

// Where the field is absent, the cursor behind it.
pub fn absent(page: &Page, at: usize) -> Option<usize>
    ensures { result ≡ gone_of (rec_of page) at }
{
    if commands::absent_at(page.rec, at) {
        Some(at + 1)
    } else {
        None
    }
}

// Whether the token is there that may be absent, with the cursor behind it.
pub fn present(page: &Page, at: usize) -> Result<(bool, usize), Stop>
    ensures { result ≡ present_of (rec_of page) (count_of page) at }
{
    if let Some(next) = absent(page, at) {
        return Ok((false, next));
    }
    let (_, next) = token_no(page, at)?;
    Ok((true, next))
}

// The command of a declaration. Its first token's number is below the count, or it has none.
pub fn declared(page: &Page, at: usize) -> Result<Declaration, Stop>
    ensures { result ≡ declared_of (rec_of page) (count_of page) at }
{
    match commands::declaration_at(page.rec, at) {
        Some(found) if first_fits(page.rec, page.count(), at) => Ok(found),
        _ => Err(Stop::Absent(at)),
    }
}

// Where the walk goes on after the type at an offset, whose answer is dropped: behind the whole type.
pub fn onwards(page: &Page, nesting: usize, at: usize, answer: Status) -> Status
    ensures { result ≡ onwards_of (rec_of page) (count_of page) nesting at answer }
{
    if answer.is_ok() || commands::form_at(page.rec, Family::Ty, at).is_none() {
        return answer;
    }
    match ty_end_within(page.rec, page.count(), nesting, at) {
        Ok(next) => Ok(next),
        Err(why) => Err(Stop::Absent(why.place())),
    }
}
