// The first name of a path, looked at from the path's offset.
#![tactic(auto, unfolding(crate::specs::Promises::Looks::named, crate::specs::Promises::State::read_of, crate::specs::Promises::State::group_of, crate::specs::Promises::State::gone_of, crate::specs::Meaning::dot_name, crate::specs::Meaning::list_name, crate::specs::Meaning::path_name, crate::specs::Meaning::op_path_name, reader::specs::Commands::token_at, reader::specs::Commands::command))]

ghost use Rattle.std.specs.Prelude.{◌≡◌};
ghost use Rattle.layout.specs.Promises.Lent.{rec_of};
ghost use Rattle.layout.specs.Promises.Looks.{name_of, dot_name_of, list_name_of, op_name_of};

use crate::fields::{absent, group, list};
use crate::{Page, Stop};
use reader::commands::token_at;

// The first name's token, and how many names a path has.
#[derive(Clone, Copy, Debug, PartialEq, Eq)]
pub struct Name {
    pub token: usize,
    pub names: usize,
}

// The name in the first of so many groups.
fn dot_name(page: &Page, names: usize, at: usize) -> Result<Name, Stop>
    ensures { result ≡ dot_name_of (rec_of page) names at }
{
    let next = group(page, at)?;
    match token_at(page.rec, next) {
        Some(token) => Ok(Name { token, names }),
        None => Err(Stop::Absent(next)),
    }
}

// A path without names counts as absent at its list.
fn list_name(page: &Page, at: usize) -> Result<Name, Stop>
    ensures { result ≡ list_name_of (rec_of page) at }
{
    let (names, next) = list(page, at)?;
    if names == 0 {
        return Err(Stop::Absent(at));
    }
    dot_name(page, names, next)
}

pub fn path_name(page: &Page, at: usize) -> Result<Name, Stop>
    ensures { result ≡ name_of (rec_of page) at }
{
    let next = group(page, at)?;
    list_name(page, next)
}

// The name of the `PathExp` whose fields stand at the offset: `op_kw`, which plays no part, and the path.
pub fn op_path_name(page: &Page, at: usize) -> Result<Name, Stop>
    ensures { result ≡ op_name_of (rec_of page) at }
{
    let path = match token_at(page.rec, at) {
        Some(_) => at + 3,
        None => absent(page, at).ok_or(Stop::Absent(at))?,
    };
    path_name(page, path)
}
