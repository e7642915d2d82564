// The items of the list at the cursor, one behind another (`for`, `sep`, `sep_with_lines` of 000).
ghost use Rattle.std.specs.Prelude.{◌≡◌};
ghost use Rattle.layout.specs.Layout.{skip};
ghost use Rattle.layout.specs.Promises.Lent.{Items, Joined, ForEach, Separated, writes, puts};

use crate::fields::list;
use crate::{Ink, Page, Status};

// So many items, the first at the cursor, with a joint before each but the first.
pub fn items<J, F>(out: &mut [u8], ink: &mut Ink, n: usize, at: usize, joint: J, item: F) -> Status
where
    J: Fn(&mut [u8], &mut Ink),
    F: Fn(&mut [u8], &mut Ink, usize) -> Status,
    requires joint { J.IsAlwaysCallable joint }
    requires item { F.IsAlwaysCallable item }
    ensures { Items (J.post joint) (F.post item) out ink n at result }
{
    let mut s = at;
    for i in 0..n {
        if 0 < i {
            joint(out, ink);
        }
        s = item(out, ink, s)?;
    }
    Ok(s)
}

// The items, with a joint before each but the first.
pub fn joined<J, F>(
    page: &Page,
    out: &mut [u8],
    ink: &mut Ink,
    at: usize,
    joint: J,
    item: F,
) -> Status
where
    J: Fn(&mut [u8], &mut Ink),
    F: Fn(&mut [u8], &mut Ink, usize) -> Status,
    requires joint { J.IsAlwaysCallable joint }
    requires item { F.IsAlwaysCallable item }
    ensures { Joined (J.post joint) (F.post item) page out ink at result }
{
    let (n, s) = list(page, at)?;
    items(out, ink, n, s, joint, item)
}

// The items.
pub fn for_each<F>(page: &Page, out: &mut [u8], ink: &mut Ink, at: usize, item: F) -> Status
where
    F: Fn(&mut [u8], &mut Ink, usize) -> Status,
    requires { F.IsAlwaysCallable item }
    ensures { ForEach (F.post item) page out ink at result }
{
    let nothing = |out: &mut [u8], ink: &mut Ink|
        ensures { writes skip out ink }
    {};
    joined(page, out, ink, at, nothing, item)
}

// The items, with a fixed word before each but the first.
pub fn sep<F>(
    page: &Page,
    out: &mut [u8],
    ink: &mut Ink,
    at: usize,
    separator: &[u8],
    item: F,
) -> Status
where
    F: Fn(&mut [u8], &mut Ink, usize) -> Status,
    requires { F.IsAlwaysCallable item }
    ensures { Separated (F.post item) page out ink at separator result }
{
    let between = |out: &mut [u8], ink: &mut Ink|
        ensures { puts separator out ink }
    { ink.put(out, separator) };
    joined(page, out, ink, at, between, item)
}
