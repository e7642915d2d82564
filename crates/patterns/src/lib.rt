// `get_pat` of 000: the walk over patterns. A function for each arm, over configurations one form deeper.
#![tactic(auto)]

ghost use Rattle.layout.specs.Promises.Lent.{plainly};
ghost use Rattle.layout.specs.Layout.{group as group·};
ghost use Rattle.layout.specs.Walk.{walks};
ghost use Rattle.layout.specs.Pat.{con_arg_there, con_arg, LabAndPatPatRow, as_tail_there, as_tail, LabPatRow};
ghost use Rattle.layout.specs.Pat.{pat_row_inner, pat_row, pat_rows, pat_args, pat as pat·};
ghost use Rattle.reader.specs.Forms.{ConPat, RecordPat, ParenPat, TuplePat, ListPat, VectorPat, InfixPat, TypedPat, AsPat, OrPat};

use layout::fields::{absent, choice, form, group};
use layout::helpers::{op_path, text_of};
use layout::items::sep;
use layout::{Cfg, Ink, Page, Status, Stop};
use reader::commands::Family;
use types::{get_ty, ty_annotation};

// The argument of a constructor that is there.
#[cycle(patterns)]
fn con_arg_there(page: &Page, out: &mut [u8], ink: &mut Ink, at: usize, cfg: Cfg) -> Status
    ensures { plainly (con_arg_there (walks cfg.nesting)) page out ink at result }
{
    ink.put(out, b" ");
    get_pat(page, out, ink, at, cfg)
}

// The argument of a constructor, where there is one.
#[cycle(patterns)]
fn con_arg(page: &Page, out: &mut [u8], ink: &mut Ink, at: usize, cfg: Cfg) -> Status
    ensures { plainly (con_arg (walks cfg.nesting)) page out ink at result }
{
    if let Some(s) = absent(page, at) {
        return Ok(s);
    }
    con_arg_there(page, out, ink, at, cfg)
}

// `ConPat`.
#[cycle(patterns)]
fn con_pat(page: &Page, out: &mut [u8], ink: &mut Ink, at: usize, cfg: Cfg) -> Status
    ensures { plainly (pat· (walks cfg.nesting) ConPat) page out ink at result }
{
    let s1 = op_path(page, out, ink, at)?;
    con_arg(page, out, ink, s1, cfg)
}

// `LabAndPatPatRow`.
#[cycle(patterns)]
fn lab_and_pat(page: &Page, out: &mut [u8], ink: &mut Ink, at: usize, cfg: Cfg) -> Status
    ensures { plainly (LabAndPatPatRow (walks cfg.nesting)) page out ink at result }
{
    let s1 = text_of(page, out, ink, at)?;
    ink.put(out, b" = ");
    get_pat(page, out, ink, s1, cfg)
}

// A tail that is there.
#[cycle(patterns)]
fn as_tail_there(page: &Page, out: &mut [u8], ink: &mut Ink, at: usize, cfg: Cfg) -> Status
    ensures { plainly (as_tail_there (walks cfg.nesting)) page out ink at result }
{
    let s1 = group(page, at)?;
    ink.put(out, b" as ");
    get_pat(page, out, ink, s1, cfg)
}

// `as` and a pattern, where there are any.
#[cycle(patterns)]
fn as_tail(page: &Page, out: &mut [u8], ink: &mut Ink, at: usize, cfg: Cfg) -> Status
    ensures { plainly (as_tail (walks cfg.nesting)) page out ink at result }
{
    if let Some(s) = absent(page, at) {
        return Ok(s);
    }
    as_tail_there(page, out, ink, at, cfg)
}

// `LabPatRow`.
#[cycle(patterns)]
fn lab_pat(page: &Page, out: &mut [u8], ink: &mut Ink, at: usize, cfg: Cfg) -> Status
    ensures { plainly (LabPatRow (walks cfg.nesting)) page out ink at result }
{
    let s1 = text_of(page, out, ink, at)?;
    let s2 = ty_annotation(page, out, ink, s1, cfg)?;
    as_tail(page, out, ink, s2, cfg)
}

// What a row holds, by its number.
#[cycle(patterns)]
fn row_inner(
    page: &Page,
    out: &mut [u8],
    ink: &mut Ink,
    at: usize,
    cfg: Cfg,
    which: usize,
) -> Status
    ensures { plainly (pat_row_inner (walks cfg.nesting) which) page out ink at result }
{
    match which {
        0 => {
            ink.put(out, b"...");
            Ok(at)
        }
        1 => lab_and_pat(page, out, ink, at, cfg),
        2 => lab_pat(page, out, ink, at, cfg),
        _ => Err(Stop::Absent(at)),
    }
}

// A row of a record pattern.
#[cycle(patterns)]
fn row(page: &Page, out: &mut [u8], ink: &mut Ink, at: usize, cfg: Cfg) -> Status
    ensures { plainly (pat_row (walks cfg.nesting)) page out ink at result }
{
    let s1 = group(page, at)?;
    let (k, s2) = choice(page, s1)?;
    row_inner(page, out, ink, s2, cfg, k)
}

// The rows of a record pattern.
#[cycle(patterns)]
fn rows(page: &Page, out: &mut [u8], ink: &mut Ink, at: usize, cfg: Cfg) -> Status
    ensures { plainly (pat_rows (walks cfg.nesting)) page out ink at result }
{
    let item = |out: &mut [u8], ink: &mut Ink, at: usize|
        ensures { plainly (pat_row (walks cfg.nesting)) page out ink at result }
    { row(page, out, ink, at, cfg) };
    sep(page, out, ink, at, b", ", item)
}

// `RecordPat`.
#[cycle(patterns)]
fn record_pat(page: &Page, out: &mut [u8], ink: &mut Ink, at: usize, cfg: Cfg) -> Status
    ensures { plainly (pat· (walks cfg.nesting) RecordPat) page out ink at result }
{
    ink.put(out, b"{ ");
    let s1 = rows(page, out, ink, at, cfg)?;
    ink.put(out, b" }");
    Ok(s1)
}

// `ParenPat`.
#[cycle(patterns)]
fn paren_pat(page: &Page, out: &mut [u8], ink: &mut Ink, at: usize, cfg: Cfg) -> Status
    ensures { plainly (pat· (walks cfg.nesting) ParenPat) page out ink at result }
{
    ink.put(out, b"(");
    let s1 = get_pat(page, out, ink, at, cfg)?;
    ink.put(out, b")");
    Ok(s1)
}

// Patterns with a comma between.
#[cycle(patterns)]
fn pat_args(page: &Page, out: &mut [u8], ink: &mut Ink, at: usize, cfg: Cfg) -> Status
    ensures { plainly (pat_args (walks cfg.nesting)) page out ink at result }
{
    let item = |out: &mut [u8], ink: &mut Ink, at: usize|
        ensures { plainly (group· (walks cfg.nesting).get_pat) page out ink at result }
    {
        let s = group(page, at)?;
        get_pat(page, out, ink, s, cfg)
    };
    sep(page, out, ink, at, b", ", item)
}

// `TuplePat`.
#[cycle(patterns)]
fn tuple_pat(page: &Page, out: &mut [u8], ink: &mut Ink, at: usize, cfg: Cfg) -> Status
    ensures { plainly (pat· (walks cfg.nesting) TuplePat) page out ink at result }
{
    ink.put(out, b"(");
    let s1 = pat_args(page, out, ink, at, cfg)?;
    ink.put(out, b")");
    Ok(s1)
}

// `ListPat`.
#[cycle(patterns)]
fn list_pat(page: &Page, out: &mut [u8], ink: &mut Ink, at: usize, cfg: Cfg) -> Status
    ensures { plainly (pat· (walks cfg.nesting) ListPat) page out ink at result }
{
    ink.put(out, b"[");
    let s1 = pat_args(page, out, ink, at, cfg)?;
    ink.put(out, b"]");
    Ok(s1)
}

// The patterns of a vector.
#[cycle(patterns)]
fn vector_args(page: &Page, out: &mut [u8], ink: &mut Ink, at: usize, cfg: Cfg) -> Status
    ensures { plainly (group· (pat_args (walks cfg.nesting))) page out ink at result }
{
    let s1 = group(page, at)?;
    pat_args(page, out, ink, s1, cfg)
}

// `VectorPat`.
#[cycle(patterns)]
fn vector_pat(page: &Page, out: &mut [u8], ink: &mut Ink, at: usize, cfg: Cfg) -> Status
    ensures { plainly (pat· (walks cfg.nesting) VectorPat) page out ink at result }
{
    ink.put(out, b"#[");
    let s1 = vector_args(page, out, ink, at, cfg)?;
    ink.put(out, b"]");
    Ok(s1)
}

// `InfixPat`.
#[cycle(patterns)]
fn infix_pat(page: &Page, out: &mut [u8], ink: &mut Ink, at: usize, cfg: Cfg) -> Status
    ensures { plainly (pat· (walks cfg.nesting) InfixPat) page out ink at result }
{
    let s1 = get_pat(page, out, ink, at, cfg)?;
    ink.put(out, b" ");
    let s2 = text_of(page, out, ink, s1)?;
    ink.put(out, b" ");
    get_pat(page, out, ink, s2, cfg)
}

// `TypedPat`.
#[cycle(patterns)]
fn typed_pat(page: &Page, out: &mut [u8], ink: &mut Ink, at: usize, cfg: Cfg) -> Status
    ensures { plainly (pat· (walks cfg.nesting) TypedPat) page out ink at result }
{
    let s1 = get_pat(page, out, ink, at, cfg)?;
    ink.put(out, b" : ");
    get_ty(page, out, ink, s1, cfg)
}

// `AsPat`.
#[cycle(patterns)]
fn as_pat(page: &Page, out: &mut [u8], ink: &mut Ink, at: usize, cfg: Cfg) -> Status
    ensures { plainly (pat· (walks cfg.nesting) AsPat) page out ink at result }
{
    let s1 = get_pat(page, out, ink, at, cfg)?;
    ink.put(out, b" as ");
    let s2 = group(page, s1)?;
    get_pat(page, out, ink, s2, cfg)
}

// `OrPat`.
#[cycle(patterns)]
fn or_pat(page: &Page, out: &mut [u8], ink: &mut Ink, at: usize, cfg: Cfg) -> Status
    ensures { plainly (pat· (walks cfg.nesting) OrPat) page out ink at result }
{
    let s1 = get_pat(page, out, ink, at, cfg)?;
    ink.put(out, b" | ");
    get_pat(page, out, ink, s1, cfg)
}

// A pattern.
#[cycle(patterns)]
pub fn get_pat(page: &Page, out: &mut [u8], ink: &mut Ink, at: usize, cfg: Cfg) -> Status
    ensures { plainly (walks cfg.nesting).get_pat page out ink at result }
{
    if cfg.nesting == 0 {
        return Err(Stop::Absent(at));
    }
    let (k, s) = form(page, at, Family::Pat)?;
    let sub = Cfg {
        nesting: cfg.nesting - 1,
        ..cfg
    };
    match k {
        0 => {
            ink.put(out, b"_");
            Ok(s)
        }
        1 => text_of(page, out, ink, s),
        2 => con_pat(page, out, ink, s, sub),
        3 => record_pat(page, out, ink, s, sub),
        4 => paren_pat(page, out, ink, s, sub),
        5 => tuple_pat(page, out, ink, s, sub),
        6 => list_pat(page, out, ink, s, sub),
        7 => vector_pat(page, out, ink, s, sub),
        8 => infix_pat(page, out, ink, s, sub),
        9 => typed_pat(page, out, ink, s, sub),
        10 => as_pat(page, out, ink, s, sub),
        11 => or_pat(page, out, ink, s, sub),
        _ => Err(Stop::Absent(s)),
    }
}
