// `get_ty` of 000: the walk over types. A function for each arm, over configurations one form deeper.
#![tactic(auto)]

ghost use Rattle.layout.specs.Promises.Lent.{plainly};
ghost use Rattle.layout.specs.Layout.{group as group·};
ghost use Rattle.layout.specs.Walk.{walks};
ghost use Rattle.layout.specs.Ty.{ty_row, ty_rows, ty_seq, ty_seq_there, ty_args, star_ty, star_tys, ty_annotation_there, ty_annotation, ty as ty·};
ghost use Rattle.reader.specs.Forms.{RecordTy, ConTy, OneArgConTy, TupleTy, FnTy, ParenTy};

use layout::fields::{absent, form, group, onwards};
use layout::helpers::{path, text_of};
use layout::items::{for_each, sep};
use layout::{Cfg, Ink, Page, Status, Stop};
use reader::commands::Family;

// A row of a record type.
#[cycle(types)]
fn ty_row(page: &Page, out: &mut [u8], ink: &mut Ink, at: usize, cfg: Cfg) -> Status
    ensures { plainly (ty_row (walks cfg.nesting)) page out ink at result }
{
    let s1 = group(page, at)?;
    let s2 = text_of(page, out, ink, s1)?;
    ink.put(out, b" : ");
    get_ty(page, out, ink, s2, cfg)
}

// The rows of a record type.
#[cycle(types)]
fn ty_rows(page: &Page, out: &mut [u8], ink: &mut Ink, at: usize, cfg: Cfg) -> Status
    ensures { plainly (ty_rows (walks cfg.nesting)) page out ink at result }
{
    let item = |out: &mut [u8], ink: &mut Ink, at: usize|
        ensures { plainly (ty_row (walks cfg.nesting)) page out ink at result }
    { ty_row(page, out, ink, at, cfg) };
    sep(page, out, ink, at, b", ", item)
}

// `RecordTy`.
#[cycle(types)]
fn record_ty(page: &Page, out: &mut [u8], ink: &mut Ink, at: usize, cfg: Cfg) -> Status
    ensures { plainly (ty· (walks cfg.nesting) RecordTy) page out ink at result }
{
    ink.put(out, b"{ ");
    let s1 = ty_rows(page, out, ink, at, cfg)?;
    ink.put(out, b" }");
    Ok(s1)
}

// The arguments of a type constructor.
#[cycle(types)]
fn ty_args(page: &Page, out: &mut [u8], ink: &mut Ink, at: usize, cfg: Cfg) -> Status
    ensures { plainly (ty_args (walks cfg.nesting)) page out ink at result }
{
    let item = |out: &mut [u8], ink: &mut Ink, at: usize|
        ensures { plainly (group· (walks cfg.nesting).get_ty) page out ink at result }
    {
        let s = group(page, at)?;
        get_ty(page, out, ink, s, cfg)
    };
    sep(page, out, ink, at, b", ", item)
}

// The arguments of a type constructor in parentheses, where there are any.
#[cycle(types)]
fn ty_seq(page: &Page, out: &mut [u8], ink: &mut Ink, at: usize, cfg: Cfg) -> Status
    ensures { plainly (ty_seq (walks cfg.nesting)) page out ink at result }
{
    if let Some(s) = absent(page, at) {
        return Ok(s);
    }
    ty_seq_there(page, out, ink, at, cfg)
}

// The arguments that are there.
#[cycle(types)]
fn ty_seq_there(page: &Page, out: &mut [u8], ink: &mut Ink, at: usize, cfg: Cfg) -> Status
    ensures { plainly (ty_seq_there (walks cfg.nesting)) page out ink at result }
{
    let s1 = group(page, at)?;
    ink.put(out, b"(");
    let s2 = ty_args(page, out, ink, s1, cfg)?;
    ink.put(out, b") ");
    Ok(s2)
}

// `ConTy`.
#[cycle(types)]
fn con_ty(page: &Page, out: &mut [u8], ink: &mut Ink, at: usize, cfg: Cfg) -> Status
    ensures { plainly (ty· (walks cfg.nesting) ConTy) page out ink at result }
{
    let s1 = ty_seq(page, out, ink, at, cfg)?;
    path(page, out, ink, s1)
}

// `OneArgConTy`.
#[cycle(types)]
fn one_arg_con_ty(page: &Page, out: &mut [u8], ink: &mut Ink, at: usize, cfg: Cfg) -> Status
    ensures { plainly (ty· (walks cfg.nesting) OneArgConTy) page out ink at result }
{
    let s1 = get_ty(page, out, ink, at, cfg)?;
    ink.put(out, b" ");
    path(page, out, ink, s1)
}

// A further part of a tuple type.
#[cycle(types)]
fn star_ty(page: &Page, out: &mut [u8], ink: &mut Ink, at: usize, cfg: Cfg) -> Status
    ensures { plainly (star_ty (walks cfg.nesting)) page out ink at result }
{
    let s1 = group(page, at)?;
    ink.put(out, b" * ");
    get_ty(page, out, ink, s1, cfg)
}

// The further parts of a tuple type.
#[cycle(types)]
fn star_tys(page: &Page, out: &mut [u8], ink: &mut Ink, at: usize, cfg: Cfg) -> Status
    ensures { plainly (star_tys (walks cfg.nesting)) page out ink at result }
{
    let item = |out: &mut [u8], ink: &mut Ink, at: usize|
        ensures { plainly (star_ty (walks cfg.nesting)) page out ink at result }
    { star_ty(page, out, ink, at, cfg) };
    for_each(page, out, ink, at, item)
}

// `TupleTy`: the answer of the first part is dropped.
#[cycle(types)]
fn tuple_ty(page: &Page, out: &mut [u8], ink: &mut Ink, at: usize, cfg: Cfg) -> Status
    ensures { plainly (ty· (walks cfg.nesting) TupleTy) page out ink at result }
{
    let first = get_ty(page, out, ink, at, cfg);
    let s1 = onwards(page, cfg.nesting as usize, at, first)?;
    star_tys(page, out, ink, s1, cfg)
}

// `FnTy`.
#[cycle(types)]
fn fn_ty(page: &Page, out: &mut [u8], ink: &mut Ink, at: usize, cfg: Cfg) -> Status
    ensures { plainly (ty· (walks cfg.nesting) FnTy) page out ink at result }
{
    let s1 = get_ty(page, out, ink, at, cfg)?;
    ink.put(out, b" -> ");
    get_ty(page, out, ink, s1, cfg)
}

// `ParenTy`.
#[cycle(types)]
fn paren_ty(page: &Page, out: &mut [u8], ink: &mut Ink, at: usize, cfg: Cfg) -> Status
    ensures { plainly (ty· (walks cfg.nesting) ParenTy) page out ink at result }
{
    ink.put(out, b"(");
    let s1 = get_ty(page, out, ink, at, cfg)?;
    ink.put(out, b")");
    Ok(s1)
}

// A type.
#[cycle(types)]
pub fn get_ty(page: &Page, out: &mut [u8], ink: &mut Ink, at: usize, cfg: Cfg) -> Status
    ensures { plainly (walks cfg.nesting).get_ty page out ink at result }
{
    if cfg.nesting == 0 {
        return Err(Stop::Absent(at));
    }
    let (k, s) = form(page, at, Family::Ty)?;
    let sub = Cfg {
        nesting: cfg.nesting - 1,
        ..cfg
    };
    match k {
        0 => {
            ink.put(out, b"...");
            Ok(s)
        }
        1 => {
            ink.put(out, b"_");
            Ok(s)
        }
        2 => text_of(page, out, ink, s),
        3 => record_ty(page, out, ink, s, sub),
        4 => con_ty(page, out, ink, s, sub),
        5 => one_arg_con_ty(page, out, ink, s, sub),
        6 => tuple_ty(page, out, ink, s, sub),
        7 => fn_ty(page, out, ink, s, sub),
        8 => paren_ty(page, out, ink, s, sub),
        _ => Err(Stop::Absent(s)),
    }
}

// An annotation that is there.
fn ty_annotation_there(page: &Page, out: &mut [u8], ink: &mut Ink, at: usize, cfg: Cfg) -> Status
    ensures { plainly (ty_annotation_there (walks cfg.nesting)) page out ink at result }
{
    let s1 = group(page, at)?;
    ink.put(out, b" : ");
    get_ty(page, out, ink, s1, cfg)
}

// A colon and a type, where there are any.
#[tactic(auto, using(layout::proofs::Steps::maybe_past, layout::proofs::Steps::maybe_there), unfolding(layout::specs::Ty::ty_annotation))]
pub fn ty_annotation(page: &Page, out: &mut [u8], ink: &mut Ink, at: usize, cfg: Cfg) -> Status
    ensures { plainly (ty_annotation (walks cfg.nesting)) page out ink at result }
{
    if let Some(s) = absent(page, at) {
        return Ok(s);
    }
    ty_annotation_there(page, out, ink, at, cfg)
}
