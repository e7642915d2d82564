// The walk's parts that hold no expression, structure or signature: declarations of types and of precedence, heads of
// functions' cases, what stands between the expressions of an application.
#![tactic(auto)]

ghost use Rattle.std.specs.Prelude.{◌≡◌, ◌+◌, ◌≤◌};
ghost use Rattle.layout.specs.Layout.{word, text as text·, group as group·, choice as choice·, ◌⨾◌};
ghost use Rattle.layout.specs.Helpers.{indent as indent·, path as path·, new_line as new_line·, when};
ghost use Rattle.layout.specs.Meaning.{func_is_bang as func_is_bang·, arg_is_symbolic as arg_is_symbolic·};
ghost use Rattle.layout.specs.Promises.Lent.{page_of, plainly, writes, writes_operator, by_word};
ghost use Rattle.layout.specs.Promises.Looks.{seen_as};
ghost use Rattle.layout.specs.Promises.State.{cfg_of};
ghost use Rattle.layout.specs.Walk.{walks};
ghost use Rattle.layout.specs.Exp.{item_semi, app_space, pipe, exp as exp·};
ghost use Rattle.layout.specs.GetDec.{sharing_tail, sharing_tails};
ghost use Rattle.layout.specs.DecOne.{ty_bind, ty_binds, with_type, con_bind, con_binds, dat_bind, dat_binds};
ghost use Rattle.layout.specs.DecOne.{PrefixFunBindCaseHead, infix_head, InfixFunBindCaseHead, case_head, case_pats, ex_bind_of};
ghost use Rattle.layout.specs.DecOne.{int_lit, names_space, dec_one as dec_one·};
ghost use Rattle.reader.specs.Forms.{SelectorExp, TyDec, DatDec, DatCopyDec, OpenDec, NonfixDec};

use layout::fields::{absent, choice, group, list, present};
use layout::helpers::{
    indent, indent_deeper, line, new_line, path, sep_with_lines, text_of, ty_var_seq, word_if,
};
use layout::items::{for_each, items, sep};
use layout::looks::{alphabetic, is_bang, is_pipe};
use layout::names::Name;
use layout::{Cfg, Ink, Page, Status, Stop};
use patterns::get_pat;
use types::get_ty;

// The closing parenthesis of `AppStrExp`, indented where an argument was a Dec.
pub fn app_end(out: &mut [u8], ink: &mut Ink, cfg: Cfg, needs: bool)
    ensures { writes (when needs (indent· (cfg_of cfg)) ⨾ word ")") out ink }
{
    if needs {
        indent(out, ink, cfg);
    }
    ink.put(out, b")");
}

// ---- between the expressions of an application
// `func_is_bang`: one name, and it is `!`.
#[tactic(auto, unfolding(layout::specs::Meaning::func_is_bang, layout::specs::Promises::Looks::seen_as))]
pub fn func_is_bang(page: &Page, func: Option<Name>) -> bool
    ensures { result ≡ func_is_bang· (page_of page) (seen_as func) }
{
    match func {
        Some(name) => name.names == 1 && is_bang(page, name.token),
        None => false,
    }
}

// `arg_is_symbolic`: its first name does not start with a letter.
#[tactic(auto, unfolding(layout::specs::Meaning::arg_is_symbolic, layout::specs::Promises::Looks::seen_as))]
pub fn arg_is_symbolic(page: &Page, arg: Option<Name>) -> bool
    ensures { result ≡ arg_is_symbolic· (page_of page) (seen_as arg) }
{
    match arg {
        Some(name) => !alphabetic(page, name.token),
        None => false,
    }
}

// What `AppExp` writes between its expressions.
#[tactic(auto, using(layout::proofs::Steps::sure_when, layout::proofs::Steps::sure_unless, layout::proofs::Steps::sure_word), unfolding(layout::specs::Exp::app_space, text::specs::Bytes::bytes))]
pub fn app_space(out: &mut [u8], ink: &mut Ink, bang: bool, symbolic: bool)
    ensures { writes (app_space bang symbolic) out ink }
{
    if !bang || symbolic {
        ink.put(out, b" ");
    }
}

// The semicolon of an item of a sequence, where it is there and written.
pub fn item_semi(page: &Page, out: &mut [u8], ink: &mut Ink, at: usize, write: bool) -> Status
    ensures { plainly (item_semi write) page out ink at result }
{
    let (there, s) = present(page, at)?;
    if there && write {
        ink.put(out, b";");
    }
    Ok(s)
}

// `SelectorExp`.
pub fn selector_exp(page: &Page, out: &mut [u8], ink: &mut Ink, at: usize, cfg: Cfg) -> Status
    ensures { plainly (exp· (walks cfg.nesting) (cfg_of cfg) SelectorExp) page out ink at result }
{
    ink.put(out, b"#");
    text_of(page, out, ink, at)
}

// What `InfixExp` writes between its expressions.
pub fn infix_operator(page: &Page, out: &mut [u8], ink: &mut Ink, cfg: Cfg, operator: usize)
    requires { cfg.depth + 1 ≤ 1000 }
    ensures { writes_operator (pipe (cfg_of cfg)) (word " ") page out ink operator }
{
    if is_pipe(page, operator) {
        ink.put(out, b"\n");
        indent_deeper(out, ink, cfg);
        ink.put(out, b"|> ");
        return;
    }
    ink.put(out, b" ");
    ink.token(page, out, operator);
    ink.put(out, b" ");
}

// ---- declarations of types
// A binding of `TyDec`.
fn ty_bind(page: &Page, out: &mut [u8], ink: &mut Ink, at: usize, cfg: Cfg) -> Status
    ensures { plainly (ty_bind (walks cfg.nesting)) page out ink at result }
{
    let s1 = group(page, at)?;
    let s2 = ty_var_seq(page, out, ink, s1)?;
    let s3 = text_of(page, out, ink, s2)?;
    if let Some(s4) = absent(page, s3) {
        return Ok(s4);
    }
    let s5 = group(page, s3)?;
    ink.put(out, b" = ");
    get_ty(page, out, ink, s5, cfg)
}

// Bindings of types, a line each.
#[tactic(auto, unfolding(layout::specs::DecOne::ty_binds, text::specs::Bytes::bytes))]
fn ty_binds(page: &Page, out: &mut [u8], ink: &mut Ink, at: usize, cfg: Cfg) -> Status
    ensures { plainly (ty_binds (walks cfg.nesting) (cfg_of cfg)) page out ink at result }
{
    let item = |out: &mut [u8], ink: &mut Ink, at: usize|
        ensures { plainly (ty_bind (walks cfg.nesting)) page out ink at result }
    { ty_bind(page, out, ink, at, cfg) };
    sep_with_lines(page, out, ink, at, cfg, b"and ", item)
}

// `withtype` and its bindings, where there are any.
pub fn with_type(page: &Page, out: &mut [u8], ink: &mut Ink, at: usize, cfg: Cfg) -> Status
    ensures { plainly (with_type (walks cfg.nesting) (cfg_of cfg)) page out ink at result }
{
    if let Some(s0) = absent(page, at) {
        return Ok(s0);
    }
    let s1 = group(page, at)?;
    line(out, ink, cfg);
    ink.put(out, b"withtype ");
    ty_binds(page, out, ink, s1, cfg)
}

// A constructor.
fn con_bind(page: &Page, out: &mut [u8], ink: &mut Ink, at: usize, cfg: Cfg) -> Status
    ensures { plainly (con_bind (walks cfg.nesting)) page out ink at result }
{
    let s1 = group(page, at)?;
    let s2 = text_of(page, out, ink, s1)?;
    if let Some(s3) = absent(page, s2) {
        return Ok(s3);
    }
    let s4 = group(page, s2)?;
    ink.put(out, b" of ");
    get_ty(page, out, ink, s4, cfg)
}

// The constructors of a datatype, of which the list has so many: over one, a line each.
#[tactic(auto, unfolding(text::specs::Bytes::bytes))]
fn con_binds(page: &Page, out: &mut [u8], ink: &mut Ink, at: usize, cfg: Cfg, n: usize) -> Status
    requires { cfg.depth + 1 ≤ 1000 }
    ensures { plainly (con_binds (walks cfg.nesting) (cfg_of cfg) n) page out ink at result }
{
    let bar = |out: &mut [u8], ink: &mut Ink|
        ensures { writes (new_line· (cfg_of cfg) "| ") out ink }
    { new_line(out, ink, cfg, b"| ") };
    let item = |out: &mut [u8], ink: &mut Ink, at: usize|
        ensures { plainly (con_bind (walks cfg.nesting)) page out ink at result }
    { con_bind(page, out, ink, at, cfg) };
    if n <= 1 {
        ink.put(out, b" = ");
        return items(out, ink, n, at, bar, item);
    }
    ink.put(out, b" =\n");
    indent_deeper(out, ink, cfg);
    items(out, ink, n, at, bar, item)
}

// A binding of `DatDec`.
fn dat_bind(page: &Page, out: &mut [u8], ink: &mut Ink, at: usize, cfg: Cfg) -> Status
    requires { cfg.depth + 1 ≤ 1000 }
    ensures { plainly (dat_bind (walks cfg.nesting) (cfg_of cfg)) page out ink at result }
{
    let s1 = group(page, at)?;
    let s2 = ty_var_seq(page, out, ink, s1)?;
    let s3 = text_of(page, out, ink, s2)?;
    let s4 = group(page, s3)?;
    let (n, s5) = list(page, s4)?;
    con_binds(page, out, ink, s5, cfg, n)
}

// Bindings of datatypes, a line each.
#[tactic(auto, unfolding(layout::specs::DecOne::dat_binds, text::specs::Bytes::bytes))]
pub fn dat_binds(page: &Page, out: &mut [u8], ink: &mut Ink, at: usize, cfg: Cfg) -> Status
    requires { cfg.depth + 1 ≤ 1000 }
    ensures { plainly (dat_binds (walks cfg.nesting) (cfg_of cfg)) page out ink at result }
{
    let item = |out: &mut [u8], ink: &mut Ink, at: usize|
        requires { cfg.depth + 1 ≤ 1000 }
        ensures { plainly (dat_bind (walks cfg.nesting) (cfg_of cfg)) page out ink at result }
    { dat_bind(page, out, ink, at, cfg) };
    sep_with_lines(page, out, ink, at, cfg, b"and ", item)
}

// `TyDec`.
pub fn ty_dec(page: &Page, out: &mut [u8], ink: &mut Ink, at: usize, cfg: Cfg) -> Status
    ensures { plainly (dec_one· (walks cfg.nesting) (cfg_of cfg) TyDec) page out ink at result }
{
    let s1 = text_of(page, out, ink, at)?;
    ink.put(out, b" ");
    ty_binds(page, out, ink, s1, cfg)
}

// `DatDec`.
pub fn dat_dec(page: &Page, out: &mut [u8], ink: &mut Ink, at: usize, cfg: Cfg) -> Status
    requires { cfg.depth + 1 ≤ 1000 }
    ensures { plainly (dec_one· (walks cfg.nesting) (cfg_of cfg) DatDec) page out ink at result }
{
    ink.put(out, b"datatype ");
    let s1 = dat_binds(page, out, ink, at, cfg)?;
    with_type(page, out, ink, s1, cfg)
}

// `DatCopyDec`.
pub fn dat_copy_dec(page: &Page, out: &mut [u8], ink: &mut Ink, at: usize, cfg: Cfg) -> Status
    ensures { plainly (dec_one· (walks cfg.nesting) (cfg_of cfg) DatCopyDec) page out ink at result }
{
    ink.put(out, b"datatype ");
    let s1 = text_of(page, out, ink, at)?;
    ink.put(out, b" = datatype ");
    path(page, out, ink, s1)
}

// ---- names
// `OpenDec`.
pub fn open_dec(page: &Page, out: &mut [u8], ink: &mut Ink, at: usize, cfg: Cfg) -> Status
    ensures { plainly (dec_one· (walks cfg.nesting) (cfg_of cfg) OpenDec) page out ink at result }
{
    ink.put(out, b"open ");
    let item = |out: &mut [u8], ink: &mut Ink, at: usize|
        ensures { plainly path· page out ink at result }
    { path(page, out, ink, at) };
    sep(page, out, ink, at, b" ", item)
}

// Names with a space between.
#[tactic(auto, unfolding(layout::specs::DecOne::names_space, text::specs::Bytes::bytes))]
fn names_space(page: &Page, out: &mut [u8], ink: &mut Ink, at: usize, cfg: Cfg) -> Status
    ensures { plainly (names_space (walks cfg.nesting)) page out ink at result }
{
    let item = |out: &mut [u8], ink: &mut Ink, at: usize|
        ensures { plainly text· page out ink at result }
    { text_of(page, out, ink, at) };
    sep(page, out, ink, at, b" ", item)
}

// A precedence and a space, where there is one.
fn int_lit(page: &Page, out: &mut [u8], ink: &mut Ink, at: usize, cfg: Cfg) -> Status
    ensures { plainly (int_lit (walks cfg.nesting)) page out ink at result }
{
    if let Some(s0) = absent(page, at) {
        return Ok(s0);
    }
    let s1 = text_of(page, out, ink, at)?;
    ink.put(out, b" ");
    Ok(s1)
}

// `InfixDec` and `InfixrDec`, by their word.
pub fn infix_dec(
    page: &Page,
    out: &mut [u8],
    ink: &mut Ink,
    at: usize,
    cfg: Cfg,
    fixed: &[u8],
) -> Status
    ensures { by_word fixed (λ u. plainly (word u ⨾ int_lit (walks cfg.nesting) ⨾ names_space (walks cfg.nesting))
        page out ink at result) }
{
    ink.put(out, fixed);
    let s1 = int_lit(page, out, ink, at, cfg)?;
    names_space(page, out, ink, s1, cfg)
}

// `NonfixDec`.
pub fn nonfix_dec(page: &Page, out: &mut [u8], ink: &mut Ink, at: usize, cfg: Cfg) -> Status
    ensures { plainly (dec_one· (walks cfg.nesting) (cfg_of cfg) NonfixDec) page out ink at result }
{
    ink.put(out, b"nonfix ");
    names_space(page, out, ink, at, cfg)
}

// ---- cases of functions
// `PrefixFunBindCaseHead`.
#[tactic(auto, using(layout::proofs::Steps::then_done, layout::proofs::Steps::then_stop), unfolding(layout::specs::DecOne::PrefixFunBindCaseHead, text::specs::Bytes::bytes))]
fn prefix_head(page: &Page, out: &mut [u8], ink: &mut Ink, at: usize, cfg: Cfg) -> Status
    ensures { plainly (PrefixFunBindCaseHead (walks cfg.nesting)) page out ink at result }
{
    let s1 = word_if(page, out, ink, at, b"op ")?;
    text_of(page, out, ink, s1)
}

// A name between two patterns.
fn infix_pats(page: &Page, out: &mut [u8], ink: &mut Ink, at: usize, cfg: Cfg) -> Status
    ensures { plainly (infix_head (walks cfg.nesting)) page out ink at result }
{
    let s1 = get_pat(page, out, ink, at, cfg)?;
    ink.put(out, b" ");
    let s2 = text_of(page, out, ink, s1)?;
    ink.put(out, b" ");
    get_pat(page, out, ink, s2, cfg)
}

// The same in parentheses.
fn infix_in_parens(page: &Page, out: &mut [u8], ink: &mut Ink, at: usize, cfg: Cfg) -> Status
    ensures { plainly (word "(" ⨾ infix_head (walks cfg.nesting) ⨾ word ")") page out ink at result }
{
    ink.put(out, b"(");
    let s1 = infix_pats(page, out, ink, at, cfg)?;
    ink.put(out, b")");
    Ok(s1)
}

// `InfixFunBindCaseHead`.
#[tactic(auto, using(layout::proofs::Steps::present_there, layout::proofs::Steps::present_gone, layout::proofs::Steps::present_not), unfolding(layout::specs::Helpers::in_parens, layout::specs::DecOne::InfixFunBindCaseHead))]
fn infix_head(page: &Page, out: &mut [u8], ink: &mut Ink, at: usize, cfg: Cfg) -> Status
    ensures { plainly (InfixFunBindCaseHead (walks cfg.nesting)) page out ink at result }
{
    let (there, s) = present(page, at)?;
    if there {
        return infix_in_parens(page, out, ink, s, cfg);
    }
    infix_pats(page, out, ink, s, cfg)
}

// The head of a case, by its number.
fn case_head_of(
    page: &Page,
    out: &mut [u8],
    ink: &mut Ink,
    at: usize,
    cfg: Cfg,
    which: usize,
) -> Status
    ensures { plainly (case_head (walks cfg.nesting) which) page out ink at result }
{
    match which {
        0 => prefix_head(page, out, ink, at, cfg),
        1 => infix_head(page, out, ink, at, cfg),
        _ => Err(Stop::Absent(at)),
    }
}

// The head of a case of `FunDec`.
#[tactic(auto, using(layout::proofs::Steps::choice_is, layout::proofs::Steps::choice_not))]
pub fn case_head(page: &Page, out: &mut [u8], ink: &mut Ink, at: usize, cfg: Cfg) -> Status
    ensures { plainly (choice· (case_head (walks cfg.nesting))) page out ink at result }
{
    let (k, s1) = choice(page, at)?;
    case_head_of(page, out, ink, s1, cfg, k)
}

// The patterns of a case of `FunDec`, with a space before each.
#[tactic(auto, unfolding(layout::specs::DecOne::case_pats))]
pub fn case_pats(page: &Page, out: &mut [u8], ink: &mut Ink, at: usize, cfg: Cfg) -> Status
    ensures { plainly (case_pats (walks cfg.nesting)) page out ink at result }
{
    let item = |out: &mut [u8], ink: &mut Ink, at: usize|
        ensures { plainly (word " " ⨾ (walks cfg.nesting).get_pat) page out ink at result }
    {
        ink.put(out, b" ");
        get_pat(page, out, ink, at, cfg)
    };
    for_each(page, out, ink, at, item)
}

// ---- other parts
// `of` and the type of an exception.
pub fn ex_bind_of(page: &Page, out: &mut [u8], ink: &mut Ink, at: usize, cfg: Cfg) -> Status
    ensures { plainly (ex_bind_of (walks cfg.nesting)) page out ink at result }
{
    ink.put(out, b" of ");
    get_ty(page, out, ink, at, cfg)
}

// An item of `sharing_tails`.
fn sharing_tail(page: &Page, out: &mut [u8], ink: &mut Ink, at: usize, cfg: Cfg) -> Status
    ensures { plainly (sharing_tail (walks cfg.nesting) (cfg_of cfg)) page out ink at result }
{
    let s1 = group(page, at)?;
    line(out, ink, cfg);
    ink.put(out, b"sharing type ");
    let item = |out: &mut [u8], ink: &mut Ink, at: usize|
        ensures { plainly (group· path·) page out ink at result }
    {
        let s = group(page, at)?;
        path(page, out, ink, s)
    };
    sep(page, out, ink, s1, b" = ", item)
}

// The tails of a Dec.
#[tactic(auto, unfolding(layout::specs::GetDec::sharing_tails))]
pub fn sharing_tails(page: &Page, out: &mut [u8], ink: &mut Ink, at: usize, cfg: Cfg) -> Status
    ensures { plainly (sharing_tails (walks cfg.nesting) (cfg_of cfg)) page out ink at result }
{
    let item = |out: &mut [u8], ink: &mut Ink, at: usize|
        ensures { plainly (sharing_tail (walks cfg.nesting) (cfg_of cfg)) page out ink at result }
    { sharing_tail(page, out, ink, at, cfg) };
    for_each(page, out, ink, at, item)
}
