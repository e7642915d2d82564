// The walk over expressions, declarations, structures and signatures, which call each other (`get_exp`, `get_dec`,
// `get_str_exp`, `get_sig_exp` of 000): a function for each arm, and for what closures of 000 do; items of lists are closures here too.
#![tactic(auto)]

ghost use Rattle.std.specs.Prelude.{◌≡◌, Bool, true, false, ◌&&◌, ◌||◌, get_or, eqb, ◌+◌, ◌-◌, ◌*◌, ◌≤◌, ◌<◌};
ghost use Rattle.reader.specs.Check.{max_forms};
ghost use Rattle.layout.specs.Layout.{word, text as text·, group as group·, choice as choice·, maybe, halt, ◌⨾◌};
ghost use Rattle.layout.specs.Promises.Lent.{does, walked, by_word};
ghost use Rattle.layout.specs.Walk.{walks, top};
ghost use Rattle.layout.specs.Exp.{indented_levels, get_matcher_arm as get_matcher_arm·, get_matcher_across_lines as get_matcher_across_lines·, eq_body as eq_body·, exp_args as exp_args·, exp_semi_item as exp_semi_item·, exp_semi_more as exp_semi_more·};
ghost use Rattle.layout.specs.Exp.{exp_semi_seq as exp_semi_seq·, exp_row as exp_row·, exp_rows as exp_rows·, exp as exp·};
ghost use Rattle.reader.specs.Forms.{RecordExp, ParenExp, VectorExp, SeqExp, LetExp, AppExp, InfixExp, TypedExp, IfExp, WhileExp, CaseExp, FnExp};
ghost use Rattle.layout.specs.GetDec.{dec as dec·, dec_in_seq as dec_in_seq·, dec_in_seqs as dec_in_seqs·, get_dec as get_dec·, dec_arg as dec_arg·};
ghost use Rattle.layout.specs.DecOne.{decs as decs·, val_bind as val_bind·, fun_bind_case as fun_bind_case·, fun_bind as fun_bind·, ex_bind_inner as ex_bind_inner·, ex_bind as ex_bind·};
ghost use Rattle.layout.specs.DecOne.{local_decs as local_decs·, str_bind as str_bind·, functor_arg as functor_arg·, functor_args as functor_args·, functor_bind as functor_bind·, dec_one as dec_one·};
ghost use Rattle.reader.specs.Forms.{ValDec, FunDec, AbstypeDec, ExDec, LocalDec, StructureDec, SignatureDec, FunctorDec, IncludeDec};
ghost use Rattle.layout.specs.StrExp.{app_arg as app_arg·, str_exp as str_exp·};
ghost use Rattle.reader.specs.Forms.{StructStrExp, AscriptionStrExp, AppStrExp, LetStrExp};
ghost use Rattle.layout.specs.SigExp.{ascription_tail as ascription_tail·, sig_exp as sig_exp·};
ghost use Rattle.reader.specs.Forms.{SigSigExp, WhereTypeSigExp, WhereSigExp};

use layout::fields::{absent, choice, declared, form, group, list, token_no};
use layout::helpers::{
    comment_above, deepen, indent, indent_deeper, line, op_path, path, sep_with_lines, text_of,
    ty_var_seq, word_if,
};
use layout::items::{for_each, sep};
use layout::looks::{asked_first, body_exp_needs_newline, heads_behind, is_if_exp};
use layout::{Cfg, Ink, Page, Status, Stop};
use leaves::{
    app_end, app_space, arg_is_symbolic, case_head, case_pats, dat_binds, dat_copy_dec, dat_dec,
    ex_bind_of, func_is_bang, infix_dec, infix_operator, item_semi, nonfix_dec, open_dec,
    selector_exp, sharing_tails, ty_dec, with_type,
};
use patterns::get_pat;
use reader::commands::Family;
use types::{get_ty, ty_annotation};

// ---- an item's place
// Whether an item of a sequence has its semicolon written, where so many are left behind it: the last, where that is allowed.
fn last_semi(allow: bool, left: usize) -> bool
    ensures { result ≡ (allow && eqb left 0) }
{
    allow && left == 0
}

// Whether an argument was a Dec, after one more.
fn later_needs(needs: bool, which: usize) -> bool
    ensures { result ≡ (needs || eqb which 1) }
{
    needs || which == 1
}

// ---- expressions
// A row of `RecordExp`.
#[cycle(walk)]
fn exp_row(page: &Page, out: &mut [u8], ink: &mut Ink, at: usize, cfg: Cfg) -> Status
    requires { cfg.depth + 2 * cfg.nesting + 2 ≤ 402 }
    ensures { does exp_row· page out ink at cfg result }
{
    let s1 = group(page, at)?;
    let s2 = text_of(page, out, ink, s1)?;
    if let Some(s3) = absent(page, s2) {
        return Ok(s3);
    }
    let s4 = group(page, s2)?;
    ink.put(out, b" = ");
    get_exp(page, out, ink, s4, cfg)
}

// The rows of `RecordExp`.
#[cycle(walk)]
fn exp_rows(page: &Page, out: &mut [u8], ink: &mut Ink, at: usize, cfg: Cfg) -> Status
    requires { cfg.depth + 2 * cfg.nesting + 2 ≤ 402 }
    ensures { does exp_rows· page out ink at cfg result }
{
    let item = |out: &mut [u8], ink: &mut Ink, at: usize|
        requires { cfg.depth + 2 * cfg.nesting + 2 ≤ 402 }
        ensures { does exp_row· page out ink at cfg result }
    { exp_row(page, out, ink, at, cfg) };
    sep(page, out, ink, at, b", ", item)
}

// `RecordExp`.
#[cycle(walk)]
fn record_exp(page: &Page, out: &mut [u8], ink: &mut Ink, at: usize, cfg: Cfg) -> Status
    requires { cfg.depth + 2 * cfg.nesting + 2 ≤ 402 }
    ensures { does (λ ws c. exp· ws c RecordExp) page out ink at cfg result }
{
    ink.put(out, b"{ ");
    let s1 = exp_rows(page, out, ink, at, cfg)?;
    ink.put(out, b" }");
    Ok(s1)
}

// `ParenExp`.
#[cycle(walk)]
fn paren_exp(page: &Page, out: &mut [u8], ink: &mut Ink, at: usize, cfg: Cfg) -> Status
    requires { cfg.depth + 2 * cfg.nesting + 2 ≤ 402 }
    ensures { does (λ ws c. exp· ws c ParenExp) page out ink at cfg result }
{
    ink.put(out, b"(");
    let s1 = get_exp(page, out, ink, at, cfg)?;
    ink.put(out, b")");
    Ok(s1)
}

// `exp_args`: expressions with a comma between.
#[cycle(walk)]
fn exp_args(page: &Page, out: &mut [u8], ink: &mut Ink, at: usize, cfg: Cfg) -> Status
    requires { cfg.depth + 2 * cfg.nesting + 2 ≤ 402 }
    ensures { does exp_args· page out ink at cfg result }
{
    let item = |out: &mut [u8], ink: &mut Ink, at: usize|
        requires { cfg.depth + 2 * cfg.nesting + 2 ≤ 402 }
        ensures { does (λ ws c. group· (ws.get_exp c)) page out ink at cfg result }
    {
        let s = group(page, at)?;
        get_exp(page, out, ink, s, cfg)
    };
    sep(page, out, ink, at, b", ", item)
}

// `TupleExp` and `ListExp`, by their brackets.
#[cycle(walk)]
fn bracketed_exps(
    page: &Page,
    out: &mut [u8],
    ink: &mut Ink,
    at: usize,
    cfg: Cfg,
    opens: &[u8],
    closes: &[u8],
) -> Status
    requires { cfg.depth + 2 * cfg.nesting + 2 ≤ 402 }
    ensures { by_word opens (λ u. by_word closes (λ v. does (λ ws c. word u ⨾ exp_args· ws c ⨾ word v)
        page out ink at cfg result)) }
{
    ink.put(out, opens);
    let s1 = exp_args(page, out, ink, at, cfg)?;
    ink.put(out, closes);
    Ok(s1)
}

// `VectorExp`.
#[cycle(walk)]
fn vector_exp(page: &Page, out: &mut [u8], ink: &mut Ink, at: usize, cfg: Cfg) -> Status
    requires { cfg.depth + 2 * cfg.nesting + 2 ≤ 402 }
    ensures { does (λ ws c. exp· ws c VectorExp) page out ink at cfg result }
{
    ink.put(out, b"#[");
    let s1 = group(page, at)?;
    let s2 = exp_args(page, out, ink, s1, cfg)?;
    ink.put(out, b"]");
    Ok(s2)
}

// An item of `exps_in_seq`, with its semicolon where that is written.
#[cycle(walk)]
fn exp_semi_item(
    page: &Page,
    out: &mut [u8],
    ink: &mut Ink,
    at: usize,
    cfg: Cfg,
    write: bool,
) -> Status
    requires { cfg.depth + 2 * cfg.nesting + 0 ≤ 402 }
    ensures { does (λ ws c. exp_semi_item· ws c write) page out ink at cfg result }
{
    let s1 = group(page, at)?;
    let s2 = get_exp(page, out, ink, s1, cfg)?;
    item_semi(page, out, ink, s2, write)
}

// The last n items of a sequence, the first not among them.
// A loop of its own: an item has its semicolon by its place.
#[cycle(walk)]
fn exp_semi_more(
    page: &Page,
    out: &mut [u8],
    ink: &mut Ink,
    at: usize,
    cfg: Cfg,
    allow: bool,
    n: usize,
) -> Status
    requires { cfg.depth + 2 * cfg.nesting + 0 ≤ 402 }
    ensures { does (λ ws c. exp_semi_more· ws c allow n) page out ink at cfg result }
{
    let mut s = at;
    for left in (0..n).rev() {
        ink.put(out, b";\n");
        indent(out, ink, cfg);
        s = exp_semi_item(page, out, ink, s, cfg, last_semi(allow, left))?;
    }
    Ok(s)
}

// `exp_semi_seq`. The first item's semicolon is never written.
#[cycle(walk)]
fn exp_semi_seq(
    page: &Page,
    out: &mut [u8],
    ink: &mut Ink,
    at: usize,
    cfg: Cfg,
    allow: bool,
) -> Status
    requires { cfg.depth + 2 * cfg.nesting + 0 ≤ 402 }
    ensures { does (λ ws c. exp_semi_seq· ws c allow) page out ink at cfg result }
{
    let (n, s1) = list(page, at)?;
    if n == 0 {
        return Ok(s1);
    }
    let s2 = exp_semi_item(page, out, ink, s1, cfg, false)?;
    exp_semi_more(page, out, ink, s2, cfg, allow, n - 1)
}

// `SeqExp`.
#[cycle(walk)]
fn seq_exp(page: &Page, out: &mut [u8], ink: &mut Ink, at: usize, cfg: Cfg) -> Status
    requires { cfg.depth + 2 * cfg.nesting + 2 ≤ 402 }
    ensures { does (λ ws c. exp· ws c SeqExp) page out ink at cfg result }
{
    ink.put(out, b"(\n");
    indent_deeper(out, ink, cfg);
    let new = cfg.indented();
    let s1 = exp_semi_seq(page, out, ink, at, new, false)?;
    line(out, ink, cfg);
    ink.put(out, b")");
    Ok(s1)
}

// `LetExp`.
#[cycle(walk)]
fn let_exp(page: &Page, out: &mut [u8], ink: &mut Ink, at: usize, cfg: Cfg) -> Status
    requires { cfg.depth + 2 * cfg.nesting + 2 ≤ 402 }
    ensures { does (λ ws c. exp· ws c LetExp) page out ink at cfg result }
{
    ink.put(out, b"let");
    ink.put(out, b"\n");
    indent_deeper(out, ink, cfg);
    let new = cfg.indented();
    let s1 = get_dec(page, out, ink, at, new)?;
    line(out, ink, cfg);
    ink.put(out, b"in\n");
    indent(out, ink, new);
    let s2 = exp_semi_seq(page, out, ink, s1, new, true)?;
    line(out, ink, cfg);
    ink.put(out, b"end");
    Ok(s2)
}

// `AppExp`: 000 looks at both expressions before it walks into the first; here they are looked at behind that walk, which tells where
// the second stands.
#[cycle(walk)]
fn app_exp(page: &Page, out: &mut [u8], ink: &mut Ink, at: usize, cfg: Cfg) -> Status
    requires { cfg.depth + 2 * cfg.nesting + 2 ≤ 402 }
    ensures { does (λ ws c. exp· ws c AppExp) page out ink at cfg result }
{
    let s1 = match get_exp(page, out, ink, at, cfg) {
        Ok(s) => s,
        Err(why) => return asked_first(page, at, Err(why)),
    };
    let (func, arg) = heads_behind(page, at, s1)?;
    let bang = func_is_bang(page, func);
    let symbolic = arg_is_symbolic(page, arg);
    app_space(out, ink, bang, symbolic);
    get_exp(page, out, ink, s1, cfg)
}

// `InfixExp`.
#[cycle(walk)]
fn infix_exp(page: &Page, out: &mut [u8], ink: &mut Ink, at: usize, cfg: Cfg) -> Status
    requires { cfg.depth + 2 * cfg.nesting + 2 ≤ 402 }
    ensures { does (λ ws c. exp· ws c InfixExp) page out ink at cfg result }
{
    let (k, s1) = token_no(page, at)?;
    let s2 = get_exp(page, out, ink, s1, cfg)?;
    infix_operator(page, out, ink, cfg, k);
    get_exp(page, out, ink, s2, cfg)
}

// `TypedExp`.
#[cycle(walk)]
fn typed_exp(page: &Page, out: &mut [u8], ink: &mut Ink, at: usize, cfg: Cfg) -> Status
    requires { cfg.depth + 2 * cfg.nesting + 2 ≤ 402 }
    ensures { does (λ ws c. exp· ws c TypedExp) page out ink at cfg result }
{
    let s1 = get_exp(page, out, ink, at, cfg)?;
    ink.put(out, b" : ");
    get_ty(page, out, ink, s1, cfg)
}

// `AndalsoExp` and `OrelseExp`, by their word.
#[cycle(walk)]
fn joined_exps(
    page: &Page,
    out: &mut [u8],
    ink: &mut Ink,
    at: usize,
    cfg: Cfg,
    fixed: &[u8],
) -> Status
    requires { cfg.depth + 2 * cfg.nesting + 2 ≤ 402 }
    ensures { by_word fixed (λ u. does (λ ws c. ws.get_exp c ⨾ word u ⨾ ws.get_exp c) page out ink at cfg result) }
{
    let s1 = get_exp(page, out, ink, at, cfg)?;
    ink.put(out, fixed);
    get_exp(page, out, ink, s1, cfg)
}

// `WhileExp`.
#[cycle(walk)]
fn while_exp(page: &Page, out: &mut [u8], ink: &mut Ink, at: usize, cfg: Cfg) -> Status
    requires { cfg.depth + 2 * cfg.nesting + 2 ≤ 402 }
    ensures { does (λ ws c. exp· ws c WhileExp) page out ink at cfg result }
{
    ink.put(out, b"while ");
    joined_exps(page, out, ink, at, cfg, b" do ")
}

// `HandleExp`, by its word.
#[cycle(walk)]
fn handle_exp(
    page: &Page,
    out: &mut [u8],
    ink: &mut Ink,
    at: usize,
    cfg: Cfg,
    fixed: &[u8],
) -> Status
    requires { cfg.depth + 2 * cfg.nesting + 2 ≤ 402 }
    ensures { by_word fixed (λ u. does (λ ws c. ws.get_exp c ⨾ word u ⨾ get_matcher_across_lines· ws c)
        page out ink at cfg result) }
{
    let s1 = get_exp(page, out, ink, at, cfg)?;
    ink.put(out, fixed);
    get_matcher_across_lines(page, out, ink, s1, cfg)
}

// `CaseExp`.
#[cycle(walk)]
fn case_exp(page: &Page, out: &mut [u8], ink: &mut Ink, at: usize, cfg: Cfg) -> Status
    requires { cfg.depth + 2 * cfg.nesting + 2 ≤ 402 }
    ensures { does (λ ws c. exp· ws c CaseExp) page out ink at cfg result }
{
    ink.put(out, b"case ");
    handle_exp(page, out, ink, at, cfg, b" of\n")
}

// `RaiseExp`, `DoDec` and an exception's expression, by their word.
#[cycle(walk)]
fn prefixed_exp(
    page: &Page,
    out: &mut [u8],
    ink: &mut Ink,
    at: usize,
    cfg: Cfg,
    fixed: &[u8],
) -> Status
    requires { cfg.depth + 2 * cfg.nesting + 2 ≤ 402 }
    ensures { by_word fixed (λ u. does (λ ws c. word u ⨾ ws.get_exp c) page out ink at cfg result) }
{
    ink.put(out, fixed);
    get_exp(page, out, ink, at, cfg)
}

// `IfExp`. Another `if` stays on the line of `else`.
#[cycle(walk)]
fn if_exp(page: &Page, out: &mut [u8], ink: &mut Ink, at: usize, cfg: Cfg) -> Status
    requires { cfg.depth + 2 * cfg.nesting + 2 ≤ 402 }
    ensures { does (λ ws c. exp· ws c IfExp) page out ink at cfg result }
{
    ink.put(out, b"if ");
    let s1 = get_exp(page, out, ink, at, cfg)?;
    ink.put(out, b" then\n");
    indent_deeper(out, ink, cfg);
    let new = cfg.indented();
    let s2 = get_exp(page, out, ink, s1, new)?;
    line(out, ink, cfg);
    ink.put(out, b"else");
    form(page, s2, Family::Exp)?;
    if is_if_exp(page, s2) {
        ink.put(out, b" ");
        return get_exp(page, out, ink, s2, cfg);
    }
    line(out, ink, new);
    get_exp(page, out, ink, s2, new)
}

// `get_matcher_across_lines`. No matcher is allowed.
#[cycle(walk)]
fn get_matcher_across_lines(
    page: &Page,
    out: &mut [u8],
    ink: &mut Ink,
    at: usize,
    cfg: Cfg,
) -> Status
    requires { cfg.depth + 2 * cfg.nesting + 2 ≤ 402 }
    ensures { does get_matcher_across_lines· page out ink at cfg result }
{
    if let Some(s0) = absent(page, at) {
        return Ok(s0);
    }
    let s1 = group(page, at)?;
    indent_deeper(out, ink, cfg);
    let item = |out: &mut [u8], ink: &mut Ink, at: usize|
        requires { cfg.depth + 2 * cfg.nesting + 2 ≤ 402 }
        ensures { does get_matcher_arm· page out ink at cfg result }
    { get_matcher_arm(page, out, ink, at, cfg) };
    sep_with_lines(page, out, ink, s1, cfg, b"| ", item)
}

// `get_matcher_arm`: the body stands two deeper where it needs a line of its own.
#[cycle(walk)]
fn get_matcher_arm(page: &Page, out: &mut [u8], ink: &mut Ink, at: usize, cfg: Cfg) -> Status
    requires { cfg.depth + 2 * cfg.nesting + 2 ≤ 402 }
    ensures { does get_matcher_arm· page out ink at cfg result }
{
    let s1 = group(page, at)?;
    let s2 = get_pat(page, out, ink, s1, cfg)?;
    ink.put(out, b" =>");
    form(page, s2, Family::Exp)?;
    if body_exp_needs_newline(page, s2) {
        ink.put(out, b"\n");
        deepen(ink, cfg);
        let new = cfg.indented();
        return deeper_exp(page, out, ink, s2, new);
    }
    ink.put(out, b" ");
    get_exp(page, out, ink, s2, cfg)
}

// An expression one deeper.
#[cycle(walk)]
fn deeper_exp(page: &Page, out: &mut [u8], ink: &mut Ink, at: usize, cfg: Cfg) -> Status
    requires { cfg.depth + 2 * cfg.nesting + 1 ≤ 402 }
    ensures { does (λ ws c. indented_levels ws c 1) page out ink at cfg result }
{
    indent_deeper(out, ink, cfg);
    let new = cfg.indented();
    get_exp(page, out, ink, at, new)
}

// ` =` and the body of a binding, where there is one.
#[cycle(walk)]
fn eq_body(page: &Page, out: &mut [u8], ink: &mut Ink, at: usize, cfg: Cfg) -> Status
    requires { cfg.depth + 2 * cfg.nesting + 2 ≤ 402 }
    ensures { does eq_body· page out ink at cfg result }
{
    if let Some(s0) = absent(page, at) {
        return Ok(s0);
    }
    let s1 = group(page, at)?;
    ink.put(out, b" =");
    form(page, s1, Family::Exp)?;
    if body_exp_needs_newline(page, s1) {
        ink.put(out, b"\n");
        return deeper_exp(page, out, ink, s1, cfg);
    }
    ink.put(out, b" ");
    get_exp(page, out, ink, s1, cfg)
}

// `FnExp`.
#[cycle(walk)]
fn fn_exp(page: &Page, out: &mut [u8], ink: &mut Ink, at: usize, cfg: Cfg) -> Status
    requires { cfg.depth + 2 * cfg.nesting + 2 ≤ 402 }
    ensures { does (λ ws c. exp· ws c FnExp) page out ink at cfg result }
{
    ink.put(out, b"fn ");
    let s1 = group(page, at)?;
    let item = |out: &mut [u8], ink: &mut Ink, at: usize|
        requires { cfg.depth + 2 * cfg.nesting + 2 ≤ 402 }
        ensures { does get_matcher_arm· page out ink at cfg result }
    { get_matcher_arm(page, out, ink, at, cfg) };
    sep(page, out, ink, s1, b" | ", item)
}

// `get_exp`: a form is dispatched by number to its arm.
#[cycle(walk)]
fn get_exp(page: &Page, out: &mut [u8], ink: &mut Ink, at: usize, cfg: Cfg) -> Status
    requires { cfg.depth + 2 * cfg.nesting + 0 ≤ 402 }
    ensures { does (λ ws c. ws.get_exp c) page out ink at cfg result }
{
    if cfg.nesting == 0 {
        return Err(Stop::Absent(at));
    }
    let (k, s) = form(page, at, Family::Exp)?;
    let sub = Cfg {
        nesting: cfg.nesting - 1,
        ..cfg
    };
    match k {
        0 => {
            ink.put(out, b"...");
            Ok(s)
        }
        1 => {
            ink.put(out, b"_");
            Ok(s)
        }
        2 => {
            ink.put(out, b"op andalso");
            Ok(s)
        }
        3 => {
            ink.put(out, b"op orelse");
            Ok(s)
        }
        4 => text_of(page, out, ink, s),
        5 => op_path(page, out, ink, s),
        6 => record_exp(page, out, ink, s, sub),
        7 => selector_exp(page, out, ink, s, sub),
        8 => paren_exp(page, out, ink, s, sub),
        9 => bracketed_exps(page, out, ink, s, sub, b"(", b")"),
        10 => bracketed_exps(page, out, ink, s, sub, b"[", b"]"),
        11 => vector_exp(page, out, ink, s, sub),
        12 => seq_exp(page, out, ink, s, sub),
        13 => let_exp(page, out, ink, s, sub),
        14 => app_exp(page, out, ink, s, sub),
        15 => infix_exp(page, out, ink, s, sub),
        16 => typed_exp(page, out, ink, s, sub),
        17 => joined_exps(page, out, ink, s, sub, b" andalso "),
        18 => joined_exps(page, out, ink, s, sub, b" orelse "),
        19 => handle_exp(page, out, ink, s, sub, b" handle\n"),
        20 => prefixed_exp(page, out, ink, s, sub, b"raise "),
        21 => if_exp(page, out, ink, s, sub),
        22 => while_exp(page, out, ink, s, sub),
        23 => case_exp(page, out, ink, s, sub),
        24 => fn_exp(page, out, ink, s, sub),
        _ => Err(Stop::Absent(s)),
    }
}

// ---- declarations
// `get_dec`: the Decs of a sequence, with a blank line between where the configuration has them.
#[cycle(walk)]
fn get_dec(page: &Page, out: &mut [u8], ink: &mut Ink, at: usize, cfg: Cfg) -> Status
    requires { cfg.depth + 2 * cfg.nesting + 0 ≤ 402 }
    ensures { does get_dec· page out ink at cfg result }
{
    let item = |out: &mut [u8], ink: &mut Ink, at: usize|
        requires { cfg.depth + 2 * cfg.nesting + 0 ≤ 402 }
        ensures { does (λ ws c. group· (dec· ws c)) page out ink at cfg result }
    {
        let s = group(page, at)?;
        dec(page, out, ink, s, cfg)
    };
    sep_with_lines(page, out, ink, at, cfg, b"", item)
}

// The fields of one Dec.
#[cycle(walk)]
fn dec(page: &Page, out: &mut [u8], ink: &mut Ink, at: usize, cfg: Cfg) -> Status
    requires { cfg.depth + 2 * cfg.nesting + 0 ≤ 402 }
    ensures { does dec· page out ink at cfg result }
{
    let s1 = group(page, at)?;
    let s2 = dec_in_seqs(page, out, ink, s1, cfg)?;
    let s3 = sharing_tails(page, out, ink, s2, cfg)?;
    word_if(page, out, ink, s3, b";")
}

// `dec_in_seqs`.
#[cycle(walk)]
fn dec_in_seqs(page: &Page, out: &mut [u8], ink: &mut Ink, at: usize, cfg: Cfg) -> Status
    requires { cfg.depth + 2 * cfg.nesting + 0 ≤ 402 }
    ensures { does dec_in_seqs· page out ink at cfg result }
{
    let item = |out: &mut [u8], ink: &mut Ink, at: usize|
        requires { cfg.depth + 2 * cfg.nesting + 0 ≤ 402 }
        ensures { does dec_in_seq· page out ink at cfg result }
    { dec_in_seq(page, out, ink, at, cfg) };
    sep_with_lines(page, out, ink, at, cfg, b"", item)
}

// An item of `dec_in_seqs`.
#[cycle(walk)]
fn dec_in_seq(page: &Page, out: &mut [u8], ink: &mut Ink, at: usize, cfg: Cfg) -> Status
    requires { cfg.depth + 2 * cfg.nesting + 0 ≤ 402 }
    ensures { does dec_in_seq· page out ink at cfg result }
{
    let s1 = group(page, at)?;
    let calm = Cfg {
        depth: cfg.depth,
        blank: false,
        nesting: cfg.nesting,
    };
    let s2 = get_dec_one(page, out, ink, s1, calm)?;
    word_if(page, out, ink, s2, b";")
}

// `get_dec_one`: the comment above a declaration, then the declaration.
#[cycle(walk)]
fn get_dec_one(page: &Page, out: &mut [u8], ink: &mut Ink, at: usize, cfg: Cfg) -> Status
    requires { cfg.depth + 2 * cfg.nesting + 0 ≤ 402 }
    ensures { does (λ ws c. ws.get_dec_one c) page out ink at cfg result }
{
    if cfg.nesting == 0 {
        return Err(Stop::Absent(at));
    }
    let found = declared(page, at)?;
    comment_above(page, out, ink, cfg, found.first);
    let sub = Cfg {
        nesting: cfg.nesting - 1,
        ..cfg
    };
    dec_by_number(page, out, ink, found.next, sub, found.number)
}

// A declaration by its number, from its fields on.
#[cycle(walk)]
fn dec_by_number(
    page: &Page,
    out: &mut [u8],
    ink: &mut Ink,
    at: usize,
    cfg: Cfg,
    which: usize,
) -> Status
    requires { cfg.depth + 2 * cfg.nesting + 2 ≤ 402 }
    ensures { does (λ ws c. get_or (decs· ws c) which halt) page out ink at cfg result }
{
    match which {
        0 => {
            ink.put(out, b"...");
            Ok(at)
        }
        1 => val_dec(page, out, ink, at, cfg),
        2 => fun_dec(page, out, ink, at, cfg),
        3 => ty_dec(page, out, ink, at, cfg),
        4 => dat_dec(page, out, ink, at, cfg),
        5 => dat_copy_dec(page, out, ink, at, cfg),
        6 => abstype_dec(page, out, ink, at, cfg),
        7 => ex_dec(page, out, ink, at, cfg),
        8 => open_dec(page, out, ink, at, cfg),
        9 => infix_dec(page, out, ink, at, cfg, b"infix "),
        10 => infix_dec(page, out, ink, at, cfg, b"infixr "),
        11 => nonfix_dec(page, out, ink, at, cfg),
        12 => prefixed_exp(page, out, ink, at, cfg, b"do "),
        13 => local_dec(page, out, ink, at, cfg),
        14 => structure_dec(page, out, ink, at, cfg),
        15 => signature_dec(page, out, ink, at, cfg),
        16 => functor_dec(page, out, ink, at, cfg),
        17 => get_exp(page, out, ink, at, cfg),
        18 => include_dec(page, out, ink, at, cfg),
        19 => Err(Stop::Import(at)),
        _ => Err(Stop::Absent(at)),
    }
}

// `ValDec`.
#[cycle(walk)]
fn val_dec(page: &Page, out: &mut [u8], ink: &mut Ink, at: usize, cfg: Cfg) -> Status
    requires { cfg.depth + 2 * cfg.nesting + 2 ≤ 402 }
    ensures { does (λ ws c. dec_one· ws c ValDec) page out ink at cfg result }
{
    ink.put(out, b"val ");
    let item = |out: &mut [u8], ink: &mut Ink, at: usize|
        requires { cfg.depth + 2 * cfg.nesting + 2 ≤ 402 }
        ensures { does val_bind· page out ink at cfg result }
    { val_bind(page, out, ink, at, cfg) };
    sep_with_lines(page, out, ink, at, cfg, b"and ", item)
}

// A binding of `ValDec`.
#[cycle(walk)]
fn val_bind(page: &Page, out: &mut [u8], ink: &mut Ink, at: usize, cfg: Cfg) -> Status
    requires { cfg.depth + 2 * cfg.nesting + 2 ≤ 402 }
    ensures { does val_bind· page out ink at cfg result }
{
    let s1 = group(page, at)?;
    let s2 = word_if(page, out, ink, s1, b"rec ")?;
    let s3 = get_pat(page, out, ink, s2, cfg)?;
    eq_body(page, out, ink, s3, cfg)
}

// `FunDec`.
#[cycle(walk)]
fn fun_dec(page: &Page, out: &mut [u8], ink: &mut Ink, at: usize, cfg: Cfg) -> Status
    requires { cfg.depth + 2 * cfg.nesting + 2 ≤ 402 }
    ensures { does (λ ws c. dec_one· ws c FunDec) page out ink at cfg result }
{
    ink.put(out, b"fun ");
    let s1 = ty_var_seq(page, out, ink, at)?;
    let item = |out: &mut [u8], ink: &mut Ink, at: usize|
        requires { cfg.depth + 2 * cfg.nesting + 2 ≤ 402 }
        ensures { does fun_bind· page out ink at cfg result }
    { fun_bind(page, out, ink, at, cfg) };
    sep_with_lines(page, out, ink, s1, cfg, b"and ", item)
}

// A binding of `FunDec`: bars stand one deeper, bodies are laid out from the declaration's own depth.
#[cycle(walk)]
fn fun_bind(page: &Page, out: &mut [u8], ink: &mut Ink, at: usize, cfg: Cfg) -> Status
    requires { cfg.depth + 2 * cfg.nesting + 2 ≤ 402 }
    ensures { does fun_bind· page out ink at cfg result }
{
    let s1 = group(page, at)?;
    deepen(ink, cfg);
    let item = |out: &mut [u8], ink: &mut Ink, at: usize|
        requires { cfg.depth + 2 * cfg.nesting + 2 ≤ 402 }
        ensures { does fun_bind_case· page out ink at cfg result }
    { fun_bind_case(page, out, ink, at, cfg) };
    sep_with_lines(page, out, ink, s1, cfg.indented(), b"| ", item)
}

// A case of `FunDec`.
#[cycle(walk)]
fn fun_bind_case(page: &Page, out: &mut [u8], ink: &mut Ink, at: usize, cfg: Cfg) -> Status
    requires { cfg.depth + 2 * cfg.nesting + 2 ≤ 402 }
    ensures { does fun_bind_case· page out ink at cfg result }
{
    let s1 = group(page, at)?;
    let s2 = case_head(page, out, ink, s1, cfg)?;
    let s3 = case_pats(page, out, ink, s2, cfg)?;
    let s4 = ty_annotation(page, out, ink, s3, cfg)?;
    eq_body(page, out, ink, s4, cfg)
}

// `AbstypeDec`.
#[cycle(walk)]
fn abstype_dec(page: &Page, out: &mut [u8], ink: &mut Ink, at: usize, cfg: Cfg) -> Status
    requires { cfg.depth + 2 * cfg.nesting + 2 ≤ 402 }
    ensures { does (λ ws c. dec_one· ws c AbstypeDec) page out ink at cfg result }
{
    ink.put(out, b"abstype ");
    let s1 = dat_binds(page, out, ink, at, cfg)?;
    let s2 = with_type(page, out, ink, s1, cfg)?;
    ink.put(out, b" with ");
    let s3 = get_dec(page, out, ink, s2, cfg)?;
    ink.put(out, b" end");
    Ok(s3)
}

// `ExDec`.
#[cycle(walk)]
fn ex_dec(page: &Page, out: &mut [u8], ink: &mut Ink, at: usize, cfg: Cfg) -> Status
    requires { cfg.depth + 2 * cfg.nesting + 2 ≤ 402 }
    ensures { does (λ ws c. dec_one· ws c ExDec) page out ink at cfg result }
{
    ink.put(out, b"exception ");
    let item = |out: &mut [u8], ink: &mut Ink, at: usize|
        requires { cfg.depth + 2 * cfg.nesting + 2 ≤ 402 }
        ensures { does ex_bind· page out ink at cfg result }
    { ex_bind(page, out, ink, at, cfg) };
    sep_with_lines(page, out, ink, at, cfg, b"and ", item)
}

// A binding of `ExDec`.
#[cycle(walk)]
fn ex_bind(page: &Page, out: &mut [u8], ink: &mut Ink, at: usize, cfg: Cfg) -> Status
    requires { cfg.depth + 2 * cfg.nesting + 2 ≤ 402 }
    ensures { does ex_bind· page out ink at cfg result }
{
    let s1 = group(page, at)?;
    let s2 = text_of(page, out, ink, s1)?;
    if let Some(s3) = absent(page, s2) {
        return Ok(s3);
    }
    let (k, s4) = choice(page, s2)?;
    ex_bind_inner(page, out, ink, s4, cfg, k)
}

// What an exception is bound to, by its number.
#[cycle(walk)]
fn ex_bind_inner(
    page: &Page,
    out: &mut [u8],
    ink: &mut Ink,
    at: usize,
    cfg: Cfg,
    which: usize,
) -> Status
    requires { cfg.depth + 2 * cfg.nesting + 2 ≤ 402 }
    ensures { does (λ ws c. ex_bind_inner· ws c which) page out ink at cfg result }
{
    match which {
        0 => ex_bind_of(page, out, ink, at, cfg),
        1 => prefixed_exp(page, out, ink, at, cfg, b" = "),
        _ => Err(Stop::Absent(at)),
    }
}

// `LocalDec`.
#[cycle(walk)]
fn local_dec(page: &Page, out: &mut [u8], ink: &mut Ink, at: usize, cfg: Cfg) -> Status
    requires { cfg.depth + 2 * cfg.nesting + 2 ≤ 402 }
    ensures { does (λ ws c. dec_one· ws c LocalDec) page out ink at cfg result }
{
    ink.put(out, b"local");
    ink.put(out, b"\n");
    indent_deeper(out, ink, cfg);
    let new = cfg.indented();
    let s1 = local_decs(page, out, ink, at, new)?;
    line(out, ink, cfg);
    ink.put(out, b"in\n");
    indent(out, ink, new);
    let s2 = local_decs(page, out, ink, s1, new)?;
    line(out, ink, cfg);
    ink.put(out, b"end");
    Ok(s2)
}

// `local_dec_hd` or `local_dec_tl`: absent, it has no declarations.
#[cycle(walk)]
fn local_decs(page: &Page, out: &mut [u8], ink: &mut Ink, at: usize, cfg: Cfg) -> Status
    requires { cfg.depth + 2 * cfg.nesting + 0 ≤ 402 }
    ensures { does local_decs· page out ink at cfg result }
{
    if let Some(s0) = absent(page, at) {
        return Ok(s0);
    }
    let s1 = group(page, at)?;
    get_dec(page, out, ink, s1, cfg)
}

// `StructureDec`.
#[cycle(walk)]
fn structure_dec(page: &Page, out: &mut [u8], ink: &mut Ink, at: usize, cfg: Cfg) -> Status
    requires { cfg.depth + 2 * cfg.nesting + 2 ≤ 402 }
    ensures { does (λ ws c. dec_one· ws c StructureDec) page out ink at cfg result }
{
    ink.put(out, b"structure ");
    let item = |out: &mut [u8], ink: &mut Ink, at: usize|
        requires { cfg.depth + 2 * cfg.nesting + 2 ≤ 402 }
        ensures { does str_bind· page out ink at cfg result }
    { str_bind(page, out, ink, at, cfg) };
    sep_with_lines(page, out, ink, at, cfg, b"and ", item)
}

// A binding of `StructureDec`.
#[cycle(walk)]
fn str_bind(page: &Page, out: &mut [u8], ink: &mut Ink, at: usize, cfg: Cfg) -> Status
    requires { cfg.depth + 2 * cfg.nesting + 2 ≤ 402 }
    ensures { does str_bind· page out ink at cfg result }
{
    let s1 = group(page, at)?;
    let s2 = text_of(page, out, ink, s1)?;
    let s3 = ascription(page, out, ink, s2, cfg)?;
    if let Some(s4) = absent(page, s3) {
        return Ok(s4);
    }
    let s5 = group(page, s3)?;
    ink.put(out, b" = ");
    get_str_exp(page, out, ink, s5, cfg)
}

// `SignatureDec`.
#[cycle(walk)]
fn signature_dec(page: &Page, out: &mut [u8], ink: &mut Ink, at: usize, cfg: Cfg) -> Status
    requires { cfg.depth + 2 * cfg.nesting + 2 ≤ 402 }
    ensures { does (λ ws c. dec_one· ws c SignatureDec) page out ink at cfg result }
{
    ink.put(out, b"signature ");
    let item = |out: &mut [u8], ink: &mut Ink, at: usize|
        requires { cfg.depth + 2 * cfg.nesting + 2 ≤ 402 }
        ensures { does (λ ws c. group· (text· ⨾ word " = " ⨾ ws.get_sig_exp c)) page out ink at cfg result }
    {
        let s = group(page, at)?;
        named_sig_exp(page, out, ink, s, cfg, b" = ")
    };
    sep_with_lines(page, out, ink, at, cfg, b"and ", item)
}

// A name and a signature, with a word between.
#[cycle(walk)]
fn named_sig_exp(
    page: &Page,
    out: &mut [u8],
    ink: &mut Ink,
    at: usize,
    cfg: Cfg,
    fixed: &[u8],
) -> Status
    requires { cfg.depth + 2 * cfg.nesting + 2 ≤ 402 }
    ensures { by_word fixed (λ u. does (λ ws c. text· ⨾ word u ⨾ ws.get_sig_exp c) page out ink at cfg result) }
{
    let s1 = text_of(page, out, ink, at)?;
    ink.put(out, fixed);
    get_sig_exp(page, out, ink, s1, cfg)
}

// `FunctorDec`.
#[cycle(walk)]
fn functor_dec(page: &Page, out: &mut [u8], ink: &mut Ink, at: usize, cfg: Cfg) -> Status
    requires { cfg.depth + 2 * cfg.nesting + 2 ≤ 402 }
    ensures { does (λ ws c. dec_one· ws c FunctorDec) page out ink at cfg result }
{
    ink.put(out, b"functor ");
    let item = |out: &mut [u8], ink: &mut Ink, at: usize|
        requires { cfg.depth + 2 * cfg.nesting + 2 ≤ 402 }
        ensures { does functor_bind· page out ink at cfg result }
    { functor_bind(page, out, ink, at, cfg) };
    sep_with_lines(page, out, ink, at, cfg, b"and ", item)
}

// A binding of `FunctorDec`.
#[cycle(walk)]
fn functor_bind(page: &Page, out: &mut [u8], ink: &mut Ink, at: usize, cfg: Cfg) -> Status
    requires { cfg.depth + 2 * cfg.nesting + 2 ≤ 402 }
    ensures { does functor_bind· page out ink at cfg result }
{
    let s1 = group(page, at)?;
    let s2 = text_of(page, out, ink, s1)?;
    ink.put(out, b" (");
    let s3 = functor_args(page, out, ink, s2, cfg)?;
    ink.put(out, b")");
    let s4 = ascription(page, out, ink, s3, cfg)?;
    ink.put(out, b" = ");
    get_str_exp(page, out, ink, s4, cfg)
}

// The arguments of a functor.
#[cycle(walk)]
fn functor_args(page: &Page, out: &mut [u8], ink: &mut Ink, at: usize, cfg: Cfg) -> Status
    requires { cfg.depth + 2 * cfg.nesting + 2 ≤ 402 }
    ensures { does functor_args· page out ink at cfg result }
{
    let item = |out: &mut [u8], ink: &mut Ink, at: usize|
        requires { cfg.depth + 2 * cfg.nesting + 2 ≤ 402 }
        ensures { does (λ ws c. choice· (functor_arg· ws c)) page out ink at cfg result }
    {
        let (k, s) = choice(page, at)?;
        functor_arg(page, out, ink, s, cfg, k)
    };
    for_each(page, out, ink, at, item)
}

// An argument of a functor, by its number.
#[cycle(walk)]
fn functor_arg(
    page: &Page,
    out: &mut [u8],
    ink: &mut Ink,
    at: usize,
    cfg: Cfg,
    which: usize,
) -> Status
    requires { cfg.depth + 2 * cfg.nesting + 2 ≤ 402 }
    ensures { does (λ ws c. functor_arg· ws c which) page out ink at cfg result }
{
    match which {
        0 => named_sig_exp(page, out, ink, at, cfg, b" : "),
        1 => dec_arg(page, out, ink, at, cfg),
        _ => Err(Stop::Absent(at)),
    }
}

// `IncludeDec`.
#[cycle(walk)]
fn include_dec(page: &Page, out: &mut [u8], ink: &mut Ink, at: usize, cfg: Cfg) -> Status
    requires { cfg.depth + 2 * cfg.nesting + 2 ≤ 402 }
    ensures { does (λ ws c. dec_one· ws c IncludeDec) page out ink at cfg result }
{
    ink.put(out, b"include ");
    let item = |out: &mut [u8], ink: &mut Ink, at: usize|
        requires { cfg.depth + 2 * cfg.nesting + 0 ≤ 402 }
        ensures { does (λ ws c. ws.get_sig_exp c) page out ink at cfg result }
    { get_sig_exp(page, out, ink, at, cfg) };
    sep(page, out, ink, at, b" ", item)
}

// A Dec that is an argument of a functor or of its application.
#[cycle(walk)]
fn dec_arg(page: &Page, out: &mut [u8], ink: &mut Ink, at: usize, cfg: Cfg) -> Status
    requires { cfg.depth + 2 * cfg.nesting + 2 ≤ 402 }
    ensures { does dec_arg· page out ink at cfg result }
{
    ink.put(out, b"\n");
    indent_deeper(out, ink, cfg);
    let new = cfg.indented();
    let s1 = dec(page, out, ink, at, new)?;
    ink.put(out, b"\n");
    Ok(s1)
}

// ---- structures
// `get_str_exp`.
#[cycle(walk)]
fn get_str_exp(page: &Page, out: &mut [u8], ink: &mut Ink, at: usize, cfg: Cfg) -> Status
    requires { cfg.depth + 2 * cfg.nesting + 0 ≤ 402 }
    ensures { does (λ ws c. ws.get_str_exp c) page out ink at cfg result }
{
    if cfg.nesting == 0 {
        return Err(Stop::Absent(at));
    }
    let (k, s) = form(page, at, Family::StrExp)?;
    let sub = Cfg {
        nesting: cfg.nesting - 1,
        ..cfg
    };
    match k {
        0 => struct_str_exp(page, out, ink, s, sub),
        1 => path(page, out, ink, s),
        2 => ascription_str_exp(page, out, ink, s, sub),
        3 => app_str_exp(page, out, ink, s, sub),
        4 => let_str_exp(page, out, ink, s, sub),
        _ => Err(Stop::Absent(s)),
    }
}

// `StructStrExp`.
#[cycle(walk)]
fn struct_str_exp(page: &Page, out: &mut [u8], ink: &mut Ink, at: usize, cfg: Cfg) -> Status
    requires { cfg.depth + 2 * cfg.nesting + 2 ≤ 402 }
    ensures { does (λ ws c. str_exp· ws c StructStrExp) page out ink at cfg result }
{
    ink.put(out, b"struct\n");
    indent_deeper(out, ink, cfg);
    let wide = Cfg {
        depth: cfg.depth,
        blank: true,
        nesting: cfg.nesting,
    };
    let new = wide.indented();
    let s1 = get_dec(page, out, ink, at, new)?;
    line(out, ink, cfg);
    ink.put(out, b"end");
    Ok(s1)
}

// `AscriptionStrExp`.
#[cycle(walk)]
fn ascription_str_exp(page: &Page, out: &mut [u8], ink: &mut Ink, at: usize, cfg: Cfg) -> Status
    requires { cfg.depth + 2 * cfg.nesting + 2 ≤ 402 }
    ensures { does (λ ws c. str_exp· ws c AscriptionStrExp) page out ink at cfg result }
{
    let s1 = get_str_exp(page, out, ink, at, cfg)?;
    ascription_tail(page, out, ink, s1, cfg)
}

// An ascription.
#[cycle(walk)]
fn ascription_tail(page: &Page, out: &mut [u8], ink: &mut Ink, at: usize, cfg: Cfg) -> Status
    requires { cfg.depth + 2 * cfg.nesting + 2 ≤ 402 }
    ensures { does ascription_tail· page out ink at cfg result }
{
    let s1 = group(page, at)?;
    ink.put(out, b" ");
    let s2 = text_of(page, out, ink, s1)?;
    ink.put(out, b" ");
    get_sig_exp(page, out, ink, s2, cfg)
}

// An ascription, where there is one.
#[cycle(walk)]
fn ascription(page: &Page, out: &mut [u8], ink: &mut Ink, at: usize, cfg: Cfg) -> Status
    requires { cfg.depth + 2 * cfg.nesting + 2 ≤ 402 }
    ensures { does (λ ws c. maybe (ascription_tail· ws c)) page out ink at cfg result }
{
    if let Some(s0) = absent(page, at) {
        return Ok(s0);
    }
    ascription_tail(page, out, ink, at, cfg)
}

// `AppStrExp`: the closing parenthesis is indented where an argument was a Dec.
// A loop of its own: a flag goes from argument to argument.
#[cycle(walk)]
fn app_str_exp(page: &Page, out: &mut [u8], ink: &mut Ink, at: usize, cfg: Cfg) -> Status
    requires { cfg.depth + 2 * cfg.nesting + 2 ≤ 402 }
    ensures { does (λ ws c. str_exp· ws c AppStrExp) page out ink at cfg result }
{
    let s1 = text_of(page, out, ink, at)?;
    ink.put(out, b" (");
    let (n, mut s) = list(page, s1)?;
    let mut needs = false;
    for i in 0..n {
        let (k, inside) = choice(page, s)?;
        s = app_arg(page, out, ink, inside, cfg, k)?;
        needs = later_needs(needs, k);
    }
    app_end(out, ink, cfg, needs);
    Ok(s)
}

// An argument of `AppStrExp`, by its number.
#[cycle(walk)]
fn app_arg(page: &Page, out: &mut [u8], ink: &mut Ink, at: usize, cfg: Cfg, which: usize) -> Status
    requires { cfg.depth + 2 * cfg.nesting + 2 ≤ 402 }
    ensures { does (λ ws c. app_arg· ws c which) page out ink at cfg result }
{
    match which {
        0 => get_str_exp(page, out, ink, at, cfg),
        1 => dec_arg(page, out, ink, at, cfg),
        _ => Err(Stop::Absent(at)),
    }
}

// `LetStrExp`.
#[cycle(walk)]
fn let_str_exp(page: &Page, out: &mut [u8], ink: &mut Ink, at: usize, cfg: Cfg) -> Status
    requires { cfg.depth + 2 * cfg.nesting + 2 ≤ 402 }
    ensures { does (λ ws c. str_exp· ws c LetStrExp) page out ink at cfg result }
{
    ink.put(out, b"let");
    ink.put(out, b"\n");
    indent_deeper(out, ink, cfg);
    let new = cfg.indented();
    let s1 = get_dec(page, out, ink, at, new)?;
    line(out, ink, cfg);
    ink.put(out, b"in\n");
    indent(out, ink, new);
    let s2 = get_str_exp(page, out, ink, s1, new)?;
    line(out, ink, cfg);
    ink.put(out, b"end");
    Ok(s2)
}

// ---- signatures
// `get_sig_exp`.
#[cycle(walk)]
fn get_sig_exp(page: &Page, out: &mut [u8], ink: &mut Ink, at: usize, cfg: Cfg) -> Status
    requires { cfg.depth + 2 * cfg.nesting + 0 ≤ 402 }
    ensures { does (λ ws c. ws.get_sig_exp c) page out ink at cfg result }
{
    if cfg.nesting == 0 {
        return Err(Stop::Absent(at));
    }
    let (k, s) = form(page, at, Family::SigExp)?;
    let sub = Cfg {
        nesting: cfg.nesting - 1,
        ..cfg
    };
    match k {
        0 => sig_sig_exp(page, out, ink, s, sub),
        1 => text_of(page, out, ink, s),
        2 => where_type_sig_exp(page, out, ink, s, sub),
        3 => where_sig_exp(page, out, ink, s, sub),
        _ => Err(Stop::Absent(s)),
    }
}

// `SigSigExp`.
#[cycle(walk)]
fn sig_sig_exp(page: &Page, out: &mut [u8], ink: &mut Ink, at: usize, cfg: Cfg) -> Status
    requires { cfg.depth + 2 * cfg.nesting + 2 ≤ 402 }
    ensures { does (λ ws c. sig_exp· ws c SigSigExp) page out ink at cfg result }
{
    ink.put(out, b"sig\n");
    indent_deeper(out, ink, cfg);
    let new = cfg.indented();
    let s1 = get_dec(page, out, ink, at, new)?;
    line(out, ink, cfg);
    ink.put(out, b"end");
    Ok(s1)
}

// `WhereTypeSigExp`.
#[cycle(walk)]
fn where_type_sig_exp(page: &Page, out: &mut [u8], ink: &mut Ink, at: usize, cfg: Cfg) -> Status
    requires { cfg.depth + 2 * cfg.nesting + 2 ≤ 402 }
    ensures { does (λ ws c. sig_exp· ws c WhereTypeSigExp) page out ink at cfg result }
{
    let s1 = get_sig_exp(page, out, ink, at, cfg)?;
    ink.put(out, b" where type ");
    let s2 = ty_var_seq(page, out, ink, s1)?;
    let s3 = path(page, out, ink, s2)?;
    ink.put(out, b" = ");
    get_ty(page, out, ink, s3, cfg)
}

// `WhereSigExp`.
#[cycle(walk)]
fn where_sig_exp(page: &Page, out: &mut [u8], ink: &mut Ink, at: usize, cfg: Cfg) -> Status
    requires { cfg.depth + 2 * cfg.nesting + 2 ≤ 402 }
    ensures { does (λ ws c. sig_exp· ws c WhereSigExp) page out ink at cfg result }
{
    let s1 = get_sig_exp(page, out, ink, at, cfg)?;
    ink.put(out, b" where ");
    let s2 = path(page, out, ink, s1)?;
    ink.put(out, b" = ");
    path(page, out, ink, s2)
}

// ---- the walk over a sheet
// `get_dec` of `root.decs()`, which stands at an offset in the record.
pub fn walk(page: &Page, out: &mut [u8], ink: &mut Ink, tree: usize) -> Status
    ensures { walked (get_dec· (walks max_forms) top) page out ink tree result }
{
    let cfg = Cfg {
        depth: 0,
        blank: true,
        nesting: 200,
    };
    get_dec(page, out, ink, tree, cfg)
}
