// Helpers of 000 that serve more than one family. A helper has 000's name.
ghost use Rattle.std.specs.Prelude.{◌≡◌, ◌+◌, ◌≤◌};
ghost use Rattle.layout.specs.Layout.{skip, word, text as text·, group as group·, present as present·, is_alphanumeric};
ghost use Rattle.layout.specs.Helpers.{path as path·, in_parens, ty_vars as ty_vars·, ty_var_seq_there as ty_var_seq_there·, ty_var_seq as ty_var_seq·};
ghost use Rattle.layout.specs.Helpers.{when, deepen as deepen·, indent as indent·, indent_deeper as indent_deeper·, op as op·, op_path as op_path·};
ghost use Rattle.layout.specs.DecOne.{comment_line};
ghost use Rattle.layout.specs.Meaning.{name_passes};
ghost use Rattle.layout.specs.Promises.Lent.{page_of, plainly, writes, forms, writes_above, writes_word_if, writes_new_line, SeparatedByLines};
ghost use Rattle.layout.specs.Promises.State.{cfg_of};

use crate::fields::{absent, group, present, token_no};
use crate::items::{joined, sep};
use crate::looks::alphanumeric;
use crate::names::path_name;
use crate::{Cfg, Ink, Page, Status};

// `st.write(x()?.text())`: the text of a token that is there.
pub fn text_of(page: &Page, out: &mut [u8], ink: &mut Ink, at: usize) -> Status
    ensures { plainly text· page out ink at result }
{
    let (k, s) = token_no(page, at)?;
    ink.token(page, out, k);
    Ok(s)
}

// A group that holds a token, whose text is written.
fn grouped_text(page: &Page, out: &mut [u8], ink: &mut Ink, at: usize) -> Status
    ensures { plainly (group· text·) page out ink at result }
{
    let s = group(page, at)?;
    text_of(page, out, ink, s)
}

// `name_star_eq_dots`, with a dot between.
pub fn path(page: &Page, out: &mut [u8], ink: &mut Ink, at: usize) -> Status
    ensures { plainly path· page out ink at result }
{
    let s = group(page, at)?;
    let name = |out: &mut [u8], ink: &mut Ink, at: usize|
        ensures { plainly (group· text·) page out ink at result }
    { grouped_text(page, out, ink, at) };
    sep(page, out, ink, s, b".", name)
}

// ---- words that a token's presence decides
// A fixed word where the token at the cursor is there.
pub fn word_if(page: &Page, out: &mut [u8], ink: &mut Ink, at: usize, fixed: &[u8]) -> Status
    ensures { writes_word_if page out ink at fixed result }
{
    let (there, s) = present(page, at)?;
    if there {
        ink.put(out, fixed);
    }
    Ok(s)
}

// The variables of a sequence, with a comma between.
fn ty_vars(page: &Page, out: &mut [u8], ink: &mut Ink, at: usize) -> Status
    ensures { plainly ty_vars· page out ink at result }
{
    let variable = |out: &mut [u8], ink: &mut Ink, at: usize|
        ensures { plainly (group· text·) page out ink at result }
    { grouped_text(page, out, ink, at) };
    sep(page, out, ink, at, b", ", variable)
}

// The variables, in parentheses where the token at the cursor is there.
fn ty_vars_in_parens(page: &Page, out: &mut [u8], ink: &mut Ink, at: usize) -> Status
    ensures { plainly (in_parens ty_vars·) page out ink at result }
{
    let (there, s) = present(page, at)?;
    if !there {
        return ty_vars(page, out, ink, s);
    }
    ink.put(out, b"(");
    let s = ty_vars(page, out, ink, s)?;
    ink.put(out, b")");
    Ok(s)
}

// A sequence that is there.
fn ty_var_seq_there(page: &Page, out: &mut [u8], ink: &mut Ink, at: usize) -> Status
    ensures { plainly ty_var_seq_there· page out ink at result }
{
    let s = group(page, at)?;
    let s = ty_vars_in_parens(page, out, ink, s)?;
    ink.put(out, b" ");
    Ok(s)
}

// A sequence of type variables, with a space behind it, where there is one.
pub fn ty_var_seq(page: &Page, out: &mut [u8], ink: &mut Ink, at: usize) -> Status
    ensures { plainly ty_var_seq· page out ink at result }
{
    if let Some(s) = absent(page, at) {
        return Ok(s);
    }
    ty_var_seq_there(page, out, ink, at)
}

// ---- lines
// `cfg.output_indent(st)`.
pub fn indent(out: &mut [u8], ink: &mut Ink, cfg: Cfg)
    ensures { writes (indent· (cfg_of cfg)) out ink }
{
    ink.indent(out, cfg.depth);
}

// A line feed and an indent.
pub fn line(out: &mut [u8], ink: &mut Ink, cfg: Cfg)
    ensures { writes (comment_line (cfg_of cfg)) out ink }
{
    ink.put(out, b"\n");
    indent(out, ink, cfg);
}

// The depth that a deeper configuration forms.
pub fn deepen(ink: &mut Ink, cfg: Cfg)
    requires { cfg.depth + 1 ≤ 1000 }
    ensures { forms (deepen· (cfg_of cfg)) ink }
{
    ink.formed(cfg.indented().depth);
}

// An indent one deeper, at a depth that is formed here.
pub fn indent_deeper(out: &mut [u8], ink: &mut Ink, cfg: Cfg)
    requires { cfg.depth + 1 ≤ 1000 }
    ensures { writes (indent_deeper· (cfg_of cfg)) out ink }
{
    deepen(ink, cfg);
    indent(out, ink, cfg.indented());
}

// A blank line where the configuration has them.
fn blank(out: &mut [u8], ink: &mut Ink, cfg: Cfg)
    ensures { writes (when cfg.blank (word "\n")) out ink }
{
    if cfg.blank {
        ink.put(out, b"\n");
    }
}

// What `sep_with_lines` writes before an item that is not the first.
pub fn new_line(out: &mut [u8], ink: &mut Ink, cfg: Cfg, separator: &[u8])
    ensures { writes_new_line cfg out ink separator }
{
    ink.put(out, b"\n");
    blank(out, ink, cfg);
    indent(out, ink, cfg);
    ink.put(out, separator);
}

// The items, with a line between.
pub fn sep_with_lines<F>(
    page: &Page,
    out: &mut [u8],
    ink: &mut Ink,
    at: usize,
    cfg: Cfg,
    separator: &[u8],
    item: F,
) -> Status
where
    F: Fn(&mut [u8], &mut Ink, usize) -> Status,
    requires { F.IsAlwaysCallable item }
    ensures { SeparatedByLines (F.post item) page out ink at cfg separator result }
{
    let between = |out: &mut [u8], ink: &mut Ink|
        ensures { writes_new_line cfg out ink separator }
    { new_line(out, ink, cfg, separator) };
    joined(page, out, ink, at, between, item)
}

// ---- paths behind `op`
// Whether the first name of the path at an offset starts with a letter or a digit.
#[tactic(auto, unfolding(crate::specs::Meaning::name_passes, crate::specs::Promises::Looks::named))]
fn alphanumeric_name(page: &Page, at: usize) -> bool
    ensures { result ≡ name_passes (page_of page) is_alphanumeric at }
{
    match path_name(page, at) {
        Ok(name) => alphanumeric(page, name.token),
        Err(_) => false,
    }
}

// `op` before the path at the cursor.
fn op(page: &Page, out: &mut [u8], ink: &mut Ink, at: usize) -> Status
    ensures { plainly op· page out ink at result }
{
    group(page, at)?;
    ink.put(out, b"op");
    if alphanumeric_name(page, at) {
        ink.put(out, b" ");
    }
    Ok(at)
}

// The field `op_kw`: `op` before the path behind it, where the token is there.
fn op_kw(page: &Page, out: &mut [u8], ink: &mut Ink, at: usize) -> Status
    ensures { plainly (present· op· skip) page out ink at result }
{
    let (there, s) = present(page, at)?;
    if there { op(page, out, ink, s) } else { Ok(s) }
}

// The fields `op_kw` and `path`.
pub fn op_path(page: &Page, out: &mut [u8], ink: &mut Ink, at: usize) -> Status
    ensures { plainly op_path· page out ink at result }
{
    let s = op_kw(page, out, ink, at)?;
    path(page, out, ink, s)
}

// ---- the comment above a declaration
// The comment above the first token, on a line of its own, where both are there.
pub fn comment_above(page: &Page, out: &mut [u8], ink: &mut Ink, cfg: Cfg, first: Option<usize>)
    ensures { writes_above (comment_line (cfg_of cfg)) page out ink first }
{
    let Some(k) = first else {
        return;
    };
    let Some(above) = comments::comment_above(page.kinds, k) else {
        return;
    };
    ink.comment(page, out, above.comment);
    line(out, ink, cfg);
}
