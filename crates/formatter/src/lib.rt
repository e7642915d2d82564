// The public calls `check`, `get` and the lookup `comment_above` (document 01, module 6).
#![tactic(auto)]

ghost use Rattle.std.specs.Prelude.{◌≡◌, ◌*◌, ◌≤◌, Err};
ghost use Rattle.reader.specs.Check.{tree_check};
ghost use Rattle.reader.specs.Tokens.{count_of};
ghost use Rattle.layout.specs.Promises.Lent.{page_in};
ghost use Rattle.formatter.specs.declared.FormatError.TheVariants.{Refused};
ghost use Rattle.formatter.specs.declared.LookupError.TheVariants.{Refused as NotRead};
ghost use Rattle.formatter.specs.Lookup.{number_of as lookup_number, place_of as lookup_place, looked_of, lookup};
ghost use Rattle.formatter.specs.Promises.Lookup.{Asks};
ghost use Rattle.formatter.specs.Verdict.{number_of, place_of, given_measures, declined, empty_set, verdict_of, check as check·, get as get·};
ghost use Rattle.formatter.specs.Promises.WalkFirst.{by_check};
ghost use Rattle.formatter.specs.Promises.Judging.{otherwise, page_of, BehindCommand, BehindWhere, Limits, Weighs, Drafted, Judges, Puts};

use comments::{Above, Set};
use layout::{Ink, Page, Status, Stop};
use reader::tokens::{Tokens, read_tokens};
use reader::tree::tree_end;
use reader::{Refusal, check_text};
use text::copy;

// Deepest, letters and units of a walk (document 01, module 5).
#[derive(Clone, Copy, Debug, PartialEq, Eq)]
pub struct Measures {
    pub deepest: u64,
    pub letters: u64,
    pub units: u64,
}

// Why `check` or `get` refuses a sheet. The set of comments left stands beside it.
#[derive(Clone, Copy, Debug, PartialEq, Eq)]
pub enum FormatError {
    // The sheet cannot be read.
    Refused(Refusal),
    // The walk stops: the offset in the record of the part that is absent, or of the import's command.
    Stopped(Stop),
    // The offset in the text of the first comment left.
    CommentsLeft(usize),
    // Deepest × tab size is over 4,294,967,295.
    IndentTooWide(Measures),
    // The output is shorter than the formatted text.
    OutputTooShort(Measures),
}

impl FormatError {
    // The number of the documents.
    pub fn number(self) -> u64
        ensures { result ≡ number_of self }
    {
        match self {
            FormatError::Refused(why) => why.number(),
            FormatError::Stopped(Stop::Absent(_)) => 13,
            FormatError::Stopped(Stop::Import(_)) => 14,
            FormatError::CommentsLeft(_) => 6,
            FormatError::IndentTooWide(_) => 7,
            FormatError::OutputTooShort(_) => 8,
        }
    }

    // The place.
    pub fn place(self) -> usize
        ensures { result ≡ place_of self }
    {
        match self {
            FormatError::Refused(why) => why.place(),
            FormatError::Stopped(Stop::Absent(place) | Stop::Import(place))
            | FormatError::CommentsLeft(place) => place,
            FormatError::IndentTooWide(_) | FormatError::OutputTooShort(_) => 0,
        }
    }

    // The measures; all 0 where it gives none.
    pub fn measures(self) -> Measures
        ensures { result ≡ given_measures self }
    {
        match self {
            FormatError::IndentTooWide(measures) | FormatError::OutputTooShort(measures) => {
                measures
            }
            FormatError::Refused(_) | FormatError::Stopped(_) | FormatError::CommentsLeft(_) => {
                Measures {
                    deepest: 0,
                    letters: 0,
                    units: 0,
                }
            }
        }
    }
}

impl From<Refusal> for FormatError {
    ghost from_gives = { λ why e. e ≡ Refused why };

    fn from(why: Refusal) -> FormatError {
        FormatError::Refused(why)
    }
}

// ---- check and get
const MAX_WIDTH: u64 = 0xFFFF_FFFF;

// Drafts: a record takes the first that is as long as it is. A text that is as long as its draft is written in one walk.
const SHORT_DRAFT: usize = 4096;

const MIDDLE_DRAFT: usize = 16384;

const DRAFT: usize = 65536;

// A declaration's command, with its operand.
const DECLARATION: usize = 3;

// The page of a text and a record with its tokens.
fn page_of<'a>(text: &'a [u8], rec: &'a [u8], tokens: &'a Tokens) -> Page<'a>
    ensures { page_in result ≡ page_of text.now rec.now tokens.now }
{
    Page {
        text,
        rec,
        kinds: tokens.kinds(),
        spans: tokens.spans(),
    }
}

// What the sheet alone decides: where in the record the list of declarations starts, and the measures of the walk.
#[derive(Clone, Copy)]
struct Judged {
    tree: usize,
    measures: Measures,
}

// 13 and 14, by the answer of a walk over a record that passes the check. An import stops it behind its command.
// One that ended elsewhere than at the record's end left bytes over, which no record that passes has.
fn stop(walked: Status) -> FormatError
    requires { BehindCommand walked }
    ensures { verdict_of (Err result) empty_set ≡ otherwise walked }
{
    match walked {
        Ok(end) => FormatError::Refused(Refusal::Malformed(end)),
        Err(why) => match why {
            Stop::Absent(place) => FormatError::Stopped(Stop::Absent(place)),
            Stop::Import(next) => FormatError::Stopped(Stop::Import(next - DECLARATION)),
        },
    }
}

// 3 and 4 of a record whose walk did not end at its end; where the check passes, 13 and 14.
fn by_check(page: &Page, tree: usize, walked: Status) -> FormatError
    requires { BehindWhere (tree_check page.now.rec.now (count_of (page_in page.now).tokens) tree) walked }
    ensures { declined (verdict_of (Err result) empty_set)
        ≡ by_check (otherwise walked) (tree_check page.now.rec.now (count_of (page_in page.now).tokens) tree) }
{
    match tree_end(page.rec, page.count(), tree) {
        Ok(_) => stop(walked),
        Err(why) => FormatError::Refused(why),
    }
}

// 3, 4, 13, 14 and 6 of a sheet that is read to its tokens: the walk at a tab size over a draft of the output.
// The set becomes that of the comments left.
fn weigh(
    page: &Page,
    tree: usize,
    tab: u32,
    draft: &mut [u8],
    left: &mut Set,
) -> Result<Measures, FormatError>
    requires limits { Limits (page_in page.now) }
    requires none_left { left.old.words ≡ empty_set }
    ensures { Weighs (page_in page.now) tree tab draft.new left.new.words result }
{
    let mut ink = Ink {
        position: 0,
        units: 0,
        deepest: 0,
        tab: tab as u64,
        left: Set::all(page.kinds),
    };
    let walked = walk::walk(page, draft, &mut ink, tree);
    match walked {
        Ok(end) if end == page.rec.len() => {}
        _ => return Err(by_check(page, tree, walked)),
    }
    *left = ink.left;
    if ink.left.is_empty() {
        return Ok(Measures {
            deepest: ink.deepest,
            letters: ink.letters(),
            units: ink.units,
        });
    }
    let Some(k) = ink.left.first() else {
        unreachable!();
    };
    Err(FormatError::CommentsLeft(page.span(k).start as usize))
}

// 1 to 4, 13, 14 and 6. The record check is run only where the walk did not end at the record's end.
// The set becomes that of the comments left, which are none but for 6.
fn judge(
    text: &[u8],
    rec: &[u8],
    tokens: &mut Tokens,
    tab: u32,
    draft: &mut [u8],
    left: &mut Set,
) -> Result<Judged, FormatError>
    ensures { Judges text.now rec.now tokens.new tab draft.new left.new.words result }
{
    *left = Set::new();
    check_text(text, rec)?;
    let tree = read_tokens(text, text.len() as u16, rec, tokens)?;
    let measures = weigh(&page_of(text, rec, tokens), tree, tab, draft, left)?;
    Ok(Judged { tree, measures })
}

// Whether the sheet can be formatted. The set becomes that of the comments left, which are none but for 6.
pub fn check(text: &[u8], rec: &[u8], left: &mut Set) -> Result<Measures, FormatError>
    ensures { verdict_of result left.new.words ≡ check· text.now rec.now }
{
    let judged = judge(text, rec, &mut Tokens::new(), 0, &mut [], left)?;
    Ok(judged.measures)
}

// A measure times the tab size.
fn scaled(n: u64, tab: u32) -> u64
    requires { n ≤ 0x4000_0000 }
    ensures { (result ≡ n * tab) × (result ≤ 0x3FFF_FFFF_C000_0000) }
{
    n * u64::from(tab)
}

// 7, then 8; or the formatted text in the output's first bytes: from the draft, or by a second walk where it is longer.
fn put(
    page: &Page,
    judged: Judged,
    tab: u32,
    draft: &[u8],
    out: &mut [u8],
) -> Result<Measures, FormatError>
    requires { Drafted (page_in page.now) judged tab draft.now }
    ensures { Puts (page_in page.now) judged.tree tab out.old result out.new }
{
    let measures = judged.measures;
    if MAX_WIDTH < scaled(measures.deepest, tab) {
        return Err(FormatError::IndentTooWide(measures));
    }
    let size = measures.letters + scaled(measures.units, tab);
    if (out.len() as u64) < size {
        return Err(FormatError::OutputTooShort(measures));
    }
    if size <= draft.len() as u64 {
        copy(out, 0, &draft[..size as usize]);
        return Ok(measures);
    }
    let mut ink = Ink {
        position: 0,
        units: 0,
        deepest: 0,
        tab: tab as u64,
        left: Set::new(),
    };
    let _walked = walk::walk(page, out, &mut ink, judged.tree);
    Ok(measures)
}

// Formats the sheet at a tab size over a draft of N bytes.
fn drafted<const N: usize>(
    text: &[u8],
    rec: &[u8],
    tab: u32,
    out: &mut [u8],
    left: &mut Set,
) -> Result<Measures, FormatError>
    requires { N ≤ 0x1_0000 }
    ensures { record { verdict = verdict_of result left.new.words; out = out.new }
        ≡ get· text.now rec.now tab out.old }
{
    let mut tokens = Tokens::new();
    let mut draft = [0; N];
    let judged = judge(text, rec, &mut tokens, tab, &mut draft, left)?;
    put(&page_of(text, rec, &tokens), judged, tab, &draft, out)
}

// Formats the sheet at a tab size into the output's first bytes; at an error the output is as it was.
// The set becomes that of the comments left, which are none but for 6.
pub fn get(
    text: &[u8],
    rec: &[u8],
    tab: u32,
    out: &mut [u8],
    left: &mut Set,
) -> Result<Measures, FormatError>
    ensures { record { verdict = verdict_of result left.new.words; out = out.new }
        ≡ get· text.now rec.now tab out.old }
{
    match rec.len() {
        0..=SHORT_DRAFT => drafted::<SHORT_DRAFT>(text, rec, tab, out, left),
        ..=MIDDLE_DRAFT => drafted::<MIDDLE_DRAFT>(text, rec, tab, out, left),
        _ => drafted::<DRAFT>(text, rec, tab, out, left),
    }
}

// ---- lookups
// Why a lookup looks for nothing.
#[derive(Clone, Copy, Debug, PartialEq, Eq)]
pub enum LookupError {
    // The sheet cannot be read.
    Refused(Refusal),
    // The token number is not below the count.
    NoToken,
}

impl LookupError {
    // The number of the documents.
    pub fn number(self) -> u64
        ensures { result ≡ lookup_number self }
    {
        match self {
            LookupError::Refused(why) => why.number(),
            LookupError::NoToken => 9,
        }
    }

    // The place.
    pub fn place(self) -> usize
        ensures { result ≡ lookup_place self }
    {
        match self {
            LookupError::Refused(why) => why.place(),
            LookupError::NoToken => 0,
        }
    }
}

impl From<Refusal> for LookupError {
    ghost from_gives = { λ why e. e ≡ NotRead why };

    fn from(why: Refusal) -> LookupError {
        LookupError::Refused(why)
    }
}

// Refusals 1 to 4, then 9; or the tokens.
pub fn ask(text: &[u8], rec: &[u8], token: usize, tokens: &mut Tokens) -> Result<(), LookupError>
    ensures { Asks text.now rec.now token tokens.new result }
{
    reader::check(text, rec, tokens)?;
    if token < tokens.count() {
        Ok(())
    } else {
        Err(LookupError::NoToken)
    }
}

// The comment above a token, and the keyword that the search passed.
pub fn comment_above(text: &[u8], rec: &[u8], token: usize) -> Result<Option<Above>, LookupError>
    ensures { looked_of result ≡ lookup text.now rec.now token }
{
    let mut tokens = Tokens::new();
    ask(text, rec, token, &mut tokens)?;
    Ok(comments::comment_above(tokens.kinds(), token))
}
