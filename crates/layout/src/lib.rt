// Layouts: what the walk's functions are made of. Writing into a lent output what fits and counting it in any case,
// and reading the fields of a record (document 01, module 5).
#![tactic(auto)]

pub mod fields; // fields.rt: the fields of a record, each read at the cursor
pub mod names; // names.rt: the first name of a path
pub mod looks; // looks.rt: questions about the form at the cursor and about a token's text
pub mod items; // items.rt: the items of a list, one behind another
pub mod helpers; // helpers.rt: helpers of 000 that serve more than one family

ghost use Rattle.std.specs.Prelude.{◌≡◌, ℕ, ◌+◌, ◌≤◌, max, get_or};
ghost use Rattle.reader.specs.Tokens.{count_of};
ghost use Rattle.layout.specs.Layout.{output_indent, formed};
ghost use Rattle.layout.specs.Meaning.{token_text};
ghost use Rattle.layout.specs.Promises.Lent.{page_in, puts, writes, forms, strikes_comment, writes_token};
ghost use Rattle.layout.specs.Promises.State.{sum_of, width_of, struck, placed, spaced, piece_of, Deeper};

use comments::{Set, cleared};
use reader::tokens::Span;
use text::at::part;
use text::trim;

// What a walk reads: a text, its record, the record's tokens by their kinds and their spans, of any number.
#[derive(Clone, Copy)]
pub struct Page<'a> {
    pub text: &'a [u8],
    pub rec: &'a [u8],
    pub kinds: &'a [u8],
    pub spans: &'a [Span],
}

impl<'a> Page<'a> {
    // How many tokens there are.
    pub fn count(&self) -> usize
        ensures { result ≡ count_of (page_in self.now).tokens }
    {
        self.spans.len()
    }

    // Where a token stands, by number; at 0, with no length, past the last.
    pub fn span(&self, k: usize) -> Span
        ensures { (result.start ≡ get_or (page_in self.now).tokens.starts k 0)
            × (result.len ≡ get_or (page_in self.now).tokens.lengths k 0) }
    {
        if k < self.spans.len() {
            self.spans[k]
        } else {
            Span { start: 0, len: 0 }
        }
    }

    // The text of a token; none past the last.
    #[tactic(auto, unfolding(crate::specs::Meaning::token_text, reader::specs::Tokens::text_of))]
    pub fn text_of(&self, k: usize) -> &'a [u8]
        ensures { result.now ≡ token_text (page_in self.now) k }
    {
        let span = self.span(k);
        let which = Piece::Text(span.start as usize, span.len as usize);
        piece_of(b"", self.text, which)
    }
}

// Where a piece to write stands: in a run of fixed words or in the text, from an offset on and of a length.
#[derive(Clone, Copy, Debug, PartialEq, Eq)]
pub enum Piece {
    Word(usize, usize),
    Text(usize, usize),
}

// The piece, as a part of one of the two runs lent.
pub fn piece_of<'a>(run: &'a [u8], text: &'a [u8], which: Piece) -> &'a [u8]
    ensures { result.now ≡ piece_of run.now text.now which }
{
    match which {
        Piece::Word(a, n) => part(run, a, n),
        Piece::Text(a, n) => part(text, a, n),
    }
}

// Why a walk stops.
#[derive(Clone, Copy, Debug, PartialEq, Eq)]
pub enum Stop {
    // The offset in the record of the part that is absent.
    Absent(usize),
    // The offset in the record behind the command of an import.
    Import(usize),
}

// The answer of a walk: the cursor behind what was read, or a stop.
pub type Status = Result<usize, Stop>;

// `Cfg` of 000, with the depth in place of the indent's width, and how many forms may still stand inside one another.
// Bounds on depth and nesting are facts of a call: an arm goes one deeper before it enters a form. So they are no invariant.
#[derive(Clone, Copy)]
pub struct Cfg {
    pub depth: u64,
    pub blank: bool,
    pub nesting: u64,
}

impl Cfg {
    // The configuration one deeper.
    pub fn indented(self) -> Cfg
        requires { self.depth + 1 ≤ 1000 }
        ensures { Deeper self result }
    {
        Cfg {
            depth: self.depth + 1,
            ..self
        }
    }
}

// What a walk has written beside the output: the offset where the next byte goes, units and deepest of its measures, and the
// comments left; with the tab size.
// The output is lent beside it: of a `&mut` in a struct that is lent itself, a contract cannot say what it refers to at the exit.
#[derive(Clone, Copy)]
pub struct Ink {
    pub position: u64,
    pub units: u64,
    pub deepest: u64,
    pub tab: u64,
    pub left: Set,
}

// The width of indents, by the sum of their depths. Of each the lower 32 bits count.
fn width(tab: u64, units: u64) -> u64
    ensures { result ≡ width_of tab units }
{
    (tab % 0x1_0000_0000) * (units % 0x1_0000_0000)
}

// Copies a piece into the output at an offset, where it fits.
fn copy_in(out: &mut [u8], at: u64, piece: &[u8])
    ensures { out.new ≡ placed out.old at piece.now }
{
    let n = out.len() as u64;
    if at <= n && piece.len() as u64 <= n - at {
        text::copy(out, at as usize, piece);
    }
}

// Spaces from an offset to another, where they fit.
fn space(out: &mut [u8], at: u64, end: u64)
    ensures { out.new ≡ spaced out.old at end }
{
    if at <= end && end <= out.len() as u64 {
        out[at as usize..end as usize].fill(b' ');
    }
}

impl Ink {
    // The letters of what was written: all but the indents.
    pub fn letters(&self) -> u64
        ensures { sum_of result (width_of self.now.tab self.now.units) ≡ self.now.position }
    {
        self.position.wrapping_sub(width(self.tab, self.units))
    }

    // Writes a piece.
    fn write(&mut self, out: &mut [u8], piece: &[u8])
        ensures { puts piece out self }
    {
        copy_in(out, self.position, piece);
        self.position = self.position.wrapping_add(piece.len() as u64);
    }

    // Writes a fixed word.
    pub fn put(&mut self, out: &mut [u8], word: &[u8])
        ensures { puts word out self }
    {
        self.write(out, piece_of(word, b"", Piece::Word(0, word.len())));
    }

    // Writes an indent at a depth.
    pub fn indent(&mut self, out: &mut [u8], depth: u64)
        ensures { writes (output_indent depth) out self }
    {
        let end = self.position.wrapping_add(width(self.tab, depth));
        space(out, self.position, end);
        self.position = end;
        self.units = self.units.wrapping_add(depth);
    }

    // A depth that `indented` forms.
    pub fn formed(&mut self, depth: u64)
        ensures { forms (formed depth) self }
    {
        self.deepest = self.deepest.max(depth);
    }

    // Writes the text of a token, by number.
    pub fn token(&mut self, page: &Page, out: &mut [u8], k: usize)
        ensures { writes_token page out self k }
    {
        self.write(out, page.text_of(k));
    }

    // Strikes a token out of the comments left, in its word: `Set::without` would copy the set, in a frame of each declaration.
    fn strike(&mut self, k: usize)
        ensures { self.new ≡ struck k self.old }
    {
        let w = k / 64;
        if w < 64 {
            self.left.words[w] = cleared(self.left.words[w], k % 64);
        }
    }

    // Writes the trimmed text of a comment, by number; it is then not left any more.
    pub fn comment(&mut self, page: &Page, out: &mut [u8], k: usize)
        ensures { strikes_comment page out self k }
    {
        self.strike(k);
        self.write(out, trim(page.text_of(k)));
    }
}
