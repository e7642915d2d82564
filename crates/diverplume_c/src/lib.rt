// The exports of the archive that Rust and C link: each is the call of that name of diverplume.
#![tactic(auto)]

ghost use Rattle.std.specs.Prelude.{◌≡◌};
ghost use Rattle.formatter.specs.Lookup.{lookup};
ghost use Rattle.formatter.specs.Verdict.{check};
ghost use Rattle.diverplume.specs.Numbers.{comment_numbers, verdict_numbers, DocOut, GetOut, ScanOut};

// Whether the sheet can be formatted: number, place, deepest, letters, units, then the words of the comments left.
#[unsafe(no_mangle)]
pub extern "C" fn diverplume_check(text: &[u8], rec: &[u8], verdict: &mut [u64; 69])
    ensures { verdict.new ≡ verdict_numbers (check text.now rec.now) }
{
    diverplume::diverplume_check(text, rec, verdict);
}

// Formats the sheet at a tab size into the output's first bytes: the verdict's numbers as for `diverplume_check`.
#[unsafe(no_mangle)]
pub extern "C" fn diverplume_get(
    text: &[u8],
    rec: &[u8],
    tab: u32,
    out: &mut [u8],
    verdict: &mut [u64; 69],
)
    ensures { GetOut text.now rec.now tab out.old out.new verdict.new }
{
    diverplume::diverplume_get(text, rec, tab, out, verdict);
}

// The comment above a token: number, place, the token numbers of the comment and of the keyword that the search passed.
#[unsafe(no_mangle)]
pub extern "C" fn diverplume_comment_above(
    text: &[u8],
    rec: &[u8],
    token: u64,
    answer: &mut [u64; 4],
)
    ensures { answer.new ≡ comment_numbers (lookup text.now rec.now token) }
{
    diverplume::diverplume_comment_above(text, rec, token, answer);
}

// The doc comment above a token, into the output's first bytes: number, place, the length written.
#[unsafe(no_mangle)]
pub extern "C" fn diverplume_doc_comment_above(
    text: &[u8],
    rec: &[u8],
    token: u64,
    out: &mut [u8],
    answer: &mut [u64; 3],
)
    ensures { DocOut text.now rec.now token out.old out.new answer.new }
{
    diverplume::diverplume_doc_comment_above(text, rec, token, out, answer);
}

// The tokens of a text as commands of a record, into the output's first bytes: number, place, the bytes written.
#[unsafe(no_mangle)]
pub extern "C" fn diverplume_scan(text: &[u8], out: &mut [u8], answer: &mut [u64; 3])
    ensures { ScanOut text.now out.old out.new answer.new }
{
    diverplume::diverplume_scan(text, out, answer);
}
