// The program's work, from input bytes to printed bytes (document 01, above its modules).
#![tactic(auto)]

ghost use Rattle.std.specs.Prelude.{◌≡◌, [], ◌∷◌, ◌++◌, ◌+◌, ◌≤◌, length};
ghost use Rattle.formatter.specs.Verdict.{verdict};
ghost use Rattle.program.specs.Program.{decimal, tab_size, text_length, program};
ghost use Rattle.program.specs.Printing.{Prints};
ghost use Rattle.program.specs.Promises.Printing.{max_line, said, said_with, shown, TextWithin, Puts, PutsLine};

use comments::Set;
use formatter::{FormatError, Measures};
use itoa::Buffer;
use reader::Refusal;
use text::at::byte_at;

// ---- the line
// Writes a piece at an offset.
fn put(out: &mut [u8], at: usize, piece: &[u8]) -> usize
    requires { at + length piece.now ≤ length out.old }
    ensures { Puts out.old at piece.now out.new result }
{
    let end = at + piece.len();
    out[at..end].copy_from_slice(piece);
    end
}

// Writes a number in decimal and the byte behind it.
// Into the lent output, because there is no heap.
fn put_number(out: &mut [u8], at: usize, n: u64, end: u8) -> usize
    requires { at + 21 ≤ length out.old }
    ensures puts { Puts out.old at (decimal n ++ end ∷ []) out.new result }
    ensures upper_bound { result ≤ at + 21 }
{
    let mut buffer = Buffer::new();
    let next = put(out, at, buffer.format(n).as_bytes());
    put(out, next, &[end])
}

// Writes number, place, deepest, letters and units.
fn put_numbers(out: &mut [u8], number: u64, place: usize, measures: Measures) -> usize
    requires { max_line ≤ length out.old }
    ensures { PutsLine out.old (verdict number place measures) out.new result }
{
    let a = put_number(out, 0, number, b' ');
    let b = put_number(out, a, place as u64, b' ');
    let c = put_number(out, b, measures.deepest, b' ');
    let d = put_number(out, c, measures.letters, b' ');
    put_number(out, d, measures.units, b'\n')
}

// Writes the line of an answer.
fn put_line(out: &mut [u8], answer: Result<Measures, FormatError>) -> usize
    requires { max_line ≤ length out.old }
    ensures { PutsLine out.old (said answer) out.new result }
{
    match answer {
        Ok(measures) => put_numbers(out, 0, 0, measures),
        Err(why) => put_numbers(out, why.number(), why.place(), why.measures()),
    }
}

// Writes the line, then the text if accepted.
fn print(out: &mut [u8], answer: Result<Measures, FormatError>, tab: u32, page: &[u8]) -> usize
    requires text_within { TextWithin tab answer page.now }
    requires page_in_bounds { max_line + length page.now ≤ length out.old }
    ensures { Puts out.old 0 (shown tab (said_with answer page.now)) out.new result }
{
    let n = put_line(out, answer);
    let Ok(measures) = answer else {
        return n;
    };
    let len = (measures.letters + u64::from(tab) * measures.units) as usize;
    put(out, n, &page[..len])
}

// ---- the head of the input
// A u32, little-endian.
pub fn tab_size(input: &[u8]) -> u32
    ensures { result ≡ tab_size input.now }
{
    u32::from_le_bytes([
        byte_at(input, 0),
        byte_at(input, 1),
        byte_at(input, 2),
        byte_at(input, 3),
    ])
}

// A u16, little-endian.
fn text_length(input: &[u8]) -> u16
    ensures { result ≡ text_length input.now }
{
    u16::from_le_bytes([byte_at(input, 4), byte_at(input, 5)])
}

// From the bytes of standard input to the bytes printed; the rest of the output stays.
pub fn process(input: &[u8], out: &mut [u8; 65641]) -> usize
    ensures { Prints (program input.now) out.old out.new result }
{
    let n = text_length(input) as usize;
    if input.len() < 6 + n {
        return put_line(out, Err(FormatError::Refused(Refusal::TooLong)));
    }
    let tab = tab_size(input);
    let mut page = [0u8; 65536];
    let mut left = Set::new();
    let (text, rec) = input[6..].split_at(n);
    let answer = formatter::get(text, rec, tab, &mut page, &mut left);
    print(out, answer, tab, &page)
}
