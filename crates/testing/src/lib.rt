// Calls for the tests of reference/, in an archive of their own: the record check, the tables, the ends of fields.
#![tactic(auto)]

ghost use Rattle.std.specs.Prelude.{◌≡◌, ◌≤◌, length};
ghost use Rattle.text.specs.Bytes.{is_letter, is_digit, class_table};
ghost use Rattle.reader.specs.Fields.{form, Exp, Ty};
ghost use Rattle.reader.specs.Check.{field_end};
ghost use Rattle.testing.specs.Numbers.{ended, start_of, length_of, Packs, table_in, ReadOut, end_numbers};

use reader::Refusal;
use reader::tokens::{MAX_TOKENS, Span, Tokens};

// The end of a field, or number and place of the refusal.
fn end_numbers(found: Result<usize, Refusal>) -> [u64; 2]
    ensures { result ≡ ended found }
{
    match found {
        Ok(end) => [0, end as u64],
        Err(why) => [why.number(), why.place() as u64],
    }
}

// A token's start and its length in one number: 65,536 × start + length.
// C's tables are arrays of numbers.
fn packed(span: Span) -> u32
    ensures { (start_of result ≡ span.start) × (length_of result ≡ span.len) }
{
    65536 * u32::from(span.start) + u32::from(span.len)
}

// Copies spans to the front of a table.
fn put_spans(spans: &[Span], table: &mut [u32; MAX_TOKENS])
    requires { length spans.now ≤ 4096 }
    ensures { Packs spans.now (length spans.now) table.new }
{
    for (k, span) in spans.iter().enumerate() {
        table[k] = packed(*span);
    }
}

// Copies the tokens to the front of the tables.
fn put_tokens(tokens: &Tokens, kinds: &mut [u8; MAX_TOKENS], spans: &mut [u32; MAX_TOKENS])
    ensures { table_in tokens.now kinds.new spans.new ≡ tokens.now }
{
    kinds[..tokens.count()].copy_from_slice(tokens.kinds());
    put_spans(tokens.spans(), spans);
}

// Number and place of refusals 1 to 4, the number of tokens, where the list of declarations starts; the tables.
#[unsafe(no_mangle)]
pub extern "C" fn diverplume_test_read(
    text: &[u8],
    rec: &[u8],
    answer: &mut [u64; 4],
    kinds: &mut [u8; 4096],
    spans: &mut [u32; 4096],
)
    ensures { ReadOut text.now rec.now answer.new kinds.new spans.new }
{
    let mut tokens = Tokens::new();
    match reader::check(text, rec, &mut tokens) {
        Ok(tree) => {
            *answer = [0, 0, tokens.count() as u64, tree as u64];
            put_tokens(&tokens, kinds, spans);
        }
        Err(why) => *answer = [why.number(), why.place() as u64, 0, 0],
    }
}

// The table of letters and digits.
#[unsafe(no_mangle)]
pub extern "C" fn diverplume_test_classes(table: &mut [u8; 256])
    ensures { table.new ≡ class_table }
{
    *table = text::classes();
}

// Whether a byte is an ASCII letter.
#[unsafe(no_mangle)]
pub extern "C" fn diverplume_test_is_letter(byte: u8) -> bool
    ensures { result ≡ is_letter byte }
{
    text::is_letter(byte)
}

// Whether a byte is an ASCII digit.
#[unsafe(no_mangle)]
pub extern "C" fn diverplume_test_is_digit(byte: u8) -> bool
    ensures { result ≡ is_digit byte }
{
    text::is_digit(byte)
}

// The end of an expression's field, read by itself, or the refusal.
#[unsafe(no_mangle)]
pub extern "C" fn diverplume_test_exp_end(rec: &[u8], count: u64, at: u64, answer: &mut [u64; 2])
    ensures { answer.new ≡ end_numbers (field_end rec.now count (form Exp) at) }
{
    *answer = end_numbers(reader::tree::exp_end(rec, count as usize, at as usize));
}

// The end of a type's field, read by itself, or the refusal.
#[unsafe(no_mangle)]
pub extern "C" fn diverplume_test_ty_end(rec: &[u8], count: u64, at: u64, answer: &mut [u64; 2])
    ensures { answer.new ≡ end_numbers (field_end rec.now count (form Ty) at) }
{
    *answer = end_numbers(reader::tree::ty_end(rec, count as usize, at as usize));
}
