// The program of document 01: a sheet from standard input, its verdict and its formatted text to standard output.
#![tactic(auto)]

use input::read_full;
use std::io;
use std::io::Write;

// The input within the limits has at most 6 + 32,768 + 65,536 bytes; with a byte more, what does not fit changes
// nothing (`first_bytes_suffice`). `read_full` reads on until the buffer is full or the input ends.
fn main(rt: HostRuntime) -> io::Result<()> {
    let mut input = [0u8; 98311];
    let n = read_full(&mut rt.stdin(), &mut input)?;
    let mut out = [0u8; 65641];
    let k = program::process(&input[..n], &mut out);
    rt.stdout().write_all(&out[..k])
}
