// What stands at an offset of a run of bytes: one byte, two as a number, a part.
ghost use Rattle.std.specs.Prelude.{◌≡◌, ◌+◌, ◌*◌, ◌<◌, get_or, take, drop};
ghost use Rattle.text.specs.At.{u16};

// The byte at the offset, 0 past the end.
pub fn byte_at(s: &[u8], at: usize) -> u8
    ensures { result ≡ get_or s.now at 0 }
{
    s.get(at).copied().unwrap_or(0)
}

// The number of two bytes.
pub fn two(low: u8, high: u8) -> usize
    ensures value { result ≡ low + 256 * high }
    ensures upper_bound { result < 65536 }
{
    low as usize + 256 * (high as usize)
}

// The u16 at the offset; a byte past the end counts 0.
pub fn u16_at(s: &[u8], at: usize) -> usize
    ensures { result ≡ u16 s.now at }
{
    if at < s.len() {
        return two(byte_at(s, at), byte_at(s, at + 1));
    }
    0
}

// n bytes from an offset on, as far as they are there.
pub fn part(s: &[u8], at: usize, n: usize) -> &[u8]
    ensures { result.now ≡ take n (drop at s.now) }
{
    let rest = &s[at.min(s.len())..];
    &rest[..n.min(rest.len())]
}
