// The layout of a stored call (reference/vectors/README.md). A part that is not there counts as empty, a byte as 0.
ghost use Rattle.std.specs.Prelude.{◌≤◌, length};

use formatter::Measures;

// The call that was stored.
#[derive(Clone, Copy, Debug, PartialEq, Eq)]
pub enum Call {
    Check,
    Get,
    CommentAbove,
    DocCommentAbove,
    Program,
}

impl TryFrom<u8> for Call {
    type Error = u8;

    fn try_from(byte: u8) -> Result<Call, u8> {
        match byte {
            0 => Ok(Call::Check),
            1 => Ok(Call::Get),
            2 => Ok(Call::CommentAbove),
            3 => Ok(Call::DocCommentAbove),
            4 => Ok(Call::Program),
            _ => Err(byte),
        }
    }
}

// The number for a verdict with a set of comments left.
const COMMENTS_LEFT: u8 = 6;

// What is left to be read.
#[derive(Drop)]
pub struct Parts<'a> {
    rest: &'a [u8],
}

impl<'a> Parts<'a> {
    pub fn new(rest: &'a [u8]) -> Parts<'a> {
        Parts { rest }
    }

    // The next n bytes, or those that are left.
    fn bytes(&mut self, n: usize) -> &'a [u8]
        ensures { length result.now ≤ n }
    {
        let (part, rest) = self.rest.split_at(n.min(self.rest.len()));
        self.rest = rest;
        part
    }

    fn byte(&mut self) -> u8 {
        self.bytes(1).first().copied().unwrap_or(0)
    }

    pub fn u32(&mut self) -> u32 {
        let mut bytes = [0u8; 4];
        let part = self.bytes(4);
        bytes[..part.len()].copy_from_slice(part);
        u32::from_le_bytes(bytes)
    }

    fn u64(&mut self) -> u64 {
        let low = self.u32();
        u64::from(low) + 0x1_0000_0000 * u64::from(self.u32())
    }

    // Bytes behind their length.
    fn run(&mut self) -> &'a [u8] {
        let n = self.u32();
        self.bytes(n as usize)
    }

    // The set stands there where the number is 6; else it is empty.
    fn set(&mut self, number: u8) -> [u64; 64] {
        let mut words = [0u64; 64];
        if number == COMMENTS_LEFT {
            for word in &mut words {
                *word = self.u64();
            }
        }
        words
    }
}

// A stored call and its answer.
#[derive(Drop)]
pub struct Vector<'a> {
    pub call: Result<Call, u8>,
    pub text: &'a [u8],
    pub rec: &'a [u8],
    pub tab: u32,
    pub token: u64,
    pub room: usize,
    pub number: u8,
    pub place: u32,
    pub measures: Measures,
    // What a lookup finds.
    pub found: Option<u64>,
    pub set: [u64; 64],
    pub last: &'a [u8],
}

impl<'a> Vector<'a> {
    pub fn read(parts: &mut Parts<'a>) -> Vector<'a> {
        let call = Call::try_from(parts.byte());
        let text = parts.run();
        let rec = parts.run();
        let tab = parts.u32();
        let token = parts.u64();
        let room = parts.u32() as usize;
        let number = parts.byte();
        let place = parts.u32();
        let deepest = parts.u64();
        let letters = parts.u64();
        let units = parts.u64();
        let is_found = parts.byte() == 1;
        let answer = parts.u64();
        let set = parts.set(number);
        Vector {
            call,
            text,
            rec,
            tab,
            token,
            room,
            number,
            place,
            measures: Measures {
                deepest,
                letters,
                units,
            },
            found: if is_found { Some(answer) } else { None },
            set,
            last: parts.run(),
        }
    }
}
