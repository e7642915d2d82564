// Replays the stored calls of reference/vectors, read from standard input, and prints how many have the stored answer.
#![tactic(auto)]

mod vector; // vector.rt: the layout of a stored call

ghost use Rattle.std.specs.Prelude.{◌≡◌, length};

use comments::Set;
use formatter::{FormatError, Measures};
use input::read_full;
use std::io;
use vector::{Call, Parts, Vector};

// What stands for no token number and no length.
// The answers of the C interface are numbers.
const NONE: u64 = 0xFFFF_FFFF_FFFF_FFFF;

// The longest output of a stored call.
const LONGEST: usize = 1000;

impl Vector<'_> {
    // Whether number, place and what was found are the stored ones.
    fn has_found(&self, answer: [u64; 3]) -> bool {
        answer
            == [
                u64::from(self.number),
                u64::from(self.place),
                self.found.unwrap_or(NONE),
            ]
    }

    // Whether number, place, measures and the set of comments left are the stored ones.
    fn has_verdict(&self, answer: Result<Measures, FormatError>, left: Set) -> bool {
        let (number, place, measures) = match answer {
            Ok(measures) => (0, 0, measures),
            Err(why) => (why.number(), why.place(), why.measures()),
        };
        number == u64::from(self.number)
            && place == self.place as usize
            && measures == self.measures
            && left.words == self.set
    }

    fn check_agrees(&self) -> bool {
        let mut left = Set::new();
        let answer = formatter::check(self.text, self.rec, &mut left);
        self.has_verdict(answer, left)
    }

    fn get_agrees(&self, out: &mut [u8]) -> bool {
        let mut left = Set::new();
        let answer = formatter::get(self.text, self.rec, self.tab, out, &mut left);
        self.has_verdict(answer, left) && &*out == self.last
    }

    fn comment_agrees(&self) -> bool {
        let mut answer = [0u64; 4];
        diverplume::diverplume_comment_above(self.text, self.rec, self.token, &mut answer);
        self.has_found([answer[0], answer[1], answer[2]])
    }

    fn doc_agrees(&self, out: &mut [u8]) -> bool {
        let mut answer = [0u64; 3];
        diverplume::diverplume_doc_comment_above(self.text, self.rec, self.token, out, &mut answer);
        self.has_found(answer) && &*out == self.last
    }

    fn program_agrees(&self) -> bool {
        let mut out = [0u8; 65641];
        let n = program::process(self.rec, &mut out);
        &out[..n] == self.last
    }

    // Whether the call has the stored answer, and leaves the stored output.
    fn agrees(&self) -> bool {
        let mut space = [0xA5u8; LONGEST];
        let Some(out) = space.get_mut(..self.room) else {
            return false;
        };
        match self.call {
            Ok(Call::Check) => self.check_agrees(),
            Ok(Call::Get) => self.get_agrees(out),
            Ok(Call::CommentAbove) => self.comment_agrees(),
            Ok(Call::DocCommentAbove) => self.doc_agrees(out),
            Ok(Call::Program) => self.program_agrees(),
            Err(_) => false,
        }
    }
}

// How many stored calls there are, and how many have the stored answer.
fn replay(stored: &[u8]) -> (u64, u64) {
    let mut parts = Parts::new(stored);
    let count = u64::from(parts.u32());
    let mut same = 0;
    for _ in 0..count {
        if Vector::read(&mut parts).agrees() {
            same += 1;
        }
    }
    (count, same)
}

// Room for all stored calls.
fn room() -> [u8; 1_300_000]
    ensures { 1300000 ≡ length result }
{
    [0; 1_300_000]
}

fn main(rt: HostRuntime) -> io::Result<()> {
    let mut input = room();
    let n = read_full(&mut rt.stdin(), &mut input)?;
    let (count, same) = replay(&input[..n]);
    println!(rt; "{same} of {count} the same")
}
