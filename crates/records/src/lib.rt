// The records of a listing as bytes: a two-letter mark and fields of 4 bytes, low first.
// A writer writes only where the buffer has room and goes behind its bytes all the same, so an empty buffer measures.
#![tactic(auto)]

pub mod marks;
pub mod moves;
pub mod shift;

ghost use Rattle.std.specs.Prelude.{◌≡◌, ◌+◌, ◌≤◌, length};
ghost use Rattle.rules.specs.Records.{field, plain, encode};
ghost use Rattle.records.specs.Marks.{letters_of};
ghost use Rattle.records.specs.Writes.{stores, Wrote};
ghost use Rattle.records.specs.Writers.{Puts, Begins, Ends, behind_head, head};

use marks::Mark;

// No place of a listing comes near it, so places can't run over.
const LIMIT: u32 = 2147483648;

// Bytes copied to a place, one by one: the slice's own copy would need the C library's `memmove`. By index: with `iter_mut().zip(run)` the
// proof did not close, since behind an adapter of `iter_mut` it is not known what was written. The place goes beside the buffer, since what is
// written is said of all of it.
pub fn copy(out: &mut [u8], at: usize, run: &[u8])
    requires { at + length run.now ≤ length out.old }
    ensures { out.new ≡ stores out.old at run.now }
{
    for (i, b) in run.iter().enumerate() {
        out[at + i] = *b;
    }
}

// N bytes put where there is room. The writer's steps take the place and give it: a method that went from piece to piece by `self.at` would
// write and read it in memory for each, which was 10 % slower in a whole read.
fn put<const N: usize>(out: &mut [u8], at: u32, bytes: [u8; N]) -> u32
    ensures { Wrote at bytes.entry out.old out.new result }
{
    if LIMIT <= at {
        return at;
    }
    let from = at as usize;
    // Both ways give the place behind, each with its own proof; `min` only says to the cast that it fits.
    if from + N <= out.len() {
        copy(out, from, &bytes);
        return at + N.min(LIMIT as usize) as u32;
    }
    at + N.min(LIMIT as usize) as u32
}

// A run put where there is room for all of it.
fn put_run(out: &mut [u8], at: u32, run: &[u8]) -> u32
    ensures { Wrote at run.now out.old out.new result }
{
    if LIMIT <= at {
        return at;
    }
    let from = at as usize;
    let behind = at + run.len().min(LIMIT as usize) as u32;
    if from <= out.len() && run.len() <= out.len() - from {
        copy(out, from, run);
        return behind;
    }
    behind
}

fn put_record<const N: usize>(out: &mut [u8], at: u32, mark: Mark, numbers: [u32; N]) -> u32
    ensures { Wrote at (encode (plain (letters_of mark) numbers.entry)) out.old out.new result }
{
    let mut w = put(out, at, mark.letters());
    for v in numbers {
        w = put(out, w, v.to_le_bytes());
    }
    w
}

// The place of LD's bytes, behind the 14 that its record begins with.
#[tactic(auto, unfolding(crate::specs::Writers::behind_head))]
fn behind_head(at: u32) -> u32
    ensures { result ≡ behind_head at }
{
    if LIMIT <= at {
        return at;
    }
    at + 14
}

// A lent buffer, and the place behind what was written.
#[derive(Drop)]
pub struct Writer<'a> {
    pub out: &'a mut [u8],
    pub at: u32,
}

impl<'a> Writer<'a> {
    // A writer at the head of a buffer.
    pub fn new(out: &'a mut [u8]) -> Writer<'a>
        ensures buffer { result.out ≡ out.entry }
        ensures place { result.at ≡ 0 }
    {
        Writer { out, at: 0 }
    }

    // Bytes of data.
    pub fn put<const N: usize>(&mut self, bytes: [u8; N])
        ensures { Puts «bytes».entry self.old self.new }
    {
        self.at = put(self.out, self.at, bytes);
    }

    // As many bytes of data as there are. At once, and one by one where they are few: one by one a long string took a quarter longer, and
    // at once, which is a call, one of a few letters an eighth.
    pub fn put_all(&mut self, run: &[u8])
        ensures { Puts run.now self.old self.new }
    {
        if run.len() < 8 {
            for b in run {
                self.put([*b]);
            }
            return;
        }
        self.at = put_run(self.out, self.at, run);
    }

    // A record without data.
    pub fn put_record<const N: usize>(&mut self, mark: Mark, fields: [u32; N])
        ensures { Puts (encode (plain (letters_of mark) «fields».entry)) self.old self.new }
    {
        self.at = put_record(self.out, self.at, mark, fields);
    }

    // LD's bytes come next, from behind the first 14 of its record on; its place is given.
    pub fn begin_data(&mut self) -> u32
        ensures { Begins self.old self.new result }
    {
        let start = self.at;
        self.at = behind_head(start);
        start
    }

    // LD's bytes are put: the first 14 of its record, which count them, are written at its place.
    pub fn end_data(&mut self, start: u32, from: u32, to: u32)
        ensures { Ends start from to self.old self.new }
    {
        let count = self.at.saturating_sub(behind_head(start));
        put_record(self.out, start, Mark::LD, [from, to, count]);
    }
}
