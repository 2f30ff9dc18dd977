// The calls that read a source: a token, a statement, or all of it. A refusal leaves the buffer as it was.
#![tactic(auto)]

ghost use Rattle.std.specs.Prelude.{◌≡◌, ◌≤◌, length};
ghost use Rattle.refusals.specs.Refusals.{by_numbers};
ghost use Rattle.rules.specs.Calls as rules;
ghost use Rattle.rules.specs.Statements.{present};
ghost use Rattle.reader.specs.Lent.{is_ascii, foreign_of};
ghost use Rattle.reader.specs.Calls.{Lends, LendsAt, ReadsAll, OneRead, FullReads, token_answer, statement_answer};

use ascii::Ascii;
use lexer::{Cursor, Token};
use records::{Writer, copy};
use refusals::{Reason, Refusal, refused_at, refused_nowhere};
use state::source::Source;
use statements::{StatementRead, start, statement, statements};

pub mod ascii;

// A statement that was read: how many bytes were written, and the place of the token ahead.
#[derive(Clone, Copy)]
pub struct Written {
    pub length: u32,
    pub ahead: u32,
}

// The most bytes that a source may have.
pub const SOURCE_MAX: usize = 65536;

// Whether no byte is above 127. Only the largest is asked, so that many bytes are taken at a time; the slice's own `is_ascii` goes byte by byte,
// to the first.
fn is_ascii(source: &[u8]) -> bool
    ensures { result ≡ is_ascii source.now }
{
    source.iter().fold(0, |most: u8, c| most.max(*c)) <= 127
}

// The place of the first byte above 127, if there is one.
fn foreign(source: &[u8]) -> Option<usize>
    ensures { result ≡ foreign_of source.now }
{
    if is_ascii(source) {
        return None;
    }
    source.iter().position(|c| 127 < *c)
}

// 1 and 2, over the whole source.
pub fn readable(source: &[u8]) -> Result<Ascii<'_>, Refusal>
    ensures { Lends source.now result }
{
    if SOURCE_MAX < source.len() {
        return Err(refused_nowhere(Reason::SourceTooLong));
    }
    match foreign(source) {
        Some(place) => {
            let from = place as u32;
            Err(refused_at(Reason::NotAscii, from, from + 1))
        }
        None => Ok(Ascii {
            source: Source { text: source },
        }),
    }
}

// The same, after 42.
fn readable_at(source: &[u8], place: usize) -> Result<Ascii<'_>, Refusal>
    ensures { LendsAt source.now place result }
{
    if source.len() < place {
        return Err(refused_nowhere(Reason::NoSuchPlace));
    }
    readable(source)
}

// All statements, read into a local buffer of N bytes, and copied where they fit there; else read again into `out`.
#[inline(never)]
fn kept_in<const N: usize>(source: Ascii<'_>, out: &mut [u8]) -> Result<u32, Refusal>
    requires { N ≤ 262144 }
    ensures { ReadsAll source.entry.source.text.now out.old out.new result }
{
    let source = source.source;
    let table = names::operations();
    let p = start(source, 0)?;
    // No heap: an array, of which the listing's length is known when it has been read.
    let mut buffer = [0u8; N];
    let kept: &mut [u8] = &mut buffer;
    let mut first = Writer::new(kept);
    statements(source, table, &mut first, p)?;
    let n = first.at;
    let size = n as usize;
    if out.len() < size {
        Err(refused_nowhere(Reason::ListingNoRoom))
    } else if size <= N {
        copy(out, 0, &kept[0..size]);
        Ok(n)
    } else {
        let mut again = Writer::new(out);
        statements(source, table, &mut again, p)?;
        Ok(n)
    }
}

// They are kept in four times the source or more, which most listings fit; a larger buffer would cost more to clear.
fn read_all(source: Ascii<'_>, out: &mut [u8]) -> Result<u32, Refusal>
    ensures { ReadsAll source.entry.source.text.now out.old out.new result }
{
    match source.source.text.len() {
        0..=1024 => kept_in::<4096>(source, out),
        1025..=4096 => kept_in::<16384>(source, out),
        4097..=16384 => kept_in::<65536>(source, out),
        _ => kept_in::<262144>(source, out),
    }
}

// All statements of a source: their records in `out`, if there is room for all of them.
pub fn full_read(source: &[u8], out: &mut [u8]) -> Result<u32, Refusal>
    ensures { FullReads source.now out.old out.new result }
{
    read_all(readable(source)?, out)
}

// The full read for a short stack: the same answers and bytes, read twice.
pub fn full_read_lean(source: &[u8], out: &mut [u8]) -> Result<u32, Refusal>
    ensures { FullReads source.now out.old out.new result }
{
    kept_in::<0>(readable(source)?, out)
}

// The statement at a place of a source that is one to read: measured first, and written where it fits.
fn read_one(source: Ascii<'_>, place: u32, out: &mut [u8]) -> Result<Option<Written>, Refusal>
    requires { place ≤ length source.source.text.now }
    ensures { OneRead source.entry.source.text.now place out.old out.new result }
{
    let source = source.source;
    let table = names::operations();
    let p = start(source, place)?;
    let mut nothing = [0u8; 0];
    let mut measured = Writer::new(&mut nothing);
    let StatementRead::Read(q) = statement(source, table, &mut measured, p)? else {
        return Ok(None);
    };
    let length = measured.at;
    if out.len() < length as usize {
        return Err(refused_nowhere(Reason::ListingNoRoom));
    }
    let mut written = Writer::new(out);
    statement(source, table, &mut written, p)?;
    Ok(Some(Written {
        length,
        ahead: q.token_start,
    }))
}

// The statement at a place: its records in `out`, if there is room for all of them.
pub fn statement_read(
    source: &[u8],
    place: usize,
    out: &mut [u8],
) -> Result<Option<Written>, Refusal>
    ensures answer { by_numbers result ≡ statement_answer (rules.statement_call present source.now place (length out.old)) }
    ensures buffer { out.new ≡ rules.statement_buffer present source.now place out.old }
{
    read_one(readable_at(source, place)?, place as u32, out)
}

// The token at a place, and the state behind it.
pub fn token_read(source: &[u8], place: usize) -> Result<(Token, Cursor), Refusal>
    ensures { by_numbers result ≡ token_answer place (rules.token_call source.now place) }
{
    readable_at(source, place)?;
    let cursor = Cursor { pos: place };
    cursor.next_token(source).map_err(|bad| refused_at(
        bad.fault.into(),
        bad.from as u32,
        bad.to as u32,
    ))
}
