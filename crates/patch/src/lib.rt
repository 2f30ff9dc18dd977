// The patch: one line of a source exchanged, and the source's listing with it. A refusal leaves both buffers as they were.
#![tactic(auto)]

ghost use Rattle.std.specs.Prelude.{◌≡◌, true, ◌++◌, ◌+◌, ◌-◌, ◌≤◌, ◌<◌, length, take};
ghost use Rattle.refusals.specs.Refusals.{by_numbers};
ghost use Rattle.rules.specs.Calls.{ascii};
ghost use Rattle.rules.specs.Decode.{decode};
ghost use Rattle.rules.specs.Statements.{present, read_from};
ghost use Rattle.rules.specs.Patch as rules;
ghost use Rattle.records.specs.Moves.{Decodes, records_at};
ghost use Rattle.records.specs.Writes.{stores};
ghost use Rattle.patch.specs.Patched.{patch_answer, Patches, Measured, AsFullRead};
ghost use Rattle.patch.specs.Plans.{new_length, fitted_of, Surveyed, line_bytes, new_records, Plans, Applied};

use lines::{begins_line, edit, line_end};
use moves::move_rest;
use open::{leaves_open, nearest_open};
use reader::ascii::Ascii;
use reader::{SOURCE_MAX, readable};
use records::moves::first_from;
use records::shift::Shift;
use records::{Writer, copy};
use refusals::{Reason, Refusal, refused_nowhere};
use state::Parser;
use state::source::Source;
use statements::{start, statements};

mod moves;
mod open;

// How many bytes of the edited source and of its listing were written.
#[derive(Clone, Copy)]
pub struct Patched {
    pub source: usize,
    pub listing: usize,
}

// The exchange that is asked for: the line of `old` from `place` to before `end` gives way to `text`, lent apart.
#[derive(Clone, Copy)]
struct Exchange<'a, 'b> {
    old: Source<'a>,
    place: usize,
    end: usize,
    text: &'b [u8],
    ghost begins: { rules.begins_line old.text.now place ≡ true },
    ghost ends: { end ≡ place + length (rules.line_at old.text.now place) },
}

// How many bytes are lent for the edited source and for its listing, without the buffers: nothing is written before the plan is made.
// They are two, since the C interface lends two buffers apart.
#[derive(Clone, Copy)]
struct Rooms {
    source: usize,
    listing: usize,
}

// How it is done: the line begins at `place`, and `shift.old` bytes give way to `shift.new`; the edited source is read up to `cut`, behind the new line,
// whose records have `size` bytes, from the state `start` on; the old listing's bytes up to `below` are kept, those from `on` on moved.
#[derive(Drop)]
struct Plan {
    place: usize,
    shift: Shift,
    cut: usize,
    below: usize,
    on: usize,
    size: usize,
    start: Parser,
}

// 6, then 4, for an edited source of m bytes and an old listing of n.
fn fitted(x: Plan, m: usize, n: usize, rooms: Rooms) -> Result<Plan, Refusal>
    requires { (x.on ≤ n) × (new_length x n < 18446744073709551616) }
    ensures { by_numbers result ≡ fitted_of x m n rooms }
{
    let all = x.below + x.size + (n - x.on);
    if rooms.source < m {
        return Err(refused_nowhere(Reason::SourceNoRoom));
    }
    if rooms.listing < all {
        return Err(refused_nowhere(Reason::ListingNoRoom));
    }
    Ok(x)
}

// Only the new line, with its line feed, is read, in its place, and measured.
fn plan_line(
    x: Exchange<'_, '_>,
    listing: &[u8],
    edited: Ascii<'_>,
    rooms: Rooms,
) -> Result<Plan, Refusal>
    requires { (edited.source.text.now ≡ rules.edited x.old.text.now x.place x.text.now) × Decodes listing.now 0 }
    ensures { Plans (rules.reread x.entry.old.text.now (records_at listing.now 0) x.entry.place x.entry.text.now rooms.source rooms.listing
        (read_from present x.entry.place (x.entry.text.now ++ take 1 (rules.behind x.entry.old.text.now x.entry.place))))
        edited.entry.source.text.now listing.now rooms result }
{
    let bytes = edited.source.text;
    let cut = (x.place + x.text.len() + 1).min(bytes.len());
    let line = Source {
        text: &bytes[..cut],
    };
    let start = start(line, x.place as u32)?;
    let mut nothing = [0u8; 0];
    let mut measured = Writer::new(&mut nothing);
    let _ = statements(line, names::operations(), &mut measured, start)?;
    let below = first_from(listing, 0, x.place);
    let plan = Plan {
        place: x.place,
        shift: Shift {
            new: x.text.len(),
            old: x.end - x.place,
        },
        cut,
        below,
        on: first_from(listing, below, x.end),
        size: measured.at as usize,
        start,
    };
    fitted(plan, bytes.len(), listing.len(), rooms)
}

// 40: whether the replaced line, the new one, or the nearest above that has more leaves a `times` open.
fn open_line(x: Exchange<'_, '_>) -> bool
    ensures { result ≡ rules.open_line present x.entry.old.text.now x.entry.place x.entry.text.now }
{
    leaves_open(&x.old.text[x.place..x.end]) || leaves_open(x.text) || nearest_open(x.old, x.place)
}

// 41, then 40, then the reading, 6 and 4: every refusal behind 2. Nothing is lent for writing.
fn plan_patch(
    x: Exchange<'_, '_>,
    listing: &[u8],
    edited: Ascii<'_>,
    rooms: Rooms,
) -> Result<Plan, Refusal>
    requires { edited.source.text.now ≡ rules.edited x.old.text.now x.place x.text.now }
    ensures { Plans (rules.patched present x.entry.old.text.now (decode listing.now) x.entry.place x.entry.text.now rooms.source rooms.listing)
        edited.entry.source.text.now listing.now rooms result }
{
    if !checker::well_formed(listing, x.old.text.len()) {
        return Err(refused_nowhere(Reason::ListingNotWellFormed));
    }
    if open_line(x) {
        return Err(refused_nowhere(Reason::TimesLeftOpen));
    }
    plan_line(x, listing, edited, rooms)
}

// The new line is read again, to where its records belong.
fn write_line(x: &Plan, line: Ascii<'_>, out: &mut [u8])
    requires { (x.now.place ≤ length line.source.text.now) × Measured line.source.text.now x.now.place x.now.start x.now.size
        × (x.now.size ≤ length out.old) }
    ensures { out.new ≡ stores out.old 0 (line_bytes line.entry.source.text.now x.now) }
{
    let mut new = Writer::new(out);
    // Never refused: what was measured is read again.
    let _ = statements(line.source, names::operations(), &mut new, x.start);
}

// A plan applied: the edited source and its listing are written, and the listing's length is given.
fn apply(x: Plan, edited: &[u8], listing: &[u8], source: &mut [u8], out: &mut [u8]) -> usize
    requires { (x.cut ≤ length edited.now) × Surveyed (take x.cut edited.now) listing.now x
        × (length edited.now ≤ length source.old) × (new_length x (length listing.now) ≤ length out.old) }
    ensures { Applied edited.now (new_records (take x.cut edited.now) listing.now x)
        source.old source.new out.old out.new result }
{
    let line = Ascii {
        source: Source {
            text: &edited[..x.cut],
        },
    };
    let behind = x.below + x.size;
    write_line(&x, line, &mut out[x.below..]);
    copy(source, 0, edited);
    copy(out, 0, &listing[..x.below]);
    move_rest(listing, x.on, out, behind, x.shift);
    behind + (listing.len() - x.on)
}

// 2, then the rest, with the edited source in a local buffer of n bytes' use.
fn exchange_line(
    x: Exchange<'_, '_>,
    listing: &[u8],
    n: usize,
    source: &mut [u8],
    out: &mut [u8],
) -> Result<Patched, Refusal>
    requires { (n ≡ length (rules.edited x.old.text.now x.place x.text.now)) × (n ≤ 65536) }
    ensures { Patches (ascii (rules.edited x.entry.old.text.now x.entry.place x.entry.text.now)
        (rules.patched present x.entry.old.text.now (decode listing.now) x.entry.place x.entry.text.now (length source.old)
        (length out.old)))
        source.old source.new out.old out.new result }
{
    // No heap: an array, cut to the edited source's n bytes once.
    let mut room = [0u8; SOURCE_MAX];
    edit(x.old.text, x.place, x.end, x.text, &mut room);
    let edited = readable(&room[..n])?;
    let rooms = Rooms {
        source: source.len(),
        listing: out.len(),
    };
    let plan = plan_patch(x, listing, edited, rooms)?;
    let listing = apply(plan, edited.source.text, listing, source, out);
    Ok(Patched { source: n, listing })
}

// The line that begins at a place of the old source exchanged for a text: the edited source in `source` and its listing in `out`.
pub fn patch(
    old: &[u8],
    listing: &[u8],
    place: usize,
    text: &[u8],
    source: &mut [u8],
    out: &mut [u8],
) -> Result<Patched, Refusal>
    ensures answer { by_numbers result ≡ patch_answer (rules.patch present old.now listing.now place text.now
        (length source.old) (length out.old)) }
    ensures source { source.new ≡ rules.patch_source (rules.patch present old.now listing.now place
        text.now (length source.old) (length out.old)) source.old }
    ensures listing { out.new ≡ rules.patch_listing (rules.patch present old.now listing.now place
        text.now (length source.old) (length out.old)) out.old }
    ensures demand_3 { AsFullRead (λ x. x) old.now listing.now place text.now
        source.old source.new out.old out.new (by_numbers result) }
{
    if !begins_line(old, place) {
        return Err(refused_nowhere(Reason::NoSuchPlace));
    }
    if line_end(text, 0) < text.len() {
        return Err(refused_nowhere(Reason::LineFeedInText));
    }
    if (SOURCE_MAX < old.len()) | (SOURCE_MAX < text.len()) {
        return Err(refused_nowhere(Reason::SourceTooLong));
    }
    let end = line_end(old, place);
    let n = old.len() - (end - place) + text.len();
    if SOURCE_MAX < n {
        return Err(refused_nowhere(Reason::SourceTooLong));
    }
    let x = Exchange {
        old: Source { text: old },
        place,
        end,
        text,
    };
    exchange_line(x, listing, n, source, out)
}
