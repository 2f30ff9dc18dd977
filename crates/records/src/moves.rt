// The walks over the records of a listing: to the first statement from a place on, and moving each where it stands. What they ask of a
// mark is always inline, as `Mark::of` is.
ghost use Rattle.std.specs.Prelude.{◌≡◌, ◌+◌, ◌-◌, ◌≤◌, ◌<◌, length};
ghost use Rattle.rules.specs.Records.{encode, move_record};
ghost use Rattle.rules.specs.Patch.{statement_from};
ghost use Rattle.records.specs.Writes.{stores};
ghost use Rattle.records.specs.Moves.{Decodes, Opens, First, records_at, record_at, move_field, moved_bytes};

use super::copy;
use super::marks::{Mark, field_at};
use super::shift::Shift;

// The mark of the record at a place. `Decodes` is a clause and no struct's, as `Opens` is: the slice is read by one walk and written by
// another, and from each step on it holds of another place. The place goes beside the slice, which is no tail from it on: what stands at a
// place is said of the whole listing, and of a tail that is written each step would have to say that the rest stays.
#[inline(always)]
fn mark_at(s: &[u8], at: usize) -> Mark
    requires { Decodes s.now at × (at < length s.now) }
    ensures { Opens s.now at result }
{
    Mark::of(s[at], s[at + 1]).unwrap()
}

// How many bytes the record with this mark at a place has. `Opens` is a clause of three functions and no struct's: two only read the
// slice, one writes it, so no one struct could hold it.
#[inline(always)]
pub fn size(s: &[u8], at: usize, mark: Mark) -> usize
    requires { Opens s.now at mark }
    ensures { result ≡ length (encode (record_at s.now at)) }
{
    let fields = 2 + 4 * mark.fields();
    match mark {
        Mark::LD => fields + field_at(s, at + 10) as usize,
        _ => fields,
    }
}

// Whether the record with this mark at a place is a statement with that place or above.
#[inline(always)]
fn starts(s: &[u8], at: usize, mark: Mark, place: usize) -> bool
    requires { Opens s.now at mark }
    ensures { result ≡ statement_from place (record_at s.now at) }
{
    match mark {
        Mark::ST => place <= field_at(s, at + 2) as usize,
        _ => false,
    }
}

// Where in the listing, from one record on, the first statement with that place or above stands.
pub fn first_from(listing: &[u8], from: usize, place: usize) -> usize
    requires { Decodes listing.now from }
    ensures { First listing.now from place result }
{
    // no `for`: a step is a record's size; an iterator over records would serve this walk alone, since `move_all` writes and the check trusts no byte
    let mut i = from;
    while i < listing.len() {
        let mark = mark_at(listing, i);
        if starts(listing, i, mark, place) {
            return i;
        }
        i += size(listing, i, mark);
    }
    i
}

// A field moved in its place.
fn move_field(s: &mut [u8], at: usize, shift: Shift)
    requires { at + 4 ≤ length s.old }
    ensures { s.new ≡ move_field shift.new shift.old s.old at }
{
    let moved = (field_at(s, at) as usize + shift.new).saturating_sub(shift.old);
    // the low four bytes, since a cast to 32 bits would have to fit
    let [a, b, c, d, ..] = moved.to_le_bytes();
    copy(s, at, &[a, b, c, d]);
}

// The record at a place moved: ST's place, or its spans.
#[tactic(auto, using(crate::proofs::OneRecord::room_line))]
#[inline]
fn move_record(s: &mut [u8], at: usize, mark: Mark, shift: Shift)
    requires { Opens s.old at mark }
    ensures { s.new ≡ stores s.old at (encode (move_record (λ k. k + shift.new - shift.old) (record_at s.old at))) }
{
    match mark {
        Mark::LT => {}
        Mark::ST => move_field(s, at + 2, shift),
        Mark::LI => {
            move_field(s, at + 2, shift);
            move_field(s, at + 6, shift);
            move_field(s, at + 18, shift);
            move_field(s, at + 22, shift);
        }
        _ => {
            move_field(s, at + 2, shift);
            move_field(s, at + 6, shift);
        }
    }
}

// A listing moved.
pub fn move_all(s: &mut [u8], shift: Shift)
    requires { Decodes s.old 0 }
    ensures { s.new ≡ moved_bytes shift.new shift.old (records_at s.old 0) }
{
    // no `for`: a step is a record's size, and `s` is written meanwhile
    let mut i: usize = 0;
    while i < s.len() {
        let mark = mark_at(s, i);
        let n = size(s, i, mark);
        move_record(s, i, mark, shift);
        i += n;
    }
}
