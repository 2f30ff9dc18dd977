// The rest of an old listing, moved.
ghost use Rattle.std.specs.Prelude.{◌≡◌, ◌+◌, ◌-◌, ◌≤◌, length};
ghost use Rattle.records.specs.Writes.{stores};
ghost use Rattle.records.specs.Moves.{Decodes, records_at, moved_bytes};

use records::copy;
use records::moves::move_all;
use records::shift::Shift;

// The records of a listing from a place on, moved, copied to a place.
pub fn move_rest(listing: &[u8], on: usize, out: &mut [u8], at: usize, shift: Shift)
    requires { Decodes listing.now on × (on ≤ length listing.now) × (at + (length listing.now - on) ≤ length out.old) }
    ensures { out.new ≡ stores out.old at (moved_bytes shift.new shift.old (records_at listing.now on)) }
{
    let end = at + (listing.len() - on);
    copy(out, at, &listing[on..]);
    move_all(&mut out[at..end], shift);
}
