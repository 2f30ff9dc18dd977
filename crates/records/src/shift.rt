// How far the places of a listing move.
ghost use Rattle.std.specs.Prelude.{◌≤◌};

// A text of `old` bytes has become one of `new`: a place k behind it goes to k + new - old.
#[derive(Clone, Copy)]
pub struct Shift {
    pub new: usize,
    pub old: usize,
    // so that a moved place can't run over
    ghost low: { new ≤ 65536 },
}
