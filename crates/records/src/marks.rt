// The marks that records open with, how many fields a record has, and what a field says.
ghost use Rattle.std.specs.Prelude.{◌≡◌, [], ◌∷◌, ◌+◌, ◌*◌, ◌≤◌, ◌<◌, length};
ghost use Rattle.records.specs.Marks.{letters_of, count_of, Marked, field_at};

// A mark is its two letters as a number.
#[derive(Clone, Copy, PartialEq, Eq)]
pub enum Mark {
    ST = 0x5354,
    VC = 0x5643,
    VL = 0x564c,
    VI = 0x5649,
    VS = 0x5653,
    PF = 0x5046,
    IN = 0x494e,
    OR = 0x4f52,
    OS = 0x4f53,
    OI = 0x4f49,
    OF = 0x4f46,
    OD = 0x4f44,
    OX = 0x4f58,
    LL = 0x4c4c,
    LI = 0x4c49,
    LD = 0x4c44,
    LC = 0x4c43,
    LT = 0x4c54,
}

impl Mark {
    // The mark of two letters, if a record has it. No `TryFrom<[u8; 2]>`: most pairs of letters are no mark, and the callers want an Option,
    // as `char::from_u32` gives one. Always inline: a call took a third of the check's time, and inline no answer is made, since each arm
    // goes on to the caller's.
    #[tactic(auto, unfolding(crate::specs::Marks::is_known, lexer::specs::Text::bytes))]
    #[inline(always)]
    pub fn of(a: u8, b: u8) -> Option<Mark>
        ensures { Marked (a ∷ b ∷ []) result }
    {
        match (a, b) {
            (b'S', b'T') => Some(Mark::ST),
            (b'V', b'C') => Some(Mark::VC),
            (b'V', b'L') => Some(Mark::VL),
            (b'V', b'I') => Some(Mark::VI),
            (b'V', b'S') => Some(Mark::VS),
            (b'P', b'F') => Some(Mark::PF),
            (b'I', b'N') => Some(Mark::IN),
            (b'O', b'R') => Some(Mark::OR),
            (b'O', b'S') => Some(Mark::OS),
            (b'O', b'I') => Some(Mark::OI),
            (b'O', b'F') => Some(Mark::OF),
            (b'O', b'D') => Some(Mark::OD),
            (b'O', b'X') => Some(Mark::OX),
            (b'L', b'L') => Some(Mark::LL),
            (b'L', b'I') => Some(Mark::LI),
            (b'L', b'D') => Some(Mark::LD),
            (b'L', b'C') => Some(Mark::LC),
            (b'L', b'T') => Some(Mark::LT),
            _ => None,
        }
    }

    // Its two letters.
    #[tactic(auto, unfolding(lexer::specs::Text::bytes))]
    #[inline]
    pub fn letters(self) -> [u8; 2]
        ensures { result ≡ letters_of self }
    {
        (self as u16).to_be_bytes()
    }

    // How many fields a record with this mark has, LD's count among them.
    #[tactic(auto, unfolding(crate::specs::Marks::count_of, lexer::specs::Text::bytes))]
    #[inline]
    pub fn fields(self) -> usize
        ensures { (result ≡ count_of (letters_of self)) × (result < 7) }
    {
        match self {
            Mark::ST => 1,
            Mark::VL | Mark::VI | Mark::VS | Mark::OI | Mark::OF | Mark::LL | Mark::LC | Mark::LT =>
                2,
            Mark::VC | Mark::PF | Mark::IN | Mark::OR | Mark::OS | Mark::LD => 3,
            Mark::OD => 4,
            Mark::OX | Mark::LI => 6,
        }
    }
}

// The field at a place.
#[tactic(auto, using(crate::proofs::Fields::field_joined))]
#[inline]
pub fn field_at(s: &[u8], at: usize) -> u32
    requires { at + 4 ≤ length s.now }
    ensures { result ≡ field_at s.now at }
{
    u32::from_le_bytes([s[at], s[at + 1], s[at + 2], s[at + 3]])
}
