// Refusals: what a call that refuses answers, and the number of each reason.
#![tactic(auto)]

ghost use Rattle.std.specs.Prelude.{◌≡◌};
ghost use Rattle.refusals.specs.Refusals.{number_of, first_of, second_of, numbers, spanned, spanless};

// Why something is refused, with the number that the rules give it.
#[derive(Clone, Copy, PartialEq, Eq)]
pub enum Reason {
    // Limits.
    SourceTooLong = 1,
    NotAscii = 2,
    ExpressionTooDeep = 3,
    ListingNoRoom = 4,
    TimesTooDeep = 5,
    SourceNoRoom = 6,
    // A token other than the one that has to come.
    LineEndExpected = 10,
    CommaExpected = 11,
    ColonExpected = 12,
    CloseBracketExpected = 13,
    CloseParenthesisExpected = 14,
    LiteralExpected = 15,
    ClosedStringExpected = 16,
    OneCharacterExpected = 17,
    // What the original's parser refuses by name.
    InstructionExpected = 20,
    OperandExpected = 21,
    InvalidPrefixOperator = 22,
    DataDefinitionWithoutData = 23,
    SegmentOrAddressExpected = 24,
    InvalidIndirectEncoding = 25,
    UnterminatedStringLiteral = 26,
    // Where the original panics.
    BinaryLargerDigit = 30,
    PrefixedTooLarge = 31,
    NothingAfterOverride = 32,
    TwoIndexRegisters = 33,
    TimesWithoutContent = 34,
    // What a patch or a place is refused for.
    TimesLeftOpen = 40,
    ListingNotWellFormed = 41,
    NoSuchPlace = 42,
    LineFeedInText = 43,
    // Arithmetic.
    Beyond32Bits = 50,
    ZeroDivisor = 51,
    // Data.
    NumberTooWide = 60,
}

impl Reason {
    // The number that the rules give it. A method and no `From`, so that a caller's line says what the u32 is.
    pub fn number(self) -> u32
        ensures { result ≡ number_of self }
    {
        self as u32
    }
}

// The registers of 25; no other refusal has any.
#[derive(Clone, Copy)]
pub enum Registers {
    None,
    One(u8),
    Two(u8, u8),
}

impl Registers {
    // The first one's number, or 255: C and the listing's text have two numbers at every refusal.
    pub fn first(self) -> u32
        ensures { result ≡ first_of self }
    {
        match self {
            Registers::None => 255,
            Registers::One(r) | Registers::Two(r, _) => u32::from(r),
        }
    }

    // The second one's, or 255.
    pub fn second(self) -> u32
        ensures { result ≡ second_of self }
    {
        match self {
            Registers::None | Registers::One(_) => 255,
            Registers::Two(_, s) => u32::from(s),
        }
    }
}

// A span, the reason and registers. The bytes stand together where the parser's state has its kind: a Result of the one or the other is copied
// word by word then, and where a byte of the one met a word of the other a full read took 8 % longer. The span is no struct of its own: C and the
// records have its two numbers as fields, and few functions take both.
#[derive(Clone, Copy)]
pub struct Refusal {
    pub from: u32,
    pub to: u32,
    pub reason: Reason,
    pub registers: Registers,
}

// A refusal with a span, and no registers.
pub fn refused_at(reason: Reason, from: u32, to: u32) -> Refusal
    ensures { numbers result ≡ spanned (number_of reason) from to }
{
    Refusal {
        from,
        to,
        reason,
        registers: Registers::None,
    }
}

// A refusal of the whole call, which has no place: the rules give it the span 0 to 0.
pub fn refused_nowhere(reason: Reason) -> Refusal
    ensures { numbers result ≡ spanless (number_of reason) }
{
    refused_at(reason, 0, 0)
}
