// The tokens that are one byte: a line feed and the punctuations.
ghost use Rattle.std.specs.Prelude.{◌≡◌};
ghost use Rattle.lexer.specs.Scanned.{single};

use crate::Kind;

// A kind, or none where `_` stands.
macro_rules! kind {
    (_) => {
        None
    };
    ($kind:ident) => {
        Some(Kind::$kind)
    };
}

macro_rules! kinds {
    ($($kind:tt)*) => {
        [$(kind!($kind)),*]
    };
}

// The kinds by ASCII, sixteen in a row. A table, since a match is a jump whose aim the processor has to guess: it took 4 to 15 % longer
// for all tokens.
static KINDS: [Option<Kind>; 128] = kinds![
    _ _ _ _ _ _ _ _ _ _ NewLine _ _ _ _ _
    _ _ _ _ _ _ _ _ _ _ _ _ _ _ _ _
    _ _ _ _ Dollar _ _ _ OpenParenthesis CloseParenthesis Star Plus Comma Minus Dot ForwardSlash
    _ _ _ _ _ _ _ _ _ _ Colon _ _ _ _ _
    _ _ _ _ _ _ _ _ _ _ _ _ _ _ _ _
    _ _ _ _ _ _ _ _ _ _ _ OpenBracket _ CloseBracket _ _
    _ _ _ _ _ _ _ _ _ _ _ _ _ _ _ _
    _ _ _ _ _ _ _ _ _ _ _ _ _ _ _ _
];

// The kind of a token that is this byte alone.
#[tactic(auto, unfolding(crate::specs::Scanned::single, crate::specs::Text::is))]
#[inline]
pub fn single(c: u8) -> Option<Kind>
    ensures { result ≡ single c }
{
    if c < 128 { KINDS[c as usize] } else { None }
}
