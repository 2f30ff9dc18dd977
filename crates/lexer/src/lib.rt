// Letters, numbers and tokens of a marker file, read one at a time by a cursor that goes by value.
#![tactic(auto)]

ghost use Rattle.std.specs.Prelude.{◌≡◌, Bool, true, ℕ, suc, ◌+◌, ◌-◌, ◌≤◌, ◌<◌, length, take, drop, get_or};
ghost use Rattle.lexer.specs.Text.{is_digit, is_hex_digit, digit, run};
ghost use Rattle.lexer.specs.Tokens.{fault_number, token_at, number_at, suffixed, prefixed, digits};
ghost use Rattle.lexer.specs.Runs.{radix, are_hex_digits};
ghost use Rattle.lexer.specs.Scanned.{number_of, kind_of_mark, kind_of_fault, scanned_of, plain, token_of, next_of};
ghost use Rattle.refusals.specs.Refusals.{number_of as reason_number};

use characters::{
    Base, from_radix, is_at_most_one, is_binary_digit, is_decimal_digit, is_hexadecimal_digit,
    is_identifier, is_identifier_first, is_octal_digit, is_remark, is_whitespace, quoted_end,
    run_end,
};
use refusals::Reason;
use single::single;

mod characters;
mod single;

// A text is one variant with a flag that says whether it is closed, as `quoted` in the definitions (`rules/specs/Lexemes.antt`) has it.
#[derive(Clone, Copy)]
pub enum LiteralKind {
    Number(i32),
    Text(bool),
}

// The original's token has this kind in it, and `Kind` is the one byte that readers compare, so both stand.
#[derive(Clone, Copy)]
pub enum PunctuationKind {
    CloseBracket,
    CloseParenthesis,
    Colon,
    Comma,
    Dollar,
    Dot,
    ForwardSlash,
    Minus,
    OpenBracket,
    OpenParenthesis,
    Plus,
    Star,
}

#[derive(Clone, Copy)]
pub enum Token {
    Whitespace(usize),
    Identifier(usize),
    Literal(usize, LiteralKind),
    Punctuation(usize, PunctuationKind),
    Comment(usize),
    NewLine(usize),
    EndOfFile(usize),
    Invalid(usize, u8),
}

// Why a number is refused: 30, a binary one with a larger digit; 31, a prefixed one above 2147483647. `BadNumber` and the
// definitions have it; `Kind` is the byte that readers compare.
#[derive(Clone, Copy, PartialEq, Eq)]
pub enum Fault {
    LargerDigit,
    TooLarge,
}

// A token, or a number that is refused, with its length: what the definitions give, and no function. As a Result its second case would be
// the Err of a pair, which names neither the length nor why.
#[derive(Clone, Copy)]
pub enum TokenRead {
    Read(Token),
    Refused(usize, Fault),
}

// What a token is, in one byte, which readers compare. The numbers are those that C takes: a punctuation's own character, a refusal's
// number, and else a character that stands for the kind.
#[derive(Clone, Copy, PartialEq, Eq)]
pub enum Kind {
    EndOfFile = 0,
    NewLine = 10,
    LargerDigit = 30,
    TooLarge = 31,
    Whitespace = 32,
    Invalid = 33,
    UnclosedString = 34,
    Dollar = 36,
    ClosedString = 39,
    OpenParenthesis = 40,
    CloseParenthesis = 41,
    Star = 42,
    Plus = 43,
    Comma = 44,
    Minus = 45,
    Dot = 46,
    ForwardSlash = 47,
    Number = 48,
    Colon = 58,
    Comment = 59,
    OpenBracket = 91,
    CloseBracket = 93,
    Identifier = 97,
}

impl Kind {
    // The number that C takes. A method and no `From`, so that a caller's line says what the u8 is.
    #[inline]
    pub fn number(self) -> u8
        ensures { result ≡ number_of self }
    {
        self as u8
    }
}

impl From<PunctuationKind> for Kind {
    ghost from_gives = { λ p k. k ≡ kind_of_mark p };

    fn from(p: PunctuationKind) -> Kind {
        match p {
            PunctuationKind::CloseBracket => Kind::CloseBracket,
            PunctuationKind::CloseParenthesis => Kind::CloseParenthesis,
            PunctuationKind::Colon => Kind::Colon,
            PunctuationKind::Comma => Kind::Comma,
            PunctuationKind::Dollar => Kind::Dollar,
            PunctuationKind::Dot => Kind::Dot,
            PunctuationKind::ForwardSlash => Kind::ForwardSlash,
            PunctuationKind::Minus => Kind::Minus,
            PunctuationKind::OpenBracket => Kind::OpenBracket,
            PunctuationKind::OpenParenthesis => Kind::OpenParenthesis,
            PunctuationKind::Plus => Kind::Plus,
            PunctuationKind::Star => Kind::Star,
        }
    }
}

impl From<Fault> for Kind {
    ghost from_gives = { λ f k. k ≡ kind_of_fault f };

    fn from(f: Fault) -> Kind {
        match f {
            Fault::LargerDigit => Kind::LargerDigit,
            Fault::TooLarge => Kind::TooLarge,
        }
    }
}

impl From<Fault> for Reason {
    ghost from_gives = { λ f r. reason_number r ≡ fault_number f };

    fn from(f: Fault) -> Reason {
        match f {
            Fault::LargerDigit => Reason::BinaryLargerDigit,
            Fault::TooLarge => Reason::PrefixedTooLarge,
        }
    }
}

// A token where it was scanned: its kind, a number's value, the byte of an invalid token, and else 0, and the place behind it. The value
// stands beside the kind: a kind with its value in it costs half the speed.
#[derive(Clone, Copy)]
pub struct Scanned {
    pub kind: Kind,
    pub value: u32,
    pub end: usize,
}

impl Scanned {
    // A token of a kind that has no value, and the zero that a prefix alone is.
    #[inline]
    fn plain(kind: Kind, end: usize) -> Scanned
        ensures { result ≡ plain kind end }
    {
        Scanned {
            kind,
            value: 0,
            end,
        }
    }

    // The token of n bytes that it stands for, or why it is refused. A scan's values are below the remainders' divisors, which only say so
    // to the casts.
    #[tactic(auto, unfolding(crate::specs::Scanned::token_of))]
    fn token(self, n: usize) -> Result<Token, Fault>
        ensures { result ≡ token_of self.kind self.value n }
    {
        Ok(match self.kind {
            Kind::EndOfFile => Token::EndOfFile(n),
            Kind::NewLine => Token::NewLine(n),
            Kind::LargerDigit => return Err(Fault::LargerDigit),
            Kind::TooLarge => return Err(Fault::TooLarge),
            Kind::Whitespace => Token::Whitespace(n),
            Kind::Invalid => Token::Invalid(n, (self.value % 256) as u8),
            Kind::UnclosedString => Token::Literal(n, LiteralKind::Text(false)),
            Kind::Dollar => Token::Punctuation(n, PunctuationKind::Dollar),
            Kind::ClosedString => Token::Literal(n, LiteralKind::Text(true)),
            Kind::OpenParenthesis => Token::Punctuation(n, PunctuationKind::OpenParenthesis),
            Kind::CloseParenthesis => Token::Punctuation(n, PunctuationKind::CloseParenthesis),
            Kind::Star => Token::Punctuation(n, PunctuationKind::Star),
            Kind::Plus => Token::Punctuation(n, PunctuationKind::Plus),
            Kind::Comma => Token::Punctuation(n, PunctuationKind::Comma),
            Kind::Minus => Token::Punctuation(n, PunctuationKind::Minus),
            Kind::Dot => Token::Punctuation(n, PunctuationKind::Dot),
            Kind::ForwardSlash => Token::Punctuation(n, PunctuationKind::ForwardSlash),
            Kind::Number => Token::Literal(
                n,
                LiteralKind::Number((self.value % 2147483648) as i32),
            ),
            Kind::Colon => Token::Punctuation(n, PunctuationKind::Colon),
            Kind::Comment => Token::Comment(n),
            Kind::OpenBracket => Token::Punctuation(n, PunctuationKind::OpenBracket),
            Kind::CloseBracket => Token::Punctuation(n, PunctuationKind::CloseBracket),
            Kind::Identifier => Token::Identifier(n),
        })
    }
}

// The digits of a base, told by `belongs`, behind the prefix that stands at `at`. It is made anew for each base, as `run_end` is.
// Source and place stay two parameters, here and below: with a struct of what is left and a ghost field, and patterns of its first bytes in
// `number`, tokens took 3 to 8 % longer.
fn number_literal_with_prefix<F: Fn(u8) -> bool>(
    source: &[u8],
    at: usize,
    base: Base,
    belongs: F,
) -> Scanned
    requires { (at < length source.now) × (F.IsAlwaysCallable belongs
        × ((p : ℕ → Bool) × ((c : ℕ) (r : Bool) → c < 256 → F.post belongs c r → r ≡ p c)
        × ((c : ℕ) → p c ≡ true → (is_hex_digit c ≡ true) × (digit c < radix base)))) }
    ensures { (p : ℕ → Bool) → ((c : ℕ) (r : Bool) → c < 256 → F.post belongs c r → r ≡ p c)
        → ((c : ℕ) → p c ≡ true → (is_hex_digit c ≡ true) × (digit c < radix base))
        → result ≡ scanned_of at (prefixed (radix base) p (drop (at + 2) source.now)) }
{
    let from = at + 2;
    let end = run_end(source, from, belongs);
    if end == from {
        return Scanned::plain(Kind::Number, at + 1);
    }
    match from_radix(&source[from..end], base) {
        Some(value) => Scanned {
            kind: Kind::Number,
            value,
            end,
        },
        None => Scanned::plain(Kind::TooLarge, end),
    }
}

// The digits from `at` to before `to`, as a literal that ends at `end`.
fn number_literal(source: &[u8], at: usize, to: usize, base: Base, end: usize) -> Scanned
    requires { (at ≤ to) × (to ≤ length source.now) × (at < length source.now) × (at ≤ end)
        × (are_hex_digits source.now at to ≡ true) }
    ensures { result ≡ scanned_of at (digits (get_or source.now at 0) (radix base) (take (to - at) (drop at source.now)) (end - at)) }
{
    match from_radix(&source[at..to], base) {
        Some(v) => Scanned {
            kind: Kind::Number,
            value: v,
            end,
        },
        None => Scanned {
            kind: Kind::Invalid,
            value: u32::from(source[at]),
            end: at + 1,
        },
    }
}

// A number with no prefix: a run of hexadecimal digits. The letter behind it is the suffix if it is o or h, else its last if it is b or d.
fn number_literal_with_suffix(source: &[u8], at: usize) -> Scanned
    requires { (at < length source.now) × (is_digit (get_or source.now at 0) ≡ true) }
    ensures { result ≡ scanned_of at (suffixed (get_or source.now at 0) (drop (suc at) source.now)) }
{
    let end = run_end(source, at, is_hexadecimal_digit);
    match source.get(end) {
        Some(b'o' | b'O') => return number_literal(source, at, end, Base::Octal, end + 1),
        Some(b'h' | b'H') => return number_literal(source, at, end, Base::Hexadecimal, end + 1),
        _ => {}
    }
    let last = end - 1;
    match source[last] {
        b'b' | b'B' => {
            if run_end(source, at, is_at_most_one) < last {
                return Scanned::plain(Kind::LargerDigit, end);
            }
            return number_literal(source, at, last, Base::Binary, end);
        }
        b'd' | b'D' => return number_literal(source, at, last, Base::Decimal, end),
        _ => {}
    }
    number_literal(source, at, end, Base::Decimal, end)
}

// The number that begins with the digit `first`.
fn number(source: &[u8], at: usize, first: u8) -> Scanned
    requires { (at < length source.now) × (first ≡ get_or source.now at 0) × (is_digit first ≡ true) }
    ensures { result ≡ scanned_of at (number_at first (drop (suc at) source.now)) }
{
    if first == b'0' {
        match source.get(at + 1) {
            Some(b'b') => return number_literal_with_prefix(
                source,
                at,
                Base::Binary,
                is_binary_digit,
            ),
            Some(b'o') => return number_literal_with_prefix(
                source,
                at,
                Base::Octal,
                is_octal_digit,
            ),
            Some(b'd') => return number_literal_with_prefix(
                source,
                at,
                Base::Decimal,
                is_decimal_digit,
            ),
            Some(b'x') => return number_literal_with_prefix(
                source,
                at,
                Base::Hexadecimal,
                is_hexadecimal_digit,
            ),
            _ => {}
        }
    }
    number_literal_with_suffix(source, at)
}

// The token at a place; beyond the end, the end of file. The tests stand in the order of how often each is met, and each returns: with a
// token that is the value of a match within a match, all tokens took a quarter longer.
pub fn scan(source: &[u8], at: usize) -> Scanned
    ensures { result ≡ scanned_of at (token_at (drop at source.now)) }
{
    if source.len() <= at {
        return Scanned::plain(Kind::EndOfFile, at);
    }
    let c = source[at];
    if is_whitespace(c) {
        return Scanned::plain(Kind::Whitespace, run_end(source, at + 1, is_whitespace));
    }
    if is_identifier_first(c) {
        return Scanned::plain(Kind::Identifier, run_end(source, at + 1, is_identifier));
    }
    if is_decimal_digit(c) {
        return number(source, at, c);
    }
    if let Some(kind) = single(c) {
        return Scanned::plain(kind, at + 1);
    }
    if c == b';' {
        return Scanned::plain(Kind::Comment, run_end(source, at + 1, is_remark));
    }
    if c == b'\'' {
        let end = quoted_end(source, at + 1);
        if let Some(b'\'') = source.get(end) {
            return Scanned::plain(Kind::ClosedString, end + 1);
        }
        return Scanned::plain(Kind::UnclosedString, end);
    }
    Scanned {
        kind: Kind::Invalid,
        value: u32::from(c),
        end: at + 1,
    }
}

// Why a number is refused, and its span.
#[derive(Clone, Copy, PartialEq, Eq)]
pub struct BadNumber {
    pub fault: Fault,
    pub from: usize,
    pub to: usize,
}

// The place at which the next token is read.
#[derive(Clone, Copy)]
pub struct Cursor {
    pub pos: usize,
}

impl Cursor {
    // At the source's start.
    pub fn new() -> Cursor
        ensures { result.pos ≡ 0 }
    {
        Cursor { pos: 0 }
    }

    // The next token and the cursor behind it.
    pub fn next_token(self, source: &[u8]) -> Result<(Token, Cursor), BadNumber>
        ensures { result ≡ next_of self.pos (token_at (drop self.pos source.now)) }
    {
        let from = self.pos;
        let scanned = scan(source, from);
        let end = scanned.end;
        match scanned.token(end - from) {
            Ok(token) => Ok((token, Cursor { pos: end })),
            Err(fault) => Err(BadNumber {
                fault,
                from,
                to: end,
            }),
        }
    }
}

// The text of a token: `len` bytes from `start` on, or as many as there are.
pub fn source_at(source: &[u8], start: usize, len: usize) -> &[u8]
    ensures { result.now ≡ take len (drop start source.now) }
{
    let rest = &source[start.min(source.len())..];
    &rest[..len.min(rest.len())]
}
