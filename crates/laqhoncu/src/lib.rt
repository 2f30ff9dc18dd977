// What `laqhoncu_c` exports, and a crate may call: thin functions over the libraries, each with the whole contract of what it calls.
#![tactic(auto)]

ghost use Rattle.laqhoncu.specs.Counted.{count_from};
ghost use Rattle.std.specs.Prelude.{◌≡◌, length, drop};
ghost use Rattle.lexer.specs.Tokens.{token_at};
ghost use Rattle.lexer.specs.Scanned.{next_of};
ghost use Rattle.names.specs.Table.{operations};
ghost use Rattle.names.specs.Names.{operation_named, found_of, name_of, directive_of};
ghost use Rattle.rules.specs.Statements.{present};
ghost use Rattle.rules.specs.Calls as rules;
ghost use Rattle.refusals.specs.Refusals.{numbers as values_of, by_numbers};
ghost use Rattle.rules.specs.Patch.{patch as patch_call, patch_source, patch_listing};
ghost use Rattle.operators.specs.Operators.{result_of};
ghost use Rattle.reader.specs.Calls.{token_answer, statement_answer};
ghost use Rattle.patch.specs.Patched.{patch_answer, AsFullRead};
ghost use Rattle.laqhoncu.specs.Found as spec;
ghost use Rattle.laqhoncu.specs.Found.{literal_found, token_found, next_found, operation_byte, name_number, directive_byte};
ghost use Rattle.laqhoncu.specs.Readings as readings;
ghost use Rattle.laqhoncu.specs.Readings.{full_reading, FullReads, statement_reading, token_reading, patching, valuation, valued};

use lexer::{BadNumber, Cursor, Kind, LiteralKind, Token};
use names::{Directive, Name};
use operators::{EvaluateError, Operator};
use patch::Patched;
use reader::Written;
use refusals::{Reason, Refusal};

// A token as numbers: its kind by the number of `lexer::Kind`, a number's value or an invalid token's byte, and the place behind it.
#[repr(C)]
#[derive(Clone, Copy)]
pub struct TokenFound {
    pub kind: u8,
    pub value: i32,
    pub end: usize,
}

impl TokenFound {
    fn found(kind: Kind, value: i32, end: usize) -> TokenFound
        ensures { result ≡ spec.found kind value end }
    {
        TokenFound {
            kind: kind.number(),
            value,
            end,
        }
    }

    // A token of a kind that needs no value.
    fn plain(kind: Kind, end: usize) -> TokenFound
        ensures { result ≡ spec.plain kind end }
    {
        TokenFound::found(kind, 0, end)
    }

    fn literal(k: LiteralKind, end: usize) -> TokenFound
        ensures { result ≡ literal_found k end }
    {
        match k {
            LiteralKind::Number(v) => TokenFound::found(Kind::Number, v, end),
            LiteralKind::Text(true) => TokenFound::plain(Kind::ClosedString, end),
            LiteralKind::Text(false) => TokenFound::plain(Kind::UnclosedString, end),
        }
    }
}

impl From<(Token, Cursor)> for TokenFound {
    ghost from_gives = { λ read t. t ≡ token_found read.0 read.1.pos };

    fn from(read: (Token, Cursor)) -> TokenFound {
        let end = read.1.pos;
        match read.0 {
            Token::Whitespace(_) => TokenFound::plain(Kind::Whitespace, end),
            Token::Identifier(_) => TokenFound::plain(Kind::Identifier, end),
            Token::Literal(_, k) => TokenFound::literal(k, end),
            Token::Punctuation(_, k) => TokenFound::plain(k.into(), end),
            Token::Comment(_) => TokenFound::plain(Kind::Comment, end),
            Token::NewLine(_) => TokenFound::plain(Kind::NewLine, end),
            Token::EndOfFile(_) => TokenFound::plain(Kind::EndOfFile, end),
            Token::Invalid(_, c) => TokenFound::found(Kind::Invalid, i32::from(c), end),
        }
    }
}

impl From<Result<(Token, Cursor), BadNumber>> for TokenFound {
    ghost from_gives = { λ next t. t ≡ next_found next };

    fn from(next: Result<(Token, Cursor), BadNumber>) -> TokenFound {
        match next {
            Ok(read) => read.into(),
            Err(bad) => TokenFound::plain(bad.fault.into(), bad.to),
        }
    }
}

// The token at a place, as the cursor reads it; a refused number has the kind 30 or 31.
pub fn laqhoncu_token(source: &[u8], place: usize) -> TokenFound
    ensures { result ≡ next_found (next_of place (token_at (drop place source.now))) }
{
    let cursor = Cursor { pos: place };
    cursor.next_token(source).into()
}

// The number of the operation that a word names, or 255.
pub fn laqhoncu_operation(word: &[u8]) -> u8
    ensures { result ≡ operation_byte (found_of (operation_named operations word.now)) }
{
    names::operations().operation(word).unwrap_or(255)
}

// The register that a word names (0 to 15), the segment (256 to 259), the size (512 and 513), or 65535.
pub fn laqhoncu_name(word: &[u8]) -> u16
    ensures { result ≡ name_number (name_of word.now) }
{
    match names::name_of(word) {
        Some(Name::Register(n)) => u16::from(n),
        Some(Name::Segment(n)) => 256 + u16::from(n),
        Some(Name::Size(n)) => 512 + u16::from(n),
        None => 65535,
    }
}

// The directive that a word names: `equ` 0, `db` 1, `dw` 2, `times` 3, or 255. The numbers are the C interface's, not those of the variants.
pub fn laqhoncu_directive(word: &[u8]) -> u8
    ensures { result ≡ directive_byte (directive_of word.now) }
{
    match names::directive_of(word) {
        Some(Directive::Equ) => 0,
        Some(Directive::Db) => 1,
        Some(Directive::Dw) => 2,
        Some(Directive::Times) => 3,
        None => 255,
    }
}

// A refusal as RULES 11.1 numbers it; number 0 is none. A register that is not there is 255.
#[repr(C)]
#[derive(Clone, Copy)]
pub struct Numbers {
    pub number: u32,
    pub from: u32,
    pub to: u32,
    pub first: u32,
    pub second: u32,
}

// Number 0, and how many bytes were written; or the refusal, and 0. C has no Result, and the header names each answer's struct and its fields: so
// these are structs of their own, and no one struct over the type of what is answered.
#[repr(C)]
#[derive(Clone, Copy)]
pub struct FullReading {
    pub refusal: Numbers,
    pub length: u32,
}

// The same, with the place of the token ahead. `found` is 1 where a statement was read, and else 0: C has no Option.
#[repr(C)]
#[derive(Clone, Copy)]
pub struct StatementReading {
    pub refusal: Numbers,
    pub found: u8,
    pub length: u32,
    pub ahead: u32,
}

// Number 0 and the token; or the refusal, and an end of file at 0.
#[repr(C)]
#[derive(Clone, Copy)]
pub struct TokenReading {
    pub refusal: Numbers,
    pub token: TokenFound,
}

// Number 0 and the value; or the refusal, and 0.
#[repr(C)]
#[derive(Clone, Copy)]
pub struct Valuation {
    pub refusal: Numbers,
    pub value: i32,
}

// The lengths of the edited source and of its listing.
#[repr(C)]
#[derive(Clone, Copy)]
pub struct Patching {
    pub refusal: Numbers,
    pub source: usize,
    pub listing: usize,
}

// No refusal's number, and that of an operator that is none: they are the C interface's alone.
const ACCEPTED: u32 = 0;

const NO_SUCH_OPERATOR: u32 = 255;

// A number without a place and registers.
fn numbered(number: u32) -> Numbers
    ensures { result ≡ readings.numbered number }
{
    Numbers {
        number,
        from: 0,
        to: 0,
        first: 255,
        second: 255,
    }
}

impl From<Refusal> for Numbers {
    ghost from_gives = { λ r n. n ≡ readings.numbers (values_of r) };

    fn from(r: Refusal) -> Numbers {
        Numbers {
            number: r.reason.number(),
            from: r.from,
            to: r.to,
            first: r.registers.first(),
            second: r.registers.second(),
        }
    }
}

impl From<Result<u32, Refusal>> for FullReading {
    ghost from_gives = { λ a r. r ≡ full_reading (by_numbers a) };

    fn from(a: Result<u32, Refusal>) -> FullReading {
        match a {
            Ok(length) => FullReading {
                refusal: numbered(ACCEPTED),
                length,
            },
            Err(r) => FullReading {
                refusal: r.into(),
                length: 0,
            },
        }
    }
}

// The listing of a source, written into `out` if there is room for all of it.
#[tactic(auto, using(crate::proofs::Writing::written))]
pub fn laqhoncu_full_read(source: &[u8], out: &mut [u8]) -> FullReading
    ensures { FullReads source.now out.old out.new result }
{
    reader::full_read(source, out).into()
}

// The same for a short stack: the source is read twice.
#[tactic(auto, using(crate::proofs::Writing::written))]
pub fn laqhoncu_full_read_lean(source: &[u8], out: &mut [u8]) -> FullReading
    ensures { FullReads source.now out.old out.new result }
{
    reader::full_read_lean(source, out).into()
}

impl From<Result<Option<Written>, Refusal>> for StatementReading {
    ghost from_gives = { λ a r. r ≡ statement_reading (by_numbers a) };

    fn from(a: Result<Option<Written>, Refusal>) -> StatementReading {
        match a {
            Ok(Some(w)) => StatementReading {
                refusal: numbered(ACCEPTED),
                found: 1,
                length: w.length,
                ahead: w.ahead,
            },
            Ok(None) => StatementReading {
                refusal: numbered(ACCEPTED),
                found: 0,
                length: 0,
                ahead: 0,
            },
            Err(r) => StatementReading {
                refusal: r.into(),
                found: 0,
                length: 0,
                ahead: 0,
            },
        }
    }
}

// The statement at a place, written into `out` if there is room for all of it.
pub fn laqhoncu_statement_read(source: &[u8], place: usize, out: &mut [u8]) -> StatementReading
    ensures answer { result ≡ statement_reading (statement_answer (rules.statement_call present source.now place (length out.old))) }
    ensures buffer { out.new ≡ rules.statement_buffer present source.now place out.old }
{
    reader::statement_read(source, place, out).into()
}

impl From<Result<(Token, Cursor), Refusal>> for TokenReading {
    ghost from_gives = { λ a r. r ≡ token_reading (by_numbers a) };

    fn from(a: Result<(Token, Cursor), Refusal>) -> TokenReading {
        match a {
            Ok(read) => TokenReading {
                refusal: numbered(ACCEPTED),
                token: read.into(),
            },
            Err(r) => TokenReading {
                refusal: r.into(),
                token: TokenFound::plain(Kind::EndOfFile, 0),
            },
        }
    }
}

// The token at a place of a source, after 42, 1 and 2.
pub fn laqhoncu_token_read(source: &[u8], place: usize) -> TokenReading
    ensures { result ≡ token_reading (token_answer place (rules.token_call source.now place)) }
{
    reader::token_read(source, place).into()
}

impl From<Result<Patched, Refusal>> for Patching {
    ghost from_gives = { λ a r. r ≡ patching (by_numbers a) };

    fn from(a: Result<Patched, Refusal>) -> Patching {
        match a {
            Ok(w) => Patching {
                refusal: numbered(ACCEPTED),
                source: w.source,
                listing: w.listing,
            },
            Err(r) => Patching {
                refusal: r.into(),
                source: 0,
                listing: 0,
            },
        }
    }
}

// The line that begins at a place of the old source exchanged for a text: the edited source in `source` and its listing in `out`.
pub fn laqhoncu_patch(
    old: &[u8],
    listing: &[u8],
    place: usize,
    text: &[u8],
    source: &mut [u8],
    out: &mut [u8],
) -> Patching
    ensures answer { result ≡ patching (patch_answer (patch_call present old.now listing.now place text.now
        (length source.old) (length out.old))) }
    ensures source { source.new ≡ patch_source (patch_call present old.now listing.now place text.now
        (length source.old) (length out.old)) source.old }
    ensures listing { out.new ≡ patch_listing (patch_call present old.now listing.now place text.now
        (length source.old) (length out.old)) out.old }
    ensures demand_3 { AsFullRead patching old.now listing.now place text.now
        source.old source.new out.old out.new result }
{
    patch::patch(old, listing, place, text, source, out).into()
}

impl From<Result<i32, EvaluateError>> for Valuation {
    ghost from_gives = { λ e v. v ≡ valued (result_of e) };

    fn from(e: Result<i32, EvaluateError>) -> Valuation {
        match e {
            Ok(value) => Valuation {
                refusal: numbered(ACCEPTED),
                value,
            },
            Err(e) => Valuation {
                refusal: numbered(Reason::from(e).number()),
                value: 0,
            },
        }
    }
}

// The operator of a number (0 `+`, 1 `-`, 2 `*`, 3 `/`) on two numbers. Any other number is refused with 255.
#[tactic(auto, using(crate::proofs::Evaluating::by_operator, crate::proofs::Evaluating::no_operator))]
pub fn laqhoncu_evaluate(operator: u8, left: i32, right: i32) -> Valuation
    ensures { result ≡ valuation operator left right }
{
    match Operator::try_from(operator) {
        Ok(op) => op.evaluate(left, right).into(),
        Err(_) => Valuation {
            refusal: numbered(NO_SUCH_OPERATOR),
            value: 0,
        },
    }
}

// How many tokens a source has, whitespace, comments and refused numbers among them. Each begins where the one before it ends, which a loop says as
// plainly as an iterator.
pub fn laqhoncu_count(source: &[u8]) -> usize
    ensures { result ≡ count_from 0 source.now }
{
    let mut at = 0;
    let mut n = 0;
    while at < source.len() {
        at = lexer::scan(source, at).end;
        n += 1;
    }
    n
}
