// The parser's state, one token ahead, and the steps that all readers share.
#![tactic(auto)]

ghost use Rattle.std.specs.Prelude.{◌≡◌, false, ◌||◌, eqb};
ghost use Rattle.lexer.specs.Scanned.{number_of as kind_number};
ghost use Rattle.lexer.specs.declared.Kind.TheVariants as Kind;
ghost use Rattle.refusals.specs.Refusals.{number_of, numbers};
ghost use Rattle.rules.specs.Reader.{at, next as next_token, numbers_of};
ghost use Rattle.rules.specs.Statements.{next_row};
ghost use Rattle.state.specs.Views.{InLine, ends_line, text_of, line, whole, Passes, Fetches, FaultOf, TokenOf, Expects};

use lexer::Kind;
use refusals::{Reason, Refusal, refused_at};
use source::Source;

pub mod source;

// The token ahead stands from `token_start` to before `pos`; the last one passed in its line ended at `last_token_end`.
// `value` is the token's where it is a number; else no reader looks at it. It stands beside the kind as in `lexer::Scanned`. The fields' order is
// `Refusal`'s, which says why. The source is no part of it, and the readers are functions and no methods: the state goes by value from step to
// step, and the source's slice would go along with each.
#[derive(Clone, Copy)]
pub struct Parser {
    pub pos: u32,
    pub token_start: u32,
    pub kind: Kind,
    pub last_token_end: u32,
    pub value: u32,
}

// Refused on the token ahead.
pub fn refuse_here(p: Parser, reason: Reason) -> Refusal
    ensures { numbers result ≡ numbers_of (at (number_of reason) p.token_start p.pos) }
{
    refused_at(reason, p.token_start, p.pos)
}

// A token that means something, where it stands; its value beside its kind, as in `Parser`.
#[derive(Drop)]
struct Fetched {
    start: u32,
    end: u32,
    kind: Kind,
    value: u32,
}

// What stands between tokens that mean something.
fn is_gap(kind: Kind) -> bool
    ensures { result ≡ (eqb (kind_number kind) 32 || eqb (kind_number kind) 59) }
{
    matches!(kind, Kind::Whitespace | Kind::Comment)
}

// The first token from a place on, past whitespace and comments.
fn fetch(source: Source<'_>, place: u32) -> Fetched
    ensures { Fetches source.entry.text.now place result.start result.end result.kind result.value }
{
    // no `for`: a step is a token, whose length is known when it is read
    let mut at = place;
    loop {
        let t = lexer::scan(source.text, at as usize);
        let end = t.end as u32;
        if is_gap(t.kind) {
            at = end;
        } else {
            return Fetched {
                start: at,
                end,
                kind: t.kind,
                value: t.value,
            };
        }
    }
}

// Why a number is refused: 30 and 31. A question that most kinds answer with no, so no conversion.
fn fault(kind: Kind) -> Option<Reason>
    ensures { FaultOf kind result }
{
    match kind {
        Kind::LargerDigit => Some(Reason::BinaryLargerDigit),
        Kind::TooLarge => Some(Reason::PrefixedTooLarge),
        _ => None,
    }
}

// The first token from a place on, unless its number is refused.
fn token(source: Source<'_>, place: u32) -> Result<Fetched, Refusal>
    ensures { TokenOf source.entry.text.now place result }
{
    let t = fetch(source, place);
    match fault(t.kind) {
        Some(reason) => Err(refused_at(reason, t.start, t.end)),
        None => Ok(t),
    }
}

// The next token of the line becomes the one ahead. That the line goes on (`InLine`) is a clause, where `statements::Word` is a struct: a word is made
// once and handed down; a state within its line would be made anew at each call, behind another test each, and taken apart here.
pub fn next(source: Source<'_>, p: Parser) -> Result<Parser, Refusal>
    requires { InLine p }
    ensures { Passes line source.entry.text.now p next_token result }
{
    let t = token(source, p.pos)?;
    Ok(Parser {
        pos: t.end,
        token_start: t.start,
        last_token_end: p.pos,
        kind: t.kind,
        value: t.value,
    })
}

// The first token of the next line becomes the one ahead; no token of that line is passed yet. It stays beside `next`: the two ask and say other
// things of one token.
pub fn next_line(source: Source<'_>, p: Parser) -> Result<Parser, Refusal>
    requires { p.kind ≡ Kind.NewLine }
    ensures { Passes whole source.entry.text.now p next_row result }
{
    let t = token(source, p.pos)?;
    Ok(Parser {
        pos: t.end,
        token_start: t.start,
        last_token_end: t.start,
        kind: t.kind,
        value: t.value,
    })
}

// Past the token ahead, which has to be of this kind.
pub fn expect(source: Source<'_>, p: Parser, kind: Kind, reason: Reason) -> Result<Parser, Refusal>
    requires { ends_line kind ≡ false }
    ensures { Expects source.entry.text.now p kind reason result }
{
    if p.kind == kind {
        return next(source, p);
    }
    Err(refuse_here(p, reason))
}

// A line ends at its line feed or at the end of the source. The kind is the lexer's, so this is no method of it.
pub fn is_line_end(kind: Kind) -> bool
    ensures { result ≡ ends_line kind }
{
    matches!(kind, Kind::NewLine | Kind::EndOfFile)
}

// The token's bytes.
#[tactic(auto, unfolding(crate::specs::Views::text_of))]
pub fn text(source: &[u8], p: Parser) -> &[u8]
    ensures { result.now ≡ text_of source.now p.token_start p.pos }
{
    let from = p.token_start as usize;
    let to = p.pos as usize;
    lexer::source_at(source, from, to.saturating_sub(from))
}
