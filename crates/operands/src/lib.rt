// Operands of an instruction.
#![tactic(auto)]

ghost use Rattle.std.specs.Prelude.{◌≡◌};
ghost use Rattle.std.proofs.Math.Option.{some};
ghost use Rattle.rules.specs.Reader.{attempt};
ghost use Rattle.rules.specs.Lexemes.{name_in};
ghost use Rattle.rules.specs.Operands as rules;
ghost use Rattle.names.specs.Names.{registers, segments, found_of};
ghost use Rattle.state.specs.Views.{InLine, here_of, line, Looks, Reads, ReadsWith};
ghost use Rattle.operands.specs.Answers.{operands_of, name_at, itself, encoding_of, coded, flag};
ghost use Rattle.operands.specs.Parts as parts;

use expressions::{outermost, token_record};
use lexer::Kind;
use names::Name;
use records::Writer;
use records::marks::Mark;
use refusals::{Reason, Refusal, Registers, refused_at};
use state::source::Source;
use state::{Parser, expect, is_line_end, next, refuse_here, text};

// How many operands, and their span.
#[derive(Clone, Copy)]
pub struct OperandList {
    pub count: u32,
    pub from: u32,
    pub to: u32,
}

// A bracket that began at `from`: the number of the size word before it, that of its segment, the encoding of its registers, and whether
// it holds an expression.
#[derive(Clone, Copy)]
struct Bracket {
    from: u32,
    size: Option<u8>,
    segment: Option<u8>,
    registers: Option<u8>,
    displaced: bool,
}

// Registers stay their numbers: these four alone are told apart, and the numbers are the encoding that the names and the listing hold.
const BX: u8 = 11;

const BP: u8 = 13;

const SI: u8 = 14;

const DI: u8 = 15;

// What the token ahead names.
pub fn name_ahead(source: &[u8], p: Parser) -> Option<Name>
    ensures { result ≡ name_at (here_of source.now p).kind }
{
    if p.kind == Kind::Identifier {
        names::name_of(text(source, p))
    } else {
        None
    }
}

// The register that the token ahead names, if it names one.
fn register_ahead(source: Source<'_>, p: Parser) -> Option<u8>
    ensures { result ≡ found_of (name_in registers (here_of source.entry.text.now p).kind) }
{
    match name_ahead(source.text, p)? {
        Name::Register(r) => Some(r),
        Name::Segment(_) | Name::Size(_) => None,
    }
}

// The segment that the token ahead names, if it names one. The two differ in the variant, which no parameter names; a closure for it would
// hold the same match.
fn segment_ahead(source: Source<'_>, p: Parser) -> Option<u8>
    ensures { result ≡ found_of (name_in segments (here_of source.entry.text.now p).kind) }
{
    match name_ahead(source.text, p)? {
        Name::Segment(s) => Some(s),
        Name::Register(_) | Name::Size(_) => None,
    }
}

// An expression, or two with a colon between them.
fn immediate_or_far(source: Source<'_>, out: &mut Writer<'_>, p: Parser) -> Result<Parser, Refusal>
    ensures { Reads line source.entry.text.now p rules.immediate_or_far out.old out.new result }
{
    let from = p.token_start;
    let q = outermost(source, out, p)?;
    if q.kind == Kind::Colon {
        return far(source, out, q, from);
    }
    out.put_record(Mark::OI, [from, q.last_token_end]);
    Ok(q)
}

// The colon and the second expression of an operand that began at `from`.
fn far(source: Source<'_>, out: &mut Writer<'_>, p: Parser, from: u32) -> Result<Parser, Refusal>
    requires { InLine p }
    ensures { Reads line source.entry.text.now p (parts.far from) out.old out.new result }
{
    let q = next(source, p)?;
    let after = outermost(source, out, q)?;
    out.put_record(Mark::OF, [from, after.last_token_end]);
    Ok(after)
}

#[tactic(auto, unfolding(rules::specs::Operands::is_index))]
fn is_index(r: u8) -> bool
    ensures { result ≡ rules.is_index r }
{
    matches!(r, SI | DI)
}

#[tactic(auto, unfolding(rules::specs::Operands::is_base))]
fn is_base(r: u8) -> bool
    ensures { result ≡ rules.is_base r }
{
    matches!(r, BX | BP)
}

// The encoding of one register.
#[tactic(auto, unfolding(rules::specs::Operands::alone))]
fn alone(r: u8) -> u8
    ensures { result ≡ rules.alone r }
{
    match r {
        SI => 4,
        DI => 5,
        BP => 6,
        _ => 7,
    }
}

// The encoding of bx or bp with si or di.
#[tactic(auto, unfolding(rules::specs::Operands::paired))]
fn paired(r: u8, q: u8) -> u8
    ensures { result ≡ rules.paired r q }
{
    let base = if r == BX { 0 } else { 2 };
    let index = if q == SI { 0 } else { 1 };
    base + index
}

// The first register in a bracket, and where it began.
#[derive(Clone, Copy)]
struct Leading {
    from: u32,
    register: u8,
}

// Behind the first register: the plus ahead, and si or di. Where no register follows the plus, back to the plus.
fn plus_index(source: Source<'_>, p: Parser, r: Leading) -> Result<(Parser, u8), Refusal>
    requires { InLine p }
    ensures { Looks line source.entry.text.now p itself (attempt (rules.plus_index r.from r.register) (rules.alone r.register)) result }
{
    let q = next(source, p)?;
    let Some(s) = register_ahead(source, q) else {
        return Ok((p, alone(r.register)));
    };
    if is_index(s) {
        return index(source, q, r, s);
    }
    Err(Refusal {
        reason: Reason::InvalidIndirectEncoding,
        from: r.from,
        to: q.pos,
        registers: Registers::Two(r.register, s),
    })
}

// Past the second register, `s`. Two that begin with si or di are 33.
fn index(source: Source<'_>, p: Parser, r: Leading, s: u8) -> Result<(Parser, u8), Refusal>
    requires { InLine p }
    ensures { Looks line source.entry.text.now p some (parts.index r.from r.register s) result }
{
    let q = next(source, p)?;
    if is_index(r.register) {
        return Err(refused_at(Reason::TwoIndexRegisters, r.from, q.last_token_end));
    }
    Ok((q, paired(r.register, s)))
}

// The encoding of the first register, which has been passed, with what follows it.
fn second(source: Source<'_>, p: Parser, r: Leading) -> Result<(Parser, u8), Refusal>
    ensures { Looks line source.entry.text.now p itself (rules.second r.from r.register) result }
{
    if p.kind == Kind::Plus {
        return plus_index(source, p, r);
    }
    Ok((p, alone(r.register)))
}

// Past the first register and what follows it.
fn first(source: Source<'_>, p: Parser, register: u8) -> Result<(Parser, Option<u8>), Refusal>
    requires { InLine p }
    ensures { Looks line source.entry.text.now p encoding_of (parts.first p.token_start register) result }
{
    let q = next(source, p)?;
    let from = p.token_start;
    let (after, e) = second(source, q, Leading { from, register })?;
    Ok((after, Some(e)))
}

// The encoding of the registers ahead, if there are any.
fn registers_ahead(source: Source<'_>, p: Parser) -> Result<(Parser, Option<u8>), Refusal>
    ensures { Looks line source.entry.text.now p encoding_of rules.registers_ahead result }
{
    let Some(r) = register_ahead(source, p) else {
        return Ok((p, None));
    };
    if is_base(r) | is_index(r) {
        return first(source, p, r);
    }
    // As the Rust: to the end of the token before the register, and so no proper range.
    let to = p.last_token_end;
    Err(Refusal {
        reason: Reason::InvalidIndirectEncoding,
        from: p.token_start,
        to,
        registers: Registers::One(r),
    })
}

// An expression, unless the bracket closes; and whether there was one.
fn displacement(
    source: Source<'_>,
    out: &mut Writer<'_>,
    p: Parser,
) -> Result<(Parser, bool), Refusal>
    ensures { ReadsWith line source.entry.text.now p flag rules.displacement out.old out.new result }
{
    if p.kind == Kind::CloseBracket {
        return Ok((p, false));
    }
    let after = outermost(source, out, p)?;
    Ok((after, true))
}

// A number that may be missing, as a record has it: 1 more than the number, else 0. No `From`: both types are the language's.
fn coded(number: Option<u8>) -> u32
    ensures { result ≡ coded number }
{
    number.map_or(0, |n| u32::from(n) + 1)
}

// The end of a bracket, and its record. A bracket that holds nothing is 32.
fn close(
    source: Source<'_>,
    out: &mut Writer<'_>,
    p: Parser,
    bracket: Bracket,
) -> Result<Parser, Refusal>
    ensures { Reads line source.entry.text.now p
        (rules.close bracket.from (coded bracket.size) (coded bracket.segment) (encoding_of bracket.registers) (flag bracket.displaced))
        out.old out.new result }
{
    let q = expect(source, p, Kind::CloseBracket, Reason::CloseBracketExpected)?;
    let from = bracket.from;
    let to = q.last_token_end;
    let size = coded(bracket.size);
    let segment = coded(bracket.segment);
    match bracket.registers {
        Some(e) => {
            let has = u32::from(bracket.displaced);
            out.put_record(Mark::OX, [from, to, u32::from(e), has, size, segment]);
        }
        None => {
            if !bracket.displaced {
                return Err(refused_at(Reason::NothingAfterOverride, from, to));
            }
            out.put_record(Mark::OD, [from, to, size, segment]);
        }
    }
    Ok(q)
}

// The number of a segment ahead, and past its colon, if there is one.
fn segment_override(source: Source<'_>, p: Parser) -> Result<(Parser, Option<u8>), Refusal>
    ensures { Looks line source.entry.text.now p coded rules.override result }
{
    let Some(s) = segment_ahead(source, p) else {
        return Ok((p, None));
    };
    let q = next(source, p)?;
    let after = expect(source, q, Kind::Colon, Reason::ColonExpected)?;
    Ok((after, Some(s)))
}

// What stands in a bracket that began at `from` and whose first token is a name.
fn address(
    source: Source<'_>,
    out: &mut Writer<'_>,
    p: Parser,
    from: u32,
    size: Option<u8>,
) -> Result<Parser, Refusal>
    ensures { Reads line source.entry.text.now p (parts.address from (coded size)) out.old out.new result }
{
    let (q, segment) = segment_override(source, p)?;
    let (after, registers) = registers_ahead(source, q)?;
    let (end, displaced) = displacement(source, out, after)?;
    close(
        source,
        out,
        end,
        Bracket {
            from,
            size,
            segment,
            registers,
            displaced,
        },
    )
}

// A bracket, behind a size word of number `size` or none.
fn memory(
    source: Source<'_>,
    out: &mut Writer<'_>,
    p: Parser,
    size: Option<u8>,
) -> Result<Parser, Refusal>
    requires { InLine p }
    ensures { Reads line source.entry.text.now p (rules.memory (coded size)) out.old out.new result }
{
    let from = p.token_start;
    let q = next(source, p)?;
    match q.kind {
        Kind::Identifier => address(source, out, q, from, size),
        Kind::Number => {
            let end = outermost(source, out, q)?;
            close(
                source,
                out,
                end,
                Bracket {
                    from,
                    size,
                    segment: None,
                    registers: None,
                    displaced: true,
                },
            )
        }
        _ => Err(refuse_here(q, Reason::SegmentOrAddressExpected)),
    }
}

// An operand, perhaps behind size words, of which the last counts.
fn operand(source: Source<'_>, out: &mut Writer<'_>, p: Parser) -> Result<Parser, Refusal>
    ensures { Reads line source.entry.text.now p rules.operand out.old out.new result }
{
    let mut q = p;
    let mut size = None;
    loop {
        if q.kind == Kind::OpenBracket {
            return memory(source, out, q, size);
        }
        match name_ahead(source.text, q) {
            Some(Name::Register(r)) => {
                return token_record(
                    source,
                    out,
                    q,
                    Mark::OR,
                    [q.token_start, q.pos, u32::from(r)],
                );
            }
            Some(Name::Segment(s)) => {
                return token_record(
                    source,
                    out,
                    q,
                    Mark::OS,
                    [q.token_start, q.pos, u32::from(s)],
                );
            }
            None => return immediate_or_far(source, out, q),
            Some(Name::Size(z)) => {
                q = next(source, q)?;
                size = Some(z);
            }
        }
    }
}

// The operands of an instruction: none, one, or two with a comma between them.
pub fn operands(
    source: Source<'_>,
    out: &mut Writer<'_>,
    p: Parser,
) -> Result<(Parser, OperandList), Refusal>
    ensures { ReadsWith line source.entry.text.now p operands_of rules.operands out.old out.new result }
{
    if is_line_end(p.kind) {
        let end = p.last_token_end;
        let none = OperandList {
            count: 0,
            from: end,
            to: end,
        };
        return Ok((p, none));
    }
    let from = p.token_start;
    let q = operand(source, out, p)?;
    if is_line_end(q.kind) {
        let to = q.last_token_end;
        return Ok((q, OperandList { count: 1, from, to }));
    }
    if q.kind == Kind::Comma {
        return second_operand(source, out, q, from);
    }
    Err(refuse_here(q, Reason::CommaExpected))
}

// The comma and the second operand, where the first began at `from`.
fn second_operand(
    source: Source<'_>,
    out: &mut Writer<'_>,
    p: Parser,
    from: u32,
) -> Result<(Parser, OperandList), Refusal>
    requires { InLine p }
    ensures { ReadsWith line source.entry.text.now p operands_of (parts.source from) out.old out.new result }
{
    let q = next(source, p)?;
    let after = operand(source, out, q)?;
    let to = after.last_token_end;
    Ok((after, OperandList { count: 2, from, to }))
}
