// Expressions, written in reverse Polish.
#![tactic(auto)]

ghost use Rattle.std.specs.Prelude.{◌≡◌, length};
ghost use Rattle.std.proofs.Math.Option.{some};
ghost use Rattle.rules.specs.Expressions as rules;
ghost use Rattle.rules.specs.Lexemes.{mark};
ghost use Rattle.rules.specs.Records.{plain};
ghost use Rattle.records.specs.Marks.{letters_of};
ghost use Rattle.lexer.specs.Scanned.{number_of as kind_number};
ghost use Rattle.lexer.specs.declared.Kind.TheVariants as Kind;
ghost use Rattle.state.specs.Views.{InLine, line_of, line, Reads};
ghost use Rattle.operators.specs.Operators.{operator_number};
ghost use Rattle.expressions.specs.Ahead.{number_in, token_record};

use lexer::Kind;
use operators::Operator;
use records::Writer;
use records::marks::Mark;
use refusals::{Reason, Refusal, refused_nowhere};
use state::source::Source;
use state::{Parser, expect, next, refuse_here, text};

// The operator whose character is the token's kind. A question that most kinds answer with no, so no conversion.
#[tactic(auto, unfolding(rules::specs::Expressions::operator_of, rules::specs::Reader::is_mark, lexer::specs::Text::is))]
fn operator_of(kind: Kind) -> Option<Operator>
    ensures { number_in result ≡ rules.operator_of (mark (kind_number kind)) }
{
    match kind {
        Kind::Plus => Some(Operator::Add),
        Kind::Minus => Some(Operator::Subtract),
        Kind::Star => Some(Operator::Multiply),
        Kind::ForwardSlash => Some(Operator::Divide),
        _ => None,
    }
}

// So many expressions may begin within one another.
pub const DEEPEST: u32 = 32;

// An expression of operators that bind at least as tightly as `level`; `left` more levels may begin.
// Source and writer go together through the readers and stay two parameters: a struct of both, lent to be written, would make each contract
// say that the source stays, and many steps take the source alone.
#[cycle(expressions)]
pub fn expression(
    source: Source<'_>,
    out: &mut Writer<'_>,
    p: Parser,
    level: u8,
    left: u32,
) -> Result<Parser, Refusal>
    ensures { Reads line source.entry.text.now p (rules.expr left level) out.old out.new result }
{
    if left == 0 {
        return Err(refuse_here(p, Reason::ExpressionTooDeep));
    }
    let deeper = left - 1;
    let q = primary(source, out, p, deeper)?;
    infixes(source, out, q, level, p.token_start, deeper)
}

// An expression that stands in no other.
#[tactic(auto, unfolding(rules::specs::Expressions::expression))]
pub fn outermost(source: Source<'_>, out: &mut Writer<'_>, p: Parser) -> Result<Parser, Refusal>
    ensures { Reads line source.entry.text.now p rules.expression out.old out.new result }
{
    expression(source, out, p, 0, DEEPEST)
}

// What an expression begins with: a parenthesis, a prefix operator or an atom.
#[cycle(expressions)]
fn primary(
    source: Source<'_>,
    out: &mut Writer<'_>,
    p: Parser,
    deeper: u32,
) -> Result<Parser, Refusal>
    ensures { Reads line source.entry.text.now p (rules.primary (rules.expr deeper)) out.old out.new result }
{
    if p.kind == Kind::OpenParenthesis {
        return parenthesis(source, out, p, deeper);
    }
    match operator_of(p.kind) {
        Some(op) => prefixed(source, out, p, op, deeper),
        None => atom(source, out, p),
    }
}

// Parentheses leave no record.
#[cycle(expressions)]
fn parenthesis(
    source: Source<'_>,
    out: &mut Writer<'_>,
    p: Parser,
    deeper: u32,
) -> Result<Parser, Refusal>
    requires { p.kind ≡ Kind.OpenParenthesis }
    ensures { Reads line source.entry.text.now p (rules.primary (rules.expr deeper)) out.old out.new result }
{
    let q = next(source, p)?;
    let inner = expression(source, out, q, 0, deeper)?;
    expect(
        source,
        inner,
        Kind::CloseParenthesis,
        Reason::CloseParenthesisExpected,
    )
}

// A prefix operator and its operand. 22 comes after the token behind the operator was read.
#[cycle(expressions)]
fn prefixed(
    source: Source<'_>,
    out: &mut Writer<'_>,
    p: Parser,
    op: Operator,
    deeper: u32,
) -> Result<Parser, Refusal>
    requires { rules.operator_of (mark (kind_number p.kind)) ≡ some (operator_number op) }
    ensures { Reads line source.entry.text.now p (rules.primary (rules.expr deeper)) out.old out.new result }
{
    let q = next(source, p)?;
    let Some(level) = op.prefix_level() else {
        return Err(refused_nowhere(Reason::InvalidPrefixOperator));
    };
    let inner = expression(source, out, q, level, deeper)?;
    out.put_record(Mark::PF, [p.token_start, inner.last_token_end, op.number()]);
    Ok(inner)
}

// The infix operators, with their right operands, behind an expression that began at `from`.
#[cycle(expressions)]
fn infixes(
    source: Source<'_>,
    out: &mut Writer<'_>,
    p: Parser,
    level: u8,
    from: u32,
    deeper: u32,
) -> Result<Parser, Refusal>
    ensures { Reads line source.entry.text.now p (rules.infixes (length (line_of source.entry.text.now p).more) (rules.expr deeper) level from)
        out.old out.new result }
{
    let mut left = p;
    while let Some(op) = operator_of(left.kind) {
        let binds = op.infix_level();
        if binds < level {
            return Ok(left);
        }
        let behind = next(source, left)?;
        let right = expression(source, out, behind, binds + 1, deeper)?;
        out.put_record(Mark::IN, [from, right.last_token_end, op.number()]);
        left = right;
    }
    Ok(left)
}

// A number, a character, a name, `$` or `$$`.
fn atom(source: Source<'_>, out: &mut Writer<'_>, p: Parser) -> Result<Parser, Refusal>
    ensures { Reads line source.entry.text.now p rules.atom out.old out.new result }
{
    match p.kind {
        Kind::Number => token_record(source, out, p, Mark::VC, [p.token_start, p.pos, p.value]),
        Kind::Identifier => token_record(source, out, p, Mark::VL, [p.token_start, p.pos]),
        Kind::Dollar => dollar(source, out, p),
        Kind::ClosedString => character(source, out, p),
        Kind::UnclosedString => Err(refuse_here(p, Reason::ClosedStringExpected)),
        _ => Err(refuse_here(p, Reason::OperandExpected)),
    }
}

// Past the token ahead, for which one record is put.
pub fn token_record<const N: usize>(
    source: Source<'_>,
    out: &mut Writer<'_>,
    p: Parser,
    mark: Mark,
    fields: [u32; N],
) -> Result<Parser, Refusal>
    requires { InLine p }
    ensures { Reads line source.entry.text.now p (token_record (plain (letters_of mark) fields.entry)) out.old out.new result }
{
    let q = next(source, p)?;
    out.put_record(mark, fields);
    Ok(q)
}

// A closed string of one character is its number.
fn character(source: Source<'_>, out: &mut Writer<'_>, p: Parser) -> Result<Parser, Refusal>
    requires { p.kind ≡ Kind.ClosedString }
    ensures { Reads line source.entry.text.now p rules.atom out.old out.new result }
{
    match text(source.text, p) {
        [_, c, _] => token_record(
            source,
            out,
            p,
            Mark::VC,
            [p.token_start, p.pos, u32::from(*c)],
        ),
        _ => Err(refuse_here(p, Reason::OneCharacterExpected)),
    }
}

// `$`, or `$$`, whose span is the first one.
fn dollar(source: Source<'_>, out: &mut Writer<'_>, p: Parser) -> Result<Parser, Refusal>
    requires { p.kind ≡ Kind.Dollar }
    ensures { Reads line source.entry.text.now p rules.atom out.old out.new result }
{
    let q = next(source, p)?;
    if q.kind == Kind::Dollar {
        return token_record(source, out, q, Mark::VS, [p.token_start, p.pos]);
    }
    out.put_record(Mark::VI, [p.token_start, p.pos]);
    Ok(q)
}
