// Statements: labels, instructions, constants, data and `times`. The table of operations is a parameter, since the contracts hold for each good one.
#![tactic(auto)]

ghost use Rattle.std.specs.Prelude.{◌≡◌, ◌||◌, ℕ, List, eqb};
ghost use Rattle.lexer.specs.declared.Kind.TheVariants as Kind;
ghost use Rattle.records.specs.Writers.{Puts};
ghost use Rattle.rules.specs.Statements as rules;
ghost use Rattle.state.specs.Views.{InLine, parser_of, here_of, whole, Passes, Reads};
ghost use Rattle.statements.specs.Statements as answers;

use expressions::outermost;
use lexer::Kind;
use names::{Directive, Table};
use operands::operands;
use records::Writer;
use records::marks::Mark;
use refusals::{Reason, Refusal, refused_at};
use state::source::Source;
use state::{Parser, is_line_end, next, next_line, refuse_here, text};
use word::Word;

mod word;

// A statement was read, or none is left before the end of the source. `statement` promises the state behind the last one too (`NoneThere`), and
// `statements` answers it: so this is no Option.
#[derive(Clone, Copy)]
pub enum StatementRead {
    Read(Parser),
    NoneLeft(Parser),
}

// How many bytes a number of `db` or `dw` has.
#[derive(Clone, Copy)]
enum Width {
    Byte,
    Word,
}

// The line has to end here; to the next one.
fn line_end(source: Source<'_>, p: Parser) -> Result<Parser, Refusal>
    ensures { Passes whole source.entry.text.now p rules.line_end result }
{
    match p.kind {
        Kind::NewLine => next_line(source, p),
        Kind::EndOfFile => Ok(p),
        _ => Err(refuse_here(p, Reason::LineEndExpected)),
    }
}

// Past empty lines, to the first token of a line that has one, or to the end.
fn skip_lines(source: Source<'_>, p: Parser) -> Result<Parser, Refusal>
    ensures { Passes whole source.entry.text.now p rules.skip_lines result }
{
    let mut q = p;
    while q.kind == Kind::NewLine {
        q = next_line(source, q)?;
    }
    Ok(q)
}

// A label and its colon, if there is one, which is no part of it.
fn label(source: Source<'_>, out: &mut Writer<'_>, word: Word) -> Result<Parser, Refusal>
    ensures { Reads whole source.entry.text.now word.parser
        (rules.passing (rules.in_line (rules.label (here_of source.entry.text.now word.parser)))) out.old out.new result }
{
    let mut q = next(source, word.parser)?;
    if q.kind == Kind::Colon {
        q = next(source, q)?;
    }
    out.put_record(Mark::LL, [word.parser.token_start, word.parser.pos]);
    Ok(q)
}

// Operations stay their numbers, of which these two alone are told apart: the table and the listing hold the numbers.
const REP: u8 = 46;

const REPNE: u8 = 47;

fn is_repeat(operation: u8) -> bool
    ensures { result ≡ (eqb operation rules.rep || eqb operation rules.repne) }
{
    matches!(operation, REP | REPNE)
}

// An instruction; `rep` and `repne` take no operands and need no line end.
fn instruction(
    source: Source<'_>,
    out: &mut Writer<'_>,
    word: Word,
    operation: u8,
) -> Result<Parser, Refusal>
    ensures { Reads whole source.entry.text.now word.parser
        (rules.passing (rules.instruction (here_of source.entry.text.now word.parser) operation)) out.old out.new result }
{
    let from = word.parser.token_start;
    let q = next(source, word.parser)?;
    if is_repeat(operation) {
        let to = q.last_token_end;
        out.put_record(Mark::LI, [from, to, u32::from(operation), 0, to, to]);
        return Ok(q);
    }
    let (end, o) = operands(source, out, q)?;
    let below = line_end(source, end)?;
    out.put_record(
        Mark::LI,
        [
            from,
            end.last_token_end,
            u32::from(operation),
            o.count,
            o.from,
            o.to,
        ],
    );
    Ok(below)
}

// `equ` and its expression.
fn constant(source: Source<'_>, out: &mut Writer<'_>, word: Word) -> Result<Parser, Refusal>
    ensures { Reads whole source.entry.text.now word.parser
        (rules.passing (rules.constant (here_of source.entry.text.now word.parser))) out.old out.new result }
{
    let q = next(source, word.parser)?;
    let end = outermost(source, out, q)?;
    let below = line_end(source, end)?;
    out.put_record(Mark::LC, [word.parser.token_start, end.last_token_end]);
    Ok(below)
}

// The characters of a closed string, without its quotes.
fn put_characters(out: &mut Writer<'_>, word: &[u8])
    ensures { Puts (answers.between word.now) out.old out.new }
{
    if let [_, characters @ .., _] = word {
        out.put_all(characters);
    }
}

// The number ahead, in one byte or two, low first; 60 where it has more, said in both arms, since a function over the two types would be
// longer. It answers for `literal`: there is at least one byte.
fn number(out: &mut Writer<'_>, p: Parser, width: Width) -> Result<bool, Refusal>
    requires { p.kind ≡ Kind.Number }
    ensures { (s : List ℕ) → answers.ReadsLiteral s p (answers.bytes_in width) out.old out.new result }
{
    let v = p.value;
    match width {
        Width::Byte => {
            let byte = u8::try_from(v).map_err(|_| refuse_here(p, Reason::NumberTooWide))?;
            out.put([byte]);
        }
        Width::Word => {
            let word = u16::try_from(v).map_err(|_| refuse_here(p, Reason::NumberTooWide))?;
            out.put(word.to_le_bytes());
        }
    }
    Ok(true)
}

// The bytes of the literal ahead; whether it has at least one. A comma has none.
fn literal(
    source: Source<'_>,
    out: &mut Writer<'_>,
    p: Parser,
    width: Width,
) -> Result<bool, Refusal>
    requires { InLine p }
    ensures { answers.ReadsLiteral source.entry.text.now p (answers.bytes_in width) out.old out.new result }
{
    match p.kind {
        Kind::Comma => Ok(false),
        Kind::Number => number(out, p, width),
        Kind::ClosedString => {
            let word = text(source.text, p);
            put_characters(out, word);
            Ok(2 < word.len())
        }
        Kind::UnclosedString => Err(refuse_here(p, Reason::UnterminatedStringLiteral)),
        _ => Err(refuse_here(p, Reason::LiteralExpected)),
    }
}

// The bytes of the literals up to the line's end; whether there is at least one byte.
fn literals(
    source: Source<'_>,
    out: &mut Writer<'_>,
    p: Parser,
    width: Width,
) -> Result<(Parser, bool), Refusal>
    ensures { answers.ReadsLiterals source.entry.text.now p (answers.bytes_in width) out.old out.new result }
{
    let mut q = p;
    let mut some = false;
    while !is_line_end(q.kind) {
        some |= literal(source, out, q, width)?;
        q = next(source, q)?;
        // A comma mostly follows.
        if q.kind == Kind::Comma {
            q = next(source, q)?;
        }
    }
    Ok((q, some))
}

// `db` or `dw` and its literals: their bytes stand behind the record's 14, which are written when their count is known.
fn data_of(
    source: Source<'_>,
    out: &mut Writer<'_>,
    word: Word,
    width: Width,
) -> Result<Parser, Refusal>
    ensures { Reads whole source.entry.text.now word.parser
        (rules.passing (rules.data_of rules.fits (here_of source.entry.text.now word.parser) (answers.bytes_in width))) out.old out.new result }
{
    let from = word.parser.token_start;
    let start = out.begin_data();
    let q = next(source, word.parser)?;
    let (end, some) = literals(source, out, q, width)?;
    if !some {
        return Err(refused_at(Reason::DataDefinitionWithoutData, from, word.parser.pos));
    }
    let below = line_end(source, end)?;
    out.end_data(start, from, end.last_token_end);
    Ok(below)
}

// A statement whose first token is ahead; `left` more `times` may begin. The state is handed over number by number: a struct would
// be written by its fields and copied as a whole, which waits for the writes, and made a whole read 8 to 9 % slower. So `line` and
// `statement_from` are called with five numbers, at two places each.
#[cycle(statements)]
fn line(
    source: Source<'_>,
    table: Table<'_>,
    out: &mut Writer<'_>,
    pos: u32,
    token_start: u32,
    last_token_end: u32,
    kind: Kind,
    value: u32,
    left: u32,
) -> Result<Parser, Refusal>
    ensures { Reads whole source.entry.text.now (parser_of pos token_start last_token_end kind value)
        (rules.line (rules.fitting table.entry.rows.now) (rules.times (rules.fitting table.entry.rows.now) left)) out.old out.new result }
{
    let p = Parser {
        pos,
        token_start,
        last_token_end,
        kind,
        value,
    };
    if p.kind != Kind::Identifier {
        return Err(refuse_here(p, Reason::InstructionExpected));
    }
    let word = Word { parser: p };
    let name = text(source.text, p);
    let key = names::word_key(name);
    match names::directive_by(key) {
        Some(Directive::Equ) => constant(source, out, word),
        Some(Directive::Db) => data_of(source, out, word, Width::Byte),
        Some(Directive::Dw) => data_of(source, out, word, Width::Word),
        Some(Directive::Times) => times(source, table, out, word, left),
        None => match table.operation_by(key) {
            Some(operation) => instruction(source, out, word, operation),
            None => label(source, out, word),
        },
    }
}

// `times`, its expression and its content, which may stand on a later line.
#[cycle(statements)]
fn times(
    source: Source<'_>,
    table: Table<'_>,
    out: &mut Writer<'_>,
    word: Word,
    left: u32,
) -> Result<Parser, Refusal>
    ensures { Reads whole source.entry.text.now word.parser (rules.times (rules.fitting table.entry.rows.now) left) out.old out.new result }
{
    if left == 0 {
        return Err(refuse_here(word.parser, Reason::TimesTooDeep));
    }
    let q = next(source, word.parser)?;
    let end = outermost(source, out, q)?;
    let below = skip_lines(source, end)?;
    content(source, table, out, below, word, left - 1)
}

// The content of a `times` whose word was `word`.
#[cycle(statements)]
fn content(
    source: Source<'_>,
    table: Table<'_>,
    out: &mut Writer<'_>,
    p: Parser,
    word: Word,
    left: u32,
) -> Result<Parser, Refusal>
    ensures { Reads whole source.entry.text.now p (rules.content (rules.fitting table.entry.rows.now)
        (rules.times (rules.fitting table.entry.rows.now) left) (here_of source.entry.text.now word.parser)) out.old out.new result }
{
    if is_line_end(p.kind) {
        return Err(refuse_here(word.parser, Reason::TimesWithoutContent));
    }
    let q = line(
        source,
        table,
        out,
        p.pos,
        p.token_start,
        p.last_token_end,
        p.kind,
        p.value,
        left,
    )?;
    out.put_record(Mark::LT, [0, 0]);
    Ok(q)
}

// How many `times` may stand within one another.
const MOST_TIMES: u32 = 16;

// A statement, from a state that is handed over number by number.
fn statement_from(
    source: Source<'_>,
    table: Table<'_>,
    out: &mut Writer<'_>,
    pos: u32,
    token_start: u32,
    last_token_end: u32,
    kind: Kind,
    value: u32,
) -> Result<StatementRead, Refusal>
    ensures { answers.ReadsStatement table.entry.rows.now source.entry.text.now (parser_of pos token_start last_token_end kind value)
        out.old out.new result }
{
    let p = Parser {
        pos,
        token_start,
        last_token_end,
        kind,
        value,
    };
    let q = skip_lines(source, p)?;
    if is_line_end(q.kind) {
        return Ok(StatementRead::NoneLeft(q));
    }
    out.put_record(Mark::ST, [q.token_start]);
    let after = line(
        source,
        table,
        out,
        q.pos,
        q.token_start,
        q.last_token_end,
        q.kind,
        q.value,
        MOST_TIMES,
    )?;
    Ok(StatementRead::Read(after))
}

// A statement, its first token's place before it, or the answer that none is left.
pub fn statement(
    source: Source<'_>,
    table: Table<'_>,
    out: &mut Writer<'_>,
    p: Parser,
) -> Result<StatementRead, Refusal>
    ensures { answers.ReadsStatement table.entry.rows.now source.entry.text.now p out.old out.new result }
{
    statement_from(
        source,
        table,
        out,
        p.pos,
        p.token_start,
        p.last_token_end,
        p.kind,
        p.value,
    )
}

// The first token from a place on is ahead, as behind a line feed.
pub fn start(source: Source<'_>, place: u32) -> Result<Parser, Refusal>
    ensures { answers.Starts source.entry.text.now place result }
{
    next_line(
        source,
        Parser {
            pos: place,
            token_start: place,
            last_token_end: place,
            kind: Kind::NewLine,
            value: 0,
        },
    )
}

// Statements until none is left.
pub fn statements(
    source: Source<'_>,
    table: Table<'_>,
    out: &mut Writer<'_>,
    p: Parser,
) -> Result<Parser, Refusal>
    ensures { answers.ReadsStatements table.entry.rows.now source.entry.text.now p out.old out.new result }
{
    let mut q = p;
    loop {
        match statement_from(
            source,
            table,
            out,
            q.pos,
            q.token_start,
            q.last_token_end,
            q.kind,
            q.value,
        )? {
            StatementRead::Read(after) => q = after,
            StatementRead::NoneLeft(end) => return Ok(end),
        }
    }
}
