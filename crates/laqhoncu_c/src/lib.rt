// What C and Rust link: each function of `laqhoncu` under its name, with the clauses that it has there.
#![tactic(auto)]

ghost use Rattle.laqhoncu.specs.Counted.{count_from};
ghost use Rattle.std.specs.Prelude.{◌≡◌, length, drop};
ghost use Rattle.lexer.specs.Tokens.{token_at};
ghost use Rattle.lexer.specs.Scanned.{next_of};
ghost use Rattle.names.specs.Table.{operations};
ghost use Rattle.names.specs.Names.{operation_named, found_of, name_of, directive_of};
ghost use Rattle.rules.specs.Statements.{present};
ghost use Rattle.rules.specs.Calls as rules;
ghost use Rattle.rules.specs.Patch.{patch as patch_call, patch_source, patch_listing};
ghost use Rattle.reader.specs.Calls.{token_answer, statement_answer};
ghost use Rattle.patch.specs.Patched.{patch_answer, AsFullRead};
ghost use Rattle.laqhoncu.specs.Found.{next_found, operation_byte, name_number, directive_byte};
ghost use Rattle.laqhoncu.specs.Readings.{FullReads, statement_reading, token_reading, patching, valuation};

use laqhoncu::{FullReading, Patching, StatementReading, TokenFound, TokenReading, Valuation};

// The token at a place, as the cursor reads it; a refused number has the kind 30 or 31.
#[unsafe(no_mangle)]
pub extern "C" fn laqhoncu_token(source: &[u8], place: usize) -> TokenFound
    ensures { result ≡ next_found (next_of place (token_at (drop place source.now))) }
{
    laqhoncu::laqhoncu_token(source, place)
}

// The number of the operation that a word names, or 255.
#[unsafe(no_mangle)]
pub extern "C" fn laqhoncu_operation(word: &[u8]) -> u8
    ensures { result ≡ operation_byte (found_of (operation_named operations word.now)) }
{
    laqhoncu::laqhoncu_operation(word)
}

// The register that a word names (0 to 15), the segment (256 to 259), the size (512 and 513), or 65535.
#[unsafe(no_mangle)]
pub extern "C" fn laqhoncu_name(word: &[u8]) -> u16
    ensures { result ≡ name_number (name_of word.now) }
{
    laqhoncu::laqhoncu_name(word)
}

// The directive that a word names: `equ` 0, `db` 1, `dw` 2, `times` 3, or 255.
#[unsafe(no_mangle)]
pub extern "C" fn laqhoncu_directive(word: &[u8]) -> u8
    ensures { result ≡ directive_byte (directive_of word.now) }
{
    laqhoncu::laqhoncu_directive(word)
}

// The listing of a source, written into `out` if there is room for all of it.
#[unsafe(no_mangle)]
pub extern "C" fn laqhoncu_full_read(source: &[u8], out: &mut [u8]) -> FullReading
    ensures { FullReads source.now out.old out.new result }
{
    laqhoncu::laqhoncu_full_read(source, out)
}

// The same for a short stack: the source is read twice.
#[unsafe(no_mangle)]
pub extern "C" fn laqhoncu_full_read_lean(source: &[u8], out: &mut [u8]) -> FullReading
    ensures { FullReads source.now out.old out.new result }
{
    laqhoncu::laqhoncu_full_read_lean(source, out)
}

// The statement at a place, written into `out` if there is room for all of it.
#[unsafe(no_mangle)]
pub extern "C" fn laqhoncu_statement_read(
    source: &[u8],
    place: usize,
    out: &mut [u8],
) -> StatementReading
    ensures answer { result ≡ statement_reading (statement_answer (rules.statement_call present source.now place (length out.old))) }
    ensures buffer { out.new ≡ rules.statement_buffer present source.now place out.old }
{
    laqhoncu::laqhoncu_statement_read(source, place, out)
}

// The token at a place of a source, after 42, 1 and 2.
#[unsafe(no_mangle)]
pub extern "C" fn laqhoncu_token_read(source: &[u8], place: usize) -> TokenReading
    ensures { result ≡ token_reading (token_answer place (rules.token_call source.now place)) }
{
    laqhoncu::laqhoncu_token_read(source, place)
}

// The line that begins at a place of the old source exchanged for a text: the edited source in `source` and its listing in `out`.
#[unsafe(no_mangle)]
pub extern "C" fn laqhoncu_patch(
    old: &[u8],
    listing: &[u8],
    place: usize,
    text: &[u8],
    source: &mut [u8],
    out: &mut [u8],
) -> Patching
    ensures answer { result ≡ patching (patch_answer (patch_call present old.now listing.now place text.now
        (length source.old) (length out.old))) }
    ensures source { source.new ≡ patch_source (patch_call present old.now listing.now place text.now
        (length source.old) (length out.old)) source.old }
    ensures listing { out.new ≡ patch_listing (patch_call present old.now listing.now place text.now
        (length source.old) (length out.old)) out.old }
    ensures demand_3 { AsFullRead patching old.now listing.now place text.now
        source.old source.new out.old out.new result }
{
    laqhoncu::laqhoncu_patch(old, listing, place, text, source, out)
}

// The operator of a number (0 `+`, 1 `-`, 2 `*`, 3 `/`) on two numbers. Any other number is refused with 255.
#[unsafe(no_mangle)]
pub extern "C" fn laqhoncu_evaluate(operator: u8, left: i32, right: i32) -> Valuation
    ensures { result ≡ valuation operator left right }
{
    laqhoncu::laqhoncu_evaluate(operator, left, right)
}

// How many tokens a source has, whitespace and comments among them.
#[unsafe(no_mangle)]
pub extern "C" fn laqhoncu_count(source: &[u8]) -> usize
    ensures { result ≡ count_from 0 source.now }
{
    laqhoncu::laqhoncu_count(source)
}
