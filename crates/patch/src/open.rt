// Lines read alone (40): the replaced one, the new one, and the nearest above that has more than blanks and a comment.
ghost use Rattle.std.specs.Prelude.{◌≡◌, true, false, [], ◌-◌, eqb};
ghost use Rattle.lexer.specs.Text.{maybe, among};
ghost use Rattle.refusals.specs.Refusals.{number_of};
ghost use Rattle.rules.specs.Statements.{present};
ghost use Rattle.rules.specs.Patch.{begins_line, above, lines_from, bare_line, nearest, leaves_open};

use lines::line_start;
use reader::full_read_lean;
use refusals::Reason;
use state::is_line_end;
use state::source::Source;
use statements::start;

// 34. By its pattern, whose cases have their numbers: `==` gives that the reasons are equal, and needed a law that numbers tell all 33 apart.
fn is_open(reason: Reason) -> bool
    ensures { result ≡ eqb (number_of reason) 34 }
{
    matches!(reason, Reason::TimesWithoutContent)
}

// Whether a line leaves a `times` without its content: the full read of it alone is refused with 34. No room is lent, since 4 is not 34.
pub fn leaves_open(line: &[u8]) -> bool
    ensures { result ≡ leaves_open present line.now }
{
    let mut nothing = [0u8; 0];
    full_read_lean(line, &mut nothing).is_err_and(|r| is_open(r.reason))
}

// Whether a line has only blanks and a comment.
fn is_bare(line: Source<'_>) -> bool
    requires { among 10 line.text.now ≡ false }
    ensures { result ≡ bare_line line.entry.text.now }
{
    start(line, 0).is_ok_and(|p| is_line_end(p.kind))
}

// Whether the nearest line above a place that has more leaves a `times` open.
pub fn nearest_open(source: Source<'_>, place: usize) -> bool
    requires { begins_line source.text.now place ≡ true }
    ensures { result ≡ maybe (nearest (lines_from [] (above source.entry.text.now place))) false (leaves_open present) }
{
    // No `for`: `rsplit` was tried, with its proof, and takes an eighth more instructions where many bare lines stand above.
    let mut below = place;
    while 0 < below {
        let end = below - 1;
        let begin = line_start(source.text, end);
        let line = Source {
            text: &source.text[begin..end],
        };
        if !is_bare(line) {
            return leaves_open(line.text);
        }
        below = begin;
    }
    false
}
