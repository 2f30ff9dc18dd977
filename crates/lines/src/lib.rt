// Lines of a source: where they begin and end, and the source with one of them exchanged.
#![tactic(auto)]

ghost use Rattle.std.specs.Prelude.{◌≡◌, true, false, ◌++◌, ◌+◌, ◌-◌, ◌≤◌, length, take, drop};
ghost use Rattle.lexer.specs.Text.{among};
ghost use Rattle.lexer.specs.Text.{run as run_of};
ghost use Rattle.lexer.specs.Tokens.{in_comment};
ghost use Rattle.rules.specs.Calls.{Short, overwrite};
ghost use Rattle.rules.specs.Patch.{begins_line};

use records::copy;

// Whether a line begins at a place: at 0 and after each line feed.
pub fn begins_line(source: &[u8], place: usize) -> bool
    ensures { result ≡ begins_line source.now place }
{
    place == 0 || source.get(place - 1) == Some(&b'\n')
}

// The first line feed from a place on, or the end.
pub fn line_end(source: &[u8], place: usize) -> usize
    requires { place ≤ length source.now }
    ensures { result ≡ place + run_of in_comment (drop place source.now) }
{
    let rest = &source[place..];
    place + rest.iter().position(|b| *b == b'\n').unwrap_or(rest.len())
}

// Where the line begins that ends before a place.
pub fn line_start(source: &[u8], end: usize) -> usize
    requires { end ≤ length source.now }
    ensures { (result ≤ end) × (begins_line source.now result ≡ true) × (among 10 (take (end - result) (drop result source.now)) ≡ false) }
{
    source[..end]
        .iter()
        .rposition(|b| *b == b'\n')
        .map_or(0, |i| i + 1)
}

// The source with the line from `place` to `end` exchanged.
pub fn edit(source: &[u8], place: usize, end: usize, text: &[u8], out: &mut [u8])
    requires { (place ≤ end) × (end ≤ length source.now) × Short source.now
        × (place + length text.now + (length source.now - end) ≤ length out.old) }
    ensures { out.new ≡ overwrite (take place source.now ++ (text.now ++ drop end source.now))
        out.old }
{
    let behind = place + text.len();
    copy(out, behind, &source[end..]);
    copy(out, place, text);
    copy(out, 0, &source[..place]);
}
