// Reads sources from standard input, one a line, and prints each line behind `> ` and then the answer to its source as `listing` would.
//
// In a line `\n`, `\r` and `\t` are these bytes, `\\` is a backslash and `\x80` the byte with that number; `\..4685` at its end says that what is
// before goes on, again and again, up to 4685 bytes.
//
// `stdin` and `stdout` are recorded: `cargo run --release --bin replay`, in differential/, writes them from the samples of the rules and from the
// original's answers.
//
// A line's answer is written before the next line is looked at. A read or a write that fails ends it, with the error on standard error and the exit
// status 1.
#![tactic(auto)]

ghost use Rattle.std.specs.Prelude.{◌≡◌, [], ◌≤◌, ◌<◌, length, IfSome, IfNone};

use input::read_input;
use std::io;

// The value of a digit; of a byte that is none, 0. No `char::to_digit`: that takes capitals too.
fn digit(b: u8) -> u8
    ensures { result < 16 }
{
    match b {
        b'0'..=b'9' => b - b'0',
        b'a'..=b'f' => b - b'a' + 10,
        _ => 0,
    }
}

// The byte that a letter behind a backslash stands for.
fn meant(letter: u8) -> u8 {
    match letter {
        b'n' => b'\n',
        b'r' => b'\r',
        b't' => b'\t',
        _ => letter,
    }
}

// The byte that a line's head spells, and the rest of the line. What is missing at the line's end counts as 0.
fn spelled(line: &[u8]) -> Option<(u8, &[u8])>
    ensures goes_on { IfSome result (λ step. length step.1.now < length line.now) }
    ensures ends { IfNone result (line.now ≡ []) }
{
    match line {
        [] => None,
        [b'\\'] | [b'\\', b'x'] => Some((0, &[])),
        [b'\\', b'x', high] => Some((16 * digit(*high), &[])),
        [b'\\', b'x', high, low, rest @ ..] => Some((16 * digit(*high) + digit(*low), rest)),
        [b'\\', letter, rest @ ..] => Some((meant(*letter), rest)),
        [b, rest @ ..] => Some((*b, rest)),
    }
}

// The number at a line's head, up to its first five digits.
fn number(line: &[u8]) -> usize {
    line.iter().fold(
        0,
        |value, b| if value < 10000 {
            10 * value + usize::from(digit(*b))
        } else {
            value
        },
    )
}

// Goes on with the first n bytes, again and again, up to so many; gives how many there are then.
fn repeated(source: &mut [u8], n: usize, most: usize) -> usize
    requires { n ≤ length source.old }
    ensures { result ≤ length source.new }
{
    let end = most.min(source.len()).max(n);
    for to in n..end {
        source[to] = source[to - n];
    }
    end
}

// Puts down the source that a line spells; gives its length.
fn unescape(line: &[u8], source: &mut [u8]) -> usize
    ensures { result ≤ length source.new }
{
    let mut rest = line;
    for n in 0..source.len() {
        if let [b'\\', b'.', count @ ..] = rest {
            return repeated(source, n, number(count.get(1..).unwrap_or_default()));
        }
        let Some((byte, behind)) = spelled(rest) else {
            return n;
        };
        source[n] = byte;
        rest = behind;
    }
    source.len()
}

// Each line in turn: the line itself, and the answer. The buffer is twice as long as what is recorded; what it doesn't hold is not read.
fn main(rt: HostRuntime) -> io::Result<()> {
    // no heap: arrays, and how many bytes of them were read or written
    let mut input = [0u8; 131072];
    let mut source = [0u8; 65537];
    let mut listing = [0u8; 65536];
    let mut text = [0u8; 393325];
    let n = read_input(&mut rt.stdin(), &mut input)?;
    for line in input[..n].split_inclusive(|b| *b == b'\n') {
        let line = line.strip_suffix(b"\n").unwrap_or(line);
        let long = unescape(line, &mut source);
        let length = printing::answer_text(&source[..long], &mut listing, &mut text);
        rt.write_all(b"> ")?;
        rt.write_all(line)?;
        rt.write_all(b"\n")?;
        rt.write_all(&text[..length])?;
    }
    Ok(())
}
