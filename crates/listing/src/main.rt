// Reads a source from standard input and prints its listing, or why there is none. Where the input can't be read to its end, or the text
// not be written, that is said on standard error, and the exit status is 1; of an input that was not read to its end nothing is printed.
#![tactic(auto)]

ghost use Rattle.std.specs.Prelude.{◌<◌, ◌≤◌, length, take, IfOk};
ghost use Rattle.std.specs.Io.KnownBytes.{Consumes, IsAtEnd};

use std::fmt::InlineText;
use std::io;
use std::io::Read;
use std::process::ExitCode;

// Reads until the input ends or the buffer is full, which has one byte more than a source may have, and gives how many bytes it read. The
// buffer's length is in its type, so no shorter one is lent.
fn read_input<R: Read>(from: &mut R, input: &mut [u8; 65537]) -> io::Result<usize>
    ensures within { IfOk result (λ n. n ≤ 65537) }
    ensures bytes { IfOk result (λ n. Consumes (R.remaining from.old) (R.remaining from.new) (take n input.new)) }
    ensures whole { IfOk result (λ n. n < 65537 → IsAtEnd (R.remaining from.new)) }
{
    input::read_input(from, input)
}

// The reason in an error's text: what stands before the system's number.
fn reason(text: &str) -> &str {
    text.split_once(" (os error ")
        .map_or(text, |(words, _)| words)
}

// Reads the source and prints its listing; or what failed, and why.
fn list(rt: &HostRuntime) -> Result<(), (&'static str, io::Error)> {
    // no heap: arrays, and how many bytes of them were read or written
    let mut source = [0u8; 65537];
    let mut listing = [0u8; 65536];
    let mut text = [0u8; 393325];
    let n = read_input(&mut rt.stdin(), &mut source).map_err(|e| ("standard input", e))?;
    let length = printing::input_text(&source, n, &mut listing, &mut text);
    rt.write_all(&text[..length])
        .map_err(|e| ("standard output", e))
}

fn main(rt: HostRuntime) -> ExitCode {
    let Err((what, error)) = list(&rt) else {
        return ExitCode::SUCCESS;
    };
    let text = InlineText::<256>::of(error);
    let _ = eprintln!(rt; "listing: {what}: {}", reason(text.as_str()));
    ExitCode::FAILURE
}
