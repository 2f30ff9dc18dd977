// What a program reads of its input.
#![tactic(auto)]

ghost use Rattle.std.specs.Prelude.{◌<◌, ◌≤◌, length, take, IfOk};
ghost use Rattle.std.specs.Io.KnownBytes.{Consumes, IsAtEnd};

use std::io;
use std::io::Read;

// Reads until the input ends or the buffer is full, and gives how many bytes it read. A read that fails is not the input's end.
pub fn read_input<R: Read>(from: &mut R, input: &mut [u8]) -> io::Result<usize>
    ensures within { IfOk result (λ n. n ≤ length input.new) }
    ensures bytes { IfOk result (λ n. Consumes (R.remaining from.old) (R.remaining from.new) (take n input.new)) }
    ensures whole { IfOk result (λ n. n < length input.new → IsAtEnd (R.remaining from.new)) }
{
    // no `for`: a step is what one read gives
    let mut n = 0;
    while n < input.len() {
        match from.read(&mut input[n..])? {
            0 => return Ok(n),
            more => n += more,
        }
    }
    Ok(n)
}
