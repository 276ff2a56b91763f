// Reading into lent buffers: what the programs share of input. No memory of its own.
#![tactic(auto)]

ghost use Rattle.std.specs.Prelude.{◌≡◌, ◌≤◌, length, IfOk};

use std::io;
use std::io::Read;

// Reads until the buffer is full or the input ends, and says how many bytes stand at its start.
pub fn read_full<R: Read>(input: &mut R, buf: &mut [u8]) -> io::Result<usize>
    ensures { IfOk result (λ n. n ≤ length buf.new) }
{
    let mut done = 0;
    // A while: each turn goes on by what the input gave, which no range says.
    while done < buf.len() {
        let n = input.read(&mut buf[done..])?;
        if n == 0 {
            return Ok(done);
        }
        done += n;
    }
    Ok(done)
}

// A buffer of N times the same. A call stands for a long repeat, which in place is too large for the checker.
pub fn room<T: Copy, const N: usize>(each: T) -> [T; N]
    ensures { N ≡ length result }
{
    [each; N]
}
