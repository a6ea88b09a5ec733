// What the programs take: their arguments, and a buffer filled from a reader. A read that fails ends there.
#![tactic(auto)]

ghost use Rattle.std.specs.Prelude.{◌≡◌, ◌≤◌, length, IfSome};
ghost use Rattle.streams.specs.Counts.{IsPrefixLen};

use std::env::{Env, FillError};
use std::io::Read;

// Reads until the buffer is full, the input ends or a read fails; the number of bytes at the buffer's start that were read.
// A `while`, as nothing is counted: it goes on by what each read gave.
pub fn read_full<R: Read>(input: &mut R, buf: &mut [u8]) -> usize
    ensures { IsPrefixLen result buf.new }
{
    let mut done = 0;
    while done < buf.len() {
        let n = input.read(&mut buf[done..]).unwrap_or(0);
        if n == 0 {
            return done;
        }
        done += n;
    }
    done
}

// An argument, at the buffer's start; none where it is missing or longer than the buffer. The program's own name is argument 0.
// Bytes and no `str`: an argument may be no UTF-8.
pub fn arg<'a, E: Env>(env: &E, i: usize, buf: &'a mut [u8]) -> Option<&'a [u8]>
    ensures { IfSome result (λ text. length text.now ≤ length buf.old) }
{
    let n = env.arg(i, buf).ok()?;
    Some(&buf[..n])
}

// The program was started with this argument.
pub fn is_given<E: Env>(env: &E, i: usize) -> bool {
    !matches!(env.arg(i, &mut [0]), Err(FillError::NotPresent))
}
