// A frame put into a lent buffer.
ghost use Rattle.std.specs.Prelude.{◌≡◌, ◌≤◌, length, IfOk};
ghost use Rattle.std.proofs.lemmas.List.Edits.{sets};
ghost use Rattle.df1.specs.Frame as frame;
ghost use Rattle.df1.specs.Parts.{dle_count};

use crate::{DLE, ETX, Refusal, STX, complement, fitting, is_allowed};

// How many of the bytes are a DLE. A `for`: `filter` and `count` take 790 instructions a frame more, as they are not made to count many bytes at once.
fn dle_count(bytes: &[u8]) -> usize
    ensures { result ≡ dle_count bytes.now }
{
    let mut n = 0;
    for b in bytes {
        if *b == DLE {
            n += 1;
        }
    }
    n
}

// The check byte of data: their sum, kept to eight bits by wrapping, and taken from zero.
#[tactic(auto, unfolding(crate::specs::Frame::check_byte))]
fn check_byte(bytes: &[u8]) -> u8
    ensures { result ≡ frame.check_byte bytes.now }
{
    complement(bytes.iter().fold(0, |sum: u8, b| sum.wrapping_add(*b)))
}

// Data at the buffer's start, each DLE twice, cut at the buffer's end.
fn put_doubled(out: &mut [u8], bytes: &[u8])
    ensures { out.new ≡ sets out.old 0 (frame.doubled bytes.now) }
{
    let mut place = 0;
    for b in bytes {
        if out.len() <= place {
            return;
        }
        out[place] = *b;
        if *b == DLE {
            place += 1;
            if out.len() <= place {
                return;
            }
            out[place] = *b;
        }
        place += 1;
    }
}

// Puts the frame of 1 to 244 data bytes at the start of a lent buffer and leaves the rest. A refused call leaves all of it.
pub fn write_frame(bytes: &[u8], out: &mut [u8]) -> Result<usize, Refusal>
    ensures outcome { result ≡ frame.write_outcome bytes.now (length out.old) }
    ensures within { IfOk result (λ n. n ≤ length out.new) }
    ensures buffer { out.new ≡ frame.write_buffer bytes.now out.old }
{
    if !is_allowed(bytes.len()) {
        return Err(Refusal::DataLength);
    }
    let n = fitting(bytes.len() + dle_count(bytes) + 5, out.len())?;
    let end = n - 3;
    out[0] = DLE;
    out[1] = STX;
    put_doubled(&mut out[2..end], bytes);
    out[end] = DLE;
    out[end + 1] = ETX;
    // The check byte is never doubled.
    out[end + 2] = check_byte(bytes);
    Ok(n)
}
