// The data of a frame put into a lent buffer.
ghost use Rattle.std.specs.Prelude.{◌≡◌, ◌≤◌, false, length, IfOk, MatchOption};
ghost use Rattle.std.proofs.lemmas.List.Edits.{sets};
ghost use Rattle.df1.specs.Frame as frame;
ghost use Rattle.df1.specs.Frame.{is_frame};
ghost use Rattle.df1.specs.Parts.{scan_of, IsBody};

use crate::{DLE, ETX, Refusal, STX, Scan, complement, fitting, is_allowed};

// The data between DLE STX and DLE ETX: their number and sum, a doubled DLE counted once. A DLE that is not doubled leaves none.
#[tactic(auto, unfolding(crate::specs::Frame::sum_of, crate::specs::Parts::scan_of, crate::specs::Parts::paired, crate::specs::Frame::undoubled))]
fn scan(body: &[u8]) -> Option<Scan>
    ensures { result ≡ scan_of body.now }
{
    let mut count = 0;
    let mut sum: u8 = 0;
    let mut second = false;
    for b in body {
        if second {
            if *b != DLE {
                return None;
            }
            second = false;
            continue;
        }
        count += 1;
        sum = sum.wrapping_add(*b);
        second = *b == DLE;
    }
    (!second).then_some(Scan { count, sum })
}

// The body of a frame that spans the input, and the number of its data bytes.
#[tactic(auto, using(crate::proofs::Parts::inside_part, crate::proofs::Parts::no_frame, crate::proofs::Parts::parts_frame, crate::proofs::Parts::scan_none, crate::proofs::Parts::scan_some), unfolding(crate::specs::Frame::check_byte, crate::specs::Frame::data_of))]
fn found(input: &[u8]) -> Option<(&[u8], usize)>
    ensures { MatchOption result (is_frame input.now ≡ false) (λ p. IsBody input.now p.0.now p.1) }
{
    let [DLE, STX, body @ .., DLE, ETX, check] = input else {
        return None;
    };
    let Scan { count, sum } = scan(body)?;
    if is_allowed(count) && *check == complement(sum) {
        Some((body, count))
    } else {
        None
    }
}

// The data of a body at the buffer's start, cut at its end; the second of two DLEs is passed over. The walk is that of `scan`, which counts and fails,
// where this stores and stops at the buffer's end.
#[tactic(auto, unfolding(crate::specs::Frame::undoubled))]
fn put_data(out: &mut [u8], body: &[u8])
    ensures { out.new ≡ sets out.old 0 (frame.undoubled body.now) }
{
    let mut place = 0;
    let mut second = false;
    for b in body {
        if second {
            second = false;
            continue;
        }
        if out.len() <= place {
            return;
        }
        out[place] = *b;
        place += 1;
        second = *b == DLE;
    }
}

// Puts the data of a frame that spans the whole input at the start of a lent buffer and leaves the rest. A refused call leaves all of it.
pub fn read_frame(input: &[u8], out: &mut [u8]) -> Result<usize, Refusal>
    ensures outcome { result ≡ frame.read_outcome input.now (length out.old) }
    ensures within { IfOk result (λ n. n ≤ length out.new) }
    ensures buffer { out.new ≡ frame.read_buffer input.now out.old }
{
    let Some((body, count)) = found(input) else {
        return Err(Refusal::NotAFrame);
    };
    let n = fitting(count, out.len())?;
    put_data(out, body);
    Ok(n)
}
