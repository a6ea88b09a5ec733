// Frames from memory: written and read, and the checksum over what the buffer then holds.
ghost use Rattle.std.specs.Prelude.{◌≡◌, length};

use crate::steps::plus;
use df1::{LONGEST_FRAME, MOST_DATA, Refusal};
use std::array;

// The data of the first frame.
fn first_data() -> [u8; MOST_DATA]
    ensures { 244 ≡ length result }
{
    array::from_fn(|k| (7 * k % 256) as u8)
}

// The number of a frame or of its data, the one counted i from 0; none of one that was refused, or is empty.
fn number(made: Result<usize, Refusal>, out: &[u8], i: u32) -> Option<u64> {
    let bytes = out.get(..made.ok()?)?;
    let last = bytes.last()?;
    let place = bytes.get(i as usize % bytes.len())?;
    let length = u16::try_from(bytes.len()).ok()?;
    Some(65536 * u64::from(length) + 256 * u64::from(*place) + u64::from(*last))
}

// The checksum of so many frames written. What it shares with `frames_read` is in `number` and `plus`; of the loops only the `for` is alike.
pub fn frames_written(count: u32) -> u32 {
    let mut bytes = first_data();
    let mut out = [0; LONGEST_FRAME];
    let mut sum = 0;
    for i in 0..count {
        let place = i as usize % MOST_DATA;
        bytes[place] = bytes[place].wrapping_add(1);
        let made = df1::write_frame(&bytes, &mut out);
        sum = plus(sum, number(made, &out, i).unwrap_or(0));
    }
    sum
}

// The checksum of so many readings of one frame, in which two data bytes change places before each.
pub fn frames_read(count: u32) -> u32 {
    let mut input = [0; 250];
    let mut out = [0; MOST_DATA];
    let _ = df1::write_frame(&first_data(), &mut input);
    let mut sum = 0;
    for i in 0..count {
        let place = 2 + i as usize % 100;
        input.swap(place, place + 1);
        let made = df1::read_frame(&input, &mut out);
        sum = plus(sum, number(made, &out, i).unwrap_or(0));
    }
    sum
}
