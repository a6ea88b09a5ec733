// The frame calls: frames written and read over a lent buffer, each byte of it EEh before the call.
ghost use Rattle.std.specs.Prelude.{◌≡◌, length, min};

use crate::answer::Bytes;
use df1::{Direction, length_of, number_of};

// The low bytes of a file's words, at the room's start. Data or a frame that the room has not whole is refused by the part that it has.
fn low_bytes<'a>(words: &[u16], room: &'a mut [u8; 651]) -> &'a [u8]
    ensures { length result.now ≡ min (length words.now) 651 }
{
    for (byte, word) in room.iter_mut().zip(words) {
        [*byte, _] = word.to_le_bytes();
    }
    &room[..words.len().min(651)]
}

// The call with a buffer of so many bytes, and its line: the outcome and length, then the buffer.
fn show_call(to: &impl Print, direction: Direction, bytes: &[u8], out: &mut [u8]) {
    let name = match direction {
        Direction::Write => "frame",
        Direction::Read => "data",
    };
    let made = direction.call(bytes, out);
    let space = if out.is_empty() { "" } else { " " };
    let _ = println!(to;
        "{name} {} {}{space}{}",
        number_of(made),
        length_of(made),
        Bytes(out)
    );
}

// Room for the largest lent buffer. It is fixed, as there is no heap; the buffer of a call is a slice of it.
fn buffer_space() -> [u8; 65535]
    ensures { 65535 ≡ length result }
{
    [0xee; 65535]
}

pub fn show_frame(to: &impl Print, direction: Direction, words: &[u16], capacity: u16) {
    let mut room = [0; 651];
    let mut space = buffer_space();
    show_call(
        to,
        direction,
        low_bytes(words, &mut room),
        &mut space[..usize::from(capacity)],
    );
}
