// The calls of a list: little-endian words from standard input.
ghost use Rattle.std.specs.Prelude.{◌≤◌, length, IfOk};

use columns::Layout;
use df1::Direction;
use rules::{FileCycle, Sample};
use std::io::{Error, Read};
use streams::read_full;
use trace_bytes::input::sample_at;

// How many words are read at once.
const PART: usize = 651;

// The list is cut short or has an unknown opcode. Not the `Bad` of a trace: a list of calls is no part of one.
#[derive(Clone, Copy)]
pub struct Bad;

impl From<Error> for Bad {
    fn from(_: Error) -> Bad {
        Bad
    }
}

// What a call is, by its opcode.
#[derive(Clone, Copy)]
pub enum Opcode {
    Power,
    File(FileCycle),
    Nudge,
    Step,
    Block,
    ReadByte,
    WriteByte,
    Frame(Direction),
    Section(Layout),
}

impl TryFrom<u16> for Opcode {
    type Error = Bad;

    fn try_from(n: u16) -> Result<Opcode, Bad> {
        match n {
            0 => Ok(Opcode::Power),
            1 => Ok(Opcode::File(FileCycle::SetupCycle)),
            2 => Ok(Opcode::File(FileCycle::GroupCycle)),
            3 => Ok(Opcode::File(FileCycle::LimitCycle)),
            4 => Ok(Opcode::Nudge),
            5 => Ok(Opcode::Step),
            6 => Ok(Opcode::Block),
            7 => Ok(Opcode::ReadByte),
            8 => Ok(Opcode::WriteByte),
            9 => Ok(Opcode::Frame(Direction::Write)),
            10 => Ok(Opcode::Frame(Direction::Read)),
            11 => Ok(Opcode::Section(Layout::Columns)),
            12 => Ok(Opcode::Section(Layout::Rows)),
            _ => Err(Bad),
        }
    }
}

// The next call's opcode; none where the list ends before it.
pub fn next_opcode<R: Read>(from: &mut R) -> Result<Option<Opcode>, Bad> {
    let mut b = [0; 2];
    match read_full(from, &mut b) {
        0 => Ok(None),
        2 => Ok(Some(Opcode::try_from(u16::from_le_bytes(b))?)),
        _ => Err(Bad),
    }
}

// The next word of a call.
pub fn read_word<R: Read>(from: &mut R) -> Result<u16, Bad> {
    let mut b = [0; 2];
    from.read_exact(&mut b)?;
    Ok(u16::from_le_bytes(b))
}

// The words of so many bytes, at the room's start; those that it has no room for are left out.
fn put_words(room: &mut [u16], bytes: &[u8]) {
    for (word, b) in room.iter_mut().zip(bytes.chunks_exact(2)) {
        *word = u16::from_le_bytes([b[0], b[1]]);
    }
}

// The nine words of a sample.
pub fn read_sample<R: Read>(from: &mut R) -> Result<Sample, Bad> {
    let mut b = [0; 18];
    from.read_exact(&mut b)?;
    Ok(sample_at(&b))
}

// Reads a count and that many words to the room's start, which are the file. Of a longer one the room has a part, since it is refused by its length alone.
pub fn read_file<'a, R: Read>(from: &mut R, room: &'a mut [u16]) -> Result<&'a mut [u16], Bad>
    ensures { IfOk result (λ file. length file.now ≤ length room.old) }
{
    let count = usize::from(read_word(from)?);
    let mut b = [0; 2 * PART];
    for at in (0..count).step_by(PART) {
        let bytes = &mut b[..2 * PART.min(count - at)];
        from.read_exact(bytes)?;
        put_words(room.get_mut(at..).unwrap_or(&mut []), bytes);
    }
    let kept = count.min(room.len());
    Ok(&mut room[..kept])
}
