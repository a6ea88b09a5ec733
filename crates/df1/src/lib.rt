// DF1 full duplex, framing only: one frame written from data, and the data read from one frame.
#![tactic(auto)]

mod reading;
mod writing;

ghost use Rattle.std.specs.Prelude.{◌≡◌, ◌≤◌, length, IfOk};
ghost use Rattle.df1.specs.Frame as frame;

pub use reading::read_frame;
pub use writing::write_frame;

pub const DLE: u8 = 16;

pub const STX: u8 = 2;

pub const ETX: u8 = 3;

// The most data bytes of a frame, and the most bytes of a frame.
pub const MOST_DATA: usize = 244;

pub const LONGEST_FRAME: usize = 493;

// Why a call was turned away: 15, 16 and 17 of document 02.
#[derive(Clone, Copy, Debug, PartialEq, Eq)]
pub enum Refusal {
    DataLength,
    ShortBuffer,
    NotAFrame,
}

// The refusal's number.
impl From<Refusal> for u16 {
    ghost from_gives = { λ why n. n ≡ frame.number_of why };

    #[tactic(auto, unfolding(crate::specs::Frame::number_of))]
    fn from(why: Refusal) -> u16 {
        match why {
            Refusal::DataLength => 15,
            Refusal::ShortBuffer => 16,
            Refusal::NotAFrame => 17,
        }
    }
}

// How much data a body holds, and its sum.
#[derive(Clone, Copy)]
struct Scan {
    count: usize,
    sum: u8,
}

// 0 where a call was not refused, else the refusal's number. A function, as a `From` of a Result may stand in std alone.
#[tactic(auto, unfolding(crate::specs::Frame::outcome_number))]
pub fn number_of(outcome: Result<usize, Refusal>) -> u16
    ensures { result ≡ frame.outcome_number outcome }
{
    match outcome {
        Ok(_) => 0,
        Err(why) => u16::from(why),
    }
}

// The length that a call gives: 0 where it was refused.
#[tactic(auto, unfolding(crate::specs::Frame::length_given))]
pub fn length_of(outcome: Result<usize, Refusal>) -> usize
    ensures { result ≡ frame.length_given outcome }
{
    match outcome {
        Ok(n) => n,
        Err(_) => 0,
    }
}

// Which of the two calls a program makes.
#[derive(Clone, Copy)]
pub enum Direction {
    Write,
    Read,
}

impl Direction {
    // What the writer answers for data, or the reader for an input.
    #[tactic(auto, unfolding(crate::specs::Frame::outcome_of, crate::specs::Frame::buffer_of))]
    pub fn call(self, bytes: &[u8], out: &mut [u8]) -> Result<usize, Refusal>
        ensures outcome { result ≡ frame.outcome_of self bytes.now (length out.old) }
        ensures within { IfOk result (λ n. n ≤ length out.new) }
        ensures buffer { out.new ≡ frame.buffer_of self bytes.now out.old }
    {
        match self {
            Direction::Write => write_frame(bytes, out),
            Direction::Read => read_frame(bytes, out),
        }
    }
}

// A frame may have so many data bytes.
fn is_allowed(n: usize) -> bool
    ensures { result ≡ frame.allowed n }
{
    (1..=MOST_DATA).contains(&n)
}

// So many bytes are put into a buffer with so much room, or none.
#[tactic(auto, unfolding(crate::specs::Frame::fit_outcome))]
fn fitting(n: usize, room: usize) -> Result<usize, Refusal>
    ensures outcome { result ≡ frame.fit_outcome n room }
    ensures within { IfOk result (λ k. (k ≡ n) × (n ≤ room)) }
{
    if n <= room {
        Ok(n)
    } else {
        Err(Refusal::ShortBuffer)
    }
}

// The two's complement of a sum.
#[tactic(auto, unfolding(crate::specs::Frame::complement))]
fn complement(sum: u8) -> u8
    ensures { result ≡ frame.complement sum }
{
    0u8.wrapping_sub(sum)
}
