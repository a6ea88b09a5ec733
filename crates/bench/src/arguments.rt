// The program's arguments: what to measure, and a number of steps, turns, frames or sections.
use crate::cases::Case;
use columns::Layout;
use std::env::Env;
use streams::arg;

// A raw position out of range, at which a step is answered 11.
const OUT_OF_RANGE: u16 = 1024;

// What is done with a card: steps, at one raw position where it is given, or programming cycles and a step after them.
#[derive(Clone, Copy)]
pub enum Work {
    Steps(Option<u16>),
    Cycles,
}

// What is measured.
#[derive(Clone, Copy)]
pub enum Measure {
    OfCard(Case, Work),
    FramesWritten,
    FramesRead,
    Sections(Layout),
}

// The measure of a name. An Option, since a `TryFrom` would want an error that nothing reads.
pub fn measure_of(name: u8) -> Option<Measure> {
    match name {
        b'a' => Some(Measure::OfCard(Case::Full, Work::Steps(None))),
        b'b' => Some(Measure::OfCard(Case::Small, Work::Steps(None))),
        b'x' => Some(Measure::OfCard(Case::Worst, Work::Steps(None))),
        b'f' => Some(Measure::OfCard(Case::Full, Work::Steps(Some(OUT_OF_RANGE)))),
        b'p' => Some(Measure::OfCard(Case::Full, Work::Cycles)),
        b'w' => Some(Measure::FramesWritten),
        b'r' => Some(Measure::FramesRead),
        b'c' => Some(Measure::Sections(Layout::Columns)),
        b'd' => Some(Measure::Sections(Layout::Rows)),
        _ => None,
    }
}

// The name, where the argument is a single byte.
pub fn measure_name<E: Env>(env: &E) -> Option<u8> {
    match arg(env, 1, &mut [0])? {
        [name] => Some(*name),
        _ => None,
    }
}
