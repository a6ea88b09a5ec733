// Steps, programming cycles, frames and sections from memory and a checksum over their answers, to measure their time: docs/BENCH.md.
#![tactic(auto)]

mod arguments;
mod cases;
mod cycles;
mod frames;
mod sections;
mod steps;

use crate::arguments::{Measure, Work, measure_name, measure_of};
use crate::cases::{Case, module_of};
use crate::cycles::limits_sent;
use crate::frames::{frames_read, frames_written};
use crate::sections::sections_put;
use crate::steps::{Steps, checksum};
use std::env::Env;
use std::str::from_utf8;
use streams::{arg, is_given};

// The checksum of a card's work. The steps' loop is called in one place: called from two it is compiled by itself and copies more of the module in each step.
fn sum_of_card(case: Case, work: Work, n: u32) -> u32 {
    let mut card = module_of(case);
    let (first, count, raw, sum) = match work {
        Work::Steps(raw) => (0, n, raw, 0),
        Work::Cycles => (n, 1, None, limits_sent(case, &mut card, n)),
    };
    checksum(card, Steps { first, count, raw }, sum)
}

// The checksum of a measure.
fn sum_of(measure: Measure, n: u32) -> u32 {
    match measure {
        Measure::OfCard(case, work) => sum_of_card(case, work, n),
        Measure::FramesWritten => frames_written(n),
        Measure::FramesRead => frames_read(n),
        Measure::Sections(layout) => sections_put(layout, n),
    }
}

// The line of a measure; none where the arguments are no name and number alone. The number's text is printed as it was given.
// An argument is bytes in fixed room: it may be no UTF-8, and there is no heap.
fn run(rt: &(impl Env + Print)) -> Option<()> {
    if is_given(rt, 3) {
        return None;
    }
    let mut text = [0; 128];
    let text = arg(rt, 2, &mut text)?;
    let name = measure_name(rt)?;
    let measure = measure_of(name)?;
    let text = from_utf8(text).ok()?;
    let n = text.parse().ok()?;
    let sum = sum_of(measure, n);
    let name = char::from(name);
    let _ = println!(rt; "{name} {text} {sum}");
    Some(())
}

fn main(rt: HostRuntime) {
    if run(&rt).is_none() {
        let _ = eprintln!(rt;
            "usage: bench a N | bench b N | bench x N | bench f N | bench p N | bench w N | bench r N | bench c N | bench d N"
        );
    }
}
