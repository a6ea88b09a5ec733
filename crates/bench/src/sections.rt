// Sections from memory: put by columns and back by rows, and the checksum over what the output then holds.
use crate::steps::plus;
use columns::{Layout, MOST_SAMPLES, Refusal, SAMPLE_WORDS};
use std::array;

// The words of the longest section.
const MOST_WORDS: usize = MOST_SAMPLES * SAMPLE_WORDS;

// The words of the first section.
fn first_section() -> [u16; MOST_WORDS] {
    array::from_fn(|i| (7 * i % 65536) as u16)
}

// The words of the first turn: the first section, or its columns where these are put back by rows.
fn first_words(layout: Layout) -> [u16; MOST_WORDS] {
    let section = first_section();
    match layout {
        Layout::Columns => section,
        Layout::Rows => {
            let mut columns = [0; MOST_WORDS];
            let _ = Layout::Columns.put(&section, &mut columns);
            columns
        }
    }
}

// The last raw word's place in a layout.
fn last_raw(layout: Layout) -> usize {
    match layout {
        Layout::Columns => MOST_SAMPLES - 1,
        Layout::Rows => MOST_WORDS - SAMPLE_WORDS,
    }
}

// The number of a turn: the output's words at the turn's place and at that of the last raw; none of one that was refused.
fn number(made: Result<(), Refusal>, out: &[u16], place: usize, last: usize) -> Option<u64> {
    made.ok()?;
    let word = out.get(place)?;
    let raw = out.get(last)?;
    Some(65536 * u64::from(*word) + u64::from(*raw))
}

// The checksum of so many sections put in a layout, before each of which one word grows by 1.
pub fn sections_put(layout: Layout, turns: u32) -> u32 {
    let mut words = first_words(layout);
    let last = last_raw(layout);
    let mut out = [0; MOST_WORDS];
    let mut sum = 0;
    for t in 0..turns {
        let place = t as usize % MOST_WORDS;
        words[place] = words[place].wrapping_add(1);
        let made = layout.put(&words, &mut out);
        sum = plus(sum, number(made, &out, place, last).unwrap_or(0));
    }
    sum
}
