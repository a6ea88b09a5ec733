// The section calls: sections put by columns and by rows over a lent output, each word of it EEEEh before the call.
use crate::answer::Words;
use columns::{Layout, MOST_SAMPLES, SAMPLE_WORDS, number_of};

// Room for a section. It has a word more than the longest, so that the part of a longer one that it holds is refused too.
pub const SECTION_ROOM: usize = MOST_SAMPLES * SAMPLE_WORDS + 1;

// The call with an output of so many words, and its line: the outcome, then the output.
fn show_call(to: &impl Print, layout: Layout, words: &[u16], out: &mut [u16]) {
    let name = match layout {
        Layout::Columns => "columns",
        Layout::Rows => "rows",
    };
    let made = layout.put(words, out);
    let _ = println!(to; "{name} {}{}", number_of(made), Words(out));
}

// Room for the largest lent output. It is fixed, as there is no heap; the output of a call is a slice of it.
fn output_space() -> [u16; 65535] {
    [0xeeee; 65535]
}

pub fn show_section(to: &impl Print, layout: Layout, words: &[u16], size: u16) {
    let mut space = output_space();
    show_call(to, layout, words, &mut space[..usize::from(size)]);
}
