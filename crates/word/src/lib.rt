// Words of 16 bits and files of words: what the readers and writers of the card's files, inputs and outputs are made of.
#![tactic(auto)]

ghost use Rattle.std.specs.Prelude.{◌≡◌, [], ◌∷◌, not, ◌&&◌, cond, ◌+◌, ◌-◌, ◌<◌, leb, length};
ghost use Rattle.rules.specs.Words as words;
ghost use Rattle.word.specs.Layout.{named};

mod failing;

pub use failing::{Blocks, Failing, lowest_failing};

// A word in which 01 names some bits and the others are reserved: the setup, group and limit commands, a group's and a limit switch's control word.
#[derive(Clone, Copy, Debug, PartialEq, Eq)]
pub enum Layout {
    SetupCommand,
    GroupCommand,
    LimitCommand,
    GroupControl,
    LimitControl,
}

// The status bit of a reserved bit or word.
pub const RESERVED_STATUS: u16 = 0x8000;

// Bit n of a word.
#[tactic(auto, unfolding(rules::specs::Words::bit))]
pub fn bit(w: u16, n: u16) -> bool
    ensures { result ≡ words.bit w n }
{
    n < 16 && (w >> n) % 2 == 1
}

// The reserved bits of a word, all set.
#[tactic(auto, unfolding(rules::specs::Words::packed, rules::specs::SetupWords::setup_command_bits, rules::specs::GroupWords::group_command_bits, rules::specs::LimitWords::limit_command_bits, rules::specs::GroupWords::group_control_bits, rules::specs::LimitWords::limit_control_bits))]
fn reserved(layout: Layout) -> u16
    ensures { result ≡ words.word_of 0 (λ n. not (words.one_of (named layout) n)) }
{
    match layout {
        Layout::SetupCommand => 0x7ccc,
        Layout::GroupCommand => 0x7ffe,
        Layout::LimitCommand => 0x7ffe,
        Layout::GroupControl => 0x18e0,
        Layout::LimitControl => 0x1ffc,
    }
}

// Some reserved bit of a word is set.
#[tactic(auto, using(crate::proofs::Laws::and_packed, crate::proofs::Laws::some_packed), unfolding(rules::specs::Words::other_bit))]
pub fn other_bit(w: u16, layout: Layout) -> bool
    ensures { result ≡ words.other_bit (named layout) w }
{
    reserved(layout) & w != 0
}

// Sixteen inputs or outputs after their forces, off beats on; a missing one is never on.
pub fn forced(present: u16, off: u16, on: u16, before: u16) -> u16
    ensures { result ≡ words.word_of 0 (λ n. words.bit present n && words.forced (words.bit off n) (words.bit on n) (words.bit before n)) }
{
    present & ((off ^ 0xffff) & (on | before))
}

// How many of sixteen outputs changed.
pub fn changes(old: u16, new: u16) -> u16
    ensures { result ≡ words.differing old new }
{
    (old ^ new).count_ones() as u16
}

// The word at a place of a file; 0 past its end.
pub fn word_at(file: &[u16], n: usize) -> u16
    ensures { result ≡ words.word file.now n }
{
    file.get(n).copied().unwrap_or(0)
}

// Some word of a file from the first to the last place is not 0.
pub fn any_word(file: &[u16], from: usize, to: usize) -> bool
    ensures { result ≡ words.any_word from to file.now }
{
    let end = file.len().min(to.saturating_add(1));
    for at in from..end {
        if file[at] != 0 {
            return true;
        }
    }
    false
}

// The words stored into a file from a place on; a file that ends before their end stays as it is.
pub fn store(file: &mut [u16], at: usize, words: &[u16])
    ensures { file.new ≡ cond (leb (at + length words.now) (length file.old)) (Rattle.rules.specs.Words.stored_at at words.now file.old) file.old }
{
    if file.len() < at || file.len() - at < words.len() {
        return;
    }
    file[at..at + words.len()].copy_from_slice(words);
}

// The word with these six lowest bits.
pub fn bits(b0: bool, b1: bool, b2: bool, b3: bool, b4: bool, b5: bool) -> u16
    ensures { (result ≡ words.bits (b0 ∷ b1 ∷ b2 ∷ b3 ∷ b4 ∷ b5 ∷ [])) × (result < 64) }
{
    let high = u16::from(b4) + 2 * u16::from(b5);
    let middle = u16::from(b2) + 2 * (u16::from(b3) + 2 * high);
    u16::from(b0) + 2 * (u16::from(b1) + 2 * middle)
}
