// One limit block of M1: its checks, the bits of word 630, and the program that it gives.
#![tactic(auto)]

ghost use Rattle.std.specs.Prelude.{false, true, ◌&&◌, ◌||◌, [], ◌∷◌, ◌≡◌, ◌+◌, ◌*◌, ltb, eqb, MatchOption};
ghost use Rattle.rules.specs.Words.{word, bits, signed_word, some_of, table};
ghost use Rattle.rules.specs.Variants.{action_with};
ghost use Rattle.rules.specs.Switches as switches;
ghost use Rattle.rules.specs.LimitWords as limit;
ghost use Rattle.counts.specs.Factor.{factor};
ghost use Rattle.limit_block.specs.Kinds.{number_of};

use counts::{ScaleFactor, used_pair};
use rules::{Action, Advance, Anded, IoType, Limit, Model, Pair, Switch};
use std::array;
use switch::Train;
use word::Layout;

// The words of a block.
pub const WORDS: usize = 19;

// The bit of a control word that is ANDing with LS Enable.
const ENABLE: u16 = 15;

// The type that a control word names; no fourth is defined.
#[derive(Clone, Copy, Debug, PartialEq, Eq)]
enum Kind {
    Normal,
    Pulse,
    Timed,
    Undefined,
}

impl From<u16> for Kind {
    ghost from_gives = { λ w k. limit.control_type w ≡ number_of k };

    fn from(control: u16) -> Kind {
        match control % 4 {
            0 => Kind::Normal,
            1 => Kind::Pulse,
            2 => Kind::Timed,
            _ => Kind::Undefined,
        }
    }
}

// The words of a block.
#[derive(Clone, Copy, Debug, PartialEq, Eq)]
pub struct Block {
    pub words: [u16; 19],
}

// ---- The checks

// Bit 2, advance, two's complement: outside −999 to 999.
#[tactic(auto, unfolding(rules::specs::LimitWords::advance_bad, rules::specs::Words::signed_word))]
fn advance_bad(w: u16) -> bool
    ensures { result ≡ limit.advance_bad w }
{
    !(-999..=999).contains(&w.cast_signed())
}

// The detector of a control word.
fn detector(control: u16) -> u16
    ensures { result ≡ limit.control_detector control }
{
    control / 8192 % 4
}

// Bit 1, control: detector or type 3, or another bit set.
#[tactic(auto, unfolding(rules::specs::LimitWords::control_bad, rules::specs::Variants::anded_of))]
fn control_bad(w: u16) -> bool
    ensures { result ≡ limit.control_bad w }
{
    matches!(Anded::from(detector(w)), Anded::Never)
        || matches!(Kind::from(w), Kind::Undefined)
        || word::other_bit(w, Layout::LimitControl)
}

// Q or K 0 or, with bit 3 clear, R < Q × K + Q − 1.
#[tactic(auto, unfolding(rules::specs::LimitWords::pulse_bad))]
pub fn pulse_bad(bit3: bool, t: Train) -> bool
    ensures { result ≡ limit.pulse_bad bit3 t.length t.quantity t.count }
{
    let Train {
        length,
        quantity,
        count,
    } = t;
    quantity == 0
        || count == 0
        || !bit3
            && u32::from(length) < u32::from(quantity) * u32::from(count) + u32::from(quantity) - 1
}

// Bit 4 of a timed switch: the fifth of its kind, or its duration.
fn duration_bad(fifth: bool, used: bool, t: u16) -> bool
    ensures { result ≡ fifth || (used && (eqb t 0 || ltb 9999 t)) }
{
    fifth || used && (t == 0 || 9999 < t)
}

impl Block {
    // The words of limit block n, n from 1.
    #[tactic(auto, unfolding(rules::specs::LimitWords::limit_block))]
    fn at(file: &[u16], n: u16) -> Block
        ensures { result.words ≡ limit.limit_block file.now n }
    {
        let start = block_start(n);
        Block {
            words: array::from_fn(|k| word::word_at(file, start + k)),
        }
    }

    // The words are all 0.
    #[tactic(auto, unfolding(rules::specs::LimitWords::all_zero))]
    fn is_all_zero(self) -> bool
        ensures { result ≡ limit.all_zero self.words }
    {
        self.words.iter().all(|&w| w == 0)
    }

    fn kind(self) -> Kind
        ensures { limit.block_type self.words ≡ number_of result }
    {
        Kind::from(self.words[0])
    }

    fn is(self, kind: Kind) -> bool
        ensures { result ≡ eqb (limit.block_type self.words) (number_of kind) }
    {
        self.kind() == kind
    }

    // Bit 2: either advance is bad.
    fn advances_bad(self) -> bool
        ensures { result ≡ (limit.advance_bad (word self.words 1) || limit.advance_bad (word self.words 2)) }
    {
        advance_bad(self.words[1]) || advance_bad(self.words[2])
    }

    // Pair k, from 0, of a block's words; `switch` has that of a switch's setpoints.
    fn pair(self, k: u16) -> Pair
        ensures { result ≡ record { on = word self.words (2 * k + 3); off = word self.words (2 * k + 4) } }
    {
        let at = 2 * k as usize + 3;
        Pair {
            on: word::word_at(&self.words, at),
            off: word::word_at(&self.words, at + 1),
        }
    }

    // Some of the eight pairs of a normal switch is bad.
    fn some_pair_bad(self, sf: ScaleFactor) -> bool
        ensures { result ≡ some_of 8 0 (limit.block_pair_bad (factor sf) self.words) }
    {
        (0..8).any(|k| self.pair_bad(sf, k))
    }

    #[tactic(auto, unfolding(rules::specs::LimitWords::block_pair_bad))]
    fn pair_bad(self, sf: ScaleFactor, k: u16) -> bool
        ensures { result ≡ limit.block_pair_bad (factor sf) self.words k }
    {
        sf.pair_bad(self.pair(k))
    }

    // Bit 3, setpoint: of a normal switch any of the eight pairs, of the others the first.
    #[tactic(auto, unfolding(rules::specs::LimitWords::setpoint_bad))]
    fn setpoint_bad(self, sf: ScaleFactor) -> bool
        ensures { result ≡ limit.setpoint_bad (factor sf) self.words }
    {
        match self.kind() {
            Kind::Normal => self.some_pair_bad(sf),
            Kind::Pulse | Kind::Timed | Kind::Undefined => self.pair_bad(sf, 0),
        }
    }

    // The first pair is not 0/0.
    fn is_used(self) -> bool
        ensures { result ≡ limit.block_used self.words }
    {
        used_pair(self.pair(0))
    }

    // The train of a pulse switch.
    fn train(self, sf: ScaleFactor) -> Train
        ensures { result ≡ record { length = limit.block_length (factor sf) self.words; quantity = word self.words 5; count = word self.words 6 } }
    {
        Train::of(sf, self.pair(0), self.words[5], self.words[6])
    }

    // Bit 4, where bit 3 is `bit3`: the length of a train, a timed switch's duration or number.
    #[tactic(auto, unfolding(rules::specs::LimitWords::length_bad))]
    fn length_bad(self, sf: ScaleFactor, fifth: bool, bit3: bool) -> bool
        ensures { result ≡ limit.length_bad (factor sf) fifth bit3 self.words }
    {
        match self.kind() {
            Kind::Pulse => self.is_used() && pulse_bad(bit3, self.train(sf)),
            Kind::Timed => duration_bad(fifth, self.is_used(), self.words[5]),
            Kind::Normal | Kind::Undefined => false,
        }
    }

    // Bits 1 to 4 of word 630; of type 3 only 1 and 2 are tested. `fifth` says that the output is at least the fifth timed of its kind.
    #[tactic(auto, unfolding(rules::specs::LimitWords::block_bits, rules::specs::LimitWords::length_bit))]
    pub fn bits(self, sf: ScaleFactor, fifth: bool) -> u16
        ensures { result ≡ limit.block_bits (factor sf) fifth self.words }
    {
        let bit1 = control_bad(self.words[0]);
        let bit2 = self.advances_bad();
        if self.is(Kind::Undefined) {
            return word::bits(false, bit1, bit2, false, false, false);
        }
        let bit3 = self.setpoint_bad(sf);
        let bit4 = self.length_bad(sf, fifth, bit3);
        word::bits(false, bit1, bit2, bit3, bit4, false)
    }
}

// The place of limit block n.
pub fn block_start(n: u16) -> usize
    ensures { result ≡ limit.block_at n }
{
    (WORDS * n as usize).saturating_sub(17)
}

// Limit block n is of type timed.
fn timed_block(file: &[u16], n: u16) -> bool
    ensures { result ≡ eqb (limit.control_type (word file.now (limit.block_at n))) 2 }
{
    matches!(Kind::from(word::word_at(file, block_start(n))), Kind::Timed)
}

// Output n, from 1, is at least the fifth timed of its kind: four of the lower ones of its sixteen are timed.
#[tactic(auto, unfolding(rules::specs::LimitWords::fifth_timed))]
pub fn fifth_timed(file: &[u16], n: u16) -> bool
    ensures { result ≡ limit.fifth_timed file.now n }
{
    let lower = n.saturating_sub(1) % 16;
    4 <= (n - lower..n).filter(|&m| timed_block(file, m)).count()
}

// ---- The decoding

// The module has output n, from 0: under 16 a real one, as 01 numbers them. Model and number stay two arguments: `read` and `limit_from` count from 1.
#[tactic(auto, unfolding(rules::specs::Switches::present, rules::specs::Variants::io_count))]
fn present(m: Model, n: u16) -> bool
    ensures { result ≡ switches.present m n }
{
    if n < 16 {
        n < m.count(IoType::Real)
    } else {
        n - 16 < m.count(IoType::Virtual)
    }
}

// An advance word: two's complement, in tenths of a millisecond. Not a `From`, as neither type is this crate's.
#[tactic(auto, unfolding(rules::specs::Words::signed_word))]
fn advance_of(w: u16) -> Advance
    ensures { result ≡ limit.advance_of w }
{
    let tenths = w.cast_signed();
    Advance {
        negative: tenths < 0,
        tenths: tenths.unsigned_abs(),
    }
}

impl Block {
    // The block of output n, from 1, that is read: none of a missing output, and none that is all zero.
    #[tactic(auto, unfolding(rules::specs::LimitWords::unread))]
    pub fn read(m: Model, file: &[u16], n: u16) -> Option<Block>
        ensures { MatchOption result (limit.unread m file.now n ≡ true) (λ b. (limit.unread m file.now n ≡ false) × (b.words ≡ limit.limit_block file.now n)) }
    {
        if !present(m, n.saturating_sub(1)) {
            return None;
        }
        let block = Block::at(file, n);
        if block.is_all_zero() {
            None
        } else {
            Some(block)
        }
    }

    // The switch, with what figure 5.9 puts after the pair. It and the program below are made of words at their places: a `From` would be no plainer.
    #[tactic(auto, unfolding(rules::specs::LimitWords::action_of))]
    fn switch(self) -> Switch
        ensures { action_with result ≡ limit.action_of self.words }
    {
        match self.kind() {
            Kind::Normal => Switch::Normal,
            Kind::Pulse => Switch::Pulse(self.words[5], self.words[6]),
            Kind::Timed => Switch::Timed(self.words[5]),
            Kind::Undefined => Switch::Unprogrammed,
        }
    }

    // The sixteen setpoints of a normal switch; the first two of the others.
    fn setpoints(self) -> [u16; 16]
        ensures { result ≡ table 16 0 (limit.setpoint_of self.words) }
    {
        let normal = self.is(Kind::Normal);
        array::from_fn(|k| if normal || k < 2 {
            self.words[k + 3]
        } else {
            0
        })
    }

    // The program that the block gives.
    #[tactic(auto, unfolding(rules::specs::LimitWords::limit_of_block))]
    fn limit(self) -> Limit
        ensures { result ≡ limit.limit_of_block self.words }
    {
        let control = self.words[0];
        Limit {
            action: Action::from(self.switch()),
            enable: word::bit(control, ENABLE),
            detector: detector(control),
            onadvance: advance_of(self.words[1]),
            offadvance: advance_of(self.words[2]),
            setpoints: self.setpoints(),
        }
    }
}

// The program of output n, from 1, that a file gives.
#[tactic(auto, unfolding(rules::specs::LimitWords::limit_from))]
pub fn limit_from(m: Model, file: &[u16], n: u16) -> Limit
    ensures { result ≡ limit.limit_from m file.now n }
{
    match Block::read(m, file, n) {
        Some(block) => block.limit(),
        None => Limit::NONE,
    }
}
