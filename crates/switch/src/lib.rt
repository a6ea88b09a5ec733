// Limit switches: a pair at a position, advances, normal, pulse and timed switches.
#![tactic(auto)]

ghost use Rattle.std.specs.Prelude.{true, min, ◌-◌, ◌≡◌, ◌+◌, ◌*◌, ◌%◌, ◌≤◌, nat_abs, get_or, ◌-ℤ◌};
ghost use Rattle.std.specs.Int.RustNames.{count_ones};
ghost use Rattle.std.proofs.Math.IntN.{sub_ℕ};
ghost use Rattle.rules.specs.Words.{digit};
ghost use Rattle.rules.specs.Counts.{ahead};
ghost use Rattle.rules.specs.declared.Switch.TheVariants.{Normal};
ghost use Rattle.rules.specs.Motion.{c_value};
ghost use Rattle.rules.specs.Switches.{advance_value, advance_shift, count_at, pair_used, on_shift, off_shift, pair_holds, normal_holds, pulse_start, pulse_on, pulse_holds, switch_holds, switch_tests};
ghost use Rattle.rules.specs.Card.{timed_after};
ghost use Rattle.counts.specs.Factor.{factor};
ghost use Rattle.switch.specs.Parts.{shift_bias, shift_counts, taken_back, spread_of, pair_at, some_pair, pairs_tested, last_pulse, timed_left};

mod lanes;

use crate::lanes::{Sides, holding, in_range, sides_of, up_to_lowest, used};
use counts::{ScaleFactor, used_pair};
use rules::{Advance, Limit, Pair, Position, Speed, Switch, TimedState};

// What is added to a shift s, so that one number stands for either sign: 2^47, more than any s.
const SHIFT_BIAS: u64 = 140737488355328;

// Lanes of 16 bits are wide enough for a turn whose top count is below this.
const LANE_TOP: u16 = 32767;

// The magnitude of s: advance × c × SF / 245760. The whole product fits in 64 bits; c × SF is the same for all outputs of a step.
#[tactic(auto, using(crate::proofs::Advance::shift_fits), unfolding(crate::specs::Parts::shift_counts))]
fn shift_counts(sf: ScaleFactor, tenths: u16, counts: u32) -> u64
    ensures magnitude { result ≡ shift_counts (factor sf) tenths counts }
    ensures fits { result ≤ shift_bias }
{
    tenths as u64 * (counts as u64 * sf.whole() as u64) / 245760
}

// How much of c there is, in either direction.
#[tactic(auto, using(rules::proofs::Laws::apart_is))]
fn magnitude(c: u32) -> u32
    ensures { result ≡ nat_abs (c_value c) }
{
    c.abs_diff(Speed::C_BIAS)
}

// s of an advance at c, before reduction mod SF, with its bias. Like signs make s positive.
fn shift(sf: ScaleFactor, a: Advance, c: u32) -> u64
    ensures value { sub_ℕ result shift_bias ≡ advance_shift (factor sf) (advance_value a) (c_value c) }
    ensures fits { result ≤ 2 * shift_bias }
{
    let s = shift_counts(sf, a.tenths, magnitude(c));
    let back = c < Speed::C_BIAS;
    if a.negative != back {
        return SHIFT_BIAS - s;
    }
    SHIFT_BIAS + s
}

// A count taken back by the displacement of a setpoint, which is −s: (p + s) mod SF, where s has its bias.
#[cold]
#[inline(never)]
#[tactic(auto, using(crate::proofs::Advance::back_down, crate::proofs::Advance::back_up))]
fn taken_round(sf: ScaleFactor, s: u64, p: u16) -> u16
    ensures { result ≡ taken_back (factor sf) (sub_ℕ s shift_bias) p }
{
    if s < SHIFT_BIAS {
        return sf.ahead(sf.reduced(SHIFT_BIAS - s), p);
    }
    sf.sum(p, sf.reduced(s - SHIFT_BIAS))
}

// The same; where it stays within the turn nothing is reduced.
fn taken_back(sf: ScaleFactor, s: u64, p: u16) -> u16
    ensures { result ≡ taken_back (factor sf) (sub_ℕ s shift_bias) p }
{
    let at = s.wrapping_add(p as u64).wrapping_sub(SHIFT_BIAS);
    if at < sf.whole() as u64 {
        return at as u16;
    }
    taken_round(sf, s, p)
}

// The spread of two shifts that are over a turn apart; `far` is the ON shift and a turn.
#[cold]
#[inline(never)]
fn spread_beyond(turn: u64, far: u64, off: u64) -> u64
    ensures { result ≡ min (far - off) (2 * turn) }
{
    far.saturating_sub(off).min(turn.saturating_mul(2))
}

// The count of the position that a switch reads. Not a `From`, by which either position could stand for the other anywhere.
fn count_at(p: Position) -> u16
    ensures { result ≡ count_at p }
{
    match p {
        Position::OfMachine(m) => m.0,
        Position::OfGroup(g) => g.0,
    }
}

// Pair k of a switch's setpoints. Not for a nudge, which writes where it reads, nor for a block, whose words are another array.
fn pair(setpoints: &[u16; 16], k: u16) -> Pair
    ensures { (result.on ≡ get_or setpoints.now (2 * k) 0) × (result.off ≡ get_or setpoints.now (2 * k + 1) 0) }
{
    let at = 2 * k as usize;
    Pair {
        on: setpoints.get(at).copied().unwrap_or(0),
        off: setpoints.get(at + 1).copied().unwrap_or(0),
    }
}

// Whether a switch holds, and the pairs tested for it, a bit for each.
#[derive(Clone, Copy)]
pub struct Tested {
    pub holds: bool,
    pub tested: u8,
}

// A pulse or timed switch, of one pair: one test, and none at 0/0.
#[tactic(auto, using(crate::proofs::SideBySide::ones_byte))]
fn one_tested(l: &Limit, holds: bool) -> Tested
    ensures { (result.holds ≡ holds) × (count_ones result.tested ≡ digit (pair_used l.now 0)) }
{
    let pair = pair(&l.setpoints, 0);
    Tested {
        holds,
        tested: used_pair(pair) as u8,
    }
}

// What the pairs of a switch are tested with, worked out once for all of them.
#[derive(Clone, Copy)]
struct Displaced {
    pub sf: ScaleFactor,
    // The position, taken back by the ON displacement.
    pub from: u16,
    // How much the displacements lengthen a pair, and SF more.
    pub spread: u32,
}

impl Displaced {
    // One pair: how far the position is from its start, less the pair's own length, against the spread. For how long it holds is decided here.
    #[tactic(auto, using(rules::proofs::Laws::ahead_below), unfolding(crate::specs::Parts::pair_at))]
    fn pair_holds(self, pair: Pair) -> bool
        ensures { result ≡ pair_at (factor self.sf) self.from self.spread pair.on pair.off }
    {
        let used = used_pair(pair);
        if !used {
            return false;
        }
        let Pair { on, off } = pair;
        let at = self.sf.ahead(on, self.from) as u32;
        let length = self.sf.ahead(on, off) as u32;
        at + (self.sf.whole() - length) < self.spread
    }

    // The pairs of a normal switch one after the other, up to the first that holds, each test counted. An unused one is no test.
    #[cold]
    #[inline(never)]
    fn one_by_one(self, setpoints: &[u16; 16]) -> Tested
        ensures { (result.holds ≡ some_pair (factor self.sf) self.from self.spread setpoints.now) × (count_ones result.tested ≡ pairs_tested (factor self.sf) self.from self.spread setpoints.now) }
    {
        let mut tested = 0;
        for k in 0..8 {
            let pair = pair(setpoints, k);
            tested = tested * 2 + used_pair(pair) as u8;
            if self.pair_holds(pair) {
                return Tested {
                    holds: true,
                    tested,
                };
            }
        }
        Tested {
            holds: false,
            tested,
        }
    }

    // The same: side by side where the lanes are wide enough and all counts in range, as in every accepted programming.
    fn pairs_tested(self, setpoints: &[u16; 16]) -> Tested
        ensures { (result.holds ≡ some_pair (factor self.sf) self.from self.spread setpoints.now) × (count_ones result.tested ≡ pairs_tested (factor self.sf) self.from self.spread setpoints.now) }
    {
        let top = self.sf.top;
        let Sides { on, off } = sides_of(setpoints);
        if top < LANE_TOP && in_range(on, off, self.from, top) {
            let used = used(on, off);
            let held = used & holding(on, off, top, self.from, self.spread.min(65535) as u16);
            return Tested {
                holds: held != 0,
                tested: up_to_lowest(used, held),
            };
        }
        self.one_by_one(setpoints)
    }
}

// A pulse train: 01's R, Q and K.
#[derive(Clone, Copy)]
pub struct Train {
    pub length: u16,
    pub quantity: u16,
    pub count: u16,
}

impl Train {
    // The train of a pair as long as that, with its pulses and their counts.
    pub fn of(sf: ScaleFactor, pair: Pair, quantity: u16, count: u16) -> Train
        ensures { result ≡ record { length = ahead (factor sf) pair.on pair.off; quantity = quantity; count = count } }
    {
        Train {
            length: sf.ahead(pair.on, pair.off),
            quantity,
            count,
        }
    }

    // Where pulse j starts.
    #[tactic(auto, using(rules::proofs::Trains::start_value))]
    fn start(self, j: u16) -> u32
        ensures { result ≡ pulse_start self.length self.quantity self.count j }
    {
        if self.quantity <= 1 {
            return 0;
        }
        j as u32 * self.length.saturating_sub(self.count) as u32 / (self.quantity - 1) as u32
    }

    // The last pulse that has started at `at` counts from the train's start.
    #[tactic(auto, unfolding(crate::specs::Parts::last_pulse))]
    fn last_started(self, at: u16) -> u16
        ensures { result ≡ last_pulse self.length self.quantity self.count at }
    {
        if self.quantity <= 1 || self.length <= self.count {
            return 0;
        }
        let gaps = (self.quantity - 1) as u32;
        (((at as u32 + 1) * gaps - 1) / (self.length - self.count) as u32).min(gaps) as u16
    }

    // Some pulse is on at `at` counts from the train's start. Only the last one that has started can be.
    #[tactic(auto, using(crate::proofs::Pulses::pulse_decided), unfolding(rules::specs::Switches::pulse_on, rules::specs::Words::some_of))]
    pub fn is_on(self, at: u16) -> bool
        ensures { result ≡ pulse_on self.length self.quantity self.count at }
    {
        self.quantity != 0
            && (at as u64) < self.start(self.last_started(at)) as u64 + self.count as u64
    }
}

// What every switch is tested with: the scale factor, c and the position that it reads.
#[derive(Clone, Copy)]
pub struct Moment {
    pub sf: ScaleFactor,
    pub c: u32,
    pub position: Position,
}

impl Moment {
    // What the pairs of a switch are tested with. Called, its structs would go through memory for each output.
    #[inline(always)]
    #[tactic(auto, using(crate::proofs::Advance::one_bias, crate::proofs::Advance::spread_within))]
    fn displaced(self, l: &Limit) -> Displaced
        ensures { (result.sf ≡ self.sf) × (result.from ≡ taken_back (factor self.sf) (on_shift (factor self.sf) (c_value self.c) l.now) (count_at self.position)) × (result.spread ≡ spread_of (factor self.sf) (on_shift (factor self.sf) (c_value self.c) l.now -ℤ off_shift (factor self.sf) (c_value self.c) l.now)) }
    {
        let on = shift(self.sf, l.onadvance, self.c);
        let off = shift(self.sf, l.offadvance, self.c);
        let turn = self.sf.whole() as u64;
        let far = on + turn;
        let near = far.wrapping_sub(off);
        let spread = if near <= 2 * turn {
            near
        } else {
            spread_beyond(turn, far, off)
        };
        Displaced {
            sf: self.sf,
            from: taken_back(self.sf, on, count_at(self.position)),
            spread: spread as u32,
        }
    }

    // The first pair of a switch holds, the only one of a timed switch.
    #[tactic(auto, using(crate::proofs::Pairs::pair_displaced))]
    fn first_pair_holds(self, l: &Limit) -> bool
        ensures { result ≡ pair_holds (factor self.sf) (c_value self.c) l.now 0 self.position }
    {
        self.displaced(l).pair_holds(pair(&l.setpoints, 0))
    }

    // Normal: some used pair holds.
    #[tactic(auto, using(crate::proofs::Pairs::some_displaced, crate::proofs::Pairs::tests_displaced))]
    fn normal_tested(self, l: &Limit) -> Tested
        ensures { (result.holds ≡ normal_holds (factor self.sf) (c_value self.c) l.now self.position) × (count_ones result.tested ≡ switch_tests (factor self.sf) (c_value self.c) l.now Normal self.position) }
    {
        self.displaced(l).pairs_tested(&l.setpoints)
    }

    // A pulse switch: R from the unmoved pair, the train from the ON setpoint moved by the ON advance.
    #[tactic(auto, using(rules::proofs::Congruence::ahead_of_moved), unfolding(crate::specs::Parts::taken_back, rules::specs::Switches::pulse_holds))]
    fn pulse_holds(self, l: &Limit, quantity: u16, count: u16) -> bool
        ensures { result ≡ pulse_holds (factor self.sf) (c_value self.c) l.now quantity count self.position }
    {
        let pair = pair(&l.setpoints, 0);
        if !used_pair(pair) {
            return false;
        }
        let from = taken_back(
            self.sf,
            shift(self.sf, l.onadvance, self.c),
            count_at(self.position),
        );
        let train = Train::of(self.sf, pair, quantity, count);
        train.is_on(self.sf.ahead(pair.on, from))
    }

    // A switch of that type holds, a timed one as if its time lasted, and how many of its pairs were tested for it. The type stays an argument: the caller has
    // it of the limit's action, and asks it for more.
    #[tactic(auto, unfolding(rules::specs::Switches::switch_holds, rules::specs::Switches::switch_tests))]
    pub fn switch_tested(self, s: Switch, l: &Limit) -> Tested
        ensures { (result.holds ≡ switch_holds (factor self.sf) (c_value self.c) l.now s self.position true) × (count_ones result.tested ≡ switch_tests (factor self.sf) (c_value self.c) l.now s self.position) }
    {
        match s {
            Switch::Unprogrammed => Tested {
                holds: false,
                tested: 0,
            },
            Switch::Normal => self.normal_tested(l),
            Switch::Pulse(q, k) => one_tested(l, self.pulse_holds(l, q, k)),
            Switch::Timed(_) => one_tested(l, self.first_pair_holds(l)),
        }
    }
}

// The steps for which a timed switch is on, this one included: 5 × T from where its pair began to hold.
#[tactic(auto, unfolding(crate::specs::Parts::timed_left))]
fn timed_left(t: u16, held: bool, before: bool, left: u32) -> u32
    ensures { result ≡ timed_left t held before left }
{
    if !held {
        return 0;
    }
    if before {
        return left.saturating_sub(1);
    }
    5 * t as u32
}

// A timed switch after a step at whose end its pair held or not.
#[tactic(auto, unfolding(rules::specs::Card::timed_after, crate::specs::Parts::timed_left))]
pub fn timed_after(s: Switch, held: bool, x: TimedState) -> TimedState
    ensures { result ≡ timed_after s held x }
{
    match s {
        Switch::Unprogrammed | Switch::Normal | Switch::Pulse(_, _) => TimedState::FRESH,
        Switch::Timed(t) => TimedState {
            held,
            left: timed_left(t, held, x.held, x.left),
        },
    }
}
