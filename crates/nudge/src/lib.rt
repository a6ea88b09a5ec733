// The nudge: one count up or down on the setpoints of one pair in force.
#![tactic(auto)]

ghost use Rattle.std.specs.Prelude.{◌≡◌, true, false, ◌&&◌, ◌+◌, ◌<◌, MatchOption};
ghost use Rattle.rules.specs.Words.{bit};
ghost use Rattle.rules.specs.Motion.{scale_factor};
ghost use Rattle.rules.specs.Switches as switches;
ghost use Rattle.rules.specs.Nudge as nudge;
ghost use Rattle.rules.specs.Card as card;
ghost use Rattle.counts.specs.Factor.{factor};

use counts::{ScaleFactor, used_pair};
use cycle::{
    accepted_cycle, acts, finished, idle_cycle, ignored_cycle, refused_cycle, stands, underway,
};
use rules::{
    Configuration, Cycle, CycleResult, Decision, Limit, Module, Pair, Programming, Refusal, Switch,
};
use switch::Train;

// Bits of the word: the ON and the OFF setpoint, down, ClrErr.
const ON: u16 = 8;

const OFF: u16 = 9;

const DOWN: u16 = 10;

const CLEAR: u16 = 14;

// The word of a nudge: bits 4 to 0 name the output and 7 to 5 the pair, from 0.
#[derive(Clone, Copy, Debug, PartialEq, Eq)]
struct Nudge {
    word: u16,
}

// The switch has no such pair, from 0, to nudge.
fn pair_missing(s: Switch, k: usize) -> bool
    ensures { result ≡ nudge.pair_missing s k }
{
    match s {
        Switch::Unprogrammed => true,
        Switch::Normal => false,
        Switch::Pulse(_, _) | Switch::Timed(_) => k != 0,
    }
}

// The limit checks that a pulse switch can fail by a nudge.
fn fails(sf: ScaleFactor, s: Switch, pair: Pair) -> bool
    ensures { result ≡ nudge.nudge_fails (factor sf) s pair.on pair.off }
{
    match s {
        Switch::Pulse(quantity, count) => {
            limit_block::pulse_bad(false, Train::of(sf, pair, quantity, count))
        }
        Switch::Unprogrammed | Switch::Normal | Switch::Timed(_) => false,
    }
}

// The nudged pair is 0/0, out of range or fails the limit checks.
#[tactic(auto, unfolding(rules::specs::Nudge::result_bad))]
fn result_bad(sf: ScaleFactor, s: Switch, pair: Pair) -> bool
    ensures { result ≡ nudge.result_bad (factor sf) s pair.on pair.off }
{
    !used_pair(pair) || sf.pair_bad(pair) || fails(sf, s, pair)
}

impl Nudge {
    fn output(self) -> usize
        ensures { (result ≡ nudge.nudge_output self.word) × (result < 32) }
    {
        usize::from(self.word % 32)
    }

    fn pair(self) -> usize
        ensures { (result ≡ nudge.nudge_pair self.word) × (result < 8) }
    {
        usize::from(self.word / 32 % 8)
    }

    fn has(self, n: u16) -> bool
        ensures { result ≡ bit self.word n }
    {
        word::bit(self.word, n)
    }

    // Refusal 9. Bits 11 to 13 are tested one by one, as the rule has them.
    #[tactic(auto, unfolding(rules::specs::Nudge::nudge_output_bad))]
    fn output_bad(self, p: Programming) -> bool
        ensures { result ≡ nudge.nudge_output_bad p self.word }
    {
        let l = p.limits[self.output()];
        pair_missing(Switch::from(l.action), self.pair())
            || !(self.has(ON) || self.has(OFF))
            || self.has(11)
            || self.has(12)
            || self.has(13)
    }

    // A setpoint one count up or down where bit n chooses it; none that leaves 0 to SF − 1.
    #[tactic(auto, unfolding(rules::specs::Nudge::nudged_to, rules::specs::Nudge::leaves_range))]
    fn setpoint(self, sf: ScaleFactor, n: u16, x: u16) -> Option<u16>
        ensures { MatchOption result
            ((bit self.word n && nudge.leaves_range (factor sf) (bit self.word nudge.down_bit) x) ≡ true)
            (λ y. ((bit self.word n && nudge.leaves_range (factor sf) (bit self.word nudge.down_bit) x) ≡ false) × (y ≡ nudge.nudged_if (bit self.word n) (bit self.word nudge.down_bit) x)) }
    {
        if !self.has(n) {
            Some(x)
        } else if self.has(DOWN) {
            x.checked_sub(1)
        } else if x < sf.top {
            Some(x + 1)
        } else {
            None
        }
    }

    // The switch with its pair nudged; none where refusal 10 comes. The pair is read at the index at which the nudged one is written.
    #[tactic(auto, using(crate::proofs::Laws::unused_bad, crate::proofs::Laws::on_bad, crate::proofs::Laws::off_bad, crate::proofs::Laws::pair_bad, crate::proofs::Laws::good), unfolding(rules::specs::Nudge::nudged_limit))]
    fn limit(self, sf: ScaleFactor, l: Limit) -> Option<Limit>
        ensures { MatchOption result
            (nudge.nudge_setpoint_bad (factor sf) l (nudge.nudge_pair self.word) self.word ≡ true)
            (λ n. (nudge.nudge_setpoint_bad (factor sf) l (nudge.nudge_pair self.word) self.word ≡ false) × (n ≡ nudge.nudged_limit l self.word)) }
    {
        let i = 2 * self.pair();
        let mut setpoints = l.setpoints;
        let pair = Pair {
            on: setpoints[i],
            off: setpoints[i + 1],
        };
        if !used_pair(pair) {
            return None;
        }
        let on = self.setpoint(sf, ON, pair.on)?;
        let off = self.setpoint(sf, OFF, pair.off)?;
        if result_bad(sf, Switch::from(l.action), Pair { on, off }) {
            return None;
        }
        setpoints[i] = on;
        setpoints[i + 1] = off;
        Some(Limit { setpoints, ..l })
    }

    // The programming with that switch.
    #[tactic(auto, unfolding(rules::specs::Nudge::nudged_programming, rules::specs::LimitWords::with_limits))]
    fn programming(self, p: Programming) -> Option<Programming>
        ensures { MatchOption result
            (nudge.nudge_setpoint_bad (scale_factor p.setup) (switches.limit_of p (nudge.nudge_output self.word)) (nudge.nudge_pair self.word) self.word ≡ true)
            (λ q. (nudge.nudge_setpoint_bad (scale_factor p.setup) (switches.limit_of p (nudge.nudge_output self.word)) (nudge.nudge_pair self.word) self.word ≡ false) × (q ≡ nudge.nudged_programming p self.word)) }
    {
        let mut limits = p.limits;
        let i = self.output();
        limits[i] = self.limit(ScaleFactor::from(p.setup), limits[i])?;
        Some(Programming { limits, ..p })
    }

    // An acting nudge: bit 14, then 5, 9 and 10.
    #[tactic(auto, unfolding(rules::specs::Nudge::nudge_acts))]
    fn acts(self, g: Configuration) -> Decision
        ensures { result ≡ nudge.nudge_acts self.word g }
    {
        let p = g.programming;
        if self.has(CLEAR) {
            return accepted_cycle(p, g);
        }
        if stands(g.errors) {
            return ignored_cycle(g);
        }
        if self.output_bad(p) {
            return refused_cycle(Refusal::NudgeOutput, g);
        }
        match self.programming(p) {
            Some(nudged) => accepted_cycle(nudged, g),
            None => refused_cycle(Refusal::NudgeSetpoint, g),
        }
    }
}

// The nudge cycle.
#[tactic(auto, unfolding(rules::specs::Card::nudge_call, rules::specs::Nudge::nudge_cycle, rules::specs::Cycle::cycle))]
pub fn nudge_cycle(m: Module, w: u16) -> CycleResult
    ensures { result ≡ card.nudge_call m w }
{
    let g = m.configuration;
    let nudge = Nudge { word: w };
    let decision = if acts(Cycle::NudgeCycle, w, g) {
        nudge.acts(underway(Cycle::NudgeCycle, nudge.has(CLEAR), g))
    } else {
        idle_cycle(Cycle::NudgeCycle, w, g)
    };
    finished(decision, m.state.since, m.state)
}
