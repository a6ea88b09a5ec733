// Counts of a turn: modulo the scale factor differences, sums, and a pair of setpoints.
#![tactic(auto)]

ghost use Rattle.std.specs.Prelude.{◌≡◌, ◌+◌, ◌%◌, not, ◌&&◌, ◌||◌, ltb, eqb};
ghost use Rattle.rules.specs.Counts as counts;
ghost use Rattle.counts.specs.Factor.{factor};

use rules::{Conditions, Pair, Setup};

// A scale factor, held less one as in the setup: 1 to 65,536, so that no value divides by 0.
#[derive(Clone, Copy, Debug, PartialEq, Eq)]
pub struct ScaleFactor {
    pub top: u16,
}

impl From<Setup> for ScaleFactor {
    ghost from_gives = { λ u sf. sf ≡ record { top = u.top } };

    fn from(u: Setup) -> ScaleFactor {
        ScaleFactor { top: u.top }
    }
}

impl From<Conditions> for ScaleFactor {
    ghost from_gives = { λ w sf. sf ≡ record { top = w.top } };

    fn from(w: Conditions) -> ScaleFactor {
        ScaleFactor { top: w.top }
    }
}

impl ScaleFactor {
    pub fn whole(self) -> u32
        ensures { result ≡ factor self }
    {
        self.top as u32 + 1
    }

    // How far `to` is ahead of `from`: (to − from) mod SF. In range one comparison and one subtraction, else the remainder.
    #[tactic(auto, using(rules::proofs::Laws::ahead_up, rules::proofs::Laws::ahead_round, rules::proofs::Laws::ahead_natural))]
    pub fn ahead(self, from: u16, to: u16) -> u16
        ensures { result ≡ counts.ahead (factor self) from to }
    {
        if self.top < from || self.top < to {
            let sf = self.whole();
            return ((to as u32 + (sf - from as u32 % sf)) % sf) as u16;
        }
        if from <= to {
            return to - from;
        }
        to + (self.top - from) + 1
    }

    // n mod SF; below one turn nothing is left to reduce.
    pub fn reduced(self, n: u64) -> u16
        ensures { result ≡ n % factor self }
    {
        let sf = self.whole() as u64;
        if n < sf {
            return n as u16;
        }
        (n % sf) as u16
    }

    // (a + b) mod SF. Below two turns one subtraction at most, else the remainder.
    pub fn sum(self, a: u16, b: u16) -> u16
        ensures { result ≡ (a + b) % factor self }
    {
        let n = a as u32 + b as u32;
        let top = self.top as u32;
        if n <= top {
            return n as u16;
        }
        let over = n - top - 1;
        if over <= top {
            return over as u16;
        }
        (n % (top + 1)) as u16
    }

    // A pair holds at p by the distances from its ON setpoint, whatever the three are.
    #[tactic(auto, unfolding(rules::specs::Counts::holds))]
    fn holds_ahead(self, pair: Pair, p: u16) -> bool
        ensures { result ≡ counts.holds (factor self) pair.on pair.off p }
    {
        self.ahead(pair.on, p) < self.ahead(pair.on, pair.off)
    }

    // A pair holds at p: nowhere if it is equal, and in range from ON up to OFF, through 0 where ON is the higher.
    #[tactic(auto, using(crate::proofs::Pairs::equal_pair, rules::proofs::Laws::ahead_up, rules::proofs::Laws::ahead_round), unfolding(rules::specs::Counts::holds))]
    pub fn holds(self, pair: Pair, p: u16) -> bool
        ensures { result ≡ counts.holds (factor self) pair.on pair.off p }
    {
        let Pair { on, off } = pair;
        if on == off {
            return false;
        }
        if self.top < on || self.top < off || self.top < p {
            return self.holds_ahead(pair, p);
        }
        if on < off {
            return on <= p && p < off;
        }
        on <= p || p < off
    }

    // A setpoint out of range, or an equal pair that is not 0/0.
    #[tactic(auto, unfolding(rules::specs::Counts::pair_bad))]
    pub fn pair_bad(self, pair: Pair) -> bool
        ensures { result ≡ counts.pair_bad (factor self) pair.on pair.off }
    {
        setpoints_bad(self.top, pair.on, pair.off)
    }
}

// Two setpoints of which one is over the most, or that are equal and not 0.
pub fn setpoints_bad(most: u16, a: u16, b: u16) -> bool
    ensures { result ≡ (ltb most a || ltb most b || (eqb a b && not (eqb a 0))) }
{
    most < a || most < b || a == b && a != 0
}

// 0/0 is unused.
pub fn used_pair(pair: Pair) -> bool
    ensures { result ≡ counts.used_pair pair.on pair.off }
{
    pair.on != 0 || pair.off != 0
}
