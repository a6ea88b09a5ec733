// The 32 outputs in a step, before the forces.

ghost use Rattle.std.specs.Prelude.{◌≡◌, ◌≤◌, false, cond, sum, ltb, get_or};
ghost use Rattle.std.specs.Int.RustNames.{count_ones};
ghost use Rattle.rules.specs.Words as words;
ghost use Rattle.rules.specs.Variants.{anded_of};
ghost use Rattle.rules.specs.Groups as groups;
ghost use Rattle.rules.specs.Switches as switches;
ghost use Rattle.rules.specs.Card as card;
ghost use Rattle.engine.specs.Reading.{counts_read, position_read, rule_reading, timed_reading, tests_reading};

use counts::ScaleFactor;
use rules::{
    Conditions, GroupPosition, IoType, Limit, MachinePosition, Model, Position, Programming,
    Switch, TimedState,
};
use switch::{Moment, Tested};

// An output before the forces, its timed switch after a step, and its pairs that were tested in it, a bit for each.
#[derive(Clone, Copy)]
struct OutputAfter {
    pub on: bool,
    pub timed: TimedState,
    pub tested: u8,
}

// The 32 outputs before the forces, bits 0 to 15 real and 16 to 31 virtual, and the pair tests of those that the module has.
#[derive(Clone, Copy)]
pub struct OutputsAfter {
    pub on: u32,
    pub tests: u16,
}

impl OutputAfter {
    // An unprogrammed output, or one that never was on.
    const OFF: OutputAfter = OutputAfter {
        on: false,
        timed: TimedState::FRESH,
        tested: 0,
    };
}

// The module has output n, from 0.
fn present(m: Model, n: u16) -> bool
    ensures { result ≡ switches.present m n }
{
    if n < 16 {
        word::bit(motion::present(m, IoType::Real), n)
    } else {
        word::bit(motion::present(m, IoType::Virtual), n - 16)
    }
}

// How many pairs were tested of eight outputs from n on, of which the module has all or none; those of missing ones do not count.
fn eight_tests(m: Model, n: u16, tested: &[u8; 8]) -> u16
    ensures tests { result ≡ cond (switches.present m n) (sum (words.table 8 0 (λ k. count_ones (get_or tested.now k 0)))) 0 }
    ensures few { result ≤ 64 }
{
    if present(m, n) {
        u64::from_le_bytes(*tested).count_ones() as u16
    } else {
        0
    }
}

// The pair tests of the outputs that the module has.
fn pair_tests(m: Model, tested: &[u8; 32]) -> u16
    ensures { result ≡ sum (words.table 32 0 (λ k. cond (switches.present m k) (count_ones (get_or tested.now k 0)) 0)) }
{
    let (eights, _) = tested.as_chunks::<8>();
    let real = eight_tests(m, 0, &eights[0]) + eight_tests(m, 8, &eights[1]);
    real + eight_tests(m, 16, &eights[2]) + eight_tests(m, 24, &eights[3])
}

// The counts that outputs read, by the number of their group, of which 0 is none: Group Positions, or in Independent Mode Machine Position for all.
#[tactic(auto, unfolding(crate::specs::Reading::counts_read, rules::specs::Words::table, rules::specs::Switches::switch_position))]
fn counts_read(w: Conditions, positions: &[GroupPosition; 6]) -> [u16; 7]
    ensures { result ≡ counts_read w positions.now }
{
    if w.independent {
        return [w.machine.0; 7];
    }
    let [p1, p2, p3, p4, p5, p6] = *positions;
    [0, p1.0, p2.0, p3.0, p4.0, p5.0, p6.0]
}

// The position that an output's switch reads. A number over 6 is no group: it is as the module stores it, for C.
#[tactic(auto, unfolding(crate::specs::Reading::position_read))]
fn position_read(w: Conditions, counts: &[u16; 7], owner: u16) -> Position
    ensures { result ≡ position_read w counts.now owner }
{
    let count = counts.get(owner as usize).copied().unwrap_or(counts[0]);
    if w.independent {
        Position::OfMachine(MachinePosition(count))
    } else {
        Position::OfGroup(GroupPosition(count))
    }
}

// The group with the number `owner`, from 1, is open; 0 or over 6 is no group.
fn group_open(isopen: &[bool; 6], owner: u16) -> bool
    ensures { result ≡ groups.of_group false isopen.now owner }
{
    if owner == 0 {
        return false;
    }
    isopen.get(owner as usize - 1).copied().unwrap_or(false)
}

// The motion detector that an output is ANDed with: bit 0 stands for neither. Tested one after the other they would be a jump for each output.
#[tactic(auto, using(crate::proofs::OutputLaws::detector_bit))]
fn detector_holds(w: Conditions, detector: u16) -> bool
    ensures { result ≡ switches.detector_holds (anded_of detector) w }
{
    word::bit(1 + 2 * w.md1 as u16 + 4 * w.md2 as u16, detector)
}

// Output n, from 0, in a step: its program, the position that it reads and the number of its group. Under 16 it is real, as 01
// numbers them and says each rule by the half. Openness is looked at only where the switch holds.
#[derive(Clone, Copy)]
struct Output<'a> {
    pub limit: &'a Limit,
    pub position: Position,
    pub isopen: &'a [bool; 6],
    pub owner: u16,
    pub n: u16,
}

impl Output<'_> {
    // The group lets the output on; in Independent Mode a real output's own real input does.
    #[tactic(auto, unfolding(rules::specs::Switches::admitted))]
    fn admitted(&self, w: Conditions) -> bool
        ensures { result ≡ switches.admitted w (groups.of_group false self.now.isopen.now self.now.owner) self.now.n }
    {
        if w.independent {
            16 <= self.n || word::bit(w.real, self.n)
        } else {
            group_open(self.isopen, self.owner)
        }
    }

    // What LS Enable has to say; in Independent Mode nothing.
    #[tactic(auto, unfolding(rules::specs::Switches::enable_holds))]
    fn enabled(&self, w: Conditions) -> bool
        ensures { result ≡ switches.enable_holds w self.now.limit.now.enable self.now.n }
    {
        let inputs = if self.n < 16 { w.real } else { w.virtuals };
        w.independent || !self.limit.enable || word::bit(inputs, 6)
    }

    // The group is open, and what is ANDed holds.
    #[tactic(auto, unfolding(rules::specs::Switches::passes))]
    fn passes(&self, w: Conditions) -> bool
        ensures { result ≡ switches.passes w self.now.limit.now (groups.of_group false self.now.isopen.now self.now.owner) self.now.n }
    {
        self.admitted(w) && self.enabled(w) && detector_holds(w, self.limit.detector)
    }

    // The output before the forces, its switch being of that type, and its pair tests: whatever else lets it on, its pairs are tested, that of a timed switch
    // once for its state and for the output.
    #[tactic(auto, using(crate::proofs::OutputLaws::timed_on, crate::proofs::OutputLaws::timed_tested, crate::proofs::OutputLaws::untimed_on, crate::proofs::OutputLaws::untimed_rests))]
    fn after(&self, s: Switch, w: Conditions, x: TimedState) -> OutputAfter
        ensures { (result.on ≡ rule_reading w self.now.limit.now s self.now.position (groups.of_group false self.now.isopen.now self.now.owner) (ltb 0 (timed_reading w self.now.limit.now s self.now.position x).left) self.now.n) × (result.timed ≡ timed_reading w self.now.limit.now s self.now.position x) × (count_ones result.tested ≡ tests_reading w self.now.limit.now s self.now.position) }
    {
        let moment = Moment {
            sf: ScaleFactor::from(w),
            c: w.c,
            position: self.position,
        };
        let Tested { holds, tested } = moment.switch_tested(s, self.limit);
        match s {
            Switch::Timed(_) => {
                let timed = switch::timed_after(s, holds, x);
                OutputAfter {
                    on: 0 < timed.left && self.passes(w),
                    timed,
                    tested,
                }
            }
            Switch::Unprogrammed | Switch::Normal | Switch::Pulse(_, _) => OutputAfter {
                on: holds && self.passes(w),
                timed: TimedState::FRESH,
                tested,
            },
        }
    }
}

// The 32 outputs before the forces, from the highest down. Of an unprogrammed one nothing is worked out. Its program, owner and timed switch are in three
// arrays, as the module's C layout has them.
pub fn outputs_after(
    m: Model,
    p: &Programming,
    w: Conditions,
    positions: &[GroupPosition; 6],
    isopen: [bool; 6],
    timed: &mut [TimedState; 32],
) -> OutputsAfter
    ensures { (result.on ≡ words.packed 32 0 (switches.rule_at p.now w positions.now isopen (λ k. ltb 0 (card.timed_of p.now w positions.now timed.old k).left))) × (timed.new ≡ words.table 32 0 (card.timed_of p.now w positions.now timed.old)) × (result.tests ≡ sum (words.table 32 0 (switches.tests_at m p.now w positions.now))) }
{
    let counts = counts_read(w, positions);
    let mut on = 0;
    let mut tested = [0; 32];
    for n in (0..32).rev() {
        let limit = &p.limits[n];
        let a = match Switch::from(limit.action) {
            Switch::Unprogrammed => OutputAfter::OFF,
            s => {
                let owner = p.owners[n];
                let output = Output {
                    limit,
                    position: position_read(w, &counts, owner),
                    isopen: &isopen,
                    owner,
                    n: n as u16,
                };
                output.after(s, w, timed[n])
            }
        };
        timed[n] = a.timed;
        tested[n] = a.tested;
        on = on * 2 + a.on as u32;
    }
    OutputsAfter {
        on,
        tests: pair_tests(m, &tested),
    }
}
