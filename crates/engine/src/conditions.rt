// What a step's groups, outputs and answer read: the speed, Machine Position, the active inputs and the motion detectors.

ghost use Rattle.std.specs.Prelude.{◌≡◌};
ghost use Rattle.rules.specs.Motion as motion;
ghost use Rattle.rules.specs.Card as card;

use rules::{Conditions, Configuration, MachinePosition, Model, Sample, Setup, Speed};

// The speed after a step.
#[tactic(auto, unfolding(rules::specs::Card::speed_now))]
pub fn speed_now(u: Setup, x: Speed, s: Sample) -> Speed
    ensures { result ≡ card.speed_now u x s }
{
    motion::speed_after(u, x, motion::turned(u.reversed, s.raw))
}

// Of a step that is answered 11: the last Machine Position, no speed, the detectors off.
#[tactic(auto, unfolding(rules::specs::Motion::fault_conditions, rules::specs::Motion::real_inputs))]
pub fn fault_conditions(g: &Configuration, s: Sample, last: MachinePosition) -> Conditions
    ensures { result ≡ motion.fault_conditions g.now s last }
{
    let u = g.programming.setup;
    Conditions {
        top: u.top,
        independent: u.independent,
        machine: last,
        real: motion::real_inputs(Model::from(g.model), u, s),
        virtuals: s.virtuals,
        c: Speed::FRESH.c,
        tenths: 0,
        update: false,
        md1: false,
        md2: false,
    }
}

// Of one that is not, where the speed was `before` and is `after`: where it stands and how it moves, and the inputs as in any step.
#[tactic(auto, unfolding(rules::specs::Motion::conditions, rules::specs::Motion::fault_conditions, rules::specs::Motion::machine_at))]
pub fn conditions_of(g: &Configuration, s: Sample, before: Speed, after: Speed) -> Conditions
    ensures { result ≡ motion.conditions g.now s after.c after.tenths (card.updates (motion.window_steps g.now.programming.setup.fast) before.long) }
{
    let u = g.programming.setup;
    Conditions {
        c: after.c,
        tenths: after.tenths,
        update: motion::updates(motion::window_steps(u.fast), before.long),
        md1: motion::detects(u.md1, after.tenths),
        md2: motion::detects(u.md2, after.tenths),
        ..fault_conditions(g, s, motion::machine_position(u, s.raw))
    }
}
