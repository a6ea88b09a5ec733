// The step: Machine Position and speed, the active inputs, the six groups, the 32 outputs with their forces, and what the card answers and keeps.
#![tactic(auto)]

mod answer;
mod conditions;
mod groups;
mod kept;
mod outputs;

ghost use Rattle.std.specs.Prelude.{◌≡◌, not, ◌&&◌, leb};
ghost use Rattle.rules.specs.Calls as calls;
ghost use Rattle.rules.specs.Card as card;
ghost use Rattle.engine.specs.Parts.{with_timed, stepped, sound_change, fault_change, Steps};

use crate::answer::{answer_of, output_words};
use crate::conditions::{conditions_of, fault_conditions, speed_now};
use crate::groups::groups_after;
use crate::kept::kept_after;
use crate::outputs::outputs_after;
use rules::{
    Answer, Configuration, GroupPosition, GroupState, Kept, Model, Module, Sample, Speed, State,
    StepResult, TimedState,
};

// What a step changes of the module beside its timed switches, and what it answers. These are renewed where they lie: copied in and out with the rest they
// cost a hundred instructions a step.
#[derive(Clone, Copy)]
struct Change {
    pub speed: Speed,
    pub groups: [GroupState; 6],
    pub positions: [GroupPosition; 6],
    pub kept: Kept,
    pub raw: u16,
    pub fault: bool,
    pub answer: Answer,
}

// A step that is not answered 11: the groups first, since an output reads their new positions.
#[tactic(auto, using(crate::proofs::Words::words_packed), unfolding(crate::specs::Parts::ruled_outputs, crate::specs::Parts::ruled_tests, crate::specs::Parts::sound_answer, crate::specs::Parts::sound_change, rules::specs::Card::conditions_now, rules::specs::Card::since_after, rules::specs::Card::rule_now, rules::specs::Switches::pair_tests, rules::specs::Motion::conditions))]
fn sound_step(g: &Configuration, x: State, timed: &mut [TimedState; 32], s: Sample) -> Change
    ensures { stepped result timed.new ≡ sound_change g.now (with_timed x timed.old) s }
{
    let p = &g.programming;
    let u = p.setup;
    let model = Model::from(g.model);
    let speed = speed_now(u, x.since.speed, s);
    let w = conditions_of(g, s, x.since.speed, speed);
    let mut groups = x.since.groups;
    let mut positions = x.since.positions;
    let isopen = groups_after(w, &p.groups, &mut groups, &mut positions);
    let o = outputs_after(model, p, w, &positions, isopen, timed);
    let both = output_words(model, s, o.on);
    let answer = answer_of(u, false, w, x.kept.shown.virtuals, both, o.tests);
    let kept = kept_after(x.kept, answer, w.real);
    Change {
        speed,
        groups,
        positions,
        kept,
        raw: s.raw,
        fault: g.fault,
        answer,
    }
}

// A step that is answered 11: it latches the fault, and is a module start.
#[tactic(auto, using(crate::proofs::Words::words_none), unfolding(crate::specs::Parts::dark_outputs, crate::specs::Parts::fault_answer, crate::specs::Parts::fault_change, rules::specs::Card::module_start, rules::specs::Motion::fault_conditions, rules::specs::Switches::answer_of))]
fn fault_step(g: &Configuration, x: State, timed: &mut [TimedState; 32], s: Sample) -> Change
    ensures { stepped result timed.new ≡ fault_change g.now (with_timed x timed.old) s }
{
    let before = x.kept;
    let w = fault_conditions(g, s, before.shown.position);
    let forced = output_words(Model::from(g.model), s, 0);
    let u = g.programming.setup;
    let answer = answer_of(u, true, w, before.shown.virtuals, forced, 0);
    let kept = kept_after(before, answer, w.real);
    *timed = [TimedState::FRESH; 32];
    Change {
        speed: Speed::FRESH,
        groups: [GroupState::FRESH; 6],
        positions: [GroupPosition(0); 6],
        kept,
        raw: g.raw,
        fault: true,
        answer,
    }
}

// A step that is not answered 11.
fn sound(fault: bool, raw: u16) -> bool
    ensures { result ≡ (leb raw calls.raw_most && not fault) }
{
    raw <= Module::RAW_MOST && !fault
}

// What a step changes.
fn change_of(g: &Configuration, x: State, timed: &mut [TimedState; 32], s: Sample) -> Change
    ensures { Steps g.now (with_timed x timed.old) s (stepped result timed.new) }
{
    if sound(g.fault, s.raw) {
        return sound_step(g, x, timed, s);
    }
    fault_step(g, x, timed, s)
}

// One step of the card.
#[tactic(auto, unfolding(rules::specs::Card::step_call))]
pub fn step(m: Module, s: Sample) -> StepResult
    ensures { result ≡ card.step_call m s }
{
    let mut card = m;
    let answer = step_in_place(&mut card, s);
    StepResult { card, answer }
}

// The same on the module where it sits: the parts that a step changes go in by value and are put back, the rest is only read.
#[tactic(auto, unfolding(rules::specs::Card::step_call))]
pub fn step_in_place(m: &mut Module, s: Sample) -> Answer
    ensures { (m.new ≡ (card.step_call m.old s).card) × (result ≡ (card.step_call m.old s).answer) }
{
    let c = change_of(&m.configuration, m.state, &mut m.state.since.timed, s);
    let groups = c.groups;
    let positions = c.positions;
    m.state.since.speed = c.speed;
    m.state.since.groups = groups;
    m.state.since.positions = positions;
    m.state.kept = c.kept;
    m.configuration.raw = c.raw;
    m.configuration.fault = c.fault;
    c.answer
}
