// One group's step in its six modes.
#![tactic(auto)]

ghost use Rattle.std.specs.Prelude.{◌≡◌, true, false, cond, not, ◌&&◌, ◌||◌, ◌+◌};
ghost use Rattle.rules.specs.Groups as groups;
ghost use Rattle.rules.specs.Variants.{group_mode};
ghost use Rattle.rules.specs.Card as card;
ghost use Rattle.counts.specs.Factor.{factor};
ghost use Rattle.group.specs.Step as steps;

use counts::ScaleFactor;
use rules::{Event, Group, GroupPosition, GroupState, MachinePosition, Mode, Pair};

// A group's position, and whether its dwell holds there.
#[derive(Clone, Copy)]
struct Place {
    pub position: GroupPosition,
    pub holds: bool,
}

// What a step of a group leaves beside its state: the Group Position, and whether the group is open.
#[derive(Clone, Copy)]
pub struct GroupLeft {
    pub position: GroupPosition,
    pub isopen: bool,
}

// From Machine Position to Group Position, by the group's offset or by the shift.
#[tactic(auto, unfolding(rules::specs::Groups::group_position))]
pub fn group_position(sf: ScaleFactor, by: u16, m: MachinePosition) -> GroupPosition
    ensures { result ≡ groups.group_position (factor sf) by m }
{
    GroupPosition(sf.sum(m.0, by))
}

// The shift by which the position becomes the preset.
#[tactic(auto, unfolding(rules::specs::Groups::preset_shift))]
pub fn preset_shift(sf: ScaleFactor, preset: u16, m: MachinePosition) -> u16
    ensures { result ≡ groups.preset_shift (factor sf) preset m }
{
    sf.ahead(m.0, preset)
}

// The dwell holds at a Group Position.
#[tactic(auto, unfolding(rules::specs::Groups::dwell_holds))]
pub fn dwell_holds(sf: ScaleFactor, d: Pair, p: GroupPosition) -> bool
    ensures { result ≡ groups.dwell_holds (factor sf) d p }
{
    sf.holds(d, p.0)
}

// An edge is inactive to active.
fn edge(before: bool, now: bool) -> bool
    ensures { result ≡ groups.edge before now }
{
    now & !before
}

// A stop: an update of 0 tenths.
#[tactic(auto, unfolding(rules::specs::Groups::stops, rules::specs::Motion::is_stop))]
fn stops(e: Event) -> bool
    ensures { result ≡ groups.stops e }
{
    e.update & (e.tenths == 0)
}

// What makes a step in the dwell a qualifying one: input active, the tenths not 0.
#[tactic(auto, unfolding(rules::specs::Groups::running))]
fn running(e: Event) -> bool
    ensures { result ≡ groups.running e }
{
    e.level & (e.tenths != 0)
}

// Where a group with this dwell is, the Machine Position taken on by the offset or the shift.
#[tactic(auto, unfolding(crate::specs::Step::place_at))]
fn place_at(sf: ScaleFactor, dwell: Pair, by: u16, m: MachinePosition) -> Place
    ensures { result ≡ steps.place_at (factor sf) dwell by m }
{
    let position = group_position(sf, by, m);
    Place {
        position,
        holds: dwell_holds(sf, dwell, position),
    }
}

// A dwell's beginning, which closes and forgets.
fn begin(x: &mut GroupState, holds: bool)
    ensures { x.new ≡ steps.begun (holds && not x.old.held) x.old }
{
    if holds && !x.held {
        x.begun = true;
        x.qualified = false;
        x.opened = false;
    }
}

// What is kept of a step at its end; in the dwell a running one qualifies.
fn keep(x: &mut GroupState, e: Event, holds: bool)
    ensures { x.new ≡ steps.kept e holds x.old }
{
    if holds && running(e) {
        x.qualified = true;
    }
    x.level = e.level;
    x.first = e.first;
    x.held = holds;
}

// Modes 0, 3, 4 and 5: Machine Position plus the offset. Openness is left as a dwell's beginning leaves it.
fn offset_step(sf: ScaleFactor, g: &Group, x: &mut GroupState, e: Event) -> GroupPosition
    ensures { (x.new ≡ steps.dwelt e (steps.offset_place (factor sf) g.now e) x.old) × (result ≡ (steps.offset_place (factor sf) g.now e).position) }
{
    let p = place_at(sf, g.dwell, g.offset, e.machine);
    begin(x, p.holds);
    keep(x, e, p.holds);
    p.position
}

// The place at the step's end: a taken edge sets the position to the preset, and the dwell is judged anew. An edge is taken if none was since group start, or a dwell has begun
// since the last taken one.
fn end_place(sf: ScaleFactor, g: &Group, x: &mut GroupState, e: Event, start: Place) -> Place
    ensures { (x.new ≡ cond (steps.takes e x.old) (steps.preset_by (groups.preset_shift (factor sf) g.now.offset e.machine) x.old) x.old) × (result ≡ cond (steps.takes e x.old) (steps.place_at (factor sf) g.now.dwell (groups.preset_shift (factor sf) g.now.offset e.machine) e.machine) start) }
{
    if edge(x.level, e.level) && (!x.taken || x.begun) {
        x.shift = preset_shift(sf, g.offset, e.machine);
        x.taken = true;
        x.begun = false;
        x.opened = true;
        return place_at(sf, g.dwell, x.shift, e.machine);
    }
    start
}

// Modes 1 and 2: Machine Position plus a shift, which a taken edge presets. A dwell's beginning closes, then a taken edge opens. In line, since a call would store the whole event.
#[tactic(auto, unfolding(crate::specs::Step::shifted, crate::specs::Step::entered, crate::specs::Step::end_place))]
#[inline(always)]
fn shift_step(sf: ScaleFactor, g: &Group, x: &mut GroupState, e: Event) -> GroupPosition
    ensures { (x.new ≡ steps.shifted (factor sf) g.now x.old e) × (result ≡ (steps.end_place (factor sf) g.now x.old e).position) }
{
    let start = place_at(sf, g.dwell, x.shift, e.machine);
    begin(x, start.holds);
    let end = end_place(sf, g, x, e, start);
    keep(x, e, end.holds);
    end.position
}

// Modes 0 and 3, and no mode, keep no openness: such a group is open as the step finds it.
fn plain_step(sf: ScaleFactor, g: &Group, x: &mut GroupState, e: Event, isopen: bool) -> GroupLeft
    ensures { (x.new ≡ steps.opened_as false (steps.dwelt e (steps.offset_place (factor sf) g.now e) x.old)) × (result.position ≡ (steps.offset_place (factor sf) g.now e).position) × (result.isopen ≡ isopen) }
{
    let position = offset_step(sf, g, x, e);
    x.opened = false;
    GroupLeft { position, isopen }
}

// Mode 1 is always open, and keeps no openness.
fn step_1(sf: ScaleFactor, g: &Group, x: &mut GroupState, e: Event) -> GroupLeft
    ensures { (x.new ≡ steps.opened_as false (steps.shifted (factor sf) g.now x.old e)) × (result.position ≡ (steps.end_place (factor sf) g.now x.old e).position) × (result.isopen ≡ true) }
{
    let position = shift_step(sf, g, x, e);
    x.opened = false;
    GroupLeft {
        position,
        isopen: true,
    }
}

// Mode 2: opened by a taken edge, closed by a dwell's beginning.
fn step_2(sf: ScaleFactor, g: &Group, x: &mut GroupState, e: Event) -> GroupLeft
    ensures { (x.new ≡ steps.shifted (factor sf) g.now x.old e) × (result.position ≡ (steps.end_place (factor sf) g.now x.old e).position) × (result.isopen ≡ (steps.shifted (factor sf) g.now x.old e).opened) }
{
    let position = shift_step(sf, g, x, e);
    GroupLeft {
        position,
        isopen: x.opened,
    }
}

// Mode 4: a dwell's beginning closes, then an edge in the dwell opens.
fn step_4(sf: ScaleFactor, g: &Group, x: &mut GroupState, e: Event) -> GroupLeft
    ensures { (x.new ≡ steps.opened_4 (groups.edge x.old.level e.level) (steps.dwelt e (steps.offset_place (factor sf) g.now e) x.old)) × (result.position ≡ (steps.offset_place (factor sf) g.now e).position) × (result.isopen ≡ x.new.opened) }
{
    let edge = edge(x.level, e.level);
    let position = offset_step(sf, g, x, e);
    x.opened = x.held & edge | x.opened;
    GroupLeft {
        position,
        isopen: x.opened,
    }
}

// Mode 5: a dwell's beginning closes, a qualifying step opens, a stop closes, then an edge of the First Cycle Input opens if a qualifying step came since the dwell began.
fn step_5(sf: ScaleFactor, g: &Group, x: &mut GroupState, e: Event) -> GroupLeft
    ensures { (x.new ≡ steps.opened_5 e (groups.edge x.old.first e.first) (steps.dwelt e (steps.offset_place (factor sf) g.now e) x.old)) × (result.position ≡ (steps.offset_place (factor sf) g.now e).position) × (result.isopen ≡ x.new.opened) }
{
    let edge = edge(x.first, e.first);
    let position = offset_step(sf, g, x, e);
    let qualifying = x.held & running(e);
    let counted = edge & x.qualified;
    x.opened = counted | !stops(e) & (qualifying | x.opened);
    GroupLeft {
        position,
        isopen: x.opened,
    }
}

// A group's step, on its state where it stands: each mode stores what it changes, and works out its own openness alone.
#[tactic(auto, unfolding(rules::specs::Groups::is_open, rules::specs::Groups::presets, crate::specs::Step::place_at, crate::specs::Step::entered, crate::specs::Step::end_place, crate::specs::Step::shifted, rules::specs::Card::begins_now, rules::specs::Card::position_by, rules::specs::Card::takes_now, rules::specs::Card::shift_now, rules::specs::Card::held_now, rules::specs::Card::position_now, rules::specs::Card::qualified_now, rules::specs::Card::opened_now, rules::specs::Card::group_after))]
pub fn step(sf: ScaleFactor, g: &Group, x: &mut GroupState, e: Event) -> GroupLeft
    ensures { (x.new ≡ card.group_after (factor sf) g.now x.old e) × (result.position ≡ card.position_now (factor sf) g.now x.old e) × (result.isopen ≡ groups.is_open (group_mode g.now) e.level (card.group_after (factor sf) g.now x.old e).opened) }
{
    match Mode::from(g.mode) {
        Mode::NoMode => plain_step(sf, g, x, e, false),
        Mode::Mode0 => plain_step(sf, g, x, e, true),
        Mode::Mode1 => step_1(sf, g, x, e),
        Mode::Mode2 => step_2(sf, g, x, e),
        Mode::Mode3 => plain_step(sf, g, x, e, e.level),
        Mode::Mode4 => step_4(sf, g, x, e),
        Mode::Mode5 => step_5(sf, g, x, e),
    }
}
