// The six groups in a step.

ghost use Rattle.std.specs.Prelude.{◌≡◌, cond};
ghost use Rattle.rules.specs.Groups as groups;
ghost use Rattle.rules.specs.Card as card;

use counts::ScaleFactor;
use group::GroupLeft;
use rules::{Conditions, Event, Group, GroupPosition, GroupState, IoType};

// What group n, from 0, meets in a step. Number and conditions stay two arguments: in `motion::level` the number is an input's.
#[tactic(auto, unfolding(rules::specs::Groups::group_event))]
fn event(w: Conditions, g: Group, n: u16) -> Event
    ensures { result ≡ groups.group_event w g n }
{
    Event {
        machine: w.machine,
        level: motion::level(w, IoType::from(g.isvirtual), n),
        first: motion::level(w, IoType::from(g.firstvirtual), 7),
        tenths: w.tenths,
        update: w.update,
    }
}

// The position that a step leaves, 0 for a group unused then.
fn left_position(used: bool, p: GroupPosition) -> GroupPosition
    ensures { result ≡ cond used p groups.no_position }
{
    if used { p } else { GroupPosition(0) }
}

// A group's step on its state, and what it leaves beside it.
#[tactic(auto, unfolding(rules::specs::Card::group_now, rules::specs::Card::left_position, rules::specs::Card::open_now))]
fn group_after(w: Conditions, g: &Group, x: &mut GroupState, n: u16) -> GroupLeft
    ensures { (x.new ≡ card.group_now w g.now x.old n) × (result.position ≡ card.left_position w g.now x.old n) × (result.isopen ≡ card.open_now w g.now x.old n) }
{
    let e = event(w, *g, n);
    let left = group::step(ScaleFactor::from(w), g, x, e);
    GroupLeft {
        position: left_position(g.used, left.position),
        isopen: left.isopen,
    }
}

// The six groups in a step, and which of them are open after it. Each array by itself, as the module has them.
pub fn groups_after(
    w: Conditions,
    gs: &[Group; 6],
    states: &mut [GroupState; 6],
    positions: &mut [GroupPosition; 6],
) -> [bool; 6]
    ensures { (states.new ≡ card.groups_now w gs.now states.old) × (positions.new ≡ card.positions_now w gs.now states.old) × (result ≡ card.openness_now w gs.now states.old) }
{
    let mut isopen = [false; 6];
    for n in 0..6 {
        let a = group_after(w, &gs[n], &mut states[n], n as u16);
        positions[n] = a.position;
        isopen[n] = a.isopen;
    }
    isopen
}
