// What a step leaves that runs on since power-up: what it shows, and the interrupt request.

ghost use Rattle.std.specs.Prelude.{◌≡◌};
ghost use Rattle.rules.specs.Bus as bus;
ghost use Rattle.rules.specs.Card as card;

use rules::{Answer, Bus, Kept, Shown};

// A count that is not 0 sets the request; no step drops it or touches the mask.
#[tactic(auto, unfolding(rules::specs::Bus::requested))]
fn requested(b: Bus, count: u16) -> Bus
    ensures { result ≡ bus.requested b count }
{
    Bus {
        request: b.request | (count != 0),
        ..b
    }
}

// After a step with this answer and these active real inputs. Not a `From` of the answer, which has no inputs.
#[tactic(auto, unfolding(rules::specs::Card::kept_after, rules::specs::Bus::shown_by))]
pub fn kept_after(x: Kept, a: Answer, inputs: u16) -> Kept
    ensures { result ≡ card.kept_after x a inputs }
{
    let shown = Shown {
        position: a.position,
        tach: a.tach,
        real: a.real,
        virtuals: a.virtuals,
        inputs,
        overflow: a.overflow,
        md1: a.md1,
        md2: a.md2,
    };
    Kept {
        shown,
        bus: requested(x.bus, a.changed),
    }
}
