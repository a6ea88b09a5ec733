// The forces on the outputs, and what a step answers.

ghost use Rattle.std.specs.Prelude.{◌≡◌, cond, ltb};
ghost use Rattle.rules.specs.Words as words;
ghost use Rattle.rules.specs.Switches as switches;

use rules::{Answer, Conditions, IoType, Model, OutputWords, Sample, Setup};

// The two words of outputs, where bit n of `rule` says whether output n is on before the forces.
pub fn output_words(m: Model, s: Sample, rule: u32) -> OutputWords
    ensures { result ≡ switches.output_words m s (words.bit rule) }
{
    OutputWords {
        real: word::forced(
            motion::present(m, IoType::Real),
            s.realoff,
            s.realon,
            (rule & 0xffff) as u16,
        ),
        virtuals: word::forced(
            motion::present(m, IoType::Virtual),
            s.virtualoff,
            s.virtualon,
            (rule / 65536) as u16,
        ),
    }
}

// Tach as it is answered, at most 32767.
fn tach_shown(value: u64) -> u16
    ensures { result ≡ cond (ltb 32767 value) 32767 value }
{
    value.min(32767) as u16
}

// With SLCINT set, how many virtual outputs changed since the previous step, else 0.
#[tactic(auto, unfolding(rules::specs::Switches::changed_count))]
fn changed_count(u: Setup, before: u16, after: u16) -> u16
    ensures { result ≡ switches.changed_count u before after }
{
    if u.interrupt {
        word::changes(before, after)
    } else {
        0
    }
}

// What a step answers; one division makes the tachometer and TachOv.
#[tactic(auto, unfolding(rules::specs::Switches::answer_of, rules::specs::Motion::tach_shown, rules::specs::Motion::tach_overflow))]
pub fn answer_of(
    u: Setup,
    refused: bool,
    w: Conditions,
    before: u16,
    o: OutputWords,
    tests: u16,
) -> Answer
    ensures { result ≡ switches.answer_of u refused w before o tests }
{
    let tach = motion::tach_value(u.scalars, w.tenths);
    Answer {
        refused,
        position: w.machine,
        tenths: w.tenths,
        tach: tach_shown(tach),
        overflow: 32767 < tach,
        md1: w.md1,
        md2: w.md2,
        real: o.real,
        virtuals: o.virtuals,
        changed: changed_count(u, before, o.virtuals),
        tests,
    }
}
