// 01's "Module and sample" and "Speed": inputs, positions, movement, c and the tenths by their windows, tachometer and motion detectors.
#![tactic(auto)]

ghost use Rattle.std.specs.Prelude.{◌≡◌, ◌+◌, ◌^◌, pos, nat_lt};
ghost use Rattle.rules.specs.Words as words;
ghost use Rattle.rules.specs.Variants as variants;
ghost use Rattle.rules.specs.Motion as motion;
ghost use Rattle.rules.specs.Card as card;
ghost use Rattle.counts.specs.Factor.{factor};

use counts::ScaleFactor;
use rules::{
    Conditions, DecimalCode, Detector, IoType, Last, MachinePosition, Model, Sample, Scalars,
    Setup, Speed, Window,
};

// c is made at every 120th step.
const SHORT_STEPS: u16 = 120;

// The inputs of a type, or the outputs of it, that a module has, a bit for each.
#[tactic(auto, unfolding(rules::specs::Words::packed, rules::specs::Variants::io_count, rules::specs::Variants::real_count, rules::specs::Variants::virtual_count))]
pub fn present(m: Model, kind: IoType) -> u16
    ensures { result ≡ words.word_of 0 (λ n. nat_lt n (variants.io_count m kind)) }
{
    match (kind, m) {
        (_, Model::NoModule) | (IoType::Real, Model::M8511) => 0,
        (IoType::Real, Model::M8512) => 0x00ff,
        (IoType::Real, Model::M8513) | (IoType::Virtual, _) => 0xffff,
    }
}

// The word of the active real inputs: a current that equals its active state, then the forces, off beats on; a missing input is inactive.
pub fn real_inputs(m: Model, u: Setup, s: Sample) -> u16
    ensures { result ≡ words.word_of 0 (motion.real_input m u s) }
{
    let active = s.currents ^ u.states ^ 0xffff;
    word::forced(present(m, IoType::Real), s.inputsoff, s.inputson, active)
}

// The level of input n of a type, from 0. A group's step has the number of a group beside the conditions.
pub fn level(w: Conditions, kind: IoType, n: u16) -> bool
    ensures { result ≡ motion.level w kind n }
{
    match kind {
        IoType::Real => word::bit(w.real, n),
        IoType::Virtual => word::bit(w.virtuals, n),
    }
}

// q: the raw position, counted the other way with CDir set.
#[tactic(auto, unfolding(rules::specs::Motion::turned))]
pub fn turned(reversed: bool, raw: u16) -> u16
    ensures { result ≡ motion.turned reversed raw }
{
    if reversed {
        return (1024 - raw % 1024) % 1024;
    }
    raw
}

// The scaled position.
#[tactic(auto, unfolding(rules::specs::Motion::scaled_position))]
pub fn scaled_position(sf: ScaleFactor, q: u16) -> u32
    ensures { result ≡ motion.scaled_position (factor sf) q }
{
    q as u32 * sf.whole() / 1024
}

// Machine Position.
#[tactic(auto, unfolding(rules::specs::Motion::machine_position))]
pub fn machine_position(u: Setup, raw: u16) -> MachinePosition
    ensures { result ≡ motion.machine_position u raw }
{
    let sf = ScaleFactor::from(u);
    let p = scaled_position(sf, turned(u.reversed, raw));
    MachinePosition(sf.reduced(p as u64 + u.offset as u64))
}

// Movement, with 512 added.
#[tactic(auto, using(rules::proofs::Laws::biased_natural), unfolding(rules::specs::Card::biased_movement))]
pub fn biased_movement(last: Last, q: u16) -> u16
    ensures { result ≡ card.biased_movement last q }
{
    if last.stepped {
        return ((q as u32 + (1024 - last.at as u32 % 1024) + 512) % 1024) as u16;
    }
    512
}

// How many steps the window of C has.
#[tactic(auto, unfolding(rules::specs::Motion::window_steps))]
pub fn window_steps(fast: bool) -> u16
    ensures { result ≡ motion.window_steps fast }
{
    if fast {
        return 600;
    }
    2520
}

// The step that comes is the window's last. The size comes beside the window: it goes with TResp, and is no part of the window's C layout.
#[tactic(auto, unfolding(rules::specs::Card::updates))]
pub fn updates(size: u16, w: Window) -> bool
    ensures { result ≡ card.updates size w }
{
    size as u32 <= w.steps as u32 + 1
}

// The window's sum with one movement more.
#[tactic(auto, unfolding(rules::specs::Card::window_sum))]
pub fn window_sum(w: Window, m: u16) -> u32
    ensures { result ≡ card.window_sum w m }
{
    w.sum.wrapping_add(m as u32)
}

// The window after a step.
#[tactic(auto, unfolding(rules::specs::Card::updates, rules::specs::Card::window_after))]
pub fn window_after(size: u16, w: Window, m: u16) -> Window
    ensures { result ≡ card.window_after size w m }
{
    if updates(size, w) {
        return Window { steps: 0, sum: 0 };
    }
    Window {
        steps: w.steps + 1,
        sum: window_sum(w, m),
    }
}

// The speed of |C| in tenths of an rpm, rounded half up once.
#[tactic(auto, unfolding(rules::specs::Motion::tenths_of, rules::specs::Words::round_half_up, rules::specs::Motion::window_time))]
pub fn tenths_of(fast: bool, counts: u32) -> u64
    ensures { result ≡ motion.tenths_of fast (pos counts) }
{
    let time: u64 = if fast { 122880 } else { 516096 };
    (1200000 * counts as u64 + time) / (2 * time)
}

// c after a step, with what its window added.
#[tactic(auto, unfolding(rules::specs::Card::c_after))]
fn c_after(x: Speed, m: u16) -> u32
    ensures { result ≡ card.c_after x m }
{
    if updates(SHORT_STEPS, x.short) {
        return window_sum(x.short, m);
    }
    x.c
}

// The tenths after a step, in 32 bits.
#[tactic(auto, using(rules::proofs::Laws::apart_is), unfolding(rules::specs::Card::tenths_after, rules::specs::Motion::tenths_of))]
fn tenths_after(fast: bool, x: Speed, m: u16) -> u32
    ensures { result ≡ card.tenths_after fast x m }
{
    let size = window_steps(fast);
    if updates(size, x.long) {
        let added = 512 * size as u32;
        let tenths = tenths_of(fast, window_sum(x.long, m).abs_diff(added));
        return (tenths % 4294967296) as u32;
    }
    x.tenths
}

// The speed after a step at q.
#[tactic(auto, unfolding(rules::specs::Card::speed_after))]
pub fn speed_after(u: Setup, x: Speed, q: u16) -> Speed
    ensures { result ≡ card.speed_after u x q }
{
    let m = biased_movement(x.last, q);
    Speed {
        last: Last {
            stepped: true,
            at: q,
        },
        short: window_after(SHORT_STEPS, x.short, m),
        long: window_after(window_steps(u.fast), x.long, m),
        c: c_after(x, m),
        tenths: tenths_after(u.fast, x, m),
    }
}

// 10^(code + 1): Tach starts from tenths.
fn power_of_ten(code: DecimalCode) -> u16
    ensures { result ≡ 10 ^ (variants.code_number code + 1) }
{
    match code {
        DecimalCode::Code0 => 10,
        DecimalCode::Code1 => 100,
        DecimalCode::Code2 => 1000,
        DecimalCode::Code3 => 10000,
    }
}

// Tach, from the tenths and rounded half up once.
#[tactic(auto, unfolding(rules::specs::Motion::tach_value, rules::specs::Words::round_half_up))]
pub fn tach_value(k: Scalars, tenths: u32) -> u64
    ensures { result ≡ motion.tach_value k tenths }
{
    let code = DecimalCode::from(k.code);
    let d = (k.divider as u64 + 1) * power_of_ten(code) as u64;
    (2 * (tenths as u64 * k.multiplier as u64) + d) / (2 * d)
}

// A motion detector: the tenths beside ten times its setpoints; 0/0 never.
#[tactic(auto, unfolding(rules::specs::Motion::detects))]
pub fn detects(d: Detector, tenths: u32) -> bool
    ensures { result ≡ motion.detects d tenths }
{
    if d.low == 0 && d.high == 0 {
        return false;
    }
    let (low, high) = (10 * d.low as u32, 10 * d.high as u32);
    if d.low <= d.high {
        low <= tenths && tenths <= high
    } else {
        low <= tenths || tenths <= high
    }
}
