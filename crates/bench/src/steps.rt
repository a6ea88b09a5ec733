// Steps from memory: the samples, and the checksum over the answers.
ghost use Rattle.std.specs.Prelude.{◌<◌};

use rules::{Answer, Module, Sample};

// Raw position of step i: two to six counts a step, and a jump every 8192 steps.
fn raw_at(i: u32) -> u16 {
    let p = i % 8192;
    ((2 * p + p * p / 4096) % 1024) as u16
}

// The sample of step i, at a raw position of its own where one is given.
fn sample_at(i: u32, raw: Option<u16>) -> Sample {
    Sample {
        raw: raw.unwrap_or(raw_at(i)),
        currents: (i / 32 % 65536) as u16,
        virtuals: (i / 16 % 65536) as u16,
        inputson: 0,
        inputsoff: 0,
        realon: 0,
        realoff: 0,
        virtualon: 0,
        virtualoff: 0,
    }
}

// The sum with one number more.
pub fn plus(sum: u32, number: u64) -> u32 {
    ((31 * sum as u64 + number % 4294967296) % 4294967296) as u32
}

// The third number of a step: the tenths, whether it was answered 11, the three flags, and the changed-output count.
fn readings(a: Answer) -> u64 {
    let flags = 4 * u64::from(a.overflow) + 2 * u64::from(a.md1) + u64::from(a.md2);
    16 * a.tenths as u64 + 8 * u64::from(a.refused) + flags + 33554432 * a.changed as u64
}

// The sum with a step's answer.
fn plus_answer(sum: u32, a: Answer) -> u32 {
    let position = a.position;
    let first = plus(sum, position.0 as u64 + 65536 * a.tach as u64);
    let second = plus(first, a.real as u64 + 65536 * a.virtuals as u64);
    let third = plus(second, readings(a));
    plus(third, a.tests as u64)
}

// The steps to be made: the first, how many, and the raw position of all where it is given.
#[derive(Clone, Copy)]
pub struct Steps {
    pub first: u32,
    pub count: u32,
    pub raw: Option<u16>,
}

// The checksum over the answers of steps, after the numbers that are in `sum` already.
pub fn checksum(m: Module, steps: Steps, sum: u32) -> u32 {
    let Steps { first, count, raw } = steps;
    let mut card = m;
    let mut sum = sum;
    for i in 0..count {
        let sample = sample_at(first.wrapping_add(i), raw);
        sum = plus_answer(sum, engine::step_in_place(&mut card, sample));
    }
    sum
}
