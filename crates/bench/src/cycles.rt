// Programming cycles from memory, and the checksum over their outcomes.
use crate::cases::{Case, TRANSMIT};
use crate::steps::plus;
use file_cycle::file_cycle;
use rules::{FileCycle, Module, Outcome};

// ON setpoint 1 of output 1.
const SETPOINT: usize = 5;

// A limit cycle with that command word.
fn limit_cycle(command: u16, card: &mut Module, m1: &mut [u16; 650]) -> Outcome {
    m1[0] = command;
    let r = file_cycle(FileCycle::LimitCycle, *card, m1);
    *card = r.card;
    r.outcome
}

// The number of a turn.
fn number(sent: Outcome, ended: Outcome) -> u64 {
    65536 * u64::from(u16::from(sent)) + u64::from(u16::from(ended))
}

// The checksum of so many turns. A turn sends a limit program, and then clears Transmit, so that the next is a new one; so does the first call, for the
// program that the card has.
pub fn limits_sent(case: Case, card: &mut Module, turns: u32) -> u32 {
    let mut m1 = case.m1();
    let mut sum = 0;
    let _ = limit_cycle(0, card, &mut m1);
    for i in 0..turns {
        m1[SETPOINT] = 500 + (i % 400) as u16;
        let sent = limit_cycle(TRANSMIT, card, &mut m1);
        let ended = limit_cycle(0, card, &mut m1);
        sum = plus(sum, number(sent, ended));
    }
    sum
}
