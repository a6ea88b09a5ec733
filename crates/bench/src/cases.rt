// The cards of docs/BENCH.md: what a module is programmed with, and the module so programmed.
use file_cycle::file_cycle;
use rules::{FileCycle, Model, Module};
use std::array;

// Transmit alone, as a command word.
pub const TRANSMIT: u16 = 32768;

// Case a, a full card, case b, a small one, and case x, the full card with pairs and groups for which nearly every pair is tested.
#[derive(Clone, Copy)]
pub enum Case {
    Full,
    Small,
    Worst,
}

impl Case {
    fn module_number(self) -> u16 {
        match self {
            Case::Full | Case::Worst => 8513,
            Case::Small => 8512,
        }
    }

    // The setup words 0 to 11.
    fn setup(self) -> [u16; 12] {
        match self {
            Case::Full | Case::Worst => [33057, 1000, 0, 10, 100, 20000, 1, 30000, 3, 2, 0, 0],
            Case::Small => [32801, 1024, 0, 0, 0, 0, 0, 0, 1, 1, 0, 0],
        }
    }

    // The blocks of the groups, of which the small card uses one.
    fn groups(self) -> [[u16; 4]; 6] {
        match self {
            Case::Full => [
                [32773, 0, 0, 7],
                [33029, 900, 100, 50],
                [33286, 800, 850, 0],
                [49925, 0, 0, 20],
                [50181, 100, 600, 30],
                [58630, 200, 700, 40],
            ],
            Case::Small => [[32772, 0, 0, 0], [0; 4], [0; 4], [0; 4], [0; 4], [0; 4]],
            Case::Worst => [
                [33029, 900, 100, 50],
                [33029, 900, 100, 50],
                [33030, 900, 100, 50],
                [49413, 900, 100, 50],
                [49413, 900, 100, 50],
                [49414, 900, 100, 50],
            ],
        }
    }

    // Word j of the block of output n + 1.
    fn output(self, n: u8, j: u8) -> u16 {
        match self {
            Case::Full => full_output(n, j),
            Case::Small => small_output(n, j),
            Case::Worst => worst_output(n, j),
        }
    }

    fn m0(self) -> [u16; 120] {
        let mut file = [0; 120];
        file[..12].copy_from_slice(&self.setup());
        file[20] = TRANSMIT;
        for (words, block) in file[22..46].chunks_exact_mut(4).zip(self.groups()) {
            words.copy_from_slice(&block);
        }
        file
    }

    // Word i of M1.
    fn m1_word(self, i: usize) -> u16 {
        match i {
            0 => TRANSMIT,
            2..=609 => self.output(((i - 2) / 19) as u8, ((i - 2) % 19) as u8),
            _ => 0,
        }
    }

    pub fn m1(self) -> [u16; 650] {
        array::from_fn(|i| self.m1_word(i))
    }
}

// An advance of that magnitude: negative for an odd n.
fn advance(n: u8, tenths: u16) -> u16 {
    if n % 2 == 0 {
        tenths
    } else {
        tenths.wrapping_neg()
    }
}

// Word i of the pairs of output n + 1: the ON setpoints are `spacing` counts apart, and each pair is `length` counts long.
fn pair_word(n: u8, i: u8, spacing: u8, length: u16) -> u16 {
    let on = (31 * n as u32 + spacing as u32 * (i / 2) as u32) % 1000;
    let at = if i % 2 == 0 { on } else { on + length as u32 };
    (at % 1000) as u16
}

// Word j of the block of output n + 1 of the full card.
fn full_output(n: u8, j: u8) -> u16 {
    match j {
        0 => 8192 * (n % 3) as u16,
        1 => advance(n, 10 + n as u16),
        2 => advance(n, 5 + n as u16),
        _ => pair_word(n, j - 3, 125 + 3 * (n % 4), 40 + n as u16),
    }
}

// The same of case x: the largest advances, and pairs of one count.
fn worst_output(n: u8, j: u8) -> u16 {
    match j {
        0 => 8192 * (1 + n % 2) as u16,
        1 | 2 => advance(n, 999),
        _ => pair_word(n, j - 3, 125, 1),
    }
}

// The same of the small card, of which four outputs have a program.
fn small_output(n: u8, j: u8) -> u16 {
    match (n, j) {
        (0..=3, 3) => 256 * n as u16,
        (0..=3, 4) => 256 * n as u16 + 100,
        _ => 0,
    }
}

// The module, programmed: its setup, group and limit cycles, each once.
pub fn module_of(c: Case) -> Module {
    let mut m0 = c.m0();
    let mut m1 = c.m1();
    let p = Module::power_up(Module::fresh(Model::NoModule), c.module_number());
    let q = file_cycle(FileCycle::SetupCycle, p.card, &mut m0);
    let r = file_cycle(FileCycle::GroupCycle, q.card, &mut m0);
    file_cycle(FileCycle::LimitCycle, r.card, &mut m1).card
}
