// Reads a list of calls from standard input and prints the whole answer of each: docs/REPLAY.md.
#![tactic(auto)]

mod answer;
mod frames;
mod input;
mod sections;

use crate::answer::{Shown, Words, cycle_name, show_cycle, show_step, status_words};
use crate::frames::show_frame;
use crate::input::{Bad, Opcode, next_opcode, read_file, read_sample, read_word};
use crate::sections::{SECTION_ROOM, show_section};
use columns::Layout;
use df1::Direction;
use file_cycle::file_cycle;
use reader::{BlockOf, read_block};
use rules::{FileCycle, Module, Outcome};
use std::io::{Stdin, Stdout};

// The module, where one was powered up, and what the list comes from and its answers go to. A failed write is passed over.
#[derive(Drop)]
struct Replay {
    card: Option<Module>,
    from: Stdin,
    to: Stdout,
}

impl Replay {
    // The module; the line `none` where there is none yet.
    fn module(&self) -> Option<Module> {
        if self.card.is_none() {
            let _ = println!(self.to; "none");
        }
        self.card
    }

    fn power(&mut self) -> Result<(), Bad> {
        let number = read_word(&mut self.from)?;
        let outcome = match Module::new(number) {
            Ok(card) => {
                self.card = Some(card);
                Outcome::Accepted
            }
            Err(why) => Outcome::Refused(why),
        };
        let _ = println!(self.to; "power {}", Shown(outcome));
        Ok(())
    }

    fn file(&mut self, kind: FileCycle) -> Result<(), Bad> {
        let mut room = [0; 651];
        let file = read_file(&mut self.from, &mut room)?;
        if let Some(card) = self.module() {
            let p = file_cycle(kind, card, file);
            show_cycle(&self.to, cycle_name(kind), p, status_words(kind, file));
            self.card = Some(p.card);
        }
        Ok(())
    }

    fn nudge(&mut self) -> Result<(), Bad> {
        let word = read_word(&mut self.from)?;
        if let Some(card) = self.module() {
            let p = nudge::nudge_cycle(card, word);
            show_cycle(&self.to, "nudge", p, &[]);
            self.card = Some(p.card);
        }
        Ok(())
    }

    fn step(&mut self) -> Result<(), Bad> {
        let sample = read_sample(&mut self.from)?;
        if let Some(card) = self.module() {
            let d = engine::step(card, sample);
            show_step(&self.to, d.answer, bus::line(d.card));
            self.card = Some(d.card);
        }
        Ok(())
    }

    // Whose block, by the list's number: a `From` would have to stand in `reader`, which knows of no list.
    fn block(&mut self) -> Result<(), Bad> {
        let of = match read_word(&mut self.from)? {
            0 => BlockOf::Group,
            _ => BlockOf::Output,
        };
        let number = read_word(&mut self.from)?;
        let mut room0 = [0; 651];
        let m0 = read_file(&mut self.from, &mut room0)?;
        let mut room1 = [0; 651];
        let m1 = read_file(&mut self.from, &mut room1)?;
        let mut why = 0;
        let block = Words(read_block(m0, m1, of, number, &mut why));
        let _ = println!(self.to; "block {why}{block}");
        Ok(())
    }

    fn read_byte(&mut self) -> Result<(), Bad> {
        let offset = read_word(&mut self.from)?;
        if let Some(card) = self.module() {
            let (outcome, value) = match bus::read_byte(card, offset) {
                Ok(value) => (Outcome::Accepted, value),
                Err(why) => (Outcome::Refused(why), 0),
            };
            let _ = println!(self.to; "read {} {value:02x}", Shown(outcome));
        }
        Ok(())
    }

    // Of the value only the low byte counts.
    fn write_byte(&mut self) -> Result<(), Bad> {
        let offset = read_word(&mut self.from)?;
        let value = read_word(&mut self.from)?;
        if let Some(card) = self.module() {
            let [low, _] = value.to_le_bytes();
            let p = bus::write_byte(card, offset, low);
            let up = u8::from(bus::line(p.card));
            let _ = println!(self.to; "write {} {up}", Shown(p.outcome));
            self.card = Some(p.card);
        }
        Ok(())
    }

    // A frame written or read: the buffer's size, then the bytes. Not inlined, as each call would pay for the buffer.
    #[inline(never)]
    fn frame(&mut self, direction: Direction) -> Result<(), Bad> {
        let capacity = read_word(&mut self.from)?;
        let mut room = [0; 651];
        let file = read_file(&mut self.from, &mut room)?;
        show_frame(&self.to, direction, file, capacity);
        Ok(())
    }

    // A section put by columns or by rows: the output's size, then the words. Not inlined, as each call would pay for the room.
    #[inline(never)]
    fn section(&mut self, layout: Layout) -> Result<(), Bad> {
        let size = read_word(&mut self.from)?;
        let mut room = [0; SECTION_ROOM];
        let words = read_file(&mut self.from, &mut room)?;
        show_section(&self.to, layout, words, size);
        Ok(())
    }

    fn call(&mut self, opcode: Opcode) -> Result<(), Bad> {
        match opcode {
            Opcode::Power => self.power(),
            Opcode::File(kind) => self.file(kind),
            Opcode::Nudge => self.nudge(),
            Opcode::Step => self.step(),
            Opcode::Block => self.block(),
            Opcode::ReadByte => self.read_byte(),
            Opcode::WriteByte => self.write_byte(),
            Opcode::Frame(direction) => self.frame(direction),
            Opcode::Section(layout) => self.section(layout),
        }
    }

    // The calls of the list, to its end.
    fn run(&mut self) -> Result<(), Bad> {
        for _ in 0..u64::MAX {
            let Some(opcode) = next_opcode(&mut self.from)? else {
                return Ok(());
            };
            self.call(opcode)?;
        }
        Ok(())
    }
}

fn main(rt: HostRuntime) {
    let mut replay = Replay {
        card: None,
        from: rt.stdin(),
        to: rt.stdout(),
    };
    if replay.run().is_err() {
        let _ = println!(rt; "bad");
    }
}
