// The rack bus: the input table as bytes, the interrupt request with its mask, and the line.
#![tactic(auto)]

ghost use Rattle.std.specs.Prelude.{◌≡◌, cond, ◌/◌, ◌%◌, eqb};
ghost use Rattle.rules.specs.Bus as bus;
ghost use Rattle.rules.specs.Card as card;

use rules::{Bus, Configuration, CycleResult, Kept, Module, Outcome, Refusal, Shown};

// The bytes of the request and of the mask; those below are the input table's.
const REQUEST: u16 = 16;

const MASK: u16 = 17;

// ---- The input table

// Word 0: the status bits. Three short functions take these two arguments; a struct of them would be no plainer.
#[tactic(auto, unfolding(rules::specs::Bus::status_bits))]
fn status_bits(g: Configuration, x: Shown) -> u16
    ensures { result ≡ bus.status_bits g x }
{
    let e = g.errors;
    let a = g.acknowledges;
    let low = word::bits(e.setup, e.group, e.limit, e.number, e.setpoint, g.ignored);
    let middle = word::bits(false, g.fault, x.md1, x.md2, x.overflow, false);
    let high = word::bits(a.nudge, a.setup, a.group, a.limit, false, false);
    low + 64 * (middle + 64 * high)
}

#[tactic(auto, unfolding(rules::specs::Bus::input_table))]
fn input_table(g: Configuration, x: Shown) -> [u16; 8]
    ensures { result ≡ bus.input_table g x }
{
    [
        status_bits(g, x),
        x.position.0,
        x.tach,
        x.real,
        x.virtuals,
        x.inputs,
        0,
        0,
    ]
}

// The low byte of a word at an even place, the high one at an odd: by remainder and quotient, as the definition says it, and not by `to_le_bytes`.
fn byte_of(w: u16, n: u16) -> u8
    ensures { result ≡ cond (eqb (n % 2) 0) (w % 256) (w / 256) }
{
    if n % 2 == 0 {
        return (w % 256) as u8;
    }
    (w / 256) as u8
}

#[tactic(auto, using(crate::proofs::Laws::byte_of_words), unfolding(rules::specs::Bus::table_byte))]
fn table_byte(g: Configuration, x: Shown, n: u16) -> u8
    ensures { result ≡ bus.table_byte g x n }
{
    let table = input_table(g, x);
    byte_of(word::word_at(&table, (n / 2) as usize), n)
}

// ---- Reads

// The byte at an offset of at most 17.
#[tactic(auto, unfolding(rules::specs::Bus::byte_at))]
fn byte_at(g: Configuration, x: Kept, n: u16) -> u8
    ensures { result ≡ bus.byte_at g x n }
{
    if n < REQUEST {
        table_byte(g, x.shown, n)
    } else if n == REQUEST {
        u8::from(x.bus.request)
    } else {
        u8::from(x.bus.mask)
    }
}

#[tactic(auto, unfolding(rules::specs::Bus::byte_read, rules::specs::Card::read_call))]
pub fn read_byte(m: Module, offset: u16) -> Result<u8, Refusal>
    ensures { result ≡ card.read_call m offset }
{
    if MASK < offset {
        return Err(Refusal::ByteOffset);
    }
    Ok(byte_at(m.configuration, m.state.kept, offset))
}

// ---- Writes

// The request and the mask after a write to their bytes: a 1 drops the request, and the mask is the bit written.
#[tactic(auto, unfolding(rules::specs::Bus::stored))]
fn stored(b: Bus, n: u16, value: u8) -> Bus
    ensures { result ≡ bus.stored b n value }
{
    let one = word::bit(u16::from(value), 0);
    if n == REQUEST {
        Bus {
            request: b.request & !one,
            ..b
        }
    } else {
        Bus { mask: one, ..b }
    }
}

// A byte written: 13 for an offset over 17, first; 14 for one of the input table. Offset and value come as the exported call has them.
#[tactic(auto, unfolding(rules::specs::Bus::bus_write))]
pub fn written(b: Bus, offset: u16, value: u8) -> Result<Bus, Refusal>
    ensures { result ≡ bus.bus_write b offset value }
{
    if MASK < offset {
        Err(Refusal::ByteOffset)
    } else if offset < REQUEST {
        Err(Refusal::ReadOnlyByte)
    } else {
        Ok(stored(b, offset, value))
    }
}

#[tactic(auto, unfolding(rules::specs::Card::write_call))]
pub fn write_byte(m: Module, offset: u16, value: u8) -> CycleResult
    ensures { result ≡ card.write_call m offset value }
{
    let before = m.state.kept.bus;
    let (after, outcome) = match written(before, offset, value) {
        Ok(after) => (after, Outcome::Accepted),
        Err(why) => (before, Outcome::Refused(why)),
    };
    let mut card = m;
    card.state.kept.bus = after;
    CycleResult { card, outcome }
}

// ---- The line

// The line is up while a request stands and the mask is set.
#[tactic(auto, unfolding(rules::specs::Bus::line_of))]
pub fn line_of(b: Bus) -> bool
    ensures { result ≡ bus.line_of b }
{
    b.request & b.mask
}

#[tactic(auto, unfolding(rules::specs::Card::line_level))]
pub fn line(m: Module) -> bool
    ensures { result ≡ card.line_level m }
{
    line_of(m.state.kept.bus)
}
