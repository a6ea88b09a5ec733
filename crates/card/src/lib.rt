// The card's own loop: the calls on a module that a host keeps where it sits, exported for C and Rust. include/chimneyrye.h is their header. The module
// is lent as the engine has it. A step is the engine's own; each other call is one by value on what lies there, and stores what that call gives back. C has
// no Result: a refusal is answered by its number. The exported calls' contracts cite the rules' definitions alone, so that no other need be believed; `Gives`
// is for the private functions.

#![tactic(auto)]

ghost use Rattle.std.specs.Prelude.{◌≡◌};
ghost use Rattle.rules.specs.declared.FileCycle.TheVariants.{SetupCycle, GroupCycle, LimitCycle};
ghost use Rattle.rules.specs.Cycle.{outcome_number, outcome_of};
ghost use Rattle.rules.specs.Bus.{byte_shown};
ghost use Rattle.rules.specs.Card as card;
ghost use Rattle.card.specs.Calls.{Gives};

use file_cycle::file_cycle;
use rules::{Answer, CycleResult, FileCycle, Module, Sample};

// What a byte read answers: 0 and the byte, or 13 and 0.
#[repr(C)]
#[derive(Clone, Copy)]
pub struct Byte {
    pub number: u16,
    pub value: u8,
}

// What a call by value gives back: its module is stored, its outcome's number answered.
fn give(m: &mut Module, r: CycleResult) -> u16
    ensures { Gives r m.new result }
{
    *m = r.card;
    u16::from(r.outcome)
}

// Power-up. Returns 0, or 3 for a number that is no module's, and then the module stays as it was.
#[unsafe(no_mangle)]
pub extern "C" fn chimneyrye_power_up(m: &mut Module, number: u16) -> u16
    ensures { (m.new ≡ (card.powered_up m.old number).card) × (result ≡ outcome_number (card.powered_up m.old number).outcome) }
{
    let r = Module::power_up(*m, number);
    give(m, r)
}

// A cycle that takes a file, on the lent module. C calls it by one name for each kind; each of the contracts is the whole promise, a definition for the
// module and one for the file.
fn cycle_on(kind: FileCycle, m: &mut Module, file: &mut [u16]) -> u16
    ensures given { Gives (card.file_call kind m.old file.old) m.new result }
    ensures file { file.new ≡ card.file_left kind m.old file.old }
{
    let r = file_cycle(kind, *m, file);
    give(m, r)
}

// The setup cycle, on a lent M0 file.
#[unsafe(no_mangle)]
pub extern "C" fn chimneyrye_setup(m: &mut Module, file: &mut [u16]) -> u16
    ensures given { (m.new ≡ (card.file_call SetupCycle m.old file.old).card) × (result ≡ outcome_number (card.file_call SetupCycle m.old file.old).outcome) }
    ensures file { file.new ≡ card.file_left SetupCycle m.old file.old }
{
    cycle_on(FileCycle::SetupCycle, m, file)
}

// The group cycle, on a lent M0 file.
#[unsafe(no_mangle)]
pub extern "C" fn chimneyrye_group(m: &mut Module, file: &mut [u16]) -> u16
    ensures given { (m.new ≡ (card.file_call GroupCycle m.old file.old).card) × (result ≡ outcome_number (card.file_call GroupCycle m.old file.old).outcome) }
    ensures file { file.new ≡ card.file_left GroupCycle m.old file.old }
{
    cycle_on(FileCycle::GroupCycle, m, file)
}

// The limit cycle, on a lent M1 file.
#[unsafe(no_mangle)]
pub extern "C" fn chimneyrye_limit(m: &mut Module, file: &mut [u16]) -> u16
    ensures given { (m.new ≡ (card.file_call LimitCycle m.old file.old).card) × (result ≡ outcome_number (card.file_call LimitCycle m.old file.old).outcome) }
    ensures file { file.new ≡ card.file_left LimitCycle m.old file.old }
{
    cycle_on(FileCycle::LimitCycle, m, file)
}

// The nudge cycle.
#[unsafe(no_mangle)]
pub extern "C" fn chimneyrye_nudge(m: &mut Module, word: u16) -> u16
    ensures { (m.new ≡ (card.nudge_call m.old word).card) × (result ≡ outcome_number (card.nudge_call m.old word).outcome) }
{
    let r = nudge::nudge_cycle(*m, word);
    give(m, r)
}

// One step.
#[unsafe(no_mangle)]
pub extern "C" fn chimneyrye_step(m: &mut Module, s: Sample) -> Answer
    ensures { (m.new ≡ (card.step_call m.old s).card) × (result ≡ (card.step_call m.old s).answer) }
{
    engine::step_in_place(m, s)
}

// A byte of the rack bus read.
#[unsafe(no_mangle)]
pub extern "C" fn chimneyrye_read_byte(m: &Module, offset: u16) -> Byte
    ensures { (result.number ≡ outcome_number (outcome_of (card.read_call m.now offset))) × (result.value ≡ byte_shown (card.read_call m.now offset)) }
{
    match bus::read_byte(*m, offset) {
        Ok(value) => Byte { number: 0, value },
        Err(why) => Byte {
            number: u16::from(why),
            value: 0,
        },
    }
}

// A byte of the rack bus written. Only the request and the mask are stored.
#[tactic(auto, unfolding(rules::specs::Card::write_call))]
#[unsafe(no_mangle)]
pub extern "C" fn chimneyrye_write_byte(m: &mut Module, offset: u16, value: u8) -> u16
    ensures { (m.new ≡ (card.write_call m.old offset value).card) × (result ≡ outcome_number (card.write_call m.old offset value).outcome) }
{
    match bus::written(m.state.kept.bus, offset, value) {
        Ok(after) => {
            m.state.kept.bus = after;
            0
        }
        Err(why) => u16::from(why),
    }
}

// The line's level.
#[tactic(auto, unfolding(rules::specs::Card::line_level))]
#[unsafe(no_mangle)]
pub extern "C" fn chimneyrye_line(m: &Module) -> bool
    ensures { result ≡ card.line_level m.now }
{
    bus::line_of(m.state.kept.bus)
}
