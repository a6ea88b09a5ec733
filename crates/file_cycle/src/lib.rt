// The programming cycle that takes a file, one for its three kinds: what each kind has of its own is a match on the kind. The kinds are closed, and the
// definitions match on them too; closures would hide which one acts.
#![tactic(auto)]

ghost use Rattle.std.specs.Prelude.{◌≡◌, cond, eqb, [], ◌∷◌, ◌++◌, map, replicate, length};
ghost use Rattle.rules.specs.declared.GroupPosition.{GroupPosition};
ghost use Rattle.rules.specs.Words.{stored_at};
ghost use Rattle.rules.specs.Cycle as cycle;
ghost use Rattle.rules.specs.FileCycle as rule;
ghost use Rattle.rules.specs.Card as card;

use counts::ScaleFactor;
use cycle::{acts, finished, idle_cycle, judged, stands, turned_away, underway};
use rules::{
    Configuration, Cycle, CycleResult, Decision, FileCycle, GroupPosition, GroupState, Model,
    Module, Programming, Refusal, SinceStart, TimedState,
};
use word::Failing;

// ClrErr, a bit of the command word.
const CLEAR: u16 = 0;

// The first status word of an ignored cycle.
const IGNORED_STATUS: u16 = 0x4000;

// How many status words a setup or group cycle has, and a limit cycle.
pub const M0_STATUS: usize = 10;

pub const M1_STATUS: usize = 20;

// ---- What each kind has of its own

// The length of its file.
#[tactic(auto, unfolding(rules::specs::FileCycle::file_length))]
pub fn file_length(kind: FileCycle) -> usize
    ensures { result ≡ rule.file_length kind }
{
    match kind {
        FileCycle::SetupCycle | FileCycle::GroupCycle => Module::M0_WORDS,
        FileCycle::LimitCycle => Module::M1_WORDS,
    }
}

// The refusal of another length.
#[tactic(auto, unfolding(rules::specs::FileCycle::length_refusal))]
fn length_refusal(kind: FileCycle) -> Refusal
    ensures { result ≡ rule.length_refusal kind }
{
    match kind {
        FileCycle::SetupCycle | FileCycle::GroupCycle => Refusal::M0Length,
        FileCycle::LimitCycle => Refusal::M1Length,
    }
}

// The place of the command word.
#[tactic(auto, unfolding(rules::specs::FileCycle::command_at))]
pub fn command_at(kind: FileCycle) -> usize
    ensures { result ≡ rule.command_at kind }
{
    match kind {
        FileCycle::SetupCycle => setup::COMMAND,
        FileCycle::GroupCycle => groups::COMMAND,
        FileCycle::LimitCycle => limits::COMMAND,
    }
}

// The place of the first status word.
#[tactic(auto, unfolding(rules::specs::FileCycle::status_at))]
pub fn status_at(kind: FileCycle) -> usize
    ensures { result ≡ rule.status_at kind }
{
    match kind {
        FileCycle::SetupCycle => 100,
        FileCycle::GroupCycle => 110,
        FileCycle::LimitCycle => 630,
    }
}

// The refusal of bad data.
#[tactic(auto, unfolding(rules::specs::FileCycle::data_refusal))]
fn data_refusal(kind: FileCycle) -> Refusal
    ensures { result ≡ rule.data_refusal kind }
{
    match kind {
        FileCycle::SetupCycle => Refusal::SetupData,
        FileCycle::GroupCycle => Refusal::GroupData,
        FileCycle::LimitCycle => Refusal::LimitData,
    }
}

// Refusal 5: an error stands, or a group cycle in Independent Mode.
#[tactic(auto, unfolding(rules::specs::FileCycle::barred))]
fn barred(kind: FileCycle, g: Configuration) -> bool
    ensures { result ≡ rule.barred kind g }
{
    match kind {
        FileCycle::SetupCycle | FileCycle::LimitCycle => stands(g.errors),
        FileCycle::GroupCycle => stands(g.errors) || g.programming.setup.independent,
    }
}

// What the check finds: its word, 0 where the file passes, and the failing group or output that it is of.
#[tactic(auto, unfolding(rules::specs::FileCycle::file_errors, rules::specs::FileCycle::failing))]
fn check(kind: FileCycle, g: Configuration, file: &[u16]) -> Failing
    ensures errors { result.errors ≡ rule.file_errors kind g file.now }
    ensures number { result.number ≡ rule.failing kind g file.now }
{
    let p = g.programming;
    match kind {
        FileCycle::SetupCycle => Failing {
            errors: setup::setup_errors(file),
            number: 0,
        },
        FileCycle::GroupCycle => groups::failing(
            Model::from(g.model),
            ScaleFactor::from(p.setup),
            file,
        ),
        FileCycle::LimitCycle => limits::failing(Model::from(g.model), p, file),
    }
}

// The programming that acceptance brings.
#[tactic(auto, unfolding(rules::specs::FileCycle::brought))]
fn brought(kind: FileCycle, g: Configuration, file: &[u16]) -> Programming
    ensures { result ≡ rule.brought kind g file.now }
{
    let p = g.programming;
    match kind {
        FileCycle::SetupCycle => setup::with_setup(p, setup::setup_of(file, g.raw)),
        FileCycle::GroupCycle => groups::with_groups(p, group_block::groups_of(file)),
        FileCycle::LimitCycle => limits::with_limits(
            p,
            limits::limits_from(Model::from(g.model), file),
        ),
    }
}

// A group start. A function of its own, as the next: as arms of `start_of` they take 4,000 instructions a cycle and 5,700 bytes of stack more.
#[tactic(auto, unfolding(rules::specs::Card::group_start))]
fn group_start(x: SinceStart) -> SinceStart
    ensures { result ≡ card.group_start x }
{
    SinceStart {
        groups: [GroupState::FRESH; 6],
        timed: [TimedState::FRESH; 32],
        ..x
    }
}

// An accepted limit cycle is a start for the timed switches.
#[tactic(auto, unfolding(rules::specs::Card::limit_start))]
fn limit_start(x: SinceStart) -> SinceStart
    ensures { result ≡ card.limit_start x }
{
    SinceStart {
        timed: [TimedState::FRESH; 32],
        ..x
    }
}

// The start that an accepted cycle is.
#[tactic(auto, unfolding(rules::specs::Card::start_of))]
fn start_of(kind: FileCycle, x: SinceStart) -> SinceStart
    ensures { result ≡ card.start_of kind x }
{
    match kind {
        FileCycle::SetupCycle => SinceStart::fresh(),
        FileCycle::GroupCycle => group_start(x),
        FileCycle::LimitCycle => limit_start(x),
    }
}

// ---- The status words

// What the first two show of the check: bit 14 alone where the cycle was ignored.
fn shown(ignored: bool, found: Failing) -> Failing
    ensures errors { result.errors ≡ cycle.status_word ignored found.errors }
    ensures number { result.number ≡ cond ignored 0 found.number }
{
    if ignored {
        Failing {
            errors: IGNORED_STATUS,
            number: 0,
        }
    } else {
        found
    }
}

// The words 110 to 119: the Group Positions from 112 on. A pattern names the six, as two words stand before them and two after.
fn group_words(errors: u16, number: u16, positions: [GroupPosition; 6]) -> [u16; M0_STATUS]
    ensures { result ≡ errors ∷ number ∷ map (λ (p : GroupPosition). p.0) positions ++ (0 ∷ 0 ∷ []) }
{
    let [p1, p2, p3, p4, p5, p6] = positions;
    [errors, number, p1.0, p2.0, p3.0, p4.0, p5.0, p6.0, 0, 0]
}

// The status words rewritten in a file of the kind's length; word 101 is the offset in force.
#[tactic(auto, unfolding(rules::specs::FileCycle::file_length, rules::specs::FileCycle::status_at, rules::specs::FileCycle::status_words))]
fn store_status(
    kind: FileCycle,
    g: Configuration,
    found: Failing,
    positions: [GroupPosition; 6],
    file: &mut [u16],
)
    ensures { length file.old ≡ rule.file_length kind → file.new ≡ stored_at (rule.status_at kind) (rule.status_words kind g found.errors found.number positions) file.old }
{
    let at = status_at(kind);
    let Failing { errors, number } = shown(g.ignored, found);
    match kind {
        FileCycle::SetupCycle => {
            let offset = g.programming.setup.offset;
            let words = [errors, offset, 0, 0, 0, 0, 0, 0, 0, 0];
            word::store(file, at, &words);
        }
        FileCycle::GroupCycle => {
            let words = group_words(errors, number, positions);
            word::store(file, at, &words);
        }
        FileCycle::LimitCycle => {
            let mut words = [0; M1_STATUS];
            words[0] = errors;
            words[1] = number;
            word::store(file, at, &words);
        }
    }
}

// ---- The cycle

// The command word.
fn command(kind: FileCycle, file: &[u16]) -> u16
    ensures { result ≡ rule.command kind file.now }
{
    word::word_at(file, command_at(kind))
}

// What the data give, where the check found `errors`, the status word, 0 of a file that passes: the programming that they bring, or their refusal.
fn data(
    kind: FileCycle,
    errors: u16,
    g: Configuration,
    file: &[u16],
) -> Result<Programming, Refusal>
    ensures { result ≡ cond (eqb errors 0) (Ok (rule.brought kind g file.now)) (Err (rule.data_refusal kind)) }
{
    if errors == 0 {
        Ok(brought(kind, g, file))
    } else {
        Err(data_refusal(kind))
    }
}

// What an acting cycle does to a configuration, where its check found `errors`. Kind, configuration and file are no struct: `underway` makes another
// configuration, and the file is lent to be written.
#[tactic(auto, using(rules::proofs::Cycles::errors_underway), unfolding(rules::specs::FileCycle::file_acts))]
fn file_acts(kind: FileCycle, clear: bool, errors: u16, g: Configuration, file: &[u16]) -> Decision
    ensures { errors ≡ rule.file_errors kind g file.now → result ≡ rule.file_acts kind file.now (cycle.underway (Cycle.OfFile kind) clear g) }
{
    let o = underway(Cycle::OfFile(kind), clear, g);
    judged(barred(kind, o), data(kind, errors, o, file), o)
}

// The acting cycle, on a file of the kind's length.
fn act(kind: FileCycle, clear: bool, m: Module, file: &mut [u16]) -> CycleResult
    ensures { length file.old ≡ rule.file_length kind →
        (let d = rule.file_acts kind file.old (cycle.underway (Cycle.OfFile kind) clear m.configuration) in
        let errors = rule.file_errors kind m.configuration file.old in
        let number = rule.failing kind m.configuration file.old in
        (result ≡ card.finished d (card.start_of kind m.state.since) m.state)
        × (file.new ≡ stored_at (rule.status_at kind) (rule.status_words kind d.configuration errors number m.state.since.positions) file.old)) }
{
    let g = m.configuration;
    let found = check(kind, g, file);
    let d = file_acts(kind, clear, found.errors, g, file);
    store_status(kind, d.configuration, found, m.state.since.positions, file);
    finished(d, start_of(kind, m.state.since), m.state)
}

// The cycle.
#[tactic(auto, unfolding(rules::specs::Card::file_call, rules::specs::Card::file_left, rules::specs::Cycle::cycle, rules::specs::Cycle::idle_cycle, rules::specs::Cycle::turned_away, rules::specs::FileCycle::file_after, rules::specs::FileCycle::file_cycle))]
pub fn file_cycle(kind: FileCycle, m: Module, file: &mut [u16]) -> CycleResult
    ensures { (result ≡ card.file_call kind m file.old) × (file.new ≡ card.file_left kind m file.old) }
{
    let g = m.configuration;
    if file.len() != file_length(kind) {
        return finished(turned_away(length_refusal(kind), g), m.state.since, m.state);
    }
    let w = command(kind, file);
    if acts(Cycle::OfFile(kind), w, g) {
        act(kind, word::bit(w, CLEAR), m, file)
    } else {
        finished(
            idle_cycle(Cycle::OfFile(kind), w, g),
            m.state.since,
            m.state,
        )
    }
}
