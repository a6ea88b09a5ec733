// The card's types: its programming, its state, what a step takes and what the calls answer. What the module stores is plain numbers, so that a host
// lends it as it stands; `variants` reads them as cases. Every value of every type is harmless: no call has a `requires`. The rules over them are in
// specs/; the only code here is that, the numbers of refusals, and power-up. The structs of repr(C) are as card/include/chimneyrye.h declares them:
// numbers for kinds and for none, a flag beside its value, arrays side by side. An enum or an Option has no layout that C can declare.
#![tactic(auto)]

mod numbers;
mod power_up;
mod variants;

ghost use Rattle.std.specs.Prelude.{◌≡◌};
ghost use Rattle.rules.specs.SetupWords.{no_programs};
ghost use Rattle.rules.specs.Card.{module_start};

// Machine Position, in counts of a turn.
#[repr(C)]
#[derive(Clone, Copy, Debug, PartialEq, Eq)]
pub struct MachinePosition(pub u16);

// Group Position, in counts of a turn. A type of its own: 01 names two positions, and neither may stand for the other.
#[repr(C)]
#[derive(Clone, Copy, Debug, PartialEq, Eq)]
pub struct GroupPosition(pub u16);

// The position that a switch reads: Group Position in Group Mode, Machine Position in Independent Mode.
#[derive(Clone, Copy, Debug, PartialEq, Eq)]
pub enum Position {
    OfMachine(MachinePosition),
    OfGroup(GroupPosition),
}

// The module: an 8511 has no real inputs and outputs, an 8512 eight, an 8513 sixteen; all have sixteen virtual ones. NoModule, which any other number
// reads as, has none of either.
#[derive(Clone, Copy, Debug, PartialEq, Eq)]
pub enum Model {
    NoModule,
    M8511,
    M8512,
    M8513,
}

// The type of an input or output.
#[derive(Clone, Copy, Debug, PartialEq, Eq)]
pub enum IoType {
    Real,
    Virtual,
}

// The tachometer's decimal code.
#[derive(Clone, Copy, Debug, PartialEq, Eq)]
pub enum DecimalCode {
    Code0,
    Code1,
    Code2,
    Code3,
}

// A group's operating mode. NoMode, which any other number reads as, is never open.
#[derive(Clone, Copy, Debug, PartialEq, Eq)]
pub enum Mode {
    NoMode,
    Mode0,
    Mode1,
    Mode2,
    Mode3,
    Mode4,
    Mode5,
}

// A motion detector's setpoints, in rpm.
#[repr(C)]
#[derive(Clone, Copy)]
pub struct Detector {
    pub low: u16,
    pub high: u16,
}

// The tachometer's scalars; `divider` is the divisor less one, so that no value divides by 0. `code` is the decimal code, 0 to 3.
#[repr(C)]
#[derive(Clone, Copy)]
pub struct Scalars {
    pub multiplier: u16,
    pub divider: u16,
    pub code: u16,
}

// The setup in force. `top` is the scale factor less one; `reversed` is CDir, `fast` TResp, `interrupt` SLCINT, `independent` MType.
#[repr(C)]
#[derive(Clone, Copy)]
pub struct Setup {
    pub top: u16,
    pub preset: u16,
    pub offset: u16,
    pub reversed: bool,
    pub fast: bool,
    pub interrupt: bool,
    pub independent: bool,
    pub md1: Detector,
    pub md2: Detector,
    pub scalars: Scalars,
    pub states: u16,
}

// An ON and an OFF setpoint.
#[repr(C)]
#[derive(Clone, Copy)]
pub struct Pair {
    pub on: u16,
    pub off: u16,
}

// A group's program: `isvirtual` is GPTyp, `firstvirtual` FCITyp, `mode` the mode's number, `dwell` the Group Channel, `offset` the Group Offset / Preset.
#[repr(C)]
#[derive(Clone, Copy)]
pub struct Group {
    pub used: bool,
    pub isvirtual: bool,
    pub firstvirtual: bool,
    pub mode: u16,
    pub quantity: u16,
    pub dwell: Pair,
    pub offset: u16,
}

// The type of a limit switch: Pulse with the quantity Q and the ON count K, Timed with the duration T.
#[derive(Clone, Copy, Debug, PartialEq, Eq)]
pub enum Switch {
    Unprogrammed,
    Normal,
    Pulse(u16, u16),
    Timed(u16),
}

// The type of a limit switch as it is stored: `kind` 1 normal, 2 pulse with the quantity Q and the ON count K, 3 timed with the duration T; any other
// is unprogrammed.
#[repr(C)]
#[derive(Clone, Copy)]
pub struct Action {
    pub kind: u16,
    pub quantity: u16,
    pub count: u16,
    pub duration: u16,
}

// The motion detector that an output is ANDed with. Never, which a number over 2 reads as, never holds.
#[derive(Clone, Copy, Debug, PartialEq, Eq)]
pub enum Anded {
    Never,
    Neither,
    First,
    Second,
}

// A signed advance in tenths of a millisecond, as a sign and a magnitude.
#[repr(C)]
#[derive(Clone, Copy)]
pub struct Advance {
    pub negative: bool,
    pub tenths: u16,
}

// A limit switch's program: `enable` is ANDing with LS Enable, `detector` the number of the motion detector, 0 for neither; setpoints are ON 1, OFF 1,
// ON 2, OFF 2 and so on, sixteen numbers and no pairs, as the header declares them.
#[repr(C)]
#[derive(Clone, Copy)]
pub struct Limit {
    pub action: Action,
    pub enable: bool,
    pub detector: u16,
    pub onadvance: Advance,
    pub offadvance: Advance,
    pub setpoints: [u16; 16],
}

// The programming in force. `owners` has for each of the 32 outputs the number of the group that it was dealt to; 0 or over 6 is none.
#[repr(C)]
#[derive(Clone, Copy)]
pub struct Programming {
    pub setup: Setup,
    pub groups: [Group; 6],
    pub owners: [u16; 32],
    pub limits: [Limit; 32],
}

// SUErr, GPErr, LSErr, I/DNum and I/DSet.
#[repr(C)]
#[derive(Clone, Copy)]
pub struct Errors {
    pub setup: bool,
    pub group: bool,
    pub limit: bool,
    pub number: bool,
    pub setpoint: bool,
}

#[repr(C)]
#[derive(Clone, Copy)]
pub struct Acknowledges {
    pub setup: bool,
    pub group: bool,
    pub limit: bool,
    pub nudge: bool,
}

// What the calls' arguments alone decide. `model` is the module's number, `ignored` MsgIgn; `raw` is that of the last step since power-up that was
// not answered 11.
#[repr(C)]
#[derive(Clone, Copy)]
pub struct Configuration {
    pub model: u16,
    pub programming: Programming,
    pub errors: Errors,
    pub acknowledges: Acknowledges,
    pub ignored: bool,
    pub fault: bool,
    pub raw: u16,
}

// q of the previous step since the module start, where there was one.
#[repr(C)]
#[derive(Clone, Copy)]
pub struct Last {
    pub stepped: bool,
    pub at: u16,
}

// A window of movements: the steps since its last update, and the sum of their movements, 512 added to each.
#[repr(C)]
#[derive(Clone, Copy)]
pub struct Window {
    pub steps: u16,
    pub sum: u32,
}

// The speed: the windows of c and of C, c with the 512 of each of its 120 steps added, and tenths of an rpm.
#[repr(C)]
#[derive(Clone, Copy)]
pub struct Speed {
    pub last: Last,
    pub short: Window,
    pub long: Window,
    pub c: u32,
    pub tenths: u32,
}

// A group since its start: its inputs' levels at the last step, whether the dwell held at its end, the shift of Modes 1 and 2, whether an edge was
// taken, whether a dwell has begun since the last taken one, whether a qualifying step came since the dwell began, and openness in Modes 2, 4 and 5.
#[repr(C)]
#[derive(Clone, Copy)]
pub struct GroupState {
    pub level: bool,
    pub first: bool,
    pub held: bool,
    pub shift: u16,
    pub taken: bool,
    pub begun: bool,
    pub qualified: bool,
    pub opened: bool,
}

// A timed switch: whether its pair held at the last step, and for how many steps from there, that one included, it is on if it goes on holding.
#[repr(C)]
#[derive(Clone, Copy)]
pub struct TimedState {
    pub held: bool,
    pub left: u32,
}

// What a start resets: a module start all of it. `positions` are the Group Positions that the last step left.
#[repr(C)]
#[derive(Clone, Copy)]
pub struct SinceStart {
    pub speed: Speed,
    pub groups: [GroupState; 6],
    pub positions: [GroupPosition; 6],
    pub timed: [TimedState; 32],
}

// What the last step showed: the words of its answer that the input table has, the active real inputs after the forces, and three bits. Its position is
// the Machine Position of the last step not answered 11, since one answered 11 shows that again.
#[repr(C)]
#[derive(Clone, Copy)]
pub struct Shown {
    pub position: MachinePosition,
    pub tach: u16,
    pub real: u16,
    pub virtuals: u16,
    pub inputs: u16,
    pub overflow: bool,
    pub md1: bool,
    pub md2: bool,
}

// The interrupt request and its mask.
#[repr(C)]
#[derive(Clone, Copy)]
pub struct Bus {
    pub request: bool,
    pub mask: bool,
}

// What runs on since power-up.
#[repr(C)]
#[derive(Clone, Copy)]
pub struct Kept {
    pub shown: Shown,
    pub bus: Bus,
}

// What steps make.
#[repr(C)]
#[derive(Clone, Copy)]
pub struct State {
    pub since: SinceStart,
    pub kept: Kept,
}

#[repr(C)]
#[derive(Clone, Copy)]
pub struct Module {
    pub configuration: Configuration,
    pub state: State,
}

// The nine words that a step takes.
#[repr(C)]
#[derive(Clone, Copy)]
pub struct Sample {
    pub raw: u16,
    pub currents: u16,
    pub virtuals: u16,
    pub inputson: u16,
    pub inputsoff: u16,
    pub realon: u16,
    pub realoff: u16,
    pub virtualon: u16,
    pub virtualoff: u16,
}

// What the groups, the outputs and the answer read of a step: the scale factor less one and MType in force, Machine Position, the words of the active
// inputs after the forces, c as the speed holds it, tenths of an rpm, whether they were updated, and the motion detectors.
#[derive(Clone, Copy)]
pub struct Conditions {
    pub top: u16,
    pub independent: bool,
    pub machine: MachinePosition,
    pub real: u16,
    pub virtuals: u16,
    pub c: u32,
    pub tenths: u32,
    pub update: bool,
    pub md1: bool,
    pub md2: bool,
}

// What a group meets in a step: Machine Position, its input's level, its First Cycle Input's level, tenths of an rpm, and whether they were
// updated.
#[derive(Clone, Copy)]
pub struct Event {
    pub machine: MachinePosition,
    pub level: bool,
    pub first: bool,
    pub tenths: u32,
    pub update: bool,
}

// The programming cycles that take a file.
#[derive(Clone, Copy, Debug, PartialEq, Eq)]
pub enum FileCycle {
    SetupCycle,
    GroupCycle,
    LimitCycle,
}

// The programming cycles.
#[derive(Clone, Copy, Debug, PartialEq, Eq)]
pub enum Cycle {
    OfFile(FileCycle),
    NudgeCycle,
}

// Why a call is refused; `numbers` gives each its number.
#[derive(Clone, Copy, Debug, PartialEq, Eq)]
pub enum Refusal {
    M0Length,
    M1Length,
    UnknownModule,
    BlockNumber,
    Ignored,
    SetupData,
    GroupData,
    LimitData,
    NudgeOutput,
    NudgeSetpoint,
    Transducer,
    TraceFile,
    ByteOffset,
    ReadOnlyByte,
}

// Three outcomes, as 01 has them; a Result over an enum of Idle and Accepted would say the same in two types.
#[derive(Clone, Copy, Debug, PartialEq, Eq)]
pub enum Outcome {
    Idle,
    Accepted,
    Refused(Refusal),
}

// A configuration after a programming cycle, with what the cycle answers. Not one generic type with `CycleResult` and `StepResult`: the definitions
// cite the fields of each by name.
#[derive(Clone, Copy)]
pub struct Decision {
    pub configuration: Configuration,
    pub outcome: Outcome,
}

// What power-up, a programming cycle and a byte write answer, with the module after.
#[derive(Clone, Copy)]
pub struct CycleResult {
    pub card: Module,
    pub outcome: Outcome,
}

// What a step answers. `refused` is set where it was answered 11; `tests` is the number of pair tests.
#[repr(C)]
#[derive(Clone, Copy)]
pub struct Answer {
    pub refused: bool,
    pub position: MachinePosition,
    pub tenths: u32,
    pub tach: u16,
    pub overflow: bool,
    pub md1: bool,
    pub md2: bool,
    pub real: u16,
    pub virtuals: u16,
    pub changed: u16,
    pub tests: u16,
}

// The two words of outputs that a step answers.
#[derive(Clone, Copy)]
pub struct OutputWords {
    pub real: u16,
    pub virtuals: u16,
}

// A step's answer, with the module after.
#[derive(Clone, Copy)]
pub struct StepResult {
    pub card: Module,
    pub answer: Answer,
}

impl Group {
    pub const NONE: Group = Group {
        used: false,
        isvirtual: false,
        firstvirtual: false,
        mode: 0,
        quantity: 0,
        dwell: Pair { on: 0, off: 0 },
        offset: 0,
    };
}

impl GroupState {
    pub const FRESH: GroupState = GroupState {
        level: false,
        first: false,
        held: false,
        shift: 0,
        taken: false,
        begun: false,
        qualified: false,
        opened: false,
    };
}

impl TimedState {
    pub const FRESH: TimedState = TimedState {
        held: false,
        left: 0,
    };
}

impl Speed {
    // What is added to c: 512 for each of its 120 steps.
    pub const C_BIAS: u32 = 61440;

    pub const FRESH: Speed = Speed {
        last: Last {
            stepped: false,
            at: 0,
        },
        short: Window { steps: 0, sum: 0 },
        long: Window { steps: 0, sum: 0 },
        c: Speed::C_BIAS,
        tenths: 0,
    };
}

impl Action {
    pub const UNPROGRAMMED: Action = Action {
        kind: 0,
        quantity: 0,
        count: 0,
        duration: 0,
    };
}

impl Limit {
    pub const NONE: Limit = Limit {
        action: Action::UNPROGRAMMED,
        enable: false,
        detector: 0,
        onadvance: Advance {
            negative: false,
            tenths: 0,
        },
        offadvance: Advance {
            negative: false,
            tenths: 0,
        },
        setpoints: [0; 16],
    };
}

impl Errors {
    pub const NONE: Errors = Errors {
        setup: false,
        group: false,
        limit: false,
        number: false,
        setpoint: false,
    };
}

impl Acknowledges {
    pub const NONE: Acknowledges = Acknowledges {
        setup: false,
        group: false,
        limit: false,
        nudge: false,
    };
}

impl Shown {
    pub const NOTHING: Shown = Shown {
        position: MachinePosition(0),
        tach: 0,
        real: 0,
        virtuals: 0,
        inputs: 0,
        overflow: false,
        md1: false,
        md2: false,
    };
}

impl Bus {
    pub const FRESH: Bus = Bus {
        request: false,
        mask: false,
    };
}

// What a module start resets.
impl SinceStart {
    #[tactic(auto, unfolding(crate::specs::Card::module_start))]
    pub fn fresh() -> SinceStart
        ensures { result ≡ module_start }
    {
        let g = GroupState::FRESH;
        let t = TimedState::FRESH;
        SinceStart {
            speed: Speed::FRESH,
            groups: [g; 6],
            positions: [GroupPosition(0); 6],
            timed: [t; 32],
        }
    }
}

// A setup with no group and no limit program.
impl Programming {
    pub fn none(u: Setup) -> Programming
        ensures { result ≡ no_programs u }
    {
        let g = Group::NONE;
        let l = Limit::NONE;
        Programming {
            setup: u,
            groups: [g; 6],
            owners: [0; 32],
            limits: [l; 32],
        }
    }
}
