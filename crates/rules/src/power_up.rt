// A fresh module, with 01's defaults as constants of the module type, and power-up.

ghost use Rattle.std.specs.Prelude.{◌≡◌};
ghost use Rattle.rules.specs.Calls.{default_setup};
ghost use Rattle.rules.specs.Card.{fresh_module, powered, powered_up};

use crate::{
    Acknowledges, Bus, Configuration, CycleResult, Detector, Errors, Kept, Model, Module, Outcome,
    Programming, Refusal, Scalars, Setup, Shown, SinceStart, State,
};

// The lengths of the files, the greatest raw position, a fresh module's defaults, and power-up.
impl Module {
    pub const M0_WORDS: usize = 120;

    pub const M1_WORDS: usize = 650;

    pub const RAW_MOST: u16 = 1023;

    pub const SCALE_FACTOR: u16 = 1024;

    pub const TOP: u16 = Module::SCALE_FACTOR - 1;

    pub const OFFSET: u16 = 0;

    pub const PRESET: u16 = 0;

    pub const REVERSED: bool = false;

    pub const FAST_RESPONSE: bool = false;

    pub const INTERRUPT: bool = false;

    pub const INDEPENDENT: bool = false;

    pub const DETECTOR: Detector = Detector { low: 0, high: 0 };

    pub const MULTIPLIER: u16 = 1;

    pub const DIVISOR: u16 = 1;

    pub const DIVIDER: u16 = Module::DIVISOR - 1;

    pub const CODE: u16 = 0;

    pub const ACTIVE_STATES: u16 = 0;

    // The setup of a fresh module.
    #[tactic(auto, unfolding(crate::specs::Calls::default_setup))]
    fn default_setup() -> Setup
        ensures { result ≡ default_setup }
    {
        Setup {
            top: Module::TOP,
            preset: Module::PRESET,
            offset: Module::OFFSET,
            reversed: Module::REVERSED,
            fast: Module::FAST_RESPONSE,
            interrupt: Module::INTERRUPT,
            independent: Module::INDEPENDENT,
            md1: Module::DETECTOR,
            md2: Module::DETECTOR,
            scalars: Scalars {
                multiplier: Module::MULTIPLIER,
                divider: Module::DIVIDER,
                code: Module::CODE,
            },
            states: Module::ACTIVE_STATES,
        }
    }

    // A fresh module. NoModule's is what a place holds before the first power-up.
    #[tactic(auto, unfolding(crate::specs::Card::fresh_module, crate::specs::Calls::fresh_configuration))]
    pub fn fresh(model: Model) -> Module
        ensures { result ≡ fresh_module model }
    {
        let errors = Errors {
            setup: true,
            ..Errors::NONE
        };
        Module {
            configuration: Configuration {
                model: u16::from(model),
                programming: Programming::none(Module::default_setup()),
                errors,
                acknowledges: Acknowledges::NONE,
                ignored: false,
                fault: false,
                raw: 0,
            },
            state: State {
                since: SinceStart::fresh(),
                kept: Kept {
                    shown: Shown::NOTHING,
                    bus: Bus::FRESH,
                },
            },
        }
    }

    // A fresh module of a number; 3 gives none.
    #[tactic(auto, unfolding(crate::specs::Card::powered, crate::specs::Variants::model_known, crate::specs::Variants::model_of))]
    pub fn new(number: u16) -> Result<Module, Refusal>
        ensures { result ≡ powered number }
    {
        match Model::from(number) {
            Model::NoModule => Err(Refusal::UnknownModule),
            model => Ok(Module::fresh(model)),
        }
    }

    // Power-up of the place that holds m. A number that is no module's is refused with 3, and the place stays as it was.
    #[tactic(auto, unfolding(crate::specs::Card::powered_up, crate::specs::Card::powered))]
    pub fn power_up(m: Module, number: u16) -> CycleResult
        ensures { result ≡ powered_up m number }
    {
        match Module::new(number) {
            Ok(card) => CycleResult {
                card,
                outcome: Outcome::Accepted,
            },
            Err(why) => CycleResult {
                card: m,
                outcome: Outcome::Refused(why),
            },
        }
    }
}
