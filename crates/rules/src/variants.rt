// The module's stored numbers as cases. A number that 01 does not name reads as the case that lights nothing.

ghost use Rattle.std.specs.Prelude.{◌≡◌};
ghost use Rattle.rules.specs.Variants as variants;

use crate::{Action, Anded, DecimalCode, IoType, Mode, Model, Switch};

impl From<u16> for Model {
    ghost from_gives = { λ n r. r ≡ variants.model_of n };

    #[tactic(auto, unfolding(crate::specs::Variants::model_of))]
    fn from(n: u16) -> Model {
        match n {
            8511 => Model::M8511,
            8512 => Model::M8512,
            8513 => Model::M8513,
            _ => Model::NoModule,
        }
    }
}

impl From<Model> for u16 {
    ghost from_gives = { λ m r. r ≡ variants.model_number m };

    #[tactic(auto, unfolding(crate::specs::Variants::model_number))]
    fn from(m: Model) -> u16 {
        match m {
            Model::NoModule => 0,
            Model::M8511 => 8511,
            Model::M8512 => 8512,
            Model::M8513 => 8513,
        }
    }
}

impl Model {
    // Its inputs of a type, and its outputs of the same type.
    #[tactic(auto, unfolding(crate::specs::Variants::real_count, crate::specs::Variants::virtual_count, crate::specs::Variants::io_count))]
    pub fn count(self, kind: IoType) -> u16
        ensures { result ≡ variants.io_count self kind }
    {
        match (self, kind) {
            (Model::NoModule, _) | (Model::M8511, IoType::Real) => 0,
            (Model::M8512, IoType::Real) => 8,
            (Model::M8513, IoType::Real) => 16,
            (Model::M8511 | Model::M8512 | Model::M8513, IoType::Virtual) => 16,
        }
    }
}

impl From<u16> for DecimalCode {
    ghost from_gives = { λ n r. r ≡ variants.code_of n };

    #[tactic(auto, unfolding(crate::specs::Variants::code_of))]
    fn from(n: u16) -> DecimalCode {
        match n {
            0 => DecimalCode::Code0,
            1 => DecimalCode::Code1,
            2 => DecimalCode::Code2,
            _ => DecimalCode::Code3,
        }
    }
}

// GPTyp and FCITyp: set for virtual.
impl From<bool> for IoType {
    ghost from_gives = { λ set r. r ≡ variants.io_type_of set };

    fn from(set: bool) -> IoType {
        if set { IoType::Virtual } else { IoType::Real }
    }
}

impl From<u16> for Mode {
    ghost from_gives = { λ n r. r ≡ variants.mode_of n };

    #[tactic(auto, unfolding(crate::specs::Variants::mode_of))]
    fn from(n: u16) -> Mode {
        match n {
            0 => Mode::Mode0,
            1 => Mode::Mode1,
            2 => Mode::Mode2,
            3 => Mode::Mode3,
            4 => Mode::Mode4,
            5 => Mode::Mode5,
            _ => Mode::NoMode,
        }
    }
}

impl From<Action> for Switch {
    ghost from_gives = { λ a r. r ≡ variants.switch_of a };

    #[tactic(auto, unfolding(crate::specs::Variants::switch_of))]
    fn from(a: Action) -> Switch {
        match a.kind {
            1 => Switch::Normal,
            2 => Switch::Pulse(a.quantity, a.count),
            3 => Switch::Timed(a.duration),
            _ => Switch::Unprogrammed,
        }
    }
}

impl From<Switch> for Action {
    ghost from_gives = { λ s r. r ≡ variants.action_with s };

    fn from(s: Switch) -> Action {
        let none = Action::UNPROGRAMMED;
        match s {
            Switch::Unprogrammed => none,
            Switch::Normal => Action { kind: 1, ..none },
            Switch::Pulse(quantity, count) => Action {
                kind: 2,
                quantity,
                count,
                ..none
            },
            Switch::Timed(duration) => Action {
                kind: 3,
                duration,
                ..none
            },
        }
    }
}

impl From<u16> for Anded {
    ghost from_gives = { λ n r. r ≡ variants.anded_of n };

    #[tactic(auto, unfolding(crate::specs::Variants::anded_of))]
    fn from(n: u16) -> Anded {
        match n {
            0 => Anded::Neither,
            1 => Anded::First,
            2 => Anded::Second,
            _ => Anded::Never,
        }
    }
}
