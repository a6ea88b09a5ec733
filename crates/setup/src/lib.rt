// The setup words of M0: their checks, and the setup that they give.
#![tactic(auto)]

ghost use Rattle.std.specs.Prelude.{◌≡◌, ◌-◌, leb};
ghost use Rattle.rules.specs.Words.{word, bit};
ghost use Rattle.rules.specs.SetupWords as setup;

use counts::ScaleFactor;
use rules::{Detector, Programming, Scalars, Setup};
use word::Layout;

// The place of the command word.
pub const COMMAND: usize = 0;

// Bits of the command word.
const PRESET: u16 = 1;

const DIRECTION: u16 = 4;

const RESPONSE: u16 = 5;

const INTERRUPT: u16 = 8;

const INDEPENDENT: u16 = 9;

// The greatest scale factor.
const SF_MOST: u16 = 1024;

// ---- The checks

// SFErr: the scale factor is not 2 to 1024.
#[tactic(auto, unfolding(rules::specs::SetupWords::sf_bad))]
fn sf_bad(sf: u16) -> bool
    ensures { result ≡ setup.sf_bad sf }
{
    !(2..=SF_MOST).contains(&sf)
}

// What preset and offset are judged against.
#[tactic(auto, unfolding(rules::specs::SetupWords::sf_judged))]
fn sf_judged(sf: u16) -> u16
    ensures { result ≡ setup.sf_judged sf }
{
    if sf_bad(sf) { SF_MOST } else { sf }
}

// MD1Err, MD2Err: a setpoint over 32,767, or equal and not zero.
#[tactic(auto, unfolding(rules::specs::SetupWords::detector_bad))]
fn detector_bad(d: Detector) -> bool
    ensures { result ≡ setup.detector_bad d.low d.high }
{
    counts::setpoints_bad(32767, d.low, d.high)
}

// TSErr: a scalar outside its range.
#[tactic(auto, unfolding(rules::specs::SetupWords::scalars_bad))]
fn scalars_bad(multiplier: u16, divisor: u16, code: u16) -> bool
    ensures { result ≡ setup.scalars_bad multiplier divisor code }
{
    1100 < multiplier || !(1..=63).contains(&divisor) || 3 < code
}

// A reserved bit of the command word, or a nonzero reserved word. What the three cycles share is in `word`; the places are this one's own.
#[tactic(auto, unfolding(rules::specs::SetupWords::setup_reserved))]
fn setup_reserved(file: &[u16]) -> bool
    ensures { result ≡ setup.setup_reserved file.now }
{
    word::other_bit(word::word_at(file, COMMAND), Layout::SetupCommand)
        || word::any_word(file, 12, 19)
}

// The detector with its setpoints at these places: words 4 and 5, and 6 and 7.
fn detector(file: &[u16], low: usize, high: usize) -> Detector
    ensures { (result.low ≡ word file.now low) × (result.high ≡ word file.now high) }
{
    Detector {
        low: word::word_at(file, low),
        high: word::word_at(file, high),
    }
}

// The scale factor fails its check.
fn sf_fails(file: &[u16]) -> bool
    ensures { result ≡ setup.sf_bad (word file.now 1) }
{
    sf_bad(word::word_at(file, 1))
}

// The word at a place is not below the scale factor.
fn too_great(file: &[u16], at: usize) -> bool
    ensures { result ≡ leb (setup.sf_judged (word file.now 1)) (word file.now at) }
{
    sf_judged(word::word_at(file, 1)) <= word::word_at(file, at)
}

// The scalars fail their check.
fn scalars_fail(file: &[u16]) -> bool
    ensures { result ≡ setup.scalars_bad (word file.now 8) (word file.now 9) (word file.now 10) }
{
    scalars_bad(
        word::word_at(file, 8),
        word::word_at(file, 9),
        word::word_at(file, 10),
    )
}

// Word 100: all failing bits.
#[tactic(auto, unfolding(rules::specs::SetupWords::setup_errors))]
pub fn setup_errors(file: &[u16]) -> u16
    ensures { result ≡ setup.setup_errors file.now }
{
    let failing = word::bits(
        sf_fails(file),
        too_great(file, 2),
        too_great(file, 3),
        detector_bad(detector(file, 4, 5)),
        detector_bad(detector(file, 6, 7)),
        scalars_fail(file),
    );
    if setup_reserved(file) {
        failing + word::RESERVED_STATUS
    } else {
        failing
    }
}

// ---- The setup

// The offset at which Machine Position is the preset where the raw is `raw`.
#[tactic(auto, using(crate::proofs::Laws::preset_zero, crate::proofs::Laws::preset_natural))]
fn preset_offset(sf: u16, reversed: bool, preset: u16, raw: u16) -> u16
    ensures { result ≡ setup.preset_offset sf reversed preset raw }
{
    if sf == 0 {
        return preset;
    }
    let scale = ScaleFactor { top: sf - 1 };
    let n = scale.whole();
    let p = motion::scaled_position(scale, motion::turned(reversed, raw));
    scale.reduced((preset as u32 + (n - p % n)) as u64)
}

// A bit of the command word.
fn flag(file: &[u16], n: u16) -> bool
    ensures { result ≡ bit (word file.now 0) n }
{
    word::bit(word::word_at(file, COMMAND), n)
}

// The offset in force: the words', or with the Preset bit the one that gives the preset.
#[tactic(auto, unfolding(rules::specs::SetupWords::setup_of))]
fn offset_of(file: &[u16], raw: u16) -> u16
    ensures { result ≡ (setup.setup_of file.now raw).offset }
{
    if flag(file, PRESET) {
        preset_offset(
            word::word_at(file, 1),
            flag(file, DIRECTION),
            word::word_at(file, 2),
            raw,
        )
    } else {
        word::word_at(file, 3)
    }
}

// The word at a place, less one.
fn less_one(file: &[u16], at: usize) -> u16
    ensures { result ≡ word file.now at - 1 }
{
    word::word_at(file, at).saturating_sub(1)
}

// The scalars of the words 8 to 10.
#[tactic(auto, unfolding(rules::specs::SetupWords::setup_of))]
fn scalars_of(file: &[u16]) -> Scalars
    ensures { result ≡ (setup.setup_of file.now 0).scalars }
{
    Scalars {
        multiplier: word::word_at(file, 8),
        divider: less_one(file, 9),
        code: word::word_at(file, 10),
    }
}

// The setup that a file's words give, where the last raw is `raw`. Not a `From`: it is made of both.
#[tactic(auto, unfolding(rules::specs::SetupWords::setup_of))]
pub fn setup_of(file: &[u16], raw: u16) -> Setup
    ensures { result ≡ setup.setup_of file.now raw }
{
    Setup {
        top: less_one(file, 1),
        preset: word::word_at(file, 2),
        offset: offset_of(file, raw),
        reversed: flag(file, DIRECTION),
        fast: flag(file, RESPONSE),
        interrupt: flag(file, INTERRUPT),
        independent: flag(file, INDEPENDENT),
        md1: detector(file, 4, 5),
        md2: detector(file, 6, 7),
        scalars: scalars_of(file),
        states: word::word_at(file, 11),
    }
}

// ---- The programming that it brings

// A changed scale factor or mode drops group and limit programs.
#[tactic(auto, using(crate::proofs::Laws::xor_differs), unfolding(rules::specs::SetupWords::with_setup))]
pub fn with_setup(p: Programming, u: Setup) -> Programming
    ensures { result ≡ setup.with_setup p u }
{
    if p.setup.top != u.top || p.setup.independent != u.independent {
        Programming::none(u)
    } else {
        Programming { setup: u, ..p }
    }
}
