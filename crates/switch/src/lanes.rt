// The eight pairs of a normal switch side by side, a lane each. No lane overflows where the scale factor is under 32768 and all counts are below it.

ghost use Rattle.std.specs.Prelude.{ℕ, Bool, ◌≡◌, ◌+◌, ◌*◌, ◌&&◌, get_or, leb};
ghost use Rattle.std.specs.Int.RustNames.{count_ones};
ghost use Rattle.rules.specs.Words.{table, packed, each_of, count_up_to};
ghost use Rattle.rules.specs.Counts.{used_pair};
ghost use Rattle.switch.specs.Parts.{lane_holds};

use std::simd::prelude::*;

// A switch's eight ON setpoints, and its eight OFF setpoints.
#[derive(Clone, Copy)]
pub struct Sides {
    pub on: u16x8,
    pub off: u16x8,
}

pub fn sides_of(setpoints: &[u16; 16]) -> Sides
    ensures { (result.on ≡ table 8 0 (λ k. get_or setpoints.now (2 * k) 0)) × (result.off ≡ table 8 0 (λ k. get_or setpoints.now (2 * k + 1) 0)) }
{
    let first = u16x8::from_slice(&setpoints[..8]);
    let second = u16x8::from_slice(&setpoints[8..]);
    let (on, off) = first.deinterleave(second);
    Sides { on, off }
}

// The count and all setpoints are at most `top`.
pub fn in_range(on: u16x8, off: u16x8, from: u16, top: u16) -> bool
    ensures { result ≡ each_of 8 0 (λ k. leb (get_or on k 0) top && leb (get_or off k 0) top && leb from top) }
{
    let most = on.simd_max(off).simd_max(u16x8::splat(from));
    most.saturating_sub(u16x8::splat(top)).reduce_or() == 0
}

// The used pairs, pair 1 the lowest bit.
pub fn used(on: u16x8, off: u16x8) -> u64
    ensures { result ≡ packed 8 0 (λ k. used_pair (get_or on k 0) (get_or off k 0)) }
{
    (on | off).simd_ne(u16x8::splat(0)).to_bitmask()
}

// The pairs that hold if they are used.
pub fn holding(on: u16x8, off: u16x8, top: u16, from: u16, spread: u16) -> u64
    ensures { result ≡ packed 8 0 (λ k. lane_holds top from spread (get_or on k 0) (get_or off k 0)) }
{
    let none = u16x8::splat(0);
    let sf = u16x8::splat(top) + u16x8::splat(1);
    let from = u16x8::splat(from);
    let at = from - on + on.simd_le(from).select(none, sf);
    let length = off - on + on.simd_le(off).select(none, sf);
    (at + sf - length)
        .simd_lt(u16x8::splat(spread))
        .to_bitmask()
}

// The pairs of `used` up to and including the lowest of `ends`, all of them if there is none. Both are of eight pairs.
pub fn up_to_lowest(used: u64, ends: u64) -> u8
    ensures { (f stops : ℕ → Bool) → used ≡ packed 8 0 f → ends ≡ packed 8 0 stops → count_ones result ≡ count_up_to 8 0 f stops }
{
    ((ends ^ ends.wrapping_sub(1)) & used % 256) as u8
}
