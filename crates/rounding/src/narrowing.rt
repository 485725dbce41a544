ghost use Rattle.std.specs.Prelude.{◌≡◌, ◌<◌, ◌≤◌, to_bits};
ghost use Rattle.std.specs.Float.Ieee.Nearest.{closest};
ghost use Rattle.std.specs.Float.{round_to_format, binary32, binary64};
ghost use Rattle.rounding.specs.Round.{exponent_field};
ghost use Rattle.rounding.specs.Narrowing.{narrow_bits};

use std::num::{f32_from_bits_with_nan, f32_to_bits_with_nan, nearest_f64_to_f32_with_nan};

// An f64 has 29 digits more than an f32.
const UNIT: u64 = 1 << 29;

// The bias of an f64 is larger by 896, here at the place of the exponent.
const BIAS_GAP: u64 = 896 << 52;

// n units of 2^29, to the nearest whole number, ties to even.
fn nearest_even(n: u64) -> u64
    ensures { result ≡ closest n 536870912 }
{
    let kept = n / UNIT;
    let lost = n % UNIT;
    if lost < UNIT / 2 {
        kept
    } else if lost > UNIT / 2 {
        kept + 1
    } else {
        kept + kept % 2
    }
}

// The pattern of the nearest f32, where that is a normal one or an infinity.
fn narrow_bits(i: u64) -> u32
    requires { (897 ≤ exponent_field binary64 i) × (exponent_field binary64 i ≤ 1150) }
    ensures { result ≡ narrow_bits i }
{
    let size = i % 0x8000_0000_0000_0000;
    let rest = nearest_even(size - BIAS_GAP);
    if i >= 0x8000_0000_0000_0000 {
        (0x8000_0000 + rest) as u32
    } else {
        rest as u32
    }
}

// The pattern of the f32 nearest to x, ties to even; that of a NaN is 7fc00000.
pub fn narrow_word(x: f64) -> u32
    ensures { result ≡ to_bits binary32 (round_to_format binary32 x) }
{
    if x.is_nan() {
        return 0x7fc0_0000;
    }
    let i = x.to_bits();
    let size = i % 0x8000_0000_0000_0000;
    // From 2^-126 on and below 2^128.
    if size >= 897 << 52 && size < 1151 << 52 {
        narrow_bits(i)
    } else {
        f32_to_bits_with_nan(nearest_f64_to_f32_with_nan(x))
    }
}

// The f32 nearest to x, ties to even; a NaN gives the NaN.
pub fn narrow(x: f64) -> f32
    ensures { result ≡ round_to_format binary32 x }
{
    if x.is_nan() {
        f32::NAN
    } else {
        f32::from_bits(narrow_word(x))
    }
}
