ghost use Rattle.std.specs.Prelude.{◌≡◌, ◌%◌, ◌^◌, ◌<◌, from_bits, to_bits};
ghost use Rattle.std.specs.Float.{binary32};
ghost use Rattle.formulas.specs.Words.{size_bits, zero_of};
ghost use Rattle.formulas.specs.Radians.{infinite};

use std::num::f32_to_bits_with_nan;

// The word of infinity. Every finite word without its sign is below it.
pub const INFINITE: u32 = 0x7f80_0000;

// The word of the NaN.
pub(crate) const NAN: u32 = 0x7fc0_0000;

// The weight of the sign.
pub(crate) const SIGN: u32 = 0x8000_0000;

// -2^-25.
pub(crate) const MINUS_TINY: f64 = f64::from_bits(0xbe60000000000000);

// pi.
pub(crate) const PI: f64 = f64::from_bits(0x400921fb54442d18);

// The word without its sign.
pub fn size_bits(x: f32) -> u32
    ensures { result ≡ size_bits x }
{
    f32_to_bits_with_nan(x) & 0x7fff_ffff
}

// The float of a finite word, as an f64.
// Kept by hand: f32_from_bits_with_nan, for any word, takes three instructions more, 2 to 5 in a hundred of a call;
// and so does f64::from in place of `as`.
#[tactic(auto, using(crate::proofs::Wording::clean))]
pub(crate) fn widened(word: u32) -> f64
    requires { word % 2 ^ 31 < infinite }
    ensures { result ≡ from_bits binary32 word }
{
    f32::from_bits(word) as f64
}

// The word of a zero with the sign of a finite word.
#[tactic(auto, using(crate::proofs::Wording::zero_word))]
pub(crate) fn zero_like(word: u32) -> u32
    requires { word % 2 ^ 31 < infinite }
    ensures { result ≡ to_bits binary32 (zero_of (from_bits binary32 word)) }
{
    word - word % SIGN
}
