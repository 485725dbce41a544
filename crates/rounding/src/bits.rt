ghost use Rattle.std.specs.Prelude.{◌≡◌, ◌%◌, ◌^◌, ◌<◌, ◌-ℤ◌, pos, to_bits};
ghost use Rattle.std.specs.Float.Ieee.{emax};
ghost use Rattle.std.specs.Float.{is_sign_negative, float_with_sign, binary32};
ghost use Rattle.rounding.specs.Round.{exponent_field};
ghost use Rattle.rounding.specs.Bits.{field_of, exponent_of, mantissa_of, whole_bits, odd_bits, last_place, is_whole, is_odd};

use crate::floats::BinaryFloat;
use std::num::f32_to_bits_with_nan;

// The exponent's field of a float whose last digit is that of 1.
const UNIT_EXPONENT: u32 = 127 + 23;

// Whether the sign is set. The NaN has none.
pub fn is_sign_negative<F: BinaryFloat>(x: F) -> bool
    ensures { result ≡ is_sign_negative (F.float x) }
{
    x.bits() >= F::SIGN
}

// Copies the sign from `y` to `x`.
pub fn copysign<F: BinaryFloat>(x: F, y: F) -> F
    ensures { F.float result ≡ float_with_sign (is_sign_negative (F.float y)) (F.float x) }
{
    let i = x.bits();
    let j = y.bits();
    F::of_bits(i % F::SIGN + (j - j % F::SIGN))
}

// The exponent's field of a pattern.
fn exponent_field<F: BinaryFloat>(bits: u64) -> u64
    ensures { result ≡ exponent_field F.format bits }
{
    bits % F::SIGN / F::LEAD
}

// The exponent of a pattern, by its field.
// Kept by hand: from u64 to i64 there is no From, so `as` it is, proved to lose nothing.
pub fn exponent_of_bits<F: BinaryFloat>(bits: u64) -> i64
    ensures { result ≡ pos (exponent_field F.format bits) -ℤ pos (emax F.format) }
{
    exponent_field::<F>(bits) as i64 - F::BIAS as i64
}

// The exponent's field.
pub fn biased_exponent<F: BinaryFloat>(x: F) -> i64
    ensures { result ≡ pos (field_of F.format (F.float x)) }
{
    exponent_field::<F>(x.bits()) as i64
}

// The exponent, by its field.
pub fn get_exponent<F: BinaryFloat>(x: F) -> i64
    ensures { result ≡ exponent_of F.format (F.float x) }
{
    exponent_of_bits::<F>(x.bits())
}

// The digits below the leading one.
pub fn mantissa<F: BinaryFloat>(x: F) -> u64
    ensures { result ≡ mantissa_of F.format (F.float x) }
{
    x.bits() % F::LEAD
}

// The exponent's field and the zeros that end the significand.
// Kept by hand: by BinaryFloat's constants, which are u64, cospif takes 1 to 2 in a hundred more.
fn last_place(x: f32) -> u32
    ensures { result ≡ last_place x }
{
    let x_u = f32_to_bits_with_nan(x);
    let x_e = x_u % 0x8000_0000 >> 23;
    let lsb = ((1 << 23) + x_u % (1 << 23)).trailing_zeros();
    x_e + lsb
}

// Whether x has no digit after the point. Zero does not count, an infinity and the NaN do.
pub fn is_integerf(x: f32) -> bool
    ensures is { result ≡ whole_bits x }
    ensures means { 0 < to_bits binary32 x % 2 ^ 31 → to_bits binary32 x % 2 ^ 31 < 2139095040 → result ≡ is_whole x }
{
    last_place(x) >= UNIT_EXPONENT
}

// Whether x is an odd whole number.
pub fn is_odd_integerf(x: f32) -> bool
    ensures is { result ≡ odd_bits x }
    ensures means { result ≡ is_odd x }
{
    last_place(x) == UNIT_EXPONENT
}
