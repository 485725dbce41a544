// The types of floats: what their values are as patterns of bits, and their arithmetic.

ghost use Rattle.std.specs.Prelude.{◌≡◌, ℕ, suc, ◌*◌, ◌%◌, refl, to_bits, from_bits};
ghost use Rattle.std.specs.Float.{Float, Format, binary32, binary64};
ghost use Rattle.std.specs.Float.Ieee.{add, mul, emax, low, hid, top};

use std::num::{
    f32_from_bits_with_nan, f32_to_bits_with_nan, f64_from_bits_with_nan, f64_to_bits_with_nan,
};
use std::ops::{Add, Mul};

// A type of floats, of any format. Its patterns are numbers below twice `SIGN`.
pub trait BinaryFloat: Copy + Add<Output = Self> + Mul<Output = Self> {
    // The weight of the sign's bit.
    const SIGN: u64;

    // The weight of the leading digit, beside the digits below it.
    const LEAD: u64;

    // The exponent's field of 1.
    const BIAS: u64;

    // The exponent's field from which on there is no digit after the point.
    const WHOLE: u64;

    ghost SIGN: { ℕ };

    ghost LEAD: { ℕ };

    ghost BIAS: { ℕ };

    ghost WHOLE: { ℕ };

    ghost format: { Format };

    ghost float: { Self → Float };

    // The pattern. All NaNs have one.
    fn bits(self) -> u64
        ensures is { result ≡ to_bits format (float self) }
        ensures back { float self ≡ from_bits format result };

    // The float of a pattern.
    fn of_bits(bits: u64) -> Self
        ensures { float result ≡ from_bits format (bits % (2 * top format)) };

    ghost any_sum: { (x y : Self) → Self.can_add x y };

    ghost any_product: { (x y : Self) → Self.can_mul x y };

    ghost sum_is: { (x y r : Self) → Self.add_gives x y r → float r ≡ add format (float x) (float y) };

    ghost product_is: { (x y r : Self) → Self.mul_gives x y r → float r ≡ mul format (float x) (float y) };

    ghost sign_is: { SIGN ≡ top format };

    ghost lead_is: { LEAD ≡ hid format };

    ghost bias_is: { BIAS ≡ emax format };

    ghost whole_is: { WHOLE ≡ suc (low format) };
}

impl BinaryFloat for f32 {
    const SIGN: u64 = 0x8000_0000;

    const LEAD: u64 = 0x80_0000;

    const BIAS: u64 = 127;

    const WHOLE: u64 = 150;

    ghost SIGN = { 0x8000_0000 };

    ghost LEAD = { 0x80_0000 };

    ghost BIAS = { 127 };

    ghost WHOLE = { 150 };

    ghost format = { binary32 };

    ghost float = { λ x. x };

    ghost any_sum = { λ _ _. tt };

    ghost any_product = { λ _ _. tt };

    ghost sum_is = { λ _ _ _ is. is };

    ghost product_is = { λ _ _ _ is. is };

    ghost sign_is = { refl };

    ghost lead_is = { refl };

    ghost bias_is = { refl };

    ghost whole_is = { refl };

    fn bits(self) -> u64 {
        u64::from(f32_to_bits_with_nan(self))
    }

    fn of_bits(bits: u64) -> f32 {
        f32_from_bits_with_nan((bits % 0x1_0000_0000) as u32)
    }
}

impl BinaryFloat for f64 {
    const SIGN: u64 = 0x8000_0000_0000_0000;

    const LEAD: u64 = 0x10_0000_0000_0000;

    const BIAS: u64 = 1023;

    const WHOLE: u64 = 1075;

    ghost SIGN = { 0x8000_0000_0000_0000 };

    ghost LEAD = { 0x10_0000_0000_0000 };

    ghost BIAS = { 1023 };

    ghost WHOLE = { 1075 };

    ghost format = { binary64 };

    ghost float = { λ x. x };

    ghost any_sum = { λ _ _. tt };

    ghost any_product = { λ _ _. tt };

    ghost sum_is = { λ _ _ _ is. is };

    ghost product_is = { λ _ _ _ is. is };

    ghost sign_is = { refl };

    ghost lead_is = { refl };

    ghost bias_is = { refl };

    ghost whole_is = { refl };

    fn bits(self) -> u64 {
        f64_to_bits_with_nan(self)
    }

    fn of_bits(bits: u64) -> f64 {
        f64_from_bits_with_nan(bits)
    }
}

// A product and a sum, each rounded once.
pub fn f_fmla<F: BinaryFloat>(a: F, b: F, c: F) -> F
    ensures { F.float result ≡ add F.format (mul F.format (F.float a) (F.float b)) (F.float c) }
{
    a * b + c
}
