ghost use Rattle.std.specs.Prelude.{◌≡◌, ◌<◌, ◌*◌};
ghost use Rattle.std.specs.Float.Ieee.{to_signed, top};
ghost use Rattle.std.specs.Float.{float_round, binary64};
ghost use Rattle.rounding.specs.Round.{round_bits};

use crate::floats::BinaryFloat;
use std::num::saturating_f64_to_i64;

// The pattern of the whole number nearest to the float of the pattern, halves away from zero.
#[tactic(auto, using(crate::proofs::Cases::case_mid, crate::proofs::Cases::mid_sum, crate::proofs::Cases::mid_product), unfolding(crate::specs::Round::round_bits))]
fn round_bits<F: BinaryFloat>(bits: u64) -> u64
    requires { bits < 2 * top F.format }
    ensures { result ≡ round_bits F.format bits }
{
    let size = bits % F::SIGN;
    let sign = bits - size;
    let exponent = size / F::LEAD;
    if exponent < F::BIAS - 1 {
        sign
    } else if exponent < F::BIAS {
        sign + F::BIAS * F::LEAD
    } else if exponent < F::WHOLE {
        let unit = 1u64 << (F::WHOLE - exponent);
        (bits + unit / 2) / unit * unit
    } else {
        bits
    }
}

// The nearest whole number, halves away from zero.
pub fn round<F: BinaryFloat>(x: F) -> F
    ensures { F.float result ≡ float_round F.format (F.float x) }
{
    F::of_bits(round_bits::<F>(x.bits()))
}

// 1.5 * 2^52: from 2^52 to 2^53 an f64 has no digit after the point, and its pattern counts in ones.
const SHIFT: f64 = 6755399441055744.0;

// The nearest whole number, halves away from zero, as a float and as an integer (which stops at its ends).
pub fn round_counted(x: f64) -> (f64, i64)
    ensures whole { result.0 ≡ float_round binary64 x }
    ensures count { result.1 ≡ to_signed 63 (float_round binary64 x) }
{
    let sum = x + SHIFT;
    let whole = sum - SHIFT;
    let rest = x - whole;
    // Nearer than a half; not so for a NaN.
    if -0.5 < rest && rest < 0.5 {
        let bits = f64::to_bits(sum);
        // Within 2^50 of SHIFT, and not zero, whose sign the sum has lost.
        if bits >= 0x4334_0000_0000_0000
            && bits < 0x433c_0000_0000_0000
            && bits != 0x4338_0000_0000_0000
        {
            return (whole, bits as i64 - 0x4338_0000_0000_0000);
        }
    }
    let whole = round(x);
    (whole, saturating_f64_to_i64(whole))
}
