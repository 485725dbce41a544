ghost use Rattle.std.specs.Prelude.{◌≡◌};
ghost use Rattle.circle.specs.Circle.{exact_cosine};
ghost use Rattle.formulas.specs.Distance.{Near, half_turn_steps};
ghost use Rattle.formulas.specs.HalfTurns.{cosine_by, cospif};
ghost use Rattle.functions.specs.Laws.{cospif-fits, cospif-near};

use crate::circular::{Circular, on_float};
use crate::polynomial::even;
use crate::quarter::by_quarter;
use crate::sincosf_eval::{cospif_eval, sinpif_eval};
use crate::word::{INFINITE, MINUS_TINY, NAN, SIGN, widened};
use rounding::{f_fmla, is_integerf, is_odd_integerf, narrow_word};

// The words of 1 and -1.
const ONE: u32 = 0x3f80_0000;

const MINUS_ONE: u32 = 0xbf80_0000;

// For |x| <= 1/16, by even powers up to 8.
const COSPI_NEAR: [f64; 5] = [
    f64::from_bits(0x3ff0000000000000),
    f64::from_bits(0xc013bd3cc9be43f7),
    f64::from_bits(0x40103c1f08091fe0),
    f64::from_bits(0xbff55d3ba3d94835),
    f64::from_bits(0x3fce173c2a00e74e),
];

// The kernel is chosen by the quadrant. At odd halves the zero is positive, so this is not `sine_by` a quarter on.
fn cosine_by(k: u8, y: f64) -> f64
    ensures { result ≡ cosine_by k y }
{
    match k {
        0 => cospif_eval(y),
        1 if y == 0.0 => 0.0,
        1 => sinpif_eval(-y),
        2 => -cospif_eval(y),
        _ => sinpif_eval(y),
    }
}

// The cosine of half turns.
pub struct Cospif;

impl Circular for Cospif {
    ghost answer = { cospif };

    ghost near = { λ x r. Near x r (exact_cosine (half_turn_steps x)) };

    ghost stays = { cospif-fits };

    ghost keeps = { cospif-near };

    // The plain path, from word to word.
    // Kept by hand: a shape for the two of half turns would take each bound, first term and polynomial, and the whole numbers' answer, as a parameter.
    fn at(word: u32) -> u32 {
        let x_abs = word % SIGN;
        if x_abs >= INFINITE {
            return NAN;
        }
        let xd = widened(x_abs);

        // |x| <= 1/16
        if x_abs <= 0x3d80_0000 {
            // |x| < 0.0000777
            if x_abs < 0x38a2_f984 {
                return narrow_word(f_fmla(xd, MINUS_TINY, 1.0));
            }
            return narrow_word(even(xd, &COSPI_NEAR));
        }

        // Numbers greater or equal to 2^23 are always integers.
        let x = f32::from_bits(x_abs);
        if x_abs >= 0x4b00_0000 || is_integerf(x) {
            return if is_odd_integerf(x) { MINUS_ONE } else { ONE };
        }
        narrow_word(by_quarter(xd, cosine_by))
    }
}

// The cosine of x half turns, cos(pi*x), within half a spacing at the answer and 2^-36 of the exact one.
pub fn f_cospif(x: f32) -> f32
    ensures is { result ≡ cospif x }
    ensures near { Near x result (exact_cosine (half_turn_steps x)) }
{
    on_float::<Cospif>(x)
}
