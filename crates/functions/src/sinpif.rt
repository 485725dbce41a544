ghost use Rattle.std.specs.Prelude.{◌≡◌};
ghost use Rattle.circle.specs.Circle.{exact_sine};
ghost use Rattle.formulas.specs.Distance.{Near, half_turn_steps};
ghost use Rattle.formulas.specs.HalfTurns.{sine_by, sinpif};
ghost use Rattle.functions.specs.Laws.{sinpif-fits, sinpif-near};

use crate::circular::{Circular, on_float};
use crate::polynomial::odd;
use crate::quarter::by_quarter;
use crate::sincosf_eval::{cospif_eval, sinpif_eval};
use crate::word::{INFINITE, NAN, PI, SIGN, widened, zero_like};
use rounding::{f_fmla, is_integerf, narrow_word};

// -pi^3/6.
const MINUS_PI3_OVER_6: f64 = f64::from_bits(0xc014abbce625be53);

// For |x| <= 1/16, sin(pi*x)/x by even powers up to 8.
const SINPI_NEAR: [f64; 5] = [
    PI,
    f64::from_bits(0xc014abbce625bbf2),
    f64::from_bits(0x400466bc675e116a),
    f64::from_bits(0xbfe32d2c0b62d41c),
    f64::from_bits(0x3fb501ec4497cb7d),
];

// The kernel is chosen by the quadrant.
fn sine_by(k: u8, y: f64) -> f64
    ensures { result ≡ sine_by k y }
{
    match k {
        0 => sinpif_eval(y),
        1 => cospif_eval(y),
        2 => sinpif_eval(-y),
        _ => -cospif_eval(y),
    }
}

// The sine of half turns.
pub struct Sinpif;

impl Circular for Sinpif {
    ghost answer = { sinpif };

    ghost near = { λ x r. Near x r (exact_sine (half_turn_steps x)) };

    ghost stays = { sinpif-fits };

    ghost keeps = { sinpif-near };

    // The plain path, from word to word.
    // Kept by hand: a shape for the two of half turns would take each bound, first term and polynomial, and the whole numbers' answer, as a parameter.
    fn at(word: u32) -> u32 {
        let x_abs = word % SIGN;
        if x_abs >= INFINITE {
            return NAN;
        }
        let xd = widened(word);

        // |x| <= 1/16
        if x_abs <= 0x3d80_0000 {
            // |x| < 0.0000009546391
            if x_abs < 0x3580_2126 {
                if x_abs == 0 {
                    // For signed zeros.
                    return word;
                }
                // sin(pi*x) ~ pi*x - pi^3*x^3/6
                return narrow_word(xd * f_fmla(xd * xd, MINUS_PI3_OVER_6, PI));
            }
            return narrow_word(odd(xd, &SINPI_NEAR));
        }

        // Numbers greater or equal to 2^23 are always integers.
        if x_abs >= 0x4b00_0000 || is_integerf(f32::from_bits(word)) {
            return zero_like(word);
        }
        narrow_word(by_quarter(xd, sine_by))
    }
}

// The sine of x half turns, sin(pi*x), within half a spacing at the answer and 2^-36 of the exact one.
pub fn f_sinpif(x: f32) -> f32
    ensures is { result ≡ sinpif x }
    ensures near { Near x result (exact_sine (half_turn_steps x)) }
{
    on_float::<Sinpif>(x)
}
