ghost use Rattle.std.specs.Prelude.{◌≡◌};
ghost use Rattle.reducers.specs.Reduce.{reduce as reduced};
ghost use Rattle.circle.specs.Circle.{exact_sine};
ghost use Rattle.formulas.specs.Distance.{Near};
ghost use Rattle.reducers.specs.Exact.{radian_steps};
ghost use Rattle.formulas.specs.Words.{sine_at};
ghost use Rattle.formulas.specs.Radians.{sinf};
ghost use Rattle.functions.specs.Laws.{sinf-fits, sinf-near};

use crate::circular::{Circular, on_float};
use crate::polynomial::odd;
use crate::word::{INFINITE, MINUS_TINY, NAN, SIGN, widened};
use reducers::ArgumentReducer;
use rounding::{f_fmla, narrow_word};
use table::{sincosf_eval, sine};

// For |x| <= pi/16, sin(x)/x by even powers up to 8.
const SIN_NEAR: [f64; 5] = [
    f64::from_bits(0x3ff0000000000000),
    f64::from_bits(0xbfc55555555554c6),
    f64::from_bits(0x3f81111111085e65),
    f64::from_bits(0xbf2a019f70fb4d4f),
    f64::from_bits(0x3ec718d179815e74),
];

// sin(x) = sin((k + y)*pi/32), by the table.
fn sin_by_table(reducer: ArgumentReducer) -> f64
    ensures { result ≡ sine_at (reduced reducer.x reducer.x_abs) }
{
    let (y, k) = reducer.steps();
    sine(sincosf_eval::<f64>(y, k))
}

// The sine of radians.
pub struct Sinf;

impl Circular for Sinf {
    ghost answer = { sinf };

    ghost near = { λ x r. Near x r (exact_sine (radian_steps x)) };

    ghost stays = { sinf-fits };

    ghost keeps = { sinf-near };

    // The plain path, from word to word.
    // Kept by hand: a shape for the three of radians would take each bound, first term, polynomial and table as a parameter.
    fn at(word: u32) -> u32 {
        let x_abs = word % SIGN;
        if x_abs >= INFINITE {
            return NAN;
        }
        let xd = widened(word);

        // |x| <= pi/16
        if x_abs <= 0x3e49_0fdb {
            // |x| < 0.000443633
            if x_abs < 0x39e8_9769 {
                if x_abs == 0 {
                    // For signed zeros.
                    return word;
                }
                return narrow_word(f_fmla(xd, MINUS_TINY, xd));
            }
            return narrow_word(odd(xd, &SIN_NEAR));
        }
        narrow_word(sin_by_table(ArgumentReducer { x: xd, x_abs }))
    }
}

// The sine of x radians, within half a spacing at the answer and 2^-36 of the exact one.
pub fn f_sinf(x: f32) -> f32
    ensures is { result ≡ sinf x }
    ensures near { Near x result (exact_sine (radian_steps x)) }
{
    on_float::<Sinf>(x)
}
