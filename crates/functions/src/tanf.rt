ghost use Rattle.std.specs.Prelude.{◌≡◌};
ghost use Rattle.reducers.specs.Reduce.{reduce as reduced};
ghost use Rattle.formulas.specs.Words.{tangent_at};
ghost use Rattle.reducers.specs.Exact.{radian_steps};
ghost use Rattle.formulas.specs.Radians.{tanf};
ghost use Rattle.formulas.specs.Tangent.{NearTangent};
ghost use Rattle.functions.specs.Laws.{tanf-fits, tanf-near};

use crate::circular::{Circular, on_float};
use crate::polynomial::odd;
use crate::word::{INFINITE, MINUS_TINY, NAN, SIGN, widened};
use reducers::ArgumentReducer;
use rounding::{f_fmla, narrow_word};
use table::tangent::{tanf_eval, tangent};

// For |x| <= pi/32, tan(x)/x by even powers up to 8.
const TAN_NEAR: [f64; 5] = [
    f64::from_bits(0x3ff0000000000000),
    f64::from_bits(0x3fd555555553d022),
    f64::from_bits(0x3fc111111ce442c1),
    f64::from_bits(0x3faba180a6bbdecd),
    f64::from_bits(0x3f969c0a88a0b71f),
];

// tan(x) = tan((k + y)*pi/32), by the table.
fn tan_by_table(reducer: ArgumentReducer) -> f64
    ensures { result ≡ tangent_at (reduced reducer.x reducer.x_abs) }
{
    let (y, k) = reducer.steps();
    tangent(tanf_eval(y, k))
}

// The tangent of radians.
pub struct Tanf;

impl Circular for Tanf {
    ghost answer = { tanf };

    ghost near = { λ x r. NearTangent x r (radian_steps x) };

    ghost stays = { tanf-fits };

    ghost keeps = { tanf-near };

    // The plain path, from word to word.
    // Kept by hand: a shape for the three of radians would take each bound, first term, polynomial and table as a parameter.
    fn at(word: u32) -> u32 {
        let x_abs = word % SIGN;
        if x_abs >= INFINITE {
            return NAN;
        }
        let xd = widened(word);

        // |x| < pi/32
        if x_abs <= 0x3dc9_0fdb {
            // |x| < 0.000244141
            if x_abs < 0x3980_0000 {
                if x_abs == 0 {
                    // For signed zeros.
                    return word;
                }
                return narrow_word(f_fmla(xd, MINUS_TINY, xd));
            }
            return narrow_word(odd(xd, &TAN_NEAR));
        }
        narrow_word(tan_by_table(ArgumentReducer { x: xd, x_abs }))
    }
}

// The tangent of x radians: never infinite, and times the exact cosine near the exact sine.
pub fn f_tanf(x: f32) -> f32
    ensures is { result ≡ tanf x }
    ensures near { NearTangent x result (radian_steps x) }
{
    on_float::<Tanf>(x)
}
