ghost use Rattle.std.specs.Prelude.{◌≡◌};
ghost use Rattle.reducers.specs.Reduce.{reduce as reduced};
ghost use Rattle.circle.specs.Circle.{exact_cosine};
ghost use Rattle.formulas.specs.Distance.{Near};
ghost use Rattle.reducers.specs.Exact.{radian_steps};
ghost use Rattle.formulas.specs.Words.{cosine_at};
ghost use Rattle.formulas.specs.Radians.{cosf};
ghost use Rattle.functions.specs.Laws.{cosf-fits, cosf-near};

use crate::circular::{Circular, on_float};
use crate::polynomial::even;
use crate::word::{INFINITE, MINUS_TINY, NAN, SIGN, widened};
use reducers::ArgumentReducer;
use rounding::{f_fmla, narrow_word};
use table::{cosine, sincosf_eval};

// For |x| <= pi/16, by even powers up to 8.
const COS_NEAR: [f64; 5] = [
    f64::from_bits(0x3ff0000000000000),
    f64::from_bits(0xbfdffffffffffcea),
    f64::from_bits(0x3fa55555553d611a),
    f64::from_bits(0xbf56c16b2e26561a),
    f64::from_bits(0x3ef9faa67b9da80b),
];

// cos(x) = cos((k + y)*pi/32), by the table.
fn cos_by_table(reducer: ArgumentReducer) -> f64
    ensures { result ≡ cosine_at (reduced reducer.x reducer.x_abs) }
{
    let (y, k) = reducer.steps();
    let rs = sincosf_eval::<f64>(y, k);
    cosine(rs, -rs.sin_k)
}

// The cosine of radians.
pub struct Cosf;

impl Circular for Cosf {
    ghost answer = { cosf };

    ghost near = { λ x r. Near x r (exact_cosine (radian_steps x)) };

    ghost stays = { cosf-fits };

    ghost keeps = { cosf-near };

    // The plain path, from word to word.
    // Kept by hand: a shape for the three of radians would take each bound, first term, polynomial and table as a parameter.
    fn at(word: u32) -> u32 {
        let x_abs = word % SIGN;
        if x_abs >= INFINITE {
            return NAN;
        }
        let xd = widened(x_abs);

        // |x| <= pi/16
        if x_abs <= 0x3e49_0fdb {
            // |x| < 0.000244141
            if x_abs < 0x3980_0000 {
                return narrow_word(f_fmla(xd, MINUS_TINY, 1.0));
            }
            return narrow_word(even(xd, &COS_NEAR));
        }
        narrow_word(cos_by_table(ArgumentReducer { x: xd, x_abs }))
    }
}

// The cosine of x radians, within half a spacing at the answer and 2^-36 of the exact one.
pub fn f_cosf(x: f32) -> f32
    ensures is { result ≡ cosf x }
    ensures near { Near x result (exact_cosine (radian_steps x)) }
{
    on_float::<Cosf>(x)
}
