ghost use Rattle.std.specs.Prelude.{◌≡◌, ◌<◌};
ghost use Rattle.formulas.specs.HalfTurns.{tanpi_by, tanpi_at, tanpif};
ghost use Rattle.formulas.specs.Tangent.{HalfOrNear};
ghost use Rattle.functions.specs.Laws.{tanpif-fits, tanpif-near};

use crate::circular::{Circular, on_float};
use crate::word::{INFINITE, NAN, PI, SIGN, size_bits, widened, zero_like};
use reducers::pi::ArgumentReducerPi;
use rounding::{copysign, f_fmla, narrow, narrow_word};
use std::num::{f32_to_bits_with_nan, f32_to_f64_with_nan};
use table::tangent::{tanf_eval, tangent};

// pi^3/3.
const PI3_OVER_3: f64 = f64::from_bits(0x4024abbce625be53);

// The word of 0.0001: below it two terms serve.
const TWO_TERMS_BOUND: u32 = 0x38d1_b717;

// tan(pi*x) where x is k + y steps, 32 to a half turn.
fn tanpi_by_table(x: f32, y: f64, k: u8) -> f32
    requires { k < 64 }
    ensures { result ≡ tanpi_by x y k }
{
    // |x| < 0.0001
    if size_bits(x) < TWO_TERMS_BOUND {
        // tan(pi*x) ~ pi*x + pi^3*x^3/3
        let dx = f32_to_f64_with_nan(x);
        return narrow(f_fmla(dx * dx, PI3_OVER_3, PI) * dx);
    }
    narrow(tangent(tanf_eval(y, k)))
}

// The same, exact where x is a whole number of quarters: where y is zero and k a multiple of 8.
fn tanpi_at(x: f32, y: f64, k: u8) -> f32
    requires { k < 64 }
    ensures { result ≡ tanpi_at x y k }
{
    let is_odd = k >= 32;
    match k % 32 {
        // Whole numbers: the sign of x if even, its opposite if odd.
        0 if y == 0.0 && is_odd => -copysign(0.0, x),
        0 if y == 0.0 => copysign(0.0, x),
        // Halves: positive after an even number, negative after an odd one.
        16 if y == 0.0 && is_odd => f32::NEG_INFINITY,
        16 if y == 0.0 => f32::INFINITY,
        8 if y == 0.0 => 1.0,
        24 if y == 0.0 => -1.0,
        _ => tanpi_by_table(x, y, k),
    }
}

// The tangent of half turns.
pub struct Tanpif;

impl Circular for Tanpif {
    ghost answer = { tanpif };

    ghost near = { HalfOrNear };

    ghost stays = { tanpif-fits };

    ghost keeps = { tanpif-near };

    // The plain path, from word to word.
    fn at(word: u32) -> u32 {
        let x_abs = word % SIGN;
        if x_abs >= INFINITE {
            return NAN;
        }
        // Numbers greater or equal to 2^24 are always even.
        if x_abs >= 0x4b80_0000 {
            return zero_like(word);
        }
        let (y, k) = ArgumentReducerPi { x: widened(word) }.steps();
        // Near zero, and where y is zero, as it is at quarters.
        if x_abs < TWO_TERMS_BOUND || y == 0.0 {
            return f32_to_bits_with_nan(tanpi_at(f32::from_bits(word), y, k));
        }
        // Elsewhere the table alone serves.
        narrow_word(tangent(tanf_eval(y, k)))
    }
}

// The tangent of x half turns: infinite at whole numbers and a half alone, and times the exact cosine near the exact sine.
pub fn f_tanpif(x: f32) -> f32
    ensures is { result ≡ tanpif x }
    ensures near { HalfOrNear x result }
{
    on_float::<Tanpif>(x)
}
