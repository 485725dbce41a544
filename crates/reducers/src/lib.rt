#![tactic(auto)]

ghost use Rattle.std.specs.Prelude.{◌≡◌, ℕ, ◌%◌, ◌<◌, ◌≤◌, ◌≢◌, from_bits};
ghost use Rattle.std.specs.Float.{binary32};
ghost use Rattle.std.specs.List.{prefix_len};
ghost use Rattle.reducers.specs.Exact.{field, mod_turn, Reduced, PartsAreRight, LowestBits, LowestDigits, SkippedAreWholeTurns};
ghost use Rattle.reducers.specs.Reduce.{reduce_small, reduce_large, skips, leading, whole_turns, part};
ghost use Rattle.reducers.specs.Reduce.{reduce as reduced};

use rounding::{exponent_of_bits, f_fmla, round_counted};

// The reducer of radians: the float, and the word of its size.
#[derive(Clone, Copy)]
pub struct ArgumentReducer {
    pub x: f64,
    pub x_abs: u32,
}

// A part of 32 / pi, and the exponent of its lowest bit.
#[derive(Clone, Copy)]
struct Part {
    bits: u64,
    lsb_exp: i32,
}

impl Part {
    // Whether the product of the part and a float of this exponent is a multiple of 64.
    fn is_whole_turns(self, exponent: i32) -> bool
        ensures { result ≡ whole_turns exponent self.lsb_exp }
    {
        const FRACTION_LEN: i64 = 23;
        let x_lsb_exp = i64::from(exponent) - FRACTION_LEN;
        x_lsb_exp + i64::from(self.lsb_exp) > 5
    }
}

// 32 / pi in eight parts, the first seven of at most 28 binary digits.
static THIRTYTWO_OVER_PI: [Part; 8] = [
    Part {
        bits: 0x40245f306e000000,
        lsb_exp: -24,
    },
    Part {
        bits: 0xbe3b1bbeae000000,
        lsb_exp: -55,
    },
    Part {
        bits: 0x3c63f84eb0000000,
        lsb_exp: -81,
    },
    Part {
        bits: 0xba87056592000000,
        lsb_exp: -114,
    },
    Part {
        bits: 0x38bc0db62a000000,
        lsb_exp: -143,
    },
    Part {
        bits: 0xb6e4cd8778000000,
        lsb_exp: -170,
    },
    Part {
        bits: 0xb51bef806c000000,
        lsb_exp: -200,
    },
    Part {
        bits: 0x33363abdebbc561b,
        lsb_exp: -230,
    },
];

// The i-th part.
fn thirtytwo_over_pi(i: usize) -> f64
    requires { i < 8 }
    ensures { result ≡ part i }
{
    f64::from_bits(THIRTYTWO_OVER_PI[i].bits)
}

// How many parts there are. Their sum is 32 / pi but for 2^-230.
pub fn parts() -> usize
    ensures count { result ≡ 8 }
    ensures sum { PartsAreRight }
{
    THIRTYTWO_OVER_PI.len()
}

// How many parts lead whose products with a float of this exponent are multiples of 64.
fn whole_turns_len(parts: &[Part], exponent: i32) -> usize
    ensures { result ≡ prefix_len (λ part. whole_turns exponent part.lsb_exp) parts.now }
{
    parts
        .iter()
        .take_while(|part| part.is_whole_turns(exponent))
        .count()
}

// How many parts to skip: at most four, so that four are left.
fn skipped(exponent: i32) -> usize
    ensures is { result ≡ skips leading exponent }
    ensures few { result ≤ 4 }
{
    whole_turns_len(&THIRTYTWO_OVER_PI[..4], exponent)
}

// Why parts may be skipped: their products with the float are multiples of 64.
pub fn skip_rule()
    ensures parts { LowestBits }
    ensures floats { LowestDigits }
    ensures skipped { SkippedAreWholeTurns }
{}

// The word of 2^22: floats below it are reduced by the first three parts.
pub const SMALL_PASS_BOUND: u32 = 0x4a80_0000;

impl ArgumentReducer {
    // For |x| < 2^22: k = round(x * 32 / pi) and y = (x * 32 / pi) - k.
    pub fn reduce_small(self) -> (f64, i64)
        ensures { result ≡ reduce_small self.x }
    {
        let prod = self.x * thirtytwo_over_pi(0);
        let (kd, k) = round_counted(prod);
        let mut y = prod - kd;
        y = f_fmla(self.x, thirtytwo_over_pi(1), y);
        y = f_fmla(self.x, thirtytwo_over_pi(2), y);
        (y, k)
    }

    // The same for larger x of that exponent, k up to a multiple of 64.
    pub fn reduce_large(self, exponent: i32) -> (f64, i64)
        ensures { result ≡ reduce_large self.x exponent }
    {
        let idx = skipped(exponent);
        let prod_hi = self.x * thirtytwo_over_pi(idx);
        // Get the integral part of x * THIRTYTWO_OVER_PI[idx]
        let (k_hi, high) = round_counted(prod_hi);
        // Get the fractional part of x * THIRTYTWO_OVER_PI[idx]
        let frac = prod_hi - k_hi;
        let prod_lo = f_fmla(self.x, thirtytwo_over_pi(idx + 1), frac);
        let (k_lo, low) = round_counted(prod_lo);

        // Now y is the fractional parts.
        let mut y = prod_lo - k_lo;
        y = f_fmla(self.x, thirtytwo_over_pi(idx + 2), y);
        y = f_fmla(self.x, thirtytwo_over_pi(idx + 3), y);

        (y, high.wrapping_add(low))
    }

    // k and y by the float's size.
    pub fn reduce(self) -> (f64, i64)
        ensures is { result ≡ reduced self.x self.x_abs }
        ensures right { (w : ℕ) → self.x ≡ from_bits binary32 w → self.x_abs ≡ w % 2147483648 → (field w ≢ 255) → Reduced w result.0 result.1 }
    {
        if self.x_abs < SMALL_PASS_BOUND {
            self.reduce_small()
        } else {
            // Kept by hand: an exponent is an i32 as pxfm's, and no From goes there from i64.
            self.reduce_large(exponent_of_bits::<f32>(u64::from(self.x_abs)) as i32)
        }
    }

    // y, and k within a turn.
    pub fn steps(self) -> (f64, u8)
        ensures rest { result.0 ≡ (reduced self.x self.x_abs).0 }
        ensures step { result.1 ≡ mod_turn (reduced self.x self.x_abs).1 }
    {
        within_turn(self.reduce())
    }
}

// A reducer's pair, its count within a turn.
pub(crate) fn within_turn(pair: (f64, i64)) -> (f64, u8)
    ensures rest { result.0 ≡ pair.0 }
    ensures step { result.1 ≡ mod_turn pair.1 }
{
    let (y, k) = pair;
    (y, step_of(k))
}

// k modulo 64: the step within a turn.
pub fn step_of(k: i64) -> u8
    ensures { result ≡ mod_turn k }
{
    k.rem_euclid(64) as u8
}

pub mod pi;
