// The shares of a heading: its sine and cosine times 2^30, as whole numbers.
ghost use Rattle.std.specs.Prelude.{◌≡◌, ◌%◌};
ghost use Rattle.circle.specs.Circle.{exact_sine, exact_cosine};
ghost use Rattle.shares.specs.Share.{share_of, sine_share, cosine_share, ShareNear};

use rounding::{narrow, round};
use std::num::{f32_to_f64_with_nan, saturating_f64_to_i32};
use table::sine_and_cosine;

#[derive(Clone, Copy, Debug, PartialEq, Eq)]
pub struct Shares {
    pub sine: i32,
    pub cosine: i32,
}

// Narrowed to an f32, times 2^30, to the nearest whole number, halves away from zero.
pub fn share(x: f64) -> i32
    ensures { result ≡ share_of x }
{
    let scaled = f32_to_f64_with_nan(narrow(x)) * 1073741824.0;
    saturating_f64_to_i32(round(scaled))
}

// The shares of k + y steps, whole turns of 64 aside; k and y as a reader's pair is taken apart.
pub fn shares_of(k: u8, y: f64) -> Shares
    ensures sine_is { result.sine ≡ sine_share k y }
    ensures cosine_is { result.cosine ≡ cosine_share k y }
    ensures sine_near { ShareNear exact_sine y (k % 64) result.sine }
    ensures cosine_near { ShareNear exact_cosine y (k % 64) result.cosine }
{
    let (sine, cosine) = sine_and_cosine::<f64>(y, k);
    Shares {
        sine: share(sine),
        cosine: share(cosine),
    }
}
