ghost use Rattle.std.specs.Prelude.{◌≡◌, T};
ghost use Rattle.std.specs.Float.Ieee.Scale.{finite};
ghost use Rattle.exact.specs.Fraction.{whole};
ghost use Rattle.exact.specs.Value.{value_of};
ghost use Rattle.exact.specs.Multiple.{Smaller};
ghost use Rattle.reducers.specs.Reduce.{reduce_pi, reduce_quarter};
ghost use Rattle.reducers.specs.Exact.{mod_turn, PiReduced, QuarterReduced};

use crate::within_turn;
use rounding::{f_fmla, round_counted};

// The reducer of half turns: x stands for x * pi radians.
#[derive(Clone, Copy)]
pub struct ArgumentReducerPi {
    pub x: f64,
}

impl ArgumentReducerPi {
    // k = round(x * 32) and y = x * 32 - k.
    pub fn reduce(self) -> (f64, i64)
        ensures is { result ≡ reduce_pi self.x }
        ensures exact { T (finite self.x) → Smaller (value_of self.x) (whole 16777216) → PiReduced self.x result.0 result.1 }
    {
        let (kd, k) = round_counted(self.x * 32.0);
        let y = f_fmla(self.x, 32.0, -kd);
        (y, k)
    }

    // y, and k within a turn.
    pub fn steps(self) -> (f64, u8)
        ensures rest { result.0 ≡ (reduce_pi self.x).0 }
        ensures step { result.1 ≡ mod_turn (reduce_pi self.x).1 }
    {
        within_turn(self.reduce())
    }

    // k = round(x * 2) and y = x - k / 2.
    pub fn reduce_0p25(self) -> (f64, i64)
        ensures is { result ≡ reduce_quarter self.x }
        ensures exact { T (finite self.x) → Smaller (value_of self.x) (whole 8388608) → QuarterReduced self.x result.0 result.1 }
    {
        let (kd, k) = round_counted(self.x + self.x);
        let y = f_fmla(kd, -0.5, self.x);
        (y, k)
    }
}
