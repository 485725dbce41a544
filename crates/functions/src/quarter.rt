ghost use Rattle.std.specs.Prelude.{◌≡◌, ◌%◌};
ghost use Rattle.reducers.specs.Reduce.{reduce_quarter};
ghost use Rattle.reducers.specs.Exact.{mod_turn};

use reducers::pi::ArgumentReducerPi;
use reducers::step_of;

// x half turns as k/2 + y: the kernel at k modulo 4 and y.
pub(crate) fn by_quarter<K: Fn(u8, f64) -> f64>(x: f64, kernel: K) -> f64
    requires { K.IsAlwaysCallable kernel }
    ensures { K.post kernel (mod_turn (reduce_quarter x).1 % 4) (reduce_quarter x).0 result }
{
    let (y, k) = ArgumentReducerPi { x }.reduce_0p25();
    kernel(step_of(k) % 4, y)
}
