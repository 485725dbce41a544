ghost use Rattle.std.specs.Prelude.{◌≡◌};
ghost use Rattle.std.specs.Float.{binary64};
ghost use Rattle.std.specs.Float.Ieee.{mul};
ghost use Rattle.functions.specs.Polynomial.{even};

use forms::f_polyeval;

// An even polynomial of degree 8, by its coefficients from that of x^0 up.
pub(crate) fn even(x: f64, coefficients: &[f64; 5]) -> f64
    ensures { result ≡ even x coefficients.now }
{
    f_polyeval(x * x, coefficients)
}

// An odd polynomial of degree 9: x times an even one.
pub(crate) fn odd(x: f64, coefficients: &[f64; 5]) -> f64
    ensures { result ≡ mul binary64 x (even x coefficients.now) }
{
    x * even(x, coefficients)
}
