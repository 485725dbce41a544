#![tactic(auto)]

ghost use Rattle.std.specs.Prelude.{ℕ, ◌%◌, ◌≡◌, get_or, Float};
ghost use Rattle.std.specs.Float.Ieee.{neg};
ghost use Rattle.exact.specs.Fraction.{whole, frac, tiny, ◌⊕◌, ◌⊗◌};
ghost use Rattle.exact.specs.Value.{value_of, Held, Near};
ghost use Rattle.circle.specs.Circle.{exact_sine, exact_cosine};
ghost use Rattle.table.specs.Sines.{table_sine, table_cosine, sin_of_y, cosm1_of_y, sum_of, sine_of, cosine_of};
ghost use Rattle.table.specs.Against.{TableSines, TableCosines, TableTangents, SineAgainst, CosineAgainst, TangentAgainst, TangentNearer};

use forms::{Form, f_polyeval_made};

pub mod tangent;

// The sines of 0 to 63 steps.
const SIN_K_PI_OVER32: [f64; 64] = [
    f64::from_bits(0x0000000000000000),
    f64::from_bits(0x3fb917a6bc29b42c),
    f64::from_bits(0x3fc8f8b83c69a60b),
    f64::from_bits(0x3fd294062ed59f06),
    f64::from_bits(0x3fd87de2a6aea963),
    f64::from_bits(0x3fde2b5d3806f63b),
    f64::from_bits(0x3fe1c73b39ae68c8),
    f64::from_bits(0x3fe44cf325091dd6),
    f64::from_bits(0x3fe6a09e667f3bcd),
    f64::from_bits(0x3fe8bc806b151741),
    f64::from_bits(0x3fea9b66290ea1a3),
    f64::from_bits(0x3fec38b2f180bdb1),
    f64::from_bits(0x3fed906bcf328d46),
    f64::from_bits(0x3fee9f4156c62dda),
    f64::from_bits(0x3fef6297cff75cb0),
    f64::from_bits(0x3fefd88da3d12526),
    f64::from_bits(0x3ff0000000000000),
    f64::from_bits(0x3fefd88da3d12526),
    f64::from_bits(0x3fef6297cff75cb0),
    f64::from_bits(0x3fee9f4156c62dda),
    f64::from_bits(0x3fed906bcf328d46),
    f64::from_bits(0x3fec38b2f180bdb1),
    f64::from_bits(0x3fea9b66290ea1a3),
    f64::from_bits(0x3fe8bc806b151741),
    f64::from_bits(0x3fe6a09e667f3bcd),
    f64::from_bits(0x3fe44cf325091dd6),
    f64::from_bits(0x3fe1c73b39ae68c8),
    f64::from_bits(0x3fde2b5d3806f63b),
    f64::from_bits(0x3fd87de2a6aea963),
    f64::from_bits(0x3fd294062ed59f06),
    f64::from_bits(0x3fc8f8b83c69a60b),
    f64::from_bits(0x3fb917a6bc29b42c),
    f64::from_bits(0xb69f77598338bfdf),
    f64::from_bits(0xbfb917a6bc29b42c),
    f64::from_bits(0xbfc8f8b83c69a60b),
    f64::from_bits(0xbfd294062ed59f06),
    f64::from_bits(0xbfd87de2a6aea963),
    f64::from_bits(0xbfde2b5d3806f63b),
    f64::from_bits(0xbfe1c73b39ae68c8),
    f64::from_bits(0xbfe44cf325091dd6),
    f64::from_bits(0xbfe6a09e667f3bcd),
    f64::from_bits(0xbfe8bc806b151741),
    f64::from_bits(0xbfea9b66290ea1a3),
    f64::from_bits(0xbfec38b2f180bdb1),
    f64::from_bits(0xbfed906bcf328d46),
    f64::from_bits(0xbfee9f4156c62dda),
    f64::from_bits(0xbfef6297cff75cb0),
    f64::from_bits(0xbfefd88da3d12526),
    f64::from_bits(0xbff0000000000000),
    f64::from_bits(0xbfefd88da3d12526),
    f64::from_bits(0xbfef6297cff75cb0),
    f64::from_bits(0xbfee9f4156c62dda),
    f64::from_bits(0xbfed906bcf328d46),
    f64::from_bits(0xbfec38b2f180bdb1),
    f64::from_bits(0xbfea9b66290ea1a3),
    f64::from_bits(0xbfe8bc806b151741),
    f64::from_bits(0xbfe6a09e667f3bcd),
    f64::from_bits(0xbfe44cf325091dd6),
    f64::from_bits(0xbfe1c73b39ae68c8),
    f64::from_bits(0xbfde2b5d3806f63b),
    f64::from_bits(0xbfd87de2a6aea963),
    f64::from_bits(0xbfd294062ed59f06),
    f64::from_bits(0xbfc8f8b83c69a60b),
    f64::from_bits(0xbfb917a6bc29b42c),
];

// The entry of a table at k steps, whole turns of 64 aside.
fn entry(table: &[f64; 64], k: u8) -> f64
    ensures { (d : Float) → result ≡ get_or table.now (k % 64) d }
{
    table[usize::from(k % 64)]
}

// The entries of the tables, and the polynomials of the rest y against the series.
pub fn table_laws()
    ensures sines { TableSines }
    ensures cosines { TableCosines }
    ensures tangents { TableTangents }
    ensures sine { SineAgainst }
    ensures cosine { CosineAgainst }
    ensures tangent { TangentAgainst }
    ensures nearer { TangentNearer }
{}

// A step's sine and cosine, and those of the rest y, in one form.
#[derive(Clone, Copy)]
pub struct SinCosf<T> {
    pub sin_k: T,
    pub cos_k: T,
    pub sin_y: T,
    pub cosm1_y: T,
}

// sin(y * pi / 32) / y by even powers of y up to 6.
const SIN_Y: [f64; 4] = [
    f64::from_bits(0x3fb921fb54442d18),
    f64::from_bits(0xbf24abbce625abb1),
    f64::from_bits(0x3e7466bc624f2776),
    f64::from_bits(0xbdb32c3a619d4a7e),
];

// (cos(y * pi / 32) - 1) / y^2 by even powers of y up to 4.
const COSM1_Y: [f64; 3] = [
    f64::from_bits(0xbf73bd3cc9be430b),
    f64::from_bits(0x3ed03c1f070c2e27),
    f64::from_bits(0xbe155cc84bd94200),
];

// The table text: the parts of the sine and the cosine of k + y steps. Here and below y and k stand apart, as a reducer's pair is taken apart by a rule of the project.
pub fn sincosf_eval<T: Form>(y: f64, k: u8) -> SinCosf<T>
    ensures sin_k { result.sin_k ≡ T.Form.made (table_sine (k % 64)) }
    ensures cos_k { result.cos_k ≡ T.Form.made (table_cosine (k % 64)) }
    ensures sin_y { result.sin_y ≡ sin_of_y T.Form.mla T.Form.product T.Form.made y }
    ensures cosm1_y { result.cosm1_y ≡ cosm1_of_y T.Form.mla T.Form.product T.Form.made y }
{
    let v = T::make(y);
    let y_sqr = T::multiply(v, v);
    let sin_k = T::make(entry(&SIN_K_PI_OVER32, k));
    let cos_k = T::make(entry(&SIN_K_PI_OVER32, k % 64 + 16));
    let p = f_polyeval_made(y_sqr, &SIN_Y);
    let sin_y = T::multiply(v, p);
    let q = f_polyeval_made(y_sqr, &COSM1_Y);
    let cosm1_y = T::multiply(y_sqr, q);
    SinCosf {
        sin_k,
        cos_k,
        sin_y,
        cosm1_y,
    }
}

// The sum of a step's part, and that of a quarter turn on, with the rest y, in pxfm's order.
fn sum<T: Form>(p: SinCosf<T>, part: T, further: T) -> T
    ensures { result ≡ sum_of T.Form.mla p.sin_y p.cosm1_y part further }
{
    T::polyeval_mla(p.sin_y, further, T::polyeval_mla(p.cosm1_y, part, part))
}

// The sine from its parts.
pub fn sine<T: Form>(p: SinCosf<T>) -> T
    ensures { result ≡ sum_of T.Form.mla p.sin_y p.cosm1_y p.sin_k p.cos_k }
{
    sum(p, p.sin_k, p.cos_k)
}

// The cosine from its parts and the negated sine of the step.
pub fn cosine<T: Form>(p: SinCosf<T>, minus_sin_k: T) -> T
    ensures { result ≡ sum_of T.Form.mla p.sin_y p.cosm1_y p.cos_k minus_sin_k }
{
    sum(p, p.cos_k, minus_sin_k)
}

// The sine and the cosine of k + y steps. For -sin_k the table's f64 changes sign before the form makes a value.
pub fn sine_and_cosine<T: Form>(y: f64, k: u8) -> (T, T)
    ensures sine_is { result.0 ≡ sine_of T.Form.mla T.Form.product T.Form.made y (k % 64) }
    ensures cosine_is { result.1 ≡ cosine_of T.Form.mla T.Form.product T.Form.made y (k % 64) }
    ensures sine_near { Held y (frac 3 4) → Near (T.Form.mean result.0) (exact_sine (whole (k % 64) ⊕ value_of y)) (whole 11 ⊗ tiny T.Form.h ⊕ tiny 44) }
    ensures cosine_near { Held y (frac 3 4) → Near (T.Form.mean result.1) (exact_cosine (whole (k % 64) ⊕ value_of y)) (whole 11 ⊗ tiny T.Form.h ⊕ tiny 44) }
{
    let p = sincosf_eval(y, k);
    let minus_sin_k = T::make(-entry(&SIN_K_PI_OVER32, k));
    (sine(p), cosine(p, minus_sin_k))
}
