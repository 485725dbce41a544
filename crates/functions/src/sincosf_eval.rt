ghost use Rattle.std.specs.Prelude.{◌≡◌};
ghost use Rattle.formulas.specs.HalfTurns.{sinpi_y, cospi_y};

use forms::{f_estrin_polyeval7, f_polyeval6};

// sin(pi*y)/y on [-0.25; 0.25], by even powers up to 10.
const SINPI_Y: [f64; 6] = [
    f64::from_bits(0x400921fb54442cf8),
    f64::from_bits(0xc014abbce6257778),
    f64::from_bits(0x400466bc670fa464),
    f64::from_bits(0xbfe32d2c627f47da),
    f64::from_bits(0x3fb5071be0a2d3da),
    f64::from_bits(0xbf7dd4e0ae5b9fcd),
];

// cos(pi*y) on [-0.25; 0.25], by even powers up to 12.
const COSPI_Y: [f64; 7] = [
    f64::from_bits(0x3ff0000000000000),
    f64::from_bits(0xc013bd3cc9be459b),
    f64::from_bits(0x40103c1f081b0c98),
    f64::from_bits(0xbff55d3c7dc25308),
    f64::from_bits(0x3fce1f4fb6e12563),
    f64::from_bits(0xbf9a6c9c101c1182),
    f64::from_bits(0x3f5f3d9faffda250),
];

// sin(pi*y) on [-0.25; 0.25].
#[tactic(auto, unfolding(formulas::specs::HalfTurns::sinpi_y))]
pub fn sinpif_eval(y: f64) -> f64
    ensures { result ≡ sinpi_y y }
{
    let [a0, a2, a4, a6, a8, a10] = SINPI_Y;
    f_polyeval6(y * y, a0, a2, a4, a6, a8, a10) * y
}

// cos(pi*y) on [-0.25; 0.25].
#[tactic(auto, unfolding(formulas::specs::HalfTurns::cospi_y))]
pub fn cospif_eval(y: f64) -> f64
    ensures { result ≡ cospi_y y }
{
    let [a0, a2, a4, a6, a8, a10, a12] = COSPI_Y;
    f_estrin_polyeval7(y * y, a0, a2, a4, a6, a8, a10, a12)
}
