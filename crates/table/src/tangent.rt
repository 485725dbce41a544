ghost use Rattle.std.specs.Prelude.{◌≡◌, ◌%◌};
ghost use Rattle.table.specs.Tangents.{table_tangent, tan_of_y, tangent_of};

use crate::entry;
use forms::f_polyeval;
use rounding::f_fmla;

// The tangents of 0 to 63 steps.
const TAN_K_PI_OVER32: [f64; 64] = [
    f64::from_bits(0x0000000000000000),
    f64::from_bits(0x3fb936bb8c5b2da2),
    f64::from_bits(0x3fc975f5e0553158),
    f64::from_bits(0x3fd36a08355c63dc),
    f64::from_bits(0x3fda827999fcef32),
    f64::from_bits(0x3fe11ab7190834ec),
    f64::from_bits(0x3fe561b82ab7f990),
    f64::from_bits(0x3fea43002ae42850),
    f64::from_bits(0x3ff0000000000000),
    f64::from_bits(0x3ff37efd8d87607e),
    f64::from_bits(0x3ff7f218e25a7461),
    f64::from_bits(0x3ffdef13b73c1406),
    f64::from_bits(0x4003504f333f9de6),
    f64::from_bits(0x400a5f59e90600dd),
    f64::from_bits(0x40141bfee2424771),
    f64::from_bits(0x40244e6c595afdcc),
    f64::from_bits(0xc950457bf6be49c7),
    f64::from_bits(0xc0244e6c595afdcc),
    f64::from_bits(0xc0141bfee2424771),
    f64::from_bits(0xc00a5f59e90600dd),
    f64::from_bits(0xc003504f333f9de6),
    f64::from_bits(0xbffdef13b73c1406),
    f64::from_bits(0xbff7f218e25a7461),
    f64::from_bits(0xbff37efd8d87607e),
    f64::from_bits(0xbff0000000000000),
    f64::from_bits(0xbfea43002ae42850),
    f64::from_bits(0xbfe561b82ab7f990),
    f64::from_bits(0xbfe11ab7190834ec),
    f64::from_bits(0xbfda827999fcef32),
    f64::from_bits(0xbfd36a08355c63dc),
    f64::from_bits(0xbfc975f5e0553158),
    f64::from_bits(0xbfb936bb8c5b2da2),
    f64::from_bits(0x369f77598338bfdf),
    f64::from_bits(0x3fb936bb8c5b2da2),
    f64::from_bits(0x3fc975f5e0553158),
    f64::from_bits(0x3fd36a08355c63dc),
    f64::from_bits(0x3fda827999fcef32),
    f64::from_bits(0x3fe11ab7190834ec),
    f64::from_bits(0x3fe561b82ab7f990),
    f64::from_bits(0x3fea43002ae42850),
    f64::from_bits(0x3ff0000000000000),
    f64::from_bits(0x3ff37efd8d87607e),
    f64::from_bits(0x3ff7f218e25a7461),
    f64::from_bits(0x3ffdef13b73c1406),
    f64::from_bits(0x4003504f333f9de6),
    f64::from_bits(0x400a5f59e90600dd),
    f64::from_bits(0x40141bfee2424771),
    f64::from_bits(0x40244e6c595afdcc),
    f64::from_bits(0xc935b1fa9e530d0a),
    f64::from_bits(0xc0244e6c595afdcc),
    f64::from_bits(0xc0141bfee2424771),
    f64::from_bits(0xc00a5f59e90600dd),
    f64::from_bits(0xc003504f333f9de6),
    f64::from_bits(0xbffdef13b73c1406),
    f64::from_bits(0xbff7f218e25a7461),
    f64::from_bits(0xbff37efd8d87607e),
    f64::from_bits(0xbff0000000000000),
    f64::from_bits(0xbfea43002ae42850),
    f64::from_bits(0xbfe561b82ab7f990),
    f64::from_bits(0xbfe11ab7190834ec),
    f64::from_bits(0xbfda827999fcef32),
    f64::from_bits(0xbfd36a08355c63dc),
    f64::from_bits(0xbfc975f5e0553158),
    f64::from_bits(0xbfb936bb8c5b2da2),
];

// The tangents of a step and of the rest y.
#[derive(Clone, Copy)]
pub struct TanfEval {
    pub tan_k: f64,
    pub tan_y: f64,
}

// tan(y * pi / 32) / y by even powers of y up to 6, on [0, 0.5].
const TAN_Y: [f64; 4] = [
    f64::from_bits(0x3fb921fb54442cef),
    f64::from_bits(0x3f34abbce63a363e),
    f64::from_bits(0x3eb466baced705e8),
    f64::from_bits(0x3e346a33cde88184),
];

// The parts of the tangent of k + y steps. The signature is pxfm's.
pub fn tanf_eval(y: f64, k: u8) -> TanfEval
    ensures tan_k { result.tan_k ≡ table_tangent (k % 64) }
    ensures tan_y { result.tan_y ≡ tan_of_y y }
{
    let y_sqr = y * y;
    let tan_k = entry(&TAN_K_PI_OVER32, k);
    let tan_y = f_polyeval(y_sqr, &TAN_Y) * y;
    TanfEval { tan_k, tan_y }
}

// The tangent of the sum from its parts, in pxfm's order.
pub fn tangent(p: TanfEval) -> f64
    ensures { result ≡ tangent_of p.tan_y p.tan_k }
{
    // num = tan(k*pi/32) + tan(y*pi/32)
    let num = p.tan_y + p.tan_k;
    // den = 1 - tan(k*pi/32) * tan(y*pi/32)
    let den = f_fmla(p.tan_y, -p.tan_k, 1.0);
    num / den
}
