#![tactic(auto)]

mod bits;
mod floats;
mod narrowing;
mod nearest;

pub use bits::{
    biased_exponent, copysign, exponent_of_bits, get_exponent, is_integerf, is_odd_integerf,
    is_sign_negative, mantissa,
};
pub use floats::{BinaryFloat, f_fmla};
pub use narrowing::{narrow, narrow_word};
pub use nearest::{round, round_counted};
