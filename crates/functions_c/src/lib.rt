// The six functions on words, for Rust and C, near the exact ones as f_sinf and its like are. A NaN's word is 7fc00000.
#![tactic(auto)]

ghost use Rattle.std.specs.Prelude.{◌≡◌, from_bits};
ghost use Rattle.std.specs.Float.{binary32};
ghost use Rattle.circle.specs.Circle.{exact_sine, exact_cosine};
ghost use Rattle.reducers.specs.Exact.{radian_steps};
ghost use Rattle.formulas.specs.Distance.{Near, half_turn_steps};
ghost use Rattle.formulas.specs.Tangent.{NearTangent, HalfOrNear};
ghost use Rattle.formulas.specs.Words.{on_word};
ghost use Rattle.formulas.specs.Radians.{sinf, cosf, tanf};
ghost use Rattle.formulas.specs.HalfTurns.{sinpif, cospif, tanpif};

// Kept by hand: C calls each by its own name, and what is exported takes no type parameter.
use functions::{Cosf, Cospif, Sinf, Sinpif, Tanf, Tanpif, on_word};

#[unsafe(no_mangle)]
pub extern "C" fn luhvend_sinf(word: u32) -> u32
    ensures is { result ≡ on_word sinf word }
    ensures near { Near (from_bits binary32 word) (from_bits binary32 result) (exact_sine (radian_steps (from_bits binary32 word))) }
{
    on_word::<Sinf>(word)
}

#[unsafe(no_mangle)]
pub extern "C" fn luhvend_cosf(word: u32) -> u32
    ensures is { result ≡ on_word cosf word }
    ensures near { Near (from_bits binary32 word) (from_bits binary32 result) (exact_cosine (radian_steps (from_bits binary32 word))) }
{
    on_word::<Cosf>(word)
}

#[unsafe(no_mangle)]
pub extern "C" fn luhvend_tanf(word: u32) -> u32
    ensures is { result ≡ on_word tanf word }
    ensures near { NearTangent (from_bits binary32 word) (from_bits binary32 result) (radian_steps (from_bits binary32 word)) }
{
    on_word::<Tanf>(word)
}

#[unsafe(no_mangle)]
pub extern "C" fn luhvend_sinpif(word: u32) -> u32
    ensures is { result ≡ on_word sinpif word }
    ensures near { Near (from_bits binary32 word) (from_bits binary32 result) (exact_sine (half_turn_steps (from_bits binary32 word))) }
{
    on_word::<Sinpif>(word)
}

#[unsafe(no_mangle)]
pub extern "C" fn luhvend_cospif(word: u32) -> u32
    ensures is { result ≡ on_word cospif word }
    ensures near { Near (from_bits binary32 word) (from_bits binary32 result) (exact_cosine (half_turn_steps (from_bits binary32 word))) }
{
    on_word::<Cospif>(word)
}

#[unsafe(no_mangle)]
pub extern "C" fn luhvend_tanpif(word: u32) -> u32
    ensures is { result ≡ on_word tanpif word }
    ensures near { HalfOrNear (from_bits binary32 word) (from_bits binary32 result) }
{
    on_word::<Tanpif>(word)
}
