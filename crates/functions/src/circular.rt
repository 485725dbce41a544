ghost use Rattle.std.specs.Prelude.{◌≡◌, T, Float, from_bits};
ghost use Rattle.std.specs.Float.{binary32};
ghost use Rattle.std.specs.Float.Ieee.{fits};
ghost use Rattle.formulas.specs.Words.{on_word};

use std::num::{f32_from_bits_with_nan, f32_to_bits_with_nan};

// One of the six functions: what it answers, and how near the exact one that is.
pub trait Circular {
    // What it answers at a float.
    ghost answer: { Float → Float };

    // That an answer at a float is near the exact one.
    ghost near: { Float → Float → Type 0 };

    // From word to word. A NaN's word is 7fc00000.
    fn at(word: u32) -> u32
        ensures { result ≡ on_word answer word };

    // What it answers at an f32 is one.
    ghost stays: { (x : Float) → T (fits binary32 x) → T (fits binary32 (answer x)) };

    // What it answers at an f32 is near.
    ghost keeps: { (x : Float) → T (fits binary32 x) → near x (answer x) };
}

// The function on words, near the exact one as on floats. A NaN's word is 7fc00000.
pub fn on_word<F: Circular>(word: u32) -> u32
    ensures is { result ≡ on_word F.answer word }
    ensures near { F.near (from_bits binary32 word) (from_bits binary32 result) }
{
    F::at(word)
}

// The function on floats, by way of words.
pub fn on_float<F: Circular>(x: f32) -> f32
    ensures is { result ≡ F.answer x }
    ensures near { F.near x result }
{
    f32_from_bits_with_nan(F::at(f32_to_bits_with_nan(x)))
}
