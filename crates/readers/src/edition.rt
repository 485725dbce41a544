// The readers of the record's editions: how a heading word counts the angle.
ghost use Rattle.std.specs.Prelude.{◌≡◌, ◌==◌, from_bits};
ghost use Rattle.std.specs.Float.{binary32};
ghost use Rattle.reducers.specs.Exact.{field};
ghost use Rattle.readers.specs.Editions.{radian_meaning, radian_answer, half_turn_meaning, half_turn_answer};
ghost use Rattle.readers.specs.EditionsLemmas.{radian-keeps, half-turn-keeps};

use crate::reader::{Reader, ReaderFault};
use reducers::ArgumentReducer;
use reducers::pi::ArgumentReducerPi;
use std::num::{f32_from_bits_with_nan, f32_to_f64_with_nan};

// The word's float as an f64.
fn widened(word: u32) -> f64
    ensures { result ≡ from_bits binary32 word }
{
    f32_to_f64_with_nan(f32_from_bits_with_nan(word))
}

// Whether the word is no finite float: its exponent's field is 255.
fn is_not_finite(word: u32) -> bool
    ensures { result ≡ (field word == 255) }
{
    word % 0x8000_0000 / 0x80_0000 == 255
}

// Edition 5: the word is a float that counts radians.
#[derive(Clone, Copy)]
pub struct Radians {}

impl Reader for Radians {
    ghost steps = { λ _ w. radian_meaning w };

    ghost answer = { λ _ w. radian_answer w };

    ghost meaning = { λ r w h. radian-keeps w };

    fn read(&self, word: u32) -> Result<(u8, f64), ReaderFault> {
        if is_not_finite(word) {
            return Err(ReaderFault::NoAngle);
        }
        let reducer = ArgumentReducer {
            x: widened(word),
            x_abs: word % 0x8000_0000,
        };
        let (y, k) = reducer.steps();
        Ok((k, y))
    }
}

// Edition 6: the word is a float that counts half turns.
#[derive(Clone, Copy)]
pub struct HalfTurns {}

impl Reader for HalfTurns {
    ghost steps = { λ _ w. half_turn_meaning w };

    ghost answer = { λ _ w. half_turn_answer w };

    ghost meaning = { λ r w h. half-turn-keeps w };

    fn read(&self, word: u32) -> Result<(u8, f64), ReaderFault> {
        // From 2^24 on every float is even: whole turns.
        const EVEN_BOUND: u32 = 0x4b80_0000;
        if is_not_finite(word) {
            return Err(ReaderFault::NoAngle);
        }
        if word % 0x8000_0000 >= EVEN_BOUND {
            return Ok((0, 0.0));
        }
        let (y, k) = ArgumentReducerPi { x: widened(word) }.steps();
        Ok((k, y))
    }
}
