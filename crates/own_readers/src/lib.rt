// Two readers of our own, to show that sheets, mounts, shares and needle serve any reader by its promise alone.
#![tactic(auto)]

ghost use Rattle.own_readers.specs.Own.{whole_steps, whole_answer};
ghost use Rattle.readers.specs.declared.reader.ReaderFault.TheVariants.{NoAngle};
ghost use Rattle.std.specs.Prelude.{None, Err};
ghost use Rattle.own_readers.specs.OwnLemmas.{whole-keeps};

use readers::reader::{Reader, ReaderFault};

#[cfg(test)]
mod tests;

// Knows no angle at all.
#[derive(Clone, Copy)]
pub struct Blind {}

impl Reader for Blind {
    ghost steps = { λ _ _. None };

    ghost answer = { λ _ _. Err NoAngle };

    ghost meaning = { λ r w h. tt };

    fn read(&self, _word: u32) -> Result<(u8, f64), ReaderFault> {
        Err(ReaderFault::NoAngle)
    }
}

// A word counts whole steps.
#[derive(Clone, Copy)]
pub struct WholeSteps {}

impl Reader for WholeSteps {
    ghost steps = { λ _ w. whole_steps w };

    ghost answer = { λ _ w. whole_answer w };

    ghost meaning = { λ r w h. whole-keeps w };

    fn read(&self, word: u32) -> Result<(u8, f64), ReaderFault> {
        Ok(((word % 64) as u8, 0.0))
    }
}
