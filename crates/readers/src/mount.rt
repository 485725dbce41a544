// Mounts: how a module sits in the car. A mount holds any reader and is a reader again, so mounts pile.
ghost use Rattle.std.specs.Prelude.{◌≡◌, ◌<◌, MatchResult};
ghost use Rattle.readers.specs.Meaning.{turned_steps, turned_answer, mirrored_steps, mirrored_answer};
ghost use Rattle.readers.specs.Mounts.{turned-keeps, mirrored-keeps};
ghost use Rattle.readers.specs.Quarters.{quarter_count, quarters_of};

use crate::reader::{Reader, ReaderFault};

// Why a mount is not made.
#[derive(Clone, Copy, Debug, PartialEq, Eq)]
pub enum MountFault {
    NoQuarter = 6,
}

impl MountFault {
    // Its refusal number.
    pub fn number(self) -> u8
        ensures { result ≡ 6 }
    {
        self as u8
    }
}

// Quarter turns of a module.
#[derive(Clone, Copy, Debug, PartialEq, Eq)]
pub enum Quarters {
    Zero,
    One,
    Two,
    Three,
}

impl Quarters {
    // How many they are.
    pub fn count(self) -> u8
        ensures { result ≡ quarter_count self }
    {
        self as u8
    }
}

impl TryFrom<u8> for Quarters {
    type Error = MountFault;

    ghost try_from_gives = { λ n r. r ≡ quarters_of n };

    fn try_from(n: u8) -> Result<Quarters, MountFault> {
        match n {
            0 => Ok(Quarters::Zero),
            1 => Ok(Quarters::One),
            2 => Ok(Quarters::Two),
            3 => Ok(Quarters::Three),
            _ => Err(MountFault::NoQuarter),
        }
    }
}

// A module turned by quarter turns: its steps and 16 for each quarter.
#[derive(Drop)]
pub struct Turned<R> {
    below: R,
    quarters: Quarters,
}

impl<R> Turned<R> {
    // Turned by these quarters.
    pub fn by(below: R, quarters: Quarters) -> Turned<R>
        ensures below { result.below ≡ below }
        ensures quarters { result.quarters ≡ quarters }
    {
        Turned { below, quarters }
    }
}

impl<R: Drop> Turned<R> {
    // Made for 0 to 3 quarters; refused otherwise. It stays for callers who have a number.
    pub fn new(below: R, quarters: u8) -> Result<Turned<R>, MountFault>
        ensures { MatchResult result (λ m. (m.below ≡ below) × (quarter_count m.quarters ≡ quarters)) (λ _. 3 < quarters) }
    {
        Ok(Turned::by(below, Quarters::try_from(quarters)?))
    }
}

impl<R: Reader> Reader for Turned<R> {
    ghost steps = { λ m w. turned_steps (quarter_count m.quarters) (R.Reader.steps m.below w) };

    ghost answer = { λ m w. turned_answer (quarter_count m.quarters) (R.Reader.answer m.below w) };

    ghost meaning = { λ r w h. turned-keeps (quarter_count r.quarters) (R.Reader.steps r.below w) (R.Reader.answer r.below w) (R.Reader.meaning r.below w h) };

    fn read(&self, word: u32) -> Result<(u8, f64), ReaderFault> {
        let (k, y) = self.below.read(word)?;
        Ok(((k + 16 * self.quarters.count()) % 64, y))
    }
}

// A module read in a mirror: its steps negated.
#[derive(Drop)]
pub struct Mirrored<R> {
    pub below: R,
}

impl<R: Reader> Reader for Mirrored<R> {
    ghost steps = { λ m w. mirrored_steps (R.Reader.steps m.below w) };

    ghost answer = { λ m w. mirrored_answer (R.Reader.answer m.below w) };

    ghost meaning = { λ r w h. mirrored-keeps (R.Reader.steps r.below w) (R.Reader.answer r.below w) (R.Reader.meaning r.below w h) };

    fn read(&self, word: u32) -> Result<(u8, f64), ReaderFault> {
        let (k, y) = self.below.read(word)?;
        Ok(((64 - k) % 64, -y))
    }
}
