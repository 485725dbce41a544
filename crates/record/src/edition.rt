// How a record's headings count, and how its module sits.
ghost use Rattle.std.specs.Prelude.{◌≡◌};
ghost use Rattle.record.specs.Fields.{edition_number, edition_from, mount_from};

use crate::fault::Cause;
use readers::mount::Quarters;

// The edition of a record, by its number.
#[derive(Clone, Copy, Debug, PartialEq, Eq)]
pub enum Edition {
    Radians = 5,
    HalfTurns = 6,
}

impl Edition {
    // Its number, 5 or 6.
    pub fn number(self) -> u8
        ensures { result ≡ edition_number self }
    {
        self as u8
    }
}

// The edition of a number; a value that is not allowed otherwise.
impl TryFrom<u8> for Edition {
    type Error = Cause;

    ghost try_from_gives = { λ n r. r ≡ edition_from n };

    fn try_from(n: u8) -> Result<Edition, Cause> {
        match n {
            5 => Ok(Edition::Radians),
            6 => Ok(Edition::HalfTurns),
            _ => Err(Cause::Value),
        }
    }
}

// The quarter turns of a module, and whether it is mirrored below them.
#[derive(Clone, Copy, Debug, PartialEq, Eq)]
pub struct Mount {
    pub quarters: Quarters,
    pub mirrored: bool,
}

// The mount of a body's two bytes: 0 to 3 quarter turns, and 0 or 1; values that are not allowed otherwise.
impl TryFrom<(u8, u8)> for Mount {
    type Error = Cause;

    ghost try_from_gives = { λ b r. r ≡ mount_from b.0 b.1 };

    fn try_from(body: (u8, u8)) -> Result<Mount, Cause> {
        let quarters = Quarters::try_from(body.0)?;
        let mirrored = match body.1 {
            0 => false,
            1 => true,
            _ => return Err(Cause::Value),
        };
        Ok(Mount { quarters, mirrored })
    }
}
