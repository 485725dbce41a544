// The module that a record is of: its edition's reader, under its mount. It is a reader like any other.
ghost use Rattle.std.specs.Prelude.{◌≡◌, ◌∷◌};
ghost use Rattle.record.specs.Record.{fields_of, edition_of, mount_of, steps_under, answer_under, edition_steps, edition_answer};
ghost use Rattle.record.specs.Modules.{under-keeps};

use crate::edition::{Edition, Mount};
use crate::fields::{Field, Fields};
use crate::item::Item;
use readers::edition::{HalfTurns, Radians};
use readers::mount::{Mirrored, Turned};
use readers::reader::{Reader, ReaderFault};

// A word by a reader under a mount: an Option with a flag, matched here alone.
fn read_under<R: Reader + Drop>(
    below: R,
    mount: Option<Mount>,
    word: u32,
) -> Result<(u8, f64), ReaderFault>
    ensures { result ≡ answer_under mount (R.Reader.answer below) word }
{
    match mount {
        None => below.read(word),
        Some(m) if m.mirrored => Turned::by(Mirrored { below }, m.quarters).read(word),
        Some(m) => Turned::by(below, m.quarters).read(word),
    }
}

// A reader by what the record says of itself.
#[derive(Clone, Copy, Debug, PartialEq, Eq)]
pub struct Module {
    pub edition: Edition,
    pub mount: Option<Mount>,
}

impl Module {
    // The module of a record's first field and those after it: radians if they name no edition, and no mount if they name none.
    pub(crate) fn opening(first: Field, more: &Fields<'_>) -> Module
        ensures edition { result.edition ≡ edition_of (first ∷ more.now) }
        ensures mount { result.mount ≡ mount_of (first ∷ more.now) }
    {
        let edition = match first.said {
            Ok(Item::Edition(edition)) => edition,
            _ => Edition::Radians,
        };
        Module {
            edition,
            mount: more.mount(),
        }
    }

    // The module of a record's bytes: radians if they name no edition, and no mount if they name none.
    pub fn of(bytes: &[u8]) -> Module
        ensures edition { result.edition ≡ edition_of (fields_of bytes.now) }
        ensures mount { result.mount ≡ mount_of (fields_of bytes.now) }
    {
        let mut fields = Fields::of(bytes);
        match fields.next() {
            Some(first) => Module::opening(first, &fields),
            None => Module {
                edition: Edition::Radians,
                mount: None,
            },
        }
    }
}

impl Reader for Module {
    ghost steps = { λ m w. steps_under m.mount (edition_steps m.edition) w };

    ghost answer = { λ m w. answer_under m.mount (edition_answer m.edition) w };

    ghost meaning = { λ r w h. under-keeps r.mount r.edition w };

    // An edition is one of two, so a match says it plainer than a closure or a trait object would.
    fn read(&self, word: u32) -> Result<(u8, f64), ReaderFault> {
        match self.edition {
            Edition::Radians => read_under(Radians {}, self.mount, word),
            Edition::HalfTurns => read_under(HalfTurns {}, self.mount, word),
        }
    }
}
