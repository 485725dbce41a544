// The fields of a record, one after the other.
ghost use Rattle.std.specs.Prelude.{◌≡◌};
ghost use Rattle.std.specs.Iterator.{YieldsFirst, item_count};
ghost use Rattle.record.specs.Record.{fields_of, first_mount};

use crate::edition::Mount;
use crate::fault::Cause;
use crate::item::{Item, read_field};
use crate::state::State;
use std::marker::Model;

// A field: the offset of its tag, and what it says or why it is refused.
#[derive(Clone, Copy, Debug, PartialEq, Eq)]
pub struct Field {
    pub at: usize,
    pub said: Result<Item, Cause>,
}

// The fields that are left of a record. None comes after one that is refused.
#[derive(Drop)]
pub struct Fields<'a> {
    rest: &'a [u8],
    state: State,
    total: usize,
}

impl<'a> Model for Fields<'a> {
    ghost use Rattle.std.specs.Prelude.{◌≤◌, List, length};
    ghost use Rattle.record.specs.declared.fields.Field.{Field};
    ghost use Rattle.record.specs.Record.{fields};

    ghost Value = { List Field };

    ghost view = { λ f. fields (length f.rest.now) f.state f.total f.rest.now };

    ghost invariant = { λ f. length f.rest.now ≤ f.total };
}

impl<'a> Fields<'a> {
    // All fields of a record.
    pub fn of(bytes: &'a [u8]) -> Fields<'a>
        ensures { result ≡ fields_of bytes.now }
    {
        Fields {
            rest: bytes,
            state: State::Edition,
            total: bytes.len(),
        }
    }

    // The mount that the next field says, if it says one.
    pub(crate) fn mount(&self) -> Option<Mount>
        ensures { result ≡ first_mount self.now }
    {
        match read_field(self.rest, self.state) {
            Ok(taken) => taken.item.mount(),
            Err(_) => None,
        }
    }
}

impl Iterator for Fields<'_> {
    type Item = Field;

    ghost next_gives = { YieldsFirst (λ f. f) };

    ghost remaining = { item_count (λ f. f) };

    fn next(&mut self) -> Option<Field> {
        if self.rest.is_empty() {
            return None;
        }
        let at = self.total - self.rest.len();
        match read_field(self.rest, self.state) {
            Ok(taken) => {
                self.rest = taken.rest;
                self.state = taken.state;
                Some(Field {
                    at,
                    said: Ok(taken.item),
                })
            }
            Err(cause) => {
                self.rest = &[];
                Some(Field {
                    at,
                    said: Err(cause),
                })
            }
        }
    }
}
