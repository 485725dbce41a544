// What a field says: the edition, the mount, or a call on the sheet.
ghost use Rattle.std.specs.Prelude.{◌≡◌, length, Ok, Err, MatchResult};
ghost use Rattle.record.specs.Fields.{length_of, item_of, entry_of, field_at};
ghost use Rattle.record.specs.Record.{said_mount};

use crate::edition::{Edition, Mount};
use crate::fault::Cause;
use crate::field::{high_first, take_field};
use crate::state::{Kind, State, stand};
use sheets::book::{Call, Entry};

// What a field says.
#[derive(Clone, Copy, Debug, PartialEq, Eq)]
pub enum Item {
    Edition(Edition),
    Mount(Mount),
    Put(Call),
}

impl Item {
    // The mount that it says, if it says one.
    pub fn mount(self) -> Option<Mount>
        ensures { result ≡ said_mount (Ok self) }
    {
        match self {
            Item::Mount(mount) => Some(mount),
            Item::Edition(_) | Item::Put(_) => None,
        }
    }
}

// A field that was read: what it says, the state after it, and the bytes after it.
#[derive(Clone, Copy)]
pub struct Taken<'a> {
    pub item: Item,
    pub state: State,
    pub rest: &'a [u8],
}

// Sample, speed and word, each high byte first.
fn entry_of(body: &[u8]) -> Entry
    requires { length body.now ≡ 8 }
    ensures { result ≡ entry_of body.now }
{
    Entry {
        sample: high_first(body[0], body[1]),
        speed: high_first(body[2], body[3]),
        word: u32::from_be_bytes([body[4], body[5], body[6], body[7]]),
    }
}

// What a body of the right length says.
fn item_of(kind: Kind, body: &[u8]) -> Result<Item, Cause>
    requires { length body.now ≡ length_of kind }
    ensures { result ≡ item_of kind body.now }
{
    match kind {
        Kind::Edition => Edition::try_from(body[0]).map(Item::Edition),
        Kind::Mount => Mount::try_from((body[0], body[1])).map(Item::Mount),
        Kind::Enter => Ok(Item::Put(Call::Enter(entry_of(body)))),
        Kind::Correct => Ok(Item::Put(Call::Correct(entry_of(body)))),
        Kind::Withdraw => Ok(Item::Put(Call::Withdraw(high_first(body[0], body[1])))),
    }
}

// The first field, read in a state: is it whole, may its tag stand here, is its length right, are its values allowed?
pub fn read_field(bytes: &[u8], state: State) -> Result<Taken<'_>, Cause>
    ensures { MatchResult result (λ t. field_at state bytes.now ≡ Ok (record { item = t.item; state = t.state; rest = t.rest.now })) (λ e. field_at state bytes.now ≡ Err e) }
{
    let field = take_field(bytes)?;
    let (kind, state) = stand(state, field.tag)?;
    if field.body.len() != kind.length() {
        return Err(Cause::Length);
    }
    let item = item_of(kind, field.body)?;
    Ok(Taken {
        item,
        state,
        rest: field.rest,
    })
}
