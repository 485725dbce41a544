// Why a record is refused, and where.
ghost use Rattle.std.specs.Prelude.{◌≡◌};
ghost use Rattle.record.specs.declared.fault.Cause.TheVariants.{Refused, Value};
ghost use Rattle.record.specs.Refusals.{cause_number, located};
ghost use Rattle.record.specs.Page.{refusal_text};

use crate::page::Page;
use itoa::Buffer;
use readers::mount::MountFault;
use sheets::fault::SheetFault;

// A cause, without its place.
#[derive(Clone, Copy, Debug, PartialEq, Eq)]
pub enum Cause {
    // the buffer has fewer than 96 bytes
    Buffer,
    // the record has more than 65,536 bytes
    TooLong,
    // the field is not whole
    Short,
    // its tag may not stand here, or the record is empty
    Tag,
    // its length is not its tag's
    Length,
    // the edition, the quarter turns or the mirror is not allowed
    Value,
    // the sheet's refusal, unaltered
    Refused(SheetFault),
}

impl Cause {
    // Its refusal number. By a match, since one variant carries another fault.
    pub fn number(self) -> u8
        ensures { result ≡ cause_number self }
    {
        match self {
            Cause::Buffer => 1,
            Cause::TooLong => 2,
            Cause::Short => 3,
            Cause::Tag => 4,
            Cause::Length => 5,
            Cause::Value => 6,
            Cause::Refused(fault) => fault.number(),
        }
    }

    // With its place: the offset of the field's tag.
    pub fn at(self, offset: usize) -> RecordFault
        ensures { result ≡ record { cause = self; offset = offset } }
    {
        RecordFault {
            cause: self,
            offset,
        }
    }
}

// By hand, since a clause names the error that a `?` makes.
impl From<SheetFault> for Cause {
    ghost from_gives = { λ e c. c ≡ Refused e };

    fn from(e: SheetFault) -> Cause {
        Cause::Refused(e)
    }
}

// Quarter turns that are none are a value that is not allowed. By hand, since a clause names the error that a `?` makes.
impl From<MountFault> for Cause {
    ghost from_gives = { λ _ c. c ≡ Value };

    fn from(_: MountFault) -> Cause {
        Cause::Value
    }
}

// A cause, with the offset of the field's tag.
#[derive(Clone, Copy, Debug, PartialEq, Eq)]
pub struct RecordFault {
    pub cause: Cause,
    pub offset: usize,
}

impl RecordFault {
    // The line of its refusal.
    pub fn page(&self) -> Page
        ensures { result.bytes ≡ refusal_text self.now }
    {
        let mut page = Page::new();
        page.push_str("refused ");
        page.push_str(Buffer::new().format(self.cause.number()));
        page.push_str(" at ");
        page.push_str(Buffer::new().format(self.offset));
        page.push_str("\n");
        page
    }
}

// The offset is added where the field's place is known.
pub fn at_offset<T>(r: Result<T, Cause>, offset: usize) -> Result<T, RecordFault>
    ensures { result ≡ located offset r }
{
    r.map_err(|cause| cause.at(offset))
}
