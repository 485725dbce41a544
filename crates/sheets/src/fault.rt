ghost use Rattle.std.specs.Prelude.{◌≡◌};
ghost use Rattle.sheets.specs.declared.fault.SheetFault.TheVariants.{Unread};
ghost use Rattle.sheets.specs.Refusals.{sheet_number};

use readers::reader::ReaderFault;

// Why a sheet refuses a call.
#[derive(Clone, Copy, Debug, PartialEq, Eq)]
pub enum SheetFault {
    // the reader's refusal, unaltered
    Unread(ReaderFault),
    // entering: the sample has a row already
    Taken,
    // correcting, withdrawing, row by sample: the sample has no row
    Absent,
    // entering: there are 256 rows
    Full,
    // row at a place: the place is not below the count
    NoPlace,
}

impl SheetFault {
    // Its refusal number. A match, since a variant carries another fault: `as u8` has no number for such an enum.
    pub fn number(self) -> u8
        ensures { result ≡ sheet_number self }
    {
        match self {
            SheetFault::Unread(fault) => fault.number(),
            SheetFault::Taken => 8,
            SheetFault::Absent => 9,
            SheetFault::Full => 10,
            SheetFault::NoPlace => 11,
        }
    }
}

// Kept by hand: what a sheet answers names this fault, and a derived `From` has no clause that does.
impl From<ReaderFault> for SheetFault {
    ghost from_gives = { λ e f. f ≡ Unread e };

    fn from(e: ReaderFault) -> SheetFault {
        SheetFault::Unread(e)
    }
}
