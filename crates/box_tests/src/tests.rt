use readers::edition::{HalfTurns, Radians};
use readers::mount::{MountFault, Quarters, Turned};
use readers::reader::ReaderFault;
use record::fault::{Cause, RecordFault};
use record::report::{refusal_line, report};
use shares::needle::needle;
use sheets::book::Entry;
use sheets::fault::SheetFault;
use sheets::sheet::Sheet;

const RECORD: [u8; 26] = [
    1, 0, 1, 6, 3, 0, 8, 0, 1, 3, 0xe8, 0, 0, 0, 0, 3, 0, 8, 0, 2, 1, 0xf4, 0x3f, 0, 0, 0,
];

// A refusal's number and place.
fn numbered(fault: RecordFault) -> (u8, usize) {
    (fault.cause.number(), fault.offset)
}

// A buffer of 95 bytes is refused and left as it was; one of 96 has the report and nothing behind it.
#[test]
fn buffers(rt: HostRuntime) {
    let mut small = [7u8; 95];
    assert_eq!(rt; report(&RECORD, &mut small).map_err(numbered), Err((1, 0)));
    assert!(rt; small.iter().all(|b| *b == 7));
    let mut enough = [7u8; 96];
    assert_eq!(rt; report(&RECORD, &mut enough).map_err(numbered), Ok(68));
    assert_eq!(rt; enough[0], b'e');
    assert_eq!(rt; enough[67], b'\n');
    assert_eq!(rt; enough[68], 7);
}

// The refusal line likewise.
#[test]
fn refusal_lines(rt: HostRuntime) {
    let fault = Cause::Tag.at(12);
    let mut small = [7u8; 95];
    assert_eq!(rt;
        refusal_line(fault, &mut small).map_err(numbered),
        Err((1, 0))
    );
    assert_eq!(rt; small[0], 7);
    let mut enough = [7u8; 96];
    assert_eq!(rt; refusal_line(fault, &mut enough).map_err(numbered), Ok(16));
    assert_eq!(rt; enough[8], b'4');
    assert_eq!(rt; enough[15], b'\n');
    assert_eq!(rt; enough[16], 7);
}

// Four quarter turns are refused, three are made.
#[test]
fn mounts(rt: HostRuntime) {
    assert_eq!(rt;
        Turned::new(Radians {}, 4).err().map(MountFault::number),
        Some(6)
    );
    assert!(rt; Turned::new(Radians {}, 3).is_ok());
    assert_eq!(rt; Quarters::try_from(3), Ok(Quarters::Three));
}

// A row at a heading of zero.
fn straight(sample: u16) -> Entry {
    Entry {
        sample,
        speed: 1,
        word: 0,
    }
}

// 256 rows stand, one more does not; then the questions at their limits.
#[test]
fn rows(rt: HostRuntime) {
    let mut sheet = Sheet::new(HalfTurns {});
    for i in 0..256u16 {
        assert!(rt; sheet.enter(straight(i)).is_ok());
    }
    assert_eq!(rt; sheet.count(), 256);
    assert_eq!(rt;
        sheet.enter(straight(256)).map_err(SheetFault::number),
        Err(10)
    );
    assert_eq!(rt;
        sheet.enter(straight(255)).map_err(SheetFault::number),
        Err(8)
    );
    assert_eq!(rt; sheet.row_at(256).map_err(SheetFault::number), Err(11));
    assert_eq!(rt; sheet.row_of(256).map_err(SheetFault::number), Err(9));
    assert_eq!(rt; sheet.totals().speed, 256);
    assert!(rt; sheet.withdraw(7).is_ok());
    assert!(rt; sheet.row_at(255).is_err());
    assert_eq!(rt; sheet.totals().speed, 255);
}

// The needle at rest, and at a word without an angle.
#[test]
fn needles(rt: HostRuntime) {
    assert_eq!(rt;
        needle(&HalfTurns {}, 0).map_err(ReaderFault::number),
        Ok((0.0, 1.0))
    );
    assert_eq!(rt;
        needle(&Radians {}, 0x7f80_0000).map_err(ReaderFault::number),
        Err(7)
    );
}
