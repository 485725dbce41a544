use crate::{Blind, WholeSteps};
use law::run_both;
use readers::edition::HalfTurns;
use readers::mount::{Mirrored, Quarters, Turned};
use readers::reader::ReaderFault;
use shares::needle::needle;
use sheets::book::{Call, Entry};
use sheets::fault::SheetFault;
use sheets::sheet::Sheet;
use std::test::Fail;

// A pile of mounts over whole steps against half turns under the same pile: 8 steps are a quarter of a half turn.
#[test]
fn a_reader_of_our_own_under_mounts(rt: HostRuntime) -> Result<(), Fail> {
    let one = Turned::by(
        Mirrored {
            below: WholeSteps {},
        },
        Quarters::Three,
    );
    let other = Turned::by(
        Mirrored {
            below: HalfTurns {},
        },
        Quarters::Three,
    );
    let calls = [Call::Enter(Entry {
        sample: 1,
        speed: 1000,
        word: 8,
    })];
    let others = [Call::Enter(Entry {
        sample: 1,
        speed: 1000,
        word: 0x3e80_0000,
    })];
    let both = run_both(one, &calls, other, &others);
    let a = both.one.totals();
    let b = both.other.totals();
    assert_eq!(rt; a.along, b.along);
    assert_eq!(rt; a.across, b.across);
    assert_eq!(rt; a.along, -759_250_112_000);
    Ok(())
}

// A sheet over a reader without angles refuses every word, and changes nothing.
#[test]
fn a_reader_without_angles(rt: HostRuntime) -> Result<(), Fail> {
    let mut sheet = Sheet::new(Turned::by(Blind {}, Quarters::One));
    let entry = Entry {
        sample: 1,
        speed: 2,
        word: 3,
    };
    assert_eq!(rt; sheet.enter(entry).map_err(SheetFault::number), Err(7));
    assert_eq!(rt; sheet.count(), 0);
    assert_eq!(rt;
        needle(&Blind {}, 0)
            .map(|_| ())
            .map_err(ReaderFault::number),
        Err(7)
    );
    Ok(())
}
