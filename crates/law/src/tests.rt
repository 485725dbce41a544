use crate::asking::{Asked, Reply, run_asked};
use crate::run_both;
use readers::edition::{HalfTurns, Radians};
use readers::mount::{Mirrored, Quarters, Turned};
use sheets::book::{Call, Entry};
use sheets::fault::SheetFault;
use std::test::Fail;

// A quarter turn by the mount, and by the word.
#[test]
fn quarter_turns(rt: HostRuntime) -> Result<(), Fail> {
    let one = Turned::by(Mirrored { below: Radians {} }, Quarters::One);
    let calls = [
        Call::Enter(Entry {
            sample: 7,
            speed: 100,
            word: 0,
        }),
        Call::Totals,
    ];
    let others = [
        Call::Enter(Entry {
            sample: 7,
            speed: 90,
            word: 0,
        }),
        Call::Correct(Entry {
            sample: 7,
            speed: 100,
            word: 0x3f00_0000,
        }),
        Call::Withdraw(8),
    ];
    let both = run_both(one, &calls, HalfTurns {}, &others);
    assert_eq!(rt; both.one.totals().across, 107374182400);
    assert_eq!(rt; both.other.totals().across, 107374182400);
    assert_eq!(rt; both.one.totals().along, both.other.totals().along);
    Ok(())
}

// Entered, counted, withdrawn, and no longer there.
#[test]
fn answers(rt: HostRuntime) -> Result<(), Fail> {
    let call = Call::Enter(Entry {
        sample: 7,
        speed: 100,
        word: 0,
    });
    let mut list = [call, Call::Count, Call::Withdraw(7), Call::RowOf(7)].map(Asked::from);
    let _ = run_asked(HalfTurns {}, &mut list);
    assert_eq!(rt; list[1].answer, Ok(Reply::Counted(1)));
    assert_eq!(rt; list[3].answer.map_err(SheetFault::number), Err(9));
    Ok(())
}
