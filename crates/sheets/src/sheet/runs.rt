ghost use Rattle.std.specs.Prelude.{◌≡◌};
ghost use Rattle.sheets.specs.Book.{asked, standing_after};
ghost use Rattle.sheets.specs.Rows.{samples};
ghost use Rattle.sheets.specs.Sheets.{rows, RowsAlone};
ghost use Rattle.sheets.specs.Replies.{Answer};
ghost use Rattle.sheets.specs.Runs.{Grown, GrownBy};

use crate::book::Call;
use crate::fault::SheetFault;
use crate::reply::Reply;
use crate::sheet::Sheet;
use readers::reader::Reader;

// One call.
pub fn ask<R: Reader>(sheet: &mut Sheet<R>, call: Call) -> Result<Reply, SheetFault>
    ensures answer { Answer (R.Reader.steps sheet.old.reader) (rows sheet.old) call result (rows sheet.new) }
    ensures grown { GrownBy (R.Reader.steps sheet.old.reader) (R.Reader.answer sheet.old.reader) call (rows sheet.old) (rows sheet.new) }
    ensures rest { RowsAlone result sheet.old sheet.new }
{
    match call {
        Call::Enter(entry) => sheet.enter(entry).map(|()| Reply::Done),
        Call::Correct(entry) => sheet.correct(entry).map(|()| Reply::Done),
        Call::Withdraw(sample) => sheet.withdraw(sample).map(|()| Reply::Done),
        Call::RowOf(sample) => sheet.row_of(sample).map(Reply::Shown),
        Call::RowAt(place) => sheet.row_at(place).map(Reply::Shown),
        Call::Count => Ok(Reply::Counted(sheet.count())),
        Call::Totals => Ok(Reply::Summed(sheet.totals())),
    }
}

// One call, and whether it got a yes. What a question answers is let go here.
pub fn follow<R: Reader>(sheet: &mut Sheet<R>, call: Call) -> Result<(), SheetFault>
    ensures answer { result ≡ asked (R.Reader.steps sheet.old.reader) (samples (rows sheet.old)) call }
    ensures grown { GrownBy (R.Reader.steps sheet.old.reader) (R.Reader.answer sheet.old.reader) call (rows sheet.old) (rows sheet.new) }
    ensures rest { RowsAlone result sheet.old sheet.new }
{
    ask(sheet, call).map(|_| ())
}

// A new sheet over the reader, after the calls in their order.
pub fn run<R: Reader>(reader: R, calls: &[Call]) -> Sheet<R>
    ensures grown { Grown (R.Reader.answer reader) (standing_after (R.Reader.steps reader) calls.now) (rows result) }
    ensures reader { result.reader ≡ reader }
{
    let mut sheet = Sheet::new(reader);
    for call in calls {
        let _ = follow(&mut sheet, *call);
    }
    sheet
}
