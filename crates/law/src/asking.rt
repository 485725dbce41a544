// Calls with their answers.
ghost use Rattle.std.specs.Prelude.{◌≡◌, []};
ghost use Rattle.sheets.specs.Sheets.{rows, totals_of};
ghost use Rattle.law.specs.Law.{Holds};
ghost use Rattle.law.specs.Replies.{Run, calls_of, unasked};

use readers::reader::Reader;
use sheets::book::Call;
use sheets::fault::SheetFault;
pub use sheets::reply::Reply;
use sheets::sheet::Sheet;
pub use sheets::sheet::runs::ask;

// A call, and its answer.
#[derive(Clone, Copy, Debug, PartialEq, Eq)]
pub struct Asked {
    pub call: Call,
    pub answer: Result<Reply, SheetFault>,
}

// A call that is still to be asked: the answer beside it is written over.
impl From<Call> for Asked {
    ghost from_gives = { λ call asked. asked ≡ unasked call };

    fn from(call: Call) -> Asked {
        Asked {
            call,
            answer: Ok(Reply::Done),
        }
    }
}

// A new sheet over the reader after the list's calls in their order, each with its answer written beside it.
pub fn run_asked<R: Reader>(reader: R, list: &mut [Asked]) -> Sheet<R>
    ensures calls { calls_of list.new ≡ calls_of list.old }
    ensures answers { Run (R.Reader.steps reader) (R.Reader.answer reader) [] [] list.new (rows result) }
    ensures holds { Holds (R.Reader.steps reader) (R.Reader.answer reader) (calls_of list.old) (rows result) (totals_of result) }
{
    let mut sheet = Sheet::new(reader);
    for asked in list.iter_mut() {
        asked.answer = ask(&mut sheet, asked.call);
    }
    sheet
}
