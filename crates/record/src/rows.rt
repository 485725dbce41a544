// The rows of a record: field after field, each put to the sheet in its turn.
ghost use Rattle.std.specs.Prelude.{◌≡◌, ℕ, List, Ok};
ghost use Rattle.sheets.specs.declared.book.Entry.{Entry};
ghost use Rattle.sheets.specs.Sheets.{rows, RowsAlone};
ghost use Rattle.sheets.specs.Runs.{Grown};
ghost use Rattle.record.specs.Refusals.{located};
ghost use Rattle.record.specs.Record.{replay, put, made};
ghost use Rattle.record.specs.Reached.{Follows};

use crate::fault::{Cause, RecordFault, at_offset};
use crate::fields::{Field, Fields};
use crate::item::Item;
use readers::reader::Reader;
use sheets::sheet::Sheet;
use sheets::sheet::runs::follow;

// What a field says, put to the sheet.
fn put_item<R: Reader>(sheet: &mut Sheet<R>, item: Item) -> Result<(), Cause>
    ensures made { (offset : ℕ) (book : List Entry) → Grown (R.Reader.answer sheet.old.reader) book (rows sheet.old) → Follows (R.Reader.answer sheet.old.reader) (rows sheet.new) (located offset (put (R.Reader.steps sheet.old.reader) book item)) (located offset result) }
    ensures rest { RowsAlone result sheet.old sheet.new }
{
    if let Item::Put(call) = item {
        follow(sheet, call)?;
    }
    Ok(())
}

// One field, put to the sheet if it says anything.
fn put_field<R: Reader>(sheet: &mut Sheet<R>, field: Field) -> Result<(), RecordFault>
    ensures made { (book : List Entry) → Grown (R.Reader.answer sheet.old.reader) book (rows sheet.old) → Follows (R.Reader.answer sheet.old.reader) (rows sheet.new) (made (R.Reader.steps sheet.old.reader) book field) result }
    ensures rest { RowsAlone result sheet.old sheet.new }
{
    match field.said {
        Ok(item) => at_offset(put_item(sheet, item), field.at),
        Err(cause) => Err(cause.at(field.at)),
    }
}

// Fields of a record, up to the first that is refused.
pub(crate) fn put_record<R: Reader>(
    sheet: &mut Sheet<R>,
    fields: Fields<'_>,
) -> Result<(), RecordFault>
    ensures made { (book : List Entry) → Grown (R.Reader.answer sheet.old.reader) book (rows sheet.old) → Follows (R.Reader.answer sheet.old.reader) (rows sheet.new) (replay (R.Reader.steps sheet.old.reader) book fields.entry) result }
    ensures reader { sheet.new.reader ≡ sheet.old.reader }
{
    for field in fields {
        put_field(sheet, field)?;
    }
    Ok(())
}
