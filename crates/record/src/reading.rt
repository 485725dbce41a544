// A whole record: its rows on a sheet over its own module.
ghost use Rattle.std.specs.Prelude.{◌≡◌};
ghost use Rattle.record.specs.Record.{tallied, record_tally};

use crate::fault::{Cause, RecordFault};
use crate::fields::Fields;
use crate::module::Module;
use crate::rows::put_record;
use crate::tally::Tally;
use sheets::sheet::Sheet;

// The rows of these fields, on a new sheet over the module. Apart from `read_record`, since a function pays at its entry
// for a sheet that it holds: so a record whose first field is refused has none.
fn tally_over(reader: Module, fields: Fields<'_>) -> Result<Tally, RecordFault>
    ensures { result ≡ tallied reader.edition reader.mount fields.entry }
{
    let mut sheet = Sheet::new(reader);
    put_record(&mut sheet, fields)?;
    Ok(Tally {
        edition: reader.edition,
        rows: sheet.count() as u16,
        totals: sheet.totals(),
    })
}

// What the record comes to, or where it is refused.
pub fn read_record(bytes: &[u8]) -> Result<Tally, RecordFault>
    ensures { result ≡ record_tally bytes.now }
{
    let mut fields = Fields::of(bytes);
    let Some(first) = fields.next() else {
        return Err(Cause::Tag.at(0));
    };
    if let Err(cause) = first.said {
        return Err(cause.at(first.at));
    }
    let reader = Module::opening(first, &fields);
    tally_over(reader, Fields::of(bytes))
}
