ghost use Rattle.std.specs.Prelude.{◌≡◌, ◌<◌, ◌≤◌, false, [], ◌∷◌, ◌++◌, length, MatchResult, slice_index_or};
ghost use Rattle.std.specs.List.{ContainsAt as Has};
ghost use Rattle.sheets.specs.declared.row.Row.{Row};
ghost use Rattle.sheets.specs.declared.fault.SheetFault.TheVariants.{NoPlace, Absent};
ghost use Rattle.sheets.specs.Rows.{samples, among, speed_of, along_of, across_of};
ghost use Rattle.sheets.specs.Book.{allowed, may_enter, may_correct, may_withdraw};
ghost use Rattle.sheets.specs.Runs.{filled};
ghost use Rattle.sheets.specs.Sheets.{rows, corrected, without, InAnyOrder, RowsAlone};

use crate::book::Entry;
use crate::fault::SheetFault;
use crate::row::Row;
use crate::row_table::Table;
use crate::sheet::Sheet;
use crate::totals::Totals;
use readers::reader::Reader;
use shares::share::shares_of;

impl<R: Reader> Sheet<R> {
    // No rows, over the reader.
    pub fn new(reader: R) -> Sheet<R>
        ensures rows { rows result ≡ [] }
        ensures reader { result.reader ≡ reader }
    {
        Sheet {
            reader,
            table: Table::new(),
        }
    }

    // Adds the entry's row, with the shares of its word.
    pub fn enter(&mut self, entry: Entry) -> Result<(), SheetFault>
        ensures answer { result ≡ may_enter (R.Reader.steps self.old.reader entry.word) (samples (rows self.old)) entry.sample }
        ensures rows { rows self.new ≡ allowed result (rows self.old ++ filled (R.Reader.answer self.old.reader) entry ∷ []) (rows self.old) }
        ensures rest { RowsAlone result self.old self.new }
    {
        let (k, y) = self.reader.read(entry.word)?;
        if self.table.place(entry.sample).is_some() {
            return Err(SheetFault::Taken);
        }
        if self.table.is_full() {
            return Err(SheetFault::Full);
        }
        let shares = shares_of(k, y);
        self.table.push(Row::new(entry, shares));
        Ok(())
    }

    // Gives the sample's row the entry's speed and word, and that word's shares.
    pub fn correct(&mut self, entry: Entry) -> Result<(), SheetFault>
        ensures answer { result ≡ may_correct (R.Reader.steps self.old.reader entry.word) (samples (rows self.old)) entry.sample }
        ensures rows { rows self.new ≡ allowed result (corrected (rows self.old) entry.sample (filled (R.Reader.answer self.old.reader) entry)) (rows self.old) }
        ensures rest { RowsAlone result self.old self.new }
    {
        let (k, y) = self.reader.read(entry.word)?;
        let i = self.table.place(entry.sample).ok_or(SheetFault::Absent)?;
        let shares = shares_of(k, y);
        self.table.rewrite(i, entry, shares);
        Ok(())
    }

    // Removes the sample's row.
    pub fn withdraw(&mut self, sample: u16) -> Result<(), SheetFault>
        ensures answer { result ≡ may_withdraw (samples (rows self.old)) sample }
        ensures rows { InAnyOrder (allowed result (without (rows self.old) sample) (rows self.old)) (rows self.new) }
        ensures rest { RowsAlone result self.old self.new }
    {
        let i = self.table.place(sample).ok_or(SheetFault::Absent)?;
        self.table.remove(i);
        Ok(())
    }

    // The row of the sample.
    pub fn row_of(&self, sample: u16) -> Result<Row, SheetFault>
        ensures { MatchResult result (λ row. (row.sample ≡ sample) × Has (rows self.now) row) (λ e. (e ≡ Absent) × (among sample (samples (rows self.now)) ≡ false)) }
    {
        self.table.find(sample).ok_or(SheetFault::Absent)
    }

    // The row at the place.
    pub fn row_at(&self, place: usize) -> Result<Row, SheetFault>
        ensures { MatchResult result (λ row. (place < length (rows self.now)) × ((d : Row) → row ≡ slice_index_or (rows self.now) place d)) (λ e. (e ≡ NoPlace) × (length (rows self.now) ≤ place)) }
    {
        self.table.get(place).ok_or(SheetFault::NoPlace)
    }

    // How many rows stand.
    pub fn count(&self) -> usize
        ensures { result ≡ length (rows self.now) }
    {
        self.table.count()
    }

    // The totals of the rows.
    pub fn totals(&self) -> Totals
        ensures speed { result.speed ≡ speed_of (rows self.now) }
        ensures along { result.along ≡ along_of (rows self.now) }
        ensures across { result.across ≡ across_of (rows self.now) }
    {
        self.table.totals()
    }
}
