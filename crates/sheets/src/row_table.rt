// The rows of a sheet with their totals. A clause sees a table as a ledger: its rows and the totals kept.
ghost use Rattle.std.specs.Prelude.{◌≡◌, ◌==◌, ◌^◌, ◌<◌, ◌≤◌, [], ◌∷◌, ◌++◌, length, pos, ◌*ℤ◌, position, slice_get, slice_index_or, slice_set, false, MatchOption, unsigned_abs};
ghost use Rattle.std.specs.List.{swap_remove, ContainsAt as Has};
ghost use Rattle.sheets.specs.declared.row.Row.{Row};
ghost use Rattle.sheets.specs.Rewrite.{rewritten};
ghost use Rattle.sheets.specs.Ledger.{ledger};
ghost use Rattle.sheets.specs.Rows.{row_totals, samples, among};

use crate::book::Entry;
use crate::row::Row;
use crate::totals::Totals;
use arrayvec::ArrayVec;
use shares::share::Shares;
use std::marker::Model;

// How many rows fit.
const MOST_ROWS: usize = 256;

// At most MOST_ROWS rows, and their totals.
#[derive(Drop)]
pub(crate) struct Table {
    rows: ArrayVec<Row, MOST_ROWS>,
    totals: Totals,
}

impl Model for Table {
    ghost use Rattle.std.specs.Prelude.{◌≡◌};
    ghost use Rattle.sheets.specs.Ledger.{Ledger};
    ghost use Rattle.sheets.specs.Rows.{row_totals};

    ghost Value = { Ledger };

    ghost view = { λ t. record { rows = t.rows.items; totals = t.totals } };

    ghost invariant = { λ t. t.totals ≡ row_totals t.rows.items };
}

// A row's part of a total.
fn part(speed: u16, share: i32) -> i64
    ensures value { result ≡ pos speed *ℤ share }
    ensures size { unsigned_abs result ≤ 2 ^ 47 }
{
    i64::from(speed) * i64::from(share)
}

// The totals of the rows, in one pass.
fn totals_of(rows: &[Row]) -> Totals
    requires { length rows.now ≤ 256 }
    ensures { result ≡ row_totals rows.now }
{
    let mut speed: u32 = 0;
    let mut along: i64 = 0;
    let mut across: i64 = 0;
    for row in rows {
        speed += u32::from(row.speed);
        along += part(row.speed, row.cosine);
        across += part(row.speed, row.sine);
    }
    Totals {
        speed,
        along,
        across,
    }
}

impl Table {
    // No rows.
    pub(crate) fn new() -> Table
        ensures { result ≡ ledger [] }
    {
        Table {
            rows: ArrayVec::new(),
            totals: Totals::default(),
        }
    }

    // How many rows stand.
    pub(crate) fn count(&self) -> usize
        ensures { result ≡ length self.now.rows }
    {
        self.rows.len()
    }

    // Whether no more rows fit.
    pub(crate) fn is_full(&self) -> bool
        ensures { result ≡ (length self.now.rows == 256) }
    {
        self.rows.is_full()
    }

    // The totals kept.
    pub(crate) fn totals(&self) -> Totals
        ensures { result ≡ self.now.totals }
    {
        self.totals
    }

    // The place of the sample's row.
    pub(crate) fn place(&self, sample: u16) -> Option<usize>
        ensures { result ≡ position (λ row. row.sample == sample) self.now.rows }
    {
        self.rows.iter().position(|row| row.sample == sample)
    }

    // The sample's row.
    pub(crate) fn find(&self, sample: u16) -> Option<Row>
        ensures { MatchOption result (among sample (samples self.now.rows) ≡ false) (λ row. (row.sample ≡ sample) × Has self.now.rows row) }
    {
        let i = self.place(sample)?;
        self.get(i)
    }

    // The row at a place.
    pub(crate) fn get(&self, i: usize) -> Option<Row>
        ensures { result ≡ slice_get self.now.rows i }
    {
        self.rows.get(i).copied()
    }

    // One more row, at the end.
    pub(crate) fn push(&mut self, row: Row)
        requires { length self.old.rows < 256 }
        ensures { self.new ≡ ledger (self.old.rows ++ row ∷ []) }
    {
        self.rows.push(row);
        self.totals = totals_of(&self.rows);
    }

    // The row at a place, all but its sample anew. The place is one that `place` gave, here and below.
    pub(crate) fn rewrite(&mut self, i: usize, entry: Entry, shares: Shares)
        requires { i < length self.old.rows }
        ensures { (d : Row) → self.new ≡ ledger (slice_set self.old.rows i (rewritten (slice_index_or self.old.rows i d) entry shares)) }
    {
        self.rows[i].rewrite(entry, shares);
        self.totals = totals_of(&self.rows);
    }

    // Takes the row at a place away; the last row comes to its place.
    pub(crate) fn remove(&mut self, i: usize)
        requires { i < length self.old.rows }
        ensures { (d : Row) → self.new ≡ ledger (swap_remove self.old.rows i d) }
    {
        let _ = self.rows.swap_remove(i);
        self.totals = totals_of(&self.rows);
    }
}
