use crate::row::Row;
use crate::totals::Totals;

// What a call replies that is not refused.
#[derive(Clone, Copy, Debug, PartialEq, Eq)]
pub enum Reply {
    Done,
    Shown(Row),
    Counted(usize),
    Summed(Totals),
}
