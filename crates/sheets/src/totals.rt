// The totals of a sheet: cm/s, and along and across the heading in units of 2^-30 cm/s.
#[derive(Clone, Copy, Debug, Default, PartialEq, Eq)]
pub struct Totals {
    pub speed: u32,
    pub along: i64,
    pub across: i64,
}
