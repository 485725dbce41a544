// Two sheets over any two readers, and so over every pile of mounts, after any calls.
#![tactic(auto)]

ghost use Rattle.std.specs.Prelude.{◌*◌};
ghost use Rattle.exact.specs.Fraction.{whole, Within};
ghost use Rattle.exact.specs.Value.{integer};
ghost use Rattle.formulas.specs.Six.{Six};
ghost use Rattle.sheets.specs.Book.{standing_after};
ghost use Rattle.sheets.specs.Sheets.{rows, totals_of};
ghost use Rattle.law.specs.Law.{Holds, SameMotion, cms};

use readers::reader::Reader;
use sheets::book::Call;
use sheets::sheet::Sheet;
use sheets::sheet::runs::run;

pub mod asking;
#[cfg(test)]
mod tests;

#[derive(Drop)]
pub struct Both<P, Q> {
    pub one: Sheet<P>,
    pub other: Sheet<Q>,
}

// Each sheet holds what its calls left standing. Where that is the same motion, the totals along differ by at most
// 871 for each cm/s standing, and so do those across. And the six functions keep their distance at every float.
pub fn run_both<P: Reader, Q: Reader>(
    one: P,
    calls: &[Call],
    other: Q,
    others: &[Call],
) -> Both<P, Q>
    ensures one { Holds (P.Reader.steps one) (P.Reader.answer one) calls.now (rows result.one) (totals_of result.one) }
    ensures other { Holds (Q.Reader.steps other) (Q.Reader.answer other) others.now (rows result.other) (totals_of result.other) }
    ensures along { SameMotion (P.Reader.steps one) calls.now (Q.Reader.steps other) others.now → Within (integer (totals_of result.one).along) (integer (totals_of result.other).along) (whole (871 * cms (standing_after (P.Reader.steps one) calls.now))) }
    ensures across { SameMotion (P.Reader.steps one) calls.now (Q.Reader.steps other) others.now → Within (integer (totals_of result.one).across) (integer (totals_of result.other).across) (whole (871 * cms (standing_after (P.Reader.steps one) calls.now))) }
    ensures functions { Six }
{
    let one = run(one, calls);
    let other = run(other, others);
    Both { one, other }
}
