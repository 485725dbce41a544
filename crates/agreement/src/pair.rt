// Two records on two sheets: what both sheets then say.
ghost use Rattle.std.specs.Prelude.{IfOk};
ghost use Rattle.record.specs.Record.{fields_of};
ghost use Rattle.record.specs.Outcome.{steps_of, calls_in};
ghost use Rattle.agreement.specs.Compared.{Compared};

use crate::calls::calls_of;
use law::run_both;
use readers::reader::Reader;
use record::module::Module;
use sheets::book::Call;
use sheets::totals::Totals;
use std::alloc::{AllocError, Global};

// The totals of two sheets.
#[derive(Clone, Copy, Debug, PartialEq, Eq)]
pub struct Pair {
    pub one: Totals,
    pub other: Totals,
}

// On sheets over any two readers. Apart from `compare`, so that it is said of every two.
fn totals_over<P: Reader + Drop, Q: Reader + Drop>(
    one: P,
    calls: &[Call],
    other: Q,
    others: &[Call],
) -> Pair
    ensures { Compared (P.Reader.steps one) calls.now (Q.Reader.steps other) others.now result.one result.other }
{
    let both = run_both(one, calls, other, others);
    Pair {
        one: both.one.totals(),
        other: both.other.totals(),
    }
}

// The totals of both, each record on a sheet over its own module.
pub fn compare(heap: Global, one: &[u8], other: &[u8]) -> Result<Pair, AllocError>
    ensures { IfOk result (λ p. Compared (steps_of one.now) (calls_in (fields_of one.now)) (steps_of other.now) (calls_in (fields_of other.now)) p.one p.other) }
{
    let calls = calls_of(heap, one)?;
    let others = calls_of(heap, other)?;
    Ok(totals_over(
        Module::of(one),
        calls.as_slice(),
        Module::of(other),
        others.as_slice(),
    ))
}
