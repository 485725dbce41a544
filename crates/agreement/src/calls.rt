// The calls that a record's fields say.
ghost use Rattle.std.specs.Prelude.{◌≡◌, IfOk};
ghost use Rattle.record.specs.Record.{fields_of};
ghost use Rattle.record.specs.Outcome.{calls_in};

use record::fields::Fields;
use record::item::Item;
use sheets::book::Call;
use std::alloc::{AllocError, Global};

// In their order, up to the first field that is refused.
pub fn calls_of(heap: Global, bytes: &[u8]) -> Result<Vec<Call>, AllocError>
    ensures { IfOk result (λ v. v.items ≡ calls_in (fields_of bytes.now)) }
{
    let mut calls = Vec::new(heap);
    for field in Fields::of(bytes) {
        if let Ok(Item::Put(call)) = field.said {
            calls.push(call)?;
        }
    }
    Ok(calls)
}
