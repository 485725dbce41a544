// What is printed of a record, for a caller in C: no page, and a length for its answer.
ghost use Rattle.record.specs.Page.{Printed};

use crate::report::{refusal_line, report};

// Written from the buffer's first byte on; answers its length, or 0 where the buffer has fewer than 96 bytes.
pub fn print(bytes: &[u8], buffer: &mut [u8]) -> usize
    ensures { Printed bytes.now result buffer.old buffer.new }
{
    match report(bytes, buffer) {
        Ok(n) => n,
        Err(fault) => refusal_line(fault, buffer).unwrap_or(0),
    }
}
