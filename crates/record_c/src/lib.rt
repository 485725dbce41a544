// What is printed of a record, for Rust and C.
#![tactic(auto)]

ghost use Rattle.record.specs.Page.{Printed};

use record::print::print;

// Written from the buffer's first byte on; answers its length, or 0 where the buffer has fewer than 96 bytes.
#[unsafe(no_mangle)]
pub extern "C" fn luhvend_report(bytes: &[u8], buffer: &mut [u8]) -> usize
    ensures { Printed bytes.now result buffer.old buffer.new }
{
    print(bytes, buffer)
}
