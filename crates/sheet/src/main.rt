// Reads a record on standard input and prints its report, or the line of its refusal.
#![tactic(auto)]

use record::report::{ENOUGH, printed};
use std::io;
use std::io::Read;

fn main(rt: HostRuntime) -> io::Result<()> {
    let mut bytes: Vec<u8> = Vec::new(rt.alloc());
    rt.stdin().take(ENOUGH).read_to_end(&mut bytes)?;
    let page = printed(bytes.as_slice());
    print!(rt; "{page}")
}
