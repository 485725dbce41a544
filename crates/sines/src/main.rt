#![tactic(auto)]

mod request;

use request::Request;
use std::io;
use std::io::{BufRead, BufReader, BufWriter, Write};

const BAD_LINE: &str =
    "bad line: want NAME WORD, NAME one of sinf cosf tanf sinpif cospif tanpif, WORD eight hex digits";

// Writes the answer to one line.
fn answer<W: Write + Drop>(out: &mut BufWriter<W>, line: &[u8]) -> io::Result<()> {
    match Request::read(line) {
        Some(request) => {
            let result = request.result();
            out.write_all(line)?;
            writeln!(out, " {result:08x}")
        }
        None => writeln!(out, "{BAD_LINE}"),
    }
}

fn main(rt: HostRuntime) -> io::Result<()> {
    let mut out = BufWriter::new(rt.alloc(), rt.stdout())?;
    for line in BufReader::new(rt.alloc(), rt.stdin())?.split(rt.alloc(), b'\n') {
        let line = line?;
        answer(&mut out, line.as_slice())?;
    }
    out.flush()
}
