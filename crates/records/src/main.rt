// For the bench: a record in hex digits on each line of standard input, and for each its report or the line of its refusal.
#![tactic(auto)]

use record::report::printed;
use std::alloc::{AllocError, Global};
use std::io;
use std::io::{BufRead, BufReader, BufWriter, Write};

const BAD_LINE: &str = "bad line: want the bytes of a record, two hex digits each";

// The byte of two hex digits.
fn byte(pair: &[u8]) -> Option<u8> {
    let [high, low] = pair else {
        return None;
    };
    let high = char::from(*high).to_digit(16)?;
    let low = char::from(*low).to_digit(16)?;
    u8::try_from(high * 16 + low).ok()
}

// The bytes of a line of hex digits. A loop, since a pair that is no byte ends it with None, and a push with an error.
fn bytes_of(heap: Global, line: &[u8]) -> Result<Option<Vec<u8>>, AllocError> {
    let mut bytes = Vec::new(heap);
    for pair in line.chunks(2) {
        match byte(pair) {
            Some(b) => bytes.push(b)?,
            None => return Ok(None),
        }
    }
    Ok(Some(bytes))
}

fn main(rt: HostRuntime) -> io::Result<()> {
    let mut out = BufWriter::new(rt.alloc(), rt.stdout())?;
    for line in BufReader::new(rt.alloc(), rt.stdin())?.split(rt.alloc(), b'\n') {
        let line = line?;
        match bytes_of(rt.alloc(), line.as_slice())? {
            Some(bytes) => {
                let page = printed(bytes.as_slice());
                write!(out, "{page}")?;
            }
            None => writeln!(out, "{BAD_LINE}")?,
        }
    }
    out.flush()
}
