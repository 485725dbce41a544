// A report of a record, or the line of its refusal, in a lent buffer or as a page.
ghost use Rattle.std.specs.Prelude.{◌≡◌, ◌≤◌, length};
ghost use Rattle.record.specs.Outcome.{Means};
ghost use Rattle.record.specs.Page.{pasted, lines, refusal, outcome_of, text_of, Reported, Told};

use crate::edition::Edition;
use crate::fault::{Cause, RecordFault};
use crate::page::Page;
use crate::reading::read_record;
use crate::tally::Tally;
use crate::text::{put, put_decimal, put_line, put_signed_line};

// The fewest bytes of a buffer.
pub const ROOM: usize = 96;

// The most bytes of a record.
pub const LONGEST: usize = 65_536;

// One byte more than a record may have: what is longer is refused whatever follows.
pub const ENOUGH: u64 = LONGEST as u64 + 1;

// What a record comes to: its numbers, or why it is refused. Has it at most 65,536 bytes, then its own questions.
pub fn outcome(bytes: &[u8]) -> Result<Tally, RecordFault>
    ensures is { result ≡ outcome_of 96 bytes.now }
    ensures means { Means 96 bytes.now (outcome_of 96 bytes.now) }
{
    if bytes.len() > LONGEST {
        return Err(Cause::TooLong.at(0));
    }
    read_record(bytes)
}

// The five lines, in a lent buffer.
fn write_lines(
    buffer: &mut [u8],
    edition: Edition,
    rows: u16,
    speed: u32,
    along: i64,
    across: i64,
) -> usize
    requires { 96 ≤ length buffer.old }
    ensures page { buffer.new ≡ pasted buffer.old 0 (lines edition rows speed along across) }
    ensures end { result ≡ length (lines edition rows speed along across) }
{
    let a = put_line(buffer, 0, b"edition ", edition.number() as u64);
    let b = put_line(buffer, a, b"rows ", rows as u64);
    let c = put_line(buffer, b, b"speed ", speed as u64);
    let d = put_signed_line(buffer, c, b"along ", along);
    put_signed_line(buffer, d, b"across ", across)
}

// The report of a record, from the first byte of a lent buffer on, as C lends it, and its length; a refusal writes nothing.
// The first no decides; the printed totals are within 33 units for each cm/s standing of the exact ones.
pub fn report(bytes: &[u8], buffer: &mut [u8]) -> Result<usize, RecordFault>
    ensures outcome { Reported (outcome_of (length buffer.old) bytes.now) result buffer.old buffer.new }
    ensures means { Means (length buffer.old) bytes.now (outcome_of (length buffer.old) bytes.now) }
{
    if buffer.len() < ROOM {
        return Err(Cause::Buffer.at(0));
    }
    let tally = outcome(bytes)?;
    Ok(write_lines(
        buffer,
        tally.edition,
        tally.rows,
        tally.totals.speed,
        tally.totals.along,
        tally.totals.across,
    ))
}

// The line of a refusal with this number at this place, in a lent buffer.
fn write_refusal(buffer: &mut [u8], number: u8, offset: usize) -> usize
    requires { 96 ≤ length buffer.old }
    ensures page { buffer.new ≡ pasted buffer.old 0 (refusal number offset) }
    ensures end { result ≡ length (refusal number offset) }
{
    let a = put(buffer, 0, b"refused ");
    let b = put_decimal(buffer, a, number as u64);
    let c = put(buffer, b, b" at ");
    let d = put_decimal(buffer, c, offset as u64);
    put(buffer, d, b"\n")
}

// The line of a refusal, from the first byte of a lent buffer on, as C lends it, and its length.
pub fn refusal_line(fault: RecordFault, buffer: &mut [u8]) -> Result<usize, RecordFault>
    ensures { Told fault result buffer.old buffer.new }
{
    if buffer.len() < ROOM {
        return Err(Cause::Buffer.at(0));
    }
    Ok(write_refusal(buffer, fault.cause.number(), fault.offset))
}

// What is printed of a record: its report, or the line of its refusal.
pub fn printed(bytes: &[u8]) -> Page
    ensures is { result.bytes ≡ text_of (outcome_of 96 bytes.now) }
    ensures means { Means 96 bytes.now (outcome_of 96 bytes.now) }
{
    match outcome(bytes) {
        Ok(tally) => tally.page(),
        Err(fault) => fault.page(),
    }
}
