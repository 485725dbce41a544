// A field cut off a record: a tag byte, a length of two bytes, high byte first, and a body.
ghost use Rattle.std.specs.Prelude.{◌≡◌, ◌+◌, ◌*◌, Ok, Err, MatchResult};
ghost use Rattle.record.specs.Fields.{cut};

use crate::fault::Cause;

// A field taken apart, with the bytes after it.
#[derive(Clone, Copy)]
pub struct Cut<'a> {
    pub tag: u8,
    pub body: &'a [u8],
    pub rest: &'a [u8],
}

// Two bytes as a number, the high one first.
pub fn high_first(a: u8, b: u8) -> u16
    ensures { result ≡ 256 * a + b }
{
    u16::from_be_bytes([a, b])
}

// The first field taken off, where it is whole.
pub fn take_field(bytes: &[u8]) -> Result<Cut<'_>, Cause>
    ensures { MatchResult result (λ f. cut bytes.now ≡ Ok (record { tag = f.tag; body = f.body.now; rest = f.rest.now })) (λ e. cut bytes.now ≡ Err e) }
{
    let [tag, hi, lo, rest @ ..] = bytes else {
        return Err(Cause::Short);
    };
    let n = usize::from(high_first(*hi, *lo));
    if rest.len() < n {
        return Err(Cause::Short);
    }
    let (body, rest) = rest.split_at(n);
    Ok(Cut {
        tag: *tag,
        body,
        rest,
    })
}
