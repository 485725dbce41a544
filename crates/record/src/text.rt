// Text written into a lent buffer, each piece after the one before. Not by way of a page, whose copies would need a
// `memcpy` of whoever links the archive for C.
ghost use Rattle.std.specs.Prelude.{◌≡◌, ℕ, ◌+◌, ◌<◌, ◌≤◌, length, decimal};
ghost use Rattle.std.specs.Fmt.{signed_decimal};
ghost use Rattle.record.specs.Page.{pasted, line};

// A text at a place; answers the place after it.
pub(crate) fn put(buffer: &mut [u8], at: usize, text: &[u8]) -> usize
    requires { at + length text.now ≤ length buffer.old }
    ensures page { buffer.new ≡ pasted buffer.old at text.now }
    ensures end { result ≡ at + length text.now }
{
    let end = at + text.len();
    buffer[at..end].copy_from_slice(text);
    end
}

// A number in decimal.
pub(crate) fn put_decimal(buffer: &mut [u8], at: usize, n: u64) -> usize
    requires { at + length (decimal n) ≤ length buffer.old }
    ensures page { buffer.new ≡ pasted buffer.old at (decimal n) }
    ensures end { result ≡ at + length (decimal n) }
{
    let digit = [(n % 10) as u8 + 48];
    if n < 10 {
        put(buffer, at, &digit)
    } else {
        let next = put_decimal(buffer, at, n / 10);
        put(buffer, next, &digit)
    }
}

// A number in decimal, with `-` before it where it is negative.
pub(crate) fn put_signed(buffer: &mut [u8], at: usize, z: i64) -> usize
    requires { at + length (signed_decimal z) ≤ length buffer.old }
    ensures page { buffer.new ≡ pasted buffer.old at (signed_decimal z) }
    ensures end { result ≡ at + length (signed_decimal z) }
{
    if z < 0 {
        let next = put(buffer, at, b"-");
        put_decimal(buffer, next, z.unsigned_abs())
    } else {
        put_decimal(buffer, at, z.unsigned_abs())
    }
}

// A line with a number.
pub(crate) fn put_line(buffer: &mut [u8], at: usize, word: &[u8], n: u64) -> usize
    requires { at + length (line word.now (decimal n)) ≤ length buffer.old }
    ensures page { buffer.new ≡ pasted buffer.old at (line word.now (decimal n)) }
    ensures end { result ≡ at + length (line word.now (decimal n)) }
{
    let a = put(buffer, at, word);
    let b = put_decimal(buffer, a, n);
    put(buffer, b, b"\n")
}

// A line with a signed number.
pub(crate) fn put_signed_line(buffer: &mut [u8], at: usize, word: &[u8], z: i64) -> usize
    requires { at + length (line word.now (signed_decimal z)) ≤ length buffer.old }
    ensures page { buffer.new ≡ pasted buffer.old at (line word.now (signed_decimal z)) }
    ensures end { result ≡ at + length (line word.now (signed_decimal z)) }
{
    let a = put(buffer, at, word);
    let b = put_signed(buffer, a, z);
    put(buffer, b, b"\n")
}
