// The needle of the display: the sine and the cosine of one word, in the f32 form.
ghost use Rattle.std.specs.Prelude.{◌≡◌, ◌%◌};
ghost use Rattle.circle.specs.Circle.{exact_sine, exact_cosine};
ghost use Rattle.shares.specs.Needle.{needle_of, Points};

use readers::reader::{Reader, ReaderFault};
use table::sine_and_cosine;

// The pair for one word, refused where the word has no angle. Kept a pair: callers take it apart at once.
pub fn needle<R: Reader>(reader: &R, word: u32) -> Result<(f32, f32), ReaderFault>
    ensures is { result ≡ needle_of (R.Reader.answer reader.now word) }
    ensures near { Points (R.Reader.steps reader.now word) result }
{
    let (k, y) = reader.read(word)?;
    Ok(sine_and_cosine::<f32>(y, k))
}
