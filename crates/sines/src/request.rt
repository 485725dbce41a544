ghost use Rattle.std.specs.Prelude.{◌≡◌, length};
ghost use Rattle.sines.specs.Reading.{digit_of, word_of, Named, Read, result_of};

use functions::{Cosf, Cospif, Sinf, Sinpif, Tanf, Tanpif, on_word};

// The six functions.
#[derive(Clone, Copy, Drop)]
pub enum Function {
    Sinf,
    Cosf,
    Tanf,
    Sinpif,
    Cospif,
    Tanpif,
}

impl Function {
    // The function of that name.
    // Kept by hand: TryFrom would name an error that says no more than None.
    pub fn named(name: &[u8]) -> Option<Function>
        ensures { Named name.now result }
    {
        match name {
            b"sinf" => Some(Function::Sinf),
            b"cosf" => Some(Function::Cosf),
            b"tanf" => Some(Function::Tanf),
            b"sinpif" => Some(Function::Sinpif),
            b"cospif" => Some(Function::Cospif),
            b"tanpif" => Some(Function::Tanpif),
            _ => None,
        }
    }
}

// A word and the function that is asked of it.
#[derive(Clone, Copy, Drop)]
pub struct Request {
    pub function: Function,
    pub word: u32,
}

impl Request {
    // The line `NAME WORD`: a name, a space and eight hex digits.
    pub fn read(line: &[u8]) -> Option<Request>
        ensures { Read line.now result }
    {
        let (name, rest) = line.split_at(line.len().checked_sub(9)?);
        let function = Function::named(name)?;
        let word = word_of(rest.strip_prefix(b" ")?)?;
        Some(Request { function, word })
    }

    // The function's word at the word.
    // Kept by hand: the six are a closed set, and each arm calls its own type's function, with no table at run time.
    pub fn result(self) -> u32
        ensures { result ≡ result_of self }
    {
        match self.function {
            Function::Sinf => on_word::<Sinf>(self.word),
            Function::Cosf => on_word::<Cosf>(self.word),
            Function::Tanf => on_word::<Tanf>(self.word),
            Function::Sinpif => on_word::<Sinpif>(self.word),
            Function::Cospif => on_word::<Cospif>(self.word),
            Function::Tanpif => on_word::<Tanpif>(self.word),
        }
    }
}

// The value of a hex digit, in either case.
fn digit(b: u8) -> Option<u32>
    ensures { result ≡ digit_of b }
{
    char::from(b).to_digit(16)
}

// The word that eight hex digits write. Not by `from_str_radix`, which takes a sign for a digit.
fn word_of(text: &[u8]) -> Option<u32>
    requires { length text.now ≡ 8 }
    ensures { result ≡ word_of 0 text.now }
{
    text.iter()
        .try_fold(0, |word: u32, b| Some(word << 4 | digit(*b)?))
}
