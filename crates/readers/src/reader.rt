// A reader turns heading words into steps: 64 to a turn, counted k whole ones and a remainder y.
ghost use Rattle.std.specs.Prelude.{◌≡◌, ℕ, ◌^◌, ◌<◌};
ghost use Rattle.readers.specs.Meaning.{Steps, Reading, Keeps};

// Why a word is not read.
#[derive(Clone, Copy, Debug, PartialEq, Eq)]
pub enum ReaderFault {
    NoAngle = 7,
}

impl ReaderFault {
    // Its refusal number.
    pub fn number(self) -> u8
        ensures { result ≡ 7 }
    {
        self as u8
    }
}

pub trait Reader {
    // What a word means: no angle, or its exact steps.
    ghost steps: { Self → ℕ → Steps };

    // What reading a word answers, alike each time.
    ghost answer: { Self → ℕ → Reading };

    // The pair (k, y). Kept a pair: that a reader answers with one is a rule of the project, and each caller takes it apart at once.
    fn read(&self, word: u32) -> Result<(u8, f64), ReaderFault>
        ensures { result ≡ answer self.now word };

    // The promise: the answer is near the meaning, or refuses where there is none.
    ghost meaning: { (r : Self) (w : ℕ) → w < 2 ^ 32 → Keeps (steps r w) (answer r w) };
}
