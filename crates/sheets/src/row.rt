ghost use Rattle.std.specs.Prelude.{◌≡◌};
ghost use Rattle.sheets.specs.Rewrite.{entry_row, rewritten};

use crate::book::Entry;
use shares::share::Shares;

// A row: its sample's number, speed in cm/s, heading word, and the word's shares.
// Kept flat: each sum and each list of samples reads a row's own fields, and an entry inside would only lengthen them.
#[derive(Clone, Copy, Debug, Default, PartialEq, Eq)]
pub struct Row {
    pub sample: u16,
    pub speed: u16,
    pub word: u32,
    pub sine: i32,
    pub cosine: i32,
}

impl Row {
    // An entry with its word's shares. The two come apart, here and below: one from the caller, the other from the reader.
    pub fn new(entry: Entry, shares: Shares) -> Row
        ensures { result ≡ entry_row entry shares }
    {
        Row {
            sample: entry.sample,
            speed: entry.speed,
            word: entry.word,
            sine: shares.sine,
            cosine: shares.cosine,
        }
    }

    // All but the sample anew.
    pub fn rewrite(&mut self, entry: Entry, shares: Shares)
        ensures { self.new ≡ rewritten self.old entry shares }
    {
        self.speed = entry.speed;
        self.word = entry.word;
        self.sine = shares.sine;
        self.cosine = shares.cosine;
    }
}
