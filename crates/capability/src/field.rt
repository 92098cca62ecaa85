//! The fields of a word.
ghost use Rattle.std.specs.Prelude.{◌≡◌};
ghost use Rattle.capability.specs.Fields.{number_in, placed};

/// A field of a word: its lowest bit, and the largest number in it.
#[derive(Clone, Copy, PartialEq, Eq, Debug)]
pub struct Field {
    pub low: u32,
    pub largest: u64,
}

impl Field {
    /// The number in this field of a word.
    pub fn of(self, word: u64) -> u64
        ensures { result ≡ number_in self word }
    {
        let number = word.wrapping_shr(self.low);
        match self.largest.checked_add(1) {
            Some(count) => number % count,
            None => number,
        }
    }

    /// A number in its place in the word.
    pub fn put(self, number: u64) -> u64
        ensures { result ≡ placed self number }
    {
        number.wrapping_shl(self.low)
    }
}
