//! The word store: a buffer of granule records, a word and a mark each.
#![tactic(auto)]

ghost use Rattle.std.specs.Prelude.{◌≡◌, ℕ, length, slice_set};
ghost use Rattle.store.specs.Cells.{within};
ghost use Rattle.words.specs.Records.{meaning, record_cells, records_short, records_kept, records_after};

use capability::refusal::Refusal;
use store::{MOST, Store};

/// A word, and a mark: 0 is untagged, and any other is tagged.
#[derive(Clone, Copy, PartialEq, Eq, Debug, Default)]
pub struct Granule {
    pub word: u64,
    // The rules fix the record. A mark of any number but 0 is tagged, so it is no `bool`.
    pub mark: u8,
}

/// The word and the tag that a record stands for.
impl From<Granule> for (u64, bool) {
    ghost from_gives = { λ granule cell. cell ≡ meaning granule };

    fn from(granule: Granule) -> (u64, bool) {
        (granule.word, granule.mark != 0)
    }
}

/// Granule i is record i.
#[derive(Drop)]
pub struct Words<'a> {
    pub granules: &'a mut [Granule],
}

impl<'a> Store for Words<'a> {
    ghost origin = { λ _. 0 };

    ghost cells = { λ s. record_cells s.granules.now };

    ghost kept = { λ s. records_kept s.granules.ghost_name s.granules.now };

    ghost short = { λ s. records_short s.granules.now };

    fn first(&self) -> u32 {
        0
    }

    /// As many granules as there are records.
    fn count(&self) -> u32 {
        self.granules.len().min(MOST) as u32
    }

    fn get(&self, i: u32) -> Result<(u64, bool), Refusal> {
        let k = self.place(i)?;
        Ok(self.granules[k].into())
    }

    /// Sets one record. Every other stays.
    /// (`fixed`: the first granule number is 0 before and after.)
    fn set(&mut self, i: u32, word: u64, tag: bool) -> Result<(), Refusal>
        ensures outcome { result ≡ within (record_cells self.old.granules.now) i tt }
        ensures after { record_cells self.new.granules.now ≡ slice_set (record_cells self.old.granules.now) i (word, tag) }
        ensures fixed { ◌≡◌ {A = ℕ} 0 0 }
        ensures held { records_kept self.new.granules.ghost_name self.new.granules.now ≡ records_kept self.old.granules.ghost_name self.old.granules.now }
        ensures records { self.new.granules.now ≡ records_after self.old.granules.now i word tag }
    {
        let k = self.place(i)?;
        let mark = u8::from(tag);
        self.granules[k] = Granule { word, mark };
        Ok(())
    }
}
