//! The flat store: a data buffer, eight bytes to a granule, and a tag buffer, one bit to a granule.
#![tactic(auto)]

ghost use Rattle.std.specs.Prelude.{◌≡◌, ℕ, length, slice_set};
ghost use Rattle.store.specs.Cells.{within};
ghost use Rattle.flat.specs.Flat.{flat_cells, flat_short, flat_kept, data_after, tags_after};

mod buffers;

use buffers::{put_tag, put_word, tag_at, word_at};
use capability::refusal::Refusal;
use store::{MOST, Store};

/// Granule i is the eight bytes from 8·i of the data, and bit i modulo 8 of tag byte i / 8.
#[derive(Drop)]
pub struct Flat<'a> {
    // The rules fix a data buffer and a tag buffer, which are lent apart.
    pub data: &'a mut [u8],
    pub tags: &'a mut [u8],
}

impl<'a> Store for Flat<'a> {
    ghost origin = { λ _. 0 };

    ghost cells = { λ s. flat_cells s.«data».now s.tags.now };

    ghost kept = { λ s. flat_kept s.«data».ghost_name s.tags.ghost_name s.«data».now s.tags.now };

    ghost short = { λ s. flat_short s.«data».now s.tags.now };

    fn first(&self) -> u32 {
        0
    }

    /// As many granules as fit both buffers.
    fn count(&self) -> u32 {
        let words = self.data.len() / 8;
        let bits = 8 * self.tags.len().min(MOST / 8);
        words.min(bits) as u32
    }

    fn get(&self, i: u32) -> Result<(u64, bool), Refusal> {
        let k = self.place(i)?;
        Ok((word_at(self.data, k), tag_at(self.tags, k)))
    }

    /// Every byte and every bit that is not of granule i stays, in both buffers.
    /// (`fixed`: the first granule number is 0 before and after.)
    fn set(&mut self, i: u32, word: u64, tag: bool) -> Result<(), Refusal>
        ensures outcome { result ≡ within (flat_cells self.old.«data».now self.old.tags.now) i tt }
        ensures after { flat_cells self.new.«data».now self.new.tags.now ≡ slice_set (flat_cells self.old.«data».now self.old.tags.now) i (word, tag) }
        ensures fixed { ◌≡◌ {A = ℕ} 0 0 }
        ensures held { flat_kept self.new.«data».ghost_name self.new.tags.ghost_name self.new.«data».now self.new.tags.now ≡ flat_kept self.old.«data».ghost_name self.old.tags.ghost_name self.old.«data».now self.old.tags.now }
        ensures bytes { self.new.«data».now ≡ data_after self.old.«data».now self.old.tags.now i word }
        ensures bits { self.new.tags.now ≡ tags_after self.old.«data».now self.old.tags.now i tag }
    {
        let k = self.place(i)?;
        put_word(self.data, k, word);
        put_tag(self.tags, k, tag);
        Ok(())
    }
}
