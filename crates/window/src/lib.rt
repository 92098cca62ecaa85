//! The window: any store, under another first granule number.
#![tactic(auto)]

ghost use Rattle.std.specs.Prelude.{◌∷◌};

use capability::refusal::Refusal;
use store::Store;

/// Granule i is granule i of the store below, at address 8·(first + i).
#[derive(Drop)]
pub struct Window<'a, S> {
    pub below: &'a mut S,
    pub first: u32,
}

impl<'a, S: Store> Store for Window<'a, S> {
    ghost origin = { λ s. s.first };

    ghost cells = { λ s. S.Store.cells s.below.now };

    ghost kept = { λ s. record {
      references = s.below.ghost_name ∷ (S.Store.kept s.below.now).references;
      rest = S.Store.origin s.below.now ∷ (S.Store.kept s.below.now).rest;
    } };

    ghost short = { λ s. S.Store.short s.below.now };

    fn first(&self) -> u32 {
        self.first
    }

    fn count(&self) -> u32 {
        self.below.count()
    }

    fn get(&self, i: u32) -> Result<(u64, bool), Refusal> {
        self.below.get(i)
    }

    fn set(&mut self, i: u32, word: u64, tag: bool) -> Result<(), Refusal> {
        self.below.set(i, word, tag)
    }
}
