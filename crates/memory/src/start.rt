//! The start of a memory.
ghost use Rattle.std.specs.Prelude.{◌≡◌, List, length};
ghost use Rattle.plain.specs.declared.types.Call.{Call};
ghost use Rattle.plain.specs.Guarantee.{Safe};
ghost use Rattle.plain.specs.Memory.{started, usable as usable_count};
ghost use Rattle.memory.specs.Of.{plain, Tabled};

use crate::memory::Memory;
use capability::format::Format;
use plain::types::{Slot, Sweep};
use slots::slots::{SLOTS, Slots};
use std::marker::PhantomData;
use store::Store;
use stored_bytes::store_bytes::clear;
use table::table::Table;

impl<'a, F: Format, S: Store> Memory<'a, F, S> {
    /// A memory over a store, with a first serial: every slot and every granule becomes word 0, untagged.
    pub fn start(store: &'a mut S, serial: u32) -> Memory<'a, F, S>
        ensures starts { plain S.Store.origin S.Store.cells result ≡ started (S.Store.origin store.old) (length (S.Store.cells store.old)) serial }
        ensures safe { (h : List Call) → Safe F.Format.meaning (plain S.Store.origin S.Store.cells result) h }
        ensures named { result.store.ghost_name ≡ store.entry.ghost_name }
        ensures held { S.Store.kept result.store.now ≡ S.Store.kept store.old }
    {
        clear(store);
        Memory {
            slots: Slots {
                cells: [Slot::default(); SLOTS],
            },
            table: Table::new(),
            next: serial as u64,
            sweep: Sweep::Shut,
            store,
            format: PhantomData,
        }
    }

    /// How many granules are usable: those that end within the span.
    pub fn usable(&self) -> u32
        ensures is { result ≡ usable_count F.Format.meaning (plain S.Store.origin S.Store.cells self.now).first (plain S.Store.origin S.Store.cells self.now).cells }
        ensures tabled { Tabled self.now }
    {
        self.table.bounded();
        slots::reads::usable::<F, S>(self.store)
    }
}
