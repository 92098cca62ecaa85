//! The calls, each a method with numbers as parameters. What a call does to the parts of the memory is done in the crates below.
//! The function there takes only the parts that the call touches, so that its contract says what it cannot touch; no two of the
//! parts go together in every call. `tabled` says of each call what `bounded` tells of the table.
ghost use Rattle.std.specs.Prelude.{◌≡◌};
ghost use Rattle.plain.specs.Memory.{Matches, call_allocate, call_free, call_move, call_narrow, call_restrict, call_load, call_store, call_fetch, call_put, call_copy, call_open, call_advance, call_close, call_whose, call_tally};
ghost use Rattle.memory.specs.Of.{plain, Tabled, Keeps};

use crate::memory::Memory;
use capability::format::Format;
use capability::refusal::Refusal;
use store::Store;

impl<F: Format, S: Store> Memory<'_, F, S> {
    /// A new block at the lowest multiple of the unit where it has room; its capability goes to the slot. Answers its serial.
    pub fn allocate(&mut self, slot: u32, size: u32) -> Result<u64, Refusal>
        ensures does { Matches (call_allocate F.Format.meaning (plain S.Store.origin S.Store.cells self.old) slot size) result (plain S.Store.origin S.Store.cells self.new) }
        ensures keeps { Keeps S.Store.kept self.old self.new }
        ensures tabled { Tabled self.new }
    {
        self.table.bounded();
        heap::allocate::<F, S>(
            &mut self.slots,
            &mut self.table,
            &mut self.next,
            self.store,
            slot,
            size,
        )
    }

    /// The block of the slot's capability turns freed. Answers its serial.
    pub fn free(&mut self, slot: u32) -> Result<u64, Refusal>
        ensures does { Matches (call_free F.Format.meaning (plain S.Store.origin S.Store.cells self.old) slot) result (plain S.Store.origin S.Store.cells self.new) }
        ensures keeps { Keeps S.Store.kept self.old self.new }
        ensures tabled { Tabled self.new }
    {
        self.table.bounded();
        heap::free::<F>(&self.slots, &mut self.table, slot)
    }

    /// The capability of `from`, with another address, into `to`. The system's word for it is move.
    pub fn move_to(&mut self, to: u32, from: u32, address: u32) -> Result<u64, Refusal>
        ensures does { Matches (call_move F.Format.meaning (plain S.Store.origin S.Store.cells self.old) to from address) result (plain S.Store.origin S.Store.cells self.new) }
        ensures keeps { Keeps S.Store.kept self.old self.new }
        ensures tabled { Tabled self.new }
    {
        self.table.bounded();
        derive::move_to::<F>(&mut self.slots, to, from, address)
    }

    /// The capability of `from`, with bounds inside the old ones and its address at the new base, into `to`.
    pub fn narrow(&mut self, to: u32, from: u32, base: u32, length: u64) -> Result<u64, Refusal>
        ensures does { Matches (call_narrow F.Format.meaning (plain S.Store.origin S.Store.cells self.old) to from base length) result (plain S.Store.origin S.Store.cells self.new) }
        ensures keeps { Keeps S.Store.kept self.old self.new }
        ensures tabled { Tabled self.new }
    {
        self.table.bounded();
        derive::narrow::<F>(&mut self.slots, to, from, base, length)
    }

    /// The capability of `from`, with only those rights that are in the mask too, into `to`.
    pub fn restrict(&mut self, to: u32, from: u32, mask: u32) -> Result<u64, Refusal>
        ensures does { Matches (call_restrict F.Format.meaning (plain S.Store.origin S.Store.cells self.old) to from mask) result (plain S.Store.origin S.Store.cells self.new) }
        ensures keeps { Keeps S.Store.kept self.old self.new }
        ensures tabled { Tabled self.new }
    {
        self.table.bounded();
        derive::restrict::<F>(&mut self.slots, to, from, mask)
    }

    /// Answers the bytes at the capability's address, the lowest first.
    pub fn load(&mut self, slot: u32, width: u32) -> Result<u64, Refusal>
        ensures does { Matches (call_load F.Format.meaning (plain S.Store.origin S.Store.cells self.old) slot width) result (plain S.Store.origin S.Store.cells self.new) }
        ensures keeps { Keeps S.Store.kept self.old self.new }
        ensures tabled { Tabled self.new }
    {
        self.table.bounded();
        access::load::<F, S>(&self.slots, self.store, slot, width)
    }

    /// Writes the low bytes of the value there, and untags each granule that they touch.
    pub fn store(&mut self, slot: u32, width: u32, value: u64) -> Result<u64, Refusal>
        ensures does { Matches (call_store F.Format.meaning (plain S.Store.origin S.Store.cells self.old) slot width value) result (plain S.Store.origin S.Store.cells self.new) }
        ensures keeps { Keeps S.Store.kept self.old self.new }
        ensures tabled { Tabled self.new }
    {
        self.table.bounded();
        access::store::<F, S>(&self.slots, self.store, slot, width, value)
    }

    /// The granule at the address of `through`, with its tag, into `to`, untagged if its word's block is condemned. Answers 1
    /// if the slot is then tagged, else 0.
    pub fn fetch(&mut self, to: u32, through: u32) -> Result<u64, Refusal>
        ensures does { Matches (call_fetch F.Format.meaning (plain S.Store.origin S.Store.cells self.old) to through) result (plain S.Store.origin S.Store.cells self.new) }
        ensures keeps { Keeps S.Store.kept self.old self.new }
        ensures tabled { Tabled self.new }
    {
        self.table.bounded();
        access::fetch::<F, S>(&mut self.slots, &self.table, self.store, to, through)
    }

    /// The word and the tag of `from` into the granule at the address of `through`.
    pub fn put(&mut self, through: u32, from: u32) -> Result<u64, Refusal>
        ensures does { Matches (call_put F.Format.meaning (plain S.Store.origin S.Store.cells self.old) through from) result (plain S.Store.origin S.Store.cells self.new) }
        ensures keeps { Keeps S.Store.kept self.old self.new }
        ensures tabled { Tabled self.new }
    {
        self.table.bounded();
        access::put::<F, S>(&self.slots, self.store, through, from)
    }

    /// Bytes from the address of `from` to that of `to`, as if all were read first. Answers how many granules were carried
    /// with their tags.
    pub fn copy(&mut self, to: u32, from: u32, size: u32) -> Result<u64, Refusal>
        ensures does { Matches (call_copy F.Format.meaning (plain S.Store.origin S.Store.cells self.old) to from size) result (plain S.Store.origin S.Store.cells self.new) }
        ensures keeps { Keeps S.Store.kept self.old self.new }
        ensures tabled { Tabled self.new }
    {
        self.table.bounded();
        carry::copy::<F, S>(&self.slots, &self.table, self.store, to, from, size)
    }

    /// Freed blocks turn condemned, the slots of condemned blocks are untagged, and a sweep begins. Answers how many blocks.
    pub fn open(&mut self) -> Result<u64, Refusal>
        ensures does { Matches (call_open F.Format.meaning (plain S.Store.origin S.Store.cells self.old)) result (plain S.Store.origin S.Store.cells self.new) }
        ensures keeps { Keeps S.Store.kept self.old self.new }
        ensures tabled { Tabled self.new }
    {
        self.table.bounded();
        sweep::open::<F>(&mut self.slots, &mut self.table, &mut self.sweep)
    }

    /// The sweep passes the next granules, as many as asked for or as remain. Answers how many.
    pub fn advance(&mut self, count: u32) -> Result<u64, Refusal>
        ensures does { Matches (call_advance F.Format.meaning (plain S.Store.origin S.Store.cells self.old) count) result (plain S.Store.origin S.Store.cells self.new) }
        ensures keeps { Keeps S.Store.kept self.old self.new }
        ensures tabled { Tabled self.new }
    {
        self.table.bounded();
        sweep::advance::<F, S>(&self.table, &mut self.sweep, self.store, count)
    }

    /// Condemned blocks leave the record, and the sweep ends. Answers their bytes.
    pub fn close(&mut self) -> Result<u64, Refusal>
        ensures does { Matches (call_close F.Format.meaning (plain S.Store.origin S.Store.cells self.old)) result (plain S.Store.origin S.Store.cells self.new) }
        ensures keeps { Keeps S.Store.kept self.old self.new }
        ensures tabled { Tabled self.new }
    {
        self.table.bounded();
        sweep::close::<F, S>(&mut self.table, &mut self.sweep, self.store)
    }

    /// Answers the serial of the capability's block.
    pub fn whose(&mut self, slot: u32) -> Result<u64, Refusal>
        ensures does { Matches (call_whose F.Format.meaning (plain S.Store.origin S.Store.cells self.old) slot) result (plain S.Store.origin S.Store.cells self.new) }
        ensures keeps { Keeps S.Store.kept self.old self.new }
        ensures tabled { Tabled self.new }
    {
        self.table.bounded();
        heap::whose::<F>(&self.slots, &self.table, slot)
    }

    /// Answers the bytes summed over every block on record.
    pub fn tally(&mut self) -> Result<u64, Refusal>
        ensures does { Matches (call_tally (plain S.Store.origin S.Store.cells self.old)) result (plain S.Store.origin S.Store.cells self.new) }
        ensures keeps { Keeps S.Store.kept self.old self.new }
        ensures tabled { Tabled self.new }
    {
        Ok(self.table.bytes())
    }
}
