//! The memory.
use capability::format::Format;
use plain::types::Sweep;
use slots::slots::Slots;
use std::marker::PhantomData;
use store::Store;
use table::table::Table;

/// Sixteen slots, a table of blocks, the next serial, a sweep, and a store that it borrows, so that whoever lent the store
/// knows what it holds after each call.
// Clauses see its fields, and no model hides them: behind a model the lender of the store would no longer know, once the memory
// is gone, what the store holds.
#[derive(Drop)]
pub struct Memory<'a, F: Format, S: Store> {
    pub(crate) slots: Slots,
    pub(crate) table: Table,
    // 2^32 where there is no serial left: the rules count on to that number and refuse there.
    pub(crate) next: u64,
    pub(crate) sweep: Sweep,
    pub(crate) store: &'a mut S,
    pub(crate) format: PhantomData<F>,
}
