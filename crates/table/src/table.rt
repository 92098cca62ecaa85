//! The table.
use crate::block::Block;
use std::marker::Model;

/// How many blocks a table holds.
pub(crate) const BLOCKS: usize = 64;

/// At most 64 blocks: the first `used` of the array.
// An array of records with their number beside it, as the rules of this memory want it: a record of a list of fixed capacity could
// not be lent as free lends one.
#[derive(Drop)]
pub struct Table {
    pub(crate) blocks: [Block; BLOCKS],
    pub(crate) used: usize,
}

// Clauses see the blocks on record.
impl Model for Table {
    ghost use Rattle.std.specs.Prelude.{◌≡◌, ◌≤◌, List, length};
    ghost use Rattle.plain.specs.Blocks.{Entry};

    ghost Value = { List Entry };

    ghost use Rattle.std.specs.List.{All};
    ghost use Rattle.table.specs.Recorded.{Whole, recorded};

    ghost view = { recorded };

    ghost invariant = { λ t. (t.used ≤ 64) × (length t.blocks ≡ 64) × All Whole t.blocks };
}
