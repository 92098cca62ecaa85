//! The values of a memory, and its calls.

/// A word and its tag. Only a tagged word is a capability.
// The tag is no `Option` round the word: an untagged slot has a word too, which its program may read.
#[derive(Clone, Copy, Debug, Default, PartialEq, Eq)]
pub struct Slot {
    pub word: u64,
    pub tag: bool,
}

/// Where a block stands between its allocation and the sweep that takes it back.
#[derive(Clone, Copy, Debug, PartialEq, Eq)]
pub enum State {
    /// Allocated, and not freed yet.
    Live,
    /// Freed, and in quarantine until a sweep opens.
    Freed,
    /// Freed before the sweep that is open, which takes it back when it closes.
    Condemned,
}

/// Shut, or open with a cursor: how many granules have been passed.
// An enum of its own and no `Option<u32>`: every definition of the sweep names its two states, and `None` and `Some`
// would not say which of them is shut.
#[derive(Clone, Copy, Debug, PartialEq, Eq)]
pub enum Sweep {
    Shut,
    Open(u32),
}

/// What a program may ask of a memory. The numbers are any.
#[derive(Clone, Copy, Debug, PartialEq, Eq)]
pub enum Call {
    /// A new block, its capability into the slot. Answers the block's serial.
    Allocate {
        slot: u32,
        size: u32,
    },
    /// The block of the slot's capability turns freed. Answers its serial.
    Free {
        slot: u32,
    },
    /// The capability of `from`, with another address, into `to`.
    Move {
        to: u32,
        from: u32,
        address: u32,
    },
    /// The capability of `from`, with bounds inside the old ones and its address at the new base, into `to`.
    Narrow {
        to: u32,
        from: u32,
        base: u32,
        length: u64,
    },
    /// The capability of `from`, with only those rights that are in the mask too, into `to`.
    Restrict {
        to: u32,
        from: u32,
        mask: u32,
    },
    /// The bytes at the capability's address. Answers them as a number, the lowest first.
    Load {
        slot: u32,
        width: u32,
    },
    /// Writes the low bytes of the value there.
    Store {
        slot: u32,
        width: u32,
        value: u64,
    },
    /// The granule at the address of `through`, with its tag, into `to`. Answers 1 if that is then tagged, else 0.
    Fetch {
        to: u32,
        through: u32,
    },
    /// The word and the tag of `from` into the granule at the address of `through`.
    Put {
        through: u32,
        from: u32,
    },
    /// Bytes from the address of `from` to that of `to`. Answers how many granules kept their tag on the way.
    Copy {
        to: u32,
        from: u32,
        length: u32,
    },
    /// Freed blocks turn condemned, and a sweep begins. Answers how many.
    Open,
    /// The sweep passes the next granules. Answers how many.
    Advance {
        count: u32,
    },
    /// Condemned blocks leave the record, and the sweep ends. Answers their bytes.
    Close,
    /// Answers the serial of the capability's block.
    Whose {
        slot: u32,
    },
    /// Answers the bytes of all blocks on record.
    Tally,
}
