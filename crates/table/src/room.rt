//! Where a new block may stand.
ghost use Rattle.std.specs.Prelude.{◌≡◌, ℕ, ◌+◌, ◌%◌, ◌^◌, ◌<◌, ◌≤◌, IfSome};
ghost use Rattle.capability.specs.Formats.{rounded};
ghost use Rattle.plain.specs.Blocks.{apart, lowest_free};
ghost use Rattle.table.specs.Recorded.{Sound};

use crate::block::Block;
use crate::table::Table;

/// The first multiple of the unit at or past x.
// The `next_multiple_of` of std tests the rest: with it an allocate that passes 63 blocks takes 2.1 times the instructions of the plain
// program in bench/, above the bar of 1.9 that this one meets. The unit is a plain number with a bound, since a `NonZero` would only
// be opened again at each division.
pub fn next_multiple(x: u64, unit: u64) -> u64
    requires unit_given { 0 < unit }
    requires fits { x + unit ≤ 2 ^ 40 }
    ensures is { result ≡ rounded x unit }
    ensures past { x ≤ result }
    ensures near { result < x + unit }
    ensures even { result % unit ≡ 0 }
    ensures first { (y : ℕ) → y % unit ≡ 0 → x ≤ y → result ≤ y }
{
    (x + (unit - 1)) / unit * unit
}

impl Block {
    // Whether none of the bytes from x to end - 1 is the block's.
    fn is_apart(&self, x: u64, end: u64) -> bool
        ensures { result ≡ apart x end self.now }
    {
        end <= self.start as u64 || self.end as u64 <= x
    }
}

impl Table {
    /// The lowest multiple of the unit, between low and high, where so many bytes touch no block. A block in the way is
    /// passed at once: the next start is the first multiple past its end, and the scan goes on at the block after it,
    /// round the table, until every block in turn was apart from the bytes at one start.
    pub fn room(&self, low: u64, high: u64, unit: u64, size: u64) -> Option<u64>
        requires unit_given { 0 < unit }
        requires unit_small { unit ≤ 2 ^ 32 }
        requires low_small { low ≤ 2 ^ 36 }
        requires size_small { size ≤ 2 ^ 36 }
        requires high_small { high ≤ 2 ^ 36 }
        ensures is { result ≡ lowest_free self.now low high unit size }
        ensures between { IfSome result (λ x. (low ≤ x) × (x + size ≤ high) × (x % unit ≡ 0)) }
        ensures sound { Sound self.now }
    {
        let blocks = self.recorded();
        let mut start = next_multiple(low, unit);
        let mut place = 0;
        'starts: loop {
            let top = start + size;
            if top > high {
                break 'starts None;
            }
            // The rules want the search left from inside the scan, so the scan counts the blocks that are clear. It goes by places,
            // since it goes on where the last one was left: with an iterator that goes round the table, an allocate that passes 63
            // blocks takes 3.1 times the instructions of the plain program in bench/, above the bar of 1.9 that this one meets.
            let mut clear = 0;
            'scan: loop {
                if clear >= blocks.len() {
                    break 'starts Some(start);
                }
                let block = &blocks[place];
                place = if place + 1 < blocks.len() {
                    place + 1
                } else {
                    0
                };
                if !block.is_apart(start, top) {
                    start = next_multiple(block.end as u64, unit);
                    continue 'starts;
                }
                clear += 1;
            }
        }
    }
}
