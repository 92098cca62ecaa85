//! The bytes of words.
ghost use Rattle.std.specs.Prelude.{◌≡◌, ◌+◌, ◌-◌, ◌*◌, ◌/◌, ◌%◌, ◌^◌, ◌<◌, ◌≤◌};

// The low n bytes of a word.
pub(crate) fn low_bytes(word: u64, n: u32) -> u64
    requires { n ≤ 8 }
    ensures { result ≡ word % 256 ^ n }
{
    if n == 8 {
        word
    } else {
        word & ((1 << (8 * n)) - 1)
    }
}

/// Eight of the sixteen bytes of two words, from byte r on.
pub fn slide(low: u64, high: u64, r: u32) -> u64
    requires { r < 8 }
    ensures { result ≡ (low + high * 2 ^ 64) / 256 ^ r % 2 ^ 64 }
{
    let both = low as u128 + ((high as u128) << 64);
    let moved = both >> (8 * r);
    (moved % 0x1_0000_0000_0000_0000) as u64
}

/// The word `old` with its bytes s to e - 1 replaced by the first ones of `new`.
pub fn merge(old: u64, new: u64, s: u32, e: u32) -> u64
    requires { (s < e) × (e ≤ 8) }
    ensures { result ≡ old % 256 ^ s + new % 256 ^ (e - s) * 256 ^ s + old / 256 ^ e * 256 ^ e }
{
    let replaced = low_bytes(old >> (8 * s), e - s);
    let placed = low_bytes(new, e - s);
    old - (replaced << (8 * s)) + (placed << (8 * s))
}
