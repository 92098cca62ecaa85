//! One granule's word and tag in the two buffers.
ghost use Rattle.std.specs.Prelude.{◌≡◌, ℕ, ◌+◌, ◌*◌, ◌<◌, ◌≤◌, length};
ghost use mir.Val.{bool_byte};
ghost use Rattle.flat.specs.Flat.{word_at, with_word, tag_at, with_bit, with_tag};

/// The word of granule i.
pub fn word_at(data: &[u8], i: usize) -> u64
    requires in_data { 8 * i + 8 ≤ length «data».now }
    requires in_store { i < 8192 }
    ensures { result ≡ word_at «data».now i }
{
    let p = 8 * i;
    let mut bytes = [0; 8];
    bytes.copy_from_slice(&data[p..p + 8]);
    u64::from_le_bytes(bytes)
}

/// Writes the word of granule i, and leaves every other byte.
pub fn put_word(data: &mut [u8], i: usize, word: u64)
    requires in_data { 8 * i + 8 ≤ length «data».old }
    requires in_store { i < 8192 }
    ensures { «data».new ≡ with_word «data».old i word }
{
    let p = 8 * i;
    data[p..p + 8].copy_from_slice(&word.to_le_bytes());
}

/// The tag of granule i.
pub fn tag_at(tags: &[u8], i: usize) -> bool
    requires { i < 8 * length tags.now }
    ensures { result ≡ tag_at tags.now i }
{
    (tags[i / 8] >> (i % 8)) % 2 == 1
}

/// The byte with bit k set or cleared.
fn with_bit(byte: u8, k: usize, on: bool) -> u8
    requires { k < 8 }
    ensures { result ≡ with_bit byte k (bool_byte on) }
{
    let mask = 1u8 << k;
    if on { byte | mask } else { byte & !mask }
}

/// Writes the tag of granule i, and leaves every other bit.
pub fn put_tag(tags: &mut [u8], i: usize, tag: bool)
    requires { i < 8 * length tags.old }
    ensures { tags.new ≡ with_tag tags.old i tag }
{
    tags[i / 8] = with_bit(tags[i / 8], i % 8, tag);
}
