//! Words with each field at its ends, and how many of them come back as they were.
ghost use Rattle.std.specs.Prelude.{◌≡◌, ℕ, is_some, count_by};
ghost use Rattle.std.specs.List.{range_with_len};
ghost use Rattle.worked.specs.Ends.{end_of, word_of};

use capability::field::Field;
use capability::format::Format;

/// How many numbers of a field are tried: 0, the middle, the largest but one and the largest.
pub const ENDS: u32 = 4;

/// One of those numbers, in its place in the word.
pub fn end(field: Field, which: u32) -> u64
    ensures { result ≡ end_of field which }
{
    // Which of them is a digit of a place and no kind: an array of the four would be indexed by it no more plainly.
    let number = match which {
        0 => 0,
        1 => field.largest / 2 + 1,
        2 => field.largest.saturating_sub(1),
        _ => field.largest,
    };
    field.put(number)
}

/// The word of a place: the place's digits, the lowest first, say the number of each field.
pub fn word_at(fields: &[Field], place: u32) -> u64
    ensures { result ≡ word_of fields.now place }
{
    match fields {
        [] => 0,
        [first, rest @ ..] => end(*first, place % ENDS) | word_at(rest, place / ENDS),
    }
}

/// Whether a word is read, and written again as it was.
pub fn comes_back<F: Format>(word: u64) -> bool
    ensures { result ≡ is_some (F.Format.meaning.capability word) }
{
    // A closure, since the checker does not yet take the method of a bound as a function.
    F::read(word).and_then(|c| F::write(c)) == Ok(word)
}

/// How many of the first places have a word that comes back.
pub fn count_back<F: Format>(fields: &[Field], places: u32) -> u32
    ensures { result ≡ count_by (λ place. is_some (F.Format.meaning.capability (word_of fields.now place))) (range_with_len 0 places) }
{
    (0..places)
        .filter(|place| comes_back::<F>(word_at(fields, *place)))
        .count() as u32
}
