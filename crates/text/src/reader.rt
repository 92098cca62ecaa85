//! A reader of lines.
ghost use Rattle.std.specs.Prelude.{◌≡◌, ◌==◌};
ghost use Rattle.std.specs.Iterator.{item_count};
ghost use Rattle.std.specs.List.{position};
ghost use Rattle.text.specs.Lines.{lines, coming, HandsOut};

/// Hands out the lines of an input, one after the other.
/// A line ends at byte 10 or at the end of the input. After a last byte 10 there is no further
/// line, and an empty input has one line of length 0.
// The rules want a place in the whole input, and no rest of it that gets shorter.
#[derive(Drop)]
pub struct Reader<'a> {
    input: &'a [u8],
    place: usize,
}

/// How many bytes stand before the first byte 10, if there is one.
fn line_end(rest: &[u8]) -> Option<usize>
    ensures { result ≡ position (λ b. b == 10) rest.now }
{
    rest.iter().position(|byte| *byte == b'\n')
}

impl<'a> Reader<'a> {
    /// A reader that has every line of the input still to hand out.
    pub fn new(input: &'a [u8]) -> Reader<'a>
        ensures input { result.input.now ≡ input.now }
        ensures all { coming result ≡ lines input.now }
    {
        Reader { input, place: 0 }
    }
}

/// Each line that is still to come is handed out, and after the last one there is none.
impl<'a> Iterator for Reader<'a> {
    type Item = &'a [u8];

    ghost next_gives = { HandsOut };

    ghost remaining = { item_count coming };

    fn next(&mut self) -> Option<&'a [u8]> {
        let start = self.place;
        if start > 0 && start >= self.input.len() {
            return None;
        }
        let rest = &self.input[start..];
        let end = start + line_end(rest).unwrap_or(rest.len());
        self.place = end + 1;
        Some(&self.input[start..end])
    }
}
