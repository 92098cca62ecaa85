//! The five fields of a line.
ghost use Rattle.std.specs.Prelude.{◌≡◌, ◌≤◌, length};
ghost use Rattle.text.specs.Fields.{number_of, field_of, fields_of};

/// What a field holds.
// Three cases that the checks tell apart in turn. An option in a result would not name them.
#[derive(Clone, Copy, PartialEq, Eq, Debug)]
pub enum Field {
    /// Blanks alone.
    Blank,
    /// Blanks, then a number in decimal digits without leading zeros, and nothing behind it.
    Number(u128),
    /// Anything else.
    Malformed,
}

/// The fields of a line of 41 bytes.
#[derive(Clone, Copy, PartialEq, Eq, Debug)]
pub struct Fields {
    /// Columns 1 to 2.
    pub code: Field,
    /// Columns 3 to 5.
    pub a: Field,
    /// Columns 6 to 8.
    pub b: Field,
    /// Columns 9 to 20.
    pub p: Field,
    /// Columns 21 to 41.
    pub q: Field,
}

/// The number that digits write, or `None` where some byte is no digit.
// The library's `parse` is no plainer: it reads text, and takes a sign in front.
fn number(digits: &[u8]) -> Option<u128>
    requires { length digits.now ≤ 21 }
    ensures { result ≡ number_of digits.now }
{
    let mut value = 0u128;
    for byte in digits {
        if !byte.is_ascii_digit() {
            return None;
        }
        value = value * 10 + u128::from(*byte - b'0');
    }
    Some(value)
}

/// What a column holds.
fn read_field(column: &[u8]) -> Field
    requires { length column.now ≤ 21 }
    ensures { result ≡ field_of column.now }
{
    let Some(start) = column.iter().position(|byte| *byte != b' ') else {
        return Field::Blank;
    };
    match &column[start..] {
        [b'0', _, ..] => Field::Malformed,
        digits => number(digits).map_or(Field::Malformed, Field::Number),
    }
}

impl Fields {
    /// The fields of a line, or `None` where it is not 41 bytes long.
    // By a name that says so: a `TryFrom` of bytes would hide that they are one line.
    pub fn read(line: &[u8]) -> Option<Fields>
        ensures { result ≡ fields_of line.now }
    {
        if line.len() != 41 {
            return None;
        }
        Some(Fields {
            code: read_field(&line[0..2]),
            a: read_field(&line[2..5]),
            b: read_field(&line[5..8]),
            p: read_field(&line[8..20]),
            q: read_field(&line[20..41]),
        })
    }
}
