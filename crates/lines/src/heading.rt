//! What the first line says.
ghost use Rattle.std.specs.Prelude.{◌≡◌, ◌≤◌, IfOk};
ghost use Rattle.std.specs.Option.{ok_or};
ghost use Rattle.capability.specs.declared.refusal.Refusal.TheVariants.{NotListed};
ghost use Rattle.lines.specs.Headings.{format_of, store_of, kinds_in, heading_in};

use crate::checks::{A, CODE, Limits, Marks, listed, needed, read_fields, value};
use crate::fault::Fault;
use capability::refusal::Refusal;
use text::fields::Fields;

/// The formats.
#[derive(Clone, Copy, PartialEq, Eq, Debug)]
pub enum FormatKind {
    Compact,
    Exact,
}

/// The stores.
#[derive(Clone, Copy, PartialEq, Eq, Debug)]
pub enum StoreKind {
    Flat,
    Words,
}

/// What a trace runs on.
#[derive(Clone, Copy, PartialEq, Eq, Debug)]
pub struct Heading {
    pub format: FormatKind,
    pub store: StoreKind,
    /// How many granules the store has.
    pub granules: u32,
    /// The number of the first one.
    pub first: u32,
}

/// At most 8,192 granules, and a first granule of 32 bits.
const LIMITS: Limits = Limits {
    p: 8192,
    q: u32::MAX as u64,
};

/// The format of a number.
impl TryFrom<u128> for FormatKind {
    type Error = Refusal;

    ghost try_from_gives = { λ number result. result ≡ ok_or (format_of number) NotListed };

    fn try_from(number: u128) -> Result<FormatKind, Refusal> {
        match number {
            1 => Ok(FormatKind::Compact),
            2 => Ok(FormatKind::Exact),
            _ => Err(Refusal::NotListed),
        }
    }
}

/// The store of a number.
impl TryFrom<u128> for StoreKind {
    type Error = Refusal;

    ghost try_from_gives = { λ number result. result ≡ ok_or (store_of number) NotListed };

    fn try_from(number: u128) -> Result<StoreKind, Refusal> {
        match number {
            1 => Ok(StoreKind::Flat),
            2 => Ok(StoreKind::Words),
            _ => Err(Refusal::NotListed),
        }
    }
}

/// The format and the store: filled ones are listed, and then neither is blank.
fn read_kinds(fields: Fields) -> Result<(FormatKind, StoreKind), Fault>
    ensures { result ≡ kinds_in fields }
{
    let format = listed(fields.code, CODE)?;
    let store = listed(fields.a, A)?;
    Ok((needed(format, CODE)?, needed(store, A)?))
}

impl Heading {
    /// Reads the first line.
    // By a name that says so: a `TryFrom` of bytes would hide that they are one line.
    pub fn read(line: &[u8]) -> Result<Heading, Fault>
        ensures value { result ≡ heading_in line.now }
        ensures few { IfOk result (λ h. h.granules ≤ 8192) }
    {
        let fields = read_fields(line, LIMITS)?;
        let (format, store) = read_kinds(fields)?;
        // Every field but b is needed.
        (!Marks::B).require(fields)?;
        Ok(Heading {
            format,
            store,
            granules: value(fields.p) as u32,
            first: value(fields.q) as u32,
        })
    }
}
