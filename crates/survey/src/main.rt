//! Reads and writes words of both formats, and prints what it found.
#![tactic(auto)]

ghost use Rattle.std.specs.Prelude.{◌≡◌, ◌<◌};
ghost use Rattle.capability.specs.Formats.{rounded};
ghost use Rattle.capability.specs.Fields.{field};

use capability::field::Field;
use capability::format::Format;
use capability::refusal::Refusal;
use capability::types::{ALL_RIGHTS, Capability};
use compact::format::{self, Compact};
use exact::Exact;
use std::{fmt, io};
use worked::ends::count_back;

/// The fields of a compact word: the address, the nine bits of base and of top, the exponent, the rights, and the bits above.
const COMPACT: [Field; 6] = [
    format::ADDRESS,
    format::BASE,
    format::TOP,
    format::EXPONENT,
    format::RIGHTS,
    format::ABOVE,
];

/// The fields of an exact word: base, top - 1, the address, the rights, and the bits above.
const EXACT: [Field; 5] = [
    exact::BASE,
    exact::LAST,
    exact::ADDRESS,
    exact::RIGHTS,
    exact::ABOVE,
];

/// The capability with these bounds and this address, and every right.
fn all_rights(base: u32, top: u32, address: u32) -> Capability
    ensures { result ≡ record { base = base; top = top; address = address; rights = 63 } }
{
    Capability {
        base,
        top,
        address,
        rights: ALL_RIGHTS,
    }
}

/// A capability, shown by its bounds and its address.
#[derive(Drop)]
struct Bounds(Capability);

impl fmt::Display for Bounds {
    fn fmt<W: fmt::Write>(&self, f: &mut fmt::Formatter<W>) -> fmt::Result {
        let c = self.0;
        write!(f, "base {}, top {}, address {}", c.base, c.top, c.address)
    }
}

/// A word, shown as its number.
#[derive(Drop)]
struct Word(u64);

impl fmt::Display for Word {
    fn fmt<W: fmt::Write>(&self, f: &mut fmt::Formatter<W>) -> fmt::Result {
        write!(f, "word {}", self.0)
    }
}

/// The exponent of a compact word, and the nine bits of its base and of its top.
#[derive(Drop)]
struct Parts {
    exponent: u64,
    base: u64,
    top: u64,
}

impl From<u64> for Parts {
    ghost from_gives = { λ word parts. parts ≡ record { exponent = field word 50 4; base = field word 32 9; top = field word 41 9 } };

    fn from(word: u64) -> Parts {
        Parts {
            exponent: format::EXPONENT.of(word),
            base: format::BASE.of(word),
            top: format::TOP.of(word),
        }
    }
}

impl fmt::Display for Parts {
    fn fmt<W: fmt::Write>(&self, f: &mut fmt::Formatter<W>) -> fmt::Result {
        write!(f, "E {}, B {}, T {}", self.exponent, self.base, self.top)
    }
}

/// The unit of a size, and the size rounded up to a multiple of it.
#[derive(Drop)]
struct Rounded {
    unit: u32,
    size: u64,
}

impl Rounded {
    /// The unit, which is above 0, and a size rounded up to a multiple of it.
    fn to(unit: u32, size: u32) -> Rounded
        requires { 0 < unit }
        ensures { result ≡ record { unit = unit; size = rounded size unit } }
    {
        Rounded {
            unit,
            size: (size as u64).next_multiple_of(unit as u64),
        }
    }
}

impl fmt::Display for Rounded {
    fn fmt<W: fmt::Write>(&self, f: &mut fmt::Formatter<W>) -> fmt::Result {
        write!(f, "unit {}, rounded {}", self.unit, self.size)
    }
}

/// Prints what a format was asked, and what it found, or the refusal.
fn show(
    rt: &impl Print,
    format: &str,
    asked: impl fmt::Display + Drop,
    answer: Result<impl fmt::Display + Drop, Refusal>,
) -> io::Result<()> {
    match answer {
        Ok(found) => println!(rt; "{format}: {asked}: {found}"),
        Err(refusal) => println!(rt; "{format}: {asked}: refused, {refusal}"),
    }
}

/// Shows the fields of the compact word of a capability.
fn show_compact(rt: &impl Print, c: Capability) -> io::Result<()> {
    let parts = Compact::write(c).map(Parts::from);
    show(rt, "compact", Bounds(c), parts)
}

/// Shows the exact word of a capability.
fn show_exact(rt: &impl Print, c: Capability) -> io::Result<()> {
    show(rt, "exact", Bounds(c), Exact::write(c).map(Word))
}

/// Shows what a compact word reads as.
fn show_read(rt: &impl Print, word: u64) -> io::Result<()> {
    show(rt, "compact", Word(word), Compact::read(word).map(Bounds))
}

/// Shows the unit of a size in compact and the rounded size.
fn show_unit(rt: &impl Print, size: u32) -> io::Result<()> {
    let rounded = Compact::unit(size).map(|unit| Rounded::to(unit, size));
    show(rt, "compact", format_args!("size {size}"), rounded)
}

/// Shows how many of so many words with each field at its ends come back.
fn show_count<F: Format>(
    rt: &impl Print,
    format: &str,
    fields: &[Field],
    places: u32,
) -> io::Result<()> {
    let back = count_back::<F>(fields, places);
    println!(rt;
        "{format}: of {places} words with each field at its ends, {back} are read and written back equal"
    )
}

fn main(rt: HostRuntime) -> io::Result<()> {
    show_compact(&rt, all_rights(64, 72, 64))?;
    show_compact(&rt, all_rights(0, 4088, 0))?;
    show_compact(&rt, all_rights(0, 4096, 0))?;
    show_compact(&rt, all_rights(8, 4104, 8))?;
    show_compact(&rt, all_rights(1, 512, 1))?;
    show_compact(&rt, all_rights(1, 513, 1))?;
    show_exact(&rt, all_rights(1, 513, 1))?;
    show_compact(&rt, all_rights(1, 512, 512))?;
    show_compact(&rt, all_rights(1, 512, 0))?;
    show_compact(&rt, all_rights(1, 512, 513))?;
    show_read(&rt, (8 << 32) + (16 << 41) + 8)?;
    show_read(&rt, (1 << 32) + (2 << 41) + (3 << 50) + 8)?;
    show_unit(&rt, 0)?;
    show_unit(&rt, 4088)?;
    show_unit(&rt, 4089)?;
    show_unit(&rt, 65536)?;
    show_unit(&rt, 65537)?;
    show_count::<Compact>(&rt, "compact", &COMPACT, 4096)?;
    show_count::<Exact>(&rt, "exact", &EXACT, 1024)
}
