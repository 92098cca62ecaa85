//! Words of the compact format.
ghost use Rattle.std.specs.Prelude.{◌≡◌, ◌≤◌, refl};
ghost use Rattle.compact.specs.Compact.{compact, carries};
ghost use Rattle.compact.specs.Units;

use crate::exponents::{LONGEST, exponent, is_exponent, unit_exponent};
use capability::field::Field;
use capability::format::Format;
use capability::refusal::Refusal;
use capability::types::{ALL_RIGHTS, Capability};

/// The field of the address.
pub const ADDRESS: Field = Field {
    low: 0,
    largest: 4294967295,
};

/// The field of the nine bits of the base.
pub const BASE: Field = Field {
    low: 32,
    largest: 511,
};

/// The field of the nine bits of the top.
pub const TOP: Field = Field {
    low: 41,
    largest: 511,
};

/// The field of the exponent.
pub const EXPONENT: Field = Field {
    low: 50,
    largest: 15,
};

/// The field of the rights.
pub const RIGHTS: Field = Field {
    low: 54,
    largest: 63,
};

/// The bits above the rights, which are zero.
pub const ABOVE: Field = Field {
    low: 60,
    largest: 15,
};

/// One more than the largest number that nine bits hold.
const NINE: u64 = 512;

/// Bounds near the address, as far apart and as fine as their exponent allows.
#[derive(Drop)]
pub struct Compact;

/// Whether the format carries a capability whose bounds have this exponent.
// Three of the six tests are the other format's too. Shared, they would be a function of a span and a capability that the definition
// of neither format names.
fn carried(c: Capability, e: u32) -> bool
    requires { e ≤ 14 }
    ensures { result ≡ carries e c }
{
    c.base < c.top
        && c.top as u64 <= Compact::SPAN
        && (c.top - c.base) as u64 <= LONGEST << e
        && c.base <= c.address
        && (c.address as u64) < c.base as u64 + (1 << (e + 9))
        && c.rights <= ALL_RIGHTS
}

impl Format for Compact {
    const SPAN: u64 = 4294967288;

    ghost SPAN = { 4294967288 };

    ghost meaning = { compact };

    ghost spans = { refl };

    ghost lawful = { Units.lawful };

    // Inlined, since a narrow that calls it takes a quarter more instructions than one in which it stands.
    #[inline(always)]
    fn write(c: Capability) -> Result<u64, Refusal> {
        let e = exponent(c.base, c.top);
        if !carried(c, e) {
            return Err(Refusal::NotCarried);
        }
        let low = (c.base as u64 >> e) % NINE;
        let high = (c.top as u64 >> e) % NINE;
        Ok(
            ADDRESS.put(c.address as u64)
                + BASE.put(low)
                + TOP.put(high)
                + EXPONENT.put(e as u64)
                + RIGHTS.put(c.rights as u64),
        )
    }

    fn read(word: u64) -> Result<Capability, Refusal> {
        let e = EXPONENT.of(word) as u32;
        let low = BASE.of(word);
        let high = TOP.of(word);
        let address = ADDRESS.of(word);
        // In units of two to the exponent: the address, how far back the base is, and how far on the top is from there.
        let here = address >> e;
        let back = (here + NINE - low) % NINE;
        let length = (high + NINE - low) % NINE;
        if ABOVE.of(word) > 0 || length == 0 || back > here {
            return Err(Refusal::NotCapability);
        }
        let base = here - back;
        let top = base + length;
        if top << e > Self::SPAN || !is_exponent(e, base, top) {
            return Err(Refusal::NotCapability);
        }
        Ok(Capability {
            base: (base << e) as u32,
            top: (top << e) as u32,
            address: address as u32,
            rights: RIGHTS.of(word) as u8,
        })
    }

    fn unit(size: u32) -> Result<u32, Refusal> {
        let e = unit_exponent(size)?;
        Ok(1 << e)
    }
}
