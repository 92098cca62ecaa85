//! The exact format: a word holds every bound whole.
#![tactic(auto)]

ghost use Rattle.std.specs.Prelude.{◌≡◌, refl};
ghost use Rattle.exact.specs.Exact.{exact, carries};
ghost use Rattle.exact.specs.Laws;

use capability::field::Field;
use capability::format::{Format, LARGEST};
use capability::refusal::Refusal;
use capability::types::{ALL_RIGHTS, Capability};

/// The field of the base.
pub const BASE: Field = Field {
    low: 0,
    largest: 65535,
};

/// The field of the last address, top - 1.
pub const LAST: Field = Field {
    low: 16,
    largest: 65535,
};

/// The field of the address.
pub const ADDRESS: Field = Field {
    low: 32,
    largest: 65535,
};

/// The field of the rights.
pub const RIGHTS: Field = Field {
    low: 48,
    largest: 63,
};

/// The bits above the rights, which are zero.
pub const ABOVE: Field = Field {
    low: 54,
    largest: 1023,
};

/// The unit of every size.
const UNIT: u32 = 8;

/// Bounds from 0 to 65,536, each held whole in 16 bits of the word.
#[derive(Drop)]
pub struct Exact;

/// Whether the format carries a capability.
// Three of the six tests are the other format's too. Shared, they would be a function of a span and a capability that the definition
// of neither format names.
fn carried(c: Capability) -> bool
    ensures { result ≡ carries c }
{
    c.base < c.top && c.top as u64 <= Exact::SPAN && c.address <= 65535 && c.rights <= ALL_RIGHTS
}

impl Format for Exact {
    const SPAN: u64 = 65536;

    ghost SPAN = { 65536 };

    ghost meaning = { exact };

    ghost spans = { refl };

    ghost lawful = { Laws.lawful };

    fn write(c: Capability) -> Result<u64, Refusal> {
        if !carried(c) {
            return Err(Refusal::NotCarried);
        }
        Ok(
            BASE.put(c.base as u64)
                + LAST.put(c.top as u64 - 1)
                + ADDRESS.put(c.address as u64)
                + RIGHTS.put(c.rights as u64),
        )
    }

    fn read(word: u64) -> Result<Capability, Refusal> {
        let base = BASE.of(word) as u32;
        let last = LAST.of(word) as u32;
        if ABOVE.of(word) != 0 || base > last {
            return Err(Refusal::NotCapability);
        }
        Ok(Capability {
            base,
            top: last + 1,
            address: ADDRESS.of(word) as u32,
            rights: RIGHTS.of(word) as u8,
        })
    }

    fn unit(size: u32) -> Result<u32, Refusal> {
        if (1..=LARGEST).contains(&size) {
            Ok(UNIT)
        } else {
            Err(Refusal::BadParameter)
        }
    }
}
