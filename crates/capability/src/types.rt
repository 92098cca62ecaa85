//! A capability and its rights.
ghost use Rattle.std.specs.Prelude.{◌≡◌};
ghost use Rattle.capability.specs.Rights.{weight, has as permits};

/// What a capability may be used for. Its rights are the sum of those that it has.
#[derive(Clone, Copy, PartialEq, Eq, Debug)]
pub enum Right {
    LoadData = 1,
    StoreData = 2,
    LoadCapabilities = 4,
    StoreCapabilities = 8,
    Global = 16,
    StoreLocal = 32,
}

/// The number that stands for the right in a sum.
impl From<Right> for u8 {
    ghost from_gives = { λ right number. number ≡ weight right };

    fn from(right: Right) -> u8 {
        right as u8
    }
}

/// The sum of all the rights.
pub const ALL_RIGHTS: u8 = 63;

/// The bytes from `base` to `top - 1`, an address, and rights.
#[derive(Clone, Copy, PartialEq, Eq, Debug)]
pub struct Capability {
    pub base: u32,
    pub top: u32,
    pub address: u32,
    // A sum of rights and no set of them: any number can be asked for, and a format refuses what is no such sum.
    pub rights: u8,
}

impl Capability {
    /// Whether the rights include this one.
    pub fn has(self, right: Right) -> bool
        ensures { result ≡ permits right self }
    {
        self.rights / u8::from(right) % 2 == 1
    }
}
