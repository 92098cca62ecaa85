//! The exponent of bounds, and the exponent of a size's unit.
ghost use Rattle.std.specs.Prelude.{◌≡◌, ◌*◌, ◌^◌, ◌&&◌, if◌then◌else◌, Ok, Err, IfOk, ◌==◌, nat_le};
ghost use Rattle.capability.specs.declared.refusal.Refusal.TheVariants.{BadParameter};
ghost use Rattle.compact.specs.Exponents.{IsExponent, exponent_of, IsUnitExponent, unit_exponent_of};

use capability::format::LARGEST;
use capability::refusal::Refusal;

/// The largest exponent.
const MOST: u32 = 14;

/// The least exponent of a unit.
const LEAST: u32 = 3;

/// The most units of 2^e that bounds with the exponent e are apart.
pub const LONGEST: u64 = 511;

/// The largest number from 0 to 14 for which two to that power divides base and top.
pub fn exponent(base: u32, top: u32) -> u32
    ensures value { result ≡ exponent_of base top }
    ensures largest { IsExponent base top result }
{
    base.trailing_zeros().min(top.trailing_zeros()).min(MOST)
}

/// Whether a number is the exponent of bounds that are so many units of two to its power.
pub fn is_exponent(e: u32, base: u64, top: u64) -> bool
    ensures { result ≡ (exponent_of (base * 2 ^ e) (top * 2 ^ e) == e) }
{
    if e < MOST {
        base % 2 == 1 || top % 2 == 1
    } else {
        e == MOST
    }
}

/// The least number from 3 to 14 for which the size is at most 511 times two to that power.
pub fn unit_exponent(size: u32) -> Result<u32, Refusal>
    ensures value { result ≡ (if nat_le 1 size && nat_le size 65536 then Ok (unit_exponent_of size) else Err BadParameter) }
    ensures least { IfOk result (λ e. IsUnitExponent size e) }
{
    if !(1..=LARGEST).contains(&size) {
        return Err(Refusal::BadParameter);
    }
    (LEAST..=MOST)
        .find(|e| size as u64 <= LONGEST << *e)
        .ok_or(Refusal::BadParameter)
}
