//! The ten units, and a number for one of them.

ghost use Rattle.std.specs.Prelude.{◌≡◌, ◌*◌, ◌/◌, ◌≤◌, ◌^◌, ◌↔◌, IsTrue};
ghost use Rattle.rc_fixed.specs.Units.{IsUnits};

/// How many units of length a micron may have.
const UNITS_OF_A_MICRON: [u32; 10] = [100, 200, 400, 800, 1000, 2000, 4000, 8000, 10_000, 20_000];

/// Whether a micron may have so many units of length: 100, 200, 400, 800, 1000, 2000, 4000, 8000,
/// 10000 or 20000.
pub fn is_units(m: u32) -> bool
    ensures { IsTrue result ↔ IsUnits m }
{
    UNITS_OF_A_MICRON.contains(&m)
}

/// What a rule says for a micron, for one of the `m` units of length of a micron.
///
/// The rule's number is in units of 10^-9, the answer in units of 10^-15. It is exact, since `m`
/// divides 10^6.
pub fn per_unit(rule: u64, m: u32) -> u128
    requires rule { rule ≤ 10 ^ 13 }
    requires units { IsUnits m }
    ensures exact { result * m ≡ rule * 10 ^ 6 }
    ensures quotient { result ≡ rule * 10 ^ 6 / m }
    ensures bound { result ≤ 10 ^ 17 }
{
    u128::from(rule) * 1_000_000 / u128::from(m)
}
