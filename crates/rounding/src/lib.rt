// f64 values, given by their bits, rounded to a whole number of units, and the f64 values nearest to such numbers.
#![tactic(auto)]

ghost use Rattle.std.specs.Prelude.{◌≡◌, true, ◌^◌, ◌≤◌, ◌<◌, min};
ghost use Rattle.std.specs.Float.{binary64};
ghost use Rattle.std.specs.Float.Ieee.{round, of_bits, to_bits};
ghost use Rattle.machine.specs.Record.{finite};
ghost use Rattle.machine.specs.Rounding.{nearest_whole, in_units};

// The first number of units that no columns hold.
pub const WIDE: u64 = 10_000_000;

// The whole number nearest to a / 2^k. "A binary value exactly halfway goes to the even last digit": an odd quotient adds one to twice the
// rest, which decides at a half alone. So one comparison rounds, and no branch is mispredicted.
fn nearest_whole(a: u64, k: u64) -> u64
    requires { (k ≤ 63) × (a < 0x8000_0000_0000_0000) }
    ensures { result ≡ nearest_whole a (2 ^ k) }
{
    let unit = 1u64 << k;
    let q = a / unit;
    let twice = (a % unit) * 2;
    if unit < twice + q % 2 { q + 1 } else { q }
}

// The size of an f64 in units of 1 / unit, rounded to a whole number where that is below WIDE; else WIDE. A value whose exponent's
// field is below 1012 is less than half a unit, and one above 1074 is at least 2^52.
pub fn in_units(bits: u64, unit: u64) -> u64
    requires { (1 ≤ unit) × (unit ≤ 1000) × (finite bits ≡ true) }
    ensures { result ≡ min (in_units unit (of_bits binary64 bits)) 10000000 }
{
    let magnitude = bits % 0x8000_0000_0000_0000;
    let field = magnitude / 0x0010_0000_0000_0000;
    if field < 1012 {
        return 0;
    }
    if 1074 < field {
        return WIDE;
    }
    let digits = 0x0010_0000_0000_0000 + magnitude % 0x0010_0000_0000_0000;
    nearest_whole(digits * unit, 1075 - field).min(WIDE)
}

// The bits of the f64 nearest to n / unit, with a minus where it is negative: both numbers are exact as f64 values, and one division rounds.
pub fn nearest_bits(negative: bool, n: u64, unit: u64) -> u64
    requires { (n < 0x0010_0000_0000_0000) × (1 ≤ unit) × (unit ≤ 1000) }
    ensures { result ≡ to_bits binary64 (round binary64 negative n unit) }
{
    let size = (n as f64) / (unit as f64);
    if negative {
        (-size).to_bits()
    } else {
        size.to_bits()
    }
}
