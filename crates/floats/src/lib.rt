// Words as floats and signed numbers, and the tests on floats (atom.rs, search.rs).
#![tactic(auto)]

ghost use Rattle.std.specs.Prelude.{◌≡◌};
ghost use Rattle.std.specs.Float.{binary64};
ghost use Rattle.std.specs.Float.Ieee.{of_bits};
ghost use Rattle.std.specs.Int.{w64};
ghost use Rattle.std.proofs.Common.{to_z};
ghost use Rattle.machine.specs.Classes.{class_of};
ghost use Rattle.machine.specs.Record.{finite};
ghost use Rattle.machine.specs.Query as Query;

use machine::FloatClass;
use std::num::f64_from_bits_with_nan;

// The f64 of any bits, those of a NaN too.
pub fn float_of(bits: u64) -> f64
    ensures { result ≡ of_bits binary64 bits }
{
    f64_from_bits_with_nan(bits)
}

// The i64 of any two's complement bits.
pub fn int_of(bits: u64) -> i64
    ensures { result ≡ to_z w64 bits }
{
    bits.cast_signed()
}

// IEEE 754's class of any bits, by the fields of exponent and fraction.
pub fn class_of(bits: u64) -> FloatClass
    ensures { result ≡ class_of bits }
{
    let exponent = bits / 0x10_0000_0000_0000 % 0x800;
    let fraction = bits % 0x10_0000_0000_0000;
    match (exponent, fraction) {
        (0x7ff, 0) => FloatClass::Infinite,
        (0x7ff, _) => FloatClass::NotANumber,
        (0, 0) => FloatClass::Zero,
        (0, _) => FloatClass::Subnormal,
        _ => FloatClass::Normal,
    }
}

// "finite are exactly the first three": zero, subnormal and normal.
pub fn is_finite(bits: u64) -> bool
    ensures { result ≡ finite bits }
{
    match class_of(bits) {
        FloatClass::Zero => true,
        FloatClass::Subnormal => true,
        FloatClass::Normal => true,
        FloatClass::Infinite => false,
        FloatClass::NotANumber => false,
    }
}

// "one rounded subtraction, sign dropped, strictly below 2^-52"
pub fn close(a: f64, b: f64) -> bool
    ensures { result ≡ Query.close a b }
{
    (a - b).abs() < f64::EPSILON
}
