// From metres in f64 to micrometres in f32.
#![tactic(auto)]

ghost use Rattle.std.specs.Prelude.{◌≡◌, false, ◌+◌, ◌*◌, ◌^◌, ◌≤◌, ◌<◌};
ghost use Rattle.std.specs.Float.{binary32, binary64};
ghost use Rattle.std.specs.Float.Ieee.{of_bits, to_bits, of_fields};
ghost use Rattle.std.specs.Float.Ieee.Nearest.{closest};
ghost use Rattle.lsm_format.specs.Calibration.{narrow, micrometres};
ghost use Rattle.narrowing.specs.Code.{float_of};

use std::num::f64_from_bits_with_nan;

// m without that many of its last binary digits, nearest with halves to even. Where more than 54 go, all of m is less
// than a half.
#[tactic(auto, using(crate::proofs::Halves::closest_far, crate::proofs::Halves::closest_down, crate::proofs::Halves::closest_up, crate::proofs::Halves::closest_tie, crate::proofs::Halves::unit_is, crate::proofs::Halves::twice_is))]
fn without_last(m: u64, digits: u64) -> u64
    requires { m < 2 ^ 53 }
    ensures { result ≡ closest m (2 ^ digits) }
{
    if 54 < digits {
        return 0;
    }
    let unit = 1u64 << digits;
    let kept = m >> digits;
    let twice = (m & (unit - 1)) << 1;
    if twice < unit {
        kept
    } else if unit < twice {
        kept + 1
    } else {
        kept + (kept & 1)
    }
}

// The f32 pattern of a finite double, without the sign. The leading digit of what is kept adds one to the exponent's
// field, and a carry adds one more, so the two parts are added.
#[tactic(auto, using(crate::proofs::Double::written_high, crate::proofs::Double::pattern_low, crate::proofs::Double::pattern_subnormal, crate::proofs::Double::answer))]
fn magnitude(exponent: u64, fraction: u64) -> u64
    requires { (exponent < 2047) × (fraction < 2 ^ 52) }
    ensures { (result ≡ to_bits binary32 (narrow (of_fields binary64 false exponent fraction))) × (result ≤ 0x7f80_0000) }
{
    // a subnormal double is far below half of the least f32
    if exponent == 0 {
        return 0;
    }
    let m = fraction + 0x10_0000_0000_0000;
    // below the least normal f32 the field stays 0, and more digits go
    if exponent < 897 {
        return without_last(m, 926 - exponent);
    }
    let pattern = ((exponent - 897) << 23) + without_last(m, 29);
    if pattern < 0x7f80_0000 {
        pattern
    } else {
        0x7f80_0000
    }
}

// A pattern with its sign, 0 or 1, at bit 31.
fn signed(sign: u64, pattern: u64) -> u32
    requires { (sign < 2) × (pattern < 2 ^ 31) }
    ensures { result ≡ sign * 2 ^ 31 + pattern }
{
    ((sign << 31) + pattern) as u32
}

// The f32 pattern of what a 64-bit pattern stands for, nearest with halves to even; a NaN's is 7fc00000.
#[tactic(auto, using(crate::proofs::Double::of_finite, crate::proofs::Double::of_infinity, crate::proofs::Double::of_nan))]
pub fn narrow_bits(bits: u64) -> u32
    ensures { result ≡ to_bits binary32 (narrow (of_bits binary64 bits)) }
{
    let sign = bits >> 63;
    let exponent = (bits >> 52) & 0x7ff;
    let fraction = bits & 0xf_ffff_ffff_ffff;
    if exponent == 0x7ff {
        if fraction == 0 {
            return signed(sign, 0x7f80_0000);
        }
        return 0x7fc0_0000;
    }
    signed(sign, magnitude(exponent, fraction))
}

// The micrometres of the 64-bit pattern of a voxel size in metres: one product in f64, then narrowed. None is a NaN.
#[tactic(auto, using(crate::proofs::Product::product_nan, crate::proofs::Product::narrowed, crate::proofs::Product::narrowed_number))]
pub fn to_micrometres(bits: u64) -> Option<f32>
    ensures { float_of result ≡ micrometres bits }
{
    let product = f64_from_bits_with_nan(bits) * 1000000.0;
    if product.is_nan() {
        return None;
    }
    let narrowed = narrow_bits(product.to_bits());
    Some(f32::from_bits(narrowed))
}
