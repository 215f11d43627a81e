// The figure of a note: a number as a short exponential, as `1e-13`, `5e-7` or `2.5e-7`.
// The value is a fraction of two wide numbers: no rounding is done before the last digit's. What is known of the two changes from step to
// step, so it stands with each step: a type for the fraction would need another for each.
#![tactic(auto)]

mod wide;

ghost use Rattle.std.specs.Prelude.{◌≡◌, ◌∷◌, ◌++◌, ◌+◌, ◌*◌, ◌/◌, ◌%◌, ◌^◌, ◌≤◌, ◌<◌, pos, ◌-ℤ◌, IfSome};
ghost use Rattle.std.specs.Float.{binary32};
ghost use Rattle.std.specs.Float.Ieee.{of_bits};
ghost use Rattle.arrayvec.specs.ArrayVec.{array_vec_len};
ghost use Rattle.lsm_format.specs.Calibration.{figure, tens_above, tens_below, hundredfold, digit, mantissa, exponent_text, figure_text};
ghost use Rattle.figure.specs.Code.{number_of, letters_of};
ghost use Rattle.figure.specs.Wide.{room, Scaled, Quotient, Hundreds, Near, figure_of};

use crate::wide::Wide;
use arrayvec::ArrayVec;

// A wide number with `count` tens multiplied in.
#[derive(Clone, Copy)]
struct Tens {
    number: Wide,
    count: u32,
}

// The two functions below stay two: one looks at the number after the ten is multiplied in, the other before it.

// den, with a ten multiplied in while num is at least ten times as large; asked at most `left` times.
#[tactic(auto, using(crate::proofs::Powers::tens))]
fn above(num: Wide, den: Wide, left: u32) -> Tens
    requires { (10 * number_of num < room) × (10 * number_of den < room) }
    ensures { Scaled (tens_above left (number_of num) (number_of den)) (number_of den) left (number_of result.number) result.count }
{
    let mut number = den;
    for count in 0..left {
        let next = number.times(10);
        if !num.at_least(next) {
            return Tens { number, count };
        }
        number = next;
    }
    Tens {
        number,
        count: left,
    }
}

// num, with a ten multiplied in while it is below den; asked at most `left` times.
#[tactic(auto, using(crate::proofs::Powers::tens))]
fn below(num: Wide, den: Wide, left: u32) -> Tens
    requires { 10 * number_of den < room }
    ensures { Scaled (tens_below left (number_of num) (number_of den)) (number_of num) left (number_of result.number) result.count }
{
    let mut number = num;
    for count in 0..left {
        if number.at_least(den) {
            return Tens { number, count };
        }
        number = number.times(10);
    }
    Tens {
        number,
        count: left,
    }
}

// A quotient of few digits, and what is left.
#[derive(Clone, Copy)]
struct Digits {
    digits: u32,
    rest: Wide,
}

// How often den goes into num, a digit, and what is left.
#[tactic(auto, using(crate::proofs::Powers::divided))]
fn divided(num: Wide, den: Wide) -> Digits
    requires { number_of num < 10 * number_of den }
    ensures digit { (result.digits ≡ number_of num / number_of den) × (result.digits < 10) }
    ensures rest { number_of result.rest ≡ number_of num % number_of den }
{
    let mut rest = num;
    let mut digits = 0;
    while let Some(less) = rest.checked_sub(den) {
        rest = less;
        digits += 1;
    }
    Digits { digits, rest }
}

// Three digits of num / den, the first before the point, and what is left of the hundredfold.
#[tactic(auto, using(crate::proofs::Powers::rest_below, crate::proofs::Powers::three_digits, crate::proofs::Powers::three_rest))]
fn three_digits(num: Wide, den: Wide) -> Digits
    requires { (number_of den ≤ number_of num) × (number_of num < 10 * number_of den) × (10 * number_of den < room) }
    ensures { Quotient (number_of num) (number_of den) result.digits (number_of result.rest) }
{
    let a = divided(num, den);
    let b = divided(a.rest.times(10), den);
    let c = divided(b.rest.times(10), den);
    Digits {
        digits: 100 * a.digits + 10 * b.digits + c.digits,
        rest: c.rest,
    }
}

// The hundredfold of num / den to the nearest whole number, halves to the even one.
#[tactic(auto, using(crate::proofs::Powers::round_down, crate::proofs::Powers::round_half, crate::proofs::Powers::round_up))]
fn hundreds(num: Wide, den: Wide) -> u32
    requires { (number_of den ≤ number_of num) × (number_of num < 10 * number_of den) × (10 * number_of den < room) }
    ensures { Hundreds (hundredfold (number_of num) (number_of den)) result }
{
    let three = three_digits(num, den);
    let q = three.digits;
    let twice = three.rest.times(2);
    if !twice.at_least(den) {
        q
    } else if den.at_least(twice) {
        q + q % 2
    } else {
        q + 1
    }
}

// A digit as a letter.
fn letter(n: u32) -> u8
    requires { n < 10 }
    ensures { result ≡ digit n }
{
    b'0' + n as u8
}

// The digits with a point after the first, and no zero at the end.
fn point_text(q: u32) -> ArrayVec<u8, 8>
    requires { q < 1000 }
    ensures short { array_vec_len result ≤ 4 }
    ensures digits { result.items ≡ mantissa q }
{
    let mut text = ArrayVec::new();
    text.push(letter(q / 100));
    if q % 100 == 0 {
        return text;
    }
    text.push(b'.');
    text.push(letter(q / 10 % 10));
    if q % 10 == 0 {
        return text;
    }
    text.push(letter(q % 10));
    text
}

// The power of ten: `above` less `below`.
#[tactic(auto, using(crate::proofs::Exponents::exponent))]
fn push_power(text: &mut ArrayVec<u8, 8>, above: u32, below: u32)
    requires { (array_vec_len text.old ≤ 4) × (above < 100) × (below < 100) }
    ensures { text.new.items ≡ text.old.items ++ 101 ∷ exponent_text (pos above -ℤ pos below) }
{
    text.push(b'e');
    let mut power = itoa::Buffer::new();
    let power = power.format(above as i32 - below as i32);
    text.try_extend_from_slice(power.as_bytes()).unwrap();
}

// Three digits that rounded up to 1000 are 100 of the next power.
fn text(q: u32, above: u32, below: u32) -> ArrayVec<u8, 8>
    requires { (q ≤ 1000) × (above < 99) × (below < 99) }
    ensures is { result.items ≡ figure_text q (pos above -ℤ pos below) }
    ensures given { 0 < array_vec_len result }
{
    let (q, above) = if q == 1000 {
        (100, above + 1)
    } else {
        (q, above)
    };
    let mut text = point_text(q);
    push_power(&mut text, above, below);
    text
}

// The figure of num / den, which is at most 64 powers of ten from 1.
#[tactic(auto, using(crate::proofs::Powers::between))]
fn fraction_text(num: Wide, den: Wide) -> ArrayVec<u8, 8>
    requires { Near (number_of num) (number_of den) }
    ensures is { result.items ≡ figure_of (number_of num) (number_of den) }
    ensures given { 0 < array_vec_len result }
{
    let up = above(num, den, 64);
    let down = below(num, den, 64);
    text(hundreds(down.number, up.number), up.count, down.count)
}

// The figure of the f32 with this pattern; None where it is not above 0 or not finite.
#[tactic(auto, using(crate::proofs::Fractions::figure_zero, crate::proofs::Fractions::figure_none, crate::proofs::Fractions::figure_tiny, crate::proofs::Fractions::figure_normal, crate::proofs::Powers::near, crate::proofs::Powers::near_small))]
pub fn short_exponential(bits: u32) -> Option<ArrayVec<u8, 8>>
    ensures is { letters_of result ≡ figure (of_bits binary32 bits) }
    ensures given { IfSome result (λ figure. 0 < array_vec_len figure) }
{
    if bits == 0 || 0x7f80_0000 <= bits {
        return None;
    }
    // The value is the mantissa doubled field - 1 times, over 2 ^ 149: a field of 0 counts as 1 and has no leading bit.
    let field = bits / 0x80_0000;
    let low = bits % 0x80_0000;
    let den = Wide::new(1).doubled(149);
    if field == 0 {
        return Some(fraction_text(Wide::new(low), den));
    }
    let num = Wide::new(0x80_0000 + low).doubled(field - 1);
    Some(fraction_text(num, den))
}
