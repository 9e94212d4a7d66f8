//! Integers of 1 to 64 bits.

ghost use Rattle.std.specs.Prelude.{◌≡◌, ◌↔◌, ◌+◌, ◌-◌, ◌%◌, ◌^◌, ◌<◌, ◌≤◌, ◌++◌, IfOk, OnOk, IfSome, IsTrue, is_some};
ghost use Rattle.std.specs.Prelude.{pos, string_bytes};
ghost use Rattle.std.specs.Fmt.{decimal};
ghost use Rattle.plir_data.specs.Integers.{bits_of, is_high, is_width, signed_of, literal};

use crate::memory::Memory;
use std::alloc::Global;

/// The bits of an integer, below two to its width; the width is 1 to 64.
#[derive(Clone, Copy, PartialEq, Eq, Hash, Debug)]
pub struct APInt {
    width: u32,
    bits: u64,
    pub ghost some: { 1 ≤ width },
    pub ghost few: { width ≤ 64 },
    pub ghost below: { bits < 2 ^ width },
}

// Two to a width.
fn two_to(width: u32) -> u128
    requires { width ≤ 64 }
    ensures { result ≡ 2 ^ width }
{
    1u128 << width
}

fn is_width(width: u32) -> bool
    ensures { result ≡ is_width width }
{
    1 <= width && width <= 64
}

impl APInt {
    /// The bits of a number modulo two to the width; none for a width other than 1 to 64.
    pub fn from_u64(value: u64, width: u32) -> Option<APInt>
        ensures width { is_some result ≡ is_width width }
        ensures value { IfSome result (λ n. (n.width ≡ width) × (n.bits ≡ bits_of (pos value) width)) }
    {
        if !is_width(width) {
            return None;
        }
        let bits = (u128::from(value) % two_to(width)) as u64;
        Some(APInt { width, bits })
    }

    /// The bits of a number modulo two to the width; none for a width other than 1 to 64.
    pub fn from_i64(value: i64, width: u32) -> Option<APInt>
        ensures width { is_some result ≡ is_width width }
        ensures value { IfSome result (λ n. (n.width ≡ width) × (n.bits ≡ bits_of value width)) }
    {
        if !is_width(width) {
            return None;
        }
        let modulus = two_to(width);
        let bits = if value >= 0 {
            u128::from(value.cast_unsigned()) % modulus
        } else {
            modulus - 1 - u128::from((-1 - value).cast_unsigned()) % modulus
        };
        Some(APInt {
            width,
            bits: bits as u64,
        })
    }

    /// The width in bits, from 1 to 64.
    pub fn bw(&self) -> u32
        ensures value { result ≡ self.now.width }
        ensures within { IsTrue (is_width result) }
    {
        self.width
    }

    // Whether the highest bit is set.
    fn is_high(&self) -> bool
        ensures { result ≡ is_high self.now.width self.now.bits }
    {
        u128::from(self.bits) >= two_to(self.width - 1)
    }

    /// The bits as a number with a sign, in two's complement.
    pub fn to_i64(&self) -> i64
        ensures { result ≡ signed_of self.now.width self.now.bits }
    {
        if self.is_high() {
            -1 - (two_to(self.width) - 1 - u128::from(self.bits)) as i64
        } else {
            self.bits as i64
        }
    }

    /// The bits as a number without a sign.
    pub fn to_u64(&self) -> u64
        ensures { result ≡ self.now.bits }
    {
        self.bits
    }

    /// Whether no bit is set.
    pub fn is_zero(&self) -> bool
        ensures { IsTrue result ↔ (self.now.bits ≡ 0) }
    {
        self.bits == 0
    }

    /// The decimal digits of the number with a sign, or of the one without.
    pub fn to_string_decimal(&self, alloc: Global, signed: bool) -> Result<String, Memory>
        ensures { IfOk result (λ s. string_bytes s ≡ literal signed self.now.width self.now.bits) }
    {
        let mut text = String::new(alloc);
        if signed && self.is_high() {
            text.push('-')?;
            put_decimal(&mut text, two_to(self.width) - u128::from(self.bits))?;
        } else {
            put_decimal(&mut text, u128::from(self.bits))?;
        }
        Ok(text)
    }
}

// Writes a number in decimal digits.
pub(crate) fn put_decimal(out: &mut String, n: u128) -> Result<(), Memory>
    ensures { OnOk result (string_bytes out.new ≡ string_bytes out.old ++ decimal n) }
{
    write!(out, "{n}")?;
    Ok(())
}
