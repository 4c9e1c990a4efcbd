//! Words of hexadecimal digits, which stand for bytes.

ghost use Rattle.std.specs.Prelude.{◌≡◌, ◌≤◌, ℕ, List, IfOk, IfSome, IfNone, IsTrue, ◌↔◌};
ghost use Rattle.std.specs.List.{AllByRecursion};
ghost use Rattle.urb_script.specs.ByteWords.{IsHexWord};
ghost use Rattle.urb_script.specs.internal.HexDigits.{IsHexDigit, digit_value, byte_of};

use std::alloc::Allocator;
use std::marker::Model;
use urb_names::NoMemory;

/// Bytes as hexadecimal digits, borrowed from a line.
#[derive(Drop)]
pub struct HexBytes<'a> {
    digits: &'a [u8],
}

impl<'a> Model for HexBytes<'a> {
    ghost use Rattle.std.specs.Prelude.{List, ℕ};
    ghost use Rattle.urb_script.specs.internal.HexDigits.{bytes_of, ArePairs};

    ghost Value = { List ℕ };

    ghost view = { λ bytes. bytes_of bytes.digits.now };

    ghost invariant = { λ bytes. ArePairs bytes.digits.now };
}

// Says whether a byte is a digit.
fn is_digit(byte: u8) -> bool
    ensures { IsTrue result ↔ IsHexDigit byte }
{
    matches!(byte, b'0'..=b'9' | b'A'..=b'F' | b'a'..=b'f')
}

// Says whether all bytes are digits.
fn all_digits(word: &[u8]) -> bool
    ensures { IsTrue result ↔ AllByRecursion IsHexDigit word.now }
{
    word.iter().all(|byte| is_digit(*byte))
}

// Returns the value of a digit.
fn digit_value(digit: u8) -> u8
    requires { IsHexDigit digit }
    ensures value { result ≡ digit_value digit }
    ensures small { result ≤ 15 }
{
    if digit < b':' {
        digit - b'0'
    } else if digit < b'G' {
        digit - b'A' + 10
    } else {
        digit - b'a' + 10
    }
}

// Returns the byte of two digits.
fn byte_of(high: u8, low: u8) -> u8
    requires high { IsHexDigit high }
    requires low { IsHexDigit low }
    ensures { result ≡ byte_of high low }
{
    16 * digit_value(high) + digit_value(low)
}

impl<'a> HexBytes<'a> {
    /// Parses a word of digits. A hyphen alone stands for no bytes.
    pub fn new(word: &'a [u8]) -> Option<HexBytes<'a>>
        ensures some { IfSome result (λ bytes. IsHexWord bytes word.now) }
        ensures none { IfNone result ((bytes : List ℕ) → IsHexWord bytes word.now → ⊥) }
    {
        if word == b"-".as_slice() {
            return Some(HexBytes { digits: &word[..0] });
        }
        if word.is_empty() {
            return None;
        }
        if word.len() % 2 != 0 {
            return None;
        }
        if !all_digits(word) {
            return None;
        }
        Some(HexBytes { digits: word })
    }

    /// Returns the bytes themselves. Their memory comes from `alloc`.
    pub fn decode<A: Allocator>(&self, alloc: A) -> Result<Vec<u8, A>, NoMemory>
        ensures { IfOk result (λ bytes. bytes.items ≡ self.now) }
    {
        let digits = self.digits;
        let mut bytes = Vec::new(alloc);
        for at in 0..digits.len() / 2 {
            bytes.push(byte_of(digits[2 * at], digits[2 * at + 1]))?;
        }
        Ok(bytes)
    }
}
