//! Reads the data types of RFC 4251, section 5, from the front of bytes.

ghost use Rattle.std.specs.Prelude.{◌≡◌, ◌+◌, ◌^◌, ◌<◌, ◌≤◌, ◌↔◌, [], ◌∷◌, ◌++◌, length, take, drop, IsTrue, IsErr, IfOk, IfErr, OnOk, OnErr, MatchResult, Some, None};
ghost use Rattle.wire_text.specs.Wire.{IsBytes, uint32, uint64, string};
ghost use Rattle.wire_core.specs.Fields.{boolean_at, uint32_at, uint64_at, string_at, string_len, IsShortOf};

use crate::short::Short;
use std::marker::Model;

/// Takes fields from the front of bytes.
#[derive(Drop)]
pub struct Cursor<'a> {
    left: &'a [u8],
}

impl<'a> Model for Cursor<'a> {
    ghost use Rattle.std.specs.Prelude.{List, ℕ};

    ghost Value = { List ℕ };

    ghost view = { λ cursor. cursor.left.now };

    ghost use Rattle.wire_text.specs.Wire.{IsBytes};

    ghost invariant = { λ cursor. IsBytes cursor.left.now };
}

impl<'a> Cursor<'a> {
    /// A cursor over all of `bytes`.
    pub fn new(bytes: &'a [u8]) -> Cursor<'a>
        ensures { result ≡ bytes.now }
    {
        Cursor { left: bytes }
    }

    /// Takes `count` bytes.
    fn take(&mut self, count: usize) -> Result<&'a [u8], Short>
        ensures front { IfOk result (λ bytes. bytes.now ≡ take count self.old) }
        ensures rest { OnOk result (self.new ≡ drop count self.old) }
        ensures len { IfOk result (λ bytes. length bytes.now ≡ count) }
        ensures short { IsErr result ↔ (length self.old < count) }
        ensures wanted { IfErr result (IsShortOf count self.old) }
        ensures unchanged { OnErr result (self.new ≡ self.old) }
    {
        if self.left.len() < count {
            return Err(self.short(count as u64));
        }
        let (bytes, left) = self.left.split_at(count);
        self.left = left;
        Ok(bytes)
    }

    fn short(&self, wanted: u64) -> Short
        ensures { IsShortOf wanted self.now result }
    {
        Short {
            wanted,
            had: self.left.len() as u64,
        }
    }

    /// Takes a byte.
    pub fn take_u8(&mut self) -> Result<u8, Short>
        ensures found { IfOk result (λ value. self.old ≡ value ∷ self.new) }
        ensures short { IsErr result ↔ (self.old ≡ []) }
        ensures wanted { IfErr result (IsShortOf 1 self.old) }
        ensures unchanged { OnErr result (self.new ≡ self.old) }
    {
        let bytes = self.take(1)?;
        Ok(bytes[0])
    }

    /// Takes a uint32.
    #[tactic(auto, unfolding(wire_text::specs::Wire::uint32, wire_text::specs::Wire::announced_len, crate::specs::Fields::uint32_at))]
    pub fn take_u32(&mut self) -> Result<u32, Short>
        ensures found { IfOk result (λ value. self.old ≡ uint32 value ++ self.new) }
        ensures short { IsErr result ↔ (length self.old < 4) }
        ensures wanted { IfErr result (IsShortOf 4 self.old) }
        ensures exact { MatchResult result (λ value. uint32_at self.old ≡ Some (value, self.new))
            (λ _. uint32_at self.old ≡ None) }
        ensures unchanged { OnErr result (self.new ≡ self.old) }
    {
        let bytes = self.take(4)?;
        Ok(u32::from_be_bytes([bytes[0], bytes[1], bytes[2], bytes[3]]))
    }

    /// Takes a uint64.
    #[tactic(auto, unfolding(wire_text::specs::Wire::uint64, crate::specs::Fields::uint64_at))]
    pub fn take_u64(&mut self) -> Result<u64, Short>
        ensures found { IfOk result (λ value. self.old ≡ uint64 value ++ self.new) }
        ensures short { IsErr result ↔ (length self.old < 8) }
        ensures wanted { IfErr result (IsShortOf 8 self.old) }
        ensures exact { MatchResult result (λ value. uint64_at self.old ≡ Some (value, self.new))
            (λ _. uint64_at self.old ≡ None) }
        ensures unchanged { OnErr result (self.new ≡ self.old) }
    {
        let bytes = self.take(8)?;
        Ok(u64::from_be_bytes([
            bytes[0], bytes[1], bytes[2], bytes[3], bytes[4], bytes[5], bytes[6], bytes[7],
        ]))
    }

    /// Takes a boolean: every byte but zero is true.
    pub fn take_bool(&mut self) -> Result<bool, Short>
        ensures found { IfOk result (λ value. boolean_at self.old ≡ Some (value, self.new)) }
        ensures short { IsErr result ↔ (self.old ≡ []) }
        ensures wanted { IfErr result (IsShortOf 1 self.old) }
        ensures unchanged { OnErr result (self.new ≡ self.old) }
    {
        Ok(self.take_u8()? != 0)
    }

    /// Takes a string, which borrows from the buffer.
    ///
    /// Where its four bytes of length are there, a refusal counts them too.
    #[tactic(auto, unfolding(wire_text::specs::Wire::string, crate::specs::Fields::string_len, crate::specs::Fields::string_at, crate::specs::Fields::uint32_at))]
    pub fn take_string(&mut self) -> Result<&'a [u8], Short>
        ensures found { IfOk result (λ value. self.old ≡ string value.now ++ self.new) }
        ensures bound { IfOk result (λ value. length value.now < 2 ^ 32) }
        ensures short { IsErr result ↔ (length self.old < string_len self.old) }
        ensures wanted { IfErr result (IsShortOf (string_len self.old) self.old) }
        ensures exact { MatchResult result
            (λ value. string_at self.old ≡ Some (value.now, self.new))
            (λ _. string_at self.old ≡ None) }
        ensures unchanged { OnErr result (self.new ≡ self.old) }
    {
        // `self` moves only once both parts are there.
        let mut ahead = Cursor::new(self.left);
        let announced = ahead.take_u32()? as usize;
        let Ok(value) = ahead.take(announced) else {
            return Err(self.short(4 + announced as u64));
        };
        self.left = ahead.left;
        Ok(value)
    }

    /// The bytes that are left, which borrow from the buffer.
    pub fn rest(&self) -> &'a [u8]
        ensures value { result.now ≡ self.now }
        ensures bytes { IsBytes result.now }
    {
        self.left
    }

    /// Whether no byte is left.
    pub fn at_end(&self) -> bool
        ensures { IsTrue result ↔ (self.now ≡ []) }
    {
        self.left.is_empty()
    }
}
