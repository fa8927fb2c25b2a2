//! A reader of fields, from left to right.

ghost use Rattle.std.specs.Prelude.{◌≡◌, ◌<◌, ◌^◌, length, IfOk, IfErr, Ok, Err};
ghost use Rattle.std.specs.Int.{w64, w128, from_le_bytes};
ghost use Rattle.event_codec.specs.Places.{beginning};
ghost use Rattle.event_codec.specs.ReadResults.{Reads};
ghost use Rattle.event_codec.specs.Reading.{bytes_at, byte_at, u32_at, i64_at, i128_at, flag_at};

use crate::enc::Enc;
use crate::fault::CodecFault;
use crate::varint::{from_wide_zigzag, from_zigzag, varint, wide_varint};
use std::marker::Model;

/// A place in a payload, with the bytes from there on. Each field that is read moves it behind the field.
#[derive(Drop)]
pub(crate) struct Cursor<'a> {
    at: usize,
    rest: &'a [u8],
}

impl<'a> Model for Cursor<'a> {
    ghost use Rattle.std.specs.Prelude.{◌+◌, ◌<◌, ◌^◌, length};
    ghost use Rattle.event_codec.specs.Places.{Place, code_Place};

    ghost Value = { Place };

    ghost coded = { code_Place };

    ghost view = { λ c. record { at = c.at; rest = c.rest.now } };

    ghost invariant = { λ c. c.at + length c.rest.now < 2 ^ 64 };
}

/// So many bytes as an array.
#[inline(always)]
fn array<const N: usize>(bytes: &[u8]) -> [u8; N]
    requires { length bytes.now ≡ N }
    ensures { result ≡ bytes.now }
{
    let mut array = [0; N];
    array.copy_from_slice(bytes);
    array
}

/// The number of 8 bytes.
#[inline(always)]
fn word(bytes: &[u8]) -> u64
    requires { length bytes.now ≡ 8 }
    ensures value { result ≡ from_le_bytes w64 bytes.now }
    ensures small { result < 2 ^ 64 }
{
    u64::from_le_bytes(array(bytes))
}

/// The number of 16 bytes, by its halves: each is loaded as one word, where 16 bytes would be loaded in pieces.
#[inline(always)]
fn two_words(bytes: &[u8]) -> u128
    requires { length bytes.now ≡ 16 }
    ensures { result ≡ from_le_bytes w128 bytes.now }
{
    let (low, high) = bytes.split_at(8);
    u128::from(word(low)) + u128::from(word(high)) * (1 << 64)
}

impl<'a> Cursor<'a> {
    /// The first place.
    pub(crate) fn new(bytes: &'a [u8]) -> Cursor<'a>
        ensures { result ≡ beginning bytes.now }
    {
        Cursor { at: 0, rest: bytes }
    }

    /// How many bytes were read.
    pub(crate) fn at(&self) -> usize
        ensures { result ≡ self.now.at }
    {
        self.at
    }

    /// The bytes that weren't read yet.
    pub(crate) fn rest(&self) -> &'a [u8]
        ensures { result.now ≡ self.now.rest }
    {
        self.rest
    }

    /// The next bytes. They are borrowed: an array within a result is copied in odd pieces, which is slow to read again.
    #[inline(always)]
    #[tactic(auto, unfolding(crate::specs::Reading::bytes_at))]
    pub(crate) fn bytes(&mut self, count: usize) -> Result<&'a [u8], CodecFault>
        ensures found { IfOk result (λ b. bytes_at count self.old ≡ Ok (b.now, self.new)) }
        ensures size { IfOk result (λ b. length b.now ≡ count) }
        ensures short { IfErr result (λ f. bytes_at count self.old ≡ Err f) }
    {
        if self.rest.len() < count {
            return Err(CodecFault::Short { at: self.at });
        }
        let (front, rest) = self.rest.split_at(count);
        self.at += count;
        self.rest = rest;
        Ok(front)
    }

    /// One byte.
    #[tactic(auto, unfolding(crate::specs::Reading::byte_at))]
    pub(crate) fn byte(&mut self) -> Result<u8, CodecFault>
        ensures { Reads result self.new (byte_at self.old) }
    {
        let bytes = self.bytes(1)?;
        Ok(u8::from_le_bytes(array(bytes)))
    }

    /// A number of 32 bits.
    #[inline(always)]
    #[tactic(auto, unfolding(crate::specs::Reading::u32_at))]
    pub(crate) fn u32(&mut self, enc: Enc) -> Result<u32, CodecFault>
        ensures { Reads result self.new (u32_at enc self.old) }
    {
        match enc {
            Enc::One => {
                let bytes = self.bytes(4)?;
                Ok(u32::from_le_bytes(array(bytes)))
            }
            Enc::Two => Ok(varint(self, u64::from(u32::MAX))? as u32),
        }
    }

    /// A signed number of 64 bits.
    #[inline(always)]
    #[tactic(auto, unfolding(crate::specs::Reading::i64_at))]
    pub(crate) fn i64(&mut self, enc: Enc) -> Result<i64, CodecFault>
        ensures { Reads result self.new (i64_at enc self.old) }
    {
        match enc {
            Enc::One => {
                let bytes = self.bytes(8)?;
                Ok(i64::from_le_bytes(array(bytes)))
            }
            Enc::Two => Ok(from_zigzag(varint(self, u64::MAX)?)),
        }
    }

    /// A signed number of 128 bits.
    #[inline(always)]
    #[tactic(auto, unfolding(crate::specs::Reading::i128_at))]
    pub(crate) fn i128(&mut self, enc: Enc) -> Result<i128, CodecFault>
        ensures { Reads result self.new (i128_at enc self.old) }
    {
        match enc {
            Enc::One => {
                let bytes = self.bytes(16)?;
                Ok(two_words(bytes).cast_signed())
            }
            Enc::Two => Ok(from_wide_zigzag(wide_varint(self)?)),
        }
    }

    /// A flag: 0 is false, and 1 is true.
    #[tactic(auto, unfolding(crate::specs::Reading::flag_at))]
    pub(crate) fn flag(&mut self) -> Result<bool, CodecFault>
        ensures { Reads result self.new (flag_at self.old) }
    {
        let at = self.at;
        let flag = self.byte()?;
        if flag >= 2 {
            return Err(CodecFault::BadValue { at });
        }
        Ok(flag == 1)
    }
}
