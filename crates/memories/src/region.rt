//! Bytes that stand at a base, as they are read: what RAM, ROM and scratch have in common.

ghost use Rattle.std.specs.Prelude.{◌≡◌, ◌-◌, length, if◌then◌else◌, Some, None};
ghost use Rattle.bus.specs.Meaning.{word_at, look_result};
ghost use Rattle.memories.specs.Region.{byte_at, is_outside, ram};
ghost use Rattle.bus.specs.Request.{word_of};
ghost use Rattle.bus.specs.declared.request.Answer.TheVariants.{BusError, Done};

use bus::request::{Answer, word_of};

/// Bytes at hand never let a request wait.
pub(crate) const LONGEST_WAIT: u16 = 0;

/// Bytes at a base.
#[derive(Clone, Copy)]
pub(crate) struct Region<'a> {
    pub(crate) base: u32,
    pub(crate) bytes: &'a [u8],
}

impl Region<'_> {
    /// Where the word of an address begins within the range, or none where it lies outside.
    #[inline(always)]
    pub(crate) fn offset(&self, address: u32) -> Option<usize>
        ensures { result ≡ (if is_outside self.now.base (length self.now.bytes.now) (word_of address)
            then None
            else Some (word_of address - self.now.base)) }
    {
        let at = word_of(address).checked_sub(self.base)? as usize;
        (at + 4 <= self.bytes.len()).then_some(at)
    }

    /// The word of an address.
    #[inline(always)]
    pub(crate) fn read(&self, address: u32) -> Answer
        ensures { result ≡ (if is_outside self.now.base (length self.now.bytes.now) (word_of address)
            then BusError
            else Done (word_at (byte_at self.now.base self.now.bytes.now) (word_of address))) }
    {
        let Some(at) = self.offset(address) else {
            return Answer::BusError;
        };
        let bytes = self.bytes;
        Answer::Done(u32::from_le_bytes([bytes[at], bytes[at + 1], bytes[at + 2], bytes[at + 3]]))
    }

    /// The byte at an address, or none where its word lies outside.
    #[inline(always)]
    pub(crate) fn look(&self, address: u32) -> Option<u8>
        ensures { result ≡ look_result (ram self.now.base self.now.bytes.now) address }
    {
        let at = self.offset(address)?;
        let bytes = self.bytes;
        Some(bytes[at + (address & 3) as usize])
    }
}
