//! RAM: the caller's bytes at a base.

ghost use Rattle.std.specs.Prelude.{◌≡◌, ◌-◌, length};
ghost use Rattle.bus.specs.Meaning.{Keeps};
ghost use Rattle.bus.specs.Request.{word_of, first_address, write_of};
ghost use Rattle.memories.specs.Placement.{placed_bytes};
ghost use Rattle.memories.specs.Ram.{RamSteps, ram_means};
ghost use Rattle.memories.specs.Region.{RegionSteps, ram};

use super::placement::placed_length;
use super::region::{LONGEST_WAIT, Region};
use bus::memory::Bus;
use bus::request::{Action, Answer, Request, Width};

#[derive(Drop)]
pub struct Ram<'a> {
    pub(crate) base: u32,
    pub(crate) bytes: &'a mut [u8],
}

/// Where in its word a write begins: a word write ignores two low address bits, a half write one.
#[inline(always)]
fn lane(width: Width, address: u32) -> usize
    ensures { result ≡ first_address width address - word_of address }
{
    let byte = (address & 3) as usize;
    match width {
        Width::Word => 0,
        Width::Half => byte & !1,
        Width::Byte => byte,
    }
}

impl<'a> Ram<'a> {
    /// RAM that stands at `base`; one at a denied placement refuses everything.
    pub fn new(base: u32, bytes: &'a mut [u8]) -> Ram<'a>
        ensures means { ram_means result ≡ ram base (placed_bytes base bytes.old) }
        ensures base { result.base ≡ base }
        ensures bytes { result.bytes.now ≡ placed_bytes base bytes.old }
        ensures same_reference { length (placed_bytes base bytes.old) ≡ length bytes.old
            → result.bytes.ghost_name ≡ bytes.entry.ghost_name }
    {
        let length = placed_length(base, bytes.len());
        if length == bytes.len() {
            Ram { base, bytes }
        } else {
            Ram {
                base,
                bytes: &mut [],
            }
        }
    }
}

impl Ram<'_> {
    #[inline(always)]
    fn region(&self) -> Region<'_>
        ensures base { result.base ≡ self.now.base }
        ensures bytes { result.bytes.now ≡ self.now.bytes.now }
    {
        Region {
            base: self.base,
            bytes: self.bytes,
        }
    }

    #[inline(always)]
    fn write(&mut self, width: Width, address: u32, data: u32) -> Answer
        ensures same_reference { self.new.bytes.ghost_name ≡ self.old.bytes.ghost_name }
        ensures moves { RegionSteps self.old.base self.old.bytes.now (write_of width address «data»)
            result self.new.base self.new.bytes.now }
    {
        let Some(at) = self.region().offset(address) else {
            return Answer::BusError;
        };
        let start = at + lane(width, address);
        let [b0, b1, b2, b3] = data.to_le_bytes();
        match width {
            Width::Word => {
                self.bytes[start] = b0;
                self.bytes[start + 1] = b1;
                self.bytes[start + 2] = b2;
                self.bytes[start + 3] = b3;
            }
            Width::Half => {
                self.bytes[start] = b0;
                self.bytes[start + 1] = b1;
            }
            Width::Byte => self.bytes[start] = b0,
        }
        Answer::Done(0)
    }

    /// One request of bytes that can be read and written.
    #[inline(always)]
    pub(crate) fn answer(&mut self, q: Request) -> Answer
        ensures same_reference { self.new.bytes.ghost_name ≡ self.old.bytes.ghost_name }
        ensures moves { RegionSteps self.old.base self.old.bytes.now q result self.new.base self.new.bytes.now }
    {
        match q.action {
            Action::Read => self.region().read(q.address),
            Action::Write(width, data) => self.write(width, q.address, data),
        }
    }
}

impl Bus for Ram<'_> {
    ghost means = { ram_means };

    ghost steps = { RamSteps };

    #[inline(always)]
    fn request(&mut self, q: Request) -> Answer {
        self.answer(q)
    }

    #[inline(always)]
    fn look(&self, address: u32) -> Option<u8> {
        self.region().look(address)
    }

    #[inline(always)]
    fn longest_wait(&self) -> u16 {
        LONGEST_WAIT
    }

    fn keeps()
        ensures { Keeps ram_means RamSteps }
    {}

    fn keeps_points(&self)
        ensures { Keeps ram_means RamSteps }
    {
        Self::keeps();
    }
}
