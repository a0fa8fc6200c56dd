//! Scratch: 64 words of its own at a base, zero at first.

ghost use Rattle.std.specs.Prelude.{◌≡◌, replicate};
ghost use Rattle.memories.specs.Placement.{placed_bytes};
ghost use Rattle.memories.specs.Region.{ram};
ghost use Rattle.memories.specs.Scratch.{ScratchSteps, scratch_means, scratch_length};

use super::placement::check_placement;
use super::ram::Ram;
use super::region::{LONGEST_WAIT, Region};
use bus::memory::Bus;
use bus::request::{Answer, Request};

/// How many bytes it has: 64 words.
pub const LENGTH: usize = 256;

#[derive(Drop)]
pub struct Scratch {
    base: u32,
    /// None where the placement was denied.
    bytes: Option<[u8; LENGTH]>,
}

impl Scratch {
    /// Zeroed scratch that stands at `base`; one at a denied placement refuses everything.
    pub fn new(base: u32) -> Scratch
        ensures { scratch_means result ≡ ram base (placed_bytes base (replicate scratch_length 0)) }
    {
        let stands = check_placement(base, LENGTH).is_ok();
        Scratch {
            base,
            bytes: stands.then_some([0; LENGTH]),
        }
    }
}

impl Bus for Scratch {
    ghost means = { scratch_means };

    ghost steps = { ScratchSteps };

    #[inline(always)]
    fn request(&mut self, q: Request) -> Answer {
        let base = self.base;
        match &mut self.bytes {
            Some(bytes) => Ram { base, bytes }.answer(q),
            None => Answer::BusError,
        }
    }

    #[inline(always)]
    fn look(&self, address: u32) -> Option<u8> {
        let base = self.base;
        let bytes = self.bytes.as_ref()?;
        Region { base, bytes }.look(address)
    }

    #[inline(always)]
    fn longest_wait(&self) -> u16 {
        LONGEST_WAIT
    }

    fn keeps() {}

    fn keeps_points(&self) {
        Self::keeps();
    }
}
