//! ROM: the caller's bytes at a base, never written.

ghost use Rattle.std.specs.Prelude.{◌≡◌};
ghost use Rattle.bus.specs.Meaning.{Keeps};
ghost use Rattle.memories.specs.Placement.{placed_bytes};
ghost use Rattle.memories.specs.Rom.{RomSteps, rom, rom_means};

use super::placement::placed_length;
use super::region::{LONGEST_WAIT, Region};
use bus::memory::Bus;
use bus::request::{Action, Answer, Request};

#[derive(Drop)]
pub struct Rom<'a> {
    region: Region<'a>,
}

impl<'a> Rom<'a> {
    /// ROM that stands at `base`; one at a denied placement refuses everything.
    pub fn new(base: u32, bytes: &'a [u8]) -> Rom<'a>
        ensures { rom_means result ≡ rom base (placed_bytes base bytes.now) }
    {
        let length = placed_length(base, bytes.len());
        Rom {
            region: Region {
                base,
                bytes: &bytes[..length],
            },
        }
    }
}

impl Bus for Rom<'_> {
    ghost means = { rom_means };

    ghost steps = { RomSteps };

    #[inline(always)]
    fn request(&mut self, q: Request) -> Answer {
        match q.action {
            Action::Read => self.region.read(q.address),
            Action::Write(_, _) => Answer::BusError,
        }
    }

    #[inline(always)]
    fn look(&self, address: u32) -> Option<u8> {
        self.region.look(address)
    }

    #[inline(always)]
    fn longest_wait(&self) -> u16 {
        LONGEST_WAIT
    }

    fn keeps()
        ensures { Keeps rom_means RomSteps }
    {}

    fn keeps_points(&self)
        ensures { Keeps rom_means RomSteps }
    {
        Self::keeps();
    }
}
