//! One wait for each request, over two RAMs side by side.

ghost use Rattle.std.specs.Prelude.{◌≡◌, replicate};
ghost use Rattle.bus.specs.Decided.{IsDecided};
ghost use Rattle.pile.specs.Decided.{meaning_after};
ghost use Rattle.pile.specs.Pile.{PileSteps, high_length, job_pile, low_length, pile_means};

use bus::memory::Bus;
use layers::delay::Delay;
use layers::split::Split;
use memories::ram::Ram;

/// Where the two memories meet.
const SPLIT_MARK: u32 = 0xA000_0000;

const LOW_BASE: u32 = 0x8000_0000;

const HIGH_BASE: u32 = 0xBFC0_0000;

pub const LOW_LENGTH: usize = 16_384;

pub const HIGH_LENGTH: usize = 4_096;

pub type Pile<'a> = Delay<Split<Ram<'a>, Ram<'a>>>;

/// The bytes that the pile stands on.
#[derive(Drop)]
pub struct Memories {
    low: [u8; LOW_LENGTH],
    high: [u8; HIGH_LENGTH],
}

impl Memories {
    /// Zeroes alone.
    pub fn zeroed() -> Memories
        ensures low { result.low ≡ replicate low_length 0 }
        ensures high { result.high ≡ replicate high_length 0 }
    {
        Memories {
            low: [0; LOW_LENGTH],
            high: [0; HIGH_LENGTH],
        }
    }

    /// The pile, which borrows the bytes: one wait for each request, over RAM at 80000000 and at BFC00000.
    pub fn pile(&mut self) -> Pile<'_>
        ensures { pile_means result ≡ job_pile self.old.low self.old.high }
    {
        let Memories { low, high } = self;
        let split = Split::new(
            SPLIT_MARK,
            Ram::new(LOW_BASE, low),
            Ram::new(HIGH_BASE, high),
        );
        Delay::new(1, split)
    }
}

/// A theorem: the pile is decided. After each request its meaning is exactly `meaning_after` of the one before. A
/// caller gets it from the contract.
pub fn pile_is_decided()
    ensures { IsDecided pile_means PileSteps meaning_after }
{
    Pile::keeps();
}
