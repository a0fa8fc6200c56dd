//! What every memory and every layer promises.

ghost use Rattle.std.specs.Prelude.{◌≡◌};
ghost use Rattle.bus.specs.Meaning.{Meaning, Keeps, look_result};
ghost use Rattle.bus.specs.Settle.{Settles};
ghost use Rattle.bus.specs.declared.request.Answer.{Answer};
ghost use Rattle.bus.specs.declared.request.Request.{Request};

use super::request::{Answer, Request};
use super::settle::{Settled, end};

/// The most that a memory's longest wait may be.
pub const MAX_WAIT: u16 = 65_535;

/// A memory, or a layer above memories.
///
/// `means` is what it is to everything above, and `steps` exactly how it goes on.
pub trait Bus {
    ghost means: { Self → Meaning };

    ghost steps: { Self → Request → Answer → Self → Type 0 };

    /// Asks for one request, which may have to be asked again.
    fn request(&mut self, q: Request) -> Answer
        ensures { steps self.old q result self.new };

    /// Waits a request out: asks for it until the answer is no wait, which takes at most one request more than the
    /// longest wait.
    ///
    /// A layer that knows its waits has a shorter body, which gives and leaves what asking again and again would.
    #[inline(always)]
    fn settle(&mut self, q: Request) -> Settled
    where
        Self: Sized,
        ensures { Settles means steps self.old q result self.new }
    {
        Self::keeps();
        for waits in 0..=self.longest_wait() {
            let answer = self.request(q);
            if let Some(outcome) = end(q, answer) {
                return Settled { waits, outcome };
            }
        }
        unreachable()
    }

    /// The byte at an address, or none where its word is refused to reads.
    fn look(&self, address: u32) -> Option<u8>
        ensures { result ≡ look_result (means self.now) address };

    /// The most waits that any request can have.
    fn longest_wait(&self) -> u16
        ensures { result ≡ (means self.now).longest };

    /// The theorem that each step keeps points 1 to 4 of the bus (docs/BUS.md); point 5 is the clause of `look`.
    /// A caller gets it from the contract.
    fn keeps()
    where
        Self: Sized,
        ensures { Keeps means steps };

    /// The same theorem at a memory whose type is known only at run time, as behind `dyn Bus`.
    fn keeps_points(&self)
        ensures { Keeps means steps };
}
