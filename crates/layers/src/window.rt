//! Window: a part of a memory, seen from address 0 up to a limit.

ghost use Rattle.std.specs.Prelude.{◌≡◌, if◌then◌else◌, Some, None, nat_lt};
ghost use Rattle.layers.specs.Window.{WindowSteps, limit_address, address_below, window, window_means};

use bus::memory::Bus;
use bus::request::{Answer, Request, word_of};
use bus::settle::{BusFault, Settled, asked_is_settled};

#[derive(Drop)]
pub struct Window<B> {
    base: u32,
    limit: u32,
    below: B,
}

impl<B: Bus> Window<B> {
    /// An address below `limit` stands for `base` + address; both are rounded down to a multiple of 4.
    pub fn new(base: u32, limit: u32, below: B) -> Window<B>
        ensures { window_means B.Bus.means result ≡ window base limit (B.Bus.means below) }
    {
        Window { base, limit, below }
    }
}

impl<B> Window<B> {
    /// The address below that an address of the window stands for; none from the limit up.
    #[inline(always)]
    fn checked_address_below(&self, address: u32) -> Option<u32>
        ensures { result
            ≡ (if nat_lt address (limit_address self.now.limit) then Some (address_below self.now.base address) else
            None) }
    {
        let within = address < word_of(self.limit);
        within.then_some(word_of(self.base).wrapping_add(address))
    }
}

impl<B: Bus> Bus for Window<B> {
    ghost means = { window_means B.Bus.means };

    ghost steps = { WindowSteps B.Bus.steps };

    #[inline(always)]
    fn request(&mut self, q: Request) -> Answer {
        match self.checked_address_below(q.address) {
            Some(address) => self.below.request(Request { address, ..q }),
            None => Answer::BusError,
        }
    }

    /// A fault carries the window's own address.
    #[inline(always)]
    fn settle(&mut self, q: Request) -> Settled {
        Self::keeps();
        asked_is_settled();
        let fault = Err(BusFault { address: q.address });
        match self.checked_address_below(q.address) {
            Some(address) => {
                let below = self.below.settle(Request { address, ..q });
                Settled {
                    waits: below.waits,
                    outcome: below.outcome.or(fault),
                }
            }
            None => Settled {
                waits: 0,
                outcome: fault,
            },
        }
    }

    #[inline(always)]
    fn look(&self, address: u32) -> Option<u8> {
        self.below.look(self.checked_address_below(address)?)
    }

    #[inline(always)]
    fn longest_wait(&self) -> u16 {
        self.below.longest_wait()
    }

    fn keeps() {
        B::keeps();
    }

    fn keeps_points(&self) {
        Self::keeps();
    }
}
