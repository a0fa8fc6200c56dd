//! Split: two memories side by side, separated at a mark.

ghost use Rattle.std.specs.Prelude.{◌≡◌, nat_lt};
ghost use Rattle.bus.specs.Request.{word_of};
ghost use Rattle.layers.specs.Split.{SplitSteps, split, split_means};

use bus::memory::Bus;
use bus::request::{Answer, Request, word_of};
use bus::settle::{Settled, asked_is_settled};

#[derive(Drop)]
pub struct Split<A, B> {
    mark: u32,
    first: A,
    second: B,
}

impl<A: Bus, B: Bus> Split<A, B> {
    /// Below `mark`, rounded down to a multiple of 4, lies the first memory, from there on the second.
    pub fn new(mark: u32, first: A, second: B) -> Split<A, B>
        ensures { split_means A.Bus.means B.Bus.means result ≡ split mark (A.Bus.means first) (B.Bus.means second) }
    {
        Split {
            mark,
            first,
            second,
        }
    }
}

impl<A, B> Split<A, B> {
    /// Whether an address is the first memory's.
    #[inline(always)]
    fn is_first(&self, address: u32) -> bool
        ensures { result ≡ nat_lt address (word_of self.now.mark) }
    {
        address < word_of(self.mark)
    }
}

impl<A: Bus, B: Bus> Bus for Split<A, B> {
    ghost means = { split_means A.Bus.means B.Bus.means };

    ghost steps = { SplitSteps A.Bus.steps B.Bus.steps };

    #[inline(always)]
    fn request(&mut self, q: Request) -> Answer {
        if self.is_first(q.address) {
            self.first.request(q)
        } else {
            self.second.request(q)
        }
    }

    #[inline(always)]
    fn settle(&mut self, q: Request) -> Settled {
        Self::keeps();
        asked_is_settled();
        if self.is_first(q.address) {
            self.first.settle(q)
        } else {
            self.second.settle(q)
        }
    }

    #[inline(always)]
    fn look(&self, address: u32) -> Option<u8> {
        if self.is_first(address) {
            self.first.look(address)
        } else {
            self.second.look(address)
        }
    }

    #[inline(always)]
    fn longest_wait(&self) -> u16 {
        self.first.longest_wait().max(self.second.longest_wait())
    }

    fn keeps() {
        A::keeps();
        B::keeps();
    }

    fn keeps_points(&self) {
        Self::keeps();
    }
}
