//! Delay: a memory that answers later.

ghost use Rattle.std.specs.Prelude.{◌≡◌, ◌-◌, cond, nat_lt};
ghost use Rattle.bus.specs.Request.{access_of};
ghost use Rattle.layers.specs.Delay.{DelaySteps, count_left, delay, delay_means, delay_state_after, own_waits};
ghost use Rattle.layers.specs.declared.delay.State.TheVariants.{Counting, Idle};

use bus::memory::{Bus, MAX_WAIT};
use bus::request::{Access, Answer, Request};
use bus::settle::{Settled, asked_is_settled};

/// Whether a delay counts.
#[derive(Clone, Copy)]
pub enum State {
    Idle,
    /// For one request, with what is left of its count.
    Counting { access: Access, left: u8 },
}

#[derive(Drop)]
pub struct Delay<B> {
    n: u8,
    state: State,
    below: B,
}

impl<B: Bus> Delay<B> {
    /// Lets each request wait `n` times more.
    pub fn new(n: u8, below: B) -> Delay<B>
        ensures { delay_means B.Bus.means result ≡ delay n Idle (B.Bus.means below) }
    {
        Delay {
            n,
            state: State::Idle,
            below,
        }
    }

    /// `n`, lowered where the longest wait would pass `MAX_WAIT`.
    #[inline(always)]
    fn own_waits(&self) -> u8
        ensures { result ≡ own_waits self.now.n (B.Bus.means self.now.below).longest }
    {
        u16::from(self.n).min(MAX_WAIT - self.below.longest_wait()) as u8
    }

    /// The waits that the delay itself still has for an access, which it then counts: what is left of its count where it
    /// is the counted one, else all. One of them is taken.
    #[inline(always)]
    fn count_down(&mut self, asked: Access) -> u8
        ensures left { result
            ≡ count_left (own_waits self.old.n (B.Bus.means self.old.below).longest) self.old.state asked }
        ensures n { self.new.n ≡ self.old.n }
        ensures below { self.new.below ≡ self.old.below }
        ensures state { self.new.state ≡ cond (nat_lt 0 result) (Counting asked (result - 1)) self.old.state }
    {
        let n = self.own_waits();
        match (&mut self.state, asked) {
            (State::Counting { access, left }, asked) if access.same(asked) => {
                let before = n.min(*left);
                if before > 0 {
                    *left = before - 1;
                }
                before
            }
            (state, asked) if n > 0 => {
                *state = State::Counting {
                    access: asked,
                    left: n - 1,
                };
                n
            }
            _ => 0,
        }
    }

    /// Asks the memory below: its wait keeps the delay counting at 0, done and bus error make it idle.
    #[inline(always)]
    fn ask(&mut self, q: Request) -> Answer
        ensures n { self.new.n ≡ self.old.n }
        ensures below { B.Bus.steps self.old.below q result self.new.below }
        ensures state { self.new.state ≡ delay_state_after (access_of q) result }
    {
        let answer = self.below.request(q);
        self.state = match answer {
            Answer::Wait => State::Counting {
                access: q.access(),
                left: 0,
            },
            Answer::BusError | Answer::Done(_) => State::Idle,
        };
        answer
    }
}

impl<B: Bus> Bus for Delay<B> {
    ghost means = { delay_means B.Bus.means };

    ghost steps = { DelaySteps B.Bus.means B.Bus.steps };

    #[inline(always)]
    fn request(&mut self, q: Request) -> Answer {
        if self.count_down(q.access()) > 0 {
            return Answer::Wait;
        }
        self.ask(q)
    }

    /// The delay's own waits are known without asking; those of the memory below come after them.
    #[inline(always)]
    fn settle(&mut self, q: Request) -> Settled {
        Self::keeps();
        asked_is_settled();
        let own = self.count_down(q.access());
        let below = self.below.settle(q);
        self.state = State::Idle;
        Settled {
            waits: u16::from(own) + below.waits,
            outcome: below.outcome,
        }
    }

    #[inline(always)]
    fn look(&self, address: u32) -> Option<u8> {
        self.below.look(address)
    }

    #[inline(always)]
    fn longest_wait(&self) -> u16 {
        self.below.longest_wait() + u16::from(self.own_waits())
    }

    fn keeps() {
        B::keeps();
    }

    fn keeps_points(&self) {
        Self::keeps();
    }
}
