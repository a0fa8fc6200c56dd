//! Calls on one core, as values: one at a time, and a list of them.

ghost use Rattle.std.specs.Prelude.{◌≡◌};
ghost use Rattle.r3000.specs.Core.{machine_of};
ghost use Rattle.r3000.specs.Machine.{History};
ghost use Rattle.r3000.specs.Perform.{MakesCall, Performs};
ghost use Rattle.r3000.specs.Promise.{Happens, Upholds};

use super::call::{Call, Exchange, Reply};
use super::cpu::Core;
use super::denial::Denial;
use bus::memory::Bus;

impl<B: Bus> Core<B> {
    /// The call that a value stands for. Nothing is allocated, so the next call can be chosen by the last reply.
    pub fn call(&mut self, call: Call) -> Result<Reply, Denial>
        ensures { Happens B.Bus.means B.Bus.steps
            (λ c d. MakesCall B.Bus.means B.Bus.steps (Upholds B.Bus.means B.Bus.steps c) c call result d) self.old
            self.new }
    {
        match call {
            Call::Clock => self.clock().map(Reply::Clock),
            Call::Run(count) => self.run(count).map(Reply::Run),
            Call::Lines(lines) => self.lines(lines).map(|()| Reply::Lines),
            Call::Register(number) => self.register(number).map(Reply::Register),
            Call::Snapshot => Ok(Reply::Snapshot(self.snapshot())),
            Call::Ledger(code) => self.ledger(code).map(Reply::Ledger),
            Call::Look(address) => self.look(address).map(Reply::Look),
        }
    }
}

/// Makes the calls one after another on a core that it builds on the pile, puts each reply beside its call, and hands
/// back the core.
pub fn perform<B: Bus>(pile: B, exchanges: &mut [Exchange]) -> Core<B>
    ensures { (h : History) × Performs B.Bus.means B.Bus.steps pile exchanges.old exchanges.new (machine_of h result) }
{
    let mut core = Core::new(pile);
    for exchange in exchanges.iter_mut() {
        exchange.reply = Some(core.call(exchange.call));
    }
    core
}
