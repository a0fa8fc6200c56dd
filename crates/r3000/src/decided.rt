//! Cycles on a decided memory, as a theorem.

ghost use Rattle.r3000.specs.Decided.{CyclesAsDecided};

use bus::memory::Bus;

/// A theorem: where a memory's meaning decides how it goes on, it decides every cycle of a core on it. A caller
/// gets it from the contract.
pub fn cycles_as_decided<B: Bus>()
    ensures { CyclesAsDecided B.Bus.means B.Bus.steps }
{
    B::keeps();
}
