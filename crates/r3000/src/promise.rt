//! The promise, as a theorem.

ghost use Rattle.r3000.specs.Promise.{AllKeepPromise};

use book::length::longest_step;
use bus::memory::Bus;
use microprogram::bounds::longest_path;
use paths::path::steps_are_paths;

/// A theorem: everything that is reached on any pile keeps the promise. A caller gets it from the
/// contract.
pub fn promise<B: Bus>()
    ensures { (start : B) → AllKeepPromise B.Bus.means B.Bus.steps start }
{
    B::keeps();
    let _ = longest_path();
    let _ = longest_step();
    steps_are_paths();
}
