//! One cycle of a chip on a pile, frozen or not.

ghost use Rattle.std.specs.Prelude.{◌≡◌};
ghost use Rattle.microprogram.specs.ChipCycle.{Asks, ChipCycle, is_wait};
ghost use Rattle.microprogram.specs.Cycle.{chip_state};

use super::chip::Chip;
use super::sequencing::ends_path;
use bus::memory::Bus;
use bus::request::{Answer, Request};
use rows::row::Row;

/// How a cycle ends. One enum of three, and no two booleans: the compiler then keeps the three apart up to the counts.
#[derive(Clone, Copy)]
pub enum CycleEnd {
    /// The pile answered wait, and nothing of the chip changed.
    Frozen,
    /// Not frozen, and more rows follow on the path.
    Within,
    /// Not frozen, and its row is the last of a path.
    Boundary,
}

/// Asks the pile exactly where there is a request.
#[inline(always)]
fn ask<B: Bus>(pile: &mut B, request: Option<Request>) -> Option<Answer>
    ensures { Asks B.Bus.steps pile.old request result pile.new }
{
    Some(pile.request(request?))
}

/// A cycle is frozen exactly when the pile answers wait.
#[inline(always)]
fn is_wait(answer: Option<Answer>) -> bool
    ensures { result ≡ is_wait answer }
{
    answer == Some(Answer::Wait)
}

impl Chip {
    /// One cycle by a row, under the lines that stand.
    #[inline(always)]
    pub fn cycle<B: Bus>(&mut self, row: Row, lines: u8, pile: &mut B) -> CycleEnd
        ensures { ChipCycle B.Bus.steps row lines (chip_state self.old) pile.old result (chip_state self.new) pile.new }
    {
        // read once and passed on: a caller who has asked for the flag knows it, and so does the compiler then
        let before = self.registers.flag;
        let output = self.row_output(row);
        let (res, ..) = output;
        let request = self.request(before, row.transfer, res);
        let answer = ask(pile, request);
        if is_wait(answer) {
            return CycleEnd::Frozen;
        }
        self.advance(before, row, lines, output, answer);
        if ends_path(row.sequencing) {
            CycleEnd::Boundary
        } else {
            CycleEnd::Within
        }
    }
}
