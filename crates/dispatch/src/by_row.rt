//! The cycle by the row at hand.
//!
//! A cycle asks the fields of its row what to do. For each of the 159 rows of the listing (rows/specs/Rows.antt) there
//! is a function here with that row as a constant, so that the compiler answers these questions beforehand, and leaves
//! the row's work alone. A row that has no arm goes by the table: slower, with the same result.
//!
//! That hangs on hints, here and in the crates below. `#[inline(always)]` stands on every small function that a cycle
//! goes through: a function that is called, and not taken into its caller, does not know the row. It does not stand on
//! `cycle_in`: the toolchain drops the hint, with no message, where a function would grow very large, and
//! `cycle_by_row` would. Where `cycle_by_row` has one caller, each `cycle_in` has one too, and LLVM takes it in by
//! itself; with a second caller it would take in none. The table stays as it is, and is read where the row is not a
//! constant.

ghost use Rattle.std.specs.Prelude.{◌≡◌, Bool, ℕ};
ghost use Rattle.microprogram.specs.ChipCycle.{ChipCycle};
ghost use Rattle.microprogram.specs.Cycle.{chip_state};
ghost use Rattle.rows.specs.Rows.{row_at};

use bus::memory::Bus;
use microprogram::chip::Chip;
use microprogram::chip_cycle::CycleEnd;
use rows::rows::row;

/// One cycle where row `R` is at hand.
#[inline]
fn cycle_in<const R: u16, B: Bus>(chip: &mut Chip, lines: u8, pile: &mut B) -> CycleEnd
    requires { chip.old.row ≡ R }
    ensures { ChipCycle B.Bus.steps (row_at chip.old.row) lines
        (chip_state chip.old) pile.old result (chip_state chip.new) pile.new }
{
    chip.cycle(row(R), lines, pile)
}

/// The same, with the row as the table has it: where a flag is up, and for the rows that are not listed. Both are
/// seldom, and are kept out of the way of all other cycles.
#[cold]
#[inline(never)]
fn cycle_by_table<B: Bus>(chip: &mut Chip, lines: u8, pile: &mut B) -> CycleEnd
    ensures { ChipCycle B.Bus.steps (row_at chip.old.row) lines
        (chip_state chip.old) pile.old result (chip_state chip.new) pile.new }
{
    chip.cycle(row(chip.row), lines, pile)
}

/// Writes an arm for each row of its list, and one for every other row, which goes by the table.
macro_rules! by_row {
    ($chip:expr, $lines:expr, $pile:expr, $($row:literal)*) => {
        match $chip.row {
            $($row => cycle_in::<$row, B>($chip, $lines, $pile),)*
            _ => cycle_by_table($chip, $lines, $pile),
        }
    };
}

/// One cycle in the row at hand, under the lines that stand. Whether a flag is up is asked once, here: in the arms the
/// compiler knows that none is.
#[inline(always)]
pub fn cycle_by_row<B: Bus>(chip: &mut Chip, lines: u8, pile: &mut B) -> CycleEnd
    ensures { ChipCycle B.Bus.steps (row_at chip.old.row) lines
        (chip_state chip.old) pile.old result (chip_state chip.new) pile.new }
{
    if chip.registers.flag.is_some() {
        return cycle_by_table(chip, lines, pile);
    }
    by_row!(
        chip, lines, pile,
        0 1 2 15 16 17 18 19 20 21 22 23 24 25 26 27 31 32 33 34 35 36 37 38 39 40 41 42 43 44 45 46 47
        48 49 50 51 52 53 54 55 56 57 58 59 60 61 128 129 130 131 144 152 156 157 158 160 168 172 173
        174 192 193 194 195 256 260 264 268 272 273 276 277 280 284 288 289 290 292 293 296 297 300 301
        304 305 308 309 312 313 316 317 320 384 385 388 389 396 397 398 400 404 416 417 420 421 428 429
        512 520 524 528 529 536 537 540 541 544 548 560 564 576 580 584 588 608 609 610 612 613 614 616
        617 618 620 621 622 640 641 642 644 645 648 649 650 652 653 656 657 660 661 664 665 668 669 680
        681 684 685
    )
}
