//! The calls that the program makes.

use Call::{Clock, Ledger, Lines, Look, Register, Run, Snapshot};
use machine::ledger::CODES;
use r3000::call::{Call, Exchange};
use std::alloc::{AllocError, Global};

/// The firmware from reset to its end, with interrupts and a reset on its way; its results; and calls that are denied.
const SCRIPT: &[Call] = &[
    Clock,
    Clock,
    Clock,
    Clock,
    Run(60),
    Look(0x8000_0100),
    Look(0x8000_0107),
    // an interrupt that is down again before the handler ends
    Lines(0x01),
    Run(20),
    Lines(0x00),
    Run(100),
    // one that is held: the handler is entered again and again, and the sorting stands still
    Lines(0x01),
    Run(200),
    Lines(0x00),
    Look(0x8000_0110),
    Run(100),
    // lines that SR does not let in: CR shows them, and the sorting goes on
    Lines(0x3E),
    Run(50),
    // a reset: all begins anew
    Lines(0x40),
    Run(9),
    Register(36),
    Lines(0x00),
    Run(300),
    Lines(0x01),
    Run(20),
    Lines(0x00),
    Run(400),
    Lines(0x01),
    Run(20),
    Lines(0x00),
    Run(700),
    // the sorted bytes, their check number, the interrupts since the reset, and the sum
    Look(0x8000_0100),
    Look(0x8000_0101),
    Look(0x8000_0102),
    Look(0x8000_0103),
    Look(0x8000_0104),
    Look(0x8000_0105),
    Look(0x8000_0106),
    Look(0x8000_0107),
    Look(0x8000_0108),
    Look(0x8000_0110),
    Register(4),
    // an interrupt when all is done
    Lines(0x01),
    Run(20),
    Lines(0x00),
    Run(100),
    Look(0x8000_0110),
    Run(0),
    Lines(0x80),
    Register(42),
    Look(0x8000_4000),
    Clock,
];

/// The script with a snapshot before it and after each of its calls, and the whole ledger at the end.
pub(crate) fn exchanges(heap: Global) -> Result<Vec<Exchange>, AllocError> {
    let mut exchanges = vec![in heap; Exchange::new(Snapshot)]?;
    let script = SCRIPT.iter().flat_map(|call| [*call, Snapshot]);
    exchanges.extend(script.map(Exchange::new))?;
    exchanges.extend((0..CODES as u8).map(|code| Exchange::new(Ledger(code))))?;
    Ok(exchanges)
}
