//! The firmware over two piles with different waits: the snapshots are the same at every boundary.

use super::tests::put;
use super::{HANDLER, RESET};
use bus::memory::Bus;
use layers::delay::Delay;
use pile::pile::Memories;
use r3000::cpu::Core;
use r3000::limits::REGISTERS;
use std::alloc::{AllocError, Global};
use std::test::Fail;

/// DT's number. No firmware reads it, and only at a boundary do two piles agree on the rest.
const DT: usize = REGISTERS - 1;

/// The sum of the bytes, each times its place, which the firmware leaves in register 4.
const SUM: u32 = 4_071;

/// Where the handler counts.
const INTERRUPTS: u32 = 0x8000_0110;

/// The snapshots at the boundaries of 30,000 cycles, DT set aside, and how many interrupts the handler counted. IT0 is
/// up before every 16th boundary.
fn snapshots<B: Bus + Drop>(
    heap: Global,
    mut pile: B,
) -> Result<(Vec<[u32; REGISTERS]>, u8), AllocError> {
    put(&mut pile, RESET);
    put(&mut pile, HANDLER);
    let mut core = Core::new(pile);
    let mut all = Vec::new(heap);
    let mut seen = 0;
    for _ in 0..30_000 {
        let Ok(clocked) = core.clock() else {
            break;
        };
        if clocked.report.boundaries > seen {
            seen = clocked.report.boundaries;
            let mut snapshot = core.snapshot();
            snapshot[DT] = 0;
            all.push(snapshot)?;
            let _ = core.lines(u8::from(seen % 16 == 15));
        }
    }
    let interrupts = core.look(INTERRUPTS).unwrap_or(0);
    Ok((all, interrupts))
}

#[test]
fn boundaries_over_two_piles(rt: HostRuntime) -> Result<(), Fail> {
    let (mut first, mut second) = (Memories::zeroed(), Memories::zeroed());
    let (quick, _) = snapshots(rt.alloc(), first.pile())?;
    let (slow, interrupts) = snapshots(rt.alloc(), Delay::new(7, second.pile()))?;
    assert!(rt; slow.len() > 300);
    assert!(rt; slow.len() < quick.len());
    for (number, (one, other)) in quick.iter().zip(&slow).enumerate() {
        assert!(rt; one == other, "boundary {number}");
    }
    assert!(rt; slow[slow.len() - 1][4] == SUM);
    assert!(rt; interrupts > 10);
    Ok(())
}
