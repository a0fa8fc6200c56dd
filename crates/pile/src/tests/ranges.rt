//! Memories at the edges of their ranges.

use bus::memory::Bus;
use bus::request::{Answer, Request, Width};
use memories::borrowed::replace_word;
use memories::placement::{PlacementFault, check_placement};
use memories::ram::Ram;
use memories::rom::Rom;
use memories::scratch::Scratch;

#[test]
fn both_denials(rt: HostRuntime) {
    assert!(rt; check_placement(0x8000_0002, 3) == Err(PlacementFault::Unaligned));
    assert!(rt; check_placement(0x8000_0000, 0) == Err(PlacementFault::OutOfBounds));
    assert!(rt; check_placement(0x8000_0000, 1_048_580) == Err(PlacementFault::OutOfBounds));
    assert!(rt; check_placement(0x8000_0000, 1_048_576) == Ok(()));
    assert!(rt; check_placement(0xFFFF_FFFC, 8) == Err(PlacementFault::OutOfBounds));
    assert!(rt; check_placement(0xFFFF_FFFC, 4) == Ok(()));
    assert_eq!(rt; PlacementFault::Unaligned.number(), 6);
    assert_eq!(rt; PlacementFault::OutOfBounds.number(), 7);
}

#[test]
fn ram_at_its_edges(rt: HostRuntime) {
    let mut bytes = [0x11, 0x22, 0x33, 0x44, 0x55, 0x66, 0x77, 0x88];
    let mut ram = Ram::new(0x100, &mut bytes);
    assert!(rt; ram.request(Request::read(0xFF)) == Answer::BusError);
    assert!(rt; ram.request(Request::read(0x102)) == Answer::Done(0x4433_2211));
    assert!(rt; ram.request(Request::read(0x108)) == Answer::BusError);
    assert!(rt; ram.request(Request::write(Width::Half, 0x107, 0xABCD)) == Answer::Done(0));
    assert!(rt; ram.request(Request::write(Width::Byte, 0x105, 0x1EE)) == Answer::Done(0));
    assert!(rt; ram.request(Request::read(0x107)) == Answer::Done(0xABCD_EE55));
    assert_eq!(rt; ram.look(0x107), Some(0xAB));
    assert_eq!(rt; ram.look(0x108), None);
}

#[test]
fn borrowed_bytes_come_back(rt: HostRuntime) {
    let mut bytes = [0x11, 0x22, 0x33, 0x44, 0x55, 0x66, 0x77, 0x88];
    assert!(rt; replace_word(0x100, &mut bytes, 0x106, 0x0A0B_0C0D) == Some(0x8877_6655));
    assert!(rt; bytes == [0x11, 0x22, 0x33, 0x44, 0x0D, 0x0C, 0x0B, 0x0A]);
    assert!(rt; replace_word(0x100, &mut bytes, 0x108, 0).is_none());
    assert!(rt; replace_word(0x102, &mut bytes, 0x104, 0).is_none());
    assert!(rt; bytes == [0x11, 0x22, 0x33, 0x44, 0x0D, 0x0C, 0x0B, 0x0A]);
}

#[test]
fn rom_and_scratch_at_their_edges(rt: HostRuntime) {
    let bytes = [1, 2, 3, 4];
    let mut rom = Rom::new(0xFFFF_FFFC, &bytes);
    assert!(rt; rom.request(Request::read(0xFFFF_FFFF)) == Answer::Done(0x0403_0201));
    assert!(rt; rom.request(Request::write(Width::Byte, 0xFFFF_FFFC, 9)) == Answer::BusError);
    let mut scratch = Scratch::new(0x200);
    assert!(rt;
        scratch.request(Request::write(Width::Word, 0x2FF, 0xDEAD_BEEF)) == Answer::Done(0)
    );
    assert_eq!(rt; scratch.look(0x2FC), Some(0xEF));
    assert!(rt; scratch.request(Request::read(0x300)) == Answer::BusError);
    let mut nowhere = Scratch::new(0x202);
    assert!(rt; nowhere.request(Request::read(0x204)) == Answer::BusError);
}
