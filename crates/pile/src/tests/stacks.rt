//! Layers over memories.

ghost use Rattle.bus.specs.Meaning.{Answers};

use bus::memory::Bus;
use bus::request::{Answer, Request, Width};
use bus::settle::{BusFault, Settled};
use layers::delay::Delay;
use layers::split::Split;
use layers::window::Window;
use memories::ram::Ram;
use memories::scratch::Scratch;

/// A request that ended after so many waits.
fn after(waits: u16, outcome: Result<u32, BusFault>) -> Settled {
    Settled { waits, outcome }
}

#[test]
fn a_delay_interrupted(rt: HostRuntime) {
    let mut delay = Delay::new(2, Scratch::new(0));
    assert!(rt; delay.request(Request::read(0)) == Answer::Wait);
    assert!(rt; delay.request(Request::read(4)) == Answer::Wait);
    assert!(rt; delay.request(Request::read(0)) == Answer::Wait);
    assert!(rt; delay.request(Request::read(0)) == Answer::Wait);
    assert!(rt; delay.request(Request::read(0)) == Answer::Done(0));
    assert_eq!(rt; delay.longest_wait(), 2);
}

#[test]
fn a_pile_of_three_layers(rt: HostRuntime) {
    let mut low = [0u8; 8];
    let mut high = [0u8; 8];
    let split = Split::new(0x103, Ram::new(0xF8, &mut low), Ram::new(0x100, &mut high));
    let mut pile = Window::new(0xFB, 0x13, Delay::new(2, split));
    let done = pile.settle(Request::write(Width::Word, 4, 0x0A0B_0C0D));
    assert!(rt; done == after(2, Ok(0)));
    let done = pile.settle(Request::write(Width::Word, 8, 0x0102_0304));
    assert!(rt; done == after(2, Ok(0)));
    assert!(rt; pile.settle(Request::read(4)) == after(2, Ok(0x0A0B_0C0D)));
    assert_eq!(rt; pile.look(8), Some(4));
    let refused = BusFault { address: 0x10 };
    assert!(rt; pile.settle(Request::read(0x10)) == after(0, Err(refused)));
}

#[test]
fn a_request_that_is_waited_out_from_the_middle_on(rt: HostRuntime) {
    let mut bytes = [1, 2, 3, 4];
    let mut memory = Delay::new(3, Ram::new(0, &mut bytes));
    assert!(rt; memory.request(Request::read(0)) == Answer::Wait);
    assert!(rt; memory.settle(Request::read(0)) == after(2, Ok(0x0403_0201)));
    assert!(rt; memory.settle(Request::read(0)) == after(3, Ok(0x0403_0201)));
}

/// The answer of a memory whose type is known only when the program runs, and a byte of it. It keeps the points.
fn ask(bus: &mut dyn Bus, q: Request) -> (Answer, Option<u8>)
    ensures { Answers (means bus.old) q result.0 (means bus.new) }
{
    bus.keeps_points();
    (bus.request(q), bus.look(q.address))
}

#[test]
fn memories_whose_types_are_not_known(rt: HostRuntime) {
    let mut delay = Delay::new(1, Scratch::new(0));
    let write = Request::write(Width::Byte, 3, 7);
    assert!(rt; ask(&mut delay, write) == (Answer::Wait, Some(0)));
    assert!(rt; ask(&mut delay, write) == (Answer::Done(0), Some(7)));
    let mut scratch = Scratch::new(0x100);
    assert!(rt; ask(&mut scratch, Request::read(0)) == (Answer::BusError, None));
}
