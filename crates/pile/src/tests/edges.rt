//! The pile at the edges of its two memories.

use crate::pile::Memories;
use bus::memory::Bus;
use bus::request::{Answer, Request, Width};

#[test]
fn each_request_waits_once(rt: HostRuntime) {
    let mut memories = Memories::zeroed();
    let mut pile = memories.pile();
    assert!(rt; pile.longest_wait() == 1);
    assert!(rt; pile.request(Request::read(0x8000_3FFC)) == Answer::Wait);
    assert!(rt; pile.request(Request::read(0x8000_3FFC)) == Answer::Done(0));
    assert!(rt; pile.request(Request::write(Width::Word, 0xBFC0_0000, 7)) == Answer::Wait);
    assert!(rt; pile.request(Request::write(Width::Word, 0xBFC0_0000, 7)) == Answer::Done(0));
    assert!(rt; pile.look(0xBFC0_0000) == Some(7));
    assert!(rt; pile.look(0x8000_4000).is_none());
    assert!(rt; pile.look(0xBFC0_1000).is_none());
}
