//! Orders that are given one at a time.

use bus::memory::Bus;
use jobs::fault::JobFault;
use jobs::station::Station;
use pile::pile::Memories;
use text::order::Order;
use text::reply::Reply;

/// Whether a pile of zeroes takes a load and a start, and no load behind that.
fn takes_orders<B: Bus + Drop>(pile: B) -> bool {
    let station = Station {
        pile,
        processor: None,
    };
    let (station, loaded) = station.do_order(Order::Load(0x8000_0000, 7));
    let (station, started) = station.do_order(Order::Start);
    let (station, late) = station.do_order(Order::Load(0x8000_0000, 8));
    matches!(loaded, Ok(Reply::Loaded))
        && matches!(started, Ok(Reply::Started))
        && matches!(late, Err(JobFault::AfterStart))
        && station.pile.look(0x8000_0000) == Some(7)
}

#[test]
fn one_order_at_a_time(rt: HostRuntime) {
    let mut memories = Memories::zeroed();
    assert!(rt; takes_orders(memories.pile()));
}
