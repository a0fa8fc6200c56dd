//! A request that is waited out.

ghost use Rattle.std.specs.Prelude.{◌≡◌};
ghost use Rattle.bus.specs.Decided.{SettlesAsDecided};
ghost use Rattle.bus.specs.Settle.{AskedIsSettled, end_of};

use super::memory::Bus;
use super::request::{Answer, Request};

/// A refused word, by the address at which it was asked for.
#[derive(Clone, Copy, PartialEq, Eq)]
pub struct BusFault {
    pub address: u32,
}

/// How a request ended, and after how many waits.
#[derive(Clone, Copy, PartialEq, Eq)]
pub struct Settled {
    pub waits: u16,
    pub outcome: Result<u32, BusFault>,
}

/// How the answer ends the request; a wait does not.
#[inline(always)]
pub(crate) fn end(request: Request, answer: Answer) -> Option<Result<u32, BusFault>>
    ensures { result ≡ end_of request answer }
{
    match answer {
        Answer::Wait => None,
        Answer::BusError => Some(Err(BusFault {
            address: request.address,
        })),
        Answer::Done(word) => Some(Ok(word)),
    }
}

/// A theorem: where a memory's meaning decides how it goes on, it decides what waiting out leaves. A caller gets it
/// from the contract.
pub fn settles_as_decided<B: Bus>()
    ensures { SettlesAsDecided B.Bus.means B.Bus.steps }
{}

/// A theorem: answers that are waits, and then an end, are a request waited out. A caller gets it from the contract.
pub fn asked_is_settled()
    ensures { AskedIsSettled }
{}
