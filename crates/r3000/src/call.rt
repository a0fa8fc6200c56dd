//! The calls as values.

ghost use Rattle.std.specs.Prelude.{◌≡◌, None};

use super::denial::Denial;
use super::limits::REGISTERS;
use super::report::{Clocked, Report};
use machine::ledger::Entry;

/// A call of a core, as a value: lists of calls are printed, and reasoned about. Numbers that are out of range can be
/// said, since such a call is denied.
#[derive(Clone, Copy)]
pub enum Call {
    Clock,
    Run(u32),
    Lines(u8),
    Register(u8),
    Snapshot,
    Ledger(u8),
    Look(u32),
}

/// What a call that is not denied answers.
#[derive(Clone, Copy)]
pub enum Reply {
    Clock(Clocked),
    Run(Report),
    Lines,
    Register(u32),
    Snapshot([u32; REGISTERS]),
    Ledger(Entry),
    Look(u8),
}

/// A call, and the place for its reply.
#[derive(Clone, Copy)]
pub struct Exchange {
    pub call: Call,
    /// None until the call was made.
    pub reply: Option<Result<Reply, Denial>>,
}

impl Exchange {
    /// A call that is still to be made.
    pub fn new(call: Call) -> Exchange
        ensures { result ≡ record { call = call; reply = None } }
    {
        Exchange { call, reply: None }
    }
}
