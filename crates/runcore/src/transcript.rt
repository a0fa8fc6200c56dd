//! The program's output.

ghost use Rattle.std.specs.Prelude.{◌≡◌, Some};
ghost use Rattle.std.specs.Option.{option_map};
ghost use Rattle.runcore.specs.Transcript.{special_name};

use anyhow::Context;
use bus::settle::Settled;
use machine::ledger::Entry;
use r3000::call::{Call, Exchange, Reply};
use r3000::denial::Denial;
use r3000::limits::REGISTERS;
use r3000::report::Report;
use std::fmt;

/// A byte as it is printed.
#[derive(Clone, Copy)]
struct Byte(u8);

impl fmt::Display for Byte {
    ghost use Rattle.runcore.specs.Transcript.{byte_text};

    ghost output = { λ b. Some (byte_text b.0) };

    fn fmt<W: fmt::Write>(&self, f: &mut fmt::Formatter<W>) -> fmt::Result {
        write!(f, "{:02X}", self.0)
    }
}

/// A word, or an address, as it is printed.
#[derive(Clone, Copy)]
struct Word(u32);

impl fmt::Display for Word {
    ghost use Rattle.runcore.specs.Transcript.{word_text};

    ghost output = { λ w. Some (word_text w.0) };

    fn fmt<W: fmt::Write>(&self, f: &mut fmt::Formatter<W>) -> fmt::Result {
        write!(f, "{:08X}", self.0)
    }
}

/// A word that was put into the pile, as it is printed.
#[derive(Clone, Copy)]
pub(crate) struct Load {
    pub(crate) address: u32,
    pub(crate) word: u32,
    pub(crate) settled: Settled,
}

impl fmt::Display for Load {
    ghost use Rattle.runcore.specs.Transcript.{load_text};

    ghost output = { λ l. Some (load_text l) };

    fn fmt<W: fmt::Write>(&self, f: &mut fmt::Formatter<W>) -> fmt::Result {
        let (address, word, waits) = (Word(self.address), Word(self.word), self.settled.waits);
        match self.settled.outcome {
            Ok(_) => write!(f, "load {address} {word}: waits {waits}"),
            Err(_) => write!(f, "load {address} {word}: refused"),
        }
    }
}

/// A call as it is printed.
#[derive(Clone, Copy)]
struct CallText(Call);

impl fmt::Display for CallText {
    ghost use Rattle.runcore.specs.Transcript.{call_text};

    ghost output = { λ a. Some (call_text a.0) };

    fn fmt<W: fmt::Write>(&self, f: &mut fmt::Formatter<W>) -> fmt::Result {
        match self.0 {
            Call::Clock => f.write_str("clock"),
            Call::Run(count) => write!(f, "run {count}"),
            Call::Lines(lines) => write!(f, "lines {}", Byte(lines)),
            Call::Register(number) => write!(f, "register {number}"),
            Call::Snapshot => f.write_str("snapshot"),
            Call::Ledger(code) => write!(f, "ledger {code}"),
            Call::Look(address) => write!(f, "look {}", Word(address)),
        }
    }
}

/// A report as it is printed.
#[derive(Clone, Copy)]
struct ReportText(Report);

impl fmt::Display for ReportText {
    ghost use Rattle.runcore.specs.Transcript.{report_text};

    ghost output = { λ c. Some (report_text c.0) };

    fn fmt<W: fmt::Write>(&self, f: &mut fmt::Formatter<W>) -> fmt::Result {
        let Report {
            cycles,
            frozen,
            boundaries,
            place,
        } = self.0;
        write!(
            f,
            "cycles {cycles}, frozen {frozen}, boundaries {boundaries}, place {place}"
        )
    }
}

/// A reply as it is printed.
#[derive(Clone, Copy)]
struct ReplyText(Result<Reply, Denial>);

impl fmt::Display for ReplyText {
    ghost use Rattle.runcore.specs.Transcript.{call_reply_text};

    ghost output = { λ a. Some (call_reply_text a.0) };

    fn fmt<W: fmt::Write>(&self, f: &mut fmt::Formatter<W>) -> fmt::Result {
        match self.0 {
            Ok(Reply::Clock(clocked)) if clocked.frozen => {
                write!(f, "frozen; {}", ReportText(clocked.report))
            }
            Ok(Reply::Clock(clocked)) => write!(f, "not frozen; {}", ReportText(clocked.report)),
            Ok(Reply::Run(report)) => write!(f, "{}", ReportText(report)),
            Ok(Reply::Lines) => f.write_str("set"),
            Ok(Reply::Register(word)) => write!(f, "{}", Word(word)),
            Ok(Reply::Snapshot(_)) => f.write_str("taken"),
            Ok(Reply::Ledger(Entry { count, epc })) => {
                write!(f, "count {count}, last EPC {}", Word(epc))
            }
            Ok(Reply::Look(byte)) => write!(f, "{}", Byte(byte)),
            Err(denial) => write!(f, "denied {}", denial.number()),
        }
    }
}

/// A call and its reply, as they are printed.
#[derive(Clone, Copy)]
struct AnsweredCall {
    call: Call,
    reply: Result<Reply, Denial>,
}

impl fmt::Display for AnsweredCall {
    ghost use Rattle.runcore.specs.Transcript.{answered_call_text};

    ghost output = { λ m. Some (answered_call_text m) };

    fn fmt<W: fmt::Write>(&self, f: &mut fmt::Formatter<W>) -> fmt::Result {
        write!(f, "{}: {}", CallText(self.call), ReplyText(self.reply))
    }
}

/// The name of a register that is not a general one; none for any other number.
fn special_name(number: usize) -> Option<&'static str>
    ensures { option_map (λ name. name.now) result ≡ special_name number }
{
    match number {
        32 => Some("PC"),
        33 => Some("HI"),
        34 => Some("LO"),
        35 => Some("SR"),
        36 => Some("CR"),
        37 => Some("EPC"),
        38 => Some("BAR"),
        39 => Some("AD"),
        40 => Some("IR"),
        41 => Some("DT"),
        _ => None,
    }
}

/// A register's name; a general one is called by its number.
#[derive(Clone, Copy)]
struct RegisterName(usize);

impl fmt::Display for RegisterName {
    ghost use Rattle.runcore.specs.Transcript.{register_name};

    ghost output = { λ n. Some (register_name n.0) };

    fn fmt<W: fmt::Write>(&self, f: &mut fmt::Formatter<W>) -> fmt::Result {
        match special_name(self.0) {
            Some(name) => f.write_str(name),
            None => write!(f, "${}", self.0),
        }
    }
}

/// A register that a call changed, and its new word, as they are printed.
#[derive(Clone, Copy)]
struct Change {
    register: usize,
    word: u32,
}

impl fmt::Display for Change {
    ghost use Rattle.runcore.specs.Transcript.{change_text};

    ghost output = { λ c. Some (change_text c) };

    fn fmt<W: fmt::Write>(&self, f: &mut fmt::Formatter<W>) -> fmt::Result {
        write!(
            f,
            "    {} = {}",
            RegisterName(self.register),
            Word(self.word)
        )
    }
}

/// The registers that differ between two snapshots.
fn print_changes(
    rt: &impl Print,
    before: &[u32; REGISTERS],
    after: &[u32; REGISTERS],
) -> anyhow::Result<()> {
    for (register, (old, new)) in before.iter().zip(after).enumerate() {
        if old != new {
            let word = *new;
            println!(rt; "{}", Change { register, word })?;
        }
    }
    Ok(())
}

/// Every call with its reply. The first snapshot is taken; each later one shows the registers that changed since.
pub(crate) fn print_calls(rt: &impl Print, exchanges: &[Exchange]) -> anyhow::Result<()> {
    let mut before = None;
    for exchange in exchanges {
        let call = exchange.call;
        let reply = exchange.reply.context("a call was not made")?;
        match (before, reply) {
            (Some(before), Ok(Reply::Snapshot(after))) => print_changes(rt, &before, &after)?,
            _ => println!(rt; "{}", AnsweredCall { call, reply })?,
        }
        if let Ok(Reply::Snapshot(after)) = reply {
            before = Some(after);
        }
    }
    Ok(())
}
