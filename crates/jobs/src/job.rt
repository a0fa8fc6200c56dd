//! A whole job.

ghost use Rattle.std.specs.Prelude.{◌≡◌, ◌+◌, ◌≤◌, length};
ghost use Rattle.jobs.specs.Job.{text_lines_of};
ghost use Rattle.jobs.specs.Limits.{max_job};

use super::fault::JobFault;
use super::limits::MAX_JOB;
use super::station::{Station, denial_reply};
use super::text_lines::TextLines;
use bus::memory::Bus;
use bus::settle::settles_as_decided;
use r3000::decided::cycles_as_decided;
use r3000::processor::Processor;
use r3000::promise::promise;
use text::reply::Reply;

/// A job at work on a pile: an iterator over the replies that are still to come. Nothing is allocated.
///
/// Its lines are done as its replies are asked for. A job of more than `MAX_JOB` bytes has one reply, and does
/// nothing.
#[derive(Drop)]
pub struct Job<'a, B> {
    /// A reply that is given before the next line is done.
    due: Option<Reply>,
    // Pile and processor stand apart: the toolchain writes no proof for a program that names a type which has an
    // argument with borrowed bytes and a kept fact in it, as an `Option<Station<B>>` would be.
    /// None only while a line is done.
    pile: Option<B>,
    /// None before the start.
    processor: Option<Processor>,
    /// The number of the next line, from 1.
    number: u32,
    text_lines: TextLines<'a>,
    ghost few: { number + length (text_lines_of text_lines.0.now) ≤ max_job + 1 },
}

impl<'a, B: Bus> Job<'a, B> {
    ghost use Rattle.bus.specs.Meaning.{Meaning};
    ghost use Rattle.bus.specs.declared.request.Request.{Request};
    ghost use Rattle.r3000.specs.Machine.{History};
    ghost use Rattle.jobs.specs.NextReply.{standing_of, replies_to_come};
    ghost use Rattle.jobs.specs.Decided.{replies_to_job};
    ghost use Rattle.jobs.specs.Job.{first_standing};

    /// A job that is still to be done, on a pile.
    pub fn new(pile: B, bytes: &'a [u8]) -> Job<'a, B>
        ensures stands { (start : B) (h : History)
            → standing_of start h result ≡ first_standing max_job pile bytes.now }
        ensures replies { (next : Meaning → Request → Meaning)
            → replies_to_come B.Bus.means next result ≡ replies_to_job next max_job (B.Bus.means pile) bytes.now }
    {
        let too_long = bytes.len() > MAX_JOB;
        Job {
            due: too_long.then_some(denial_reply(0, JobFault::TooLong)),
            pile: Some(pile),
            processor: None,
            number: 1,
            text_lines: TextLines(if too_long { &[] } else { bytes }),
        }
    }
}

impl<'a, B: Bus + Drop> Iterator for Job<'a, B> {
    ghost use Rattle.std.specs.Prelude.{◌+◌, length, option_to_list};
    ghost use Rattle.std.specs.Iterator.{at_most};
    ghost use Rattle.jobs.specs.NextReply.{NextGives, text_lines_left};

    type Item = Reply;

    ghost next_gives = { NextGives B.Bus.means B.Bus.steps };

    ghost remaining = { λ x. at_most (length (option_to_list x.due)
        + length (text_lines_left x.pile x.text_lines.0.now)) };

    fn next(&mut self) -> Option<Reply> {
        promise::<B>();
        settles_as_decided::<B>();
        cycles_as_decided::<B>();
        if let Some(reply) = self.due.take() {
            return Some(reply);
        }
        let line = self.text_lines.next()?;
        let station = Station {
            pile: self.pile.take()?,
            processor: self.processor,
        };
        let (station, reply) = station.answer_line(self.number, line);
        self.pile = Some(station.pile);
        self.processor = station.processor;
        self.number += 1;
        Some(reply)
    }
}
