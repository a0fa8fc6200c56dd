//! Where a job stands: loading, or running.

ghost use Rattle.std.specs.Prelude.{◌≡◌, ◌∷◌, []};
ghost use Rattle.r3000.specs.Core.{machine_of};
ghost use Rattle.r3000.specs.Machine.{History, no_history};
ghost use Rattle.r3000.specs.Promise.{Happens};
ghost use Rattle.bus.specs.Settle.{Settles};
ghost use Rattle.bus.specs.declared.settle.Settled.{Settled};
ghost use Rattle.jobs.specs.Decision.{decision};
ghost use Rattle.jobs.specs.Job.{AnswersLine, denial_reply};
ghost use Rattle.jobs.specs.Station.{EarlyAnswers, StationDoes, LateAnswers, AnswersOrder, run_reply, load_result};
ghost use Rattle.jobs.specs.Station.{load_reply, loading, running, stage_of_station, load_request};
ghost use Rattle.text.specs.Reading.{read_line};

use super::fault::{JobFault, LoadFault};
use bus::memory::Bus;
use bus::request::{Request, Width};
use r3000::cpu::Core;
use r3000::processor::Processor;
use r3000::promise::promise;
use r3000::report::Report;
use text::order::Order;
use text::reading::read_line;
use text::reply::{Counts, Denied, Reply};

/// A pile, and the processor that runs on it from the start on.
#[derive(Drop)]
pub struct Station<B> {
    pub pile: B,
    /// None before the start.
    pub processor: Option<Processor>,
}

/// Writes a word, and waits it out. A refusal of the bus becomes the load's fault.
fn write<B: Bus>(pile: &mut B, address: u32, word: u32) -> Result<(), LoadFault>
    ensures { (q : Settled)
        × Settles B.Bus.means B.Bus.steps pile.old (load_request address word) q pile.new
        × (result ≡ load_result q.outcome) }
{
    pile.settle(Request::write(Width::Word, address, word))
        .outcome?;
    Ok(())
}

/// Loads a word. The load's fault goes up as the line's.
fn load<B: Bus>(pile: &mut B, address: u32, word: u32) -> Result<Reply, JobFault>
    ensures { (q : Settled)
        × Settles B.Bus.means B.Bus.steps pile.old (load_request address word) q pile.new
        × (result ≡ load_reply (load_result q.outcome)) }
{
    write(pile, address, word)?;
    Ok(Reply::Loaded)
}

/// The reply to a run, which tells three counts of its report.
fn run_reply(report: Report) -> Reply
    ensures { result ≡ run_reply report }
{
    Reply::Ran(Counts {
        cycles: report.cycles,
        frozen: report.frozen,
        boundaries: report.boundaries,
    })
}

/// The reply to a denied line.
pub(crate) fn denial_reply(line: u32, fault: JobFault) -> Reply
    ensures { result ≡ denial_reply line fault }
{
    Reply::Denied(Denied {
        number: fault.number(),
        line,
        address: fault.address(),
    })
}

/// An order before the start.
fn before_start<B: Bus>(mut pile: B, order: Order) -> (Station<B>, Result<Reply, JobFault>)
    ensures { EarlyAnswers B.Bus.means B.Bus.steps pile (decision order).before result.1
        (stage_of_station pile no_history result.0) }
{
    match order {
        Order::Load(address, word) => {
            let reply = load(&mut pile, address, word);
            (Station::loading(pile), reply)
        }
        Order::Start => (Station::running(Core::new(pile)), Ok(Reply::Started)),
        Order::SetLines(_) | Order::Run(_) | Order::Show(_) => {
            (Station::loading(pile), Err(JobFault::BeforeStart))
        }
    }
}

/// An order after the start.
fn after_start<B: Bus>(core: &mut Core<B>, order: Order) -> Result<Reply, JobFault>
    ensures { Happens B.Bus.means B.Bus.steps
        (λ c d. LateAnswers B.Bus.means B.Bus.steps c ((decision order).after c.processor c.observation.report)
        result d) core.old core.new }
{
    promise::<B>();
    match order {
        Order::Load(_, _) | Order::Start => Err(JobFault::AfterStart),
        Order::SetLines(lines) => {
            core.lines(lines)?;
            Ok(Reply::Set)
        }
        Order::Run(count) => Ok(run_reply(core.run(u32::from(count))?)),
        Order::Show(number) => Ok(Reply::Shown(number, core.register(number)?)),
    }
}

impl<B: Bus> Station<B> {
    /// Before the start.
    pub(crate) fn loading(pile: B) -> Station<B>
        ensures { (s : B) (h : History) → stage_of_station s h result ≡ loading pile }
    {
        Station {
            pile,
            processor: None,
        }
    }

    /// From the start on.
    fn running(core: Core<B>) -> Station<B>
        ensures { (s : B) (h : History) → stage_of_station s h result ≡ running s (machine_of h core) }
    {
        let (processor, pile) = core.into_parts();
        Station {
            pile,
            processor: Some(processor),
        }
    }

    /// Does what a line asks for. Gives the station after it, and the reply or why the line is denied.
    pub fn do_order(self, order: Order) -> (Station<B>, Result<Reply, JobFault>)
        ensures { StationDoes B.Bus.means B.Bus.steps (λ e f. AnswersOrder B.Bus.means B.Bus.steps e order result.1 f)
            self result.0 }
    {
        promise::<B>();
        let Some(processor) = self.processor else {
            return before_start(self.pile, order);
        };
        let mut core = Core::from_parts(processor, self.pile);
        let reply = after_start(&mut core, order);
        (Station::running(core), reply)
    }

    /// A line, and its reply.
    pub(crate) fn answer_line(self, number: u32, line: &[u8]) -> (Station<B>, Reply)
        ensures { StationDoes B.Bus.means B.Bus.steps
            (λ e f. AnswersLine B.Bus.means B.Bus.steps e number (read_line line.now) (result.1 ∷ []) f) self
            result.0 }
    {
        promise::<B>();
        let (station, end) = match read_line(line) {
            Ok(order) => self.do_order(order),
            Err(fault) => (self, Err(fault.into())),
        };
        (
            station,
            end.unwrap_or_else(|fault| denial_reply(number, fault)),
        )
    }
}
