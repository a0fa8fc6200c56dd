//! The counts inside a core.

ghost use Rattle.std.specs.Prelude.{◌≡◌, ◌<◌, ◌≤◌};
ghost use Rattle.r3000.specs.Limits.{max_cycles};

use super::denial::Denial;
use super::limits::{MAX_CYCLES, MAX_RUN};
use super::report::Report;

/// No count can pass the cycles, and the cycles cannot pass their limit.
#[derive(Clone, Copy)]
pub struct Counts {
    pub(crate) report: Report,
    ghost limited: { report.cycles ≤ max_cycles },
    ghost frozen: { report.frozen ≤ report.cycles },
    ghost boundaries: { report.boundaries ≤ report.cycles },
    ghost place: { report.place ≤ report.cycles },
}

impl Counts {
    ghost use Rattle.r3000.specs.Calls.{check_cycles, check_run};
    ghost use Rattle.r3000.specs.Counts.{report_after, zero_counts};

    // by hand: a struct that keeps facts derives no `Default`
    pub(crate) fn new() -> Counts
        ensures { result.report ≡ zero_counts }
    {
        Counts {
            report: Report::default(),
        }
    }

    /// Whether so many cycles more can be made.
    pub(crate) fn check_cycles(&self, count: u32) -> Result<(), Denial>
        ensures { result ≡ check_cycles count self.now.report }
    {
        if self.report.cycles + u64::from(count) > MAX_CYCLES {
            return Err(Denial::Cycles);
        }
        Ok(())
    }

    /// Whether a run can have so many cycles.
    pub(crate) fn check_run(&self, count: u32) -> Result<(), Denial>
        ensures { result ≡ check_run count self.now.report }
    {
        if count == 0 || count > MAX_RUN {
            return Err(Denial::Range);
        }
        self.check_cycles(count)
    }

    /// One cycle more, by whether it was frozen and, where it was not, whether its row ends a path.
    #[inline(always)]
    pub(crate) fn count(&mut self, frozen: bool, last: bool)
        requires { self.old.report.cycles < max_cycles }
        ensures { self.new.report ≡ report_after frozen last self.old.report }
    {
        self.report.cycles += 1;
        if frozen {
            self.report.frozen += 1;
        } else if last {
            self.report.boundaries += 1;
            self.report.place = 0;
        } else {
            self.report.place += 1;
        }
    }
}
