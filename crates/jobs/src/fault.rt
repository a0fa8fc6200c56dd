//! Why a line is denied, or a whole job.

ghost use Rattle.std.specs.Prelude.{◌≡◌};
ghost use Rattle.jobs.specs.Fault.{denial_address, denial_number};
ghost use Rattle.jobs.specs.declared.fault.JobFault.TheVariants.{Core, Line, Load};

use bus::settle::BusFault;
use r3000::denial::Denial;
use text::fault::LineFault;

/// A load whose word the bus refused.
#[derive(Clone, Copy)]
pub struct LoadFault {
    pub refused: BusFault,
}

// `From` is written by hand here, since clauses say which denial a `?` makes of a fault.
impl From<BusFault> for LoadFault {
    ghost from_gives = { λ f r. r ≡ record { refused = f } };

    fn from(refused: BusFault) -> LoadFault {
        LoadFault { refused }
    }
}

#[derive(Clone, Copy)]
pub enum JobFault {
    /// The job has more bytes than `MAX_JOB`.
    TooLong,
    /// The line has no meaning.
    Line(LineFault),
    /// A load or a start after the start.
    AfterStart,
    /// A call of the core before the start.
    BeforeStart,
    /// What the core denies.
    Core(Denial),
    /// What the bus refuses.
    Load(LoadFault),
}

impl From<LineFault> for JobFault {
    ghost from_gives = { λ f r. r ≡ Line f };

    fn from(fault: LineFault) -> JobFault {
        JobFault::Line(fault)
    }
}

impl From<LoadFault> for JobFault {
    ghost from_gives = { λ f r. r ≡ Load f };

    fn from(fault: LoadFault) -> JobFault {
        JobFault::Load(fault)
    }
}

impl From<Denial> for JobFault {
    ghost from_gives = { λ d r. r ≡ Core d };

    fn from(denial: Denial) -> JobFault {
        JobFault::Core(denial)
    }
}

impl JobFault {
    // a match, since variants that hold a fault can have no numbers of their own
    /// The number by which the denial is known.
    pub fn number(self) -> u8
        ensures { result ≡ denial_number self }
    {
        match self {
            JobFault::TooLong => 1,
            JobFault::Line(fault) => fault.number(),
            JobFault::AfterStart => 4,
            JobFault::BeforeStart => 5,
            JobFault::Core(denial) => denial.number(),
            JobFault::Load(_) => 10,
        }
    }

    /// The address of a refused load as it was given, and 0 for every other denial.
    pub fn address(self) -> u32
        ensures { result ≡ denial_address self }
    {
        match self {
            JobFault::Load(fault) => fault.refused.address,
            _ => 0,
        }
    }
}
