//! Why the program can fail: never for what a job says.

ghost use Rattle.std.specs.Prelude.{◌≡◌, Some};
ghost use Rattle.runjob.specs.Failure.{Tells, text_of};
ghost use Rattle.runjob.specs.declared.failure.Failure.TheVariants.{Memory};

use std::alloc::AllocError;
use std::{fmt, io};

#[derive(Drop)]
pub enum Failure {
    /// There is no memory for the bytes that were read.
    Memory,
    /// The job cannot be read.
    Read(io::Error),
    /// The replies cannot be written.
    Write(io::Error),
}

/// What could not be done; why the system refused it is the error inside.
impl fmt::Display for Failure {
    ghost output = { λ f. Some (text_of f) };

    fn fmt<W: fmt::Write>(&self, f: &mut fmt::Formatter<W>) -> fmt::Result {
        f.write_str(match self {
            Failure::Memory => "out of memory",
            Failure::Read(_) => "cannot read the job",
            Failure::Write(_) => "cannot write the replies",
        })
    }
}

impl From<AllocError> for Failure {
    ghost from_gives = { λ _ f. f ≡ Memory };

    fn from(_: AllocError) -> Failure {
        Failure::Memory
    }
}

impl Failure {
    /// The failure as the program tells it, with the system's own words for why.
    pub fn into_error(self) -> anyhow::Error
        ensures { Tells self result }
    {
        match self {
            Failure::Memory => anyhow::Error::msg(self),
            Failure::Read(error) => anyhow::Error::from(error).context(self),
            Failure::Write(error) => anyhow::Error::from(error).context(self),
        }
    }
}
