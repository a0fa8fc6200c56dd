//! Why a line has no meaning.

ghost use Rattle.std.specs.Prelude.{◌≡◌};
ghost use Rattle.text.specs.Fault.{denial_number};

#[derive(Clone, Copy)]
pub enum LineFault {
    /// The line is badly formed.
    Form = 2,
    /// The first field is no kind of line.
    Unknown = 3,
}

impl LineFault {
    /// The number by which the denial is known.
    pub fn number(self) -> u8
        ensures { result ≡ denial_number self }
    {
        self as u8
    }
}
