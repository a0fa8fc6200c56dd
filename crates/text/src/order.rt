//! What a line asks for.

ghost use Rattle.std.specs.Prelude.{◌≡◌};
ghost use Rattle.std.specs.Option.{ok_or};
ghost use Rattle.text.specs.declared.fault.LineFault.TheVariants.{Unknown};

use super::fault::LineFault;

/// The five kinds of line, by their codes.
#[derive(Clone, Copy)]
pub enum Kind {
    Load = 0x10,
    Start = 0x20,
    SetLines = 0x30,
    Run = 0x40,
    Show = 0x50,
}

impl TryFrom<u8> for Kind {
    type Error = LineFault;

    ghost use Rattle.text.specs.Reading.{kind_at};

    ghost try_from_gives = { λ code r. r ≡ ok_or (kind_at code) Unknown };

    fn try_from(code: u8) -> Result<Kind, LineFault> {
        [
            Kind::Load,
            Kind::Start,
            Kind::SetLines,
            Kind::Run,
            Kind::Show,
        ]
        .into_iter()
        .find(|kind| code == *kind as u8)
        .ok_or(LineFault::Unknown)
    }
}

/// A line that is rightly formed, as a value: what a job does is told of its orders.
#[derive(Clone, Copy)]
pub enum Order {
    /// An address and a word.
    Load(u32, u32),
    Start,
    /// The interrupt lines and the reset line.
    SetLines(u8),
    Run(u16),
    /// The number of a register.
    Show(u8),
}
