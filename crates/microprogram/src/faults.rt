//! Which fault a row finds, and what a fault stops.

ghost use Rattle.std.specs.Prelude.{◌≡◌};
ghost use Rattle.microprogram.specs.Cycle.{clears_flag, fault_found, flag_after, is_bus_error, may_write};
ghost use Rattle.microprogram.specs.Cycle.{may_write_visible, stops_its_cycle};

use bus::request::Answer;
use machine::address::{is_barred, is_misplaced, is_user_mode};
use machine::fault::Fault;
use rows::row::{Destination, Detection};

/// What a fault is found by: SR, the result, its overflow, and the answer to the row's request.
#[derive(Clone, Copy)]
pub(crate) struct Evidence {
    pub sr: u32,
    pub res: u32,
    pub overflow: bool,
    pub answer: Option<Answer>,
}

impl Evidence {
    #[inline(always)]
    fn is_bus_error(self) -> bool
        ensures { result ≡ is_bus_error self.answer }
    {
        self.answer == Some(Answer::BusError)
    }

    /// The fault that a row with this detection finds.
    #[inline(always)]
    pub(crate) fn fault_found(self, detection: Detection) -> Option<Fault>
        ensures { result ≡ fault_found detection self.sr self.res self.overflow self.answer }
    {
        match detection {
            Detection::Nop | Detection::Clr => None,
            Detection::Ri => Some(Fault::Ri),
            Detection::Ovf => self.overflow.then_some(Fault::Ovf),
            Detection::Cpu => is_user_mode(self.sr).then_some(Fault::Cpu),
            Detection::Sys => Some(Fault::Sys),
            Detection::Brk => Some(Fault::Brk),
            Detection::Ww => is_misplaced(4, self.sr, self.res).then_some(Fault::Ades),
            Detection::Wh => is_misplaced(2, self.sr, self.res).then_some(Fault::Ades),
            Detection::Wb => is_barred(self.sr, self.res).then_some(Fault::Ades),
            Detection::Lw | Detection::If => is_misplaced(4, self.sr, self.res).then_some(
                Fault::Adel,
            ),
            Detection::Lh => is_misplaced(2, self.sr, self.res).then_some(Fault::Adel),
            Detection::Lb => is_barred(self.sr, self.res).then_some(Fault::Adel),
            Detection::Ibe => self.is_bus_error().then_some(Fault::Ibe),
            Detection::Dbe => self.is_bus_error().then_some(Fault::Dbe),
        }
    }
}

/// What a row looks for, the flag that was up before it, and the fault that it finds.
#[derive(Clone, Copy)]
pub(crate) struct Check {
    pub detection: Detection,
    pub before: Option<Fault>,
    pub new: Option<Fault>,
}

impl Check {
    /// Whether the row clears the flag; such a row is stopped by nothing.
    #[inline(always)]
    fn clears_flag(self) -> bool
        ensures { result ≡ clears_flag self.detection }
    {
        matches!(self.detection, Detection::Clr)
    }

    /// The flag after the row; one that is up stays, and no second one is raised.
    #[inline(always)]
    pub(crate) fn flag_after(self) -> Option<Fault>
        ensures { result ≡ flag_after self.detection self.before self.new }
    {
        if self.clears_flag() {
            None
        } else {
            self.before.or(self.new)
        }
    }

    /// Whether the fault that is found stops the cycle; bus errors do not stop the one that meets them.
    #[inline(always)]
    fn stops_its_cycle(self) -> bool
        ensures { result ≡ stops_its_cycle self.new }
    {
        !matches!(self.new, None | Some(Fault::Ibe | Fault::Dbe))
    }

    /// Whether the registers that software sees may be written.
    #[inline(always)]
    pub(crate) fn may_write_visible(self) -> bool
        ensures { result ≡ may_write_visible self.detection self.before self.new }
    {
        self.clears_flag() || self.before.is_none() && !self.stops_its_cycle()
    }

    /// Whether the destination may be written: a fault of this very cycle does not stop AD.
    #[inline(always)]
    pub(crate) fn may_write(self, destination: Destination) -> bool
        ensures { result ≡ may_write destination self.detection self.before self.new }
    {
        match destination {
            Destination::Ad => self.clears_flag() || self.before.is_none(),
            _ => self.may_write_visible(),
        }
    }
}
