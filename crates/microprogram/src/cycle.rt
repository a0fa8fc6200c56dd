//! One cycle, as functions of values.

ghost use Rattle.std.specs.Prelude.{◌≡◌, ◌<◌};
ghost use Rattle.machine.specs.Registers.{general_with, regs_of, with_ir};
ghost use Rattle.microprogram.specs.Cycle.{chip_state, state_at_power_up, regs_with_result, row_access, row_output};
ghost use Rattle.microprogram.specs.Cycle.{dt_after, flag_after, ir_after, saves_pc};
ghost use Rattle.microprogram.specs.Cycle.{state_after, unless_flagged, word_brought};

use super::chip::Chip;
use super::faults::{Check, Evidence};
use super::sequencing;
use bus::request::{Answer, Request, Width};
use machine::fault::Fault;
use machine::interrupt::{cr_code, cr_on_entry, sr_on_entry, sr_on_return};
use machine::ledger::Ledger;
use machine::operation::box_output;
use machine::registers::Registers;
use machine::word::Field;
use rows::row::{Destination, OperandX, Row, Transfer};

/// The rows epc1 and epc2 save PC: they write EPC from it.
#[inline(always)]
fn saves_pc(destination: Destination, x: OperandX) -> bool
    ensures { result ≡ saves_pc destination x }
{
    matches!((destination, x), (Destination::Epc, OperandX::Pc))
}

/// The word that a finished access brings, or else the old one.
#[inline(always)]
fn word_brought(answer: Option<Answer>, old: u32) -> u32
    ensures { result ≡ word_brought answer old }
{
    match answer {
        Some(Answer::Done(word)) => word,
        Some(Answer::Wait | Answer::BusError) | None => old,
    }
}

/// Writes a general register; register 0 stays.
#[inline(always)]
fn write_general(general: &mut [u32; 32], n: usize, value: u32)
    requires { n < 32 }
    ensures { general.new ≡ general_with n value general.old }
{
    if n != 0 {
        general[n] = value;
    }
}

/// Writes the result to its destination.
#[inline(always)]
fn write(registers: &mut Registers, destination: Destination, res: u32)
    ensures regs { regs_of registers.new
        ≡ regs_with_result destination registers.old.flag res (regs_of registers.old) }
    ensures dt { registers.new.dt ≡ registers.old.dt }
    ensures flag { registers.new.flag ≡ registers.old.flag }
{
    match destination {
        Destination::Nop => {}
        Destination::Pc => registers.pc = res,
        Destination::Ad => registers.ad = res,
        Destination::Bar => registers.bar = res,
        Destination::Lo => registers.lo = res,
        Destination::Hi => registers.hi = res,
        Destination::Epc => registers.epc = res,
        Destination::Cr => registers.cr = res,
        Destination::Sr => registers.sr = res,
        Destination::Rt => write_general(
            &mut registers.general,
            Field::Rt.register(registers.ir),
            res,
        ),
        Destination::Rd => write_general(
            &mut registers.general,
            Field::Rd.register(registers.ir),
            res,
        ),
        Destination::R31 => write_general(&mut registers.general, 31, res),
        Destination::Erq => {
            registers.cr = cr_on_entry(registers.flag, registers.cr);
            registers.sr = sr_on_entry(registers.sr);
        }
        Destination::Rfe => registers.sr = sr_on_return(registers.sr),
    }
}

/// Puts the word that a finished access brings into IR or DT.
#[inline(always)]
fn load(registers: &mut Registers, transfer: Transfer, answer: Option<Answer>)
    ensures regs { regs_of registers.new
        ≡ with_ir (ir_after transfer answer registers.old.ir) (regs_of registers.old) }
    ensures dt { registers.new.dt ≡ dt_after transfer answer registers.old.dt }
    ensures flag { registers.new.flag ≡ registers.old.flag }
{
    match transfer {
        Transfer::If => registers.ir = word_brought(answer, registers.ir),
        Transfer::Lw => registers.dt = word_brought(answer, registers.dt),
        Transfer::Nop | Transfer::Ww | Transfer::Wh | Transfer::Wb => {}
    }
}

/// Puts the flag that is up after a row. One that is up is never replaced by another, so it is written only where it
/// rises or goes, and in all other cycles it is only read.
#[inline(always)]
fn put_flag(registers: &mut Registers, check: Check)
    requires { check.before ≡ registers.old.flag }
    ensures regs { regs_of registers.new ≡ regs_of registers.old }
    ensures dt { registers.new.dt ≡ registers.old.dt }
    ensures flag { registers.new.flag ≡ flag_after check.detection check.before check.new }
{
    let flag = check.flag_after();
    if flag.is_some() != check.before.is_some() {
        registers.flag = flag;
    }
}

impl Chip {
    /// Power-up: everything zero, no flag, row 0.
    pub fn new() -> Chip
        ensures { chip_state result ≡ state_at_power_up }
    {
        // written out: a struct that keeps a fact, as register 0 is zero, derives no `Default`
        let registers = Registers {
            general: [0; 32],
            pc: 0,
            hi: 0,
            lo: 0,
            sr: 0,
            cr: 0,
            epc: 0,
            bar: 0,
            ad: 0,
            ir: 0,
            dt: 0,
            flag: None,
        };
        Chip {
            registers,
            row: 0,
            sampled: 0,
            ledger: Ledger::default(),
        }
    }

    /// What the operation box gives in a row: RES, signed overflow, and whether RES is zero.
    #[inline(always)]
    pub(crate) fn row_output(&self, row: Row) -> (u32, bool, bool)
        ensures { result ≡ row_output row (chip_state self.now) }
    {
        let x = self.operand_x(row.x);
        let y = self.operand_y(row.y);
        box_output(row.operation, x, y)
    }

    /// The request that a row makes: none where a flag is up before the cycle.
    #[inline(always)]
    pub(crate) fn request(
        &self,
        before: Option<Fault>,
        transfer: Transfer,
        res: u32,
    ) -> Option<Request>
        ensures { result ≡ unless_flagged before (row_access (regs_of self.now.registers) transfer res) }
    {
        if before.is_some() {
            return None;
        }
        let (pc, ad) = (self.registers.pc, self.registers.ad);
        match transfer {
            Transfer::Nop => None,
            Transfer::If => Some(Request::read(pc)),
            Transfer::Ww => Some(Request::write(Width::Word, ad, res)),
            Transfer::Wh => Some(Request::write(Width::Half, ad, res)),
            Transfer::Wb => Some(Request::write(Width::Byte, ad, res)),
            Transfer::Lw => Some(Request::read(ad)),
        }
    }

    /// The end of a cycle that is not frozen: what its row does with its output and with the answer to its request. It is
    /// given the flag that the chip has before the cycle.
    #[inline(always)]
    pub(crate) fn advance(
        &mut self,
        before: Option<Fault>,
        row: Row,
        lines: u8,
        output: (u32, bool, bool),
        answer: Option<Answer>,
    )
        requires { before ≡ self.old.registers.flag }
        ensures { chip_state self.new ≡ state_after row lines output answer (chip_state self.old) }
    {
        let (res, overflow, zero) = output;
        let evidence = Evidence {
            sr: self.registers.sr,
            res,
            overflow,
            answer,
        };
        let check = Check {
            detection: row.detection,
            before,
            new: evidence.fault_found(row.detection),
        };
        let flag = check.flag_after();
        self.row = self.next_row(&row, res, zero, lines, flag.is_some());
        if saves_pc(row.destination, row.x) && check.may_write_visible() {
            self.ledger.note(cr_code(self.registers.cr), res);
        }
        if check.may_write(row.destination) {
            write(&mut self.registers, row.destination, res);
        }
        load(&mut self.registers, row.transfer, answer);
        put_flag(&mut self.registers, check);
        if sequencing::ends_path(row.sequencing) {
            self.sampled = lines;
        }
    }
}
