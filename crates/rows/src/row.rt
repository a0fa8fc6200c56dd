//! A row of the microprogram: eight fields, under the names that the microprogram's listing gives them.

use machine::operation::Operation;

/// OPX: the operand X of the operation box.
#[derive(Clone, Copy)]
pub enum OperandX {
    /// The general register that IR bits 25–21 name.
    Rs,
    /// The general register that IR bits 20–16 name.
    Rt,
    Pc,
    Ad,
    Hi,
    Lo,
    Epc,
    Bar,
    Sr,
    Cr,
    Dt,
    /// The four high bits of PC.
    Pc4,
    C0,
    /// BFC00000, where execution starts after a reset.
    Cz,
    /// 0000FFFF.
    Ch,
}

/// OPY: the operand Y of the operation box.
#[derive(Clone, Copy)]
pub enum OperandY {
    /// IR bits 15–0, their sign extended.
    I16,
    /// Four times that.
    I18,
    /// Four times IR bits 25–0.
    Iu28,
    /// IR bits 10–6.
    Ish,
    Dt,
    Ad,
    C0,
    C4,
    C8,
    C16,
    C24,
    /// 80000080, where an exception or an interrupt goes on.
    Cx,
}

/// RES: where the result goes.
#[derive(Clone, Copy)]
pub enum Destination {
    Nop,
    Pc,
    Ad,
    Bar,
    Lo,
    Hi,
    Epc,
    Cr,
    Sr,
    Rt,
    /// The general register that IR bits 15–11 name.
    Rd,
    R31,
    /// Entry of an exception or an interrupt: SR and CR.
    Erq,
    /// Return from it: SR.
    Rfe,
}

/// ADRW: the access to memory, at PC for a fetch and at AD for all others.
#[derive(Clone, Copy)]
pub enum Transfer {
    Nop,
    /// Fetch: the word at PC goes to IR.
    If,
    Ww,
    Wh,
    Wb,
    /// Load: the word at AD goes to DT.
    Lw,
}

/// EXCP: which fault the row looks for.
#[derive(Clone, Copy)]
pub enum Detection {
    Nop,
    Ri,
    Ovf,
    Cpu,
    Sys,
    Brk,
    Ww,
    Wh,
    Wb,
    Lw,
    Lh,
    Lb,
    If,
    Ibe,
    Dbe,
    /// Clears the flag; such a row is stopped by nothing.
    Clr,
}

/// SEQ: how the next row is found.
#[derive(Clone, Copy)]
pub enum Sequencing {
    Next,
    Decod,
    Spec,
    Movc0,
    /// The last row of a path: what follows depends on reset, interrupts and the flag.
    Rie,
    Copro,
    Bcond,
    Ad10,
    Ad1,
    Unsi,
    Nul,
    Sinul,
}

/// OPX, OPY, ALU, RES, ADRW, EXCP, SEQ and AMIC.
#[derive(Clone, Copy)]
pub struct Row {
    pub x: OperandX,
    pub y: OperandY,
    pub operation: Operation,
    pub destination: Destination,
    pub transfer: Transfer,
    pub detection: Detection,
    pub sequencing: Sequencing,
    pub amic: u16,
}
