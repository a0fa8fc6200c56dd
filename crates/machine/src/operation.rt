//! The operation box.

ghost use Rattle.std.specs.Prelude.{◌≡◌, Bool};
ghost use Rattle.machine.specs.Operation.{box_output, overflows, result_of};
ghost use Rattle.machine.specs.declared.operation.Operation.TheVariants.{Sra, Msl, Msh, Dsq, Dsr};

/// The operations of the box.
#[derive(Clone, Copy)]
pub enum Operation {
    Sum,
    Dif,
    And,
    Or,
    Xor,
    Nor,
    Sll,
    Srl,
    Sra,
    Sltu,
    Slt,
    Mul,
    Muh,
    Msl,
    Msh,
    Duq,
    Dur,
    Dsq,
    Dsr,
}

#[inline(always)]
fn shift_right_signed(x: u32, y: u32) -> u32
    ensures { result ≡ result_of Sra x y }
{
    (x.cast_signed() >> (y & 0x1F)).cast_unsigned()
}

#[inline(always)]
fn signed_product_low(x: u32, y: u32) -> u32
    ensures { result ≡ result_of Msl x y }
{
    x.cast_signed()
        .wrapping_mul(y.cast_signed())
        .cast_unsigned()
}

#[inline(always)]
fn signed_product_high(x: u32, y: u32) -> u32
    ensures { result ≡ result_of Msh x y }
{
    let product = i64::from(x.cast_signed()) * i64::from(y.cast_signed());
    (product.cast_unsigned() >> 32) as u32
}

#[inline(always)]
fn signed_quotient(x: u32, y: u32) -> u32
    ensures { result ≡ result_of Dsq x y }
{
    if y == 0 {
        return u32::MAX;
    }
    x.cast_signed()
        .wrapping_div(y.cast_signed())
        .cast_unsigned()
}

#[inline(always)]
fn signed_remainder(x: u32, y: u32) -> u32
    ensures { result ≡ result_of Dsr x y }
{
    if y == 0 {
        return x;
    }
    x.cast_signed()
        .wrapping_rem(y.cast_signed())
        .cast_unsigned()
}

impl Operation {
    /// What it gives for X and Y.
    #[inline(always)]
    fn result(self, x: u32, y: u32) -> u32
        ensures { result ≡ result_of self x y }
    {
        match self {
            Operation::Sum => x.wrapping_add(y),
            Operation::Dif => x.wrapping_sub(y),
            Operation::And => x & y,
            Operation::Or => x | y,
            Operation::Xor => x ^ y,
            Operation::Nor => !(x | y),
            Operation::Sll => x.wrapping_shl(y),
            Operation::Srl => x.wrapping_shr(y),
            Operation::Sra => shift_right_signed(x, y),
            Operation::Sltu => u32::from(x < y),
            Operation::Slt => u32::from(x.cast_signed() < y.cast_signed()),
            Operation::Mul => x.wrapping_mul(y),
            Operation::Muh => ((u64::from(x) * u64::from(y)) >> 32) as u32,
            Operation::Msl => signed_product_low(x, y),
            Operation::Msh => signed_product_high(x, y),
            Operation::Duq => x.checked_div(y).unwrap_or(u32::MAX),
            Operation::Dur => x.checked_rem(y).unwrap_or(x),
            Operation::Dsq => signed_quotient(x, y),
            Operation::Dsr => signed_remainder(x, y),
        }
    }

    /// Signed overflow, which a sum or a difference alone can have.
    #[inline(always)]
    fn overflows(self, x: u32, y: u32) -> bool
        ensures { result ≡ overflows self x y }
    {
        match self {
            Operation::Sum => x.cast_signed().overflowing_add(y.cast_signed()).1,
            Operation::Dif => x.cast_signed().overflowing_sub(y.cast_signed()).1,
            _ => false,
        }
    }
}

/// RES, signed overflow, and whether RES is zero.
#[inline(always)]
pub fn box_output(operation: Operation, x: u32, y: u32) -> (u32, bool, bool)
    ensures { result ≡ box_output operation x y }
{
    let res = operation.result(x, y);
    (res, operation.overflows(x, y), res == 0)
}
