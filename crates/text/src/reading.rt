//! Reading a line.

ghost use Rattle.std.specs.Prelude.{◌≡◌, ◌==◌, ◌^◌, ◌<◌, ◌≤◌, ◌∷◌, cond, length, map, take, Some, None, IfSome};
ghost use Rattle.std.specs.List.{list_all};
ghost use Rattle.std.specs.Option.{ok_or, some_prefix};
ghost use Rattle.text.specs.Reading.{fields_of, is_in_form, field_kind, read_order, read_line, value_of};
ghost use Rattle.text.specs.declared.fault.LineFault.TheVariants.{Form, Unknown};

use super::digit;
use super::fault::LineFault;
use super::form::{BYTE_WIDTH, CODE_WIDTH, RUN_WIDTH, SPACE, WORD_WIDTH};
use super::order::{Kind, Order};

/// Whether a field is digits, at least one.
fn is_in_form(field: &[u8]) -> bool
    ensures { result ≡ is_in_form field.now }
{
    !field.is_empty() && field.iter().all(|byte| digit::digit_of(*byte).is_some())
}

/// The value of a field of `WIDTH` digits; none where it has more or fewer.
fn number<const WIDTH: usize>(field: &[u8]) -> Option<u32>
    requires { WIDTH ≤ 8 }
    ensures value { result ≡ cond (length field.now == WIDTH) (Some (value_of field.now)) None }
    ensures below { IfSome result (λ value. value < 16 ^ WIDTH) }
{
    if field.len() != WIDTH {
        return None;
    }
    let digits = field.iter().map(|byte| digit::digit_of(*byte).unwrap_or(0));
    Some(digits.fold(0u32, |value, digit| {
        value.wrapping_mul(16).wrapping_add(u32::from(digit))
    }))
}

/// The kind that a first field names.
fn field_kind(field: &[u8]) -> Result<Kind, LineFault>
    ensures { result ≡ ok_or (field_kind field.now) Unknown }
{
    let code = number::<CODE_WIDTH>(field).ok_or(LineFault::Unknown)?;
    Kind::try_from(code as u8)
}

/// The order of a kind, where the fields behind it are right in count and width. No kind has three.
fn order(kind: Kind, others: [Option<&[u8]>; 3]) -> Option<Order>
    ensures { ok_or result Form ≡ read_order (Some kind) (map (λ field. field.now) (some_prefix others.entry)) }
{
    match (kind, others) {
        (Kind::Load, [Some(address), Some(word), None]) => {
            Some(Order::Load(number::<WORD_WIDTH>(address)?, number::<WORD_WIDTH>(word)?))
        }
        (Kind::Start, [None, ..]) => Some(Order::Start),
        (Kind::SetLines, [Some(lines), None, _]) => Some(Order::SetLines(
            number::<BYTE_WIDTH>(lines)? as u8,
        )),
        (Kind::Run, [Some(count), None, _]) => Some(Order::Run(number::<RUN_WIDTH>(count)? as u16)),
        (Kind::Show, [Some(register), None, _]) => Some(Order::Show(
            number::<BYTE_WIDTH>(register)? as u8,
        )),
        _ => None,
    }
}

/// The first field of a line, which every line has, and up to three behind it.
fn first_fields(line: &[u8]) -> (&[u8], [Option<&[u8]>; 3])
    ensures { result.0.now ∷ map (λ field. field.now) (some_prefix result.1) ≡ take 4 (fields_of line.now) }
{
    let mut fields = line.split(|byte| *byte == SPACE);
    let first = fields.next().unwrap();
    (first, [fields.next(), fields.next(), fields.next()])
}

/// Whether each field of a line is in form.
fn is_line_in_form(line: &[u8]) -> bool
    ensures { result ≡ list_all is_in_form (fields_of line.now) }
{
    line.split(|byte| *byte == SPACE).all(is_in_form)
}

/// What a line means, or its first denial.
pub fn read_line(line: &[u8]) -> Result<Order, LineFault>
    ensures { result ≡ read_line line.now }
{
    if !is_line_in_form(line) {
        return Err(LineFault::Form);
    }
    let (first, others) = first_fields(line);
    order(field_kind(first)?, others).ok_or(LineFault::Form)
}
