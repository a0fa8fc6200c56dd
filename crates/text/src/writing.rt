//! Writing a reply.

ghost use Rattle.std.specs.Prelude.{◌≡◌, ◌≤◌, ◌<◌, ◌+◌, ◌++◌, ◌∷◌, [], length};
ghost use Rattle.std.specs.List.{All};
ghost use Rattle.arrayvec.specs.ArrayVec.{array_vec_len};
ghost use Rattle.text.specs.Form.{line_end, longest_reply};
ghost use Rattle.text.specs.Reread.{RoundTrip};
ghost use Rattle.text.specs.Writing.{code_field, digits, fields_of_counts, fields_of_denial, separated_fields};
ghost use Rattle.text.specs.Writing.{reply_text};

use super::digit;
use super::form::{BYTE_WIDTH, CODE_WIDTH, COUNT_WIDTH, DENIAL_CODE, LINE_END, SPACE, WORD_WIDTH};
use super::order::Kind;
use super::reply::{Counts, Denied, Reply};
use arrayvec::ArrayVec;

/// How many bytes the longest reply has, which tells three counts.
pub const LONGEST_REPLY: usize = 54;

/// The bytes of a reply.
pub type Text = ArrayVec<u8, LONGEST_REPLY>;

/// How many digits a field has, and its value.
type Field = (usize, u64);

/// Appends the digits of a field, the highest first.
fn push_field(text: &mut Text, field: Field)
    requires room { array_vec_len text.old + field.0 ≤ LONGEST_REPLY }
    requires width { field.0 ≤ COUNT_WIDTH }
    ensures { text.new.items ≡ text.old.items ++ digits field.0 field.1 }
{
    let (width, value) = field;
    for place in (0..width).rev() {
        text.push(digit::byte_of(value >> (4 * place)));
    }
}

/// A code and the fields behind it, separated by spaces, and the end of a reply.
fn line_of(code: u64, others: &[Field]) -> Text
    requires room { length (separated_fields (code_field code ∷ others.now)) < LONGEST_REPLY }
    requires widths { All (λ f. f.0 ≤ COUNT_WIDTH) others.now }
    ensures { result.items ≡ separated_fields (code_field code ∷ others.now) ++ line_end ∷ [] }
{
    let mut text = Text::new();
    push_field(&mut text, (CODE_WIDTH, code));
    for field in others {
        text.push(SPACE);
        push_field(&mut text, *field);
    }
    text.push(LINE_END);
    text
}

/// The fields that tell counts.
fn fields_of_counts(counts: Counts) -> [Field; 3]
    ensures { result ≡ fields_of_counts counts }
{
    [
        (COUNT_WIDTH, counts.cycles),
        (COUNT_WIDTH, counts.frozen),
        (COUNT_WIDTH, counts.boundaries),
    ]
}

/// The fields that tell a denial.
fn fields_of_denial(denied: Denied) -> [Field; 3]
    ensures { result ≡ fields_of_denial denied }
{
    [
        (BYTE_WIDTH, u64::from(denied.number)),
        (WORD_WIDTH, u64::from(denied.line)),
        (WORD_WIDTH, u64::from(denied.address)),
    ]
}

/// The bytes of a reply, by its kind. They stand apart from `reply_text`, so that reading back is proved once and not
/// in each arm.
fn line_of_reply(reply: Reply) -> Text
    ensures { result.items ≡ reply_text reply }
{
    match reply {
        Reply::Loaded => line_of(Kind::Load as u64, &[]),
        Reply::Started => line_of(Kind::Start as u64, &[]),
        Reply::Set => line_of(Kind::SetLines as u64, &[]),
        Reply::Ran(counts) => line_of(Kind::Run as u64, &fields_of_counts(counts)),
        Reply::Shown(register, word) => {
            let register = (BYTE_WIDTH, u64::from(register));
            let word = (WORD_WIDTH, u64::from(word));
            line_of(Kind::Show as u64, &[register, word])
        }
        Reply::Denied(denied) => line_of(DENIAL_CODE, &fields_of_denial(denied)),
    }
}

/// The bytes of a reply, the one that ends it among them; reading them gives the reply back.
#[tactic(auto, using(crate::proofs::Back::round_trip))]
pub fn reply_text(reply: Reply) -> Text
    ensures bytes { result.items ≡ reply_text reply }
    ensures fits { length result.items ≤ longest_reply }
    ensures limit { LONGEST_REPLY ≡ longest_reply }
    ensures back { RoundTrip }
{
    line_of_reply(reply)
}
