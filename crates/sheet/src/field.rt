// The fields of a sheet. A reader takes the place where its field starts, and gives the place behind it or the refusal.
#![tactic(auto, using(crate::proofs::Laws::fields, crate::proofs::Laws::sections))]

ghost use Rattle.std.specs.Prelude.{ℕ, Bool, ◌≡◌, ◌<◌, ◌+◌, length};
ghost use Rattle.rules.specs.Field.{byte, word, only};
ghost use Rattle.rules.specs.Description as description;
ghost use Rattle.rules.specs.Format as format;
ghost use Rattle.rules.specs.Refusals.{number_of};
ghost use Rattle.rules.specs.Steps.{Step, At, Refused, refused_as, read_to, read_from, after, times};
ghost use Rattle.sheet.specs.Steps.{byte_between, field_to, word_read, ValueIs, Tests, Reads};

use super::text;
use rules::{MOST_CELLS, Reason, Refusal};

// A field of one byte: its value, and where the next field starts.
#[derive(Clone, Copy)]
pub struct Field {
    pub value: u8,
    pub next: usize,
}

// The refusal of a sheet that ends before a field is whole.
pub fn cut_off(sheet: &[u8]) -> Refusal
    ensures { refused_as result ≡ Refused 1 (length sheet.now) }
{
    Refusal {
        reason: Reason::Ended,
        place: sheet.len(),
    }
}

// A byte that passes the test: `Ended` where the sheet has ended, else `reason` where the byte doesn't pass.
fn only<F: Fn(u8) -> bool>(
    sheet: &[u8],
    at: usize,
    good: F,
    reason: Reason,
) -> Result<Field, Refusal>
    requires { F.IsAlwaysCallable good }
    ensures next { (test : ℕ → Bool) → Tests (F.post good) test
        → field_to result ≡ read_from (only test (number_of reason) byte) sheet.now (At at) }
    ensures value { ValueIs sheet.now at result }
{
    let Some(&value) = sheet.get(at) else {
        return Err(cut_off(sheet));
    };
    if !good(value) {
        return Err(Refusal { reason, place: at });
    }
    Ok(Field {
        value,
        next: at + 1,
    })
}

// A byte from low to high.
pub fn byte_between(
    sheet: &[u8],
    at: usize,
    low: u8,
    high: u8,
    reason: Reason,
) -> Result<Field, Refusal>
    ensures next { field_to result ≡ read_from (byte_between low high (number_of reason)) sheet.now (At at) }
    ensures value { ValueIs sheet.now at result }
{
    only(sheet, at, |value| low <= value && value <= high, reason)
}

// The same where only the next field's place matters.
pub fn within(sheet: &[u8], at: usize, low: u8, high: u8, reason: Reason) -> Result<usize, Refusal>
    ensures { read_to result ≡ read_from (byte_between low high (number_of reason)) sheet.now (At at) }
{
    Ok(byte_between(sheet, at, low, high, reason)?.next)
}

// A printable byte, or 0 for none.
pub fn printable_or_zero(sheet: &[u8], at: usize) -> Result<usize, Refusal>
    ensures { read_to result ≡ after description.optional sheet.now (At at) }
{
    let read = only(
        sheet,
        at,
        |value| value == 0 || text::is_printable(value),
        Reason::BadCharacter,
    )?;
    Ok(read.next)
}

// Two bytes are one field: half of it is none.
fn two_bytes(sheet: &[u8], at: usize) -> Result<[u8; 2], Refusal>
    ensures { word_read result at ≡ word sheet.now at }
{
    match sheet.get(at..) {
        Some([low, high, ..]) => Ok([*low, *high]),
        _ => Err(cut_off(sheet)),
    }
}

// A number of two bytes, low byte first.
pub fn word(sheet: &[u8], at: usize, most: u16) -> Result<usize, Refusal>
    ensures { read_to result ≡ after (description.word_to most) sheet.now (At at) }
{
    let value = u16::from_le_bytes(two_bytes(sheet, at)?);
    if most < value {
        return Err(Refusal {
            reason: Reason::BeyondLimits,
            place: at,
        });
    }
    Ok(at + 2)
}

// Two bytes of an unused width: the refusal's place is the first that isn't 0.
pub fn zero_word(sheet: &[u8], at: usize) -> Result<usize, Refusal>
    ensures { read_to result ≡ after description.zero_word sheet.now (At at) }
{
    let place = match two_bytes(sheet, at)? {
        [0, 0] => return Ok(at + 2),
        [0, _] => at + 1,
        _ => at,
    };
    Err(Refusal {
        reason: Reason::NotZero,
        place,
    })
}

// A cell count: beyond the limit it is `BeyondLimits`, and `TooManyCells` only where the limit is kept and the columns are fewer.
pub fn cell_count(sheet: &[u8], at: usize, columns: u8) -> Result<Field, Refusal>
    ensures next { field_to result ≡ after (format.cell_count columns) sheet.now (At at) }
    ensures value { ValueIs sheet.now at result }
{
    let count = byte_between(sheet, at, 0, MOST_CELLS, Reason::BeyondLimits)?;
    if columns < count.value {
        return Err(Refusal {
            reason: Reason::TooManyCells,
            place: at,
        });
    }
    Ok(count)
}

// So many items, one behind the other.
pub fn items<F: Fn(usize) -> Result<usize, Refusal>>(
    count: Field,
    read: F,
) -> Result<usize, Refusal>
    requires { F.IsAlwaysCallable read }
    ensures { (f : Step → Step) → Reads (F.post read) f → read_to result ≡ times count.value f (At count.next) }
{
    let mut at = count.next;
    for _ in 0..count.value {
        at = read(at)?;
    }
    Ok(at)
}
