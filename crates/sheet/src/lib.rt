// Sheet, edition 1: checks a sheet. Most have no pair, and are read without looking for one; the others are read again.
#![tactic(auto, using(crate::proofs::Laws::sections))]

pub mod columns;
mod field;
mod rows;
pub mod text;

ghost use Rattle.std.specs.Prelude.{◌≡◌};
ghost use Rattle.rules.specs.Field as fields;
ghost use Rattle.rules.specs.Description as description;
ghost use Rattle.rules.specs.Calls as calls;
ghost use Rattle.rules.specs.Steps.{At, refused_as, read_to, read_from, after};
ghost use Rattle.sheet.specs.Steps.{line_of, head_after, body_after, reading_of, at_first};
ghost use Rattle.sheet.specs.Examine.{ExaminedIs};

use rules::{Checked, Reason, Refusal};

// The style's 22 characters.
fn style(sheet: &[u8], at: usize) -> Result<usize, Refusal>
    ensures { read_to result ≡ after (description.text 22 22 fields.printable_or_zero) sheet.now (At at) }
{
    let count = field::byte_between(sheet, at, 22, 22, Reason::BeyondLimits)?;
    field::items(count, |at| field::printable_or_zero(sheet, at))
}

// Edition, arrangement, target, delimiter, indicator, style.
fn head(sheet: &[u8], at: usize) -> Result<usize, Refusal>
    ensures { read_to result ≡ head_after sheet.now (At at) }
{
    let arrangement = field::within(sheet, at, 1, 1, Reason::WrongEdition)?;
    let target = field::within(sheet, arrangement, 0, 2, Reason::UnknownCode)?;
    let delimiter = field::word(sheet, target, 400)?;
    let indicator = field::printable_or_zero(sheet, delimiter)?;
    let characters = text::text(sheet, indicator, 8)?;
    style(sheet, characters)
}

// Columns, header, rows.
fn body(sheet: &[u8], at: usize, pairs: bool) -> Result<usize, Refusal>
    ensures { read_to result ≡ body_after (line_of pairs) sheet.now (At at) }
{
    let columns = columns::columns(sheet, at)?;
    let rows = rows::rows(sheet, columns.next, columns.value, 1, pairs)?;
    rows::rows(sheet, rows, columns.value, 100, pairs)
}

// Nothing stands after the last row.
fn ended(sheet: &[u8], at: usize) -> Result<usize, Refusal>
    ensures { read_to result ≡ read_from fields.ended sheet.now (At at) }
{
    if at < sheet.len() {
        return Err(Refusal {
            reason: Reason::LeftOver,
            place: at,
        });
    }
    Ok(at)
}

// One reading of the sheet, from its first byte to its last.
fn reading(sheet: &[u8], pairs: bool) -> Result<usize, Refusal>
    ensures { read_to result ≡ reading_of pairs sheet.now }
{
    if 32768 < sheet.len() {
        return Err(Refusal {
            reason: Reason::TooLong,
            place: 32768,
        });
    }
    let columns = head(sheet, 0)?;
    let end = body(sheet, columns, pairs)?;
    ended(sheet, end)
}

// Whether a reading stopped at a C2.
fn at_first(sheet: &[u8], refusal: Refusal) -> bool
    ensures { result ≡ at_first sheet.now (refused_as refusal) }
{
    refusal.reason == Reason::BadCharacter && sheet.get(refusal.place) == Some(&0xC2)
}

// What is known of an accepted sheet. `plain`: the reading without pairs stood.
#[derive(Clone, Copy)]
pub struct Examined {
    pub plain: bool,
}

// What is known of a refused sheet: why it is, and `plain` as above.
#[derive(Clone, Copy)]
pub struct RefusedSheet {
    pub refusal: Refusal,
    pub plain: bool,
}

impl From<RefusedSheet> for Refusal {
    ghost from_gives = { λ s r. r ≡ s.refusal };

    fn from(sheet: RefusedSheet) -> Refusal {
        sheet.refusal
    }
}

// Any bytes may be asked about. Both readings are one call, so that it is compiled into the loop.
pub fn examine(sheet: &[u8]) -> Result<Examined, RefusedSheet>
    ensures { ExaminedIs sheet.now result }
{
    let mut pairs = false;
    loop {
        let Err(refusal) = reading(sheet, pairs) else {
            return Ok(Examined { plain: !pairs });
        };
        if pairs || !at_first(sheet, refusal) {
            return Err(RefusedSheet {
                refusal,
                plain: !pairs,
            });
        }
        pairs = true;
    }
}

// The first refusal from the input, for C; number and place are 0 where the sheet is accepted.
pub fn check(sheet: &[u8]) -> Checked
    ensures { result ≡ calls.check sheet.now }
{
    match examine(sheet) {
        Ok(_) => Checked {
            number: 0,
            place: 0,
        },
        Err(refused) => Checked::from(refused.refusal),
    }
}
