// The fields of a sheet that are numbers: taken from the editor's numbers, judged, put where there is room.
#![tactic(auto, using(crate::proofs::Laws::numbers))]

ghost use Rattle.std.specs.Prelude.{◌≡◌, ◌&&◌, IfOk};
ghost use Rattle.rules.specs.Field as field;
ghost use Rattle.rules.specs.Description as description;
ghost use Rattle.rules.specs.Format as format;
ghost use Rattle.rules.specs.Editor as slices;
ghost use Rattle.rules.specs.Sheet.{most_columns};
ghost use Rattle.rules.specs.Writer as writer;
ghost use Rattle.rules.specs.Refusals.{number_of};
ghost use Rattle.editor.specs.Walk.{state, walked, byte_entered, cursor_of, walk_of, walked_to, field_to, judged_as};
ghost use Rattle.editor.specs.Walk as definition;

use super::walk;
use super::walk::{Missing, Slices, Walk};
use rules::{MOST_COLUMNS, Reason, Refusal};

// The most columns of a sheet as one of the editor's numbers.
pub const MOST: u16 = MOST_COLUMNS as u16;

// A field with its value. It has its value even where that is a fault: the items that it counts are walked all the same.
#[derive(Clone, Copy)]
pub struct Field {
    pub value: u16,
    pub walk: Walk,
}

// The sheet's tests are of bytes: with a type parameter for the number, these two lines would be no plainer.
pub fn between(value: u16, low: u16, high: u16) -> bool
    ensures { result ≡ field.between low high value }
{
    low <= value && value <= high
}

pub fn printable_or_zero(value: u16) -> bool
    ensures { result ≡ field.printable_or_zero value }
{
    value == 0 || between(value, 32, 126)
}

// Where an unused width that isn't 0 is refused: at its low byte, or at its high byte where the low one is 0.
fn unused_place(place: usize, value: u16) -> usize
    ensures { result ≡ definition.unused_place place value }
{
    if value % 256 == 0 {
        return walk::further(place, 1);
    }
    place
}

// Beyond the limit it is `BeyondLimits`, and `TooManyCells` only where the limit is kept and the columns are fewer.
fn count_fault(value: u16, columns: u16, place: usize) -> Option<Refusal>
    ensures { judged_as result ≡ writer.passes (field.between 0 most_columns value && field.between 0 columns value)
        (definition.count_fault (field.between 0 most_columns value)) place 0 }
{
    if MOST < value {
        let reason = Reason::BeyondLimits;
        return Some(Refusal { reason, place });
    }
    if columns < value {
        let reason = Reason::TooManyCells;
        return Some(Refusal { reason, place });
    }
    None
}

impl Slices<'_> {
    // One byte from low to high.
    pub fn byte_between(
        &self,
        sheet: &mut [u8],
        from: Walk,
        low: u16,
        high: u16,
        reason: Reason,
    ) -> Result<Field, Missing>
        ensures sheet_after { state (field_to result) sheet.new
            ≡ byte_entered (field.between low high) (number_of reason) self.now.numbers.now (state (walk_of from) sheet.old) }
        ensures value { IfOk result (λ f. f.value ≡ (slices.number_at self.now.numbers.now (cursor_of (walk_of from))).value) }
    {
        let taken = self.number(from)?;
        let good = between(taken.value, low, high);
        let fault = walk::fault_unless(good, reason, taken.next.place);
        Ok(Field {
            value: taken.value,
            walk: walk::enter_byte(sheet, taken.next, taken.value, fault),
        })
    }

    // The same where only the walk matters.
    pub fn within(
        &self,
        sheet: &mut [u8],
        from: Walk,
        low: u16,
        high: u16,
        reason: Reason,
    ) -> Result<Walk, Missing>
        ensures { state (walked_to result) sheet.new
            ≡ byte_entered (field.between low high) (number_of reason) self.now.numbers.now (state (walk_of from) sheet.old) }
    {
        Ok(self.byte_between(sheet, from, low, high, reason)?.walk)
    }

    // A printable byte, or 0 for none.
    pub fn optional(&self, sheet: &mut [u8], from: Walk) -> Result<Walk, Missing>
        ensures { state (walked_to result) sheet.new ≡ byte_entered field.printable_or_zero 6 self.now.numbers.now (state (walk_of from) sheet.old) }
    {
        let taken = self.number(from)?;
        let good = printable_or_zero(taken.value);
        let fault = walk::fault_unless(good, Reason::BadCharacter, taken.next.place);
        Ok(walk::enter_byte(sheet, taken.next, taken.value, fault))
    }

    // Two bytes, up to `most`.
    pub fn word_to(&self, sheet: &mut [u8], from: Walk, most: u16) -> Result<Walk, Missing>
        ensures { state (walked_to result) sheet.new ≡ walked (description.word_to most) self.now.numbers.now self.now.text.now (state (walk_of from) sheet.old) }
    {
        let taken = self.number(from)?;
        let fault = walk::fault_unless(taken.value <= most, Reason::BeyondLimits, taken.next.place);
        Ok(walk::enter_word(sheet, taken.next, taken.value, fault))
    }

    // Two bytes of an unused width.
    pub fn zero_word(&self, sheet: &mut [u8], from: Walk) -> Result<Walk, Missing>
        ensures { state (walked_to result) sheet.new ≡ walked description.zero_word self.now.numbers.now self.now.text.now (state (walk_of from) sheet.old) }
    {
        let taken = self.number(from)?;
        let place = unused_place(taken.next.place, taken.value);
        let fault = walk::fault_unless(taken.value == 0, Reason::NotZero, place);
        Ok(walk::enter_word(sheet, taken.next, taken.value, fault))
    }

    // A cell count.
    pub fn cell_count(&self, sheet: &mut [u8], from: Walk, columns: u16) -> Result<Field, Missing>
        ensures sheet_after { state (field_to result) sheet.new
            ≡ walked (format.cell_count columns) self.now.numbers.now self.now.text.now (state (walk_of from) sheet.old) }
        ensures value { IfOk result (λ f. f.value ≡ (slices.number_at self.now.numbers.now (cursor_of (walk_of from))).value) }
    {
        let taken = self.number(from)?;
        let fault = count_fault(taken.value, columns, taken.next.place);
        Ok(Field {
            value: taken.value,
            walk: walk::enter_byte(sheet, taken.next, taken.value, fault),
        })
    }
}
