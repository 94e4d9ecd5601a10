// A walk over the fields of the editor's table: what is taken of the slices, where the next field of the sheet starts, the first fault.
// The same walk judges and writes. It puts bytes only where the buffer that it is lent has room, so that the first run is lent none.
#![tactic(auto, using(crate::proofs::Laws::walks))]

ghost use Rattle.std.specs.Prelude.{◌≡◌, [], ◌∷◌, map, ◌+◌, ◌%◌, IfOk};
ghost use Rattle.rules.specs.Description as description;
ghost use Rattle.rules.specs.Editor as slices;
ghost use Rattle.rules.specs.Refusals.{number_of};
ghost use Rattle.rules.specs.Writer as writer;
ghost use Rattle.rules.specs.declared.Reason.TheVariants.{Ended};
ghost use Rattle.editor.specs.Walk.{state, entered, cursor_of, moved, noted, advanced, stamped, walk_of, walked_to, taken_to, judged_as};
ghost use Rattle.editor.specs.Walk as definition;

use rules::{Reason, Refusal};

#[derive(Clone, Copy)]
pub struct Walk {
    pub numbers: usize,
    pub text: usize,
    pub place: usize,
    pub fault: Option<Refusal>,
}

// A number or a text is missing: what was walked before it.
#[derive(Clone, Copy)]
pub struct Missing {
    pub walk: Walk,
}

impl From<Missing> for Refusal {
    ghost from_gives = { λ m r. (r.reason ≡ Ended) × (r.place ≡ m.walk.numbers) };

    fn from(missing: Missing) -> Refusal {
        Refusal {
            reason: Reason::Ended,
            place: missing.walk.numbers,
        }
    }
}

// The editor's table, as it is lent.
#[derive(Clone, Copy)]
pub struct Slices<'a> {
    pub numbers: &'a [u16],
    pub text: &'a [u8],
}

// A number that was taken.
#[derive(Clone, Copy)]
pub struct Taken {
    pub value: u16,
    pub next: Walk,
}

impl Slices<'_> {
    // The next number.
    pub fn number(&self, from: Walk) -> Result<Taken, Missing>
        ensures value { IfOk result (λ t. t.value ≡ (slices.number_at self.now.numbers.now (cursor_of (walk_of from))).value) }
        ensures next { taken_to result ≡ moved (slices.number_at self.now.numbers.now (cursor_of (walk_of from))).after (walk_of from) }
    {
        let Some(&value) = self.numbers.get(from.numbers) else {
            return Err(Missing { walk: from });
        };
        Ok(Taken {
            value,
            next: Walk {
                numbers: from.numbers + 1,
                ..from
            },
        })
    }

    // The next n bytes of the text.
    pub(crate) fn bytes(&self, from: Walk, n: u16) -> Result<Walk, Missing>
        ensures { walked_to result ≡ moved (slices.bytes_at n self.now.text.now (cursor_of (walk_of from))).after (walk_of from) }
    {
        let size = usize::from(n);
        if self.text.len() < from.text || self.text.len() - from.text < size {
            return Err(Missing { walk: from });
        }
        Ok(Walk {
            text: from.text + size,
            ..from
        })
    }
}

// A place further on, exact up to the longest sheet.
#[tactic(auto, unfolding(crate::specs::Walk::cap))]
pub fn further(place: usize, more: usize) -> usize
    ensures { result ≡ definition.cap (place + more) }
{
    place.saturating_add(more).min(32769)
}

// The fault of a field that starts at `place`, unless its value is good.
pub fn fault_unless(good: bool, reason: Reason, place: usize) -> Option<Refusal>
    ensures { judged_as result ≡ writer.passes good (number_of reason) place 0 }
{
    if good {
        None
    } else {
        Some(Refusal { reason, place })
    }
}

// The first fault is kept.
pub fn note(from: Walk, fault: Option<Refusal>) -> Walk
    ensures { walk_of result ≡ noted (judged_as fault) (walk_of from) }
{
    let Some(first) = fault else {
        return from;
    };
    if from.fault.is_some() {
        return from;
    }
    let fault = Refusal {
        reason: first.reason,
        place: further(first.place, 0),
    };
    Walk {
        fault: Some(fault),
        ..from
    }
}

// The next field starts so many bytes further on.
#[tactic(auto, unfolding(crate::specs::Walk::advanced))]
pub fn advance(from: Walk, size: usize) -> Walk
    ensures { walk_of result ≡ advanced size (walk_of from) }
{
    Walk {
        place: further(from.place, size),
        ..from
    }
}

// One byte, where there is room for it.
pub fn put_byte(sheet: &mut [u8], at: usize, value: u16)
    ensures { sheet.new ≡ stamped sheet.old at (value % 256 ∷ []) }
{
    if at < sheet.len() {
        sheet[at] = (value % 256) as u8;
    }
}

// Two bytes, low byte first, where there is room for both.
pub fn put_word(sheet: &mut [u8], at: usize, value: u16)
    ensures { sheet.new ≡ stamped sheet.old at (map definition.low (description.writes description.word value)) }
{
    if sheet.len() <= at {
        return;
    }
    if sheet.len() - at < 2 {
        return;
    }
    sheet[at] = (value % 256) as u8;
    sheet[at + 1] = (value / 256) as u8;
}

// A field of one byte that was taken.
pub fn enter_byte(sheet: &mut [u8], from: Walk, value: u16, fault: Option<Refusal>) -> Walk
    ensures { state (walk_of result) sheet.new ≡ entered (judged_as fault) (value % 256 ∷ []) (state (walk_of from) sheet.old) }
{
    put_byte(sheet, from.place, value);
    advance(note(from, fault), 1)
}

// A field of two bytes that was taken.
pub fn enter_word(sheet: &mut [u8], from: Walk, value: u16, fault: Option<Refusal>) -> Walk
    ensures { state (walk_of result) sheet.new
        ≡ entered (judged_as fault) (map definition.low (description.writes description.word value)) (state (walk_of from) sheet.old) }
{
    put_word(sheet, from.place, value);
    advance(note(from, fault), 2)
}
