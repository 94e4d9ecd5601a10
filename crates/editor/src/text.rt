// The texts of the editor's table: a length from the numbers, the bytes from the other slice.
#![tactic(auto, using(crate::proofs::Laws::texts))]

ghost use Rattle.std.specs.Prelude.{◌≡◌, ◌∷◌, map, ◌<◌, length};
ghost use Rattle.rules.specs.Steps.{read_to};
ghost use Rattle.rules.specs.Writer as writer;
ghost use Rattle.editor.specs.Walk.{state, walked, entered, noted, stamped, walk_of, walked_to};
ghost use Rattle.editor.specs.Walk as definition;

use super::walk;
use super::walk::{Missing, Slices, Walk};
use rules::{Reason, Refusal, STYLE_CHARACTERS};

// What a text is: the indicator, the style, or a line of a cell.
#[derive(Clone, Copy)]
pub enum Kind {
    Indicator,
    Style,
    Line,
}

fn letter(value: u8, zero: bool) -> bool
    ensures { result ≡ definition.letter zero value }
{
    zero && value == 0 || sheet::text::is_printable(value)
}

// The first character that is refused, or the end.
fn characters(part: &[u8], zero: bool) -> Result<usize, Refusal>
    ensures { read_to result ≡ writer.in_turn (writer.character_judged (definition.letter zero)) part.now 0 }
{
    for (i, &value) in part.iter().enumerate() {
        if !letter(value, zero) {
            return Err(Refusal {
                reason: Reason::BadCharacter,
                place: i,
            });
        }
    }
    Ok(part.len())
}

// What the character at `at` of a line comes to. C2 begins a pair, unless it is the last byte: no B0 can follow it there.
fn character(part: &[u8], at: usize) -> Result<usize, Refusal>
    requires { at < length part.now }
    ensures { definition.CharacterIs part.now at (read_to result) }
{
    if sheet::text::is_printable(part[at]) {
        return Ok(at + 1);
    }
    if part[at] == 0xC2 && part.len() - at >= 2 && part[at + 1] == 0xB0 {
        return Ok(at + 2);
    }
    Err(Refusal {
        reason: Reason::BadCharacter,
        place: at,
    })
}

// The first character of a line that is refused, or the end.
fn pairs(part: &[u8]) -> Result<usize, Refusal>
    ensures { read_to result ≡ writer.characters_judged part.now 0 }
{
    let mut i = 0;
    // Kept: a character is one byte or two, and the places that the error names are counted on the whole line, not on what is left of it.
    while i < part.len() {
        i = character(part, i)?;
    }
    Ok(i)
}

// The same. Most lines have no pair: all bytes are tested first, many at a time.
fn line_characters(part: &[u8]) -> Result<usize, Refusal>
    ensures { read_to result ≡ writer.characters_judged part.now 0 }
{
    if sheet::text::all_printable(part) {
        return Ok(part.len());
    }
    pairs(part)
}

fn characters_of(part: &[u8], kind: Kind) -> Result<usize, Refusal>
    ensures { read_to result ≡ definition.characters_of kind part.now 0 }
{
    match kind {
        Kind::Indicator => characters(part, false),
        Kind::Style => characters(part, true),
        Kind::Line => line_characters(part),
    }
}

fn least(kind: Kind) -> usize
    ensures { result ≡ definition.least kind }
{
    match kind {
        Kind::Indicator | Kind::Line => 0,
        Kind::Style => STYLE_CHARACTERS,
    }
}

fn most(kind: Kind) -> usize
    ensures { result ≡ definition.most kind }
{
    match kind {
        Kind::Indicator => 8,
        Kind::Style => STYLE_CHARACTERS,
        Kind::Line => 200,
    }
}

// The first fault of a text: its length's, or a character's, which stands behind the length.
#[inline(always)]
fn judge(part: &[u8], from: Walk, kind: Kind) -> Walk
    ensures { walk_of result ≡ noted (writer.judges (definition.text_format kind) part.now from.place) (walk_of from) }
{
    let n = part.len();
    if n < least(kind) || most(kind) < n {
        let fault = Refusal {
            reason: Reason::BeyondLimits,
            place: from.place,
        };
        return walk::note(from, Some(fault));
    }
    let Err(fault) = characters_of(part, kind) else {
        return from;
    };
    let place = walk::further(walk::further(from.place, 1), fault.place);
    walk::note(
        from,
        Some(Refusal {
            reason: fault.reason,
            place,
        }),
    )
}

// A text and its length, where there is room for both.
fn put(sheet: &mut [u8], at: usize, part: &[u8])
    ensures { sheet.new ≡ stamped sheet.old at (map definition.low (length part.now ∷ part.now)) }
{
    if sheet.len() <= at {
        return;
    }
    if sheet.len() - at <= part.len() {
        return;
    }
    sheet[at] = (part.len() % 256) as u8;
    buffer::copy(sheet, at + 1, part);
}

// A text that was taken. Compiled into its callers, as `text` is.
#[inline(always)]
fn enter(sheet: &mut [u8], part: &[u8], from: Walk, kind: Kind) -> Walk
    ensures { state (walk_of result) sheet.new
        ≡ entered (writer.judges (definition.text_format kind) part.now from.place)
        (map definition.low (length part.now ∷ part.now)) (state (walk_of from) sheet.old) }
{
    put(sheet, from.place, part);
    let judged = judge(part, from, kind);
    let first = walk::advance(judged, 1);
    walk::advance(first, part.len())
}

impl Slices<'_> {
    // A text: its length, and as many bytes. Compiled into its callers, each of which knows the kind.
    #[inline(always)]
    pub fn text(&self, sheet: &mut [u8], from: Walk, kind: Kind) -> Result<Walk, Missing>
        ensures { state (walked_to result) sheet.new
            ≡ walked (definition.text_format kind) self.now.numbers.now self.now.text.now (state (walk_of from) sheet.old) }
    {
        let length = self.number(from)?;
        let start = length.next.text;
        let taken = self.bytes(length.next, length.value)?;
        Ok(enter(sheet, &self.text[start..taken.text], taken, kind))
    }
}
