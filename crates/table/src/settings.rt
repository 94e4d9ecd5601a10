// What an accepted sheet says of the whole table, by value.
ghost use Rattle.std.specs.Prelude.{◌≡◌, ◌+◌, ◌<◌, length};
ghost use Rattle.rules.specs.Places.{word_at, width_here, column_here};
ghost use Rattle.table.specs.Held.{table_of, settings_of, columns_of};

use super::accepted::AcceptedSheet;
use super::records::Settings;
use rules::{Column, STYLE_CHARACTERS, Width};
use style::columns::Columns;

// Two bytes, low byte first.
fn word_at(sheet: &[u8], at: usize) -> u16
    requires { at + 1 < length sheet.now }
    ensures { result ≡ word_at sheet.now at }
{
    u16::from_le_bytes([sheet[at], sheet[at + 1]])
}

fn width_at(sheet: &[u8], at: usize) -> Width
    requires { at + 2 < length sheet.now }
    ensures { result ≡ width_here sheet.now at }
{
    Width {
        unit: sheet[at],
        value: word_at(sheet, at + 1),
    }
}

fn column_at(sheet: &[u8], at: usize) -> Column
    requires { at + 10 < length sheet.now }
    ensures { result ≡ column_here sheet.now at }
{
    let first = width_at(sheet, at + 5);
    let second = width_at(sheet, at + 8);
    Column {
        left: sheet[at],
        right: sheet[at + 1],
        delimiter: sheet[at + 2],
        alignment: sheet[at + 3],
        constraint: sheet[at + 4],
        first,
        second,
    }
}

impl<'a> AcceptedSheet<'a> {
    // Arrangement, target and table delimiter stand at fixed places, so no byte before them is read.
    pub fn settings(&self) -> Settings
        ensures { result ≡ settings_of (table_of self.now.bytes.now) }
    {
        Settings {
            arrangement: self.bytes[1],
            target: word_at(self.bytes, 2),
            delimiter: self.bytes[4],
        }
    }

    // The indicator, a part of the sheet.
    pub fn indicator(&self) -> &'a [u8]
        ensures { result.now ≡ (table_of self.now.bytes.now).indicator }
    {
        let end = 6 + usize::from(self.bytes[5]);
        &self.bytes[6..end]
    }

    // The style's characters, in the order of the record `TableStyle`.
    pub fn style(&self) -> [u8; STYLE_CHARACTERS]
        ensures { result ≡ (table_of self.now.bytes.now).style }
    {
        let first = self.style_place() + 1;
        let mut characters = [0; STYLE_CHARACTERS];
        characters.copy_from_slice(&self.bytes[first..first + STYLE_CHARACTERS]);
        characters
    }

    // The columns are copied once: widths and drawing ask for them again and again.
    pub fn columns(&self) -> Columns
        ensures { result ≡ columns_of (table_of self.now.bytes.now) }
    {
        let place = self.columns_place();
        let count = usize::from(self.bytes[place]);
        let mut columns = Columns::new();
        // Kept over numbers: by definition a column stands at a place of the sheet; as a part of it each would begin at 0, and no line is saved.
        for i in 0..count {
            columns.push(column_at(self.bytes, place + 1 + 11 * i));
        }
        columns
    }
}
