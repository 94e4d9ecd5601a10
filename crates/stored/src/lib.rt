// The stored answers, record after record: numbers have their low byte first. Past the end every byte reads as 0.
#![tactic(auto)]

pub mod report;

ghost use Rattle.std.specs.Prelude.{◌≡◌, ◌-◌, ◌≤◌, length, min};
ghost use Rattle.std.specs.Iterator.{at_most};

use rules::{Checked, Counted, MOST_COLUMNS};

// What is still to be read.
#[derive(Clone, Copy)]
pub struct Stored<'a> {
    pub rest: &'a [u8],
}

// The columns' content widths, and 1 for each that is hidden; 0 past the columns.
#[derive(Clone, Copy)]
pub struct Widths {
    pub columns: u64,
    pub content: [u16; MOST_COLUMNS],
    pub hidden: [u8; MOST_COLUMNS],
}

// What is stored of a sheet: the answers of the calls that write nothing, and its page, which is empty where the sheet is refused.
#[derive(Clone, Copy)]
pub struct Record<'a> {
    pub sheet: &'a [u8],
    pub checked: Checked,
    pub counted: Counted,
    pub widths: Widths,
    pub page: &'a [u8],
}

impl<'a> Stored<'a> {
    // The next bytes, or as many as are left.
    fn take(&mut self, size: usize) -> &'a [u8]
        ensures part { length result.now ≡ min size (length self.old.rest.now) }
        ensures rest { length self.new.rest.now ≡ length self.old.rest.now - size }
    {
        let (part, rest) = self.rest.split_at(size.min(self.rest.len()));
        self.rest = rest;
        part
    }

    fn bytes<const N: usize>(&mut self) -> [u8; N]
        ensures { length self.new.rest.now ≡ length self.old.rest.now - N }
    {
        let part = self.take(N);
        let mut bytes = [0; N];
        bytes[..part.len()].copy_from_slice(part);
        bytes
    }

    fn byte(&mut self) -> u8
        ensures { length self.new.rest.now ≡ length self.old.rest.now - 1 }
    {
        let [byte] = self.bytes::<1>();
        byte
    }

    fn word(&mut self) -> u16
        ensures { length self.new.rest.now ≡ length self.old.rest.now - 2 }
    {
        u16::from_le_bytes(self.bytes())
    }

    fn long(&mut self) -> u32
        ensures { length self.new.rest.now ≡ length self.old.rest.now - 4 }
    {
        u32::from_le_bytes(self.bytes())
    }

    // Three bytes a column: its content width, and 1 where it is hidden.
    fn widths(&mut self) -> Widths
        ensures { length self.new.rest.now ≤ length self.old.rest.now }
    {
        let columns = self.byte();
        let mut each = Stored {
            rest: self.take(3 * usize::from(columns)),
        };
        let mut content = [0; MOST_COLUMNS];
        let mut hidden = [0; MOST_COLUMNS];
        for (width, flag) in content.iter_mut().zip(&mut hidden) {
            *width = each.word();
            *flag = each.byte();
        }
        Widths {
            columns: u64::from(columns),
            content,
            hidden,
        }
    }
}

impl<'a> Iterator for Stored<'a> {
    type Item = Record<'a>;

    ghost remaining = { λ s. at_most (length s.rest.now) };

    // The sheet's length, the sheet, number and place; for an accepted one what the calls answer, and the page.
    fn next(&mut self) -> Option<Record<'a>> {
        if self.rest.is_empty() {
            return None;
        }
        let size = self.word();
        let sheet = self.take(usize::from(size));
        let number = u64::from(self.byte());
        let place = u64::from(self.word());
        if number != 0 {
            return Some(Record::refused(sheet, number, place));
        }
        let widths = self.widths();
        let lines = u64::from(self.long());
        let bytes = self.long();
        let page = self.take(bytes as usize);
        Some(Record {
            sheet,
            checked: Checked { number, place },
            counted: Counted {
                number,
                place,
                lines,
                bytes: page.len() as u64,
            },
            widths,
            page,
        })
    }
}

impl<'a> Record<'a> {
    // Every call answers number and place, which are stored as numbers, and nothing else.
    fn refused(sheet: &'a [u8], number: u64, place: u64) -> Record<'a> {
        Record {
            sheet,
            checked: Checked { number, place },
            counted: Counted {
                number,
                place,
                lines: 0,
                bytes: 0,
            },
            widths: Widths {
                columns: 0,
                content: [0; MOST_COLUMNS],
                hidden: [0; MOST_COLUMNS],
            },
            page: b"",
        }
    }
}
