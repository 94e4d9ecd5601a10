// A page reader: the lent sheet and the number of its next line.
#![tactic(auto)]

ghost use Rattle.std.specs.Prelude.{◌≡◌};
ghost use Rattle.reader.specs.Read.{ReadIs};

use rules::Refusal;

// Whoever prints a page line by line keeps one of these between two lines.
#[derive(Clone, Copy)]
pub struct PageReader<'a> {
    pub sheet: &'a [u8],
    pub line: usize,
}

impl<'a> PageReader<'a> {
    // A reader before a sheet's first line.
    pub fn new(sheet: &'a [u8]) -> PageReader<'a>
        ensures { (result.sheet ≡ sheet.entry) × (result.line ≡ 0) }
    {
        PageReader { sheet, line: 0 }
    }

    // The reader's line over the buffer's start, and its bytes. A reader moves on past a line that was printed.
    pub fn next(&mut self, page: &mut [u8]) -> Result<usize, Refusal>
        ensures read { ReadIs self.old.sheet.now self.old.line page.old page.new result self.new.line }
        ensures same_sheet { self.new.sheet ≡ self.old.sheet }
    {
        let written = page::write_line(self.sheet, self.line, page)?;
        self.line += 1;
        Ok(written)
    }
}
