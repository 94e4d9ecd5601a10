// The longest line of each column, in one pass over the sheet, a cell line at a step.
ghost use Rattle.table.specs.Pass.{Passed};

use super::accepted::AcceptedSheet;
use super::step;
use super::step::Left;
use rules::MOST_COLUMNS;

impl<'a> AcceptedSheet<'a> {
    // Each column's longest line over header and rows; 0 past the columns. Where the pass stands is the end of the last line taken.
    pub fn longest(&self) -> [u16; MOST_COLUMNS]
        ensures { Passed self.now.bytes.now result }
    {
        let header = self.header_place();
        let rows = usize::from(self.bytes[header]);
        let mut at = header + 1;
        let mut left = Left {
            sections: 1,
            rows,
            cells: 0,
            begun: 0,
            lines: 0,
        };
        let mut longest = [0u16; MOST_COLUMNS];
        // Kept: a step is lent the longest so far, which an iterator would have to hold while they change.
        while let Some(taken) = step::step(&self.bytes[at..], left, &longest) {
            longest[taken.column] = taken.longest;
            at += taken.end;
            left = taken.left;
        }
        longest
    }
}
