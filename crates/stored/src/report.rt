// Answers beside the stored ones: what differs is said, and counted.
use crate::Widths;
use rules::{Checked, Counted, Measured};
use std::fmt;

// How many answers differ; a count beyond the largest number stands still.
#[derive(Drop)]
pub struct Report<'a, R> {
    pub rt: &'a R,
    pub differences: u64,
}

impl<'a, R: Print> Report<'a, R> {
    pub fn new(rt: &'a R) -> Report<'a, R> {
        Report { rt, differences: 0 }
    }

    pub fn compare<D: fmt::Display + Drop>(&mut self, answer: D, same: bool) {
        if !same {
            let _ = print!(self.rt; "{answer} differs, ");
            self.differences = self.differences.saturating_add(1);
        }
    }

    pub fn checked(&mut self, answer: Checked, stored: Checked) {
        self.compare("check", answer == stored);
    }

    pub fn counted(&mut self, answer: Counted, stored: Counted) {
        let refusal = (answer.number, answer.place) == (stored.number, stored.place);
        self.compare("refusal by the counts", refusal);
        self.compare("line count", answer.lines == stored.lines);
        self.compare("byte count", answer.bytes == stored.bytes);
    }

    pub fn measured(&mut self, answer: Measured, stored: Checked, widths: Widths) {
        let refusal = (answer.number, answer.place) == (stored.number, stored.place);
        self.compare("refusal by the widths", refusal);
        self.compare("column count", answer.columns == widths.columns);
        self.compare("content width", answer.content == widths.content);
        self.compare(
            "hidden column",
            answer.hidden.map(u8::from) == widths.hidden,
        );
    }
}
