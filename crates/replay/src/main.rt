// Replays sheets against stored answers of the Rust: every call of document 01, with buffers that are full, short and wide. Standard input
// holds records one after another; the README of tools/differential/sample has their format.
#![tactic(auto)]

use print_calls::Trial;
use stored::{Record, Stored};

// What was replayed, and how many answers differ.
#[derive(Clone, Copy)]
struct Tally {
    sheets: u64,
    lines: u64,
    differences: u64,
}

impl Tally {
    // Every call on a record's sheet; says which sheet the differences belong to.
    fn replay<R: Print>(&mut self, rt: &R, record: Record<'_>) {
        let mut trial = Trial::new(rt, record.sheet);
        trial
            .report
            .checked(page::check(record.sheet), record.checked);
        trial
            .report
            .counted(page::count(record.sheet), record.counted);
        trial
            .report
            .measured(page::widths(record.sheet), record.checked, record.widths);
        let lines = print_all(&mut trial, record);
        let found = trial.report.differences;
        if found != 0 {
            let _ = println!(rt; "in sheet {}", self.sheets);
        }
        self.sheets = self.sheets.saturating_add(1);
        self.lines = self.lines.saturating_add(lines);
        self.differences = self.differences.saturating_add(found);
    }
}

// The calls that print; gives how many lines the stored page has. A refused sheet is refused by each, and nothing is written.
fn print_all<R: Print>(trial: &mut Trial<'_, R>, record: Record<'_>) -> u64 {
    let stored = record.checked;
    if stored.number != 0 {
        trial.turned_down(stored.number, stored.place);
        return 0;
    }
    let count = record.counted.lines;
    trial.pages(record.page);
    let lines = trial.each_line(record.page, count);
    trial
        .report
        .compare("count of stored lines", lines == count);
    trial.past_the_end(count);
    lines
}

fn main(rt: HostRuntime) {
    // the stored answers take 171,922 bytes; were they cut short here, the totals written would show it
    let mut text = [0u8; 200000];
    let n = stream::read_full(&rt, &mut text);
    let mut tally = Tally {
        sheets: 0,
        lines: 0,
        differences: 0,
    };
    for record in (Stored { rest: &text[..n] }) {
        tally.replay(&rt, record);
    }
    let Tally {
        sheets,
        lines,
        differences,
    } = tally;
    // a byte past the end reads as 0, so that an end cut off shows here alone
    let _ = println!(rt; "{n} bytes, {sheets} sheets, {lines} lines, {differences} differences");
}
