// What an accepted sheet holds: its settings and columns, its rows, cells and lines one after the other, and each column's longest line.
#![tactic(auto)]

pub mod accepted;
pub mod longest;
mod places;
pub mod records;
pub mod settings;
pub mod step;
pub mod walk;
