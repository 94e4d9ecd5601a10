// The editor's table, two slices of numbers and text, field by field: each is taken, judged, and put where there is room.
#![tactic(auto)]

pub mod field;
pub mod text;
pub mod walk;
