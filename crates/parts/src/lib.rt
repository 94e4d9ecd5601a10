// The parts of an opened page, in comfy-table's order: which comes next, how many lines and bytes it has, and the part drawn.
#![tactic(auto)]

pub mod cursor;
pub mod part;
pub mod sizes;
