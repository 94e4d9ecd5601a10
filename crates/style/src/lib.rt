// How a table looks: the records of comfy-table's `style` folder.
#![tactic(auto)]

pub mod column;
pub mod columns;
pub mod table;
pub mod table_style;
