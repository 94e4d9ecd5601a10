// A row's text lines: comfy-table's `utils/formatting`.
#![tactic(auto)]

pub mod content_format;
pub mod row_size;
