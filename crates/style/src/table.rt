// How the widths are arranged: comfy-table's `style/table.rs`.
ghost use Rattle.std.specs.Prelude.{◌≡◌};
ghost use Rattle.style.specs.Table.{arrangement_of};

#[derive(Clone, Copy, PartialEq, Eq)]
pub enum ContentArrangement {
    Disabled,
    Dynamic,
    DynamicFullWidth,
}

impl From<u8> for ContentArrangement {
    ghost from_gives = { λ code r. r ≡ arrangement_of code };

    fn from(code: u8) -> ContentArrangement {
        match code {
            0 => ContentArrangement::Disabled,
            2 => ContentArrangement::DynamicFullWidth,
            _ => ContentArrangement::Dynamic,
        }
    }
}
