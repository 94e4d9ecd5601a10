// Where the sections of an accepted sheet stand: each begins with its count, behind the section before it.
ghost use Rattle.std.specs.Prelude.{◌≡◌};
ghost use Rattle.rules.specs.Places.{style_place, columns_place, header_place};

use super::accepted::AcceptedSheet;

impl<'a> AcceptedSheet<'a> {
    // The style's count, behind the indicator.
    pub(crate) fn style_place(&self) -> usize
        ensures { result ≡ style_place self.now.bytes.now }
    {
        6 + usize::from(self.bytes[5])
    }

    // The columns' count, behind the style's 22 characters.
    pub(crate) fn columns_place(&self) -> usize
        ensures { result ≡ columns_place self.now.bytes.now }
    {
        self.style_place() + 23
    }

    // The header's count, behind the columns, 11 bytes each.
    pub(crate) fn header_place(&self) -> usize
        ensures { result ≡ header_place self.now.bytes.now }
    {
        let columns = self.columns_place();
        columns + 1 + 11 * usize::from(self.bytes[columns])
    }
}
