// The look of a table, `TableStyle` of comfy-table: four borders and rules, and two kinds of text line. A character of 0 is unset.
ghost use Rattle.std.specs.Prelude.{◌≡◌};
ghost use Rattle.rules.specs.Examples.{grid, bare};
ghost use Rattle.rules.specs.Style.{any_left, any_right, any_junction, is_visible, top_border, header_rule, row_rule, bottom_border};
ghost use Rattle.style.specs.Bytes.{bytes_of, line_bytes};

// A border or a rule.
#[derive(Clone, Copy)]
pub struct LineStyle {
    pub left: u8,
    pub fill: u8,
    pub junction: u8,
    pub right: u8,
}

// A line that holds text.
#[derive(Clone, Copy)]
pub struct ContentLineStyle {
    pub left: u8,
    pub junction: u8,
    pub right: u8,
}

// The fields stand in the order of the sheet's 22 characters.
#[derive(Clone, Copy)]
pub struct TableStyle {
    pub top_border: LineStyle,
    pub header_lines: ContentLineStyle,
    pub header_separator: LineStyle,
    pub content_lines: ContentLineStyle,
    pub row_separator: LineStyle,
    pub bottom_border: LineStyle,
}

impl LineStyle {
    pub const NONE: LineStyle = LineStyle {
        left: 0,
        fill: 0,
        junction: 0,
        right: 0,
    };

    // A line that has no character set isn't drawn.
    pub fn is_visible(&self) -> bool
        ensures { result ≡ is_visible (line_bytes self.now) 0 }
    {
        [self.left, self.fill, self.junction, self.right]
            .iter()
            .any(|c| *c != 0)
    }
}

impl ContentLineStyle {
    pub const NONE: ContentLineStyle = ContentLineStyle {
        left: 0,
        junction: 0,
        right: 0,
    };
}

impl TableStyle {
    // The grid of the trial desk's sheet, in which the house prints.
    pub const HOUSE_GRID: TableStyle = TableStyle {
        top_border: LineStyle {
            left: b'+',
            fill: b'-',
            junction: b'+',
            right: b'+',
        },
        header_lines: ContentLineStyle {
            left: b'|',
            junction: b'|',
            right: b'|',
        },
        header_separator: LineStyle {
            left: b'+',
            fill: b'=',
            junction: b'+',
            right: b'+',
        },
        content_lines: ContentLineStyle {
            left: b'|',
            junction: b'|',
            right: b'|',
        },
        row_separator: LineStyle {
            left: b'+',
            fill: b'-',
            junction: b'+',
            right: b'+',
        },
        bottom_border: LineStyle {
            left: b'+',
            fill: b'-',
            junction: b'+',
            right: b'+',
        },
    };

    // The bare style sets nothing.
    pub const BARE: TableStyle = TableStyle {
        top_border: LineStyle::NONE,
        header_lines: ContentLineStyle::NONE,
        header_separator: LineStyle::NONE,
        content_lines: ContentLineStyle::NONE,
        row_separator: LineStyle::NONE,
        bottom_border: LineStyle::NONE,
    };

    // The constants by a call, so that what they hold is proved.
    pub fn house_grid() -> TableStyle
        ensures { bytes_of result ≡ grid }
    {
        TableStyle::HOUSE_GRID
    }

    pub fn bare() -> TableStyle
        ensures { bytes_of result ≡ bare }
    {
        TableStyle::BARE
    }

    pub fn has_top_border(&self) -> bool
        ensures { result ≡ is_visible (bytes_of self.now) top_border }
    {
        self.top_border.is_visible()
    }

    pub fn has_bottom_border(&self) -> bool
        ensures { result ≡ is_visible (bytes_of self.now) bottom_border }
    {
        self.bottom_border.is_visible()
    }

    pub fn has_header_separator(&self) -> bool
        ensures { result ≡ is_visible (bytes_of self.now) header_rule }
    {
        self.header_separator.is_visible()
    }

    pub fn has_row_separator(&self) -> bool
        ensures { result ≡ is_visible (bytes_of self.now) row_rule }
    {
        self.row_separator.is_visible()
    }

    // The left border is drawn as soon as any `left` is set.
    pub fn has_left_border(&self) -> bool
        ensures { result ≡ any_left (bytes_of self.now) }
    {
        [
            self.top_border.left,
            self.header_lines.left,
            self.header_separator.left,
            self.content_lines.left,
            self.row_separator.left,
            self.bottom_border.left,
        ]
        .iter()
        .any(|c| *c != 0)
    }

    // The right border is drawn as soon as any `right` is set.
    pub fn has_right_border(&self) -> bool
        ensures { result ≡ any_right (bytes_of self.now) }
    {
        [
            self.top_border.right,
            self.header_lines.right,
            self.header_separator.right,
            self.content_lines.right,
            self.row_separator.right,
            self.bottom_border.right,
        ]
        .iter()
        .any(|c| *c != 0)
    }

    // Vertical lines are drawn as soon as any `junction` is set.
    pub fn has_vertical_lines(&self) -> bool
        ensures { result ≡ any_junction (bytes_of self.now) }
    {
        [
            self.top_border.junction,
            self.header_lines.junction,
            self.header_separator.junction,
            self.content_lines.junction,
            self.row_separator.junction,
            self.bottom_border.junction,
        ]
        .iter()
        .any(|c| *c != 0)
    }
}
