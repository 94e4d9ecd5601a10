// What a sheet of the family chooses.
ghost use Rattle.std.specs.Prelude.{◌^◌, ◌≤◌, ◌<◌};

// A text: its length, and its number among the texts of that length.
#[derive(Clone, Copy)]
pub struct Text {
    pub length: usize,
    pub number: usize,
    pub ghost short: { length ≤ 4 },
    pub ghost there: { number < 2 ^ length },
}

// An arrangement and a target, and which of the rows of texts.
#[derive(Clone, Copy)]
pub struct Place {
    pub arrangement: usize,
    pub target: usize,
    pub row: usize,
    pub ghost arranged: { arrangement ≤ 2 },
    pub ghost targeted: { target ≤ 10 },
}

// All that a sheet chooses: it has a second column where there is a second text.
#[derive(Clone, Copy)]
pub struct Choice {
    pub arrangement: usize,
    pub target: usize,
    pub first: Text,
    pub second: Option<Text>,
    pub ghost arranged: { arrangement ≤ 2 },
    pub ghost targeted: { target ≤ 10 },
}
