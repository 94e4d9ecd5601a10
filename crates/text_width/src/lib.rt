// The columns of a text: comfy-table's `measure_text_width`. A character is a byte, or a pair whose second byte is B0, and takes one column.
#![tactic(auto)]

ghost use Rattle.std.specs.Prelude.{◌≡◌, ◌-◌, ◌≤◌, length, false, [], ◌∷◌};
ghost use Rattle.std.proofs.Math.Seq.{slice};
ghost use Rattle.rules.specs.Text.{text_width};
ghost use Rattle.text_width.specs.Measure.{IsPlain, Reached};

// A text, and whether it is plain, which is to say that no pair is in it. One of which nothing is known isn't said to be plain.
#[derive(Clone, Copy)]
pub struct Text<'a> {
    pub bytes: &'a [u8],
    pub plain: bool,
    pub ghost known: { IsPlain plain bytes.now },
}

// Where some columns of a text end, and how many of them it lacks.
#[derive(Clone, Copy)]
pub struct Place {
    pub at: usize,
    pub left: usize,
}

// The columns of a byte: none for B0, the second byte of a pair.
fn width_of(b: u8) -> u8
    ensures { (result ≡ text_width (b ∷ [])) × (result ≤ 1) }
{
    if b == 176 {
        return 0;
    }
    1
}

// The columns of at most 255 bytes. The sum is one byte and nothing ends the loop early, so that the compiler takes sixteen bytes at
// a time.
fn count_few(text: &[u8]) -> u8
    requires { length text.now ≤ 255 }
    ensures { result ≡ text_width text.now }
{
    let mut n: u8 = 0;
    for &b in text {
        n += width_of(b);
    }
    n
}

// The columns of a text, counted.
fn count(text: &[u8]) -> usize
    ensures { result ≡ text_width text.now }
{
    let mut n: usize = 0;
    for few in text.chunks(255) {
        n += usize::from(count_few(few));
    }
    n
}

// The place after `width` columns of `text` from `from` on, byte by byte.
fn walk(text: &[u8], from: usize, width: usize) -> Place
    requires { from ≤ length text.now }
    ensures { Reached text.now from width result.at result.left }
{
    let mut left = width;
    // Kept over places: a place is the answer, and in a part of the text each would begin at 0.
    for e in from..text.len() {
        let one = usize::from(width_of(text[e]));
        if left < one {
            return Place { at: e, left };
        }
        left -= one;
    }
    Place {
        at: text.len(),
        left,
    }
}

impl<'a> Text<'a> {
    // A text of which nothing is known.
    #[inline]
    pub fn unknown(bytes: &'a [u8]) -> Text<'a>
        ensures { (result.bytes.now ≡ bytes.now) × (result.plain ≡ false) }
    {
        Text {
            bytes,
            plain: false,
        }
    }

    // The columns of the bytes from `from` up to `to`: as many as bytes, where the text is plain.
    #[inline]
    pub fn columns(&self, from: usize, to: usize) -> usize
        requires { (from ≤ to) × (to ≤ length self.now.bytes.now) }
        ensures { result ≡ text_width (slice from to self.now.bytes.now) }
    {
        if self.plain {
            return to - from;
        }
        count(&self.bytes[from..to])
    }

    // The place after `width` columns from `from` on, where there are that many bytes: a plain text isn't read; of another, the first `width`
    // bytes are counted, many at a time.
    #[inline]
    pub fn reach(&self, from: usize, width: usize) -> Place
        requires { (from ≤ length self.now.bytes.now) × (width ≤ length self.now.bytes.now - from) }
        ensures { Reached self.now.bytes.now from width result.at result.left }
    {
        let to = from + width;
        if self.plain {
            return Place { at: to, left: 0 };
        }
        let n = count(&self.bytes[from..to]);
        walk(self.bytes, to, width - n)
    }
}
