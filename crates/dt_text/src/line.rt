//! Lines of a text.

ghost use Rattle.std.specs.Prelude.{◌≡◌, ◌≤◌, ◌<◌, ◌+◌, ◌-◌, ◌^◌, ◌∷◌, length, drop, min, IfSome, IfNone, OnSome, slice_range};
ghost use Rattle.std.specs.List.{position_or_len};
ghost use Rattle.dt_text.specs.Lines.{is_line_end, lines_of, plain_line};

/// A line: the bytes `from..to` of a text, without the LF. Its number is the one that the caller gave it.
#[derive(Clone, Copy, Debug, PartialEq, Eq)]
pub struct Line {
    pub number: u32,
    pub from: u32,
    pub to: u32,
}

impl Line {
    /// Where the line behind this one begins.
    pub fn after(&self, text: &[u8]) -> u32
        requires fits { length text.now < 2 ^ 32 - 1 }
        requires within { self.now.to ≤ length text.now }
        ensures place { result ≡ min (self.now.to + 1) (length text.now) }
        ensures rest { drop result text.now ≡ drop (self.now.to + 1) text.now }
    {
        if (self.to as usize) < text.len() {
            self.to + 1
        } else {
            self.to
        }
    }

    /// The line's bytes, without the CR of a line that ends with CR and LF.
    pub fn plain<'a>(&self, text: &'a [u8]) -> &'a [u8]
        requires order { self.now.from ≤ self.now.to }
        requires within { self.now.to ≤ length text.now }
        ensures bytes { result.now ≡ plain_line (slice_range text.now self.now.from self.now.to) }
        ensures within { length result.now ≤ self.now.to - self.now.from }
    {
        match &text[self.from as usize..self.to as usize] {
            [plain @ .., b'\r'] => plain,
            line => line,
        }
    }
}

/// The line that begins at `at`. It ends before the next LF, or at the end of the text.
pub fn next_line(text: &[u8], at: u32, number: u32) -> Option<Line>
    requires fits { length text.now < 2 ^ 32 - 1 }
    requires within { at ≤ length text.now }
    ensures none { IfNone result (at ≡ length text.now) }
    ensures some { OnSome result (at < length text.now) }
    ensures place { IfSome result (λ l. (l.number ≡ number) × (l.from ≡ at)) }
    ensures span { IfSome result (λ l. (l.from ≤ l.to) × (l.to ≤ length text.now)) }
    ensures end { IfSome result (λ l. l.to ≡ at + position_or_len is_line_end (drop at text.now)) }
    ensures lines { IfSome result (λ l. lines_of (drop at text.now) ≡ slice_range text.now l.from l.to ∷ lines_of (drop (l.to + 1) text.now)) }
{
    if at as usize == text.len() {
        return None;
    }
    let to = at + line_len(&text[at as usize..]) as u32;
    Some(Line {
        number,
        from: at,
        to,
    })
}

/// How many bytes stand before the first LF.
fn line_len(text: &[u8]) -> usize
    ensures within { result ≤ length text.now }
    ensures value { result ≡ position_or_len is_line_end text.now }
{
    text.iter().take_while(|b| **b != b'\n').count()
}
