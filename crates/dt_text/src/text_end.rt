//! Why a line gives no tokens.

ghost use Rattle.std.specs.Prelude.{◌≡◌};

use dt_base::NoMemory;

/// Why a line gives no tokens.
#[derive(Clone, Copy, Debug, PartialEq, Eq)]
pub enum TextEnd {
    /// The line has too many bytes.
    LineTooLong,
    /// The place in the line, from 1, of the first byte that it may not have.
    BadByte(u32),
    NoMemory,
}

impl From<NoMemory> for TextEnd {
    ghost use Rattle.dt_text.specs.declared.text_end.TextEnd.{TextEnd};

    ghost from_gives = { λ _ end. end ≡ TextEnd.NoMemory };

    fn from(_error: NoMemory) -> TextEnd {
        TextEnd::NoMemory
    }
}
