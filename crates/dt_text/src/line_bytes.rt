//! Which lines are skipped, and which bytes the others may have.

ghost use Rattle.std.specs.Prelude.{◌≡◌, ◌<◌, ◌≤◌, ◌-◌, ◌^◌, length, not, position, IfSome};
ghost use Rattle.std.specs.List.{prefix_len};
ghost use Rattle.dt_text.specs.Tokens.{is_blank, behind_blanks};
ghost use Rattle.dt_text.specs.Words.{is_line_byte, is_skipped, bad_place};

/// Whether a line has nothing but blanks, or a `#` first behind them.
pub(crate) fn is_skipped(plain: &[u8]) -> bool
    ensures { result ≡ is_skipped plain.now }
{
    matches!(behind_blanks(plain), [] | [b'#', ..])
}

/// The place, from 1, of the first byte that a line may not have.
pub(crate) fn bad_place(plain: &[u8]) -> Option<u32>
    requires { length plain.now < 2 ^ 32 - 1 }
    ensures { result ≡ bad_place plain.now }
{
    match bad_index(plain) {
        Some(index) => Some(index as u32 + 1),
        None => None,
    }
}

fn bad_index(plain: &[u8]) -> Option<usize>
    ensures within { IfSome result (λ k. k < length plain.now) }
    ensures value { result ≡ position (λ b. not (is_line_byte b)) plain.now }
{
    plain.iter().position(|b| !is_line_byte(*b))
}

/// What stands behind the blanks at the front of a text.
pub fn behind_blanks(text: &[u8]) -> &[u8]
    ensures bytes { result.now ≡ behind_blanks text.now }
    ensures within { length result.now ≤ length text.now }
{
    &text[blanks(text)..]
}

/// How many blanks stand at the front.
fn blanks(text: &[u8]) -> usize
    ensures within { result ≤ length text.now }
    ensures value { result ≡ prefix_len is_blank text.now }
{
    text.iter().take_while(|b| is_blank(**b)).count()
}

pub(crate) fn is_blank(byte: u8) -> bool
    ensures { result ≡ is_blank byte }
{
    matches!(byte, b' ' | b'\t')
}

fn is_line_byte(byte: u8) -> bool
    ensures { result ≡ is_line_byte byte }
{
    is_blank(byte) || matches!(byte, b'!'..=b'~')
}
