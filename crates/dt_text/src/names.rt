//! Names.

ghost use Rattle.std.specs.Prelude.{◌≡◌, ◌≤◌, length};
ghost use Rattle.std.specs.Bool.{OnTrue};
ghost use Rattle.std.specs.List.{list_all};
ghost use Rattle.dt_text.specs.Names.{is_letter, is_name_byte, is_name};

use crate::numbers::is_digit;

/// Whether a text can name a tensor, a variable or a loop.
pub fn is_name(text: &[u8]) -> bool
    ensures value { result ≡ is_name text.now }
    ensures few { OnTrue result (length text.now ≤ 16) }
{
    match text {
        [] => false,
        [first, rest @ ..] => is_letter(*first) && are_name_bytes(rest) && text.len() <= 16,
    }
}

fn are_name_bytes(text: &[u8]) -> bool
    ensures { result ≡ list_all is_name_byte text.now }
{
    text.iter().all(|b| is_name_byte(*b))
}

fn is_letter(byte: u8) -> bool
    ensures { result ≡ is_letter byte }
{
    matches!(byte, b'A'..=b'Z' | b'a'..=b'z')
}

/// Whether a byte can stand in a name behind its first letter.
pub fn is_name_byte(byte: u8) -> bool
    ensures { result ≡ is_name_byte byte }
{
    is_letter(byte) || is_digit(byte) || byte == b'_'
}
