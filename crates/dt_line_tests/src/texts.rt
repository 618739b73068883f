//! Lines and tokens, parts of tokens, numbers and names.

ghost use Rattle.std.specs.Prelude.{◌<◌, ◌≤◌, length};
ghost use Rattle.dt_text.specs.Spans.{IsToken};

use dt_base::Bytes;
use dt_text::{
    Line, TextEnd, Token, after_word, all_numbers, are_all_numerals, is_name, next_line, number,
    parts_at, tokens, word, words,
};
use std::alloc::Global;
use std::test::Fail;

#[test]
fn lines_have_tokens(rt: HostRuntime) -> Result<(), Fail> {
    let cases: [(&[u8], &str); 17] = [
        (b"", ""),
        (b"ab\n", "0-2: 0-2;"),
        (b"ab\n\ncd", "0-2: 0-2;3-3:;4-6: 4-6;"),
        (b"\na\r\n", "0-0:;1-3: 1-2;"),
        (b" a\tbc  d ", "0-9: 1-2 3-5 7-8;"),
        (b"a\r", "0-2: 0-1;"),
        (b"ab c\r", "0-5: 0-2 3-4;"),
        (b"\r", "0-1:;"),
        (b"  \t\r", "0-4:;"),
        (b"  # any \x01 bytes", "0-15:;"),
        (b"a # b", "0-5: 0-1 2-3 4-5;"),
        (b"a\r\r", "0-3:BadByte 2;"),
        (b"\r\r", "0-2:BadByte 1;"),
        (b"ab\x01c\x02", "0-5:BadByte 3;"),
        (b"a \x7f", "0-3:BadByte 3;"),
        (b"  \x80", "0-3:BadByte 3;"),
        (b"\r#", "0-2:BadByte 1;"),
    ];
    for (text, wanted) in cases {
        assert!(rt; text.len() < 1000);
        assert_eq!(rt; lines_of(rt.alloc(), text)?.as_slice(), wanted.as_bytes());
    }
    Ok(())
}

/// The lines of a text by their places, each with its tokens or its fault.
fn lines_of(alloc: Global, text: &[u8]) -> Result<Bytes, Fail>
    requires { length text.now < 1000 }
{
    let mut out = Bytes::new(alloc);
    let mut at = 0;
    for number in 0..1000 {
        if at as usize > text.len() {
            return Err("past the end")?;
        }
        let Some(line) = next_line(text, at, number) else {
            return Ok(out);
        };
        put_line(alloc, &mut out, text, line)?;
        at = line.after(text);
    }
    Err("no end")?
}

fn put_line(alloc: Global, out: &mut Bytes, text: &[u8], line: Line) -> Result<(), Fail>
    requires fits { length text.now < 1000 }
    requires order { line.from ≤ line.to }
    requires within { line.to ≤ length text.now }
{
    out.append_number(line.from)?;
    out.append(b"-")?;
    out.append_number(line.to)?;
    out.append(b":")?;
    match tokens(alloc, text, line) {
        Ok(tokens) => put_tokens(out, tokens.as_slice())?,
        Err(TextEnd::BadByte(place)) => {
            out.append(b"BadByte ")?;
            out.append_number(place)?;
        }
        Err(TextEnd::LineTooLong) => out.append(b"LineTooLong")?,
        Err(TextEnd::NoMemory) => return Err("no memory")?,
    }
    out.append(b";")?;
    Ok(())
}

fn put_tokens(out: &mut Bytes, tokens: &[Token]) -> Result<(), Fail> {
    for token in tokens {
        out.append(b" ")?;
        out.append_number(token.from)?;
        out.append(b"-")?;
        out.append_number(token.to)?;
    }
    Ok(())
}

#[test]
fn a_line_has_at_most_1048576_bytes(rt: HostRuntime) -> Result<(), Fail> {
    let cases = [(1048576, None), (1048577, Some(TextEnd::LineTooLong))];
    for (count, end) in cases {
        let text = vec![in rt.alloc(); b' '; count]?;
        let line = Line {
            number: 1,
            from: 0,
            to: count as u32,
        };
        assert_eq!(rt; tokens(rt.alloc(), text.as_slice(), line).err(), end);
    }
    Ok(())
}

#[test]
fn the_first_word_and_what_stands_behind_it(rt: HostRuntime) -> Result<(), Fail> {
    let text = b" stmt  A = B";
    let found = words(rt.alloc(), text)?;
    assert_eq!(rt; found.items.len(), 4);
    assert_eq!(rt; word(text, found.items[0]), b"stmt".as_slice());
    assert_eq!(rt;
        (after_word(text), after_word(b" \t")),
        (b"  A = B".as_slice(), b"".as_slice())
    );
    Ok(())
}

/// A row: a token, its parts at `x`, and their numbers, or `Syntax` where a part is not digits and `BadNumber` where one is
/// too great.
const PARTS: &str =
    "4x12|4 12|4,12\n7|7|7\n|| Syntax\n2x|2 | Syntax\nx2| 2| Syntax\nxx|  | Syntax\n2X2|2X2| Syntax\n007x18446744073709551615|007 18446744073709551615|7,18446744073709551615\n0x18446744073709551616|0 18446744073709551616| BadNumber\n00000000000000000009|00000000000000000009|9\n000000000000000000000|000000000000000000000| BadNumber\n190x1x|190 1 | Syntax";

#[test]
fn parts_have_numbers(rt: HostRuntime) -> Result<(), Fail> {
    for row in PARTS.lines() {
        let token = row.split('|').next().unwrap_or("");
        assert!(rt; token.len() < 1000);
        let mut out = Bytes::from_slice(rt.alloc(), token.as_bytes())?;
        put_parts(rt.alloc(), &mut out, token.as_bytes())?;
        assert_eq!(rt; out.as_slice(), row.as_bytes());
    }
    Ok(())
}

fn put_parts(alloc: Global, out: &mut Bytes, token: &[u8]) -> Result<(), Fail>
    requires { length token.now < 1000 }
{
    let parts = parts_at(alloc, token, b'x')?;
    let parts = parts.as_slice();
    out.append(b"|")?;
    for (i, part) in parts.iter().enumerate() {
        if i > 0 {
            out.append(b" ")?;
        }
        out.append(word(token, *part))?;
    }
    out.append(b"|")?;
    if !are_all_numerals(token, parts) {
        out.append(b" Syntax")?;
        return Ok(());
    }
    match all_numbers(alloc, token, parts)? {
        None => out.append(b" BadNumber")?,
        Some(numbers) => out.append_joined(numbers.as_slice(), b',')?,
    }
    Ok(())
}

#[test]
fn a_number_is_digits_alone(rt: HostRuntime) {
    assert_eq!(rt;
        (number(b""), number(b"1x"), number(b"0")),
        (None, None, Some(0))
    );
}

/// Names begin with a letter and have at most sixteen bytes.
const NAMES: &str = "A|z_9|abcdefghijklmnop\n|9a|_a|a-b|abcdefghijklmnopq";

#[test]
fn names_begin_with_a_letter(rt: HostRuntime) {
    for (row, names) in NAMES.lines().enumerate() {
        for name in names.split('|') {
            assert_eq!(rt; is_name(name.as_bytes()), row == 0, "at {name}");
        }
    }
}
