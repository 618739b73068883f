//! Each call once.

use crate::bytes::{Bytes, Lines};
use crate::coords::Coords;
use crate::name::{Name, Names};
use crate::no_memory::NoMemory;
use crate::numbers::{Extents, Numbers, Vars, Words};
use crate::short_text::ShortText;
use std::test::Fail;

#[test]
fn bytes_are_appended(rt: HostRuntime) -> Result<(), Fail> {
    let mut text = Bytes::new(rt.alloc());
    assert!(rt; text.is_empty());
    text.append(b"loops")?;
    assert_eq!(rt; text.len(), 5);
    let text = Bytes::from_vec(text.into_vec());
    assert_eq!(rt; text.as_slice(), b"loops".as_slice());
    Ok(())
}

#[test]
fn numbers_are_put_in_decimal(rt: HostRuntime) -> Result<(), Fail> {
    let mut text = Bytes::new(rt.alloc());
    text.append_joined::<u32>(&[], b'x')?;
    text.append_joined(&[0u32, 10, 4096], b'x')?;
    text.append_number(u64::MAX)?;
    assert_eq!(rt;
        text.as_slice(),
        b"0x10x409618446744073709551615".as_slice()
    );
    let mut short = ShortText::new();
    short.append(b"line ");
    short.append_number(u32::MAX);
    assert_eq!(rt; short.as_slice(), b"line 4294967295".as_slice());
    Ok(())
}

#[test]
fn lines_keep_their_texts(rt: HostRuntime) -> Result<(), Fail> {
    let mut lines = Lines::new(rt.alloc());
    lines.push(Bytes::from_slice(rt.alloc(), b"loops")?)?;
    let lines = Lines::from_vec(lines.into_vec());
    for line in lines.as_slice() {
        assert_eq!(rt; line.as_slice(), b"loops".as_slice());
    }
    assert_eq!(rt; lines.as_slice().len(), 1);
    Ok(())
}

#[test]
fn names_keep_their_bytes(rt: HostRuntime) -> Result<(), Fail> {
    let name = Name::from_slice(b"io");
    assert_eq!(rt; name.as_slice(), b"io".as_slice());
    assert!(rt; name.is(b"io") && !name.is(b"i") && !name.is(b"jo"));
    let mut names = Names::new(rt.alloc());
    names.push(name.copied())?;
    let names = Names::from_vec(names.into_vec());
    for again in names.as_slice() {
        assert!(rt; again.is(b"io"));
    }
    assert_eq!(rt; names.as_slice().len(), 1);
    Ok(())
}

#[test]
fn vars_keep_their_numbers(rt: HostRuntime) -> Result<(), Fail> {
    let mut list = Vars::from_slice(rt.alloc(), &[2, 0])?;
    list.push(1)?;
    assert_eq!(rt; list.len(), 3);
    let list = Vars::from_vec(list.into_vec());
    assert_eq!(rt; list.as_slice(), [2, 0, 1].as_slice());
    assert_eq!(rt; Vars::new(rt.alloc()).len(), 0);
    Ok(())
}

#[test]
fn words_keep_their_numbers(rt: HostRuntime) -> Result<(), Fail> {
    let mut list = Words::from_slice(rt.alloc(), &[2, 0])?;
    list.push(1)?;
    assert_eq!(rt; list.len(), 3);
    let list = Words::from_vec(list.into_vec());
    assert_eq!(rt; list.as_slice(), [2, 0, 1].as_slice());
    assert_eq!(rt; Words::new(rt.alloc()).len(), 0);
    Ok(())
}

#[test]
fn numbers_keep_their_numbers(rt: HostRuntime) -> Result<(), Fail> {
    let mut list = Numbers::from_slice(rt.alloc(), &[2, 0])?;
    list.push(1)?;
    assert_eq!(rt; list.len(), 3);
    let list = Numbers::from_vec(list.into_vec());
    assert_eq!(rt; list.as_slice(), [2, 0, 1].as_slice());
    assert_eq!(rt; Numbers::new(rt.alloc()).len(), 0);
    Ok(())
}

#[test]
fn extents_keep_their_numbers(rt: HostRuntime) -> Result<(), Fail> {
    let mut list = Extents::from_slice(rt.alloc(), &[2, 0])?;
    list.push(1)?;
    assert_eq!(rt; list.len(), 3);
    let list = Extents::from_vec(list.into_vec());
    assert_eq!(rt; list.as_slice(), [2, 0, 1].as_slice());
    assert_eq!(rt; Extents::new(rt.alloc()).len(), 0);
    Ok(())
}

#[test]
fn coordinates_take_no_memory(rt: HostRuntime) {
    assert_eq!(rt;
        Coords::of_few(rt.alloc(), &[3, 1, 4, 1]).as_slice(),
        [3, 1, 4, 1].as_slice()
    );
    assert_eq!(rt; NoMemory, NoMemory);
}
