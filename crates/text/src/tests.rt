// Lines made and read again. The texts were written by hand.
use crate::{Hexadecimal, Line, Words};
use std::test::Fail;

// A number of each width, as words of a line and back.
#[test]
fn numbers_of_each_width(rt: HostRuntime) -> Result<(), Fail> {
    let heap = rt.alloc();
    let line = Line::new(heap, b"crc")?
        .hexadecimal(0x0Fu8)?
        .hexadecimal(0xBEEFu16)?
        .hexadecimal(0x0800_01A0u32)?
        .number(heap, 512)?
        .finish()?;
    assert!(rt; line.as_slice() == b"(crc 0F BEEF 080001A0 512)".as_slice());
    let Some(mut words) = Words::of(line.as_slice()) else {
        return Err(Fail::new("no line"));
    };
    let _ = words.next();
    assert_eq!(rt; words.hexadecimal(), Some(0x0Fu8));
    assert_eq!(rt; words.hexadecimal(), Some(0xBEEFu16));
    assert_eq!(rt; words.hexadecimal(), Some(0x0800_01A0u32));
    assert_eq!(rt; words.number(512), Some(512));
    assert!(rt; words.done());
    Ok(())
}

// The digits of a number behind a text.
#[test]
fn digits_behind_a_text(rt: HostRuntime) -> Result<(), Fail> {
    let mut text = Vec::from_slice(rt.alloc(), b"at ")?;
    0xA0u8.write(&mut text)?;
    0x1234u16.write(&mut text)?;
    assert!(rt; text.as_slice() == b"at A01234".as_slice());
    assert_eq!(rt; u16::read(b"12a4"), None);
    Ok(())
}
