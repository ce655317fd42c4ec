// Lines read as forms. The forms were worked out by hand.
use crate::{Form, Order, parse};
use std::test::Fail;

#[test]
fn a_line_becomes_a_request(rt: HostRuntime) -> Result<(), Fail> {
    match parse(rt.alloc(), b"(read 08000000 4)")? {
        Some(Form::Request(Order::Read { address, count })) => {
            assert_eq!(rt; address, 0x0800_0000);
            assert_eq!(rt; count, 4);
            Ok(())
        }
        _ => Err(Fail::new("no read")),
    }
}

#[test]
fn a_request_owns_its_bytes(rt: HostRuntime) -> Result<(), Fail> {
    match parse(rt.alloc(), b"(write 08000000 11 22 33 44)")? {
        Some(Form::Request(Order::Write { address, bytes })) => {
            assert_eq!(rt; address, 0x0800_0000);
            assert!(rt; bytes.as_slice() == b"\x11\x22\x33\x44".as_slice());
            Ok(())
        }
        _ => Err(Fail::new("no write")),
    }
}
