// The published check values, and values that another implementation computed: crcmod 1.7 (the Debian package
// python3-crcmod, 1.7+dfsg-3), by its predefined function 'x-25'. To make them again, for FIRST, STEP and LENGTH:
//
//     python3 -c "import crcmod.predefined as p; f = p.mkPredefinedCrcFun('x-25')
//     print('%04x' % f(bytes((FIRST + STEP * i) % 256 for i in range(LENGTH))))"
use super::*;

// The bytes `first`, `first + step`, `first + 2 * step` and so on, modulo 256.
fn series(first: u8, step: u8) -> [u8; 513] {
    let mut bytes = [0; 513];
    let mut next = first;
    for byte in bytes.iter_mut() {
        *byte = next;
        next = next.wrapping_add(step);
    }
    bytes
}

#[test]
fn known_texts(rt: HostRuntime) {
    let rows: [(&[u8], u16); 7] = [
        // published: the check value; and the residue 0xf0b8, inverted, which any text gives
        // that its own checksum follows, low byte first
        (b"123456789", 0x906e),
        (b"123456789\x6e\x90", 0x0f47),
        // worked by hand
        (b"\x01", 0xe1f1),
        (b"", 0x0000),
        // by crcmod
        (b"A", 0xa3f5),
        (b"\x00\x01", 0x1ece),
        (b"The quick brown fox jumps over the lazy dog", 0x9358),
    ];
    for (text, expected) in rows {
        assert_eq!(rt; checksum_of(text), expected);
    }
}

// By crcmod: the first byte, the step, the length and the checksum.
#[test]
fn known_series(rt: HostRuntime) {
    let rows: [(u8, u8, usize, u16); 48] = [
        (0x00, 0, 0, 0x0000),
        (0x00, 0, 1, 0xf078),
        (0x00, 0, 2, 0x0f47),
        (0x00, 0, 3, 0xc6cc),
        (0x00, 0, 4, 0xfcde),
        (0x00, 0, 5, 0xcf77),
        (0x00, 0, 15, 0x3c8d),
        (0x00, 0, 16, 0xafa9),
        (0x00, 0, 255, 0xc498),
        (0x00, 0, 256, 0xe87d),
        (0x00, 0, 512, 0xd397),
        (0x00, 0, 513, 0x109d),
        (0xff, 0, 0, 0x0000),
        (0xff, 0, 1, 0xff00),
        (0xff, 0, 2, 0xffff),
        (0xff, 0, 3, 0xf087),
        (0xff, 0, 4, 0x0f47),
        (0xff, 0, 5, 0xc9b4),
        (0xff, 0, 15, 0x0494),
        (0xff, 0, 16, 0x2da9),
        (0xff, 0, 255, 0xb2c3),
        (0xff, 0, 256, 0x0b25),
        (0xff, 0, 512, 0x5669),
        (0xff, 0, 513, 0x0191),
        (0x00, 1, 0, 0x0000),
        (0x00, 1, 1, 0xf078),
        (0x00, 1, 2, 0x1ece),
        (0x00, 1, 3, 0xfc06),
        (0x00, 1, 4, 0xa729),
        (0x00, 1, 5, 0x0a38),
        (0x00, 1, 15, 0xbfab),
        (0x00, 1, 16, 0x13e9),
        (0x00, 1, 255, 0x7859),
        (0x00, 1, 256, 0x303c),
        (0x00, 1, 512, 0x9a00),
        (0x00, 1, 513, 0xf0e2),
        (0xa5, 37, 0, 0x0000),
        (0xa5, 37, 1, 0x02df),
        (0xa5, 37, 2, 0xb756),
        (0xa5, 37, 3, 0xd885),
        (0xa5, 37, 4, 0x75a0),
        (0xa5, 37, 5, 0xf945),
        (0xa5, 37, 15, 0x9295),
        (0xa5, 37, 16, 0xe543),
        (0xa5, 37, 255, 0x10a5),
        (0xa5, 37, 256, 0x86c7),
        (0xa5, 37, 512, 0x6006),
        (0xa5, 37, 513, 0x6789),
    ];
    for (first, step, length, expected) in rows {
        let bytes = series(first, step);
        assert!(rt; length <= bytes.len());
        assert_eq!(rt; checksum_of(&bytes[0..length]), expected);
    }
}

// Cut anywhere, and taken up again from its register, the check text gives the published value.
#[test]
fn every_cut(rt: HostRuntime) {
    let text: &[u8] = b"123456789";
    for cut in 0..10 {
        assert!(rt; cut <= text.len());
        let mut head = Checksum::new();
        head.feed(&text[0..cut]);
        let mut rest = Checksum::resume(head.register());
        rest.feed(&text[cut..]);
        assert_eq!(rt; rest.finish(), 0x906e);
    }
}
