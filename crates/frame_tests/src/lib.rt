// Rows of docs/PROTOCOL.md that no program prints: the address map, the list of commands, and a frame told apart.
// Each expected value was worked out by hand from the rules there.
#![tactic(auto)]

#[cfg(test)]
mod tests {
    use areas::{Area, place_of};
    use commands::{Level, supported};
    use frame::{Command, judge};
    use std::test::Fail;

    #[test]
    fn addresses(rt: HostRuntime) {
        // pages, address, area, word number
        let rows: [(u32, u32, Area, u32); 12] = [
            (16, 0x0800_0000, Area::User, 0),
            (16, 0x0800_0003, Area::User, 0),
            (16, 0x0800_0204, Area::User, 129),
            (16, 0x0800_1FFC, Area::User, 2047),
            (16, 0x0800_2000, Area::Outside, 0),
            (0, 0x0800_0000, Area::Outside, 0),
            (1024, 0x0807_FFFF, Area::User, 131_071),
            (16, 0x07FF_FFFF, Area::Outside, 0),
            (0, 0x1FFF_F804, Area::Options, 1),
            (16, 0x1FFF_F80F, Area::Options, 3),
            (16, 0x1FFF_F810, Area::Outside, 0),
            (16, 0xFFFF_FFFF, Area::Outside, 0),
        ];
        for (pages, address, area, number) in rows {
            assert_eq!(rt; place_of(pages, address), (area, number));
        }
    }

    #[test]
    fn list_of_commands(rt: HostRuntime) {
        assert_eq!(rt;
            supported(),
            [0x5A, 0x01, 0xF1, 0xF2, 0xF3, 0xF4, 0xA0, 0xA1, 0x00, 0x00]
        );
    }

    #[test]
    fn a_write_told_apart(rt: HostRuntime) -> Result<(), Fail> {
        let frame = b"\x85\xF2\x00\x08\x08\x00\x00\x00\x11\x22\x33\x44\x5F\xBC";
        match judge(frame, Level::Open, 16) {
            Ok(Command::Write { at, data }) => {
                assert_eq!(rt; data.address(), 0x0800_0000);
                assert_eq!(rt; at, 8);
                assert!(rt; data.bytes() == b"\x11\x22\x33\x44".as_slice());
                Ok(())
            }
            _ => Err(Fail::new("no write")),
        }
    }
}
