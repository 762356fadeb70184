// Examples at the edges of the formats.
#![tactic(auto)]

#[cfg(test)]
mod tests {
    use entries::{Character, Entry, RegisterEntry, RegisterType};
    use messages::{Message, Place, Side};
    use stamps::{Counter, PairStamp, Site, Stamp, TicketStamp};
    use std::test::Fail;
    use words::{Refusal, Word, WordForm};

    fn stamp<S: Stamp>(counter: u32, site: u32) -> Option<S> {
        let site = Site::new(site)?;
        let counter = Counter::new(counter)?;
        S::new(site, counter)
    }

    fn made<S: Stamp>(counter: u32, site: u32) -> Result<S, Fail> {
        Ok(stamp(counter, site).ok_or("no such stamp")?)
    }

    fn character(code: char) -> Result<Character, Fail> {
        Ok(Character::new(code).ok_or("no such character")?)
    }

    #[test]
    fn words_and_numbers(rt: HostRuntime) {
        assert!(rt; Word::new(15, 0xFFF_FFFF).is_some());
        assert!(rt; Word::new(16, 0).is_none());
        assert!(rt; Word::new(0, 0x1000_0000).is_none());
        assert_eq!(rt; Word::from(0x6000_1267).parts(), (6, 4711));
        for (site, good) in [(0, false), (1, true), (999, true), (1000, false)] {
            assert_eq!(rt; Site::new(site).is_some(), good);
        }
        for (counter, good) in [
            (0, false),
            (1, true),
            (268_435_455, true),
            (268_435_456, false),
        ] {
            assert_eq!(rt; Counter::new(counter).is_some(), good);
        }
    }

    #[test]
    fn stamps_read(rt: HostRuntime) {
        for (ticket, good) in [
            (100_001, true),
            (99_999_999, true),
            (100_000, false),
            (100_000_000, false),
            (99_999, false),
        ] {
            assert_eq!(rt; <TicketStamp as WordForm>::read(&[ticket]).is_some(), good);
        }
        assert!(rt; <PairStamp as WordForm>::read(&[1, 7]).is_some());
        assert!(rt; <PairStamp as WordForm>::read(&[0, 7]).is_none());
        assert!(rt; <PairStamp as WordForm>::read(&[1, 1000]).is_none());
        assert!(rt; <PairStamp as WordForm>::read(&[1]).is_none());
        assert!(rt; <PairStamp as WordForm>::read(&[1, 7, 7]).is_none());
    }

    #[test]
    fn stamps_are_ordered(rt: HostRuntime) -> Result<(), Fail> {
        assert!(rt; made::<PairStamp>(1, 9)?.earlier(&made(2, 7)?));
        assert!(rt; made::<PairStamp>(1, 7)?.earlier(&made(1, 9)?));
        assert!(rt; !made::<PairStamp>(1, 7)?.earlier(&made(1, 7)?));
        assert!(rt; made::<TicketStamp>(2, 7)?.earlier(&made(1, 9)?));
        assert!(rt; made::<PairStamp>(1, 9)? < made(2, 7)?);
        assert!(rt; made::<PairStamp>(1, 7)? < made(1, 9)?);
        assert!(rt; !(made::<PairStamp>(1, 7)? < made(1, 7)?));
        assert!(rt; made::<TicketStamp>(2, 7)? < made(1, 9)?);
        assert!(rt; stamp::<TicketStamp>(99_999, 7).is_some());
        assert!(rt; stamp::<TicketStamp>(100_000, 7).is_none());
        Ok(())
    }

    #[test]
    fn characters_read(rt: HostRuntime) -> Result<(), Fail> {
        let cases = [
            (9, false),
            (10, true),
            (31, false),
            (32, true),
            (0xD7FF, true),
            (0xD800, false),
            (0xDFFF, false),
            (0xE000, true),
            (0x10_FFFF, true),
            (0x11_0000, false),
        ];
        for (code, good) in cases {
            assert_eq!(rt; <Character as WordForm>::read(&[code]).is_some(), good);
        }
        let mut space = [0u8; 4];
        let euro = character('€')?;
        assert!(rt; euro.print(&mut space) == Ok(3));
        assert_eq!(rt; space, [0xE2, 0x82, 0xAC, 0]);
        let mut short = [1u8; 2];
        assert!(rt; euro.print(&mut short) == Err(Refusal::SpaceTooShort));
        assert_eq!(rt; short, [1, 1]);
        Ok(())
    }

    #[test]
    fn surnames_fit(rt: HostRuntime) {
        let burial = RegisterType::Burial;
        assert!(rt; RegisterEntry::new(1, None, burial, &[b'a'; 24]).is_ok());
        assert!(rt; RegisterEntry::new(1, None, burial, &[b'a'; 25]).is_err());
        for (byte, good) in [
            (0, false),
            (31, false),
            (32, true),
            (126, true),
            (127, false),
            (128, true),
            (255, true),
        ] {
            assert_eq!(rt;
                RegisterEntry::new(1, None, burial, &[b'a', byte]).is_ok(),
                good
            );
        }
        for (number, grave, good) in [
            (0, None, false),
            (1, None, true),
            (1, Some(0), false),
            (9_999_999, Some(9_999_999), true),
            (10_000_000, None, false),
            (1, Some(10_000_000), false),
        ] {
            assert_eq!(rt;
                RegisterEntry::new(number, grave, burial, b"").is_ok(),
                good
            );
        }
    }

    #[test]
    fn register_entries_read(rt: HostRuntime) {
        let plain = [1, 0, 0x101, 0x61_0000, 0, 0, 0, 0, 0, 0, 0];
        assert!(rt; <RegisterEntry as WordForm>::read(&plain).is_some());
        // place, value: a byte past the length, type 0 and 4, length 24 and 25, four bytes in a value, no surname
        let cases = [
            (3, 0x61_6200, false),
            (10, 1, false),
            (2, 0x001, false),
            (2, 0x401, false),
            (2, 0x118, false),
            (2, 0x119, false),
            (3, 0x161_0000, false),
            (2, 0x100, false),
            (2, 0x301, true),
        ];
        for (at, value, good) in cases {
            let mut values = plain;
            assert!(rt; at < 11);
            values[at] = value;
            assert_eq!(rt; <RegisterEntry as WordForm>::read(&values).is_some(), good);
        }
        assert!(rt; <RegisterEntry as WordForm>::read(&[1, 0, 0x101]).is_none());
    }

    #[test]
    fn long_surnames_read(rt: HostRuntime) {
        let letters = 0x61_6161;
        let full = [
            1, 0, 0x118, letters, letters, letters, letters, letters, letters, letters, letters,
        ];
        assert!(rt; <RegisterEntry as WordForm>::read(&full).is_some());
        let over = [
            1, 0, 0x119, letters, letters, letters, letters, letters, letters, letters, letters,
        ];
        assert!(rt; <RegisterEntry as WordForm>::read(&over).is_none());
    }

    #[test]
    fn a_burial_in_words(rt: HostRuntime) -> Result<(), Fail> {
        let entry = RegisterEntry::new(
            4711,
            Some(88),
            RegisterType::Burial,
            "Ó Briain".as_bytes(),
        )?;
        let message = Message::Insertion {
            stamp: made::<PairStamp>(1, 7)?,
            place: Place::Ground,
            entry,
        };
        let mut space = [0u32; 15];
        assert!(rt; message.write(&mut space) == Ok(15));
        assert_eq!(rt;
            space,
            [
                0x1101_020E,
                0x2000_0001,
                0x2000_0007,
                0x4000_0000,
                0x6000_1267,
                0x6000_0058,
                0x6000_0109,
                0x60C3_9320,
                0x6042_7269,
                0x6061_696E,
                0x6000_0000,
                0x6000_0000,
                0x6000_0000,
                0x6000_0000,
                0x6000_0000,
            ]
        );
        let mut bytes = [0u8; 20];
        assert!(rt; entry.print(&mut bytes) == Ok(20));
        assert_eq!(rt; bytes, *b"4711 88 B \xC3\x93 Briain\n");
        Ok(())
    }

    #[test]
    fn a_character_in_words(rt: HostRuntime) -> Result<(), Fail> {
        let entry = character('A')?;
        let stamp: PairStamp = made(1, 7)?;
        let insertion = Message::Insertion {
            stamp,
            place: Place::Ground,
            entry,
        };
        let mut space = [9u32; 6];
        assert!(rt; insertion.write(&mut space) == Ok(5));
        assert_eq!(rt;
            space,
            [
                0x1101_0104,
                0x2000_0001,
                0x2000_0007,
                0x4000_0000,
                0x6000_0041,
                9,
            ]
        );
        let deletion: Message<PairStamp, Character> = Message::Deletion { stamp };
        let mut words = [0u32; 3];
        assert!(rt; deletion.write(&mut words) == Ok(3));
        assert_eq!(rt; words, [0x1201_0102, 0x2000_0001, 0x2000_0007]);
        let mut short = [9u32; 2];
        assert!(rt; deletion.write(&mut short) == Err(Refusal::SpaceTooShort));
        assert_eq!(rt; short, [9, 9]);
        Ok(())
    }

    #[test]
    fn no_words_put_an_entry_under_itself(rt: HostRuntime) -> Result<(), Fail> {
        let entry = character('A')?;
        let stamp: PairStamp = made(1, 7)?;
        let message = Message::Insertion {
            stamp,
            place: Place::Under {
                side: Side::Left,
                parent: stamp,
            },
            entry,
        };
        let mut space = [9u32; 8];
        assert!(rt; message.write(&mut space) == Err(Refusal::Stamp { at: 4 }));
        assert_eq!(rt; space, [9; 8]);
        Ok(())
    }

    fn refusal(words: &[u32]) -> Option<Refusal> {
        Message::<PairStamp, Character>::read(words).err()
    }

    #[test]
    fn words_are_refused_in_order(rt: HostRuntime) {
        assert!(rt; refusal(&[]) == Some(Refusal::Head));
        assert!(rt; refusal(&[0x1301_0102, 0x2000_0001, 0x2000_0007]) == Some(Refusal::Head));
        assert!(rt; refusal(&[0x1202_0102, 0x2000_0001, 0x2000_0007]) == Some(Refusal::Kinds));
        assert!(rt; refusal(&[0x1201_0102, 0x2000_0001]) == Some(Refusal::Length));
        assert!(rt; refusal(&[0x1201_0103, 0x2000_0001, 0x2000_0007, 0]) == Some(Refusal::Length));
        assert!(rt;
            refusal(&[0x1201_0102, 0x2000_0001, 0x3000_0007]) == Some(Refusal::Word { at: 2 })
        );
        assert!(rt;
            refusal(&[0x1201_0102, 0x2000_0001, 0x2000_03E8]) == Some(Refusal::Stamp { at: 1 })
        );
        assert!(rt;
            refusal(&[
                0x1101_0104,
                0x2000_0001,
                0x2000_0007,
                0x4000_0001,
                0x6000_0041,
            ],) == Some(Refusal::Word { at: 3 })
        );
        assert!(rt;
            refusal(&[
                0x1101_0104,
                0x2000_0001,
                0x2000_0007,
                0x4000_0000,
                0x6000_0009,
            ],) == Some(Refusal::Entry { at: Some(4) })
        );
        assert!(rt;
            refusal(&[
                0x1101_0106,
                0x2000_0001,
                0x2000_0007,
                0x5000_0002,
                0x3000_0001,
                0x3000_0009,
                0x6000_0041,
            ],) == Some(Refusal::Word { at: 3 })
        );
        assert!(rt;
            refusal(&[
                0x1101_0106,
                0x2000_0001,
                0x2000_0007,
                0x5000_0001,
                0x3000_0001,
                0x3000_0007,
                0x6000_0041,
            ],) == Some(Refusal::Stamp { at: 4 })
        );
        assert!(rt;
            refusal(&[
                0x1101_0106,
                0x2000_0001,
                0x2000_0007,
                0x5000_0001,
                0x3000_0001,
                0x3000_0009,
                0x6000_0041,
            ],)
            .is_none()
        );
    }

    #[test]
    fn refusals_are_shown(rt: HostRuntime) -> Result<(), Fail> {
        let text = Refusal::Word { at: 2 }.to_string(rt.alloc())?;
        assert!(rt;
            text.as_str()
                == "refused 6 at word 2: a word has the wrong tag or a value that its tag does not allow"
        );
        let text = Refusal::Entry { at: None }.to_string(rt.alloc())?;
        assert!(rt; text.as_str() == "refused 8: the values of the entry do not read");
        Ok(())
    }
}
