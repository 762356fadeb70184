// Tests of the page, as a caller uses it.
#![tactic(auto)]

mod plain;

#[cfg(test)]
mod tests {
    use crate::plain::PlainStamp;
    use entries::{Character, Entry, RegisterEntry};
    use page::{Page, Reading, Slot, Token};
    use slots::records::same_entry;
    use stamps::{PairStamp, Stamp, TicketStamp};
    use std::test::Fail;
    use words::{Refusal, WordForm};

    const A: [u32; 1] = [97];

    const B: [u32; 1] = [98];

    const C: [u32; 1] = [99];

    const X: [u32; 1] = [120];

    // 4711 88 B Ó Briain, and three more
    const BRIAIN: [u32; 11] = [
        0x1267, 0x58, 0x109, 0xC39320, 0x427269, 0x61696E, 0, 0, 0, 0, 0,
    ];

    const OKAFOR: [u32; 11] = [4712, 90, 0x206, 0x4F6B61, 0x666F72, 0, 0, 0, 0, 0, 0];

    const NAKAMURA: [u32; 11] = [4713, 0, 0x308, 0x4E616B, 0x616D75, 0x726100, 0, 0, 0, 0, 0];

    const LEE: [u32; 11] = [4714, 91, 0x103, 0x4C6565, 0, 0, 0, 0, 0, 0, 0];

    // A message that was sent: its stamp, and how many words it has.
    #[derive(Clone, Copy)]
    struct Sent<S> {
        stamp: S,
        len: usize,
    }

    // Another crate's type may hold a page, or a reading, of any kinds, and ask for nothing of them.
    #[derive(Drop)]
    struct Desk<'a, S, E> {
        page: Page<'a, S, E>,
    }

    fn taken<'a, S, E>(desk: Desk<'a, S, E>) -> Page<'a, S, E> {
        desk.page
    }

    #[derive(Drop)]
    struct Glass<'p, S, E> {
        reading: Reading<'p, S, E>,
    }

    // What a test asks for on its way: where it doesn't hold, the test fails.
    fn ensure(holds: bool, why: &str) -> Result<(), Fail> {
        if holds { Ok(()) } else { Err(Fail::new(why)) }
    }

    // Sends the token's message.
    fn post<S: Stamp, E: Entry>(
        page: &mut Page<'_, S, E>,
        token: Token,
        out: &mut [u32],
    ) -> Result<Sent<S>, Fail> {
        let named: Option<S> = token.stamp();
        let len = page.send(token, out);
        ensure(len > 0, "the page sends nothing")?;
        Ok(Sent {
            stamp: named.ok_or("the token names no stamp")?,
            len,
        })
    }

    // Hands the first words of a space to a page: are they new to it?
    fn deliver<S: Stamp, E: Entry>(
        page: &mut Page<'_, S, E>,
        words: &[u32],
        len: usize,
    ) -> Result<bool, Fail> {
        let message = words
            .get(0..len)
            .ok_or("the message is longer than its space")?;
        Ok(page.receive(message)?.is_new())
    }

    // The same stamps and entries in the same order, the same struck.
    fn read_alike<S: Stamp, E: Entry>(
        mut left: Reading<'_, S, E>,
        mut right: Reading<'_, S, E>,
    ) -> Result<(), Fail> {
        while let Some(stamp) = left.next() {
            let other = right.next().ok_or("the second page reads less")?;
            ensure(stamp.same(&other), "another stamp is read")?;
            ensure(
                left.is_struck() == right.is_struck(),
                "struck on one page alone",
            )?;
            let entry = left.entry().ok_or("no entry")?;
            let its = right.entry().ok_or("no entry")?;
            ensure(same_entry(&entry, &its), "another entry is read")?;
        }
        ensure(right.next().is_none(), "the second page reads more")
    }

    // The number of a refusal, or 0: a token that was given is deferred.
    fn number_of<S: Stamp, E: Entry>(
        page: &mut Page<'_, S, E>,
        answer: Result<Token, Refusal>,
    ) -> u8 {
        match answer {
            Ok(token) => {
                page.defer(token);
                0
            }
            Err(refusal) => u8::from(refusal),
        }
    }

    fn try_top<S: Stamp, E: Entry>(page: &mut Page<'_, S, E>, values: &[u32]) -> u8 {
        let answer = page.insert_top(values);
        number_of(page, answer)
    }

    fn try_after<S: Stamp, E: Entry>(page: &mut Page<'_, S, E>, named: &S, values: &[u32]) -> u8 {
        let answer = page.insert_after(named, values);
        number_of(page, answer)
    }

    fn try_delete<S: Stamp, E: Entry>(page: &mut Page<'_, S, E>, stamp: &S) -> u8 {
        let answer = page.delete(stamp);
        number_of(page, answer)
    }

    // Two offices: one inserts a, c and b and deletes c; the other hears of it in another order and twice, the deletion first, and inserts x after a before it has c.
    fn week<S: Stamp, E: Entry>(
        here: &mut Page<'_, S, E>,
        there: &mut Page<'_, S, E>,
        a: &[u32],
        b: &[u32],
        c: &[u32],
        x: &[u32],
    ) -> Result<(), Fail> {
        let mut first = [0u32; 32];
        let mut second = [0u32; 32];
        let mut third = [0u32; 32];
        let mut gone = [0u32; 32];
        let mut reply = [0u32; 32];

        let token = here.insert_top(a)?;
        let sent_a = post(here, token, &mut first)?;
        let token = here.insert_after(&sent_a.stamp, c)?;
        let sent_c = post(here, token, &mut second)?;
        let token = here.insert_after(&sent_a.stamp, b)?;
        let sent_b = post(here, token, &mut third)?;
        let token = here.delete(&sent_c.stamp)?;
        let struck = post(here, token, &mut gone)?;

        ensure(
            deliver(there, &gone, struck.len)?,
            "the deletion is not new there",
        )?;
        ensure(
            deliver(there, &third, sent_b.len)?,
            "the third insertion is not new there",
        )?;
        ensure(
            there.reading().next().is_none(),
            "something stands before its parent has come",
        )?;
        ensure(
            deliver(there, &first, sent_a.len)?,
            "the first insertion is not new there",
        )?;
        let token = there.insert_after(&sent_a.stamp, x)?;
        let sent_x = post(there, token, &mut reply)?;
        ensure(
            !deliver(there, &third, sent_b.len)?,
            "the third insertion is new twice",
        )?;
        ensure(
            deliver(there, &second, sent_c.len)?,
            "the second insertion is not new there",
        )?;
        ensure(
            !deliver(there, &gone, struck.len)?,
            "the deletion is new twice",
        )?;

        ensure(
            deliver(here, &reply, sent_x.len)?,
            "the reply is not new here",
        )?;
        read_alike(here.reading(), there.reading())?;
        ensure(
            here.len() == 4 && there.len() == 4,
            "the pages do not hold four stamps each",
        )
    }

    #[test]
    fn pairs_and_characters(rt: HostRuntime) -> Result<(), Fail> {
        let mut here = [Slot::<PairStamp, Character>::empty(); 8];
        let mut there = [Slot::<PairStamp, Character>::empty(); 8];
        let mut left = Page::open(&mut here, 7);
        let mut right = Page::open(&mut there, 9);
        week(&mut left, &mut right, &A, &B, &C, &X)?;
        let mut text = [0u8; 8];
        assert_eq!(rt; left.render(&mut text)?, 3);
        assert_eq!(rt; text[0], b'a');
        assert_eq!(rt; text[1], b'x');
        assert_eq!(rt; text[2], b'b');
        Ok(())
    }

    // A kind of stamp whose `==` is of its own.
    #[test]
    fn plain_stamps_and_characters(rt: HostRuntime) -> Result<(), Fail> {
        let mut here = [Slot::<PlainStamp, Character>::empty(); 8];
        let mut there = [Slot::<PlainStamp, Character>::empty(); 8];
        let mut left = taken(Desk {
            page: Page::open(&mut here, 7),
        });
        let mut right = Page::open(&mut there, 9);
        week(&mut left, &mut right, &A, &B, &C, &X)?;
        let mut text = [0u8; 8];
        assert_eq!(rt; left.render(&mut text)?, 3);
        assert_eq!(rt; text[1], b'x');
        let mut glass = Glass {
            reading: left.reading(),
        };
        let first = glass.reading.next().ok_or("nothing is read")?;
        assert_eq!(rt; first.site().get(), 7);
        Ok(())
    }

    #[test]
    fn tickets_and_characters(rt: HostRuntime) -> Result<(), Fail> {
        let mut here = [Slot::<TicketStamp, Character>::empty(); 8];
        let mut there = [Slot::<TicketStamp, Character>::empty(); 8];
        let mut left = Page::open(&mut here, 7);
        let mut right = Page::open(&mut there, 9);
        week(&mut left, &mut right, &A, &B, &C, &X)?;
        let mut text = [0u8; 8];
        assert_eq!(rt; right.render(&mut text)?, 3);
        assert_eq!(rt; text[0], b'a');
        assert_eq!(rt; text[1], b'b');
        assert_eq!(rt; text[2], b'x');
        Ok(())
    }

    #[test]
    fn pairs_and_registers(rt: HostRuntime) -> Result<(), Fail> {
        let mut here = [Slot::<PairStamp, RegisterEntry>::empty(); 8];
        let mut there = [Slot::<PairStamp, RegisterEntry>::empty(); 8];
        let mut left = Page::open(&mut here, 7);
        let mut right = Page::open(&mut there, 9);
        week(&mut left, &mut right, &BRIAIN, &OKAFOR, &NAKAMURA, &LEE)?;
        let mut text = [0u8; 192];
        // "4711 88 B Ó Briain", "4714 91 B Lee", "4712 90 C Okafor", each with its line feed
        assert_eq!(rt; left.render(&mut text)?, 20 + 14 + 17);
        assert_eq!(rt; text[20], b'4');
        assert_eq!(rt; text[23], b'4');
        Ok(())
    }

    #[test]
    fn tickets_and_registers() -> Result<(), Fail> {
        let mut here = [Slot::<TicketStamp, RegisterEntry>::empty(); 8];
        let mut there = [Slot::<TicketStamp, RegisterEntry>::empty(); 8];
        let mut left = Page::open(&mut here, 7);
        let mut right = Page::open(&mut there, 9);
        week(&mut left, &mut right, &BRIAIN, &OKAFOR, &NAKAMURA, &LEE)
    }

    // What was made and not sent waits for `send_next`: insertions before deletions, the lowest slot first.
    #[test]
    fn unsent_in_turn(rt: HostRuntime) -> Result<(), Fail> {
        let mut slots = [Slot::<PairStamp, Character>::empty(); 4];
        let mut page = Page::open(&mut slots, 7);
        let mut out = [0u32; 8];
        assert_eq!(rt; page.send_next(&mut out), Err(Refusal::NothingUnsent));
        let token = page.insert_top(&A)?;
        let named: Option<PairStamp> = token.stamp();
        page.defer(token);
        let stamp = named.ok_or("the token names no stamp")?;
        let token = page.delete(&stamp)?;
        page.defer(token);
        assert_eq!(rt; page.send_next(&mut out[0..4]), Err(Refusal::SpaceTooShort));
        assert_eq!(rt; page.send_next(&mut out)?, 5);
        assert_eq!(rt; out[0], 0x11010104);
        assert_eq!(rt; out[4], 0x60000061);
        assert_eq!(rt; page.send_next(&mut out)?, 3);
        assert_eq!(rt; out[0], 0x12010102);
        assert_eq!(rt; out[3], 0x40000000);
        assert_eq!(rt; page.send_next(&mut out), Err(Refusal::NothingUnsent));
        Ok(())
    }

    // A token is sent once, and only where its message is marked.
    #[test]
    fn token_of_another_page(rt: HostRuntime) -> Result<(), Fail> {
        let mut here = [Slot::<PairStamp, Character>::empty(); 4];
        let mut there = [Slot::<PairStamp, Character>::empty(); 4];
        let mut left = Page::open(&mut here, 7);
        let mut right = Page::open(&mut there, 7);
        let mut out = [9u32; 8];
        let token = left.insert_top(&A)?;
        assert_eq!(rt; right.send(token, &mut out), 0);
        assert_eq!(rt; out[0], 9);
        assert_eq!(rt; left.send_next(&mut out)?, 5);
        Ok(())
    }

    #[test]
    fn refusals_by_number(rt: HostRuntime) -> Result<(), Fail> {
        let mut slots = [Slot::<PairStamp, Character>::empty(); 1];
        let mut page = Page::open(&mut slots, 7);
        let unknown = PairStamp::read(&[1, 9]).ok_or("no such stamp")?;
        assert_eq!(rt; try_top(&mut page, &[0xD800]), 8);
        assert_eq!(rt; try_top(&mut page, &[97, 98]), 8);
        assert_eq!(rt; try_top(&mut page, &[0x1000_0000]), 8);
        assert_eq!(rt; try_after(&mut page, &unknown, &A), 11);
        assert_eq!(rt; try_delete(&mut page, &unknown), 11);
        // 1.9 waits for 1.8
        let waits = [
            0x11010106, 0x20000001, 0x20000009, 0x50000001, 0x30000001, 0x30000008, 0x60000061,
        ];
        assert!(rt; page.receive(&waits)?.is_new());
        assert_eq!(rt; try_after(&mut page, &unknown, &A), 12);
        assert_eq!(rt; try_delete(&mut page, &unknown), 12);
        assert_eq!(rt; try_top(&mut page, &A), 10);
        assert_eq!(rt; page.receive(&waits[0..6]), Err(Refusal::Length));
        let found = page.get(&unknown).ok_or("not found")?;
        assert!(rt; !found.standing && !found.struck);
        assert_eq!(rt; found.entry.get(), 'a');
        Ok(())
    }

    #[test]
    fn struck_once(rt: HostRuntime) -> Result<(), Fail> {
        let mut slots = [Slot::<PairStamp, Character>::empty(); 2];
        let mut page = Page::open(&mut slots, 7);
        let token = page.insert_top(&A)?;
        let named: Option<PairStamp> = token.stamp();
        page.defer(token);
        let stamp = named.ok_or("the token names no stamp")?;
        let token = page.delete(&stamp)?;
        page.defer(token);
        assert_eq!(rt; try_delete(&mut page, &stamp), 14);
        let mut text = [0u8; 1];
        assert_eq!(rt; page.render(&mut text)?, 0);
        assert_eq!(rt; page.is_empty(), false);
        Ok(())
    }

    // The last counter of a site, and a page that was opened in spite of a refusal.
    #[test]
    fn no_more_room(rt: HostRuntime) -> Result<(), Fail> {
        let mut slots = [Slot::<TicketStamp, Character>::empty(); 4];
        assert_eq!(rt; Page::check(&slots, 0), Err(Refusal::SiteNumber));
        assert_eq!(rt; Page::check(&slots, 1000), Err(Refusal::SiteNumber));
        assert_eq!(rt; Page::check(&slots[0..0], 1000), Err(Refusal::TableSize));
        assert_eq!(rt; Page::check(&slots, 999), Ok(()));
        let mut page = Page::open(&mut slots, 1);
        let last = [0x12020101, 0x20030D3F];
        assert!(rt; page.receive(&last)?.is_new());
        assert_eq!(rt; try_top(&mut page, &A), 13);
        let mut others = [Slot::<TicketStamp, Character>::empty(); 4];
        let mut closed = Page::open(&mut others, 5000);
        assert_eq!(rt; try_top(&mut closed, &A), 10);
        assert_eq!(rt; closed.receive(&last), Err(Refusal::NoSlot));
        assert_eq!(rt; closed.capacity(), 0);
        assert_eq!(rt; closed.site(), 5000);
        Ok(())
    }

    #[test]
    fn the_largest_table(rt: HostRuntime) {
        let mut slots = [Slot::<PairStamp, Character>::empty(); 4097];
        assert_eq!(rt; Page::check(&slots, 1), Err(Refusal::TableSize));
        assert_eq!(rt; Page::check(&slots[0..4096], 1), Ok(()));
        let page = Page::open(&mut slots[0..4096], 1);
        assert_eq!(rt; page.capacity(), 4096);
    }

    #[test]
    fn for_over_a_reading(rt: HostRuntime) -> Result<(), Fail> {
        let mut slots = [Slot::<PairStamp, Character>::empty(); 4];
        let mut page = Page::open(&mut slots, 7);
        let token = page.insert_top(&A)?;
        page.defer(token);
        let token = page.insert_top(&B)?;
        page.defer(token);
        let mut last = 0;
        for stamp in page.reading() {
            last = stamp.counter().get();
        }
        assert_eq!(rt; last, 1);
        Ok(())
    }
}
