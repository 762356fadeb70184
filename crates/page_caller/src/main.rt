// A caller of the page that keeps its rules: it spends each token, and changes the page only when no reading is alive.
#![tactic(auto)]

use entries::Character;
use page::{Page, Slot};
use stamps::PairStamp;
use std::io;
use words::{Refusal, WordForm};

// Inserts two characters and reads the page in between. Answers how many entries it read.
fn insert_and_read(page: &mut Page<'_, PairStamp, Character>) -> Result<usize, Refusal> {
    let token = page.insert_top(&[97])?;
    page.defer(token);
    let mut reading = page.reading();
    let mut read = 0;
    if reading.next().is_some() {
        read = 1;
    }
    let token = page.insert_top(&[98])?;
    page.defer(token);
    Ok(read)
}

fn main(rt: HostRuntime) -> io::Result<()> {
    let mut slots = [Slot::<PairStamp, Character>::empty(); 4];
    let mut page = Page::open(&mut slots, 7);
    match insert_and_read(&mut page) {
        Ok(read) => println!(rt; "read {read}, holds {}", page.len()),
        Err(refusal) => println!(rt; "refused {}", u8::from(refusal)),
    }
}
