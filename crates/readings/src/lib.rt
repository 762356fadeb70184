// Going through a page in order, and printing it.
#![tactic(auto)]

use slots::Slot;

mod printing;
mod steps;

// The slots of a page, lent for reading, the entry that was answered last, and at most how many are left. While it lives, nothing can change the page.
#[derive(Drop)]
pub struct Reading<'p, S, E> {
    slots: &'p [Slot<S, E>],
    last: Option<S>,
    left: usize,
}
