// The bytes of the entry that a reading answered last.
ghost use Rattle.std.specs.Prelude.{◌≡◌, ◌≤◌, length, drop};
ghost use Rattle.std.specs.Option.{option_map};
ghost use Rattle.words.specs.Layout.{put_front};
ghost use Rattle.slots.specs.Finding.{stamps_of};
ghost use Rattle.readings.specs.Readings.{Reads, current};
ghost use Rattle.readings.specs.Printing.{bytes_in, entry_to_print, text_in};

use crate::Reading;
use entries::Entry;
use stamps::Stamp;

impl<'p, S: Stamp, E: Entry> Reading<'p, S, E> {
    // Puts the printed bytes at the front of a space and answers their count. A struck entry has none, and a space that is too short gets none: the count is then 0, as of any bytes.
    pub fn print(&self, space: &mut [u8]) -> usize
        ensures count { Reads S.WordForm.values E.WordForm.values self.now → result ≡ bytes_in (text_in E.Entry.kind.prints (current S.WordForm.values E.WordForm.values (stamps_of S.WordForm.form S.Stamp.kind) self.now)) (length space.old) }
        ensures wrote { Reads S.WordForm.values E.WordForm.values self.now → space.new ≡ put_front (text_in E.Entry.kind.prints (current S.WordForm.values E.WordForm.values (stamps_of S.WordForm.form S.Stamp.kind) self.now)) space.old }
        ensures short { Reads S.WordForm.values E.WordForm.values self.now → length (text_in E.Entry.kind.prints (current S.WordForm.values E.WordForm.values (stamps_of S.WordForm.form S.Stamp.kind) self.now)) ≤ 64 }
        ensures few { (result ≤ 64) × (result ≤ length space.old) }
        ensures rest { drop result space.new ≡ drop result space.old }
    {
        match self.entry_to_print() {
            None => 0,
            Some(entry) => entry.print(space).unwrap_or(0),
        }
    }

    // How many bytes it prints.
    pub fn printed_len(&self) -> usize
        ensures count { Reads S.WordForm.values E.WordForm.values self.now → result ≡ length (text_in E.Entry.kind.prints (current S.WordForm.values E.WordForm.values (stamps_of S.WordForm.form S.Stamp.kind) self.now)) }
        ensures few { result ≤ 64 }
    {
        // printed into a space of its own, since nothing is allocated; only the count is wanted
        let mut line = [0u8; 64];
        self.print(&mut line)
    }

    // The entry that was answered last, unless it is struck.
    fn entry_to_print(&self) -> Option<E>
        ensures { Reads S.WordForm.values E.WordForm.values self.now → option_map E.WordForm.values result ≡ entry_to_print (current S.WordForm.values E.WordForm.values (stamps_of S.WordForm.form S.Stamp.kind) self.now) }
    {
        if self.is_struck()? {
            return None;
        }
        self.entry()
    }
}
