// Leaving a message for later.
ghost use Rattle.std.specs.Prelude.{◌≡◌};

use crate::pages::Page;
use crate::tokens::Token;
use entries::Entry;
use stamps::Stamp;

impl<'a, S: Stamp, E: Entry> Page<'a, S, E> {
    // Spends the token and leaves its message marked unsent.
    pub fn defer(&mut self, token: Token)
        ensures { self.new ≡ self.old }
    {
        // each field is named, since a pattern with `..` does not take the token apart
        let Token {
            operation: _,
            values: _,
        } = token;
    }
}
