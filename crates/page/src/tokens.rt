// Tokens for messages that were made and not sent yet.
ghost use Rattle.std.specs.Prelude.{◌≡◌};
ghost use Rattle.std.specs.Option.{option_map};
ghost use Rattle.words.specs.Forms.{read_as};
ghost use Rattle.page.specs.Tokens.{stamp_named, token_for, token_said};

use messages::Operation;
use stamps::Stamp;
use words::WordForm;

// Names a message that a page has made: its operation, and its stamp by the stamp's values, with zeros after them. It cannot be let fall: it has to be sent or deferred.
// The values are four plain numbers, so that a token is of no kind: one type serves every page.
pub struct Token {
    pub(crate) operation: Operation,
    pub(crate) values: [u32; 4],
}

impl Token {
    pub(crate) fn new<S: Stamp>(operation: Operation, stamp: &S) -> Token
        ensures { token_said result ≡ token_for operation (S.WordForm.values stamp.now) }
    {
        let mut values = [0; 4];
        let _ = stamp.write(&mut values);
        Token { operation, values }
    }

    pub fn operation(&self) -> Operation
        ensures { result ≡ self.now.operation }
    {
        self.operation
    }

    // The stamp that is named, if the values are those of a stamp of the kind.
    pub fn stamp<S: Stamp>(&self) -> Option<S>
        ensures { option_map S.WordForm.values result ≡ read_as S.WordForm.form (stamp_named S.WordForm.form.count self.now) }
    {
        S::read(&self.values[..S::count()])
    }
}
