// A token together with what it names.
ghost use Rattle.std.specs.Prelude.{◌≡◌};
ghost use Rattle.tokens.specs.Token as reading;

use crate::token::{Named, read};

// A token's word, and what that names: read once, so that no check reads it again.
#[derive(Clone, Copy)]
pub struct Token {
    pub word: u64,
    pub named: Named,
    pub ghost reads: { named ≡ reading.named word },
}

impl From<u64> for Token {
    ghost from_gives = { λ word token. token.word ≡ word };

    fn from(word: u64) -> Token {
        Token {
            word,
            named: read(word),
        }
    }
}
