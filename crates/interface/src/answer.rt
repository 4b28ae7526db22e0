// The answer as bytes: its words one after the other.
ghost use Rattle.std.specs.Prelude.{◌≡◌, Ok, Err, length};
ghost use Rattle.rulings.specs.Rulings.{reply_as};
ghost use Rattle.interface.specs.Exported.{answer_bytes, answer_size, reply_words};
ghost use Rattle.interface.specs.Meanings.{words_as};

use crate::words::put_words;
use checks::refusal::{Refusal, RefusalWords};
use rulings::reply::{Granted, Tokens};

// In bytes.
pub const ANSWER_SIZE: usize = 48;

// The words of an answer. `place` tells which entry was bad.
#[derive(Clone, Copy)]
pub struct AnswerWords {
    pub refusal: u64,
    pub place: u64,
    pub first: u64,
    pub second: u64,
    pub dropped: u64,
    pub length: u64,
}

// The words of an answer, all zero.
const BLANK: AnswerWords = AnswerWords {
    refusal: 0,
    place: 0,
    first: 0,
    second: 0,
    dropped: 0,
    length: 0,
};

// A word for each token, zero where there is none.
impl From<Granted> for AnswerWords {
    ghost from_gives = { λ granted words. words_as words ≡ reply_words (reply_as (Ok granted)) };

    fn from(granted: Granted) -> AnswerWords {
        match granted {
            Granted::Given { tokens, dropped } => match tokens {
                Tokens::None => AnswerWords { dropped, ..BLANK },
                Tokens::One(first) => AnswerWords {
                    first,
                    dropped,
                    ..BLANK
                },
                Tokens::Two(first, second) => AnswerWords {
                    first,
                    second,
                    dropped,
                    ..BLANK
                },
            },
            Granted::Filled { length } => AnswerWords { length, ..BLANK },
        }
    }
}

impl From<Refusal> for AnswerWords {
    ghost from_gives = { λ why words. words_as words ≡ reply_words (reply_as (Err why)) };

    fn from(why: Refusal) -> AnswerWords {
        let words = RefusalWords::from(why);
        AnswerWords {
            refusal: words.number,
            place: words.bad,
            ..BLANK
        }
    }
}

// The answer is stored, and its refusal handed back.
pub fn write_answer(part: &mut [u8], reply: Result<Granted, Refusal>) -> u64
    requires { length part.old ≡ answer_size }
    ensures { (result ≡ (reply_as reply).refusal) × (part.new ≡ answer_bytes (reply_as reply)) }
{
    let w: AnswerWords = match reply {
        Ok(granted) => granted.into(),
        Err(why) => why.into(),
    };
    put_words(
        part,
        &[w.refusal, w.place, w.first, w.second, w.dropped, w.length],
    );
    w.refusal
}
