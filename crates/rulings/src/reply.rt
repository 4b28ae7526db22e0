// What an operation hands back.
ghost use Rattle.std.specs.Prelude.{◌≡◌, Ok, slice_get};
ghost use Rattle.rulings.specs.Rulings as ruling;

use checks::refusal::{Refusal, RefusalWords};

// The tokens that an answer carries. The word 0 is a real token, so that their number is told.
#[derive(Clone, Copy)]
pub enum Tokens {
    None,
    One(u64),
    Two(u64, u64),
}

// What a granted request answers, but for its buffer: tokens and drop's number, or the length of what it
// put at the buffer's front (a load puts nothing there). A refused one has its refusal in its place.
#[derive(Clone, Copy)]
pub enum Granted {
    Given { tokens: Tokens, dropped: u64 },
    Filled { length: u64 },
}

impl Granted {
    // The first token that it gives.
    pub fn first(self) -> Option<u64>
        ensures { result ≡ slice_get (ruling.reply_as (Ok self)).tokens 0 }
    {
        match self {
            Granted::Given { tokens, dropped: _ } => match tokens {
                Tokens::None => None,
                Tokens::One(first) => Some(first),
                Tokens::Two(first, _) => Some(first),
            },
            Granted::Filled { length: _ } => None,
        }
    }

    // Drop's number.
    pub fn dropped(self) -> u64
        ensures { result ≡ (ruling.reply_as (Ok self)).dropped }
    {
        match self {
            Granted::Given { tokens: _, dropped } => dropped,
            Granted::Filled { length: _ } => 0,
        }
    }
}

// A granted request that gives no token.
pub fn plain(dropped: u64) -> Granted
    ensures { result ≡ ruling.plainly dropped }
{
    Granted::Given {
        tokens: Tokens::None,
        dropped,
    }
}

// A granted request that gives one token, and one that gives two.
pub fn giving(token: u64) -> Granted
    ensures { result ≡ ruling.giving_one token }
{
    Granted::Given {
        tokens: Tokens::One(token),
        dropped: 0,
    }
}

pub fn giving_two(first: u64, second: u64) -> Granted
    ensures { result ≡ ruling.giving_two first second }
{
    Granted::Given {
        tokens: Tokens::Two(first, second),
        dropped: 0,
    }
}

// A granted request that puts so many bytes at the front of the buffer.
pub fn filling(length: u64) -> Granted
    ensures { result ≡ ruling.filling_so length }
{
    Granted::Filled { length }
}

// The refusal's number: 0 granted, else 01's number.
pub fn refusal_of(reply: Result<Granted, Refusal>) -> u64
    ensures { result ≡ (ruling.reply_as reply).refusal }
{
    match reply {
        Ok(_) => 0,
        Err(why) => RefusalWords::from(why).number,
    }
}
