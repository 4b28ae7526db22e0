// Refusals. Inside an answer a refusal tells its place, and for 3 and 4 which entry was the bad one.
ghost use Rattle.std.specs.Prelude.{◌≡◌, eqb};
ghost use Rattle.machine.specs.Stops.{bad_number, refusal_bad, refusal_number};
ghost use Rattle.checks.specs.Refusals.{bad_as, refusal_as};

// Which entry of a line was the bad one.
#[derive(Clone, Copy)]
pub enum Bad {
    Named,
    Ancestor,
}

// Why a request stops, in the order of 01's table, and after it as 02 numbers them.
#[derive(Clone, Copy)]
pub enum Refusal {
    // 1: a size or setting is broken, or the request itself.
    Request,
    // 2: number beyond the table, free, or another tag.
    Entry,
    // 3: an entry met is ill-formed.
    IllFormed(Bad),
    // 4: the line is dead.
    Dead(Bad),
    // 5: locked for another task.
    Lock,
    // 6: create, merge, revoke, paging out of an indirect entry; paging in of one that is not paged
    // out, or with a donor that is not direct.
    Kind,
    // 7: a permission, X or Lockable is lacking.
    Right,
    // 8: outside the segment, derive's sum, not neighbours in order, or lengths that are not equal.
    Bounds,
    // 9: locked, or the count forbids it.
    Standing,
    // 10: no free number.
    Numbers,
    // 11: too few nonces.
    Nonces,
    // 12: a malformed record or ending of a text.
    Record,
    // 13: a record's checksum is wrong.
    Checksum,
    // 14: the output buffer is too small, or the written text too long.
    Room,
    // 15: the token is closed at this minute.
    Window,
    // 16: a lease's minutes are equal, or one lies beyond the week.
    Lease,
    // 17: the entry is paged out, and the request does not page in.
    Paged,
}

impl Refusal {
    // It is 4.
    pub(crate) fn is_dead(self) -> bool
        ensures { result ≡ eqb (refusal_number (refusal_as self)) 4 }
    {
        matches!(self, Refusal::Dead(_))
    }
}

// 01's number of a refusal, and which entry was bad: 0 if it tells of none.
#[derive(Clone, Copy)]
pub struct RefusalWords {
    pub number: u64,
    pub bad: u64,
}

// 1 the named entry, 2 an ancestor.
impl From<Bad> for u64 {
    ghost from_gives = { λ bad number. number ≡ bad_number (bad_as bad) };

    fn from(bad: Bad) -> u64 {
        match bad {
            Bad::Named => 1,
            Bad::Ancestor => 2,
        }
    }
}

fn plain(number: u64) -> RefusalWords
    ensures { (result.number ≡ number) × (result.bad ≡ 0) }
{
    RefusalWords { number, bad: 0 }
}

// The numbers of a refusal.
impl From<Refusal> for RefusalWords {
    ghost from_gives = { λ why words. (words.number ≡ refusal_number (refusal_as why)) × (words.bad ≡ refusal_bad (refusal_as why)) };

    fn from(why: Refusal) -> RefusalWords {
        match why {
            Refusal::Request => plain(1),
            Refusal::Entry => plain(2),
            Refusal::IllFormed(bad) => RefusalWords {
                number: 3,
                bad: bad.into(),
            },
            Refusal::Dead(bad) => RefusalWords {
                number: 4,
                bad: bad.into(),
            },
            Refusal::Lock => plain(5),
            Refusal::Kind => plain(6),
            Refusal::Right => plain(7),
            Refusal::Bounds => plain(8),
            Refusal::Standing => plain(9),
            Refusal::Numbers => plain(10),
            Refusal::Nonces => plain(11),
            Refusal::Record => plain(12),
            Refusal::Checksum => plain(13),
            Refusal::Room => plain(14),
            Refusal::Window => plain(15),
            Refusal::Lease => plain(16),
            Refusal::Paged => plain(17),
        }
    }
}
