// A table of leases, judged for a token at a minute in one pass.
ghost use Rattle.std.specs.Prelude.{◌≡◌, cond};
ghost use Rattle.leases.specs.declared.lease.Window.TheVariants as judgement;
ghost use Rattle.leases.specs.Lease.{covers, fit, is_for, is_sound, judged, lease_at, leases_of, sixteen};

// In bytes: a lease, and the most that a table has.
pub const LEASE_SIZE: usize = 8;

pub const LEASES_MOST: usize = 512;

// A minute of the week is less than this.
pub const WEEK: u64 = 10080;

// The token of this number and tag is open from a minute of the week on and up to another.
#[derive(Clone, Copy)]
pub struct Lease {
    pub number: u64,
    pub tag: u64,
    pub opening: u64,
    pub closing: u64,
}

// What leases come to for a token at a minute.
#[derive(Clone, Copy)]
pub enum Window {
    // One of them, whichever token it is for, has equal minutes or one beyond the week.
    Unsound,
    // The token has some, and none is open.
    Closed,
    // None is the token's, or one of its own is open.
    Open,
}

// The table has whole leases, and at most 64.
pub fn fits(leases: &[u8]) -> bool
    ensures { result ≡ fit leases.now }
{
    (leases.len() % LEASE_SIZE == 0) & (leases.len() <= LEASES_MOST)
}

// A number of 16 bits, the low byte first.
fn sixteen(bytes: [u8; 2]) -> u64
    ensures { result ≡ sixteen bytes 0 }
{
    u64::from(u16::from_le_bytes(bytes))
}

impl Lease {
    // The lease that eight bytes hold. They stay behind the reference: taken as a value they are one load and shifts, which
    // takes longer.
    #[tactic(auto, unfolding(crate::specs::Lease::lease_at))]
    fn read(bytes: &[u8; LEASE_SIZE]) -> Lease
        ensures { result ≡ lease_at bytes.now 0 }
    {
        Lease {
            number: sixteen([bytes[0], bytes[1]]),
            tag: sixteen([bytes[2], bytes[3]]),
            opening: sixteen([bytes[4], bytes[5]]),
            closing: sixteen([bytes[6], bytes[7]]),
        }
    }

    // Its minutes differ and lie in the week.
    fn is_sound(self) -> bool
        ensures { result ≡ is_sound self }
    {
        (self.opening != self.closing) & (self.opening < WEEK) & (self.closing < WEEK)
    }

    // The minute lies in its window, which runs over the week's end if it opens later than it closes.
    #[tactic(auto, unfolding(crate::specs::Lease::covers))]
    fn covers(self, minute: u64) -> bool
        ensures { result ≡ covers self minute }
    {
        if self.closing < self.opening {
            (self.opening <= minute) | (minute < self.closing)
        } else {
            (self.opening <= minute) & (minute < self.closing)
        }
    }

    // It is for the token of this number and tag.
    fn is_for(self, number: u64, tag: u64) -> bool
        ensures { result ≡ is_for number tag self }
    {
        (self.number == number) & (self.tag == tag)
    }
}

// What is told of them: unsound leases before a closed window.
fn told(sound: bool, admitted: bool) -> Window
    ensures { result ≡ cond sound (cond admitted judgement.Open judgement.Closed) judgement.Unsound }
{
    if !sound {
        return Window::Unsound;
    }
    if admitted {
        Window::Open
    } else {
        Window::Closed
    }
}

// All of them are looked at, and the windows of those that are for the token.
pub fn judge_leases(leases: &[u8], number: u64, tag: u64, minute: u64) -> Window
    ensures { result ≡ judged (leases_of leases.now) number tag minute }
{
    let (all, _) = leases.as_chunks::<LEASE_SIZE>();
    let mut sound = true;
    let mut held = false;
    let mut admitted = false;
    for bytes in all {
        let lease = Lease::read(bytes);
        sound &= lease.is_sound();
        if lease.is_for(number, tag) {
            held = true;
            admitted |= lease.covers(minute);
        }
    }
    told(sound, !held | admitted)
}
