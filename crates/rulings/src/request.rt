// Requests, as the code has them.

// How bytes move: from the segment to the buffer, as data or as code, or the other way.
#[derive(Clone, Copy)]
pub enum Way {
    Read,
    Write,
    Fetch,
}

// A text that is read into the segment, and the segment written as such text: they count as accesses.
#[derive(Clone, Copy)]
pub enum Image {
    Load,
    Dump,
}

// Reset: the key, and the first nonce.
#[derive(Clone, Copy)]
pub struct Reset {
    pub key0: u64,
    pub key1: u64,
    pub first_nonce: u64,
}

// An access, at a minute of the week.
#[derive(Clone, Copy)]
pub struct Access {
    pub way: Way,
    pub token: u64,
    pub task: u64,
    pub minute: u64,
}

// A load or a dump, at a minute of the week.
#[derive(Clone, Copy)]
pub struct ImageAccess {
    pub kind: Image,
    pub token: u64,
    pub task: u64,
    pub minute: u64,
}

// Create: a front part of so many bytes, with a user and permissions.
#[derive(Clone, Copy)]
pub struct Create {
    pub token: u64,
    pub task: u64,
    pub length: u64,
    pub user: u64,
    pub permissions: u64,
    pub encoding: u64,
}

// Merge: two neighbours, in order.
#[derive(Clone, Copy)]
pub struct Merge {
    pub first: u64,
    pub second: u64,
    pub task: u64,
    pub encoding: u64,
}

// Derive: a part at an offset, with permissions.
#[derive(Clone, Copy)]
pub struct Derive {
    pub token: u64,
    pub offset: u64,
    pub length: u64,
    pub permissions: u64,
    pub encoding: u64,
}

// Paging out, under a page-file number.
#[derive(Clone, Copy)]
pub struct PageOut {
    pub token: u64,
    pub task: u64,
    pub page: u64,
    pub encoding: u64,
}

// Paging in, to a donor's segment.
#[derive(Clone, Copy)]
pub struct PageIn {
    pub token: u64,
    pub donor: u64,
    pub task: u64,
    pub encoding: u64,
}

// A request with all that it carries. An access has its bytes, an image its text, and what pages out or
// in a segment's bytes, in the buffer that is lent with it; the leases of accesses and images are lent
// too.
#[derive(Clone, Copy)]
pub enum Request {
    Reset(Reset),
    Access(Access),
    Image(ImageAccess),
    Create(Create),
    Merge(Merge),
    Derive(Derive),
    ExecuteOnly { token: u64, encoding: u64 },
    Clone { token: u64 },
    Drop { token: u64 },
    Lock { token: u64, task: u64 },
    Unlock { token: u64, task: u64 },
    Revoke { token: u64, encoding: u64 },
    PageOut(PageOut),
    PageIn(PageIn),
}
