// A request as bytes: its words one after the other.
ghost use Rattle.std.specs.Prelude.{◌≡◌, List, ℕ, length, option_copied, IsSome};
ghost use Rattle.checks.specs.Shifts.{shift_as};
ghost use Rattle.interface.specs.Exported.{picked, request_of, request_size, shift_of, with_leases};
ghost use Rattle.interface.specs.Meanings.{asked_as, lent_as, lent_bytes};

use crate::words::word_at;
use rulings::request::{
    Access, Create, Derive, Image, ImageAccess, Merge, PageIn, PageOut, Request, Reset, Way,
};

// In bytes.
pub const REQUEST_SIZE: usize = 64;

// The operation's number, which is the C interface's, picks the request. Words that it does not use are not looked at. The minute
// is that of an access.
#[tactic(auto, unfolding(crate::specs::Exported::picked))]
fn pick(
    operation: u64,
    token: u64,
    second: u64,
    task: u64,
    length: u64,
    user: u64,
    permissions: u64,
    encoding: u64,
    minute: u64,
) -> Option<Request>
    ensures { (ls : List ℕ) → asked_as result ls ≡ picked operation token second task length user permissions encoding (shift_as minute ls) }
{
    match operation {
        0 => Some(Request::Reset(Reset {
            key0: token,
            key1: second,
            first_nonce: task,
        })),
        1 => Some(Request::Access(Access {
            way: Way::Read,
            token,
            task,
            minute,
        })),
        2 => Some(Request::Access(Access {
            way: Way::Write,
            token,
            task,
            minute,
        })),
        3 => Some(Request::Access(Access {
            way: Way::Fetch,
            token,
            task,
            minute,
        })),
        4 => Some(Request::Create(Create {
            token,
            task,
            length,
            user,
            permissions,
            encoding,
        })),
        5 => Some(Request::Merge(Merge {
            first: token,
            second,
            task,
            encoding,
        })),
        6 => Some(Request::Derive(Derive {
            token,
            offset: second,
            length,
            permissions,
            encoding,
        })),
        7 => Some(Request::ExecuteOnly { token, encoding }),
        8 => Some(Request::Clone { token }),
        9 => Some(Request::Drop { token }),
        10 => Some(Request::Lock { token, task }),
        11 => Some(Request::Unlock { token, task }),
        12 => Some(Request::Revoke { token, encoding }),
        13 => Some(Request::Image(ImageAccess {
            kind: Image::Load,
            token,
            task,
            minute,
        })),
        14 => Some(Request::Image(ImageAccess {
            kind: Image::Dump,
            token,
            task,
            minute,
        })),
        15 => Some(Request::PageOut(PageOut {
            token,
            task,
            page: second,
            encoding,
        })),
        16 => Some(Request::PageIn(PageIn {
            token,
            donor: second,
            task,
            encoding,
        })),
        _ => None,
    }
}

// The request that the bytes hold, with the minute of an access.
fn request_at(request: &[u8], minute: u64) -> Option<Request>
    requires { length request.now ≡ request_size }
    ensures { (ls : List ℕ) → asked_as result ls ≡ request_of request.now (shift_as minute ls) }
{
    pick(
        word_at(request, 0),
        word_at(request, 1),
        word_at(request, 2),
        word_at(request, 3),
        word_at(request, 4),
        word_at(request, 5),
        word_at(request, 6),
        word_at(request, 7),
        minute,
    )
}

// The request of a call; none, if the machine has none of its number. With leases an access has its
// minute in word 2; without, its minute is not looked at.
pub fn request_of(request: &[u8], leases: Option<&[u8]>) -> Option<Request>
    requires { length request.now ≡ request_size }
    ensures lent { asked_as result (lent_bytes (option_copied leases.entry)) ≡ request_of request.now (shift_of request.now (lent_as (option_copied leases.entry))) }
    ensures leased { IsSome leases.entry → (ls : List ℕ) → asked_as result ls ≡ request_of request.now (shift_of request.now (with_leases ls)) }
{
    match leases {
        None => request_at(request, 0),
        Some(_) => request_at(request, word_at(request, 2)),
    }
}
