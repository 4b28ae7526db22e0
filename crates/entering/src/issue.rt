// Issues: an entry gets its tag under its number. It is handled as its four words.
ghost use Rattle.std.specs.Prelude.{◌≡◌, ◌+◌, ◌*◌, ◌≤◌, ◌<◌, length};
ghost use Rattle.layout.specs.Entry.{dated, entry_of, Laid, words_number};
ghost use Rattle.layout.specs.Tag.{retag};
ghost use Rattle.machine.specs.Issuing.{issue};
ghost use Rattle.machine.specs.Parts.{put};
ghost use Rattle.machine.specs.Writes.{token_for};
ghost use Rattle.entering.specs.Nonces.{keyed};

use layout::entry::Words;
use table::entries::put_words;
use tags::tag::{stamped, tag};
use tokens::token::token_of;

// The tag of the entry whose words are w, as it is issued under number n with the nonce.
pub fn tag_under(key0: u64, key1: u64, n: usize, w: Words, nonce: u32) -> u16
    requires { Laid (entry_of (words_number w)).kind }
    ensures { result ≡ (issue (keyed key0 key1) n (dated (entry_of (words_number w)) nonce)).tag }
{
    tag(key0, key1, stamped(w, 0, nonce), n as u64)
}

// It is stored under number n with nonce and tag; gives its token.
pub fn enter(table: &mut [u8], n: usize, w: Words, nonce: u32, tag: u16, encoding: u64) -> u64
    requires n_in_bounds { (32 * n + 32 ≤ length table.old) × (n < 1024) }
    requires encoding_bound { (encoding ≤ 3) × Laid (entry_of (words_number w)).kind }
    ensures value { result ≡ token_for encoding (record { number = n; tag = tag }) }
    ensures table_after { table.new ≡ put table.old n (retag (dated (entry_of (words_number w)) nonce) tag) }
{
    put_words(table, n, stamped(w, tag, nonce));
    token_of(encoding, n, tag)
}
