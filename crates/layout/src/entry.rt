// Entries of the capability metadata table (Table 2): 32 bytes, byte 0 with the top bits.
ghost use Rattle.std.specs.Prelude.{MatchResult, true, false, ◌≡◌, [], ◌∷◌, ◌<◌, ◌^◌, ◌/◌, ◌%◌, length};
ghost use Rattle.bits.specs.Fields.{pack, unpack};
ghost use Rattle.bits.specs.Bytes.{bytes, number};
ghost use Rattle.layout.specs.Entry.{bit, direct, direct_number, direct_of, end_fields, end_from, end_widths, entry_at, entry_bytes, entry_number, entry_of, Fits, free, freed, indirect, indirect_number, indirect_of, packable, paged, paged_number, paged_of, recounted, relocked, words_number, writable, written, zeros_width};

use crate::fields::{low, replaced, three_fields, two_fields};
use bits::word::{get, put};

// The types. A table that anyone wrote can hold 4 to 7 too, and `load` and `kind_of` promise the number
// that stands there: so a type is a number, and no enum.
pub const FREE: u8 = 0;

pub const DIRECT: u8 = 1;

pub const INDIRECT: u8 = 2;

pub const PAGED: u8 = 3;

// An entry: every field of every type. A field that its type does not have is zero.
#[derive(Clone, Copy)]
pub struct Entry {
    // The type: FREE, DIRECT, INDIRECT, PAGED, or one that has no layout.
    pub kind: u8,
    pub base: u32,
    pub length: u32,
    pub count: u16,
    // The lock holder's task, of 55 bits: zero unless locked.
    pub holder: u64,
    // A device's own mark.
    pub user: u64,
    // The parent token of an indirect entry, in encoding 1.
    pub parent: u64,
    // The page-file number of an entry that is paged out.
    pub page: u64,
    // The bits that an indirect entry, or one that is paged out, has as zeros, as they stand.
    pub zeros: u64,
    // R 4, W 2, X 1, added.
    pub permissions: u8,
    pub locked: bool,
    pub lockable: bool,
    // Copy-on-write.
    pub cow: bool,
    pub tag: u16,
    pub nonce: u32,
}

// The four words of an entry, the high word first.
#[derive(Clone, Copy)]
pub struct Words {
    pub a: u64,
    pub b: u64,
    pub c: u64,
    pub d: u64,
}

// The words that 32 bytes hold.
pub fn read_words(part: &[u8; 32]) -> Words
    ensures { words_number result ≡ number 32 part.now }
{
    Words {
        a: get(&part[0..8]),
        b: get(&part[8..16]),
        c: get(&part[16..24]),
        d: get(&part[24..32]),
    }
}

// The words are stored as 32 bytes. (A slice: for an array lent out of the table, by `as_mut_array` and
// `unwrap`, the proof of what the table then holds does not close.)
pub fn write_words(part: &mut [u8], w: Words)
    requires { length part.old ≡ 32 }
    ensures { part.new ≡ bytes 32 (words_number w) }
{
    put(&mut part[0..8], w.a);
    put(&mut part[8..16], w.b);
    put(&mut part[16..24], w.c);
    put(&mut part[24..32], w.d);
}

fn flag_bits(locked: bool, lockable: bool, cow: bool) -> u64
    ensures value { result ≡ pack (1 ∷ 1 ∷ 1 ∷ []) (bit locked ∷ bit lockable ∷ bit cow ∷ []) }
    ensures upper_bound { result < 8 }
{
    three_fields::<1, 1>(u64::from(locked), u64::from(lockable), u64::from(cow))
}

// The last word of an entry: the low ten bits of a field, and what all entries end with.
fn last_word(above: u64, e: Entry) -> u64
    requires { e.permissions < 8 }
    ensures { result ≡ pack (10 ∷ end_widths) (above % 1024 ∷ end_fields e) }
{
    let flags = flag_bits(e.locked, e.lockable, e.cow);
    let high = three_fields::<3, 3>(above % 1024, u64::from(e.permissions), flags);
    three_fields::<16, 32>(high, u64::from(e.tag), u64::from(e.nonce))
}

// The words of an entry, by its type: a field that runs over a word's end is cut in two.
fn direct_words(e: Entry) -> Words
    requires { Fits e }
    ensures { words_number result ≡ direct_number e }
{
    let length = u64::from(e.length);
    Words {
        a: three_fields::<32, 29>(DIRECT as u64, u64::from(e.base), length / 8),
        b: three_fields::<16, 45>(length % 8, u64::from(e.count), e.holder / 1024),
        c: two_fields::<54>(e.holder % 1024, e.user / 1024),
        d: last_word(e.user, e),
    }
}

fn indirect_words(e: Entry) -> Words
    requires { Fits e }
    ensures { words_number result ≡ indirect_number e }
{
    let length = u64::from(e.length);
    Words {
        a: three_fields::<32, 29>(INDIRECT as u64, u64::from(e.base), e.parent >> 35),
        b: two_fields::<29>(low::<35>(e.parent), length / 8),
        c: three_fields::<16, 45>(length % 8, u64::from(e.count), e.zeros / 1024),
        d: last_word(e.zeros, e),
    }
}

fn paged_words(e: Entry) -> Words
    requires { (e.permissions < 8) × (e.zeros < 2 ^ 39) }
    ensures { words_number result ≡ paged_number e }
{
    Words {
        a: two_fields::<61>(PAGED as u64, e.page / 8),
        b: three_fields::<32, 29>(e.page % 8, u64::from(e.length), e.zeros / 1024),
        c: two_fields::<54>(e.zeros % 1024, e.user / 1024),
        d: last_word(e.user, e),
    }
}

// The words of a free entry that keeps a tag.
#[tactic(auto, using(crate::proofs::EntryLaws::free_words))]
pub fn free_words(tag: u16) -> Words
    ensures { words_number result ≡ entry_number (freed tag) }
{
    Words {
        a: 0,
        b: 0,
        c: 0,
        d: u64::from(tag) << 32,
    }
}

// The words of an entry. A type above 3 has no layout here and gives those of a free entry. (That the
// fields fit is no invariant of `Entry`: `write` takes any, and promises to refuse one that does not fit.)
fn words_of(e: Entry) -> Words
    requires { Fits e }
    ensures { words_number result ≡ entry_number e }
{
    match e.kind {
        DIRECT => direct_words(e),
        INDIRECT => indirect_words(e),
        PAGED => paged_words(e),
        _ => free_words(e.tag),
    }
}

// What entries of all types end with, in the last word d; all else is zero.
fn end_of(kind: u8, d: u64) -> Entry
    ensures { result ≡ end_from kind (unpack end_widths d) }
{
    Entry {
        kind,
        base: 0,
        length: 0,
        count: 0,
        holder: 0,
        user: 0,
        parent: 0,
        page: 0,
        zeros: 0,
        permissions: low::<3>(d >> 51) as u8,
        locked: (d >> 50) % 2 == 1,
        lockable: (d >> 49) % 2 == 1,
        cow: (d >> 48) % 2 == 1,
        tag: low::<16>(d >> 32) as u16,
        nonce: low::<32>(d) as u32,
    }
}

// The direct entry that four words hold.
#[tactic(auto, using(crate::proofs::EntryLaws::direct_read_lem), unfolding(crate::proofs::EntryLaws::direct_read))]
fn direct_of(w: Words) -> Entry
    ensures { result ≡ direct_of (words_number w) }
{
    Entry {
        base: low::<32>(w.a >> 29) as u32,
        length: (low::<29>(w.a) * 8 + (w.b >> 61)) as u32,
        count: low::<16>(w.b >> 45) as u16,
        holder: low::<45>(w.b) * 1024 + (w.c >> 54),
        user: low::<54>(w.c) * 1024 + (w.d >> 54),
        ..end_of(DIRECT, w.d)
    }
}

// The indirect entry that four words hold.
#[tactic(auto, using(crate::proofs::EntryLaws::indirect_read_lem), unfolding(crate::proofs::EntryLaws::indirect_read))]
fn indirect_of(w: Words) -> Entry
    ensures { result ≡ indirect_of (words_number w) }
{
    Entry {
        base: low::<32>(w.a >> 29) as u32,
        parent: (low::<29>(w.a) << 35) + (w.b >> 29),
        length: (low::<29>(w.b) * 8 + (w.c >> 61)) as u32,
        count: low::<16>(w.c >> 45) as u16,
        zeros: low::<45>(w.c) * 1024 + (w.d >> 54),
        ..end_of(INDIRECT, w.d)
    }
}

// The entry that is paged out that four words hold.
#[tactic(auto, using(crate::proofs::EntryLaws::paged_read_lem), unfolding(crate::proofs::EntryLaws::paged_read))]
fn paged_of(w: Words) -> Entry
    ensures { result ≡ paged_of (words_number w) }
{
    Entry {
        page: low::<61>(w.a) * 8 + (w.b >> 61),
        length: low::<32>(w.b >> 29) as u32,
        zeros: low::<29>(w.b) * 1024 + (w.c >> 54),
        user: low::<54>(w.c) * 1024 + (w.d >> 54),
        ..end_of(PAGED, w.d)
    }
}

// The type, which stands in the same place in all.
fn kind_in(w: Words) -> u8
    ensures { result ≡ w.a / 2 ^ 61 }
{
    (w.a >> 61) as u8
}

// The entry that four words hold.
impl From<Words> for Entry {
    ghost from_gives = { λ w e. e ≡ entry_of (words_number w) };

    fn from(w: Words) -> Entry {
        match kind_in(w) {
            DIRECT => direct_of(w),
            INDIRECT => indirect_of(w),
            PAGED => paged_of(w),
            kind => end_of(kind, w.d),
        }
    }
}

// Single fields of the entry that four words hold. What all types have stands in the same place
// in each.
pub fn kind_of(w: Words) -> u8
    ensures { result ≡ (entry_of (words_number w)).kind }
{
    kind_in(w)
}

pub fn tag_of(w: Words) -> u16
    ensures { result ≡ (entry_of (words_number w)).tag }
{
    low::<16>(w.d >> 32) as u16
}

// The others go by the type.
#[tactic(auto, using(crate::proofs::EntryLaws::direct_at, crate::proofs::EntryLaws::indirect_at, crate::proofs::EntryLaws::no_base_at), unfolding(crate::proofs::EntryLaws::direct_read, crate::proofs::EntryLaws::indirect_read))]
pub fn base_of(w: Words) -> u32
    ensures { result ≡ (entry_of (words_number w)).base }
{
    match kind_in(w) {
        DIRECT | INDIRECT => low::<32>(w.a >> 29) as u32,
        _ => 0,
    }
}

pub fn count_of(w: Words) -> u16
    ensures { result ≡ (entry_of (words_number w)).count }
{
    match kind_in(w) {
        DIRECT => low::<16>(w.b >> 45) as u16,
        INDIRECT => low::<16>(w.c >> 45) as u16,
        _ => 0,
    }
}

// The words of the same entry with another count. Only types 1 and 2 have one: an entry that is paged
// out stays as it is.
pub fn recounted(w: Words, count: u16) -> Words
    ensures { words_number result ≡ entry_number (recounted (entry_of (words_number w)) count) }
{
    match kind_in(w) {
        DIRECT => Words {
            b: replaced::<16, 45>(w.b, u64::from(count)),
            ..w
        },
        INDIRECT => Words {
            c: replaced::<16, 45>(w.c, u64::from(count)),
            ..w
        },
        PAGED => w,
        _ => free_words(tag_of(w)),
    }
}

// The last word with another Locked, one bit above 50 others.
fn with_locked(word: u64, locked: bool) -> u64
    ensures { result ≡ pack (13 ∷ 1 ∷ 50 ∷ []) (word / 2 ^ 51 ∷ bit locked ∷ word % 2 ^ 50 ∷ []) }
{
    replaced::<1, 50>(word, u64::from(locked))
}

// The words of the same entry with another lock. Only type 1 has a holder.
pub fn relocked(w: Words, locked: bool, holder: u64) -> Words
    requires { holder < 2 ^ 55 }
    ensures { words_number result ≡ entry_number (relocked (entry_of (words_number w)) locked holder) }
{
    match kind_in(w) {
        DIRECT => Words {
            b: two_fields::<45>(w.b >> 45, holder / 1024),
            c: two_fields::<54>(holder % 1024, low::<54>(w.c)),
            d: with_locked(w.d, locked),
            ..w
        },
        INDIRECT | PAGED => Words {
            d: with_locked(w.d, locked),
            ..w
        },
        _ => free_words(tag_of(w)),
    }
}

// The entry that 32 bytes hold.
pub fn load(part: &[u8; 32]) -> Entry
    ensures { result ≡ entry_at part.now }
{
    Entry::from(read_words(part))
}

// What the field of zeros stays below.
fn zeros_end(kind: u8) -> u64
    ensures { result ≡ 2 ^ zeros_width kind }
{
    if kind == PAGED { 1 << 39 } else { 1 << 55 }
}

fn packable(e: Entry) -> bool
    ensures { result ≡ packable e }
{
    (e.kind <= PAGED) & (e.permissions < 8) & (e.holder < 1 << 55) & (e.zeros < zeros_end(e.kind))
}

// An entry that four words cannot hold: its type has no layout, or one of its fields does not fit.
#[derive(Clone, Copy, Debug, PartialEq, Eq)]
pub struct Misfit;

impl TryFrom<Entry> for Words {
    type Error = Misfit;

    ghost try_from_gives = { λ e r. MatchResult r (λ w. (packable e ≡ true) × (words_number w ≡ entry_number e)) (λ _. packable e ≡ false) };

    fn try_from(e: Entry) -> Result<Words, Misfit> {
        if !packable(e) {
            return Err(Misfit);
        }
        Ok(words_of(e))
    }
}

// The entry is written to a part of 32 bytes if four words hold it; else the part keeps its bytes.
// Says whether it was written (a bool, by the promise `value`).
#[tactic(auto, unfolding(crate::specs::Entry::written))]
pub fn write(part: &mut [u8], e: Entry) -> bool
    ensures value { result ≡ writable part.old e }
    ensures part_after { part.new ≡ written part.old e }
{
    if part.len() != 32 {
        return false;
    }
    let Ok(words) = Words::try_from(e) else {
        return false;
    };
    write_words(part, words);
    true
}

// A free entry that keeps no tag.
fn free() -> Entry
    ensures { result ≡ free }
{
    end_of(FREE, 0)
}

// A direct entry as it is issued: count 0, unlocked.
pub fn direct(
    base: u32,
    length: u32,
    user: u64,
    permissions: u8,
    lockable: bool,
    tag: u16,
    nonce: u32,
) -> Entry
    ensures { result ≡ direct base length user permissions lockable tag nonce }
{
    Entry {
        kind: DIRECT,
        base,
        length,
        user,
        permissions,
        lockable,
        tag,
        nonce,
        ..free()
    }
}

// An indirect entry as it is issued: count 1.
fn indirect(base: u32, length: u32, parent: u64, permissions: u8, tag: u16, nonce: u32) -> Entry
    ensures { result ≡ indirect base length parent permissions tag nonce }
{
    Entry {
        kind: INDIRECT,
        base,
        length,
        count: 1,
        parent,
        permissions,
        tag,
        nonce,
        ..free()
    }
}

// An entry that is paged out, as it is issued: unlocked. It has a page-file number where a direct one has a
// base, so that one function of both would take a field that one of them does not have.
fn paged(
    page: u64,
    length: u32,
    user: u64,
    permissions: u8,
    lockable: bool,
    tag: u16,
    nonce: u32,
) -> Entry
    ensures { result ≡ paged page length user permissions lockable tag nonce }
{
    Entry {
        kind: PAGED,
        page,
        length,
        user,
        permissions,
        lockable,
        tag,
        nonce,
        ..free()
    }
}

// The words of a direct entry as it is issued, with tag and nonce 0: from here on an issue handles
// four words, and no entry with all its fields. (Permissions are a plain number, as in `Entry`, whose
// fields the machine's definitions read; so each issue asks that they are below 8.)
pub fn issued_direct(base: u32, length: u32, user: u64, permissions: u8, lockable: bool) -> Words
    requires { permissions < 8 }
    ensures { entry_of (words_number result) ≡ direct base length user permissions lockable 0 0 }
{
    direct_words(direct(base, length, user, permissions, lockable, 0, 0))
}

// And of an indirect one.
pub fn issued_indirect(base: u32, length: u32, parent: u64, permissions: u8) -> Words
    requires { permissions < 8 }
    ensures { entry_of (words_number result) ≡ indirect base length parent permissions 0 0 }
{
    indirect_words(indirect(base, length, parent, permissions, 0, 0))
}

// And of one that is paged out.
pub fn issued_paged(page: u64, length: u32, user: u64, permissions: u8, lockable: bool) -> Words
    requires { permissions < 8 }
    ensures { entry_of (words_number result) ≡ paged page length user permissions lockable 0 0 }
{
    paged_words(paged(page, length, user, permissions, lockable, 0, 0))
}
