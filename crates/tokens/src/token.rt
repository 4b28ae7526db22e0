// Tokens (Table 1): from the top bit the encoding (2 bits), the tag (16), the number and the
// offset. Each encoding is a type, to which the widths of its number and its offset belong.
ghost use Rattle.std.specs.Prelude.{◌≡◌, ◌&&◌, ℕ, ◌+◌, ◌^◌, ◌≤◌, ◌<◌, true, ltb, refl};
ghost use Rattle.bits.specs.Fields.{Fit};
ghost use Rattle.tokens.specs.Token.{encoding_of, fits_as, named, named_as, named_in, NamedFits, number_width, offset_width, packing, token, token_fields, token_in, token_widths};

// What a token names: an entry, by its tag and number, and an offset.
#[derive(Clone, Copy)]
pub struct Named {
    pub tag: u64,
    pub number: u64,
    pub offset: u64,
}

// The encodings differ in two widths alone, the number's and the offset's, which are 46 together.
// Over those: each part of n fits its field.
fn fits_in(number: u64, offset: u64, n: Named) -> bool
    requires { number + offset ≡ 46 }
    ensures { result ≡ (ltb n.tag (2 ^ 16) && ltb n.number (2 ^ number) && ltb n.offset (2 ^ offset)) }
{
    (n.tag < 1 << 16) & (n.number < 1 << number) & (n.offset < 1 << offset)
}

// The word in encoding e with the parts of n.
fn packed_in(number: u64, offset: u64, e: u64, n: Named) -> u64
    requires { (number + offset ≡ 46) × Fit (token_widths number offset) (token_fields e n) }
    ensures { result ≡ token_in number offset e n }
{
    let high = (e << 16) + n.tag;
    (((high << number) + n.number) << offset) + n.offset
}

// The parts of the word t.
fn unpacked_in(number: u64, offset: u64, t: u64) -> Named
    requires { number + offset ≡ 46 }
    ensures { result ≡ named_in number offset t }
{
    Named {
        tag: (t >> (number + offset)) % (1 << 16),
        number: (t >> offset) % (1 << number),
        offset: t % (1 << offset),
    }
}

// An encoding (01: "The number and offset widths belong to the encoding itself"): a type with the widths of the
// number and the offset as constants, and with what packs and unpacks a token.
pub trait TokenEncoding {
    ghost ENCODING: { ℕ };

    ghost NUMBER_WIDTH: { ℕ };

    ghost OFFSET_WIDTH: { ℕ };

    const ENCODING: u64;

    const NUMBER_WIDTH: u64;

    const OFFSET_WIDTH: u64;

    // It is one of 01's four, with the widths that it has there.
    ghost known: { ltb ENCODING 4 ≡ true };

    ghost number_is: { NUMBER_WIDTH ≡ number_width ENCODING };

    ghost offset_is: { OFFSET_WIDTH ≡ offset_width ENCODING };

    ghost shared: { NUMBER_WIDTH + OFFSET_WIDTH ≡ 46 };

    final fn fits(n: Named) -> bool
        ensures { result ≡ fits_as ENCODING n }
    {
        fits_in(Self::NUMBER_WIDTH, Self::OFFSET_WIDTH, n)
    }

    final fn packed(n: Named) -> u64
        requires { NamedFits ENCODING n }
        ensures { result ≡ token ENCODING n }
    {
        packed_in(Self::NUMBER_WIDTH, Self::OFFSET_WIDTH, Self::ENCODING, n)
    }

    final fn unpacked(t: u64) -> Named
        ensures { result ≡ named_as ENCODING t }
    {
        unpacked_in(Self::NUMBER_WIDTH, Self::OFFSET_WIDTH, t)
    }
}

// Encoding 0: a 14-bit number and a 32-bit offset.
#[derive(Clone, Copy)]
pub struct Encoding0;

impl TokenEncoding for Encoding0 {
    ghost ENCODING = { 0 };

    ghost NUMBER_WIDTH = { 14 };

    ghost OFFSET_WIDTH = { 32 };

    const ENCODING: u64 = 0;

    const NUMBER_WIDTH: u64 = 14;

    const OFFSET_WIDTH: u64 = 32;

    ghost known = { refl };

    ghost number_is = { refl };

    ghost offset_is = { refl };

    ghost shared = { refl };
}

// Encoding 1: a 46-bit number and a 0-bit offset.
#[derive(Clone, Copy)]
pub struct Encoding1;

impl TokenEncoding for Encoding1 {
    ghost ENCODING = { 1 };

    ghost NUMBER_WIDTH = { 46 };

    ghost OFFSET_WIDTH = { 0 };

    const ENCODING: u64 = 1;

    const NUMBER_WIDTH: u64 = 46;

    const OFFSET_WIDTH: u64 = 0;

    ghost known = { refl };

    ghost number_is = { refl };

    ghost offset_is = { refl };

    ghost shared = { refl };
}

// Encoding 2: a 30-bit number and a 16-bit offset.
#[derive(Clone, Copy)]
pub struct Encoding2;

impl TokenEncoding for Encoding2 {
    ghost ENCODING = { 2 };

    ghost NUMBER_WIDTH = { 30 };

    ghost OFFSET_WIDTH = { 16 };

    const ENCODING: u64 = 2;

    const NUMBER_WIDTH: u64 = 30;

    const OFFSET_WIDTH: u64 = 16;

    ghost known = { refl };

    ghost number_is = { refl };

    ghost offset_is = { refl };

    ghost shared = { refl };
}

// Encoding 3: a 22-bit number and a 24-bit offset.
#[derive(Clone, Copy)]
pub struct Encoding3;

impl TokenEncoding for Encoding3 {
    ghost ENCODING = { 3 };

    ghost NUMBER_WIDTH = { 22 };

    ghost OFFSET_WIDTH = { 24 };

    const ENCODING: u64 = 3;

    const NUMBER_WIDTH: u64 = 22;

    const OFFSET_WIDTH: u64 = 24;

    ghost known = { refl };

    ghost number_is = { refl };

    ghost offset_is = { refl };

    ghost shared = { refl };
}

// The encoding that a token is in.
pub fn encoding(t: u64) -> u64
    ensures { result ≡ encoding_of t }
{
    t >> 62
}

// What a token names, in whatever encoding.
pub fn read(t: u64) -> Named
    ensures { result ≡ named t }
{
    let e = encoding(t);
    match e {
        0 => Encoding0::unpacked(t),
        1 => Encoding1::unpacked(t),
        2 => Encoding2::unpacked(t),
        _ => Encoding3::unpacked(t),
    }
}

// The token in encoding e that names n, for a caller who has shown that it fits. An encoding is the number
// that a request carries (the C interface): place 1 judges it, and a type for it would only be made there
// to be taken apart here.
pub fn packed(e: u64, n: Named) -> u64
    requires { (e < 4) × NamedFits e n }
    ensures { result ≡ token e n }
{
    match e {
        0 => Encoding0::packed(n),
        1 => Encoding1::packed(n),
        2 => Encoding2::packed(n),
        _ => Encoding3::packed(n),
    }
}

// Each part of n fits its field in encoding e.
fn fits(e: u64, n: Named) -> bool
    ensures { result ≡ fits_as e n }
{
    match e {
        0 => Encoding0::fits(n),
        1 => Encoding1::fits(n),
        2 => Encoding2::fits(n),
        3 => Encoding3::fits(n),
        _ => false,
    }
}

// The token in the wanted encoding that names n; none if some part is too wide for its field.
#[tactic(auto, using(crate::proofs::TokenLaws::fits_holds), unfolding(crate::specs::Token::packing))]
pub fn pack(e: u64, n: Named) -> Option<u64>
    ensures { result ≡ packing e n }
{
    if fits(e, n) { Some(packed(e, n)) } else { None }
}

// The token of number n and a tag in the wanted encoding, offset zero.
pub fn token_of(encoding: u64, n: usize, tag: u16) -> u64
    requires { (encoding ≤ 3) × (n < 1024) }
    ensures { result ≡ token encoding (record { tag = tag; number = n; offset = 0 }) }
{
    packed(
        encoding,
        Named {
            tag: tag as u64,
            number: n as u64,
            offset: 0,
        },
    )
}
