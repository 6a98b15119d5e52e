// What the crates above share: a bit's weight, numbers of two and four bytes and copies between slices. The crate's definitions and laws are
// about bus programs.
#![tactic(auto)]

ghost use Rattle.std.specs.Prelude.{◌≡◌, ◌+◌, ◌*◌, ◌≤◌, length};
ghost use Rattle.bus.specs.Bits.{bit, weigh};
ghost use Rattle.bus.specs.Words.{joined, bytes_of, part, words_at, overwritten};

// Whether a word has the bit of a weight; no bit weighs 0.
// Of words alone: a status is a byte, and its bits are tested where it is read.
pub fn bit(w: u16, weight: u16) -> bool
    ensures { result ≡ bit w weight }
{
    weight != 0 && w / weight % 2 == 1
}

// What a bit adds to a number.
#[tactic(auto, unfolding(crate::specs::Bits::weigh))]
pub fn weigh(b: bool, weight: u16) -> u16
    ensures { (result ≡ weigh b weight) × (result ≤ weight) }
{
    if b { weight } else { 0 }
}

// The little-endian word of two bytes.
pub fn joined(low: u8, high: u8) -> u16
    ensures { result ≡ joined low high }
{
    u16::from_le_bytes([low, high])
}

// The little-endian words of a slice from a place on, as many as `to` has.
pub fn read_words(from: &[u8], at: usize, to: &mut [u16])
    requires { at + 2 * length to.old ≤ length from.now }
    ensures { to.new ≡ words_at from.now at (length to.old) }
{
    for i in 0..to.len() {
        to[i] = joined(from[at + 2 * i], from[at + 2 * i + 1]);
    }
}

// The same as an array.
// The place stays a parameter, here as there: it is an address of the memory, and the definition speaks of it.
pub fn words_at<const N: usize>(from: &[u8], at: usize) -> [u16; N]
    requires { at + 2 * N ≤ length from.now }
    ensures { result ≡ words_at from.now at N }
{
    let mut words = [0; N];
    read_words(from, at, &mut words);
    words
}

// A word's two bytes go to a place of a slice.
#[tactic(auto, using(crate::proofs::Bytes::word_put))]
pub fn put_word(to: &mut [u8], at: usize, w: u16)
    requires { at + 2 ≤ length to.old }
    ensures { to.new ≡ overwritten to.old at (bytes_of 2 w) }
{
    to[at..at + 2].copy_from_slice(&w.to_le_bytes());
}

// A number's four bytes go to a place of a slice.
// What it has in common with `put_word` and `copy_bytes` is the library's copy; each clause says what is written.
#[tactic(auto, using(crate::proofs::Bytes::double_put))]
pub fn put_double(to: &mut [u8], at: usize, x: u32)
    requires { at + 4 ≤ length to.old }
    ensures { to.new ≡ overwritten to.old at (bytes_of 4 x) }
{
    to[at..at + 4].copy_from_slice(&x.to_le_bytes());
}

// `count` bytes of a slice, from `start` on, go to a place of another.
// Places and counts stay parameters: a descriptor gives numbers, and only here do parts of slices become the definitions' words.
// Not `copy_from_slice`: the archive for C would call memmove, a name that its callers need not have, and their loader would look it up on the
// stack of the first call.
pub fn copy_bytes(from: &[u8], start: usize, count: usize, to: &mut [u8], at: usize)
    requires from_inside { start + count ≤ length from.now }
    requires to_inside { at + count ≤ length to.old }
    ensures { to.new ≡ overwritten to.old at (part from.now start count) }
{
    for i in 0..count {
        to[at + i] = from[start + i];
    }
}
