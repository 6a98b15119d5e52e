// The state block: the card's state in 512 lent bytes, read and written.
#![tactic(auto)]

ghost use Rattle.std.specs.Prelude.{◌≡◌, ◌*◌, ◌≤◌, length};
ghost use Rattle.bus.specs.Words.{overwritten};
ghost use Rattle.card.specs.State.{WORDS};
ghost use Rattle.block.specs.Block.{word_bytes, unused, block_of, state_in, holds, opens, opened};

use bus::{put_double, put_word, words_at};
use card::{Card, WORDS};

// A block's bytes, and those that the check is made of.
pub const BYTES: usize = 512;

const CHECKED: usize = 508;

// The state's bytes.
const STATE: usize = 2 * WORDS;

// The bytes between the state and the check.
const UNUSED: [u8; CHECKED - STATE] = [0; CHECKED - STATE];

// The state that a block's words say.
// No `From`: it takes a lent slice and asks for its length, as docs/DECISIONS.md says of this function and of `put_state`.
#[tactic(auto, unfolding(crate::specs::Block::state_in))]
pub fn state_in(block: &[u8]) -> Card
    requires { 2 * WORDS ≤ length block.now }
    ensures { result ≡ state_in block.now }
{
    Card::from(words_at(block, 0))
}

// Whether a block starts with these words.
// A slice here and below, as `state_in` and `put_state` take it: an array of 512 would be made of it at each public function.
#[tactic(auto, using(crate::proofs::Opens::head_is))]
fn is_head(block: &[u8], words: &[u16; WORDS]) -> bool
    requires { 2 * WORDS ≤ length block.now }
    ensures { result ≡ holds block.now 0 (word_bytes words.now) }
{
    words_at(block, 0) == *words
}

// Whether the unused bytes are 0.
// Not `iter().all(..)`: that goes byte by byte; a write to RAP takes 6,031 instructions with it, and 4,956 so.
#[tactic(auto, using(crate::proofs::Opens::rest_is))]
fn is_rest(block: &[u8]) -> bool
    requires { 508 ≤ length block.now }
    ensures { result ≡ holds block.now (2 * WORDS) unused }
{
    &block[STATE..CHECKED] == &UNUSED[..]
}

// Whether a block is that of a sound state.
#[tactic(auto, using(crate::proofs::Opens::no_block, crate::proofs::Opens::open_is))]
pub fn is_open(block: &[u8]) -> bool
    ensures { result ≡ opens block.now }
{
    if block.len() != BYTES {
        return false;
    }
    let card = state_in(block);
    let words: [u16; WORDS] = card.into();
    fcs::right_fcs(block) & is_head(block, &words) & is_rest(block) & card.is_sound()
}

// The state of a block that opens.
#[tactic(auto, using(crate::proofs::Opens::open_enough), unfolding(crate::specs::Block::opened))]
pub fn opened(block: &[u8]) -> Option<Card>
    ensures { result ≡ opened block.now }
{
    is_open(block).then(|| state_in(block))
}

// The state's words go to the block's start.
fn put_words(block: &mut [u8], words: &[u16])
    requires { 2 * length words.now ≤ length block.old }
    ensures { block.new ≡ overwritten block.old 0 (word_bytes words.now) }
{
    for (i, w) in words.iter().enumerate() {
        put_word(block, 2 * i, *w);
    }
}

// The unused bytes become 0.
#[tactic(auto, using(crate::proofs::Places::cleared))]
fn clear_rest(block: &mut [u8])
    requires { 508 ≤ length block.old }
    ensures { block.new ≡ overwritten block.old (2 * WORDS) unused }
{
    block[STATE..CHECKED].fill(0);
}

// The block of a state is written.
// Not a `From`: the block is lent, and a second one of 512 bytes would stand on the stack.
pub fn put_state(block: &mut [u8], card: Card)
    requires { length block.old ≡ 512 }
    ensures { block.new ≡ block_of card }
{
    let words: [u16; WORDS] = card.into();
    put_words(block, &words);
    clear_rest(block);
    let check = fcs::fcs_of(&block[0..CHECKED]);
    put_double(block, CHECKED, check);
}
