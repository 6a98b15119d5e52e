// The card by value: its state, and the acts on it.
#![tactic(auto)]

mod acts;
mod arrival;
mod initialization;
mod shown;
mod sound;
mod state;
mod turning;

use answers::Answer;
use registers::{Csr0, Written};
use ring::Ring;

// How many words of sixteen bits the state is.
pub const WORDS: usize = 23;

// The card's state. CSR112 counts missed frames; a successful initialization sets the flag below it and loads the rest.
#[derive(Clone, Copy, PartialEq, Eq)]
pub struct Card {
    pub csr0: Csr0,
    pub written: Written,
    pub missed: u16,
    // No Option of what stands below: a state that has it clear and MODE set is a value too, and `is_sound` answers on it.
    pub initialized: bool,
    pub mode: u16,
    pub address: [u8; 6],
    pub filter: [u16; 4],
    pub receive: Ring,
    pub transmit: Ring,
}

// The card handed back, with the answer and the level of the interrupt line.
#[derive(Clone, Copy)]
pub struct Reply {
    pub card: Card,
    pub answer: Answer,
    // A level, which the C interface hands out, and no value hangs on it.
    pub line: bool,
}

// A card after an initialization was tried, and whether it may start.
// A Result is no plainer: the card stands in both cases, and `Csr0::finished` takes `ready` as it is.
#[derive(Clone, Copy)]
pub struct Tried {
    pub card: Card,
    pub ready: bool,
}
