// Offsets: only 10h, 12h and 14h are there.
use crate::cards::{answers, gives, selected, write};
use card::Card;
use tally::Tally;

// The offsets at which nothing is: around the three, then the low and the high end, and the three with a bit more.
const ELSEWHERE: [u32; 19] = [
    0x0F, 0x11, 0x13, 0x15, 0x16, 0x17, 0, 1, 2, 4, 8, 0x0E, 0x18, 0x20, 0x110, 0x10010, 0x10012,
    0x10014, 0xFFFFFFFF,
];

// The three offsets, then the others, with CSR88 behind RDP.
pub fn run(t: Tally, c: Card) -> Tally {
    let c = selected(c, 88);
    let mut t = reset(rap(rdp(t, c), c), c);
    for offset in ELSEWHERE {
        t = nothing(t, c, offset);
    }
    t
}

// Nothing is at an offset: read and write are refused with 7 and change nothing.
fn nothing(t: Tally, c: Card, offset: u32) -> Tally {
    t.with(gives(c.read(offset), Err(7), c))
        .with(gives(write(c, offset, 0x0004), Err(7), c))
}

// 10h is RDP: CSR88 reads, and refuses a write with 8.
fn rdp(t: Tally, c: Card) -> Tally {
    t.with(gives(c.read(0x10), Ok(0x3003), c))
        .with(gives(write(c, 0x10, 0x0004), Err(8), c))
}

// 12h is RAP: it reads 88, and keeps FFFFh modulo 128.
fn rap(t: Tally, c: Card) -> Tally {
    let wrote = write(c, 0x12, 0xFFFF);
    let after = wrote.card;
    t.with(gives(c.read(0x12), Ok(88), c)).with(
        answers(wrote, Ok(0))
            & answers(after.read(0x12), Ok(127))
            & (selected(after, 88) == c)
            & !wrote.line,
    )
}

// 14h: a read resets the card and gives 0, a write does nothing.
fn reset(t: Tally, c: Card) -> Tally {
    t.with(gives(c.read(0x14), Ok(0), Card::fresh()))
        .with(gives(write(c, 0x14, 0x0004), Ok(0), c))
}
