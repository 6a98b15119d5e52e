// The card that is compared, with STOP set and clear, and the comparison of what a call gives.
use answers::Answer;
use card::{Card, Reply};

// The initialization block, and 16 bytes before it: MODE 0040h, address 02-60-8C-01-02-03, LADRF 01-23-45-67-89-AB-CD-EF,
// receive words 2345h 4001h (base 012340h, 4 slots), transmit words FFFFh 9FABh (base ABFFF8h, 16 slots).
const BLOCK: [u8; 40] =
    *b"\0\0\0\0\0\0\0\0\0\0\0\0\0\0\0\0\x40\x00\x02\x60\x8c\x01\x02\x03\x01\x23\x45\x67\x89\xab\xcd\xef\x45\x23\x01\x40\xff\xff\xab\x9f";

// What writes through RAP stands in `cases` too: here the block is lent with each write, and either program is read by itself.

// A card with another CSR behind RDP. RAP keeps the written value modulo 128, so 128 or a multiple more selects the same.
pub fn selected(c: Card, r: u16) -> Card {
    write(c, 0x12, r.wrapping_add(0xFF80)).card
}

// A write, the block being lent.
pub fn write(c: Card, offset: u32, v: u16) -> Reply {
    c.write(&BLOCK, offset, v)
}

// A write to a CSR.
fn written(c: Card, r: u16, v: u16) -> Card {
    write(selected(c, r), 0x10, v).card
}

// A card that was initialized (the block's address is odd, and its bit 0 counts as 0) and then stopped.
pub fn stopped() -> Card {
    let c = written(Card::fresh(), 1, 0x0011);
    let c = written(c, 2, 0x0000);
    let c = written(c, 0, 0x0001);
    written(c, 0, 0x0004)
}

// The same card started with IENA, by a new initialization whose IDON was cleared: CSR0 is 0073h.
pub fn running() -> Card {
    let c = written(stopped(), 0, 0x0043);
    written(c, 0, 0x0140)
}

// Whether an answer is the value that a register call gives, or the number of its refusal.
pub fn answers(reply: Reply, expected: Result<u16, u8>) -> bool {
    match expected {
        Ok(v) => reply.answer == Answer::Done(v),
        Err(number) => reply.answer.number() == number,
    }
}

// Whether a call answers as expected and hands back this card, with the line low.
pub fn gives(reply: Reply, expected: Result<u16, u8>, c: Card) -> bool {
    answers(reply, expected) & (reply.card == c) & !reply.line
}

// A card with one of CSR0 to CSR3 as after reset, so that the others can be compared.
pub fn without(mut c: Card, r: u8) -> Card {
    let fresh = Card::fresh();
    match r {
        0 => c.csr0 = fresh.csr0,
        1 => c.written.csr1 = 0,
        2 => c.written.csr2 = 0,
        3 => c.written.csr3 = 0,
        _ => {}
    }
    c
}
