// Cards brought to a state by acts, and what is looked at afterwards.
use crate::bytes::Memory;
use answers::Answer;
use card::{Card, Reply};
use ring::Slot;
use transmit::Report;

// Whether the answer is the expected one: a name for `==`, as most cases ask it.
pub fn is(reply: Reply, answer: Answer) -> bool {
    reply.answer == answer
}

// What the wire says of a frame, with neither flag. It is a number, as in a call from C, for some cases give one that is refused.
pub fn report(wire: u32) -> Report {
    Report {
        result: wire,
        deferred: false,
        noheartbeat: false,
    }
}

// The same with both flags.
pub fn flagged(wire: u32) -> Report {
    Report {
        deferred: true,
        noheartbeat: true,
        ..report(wire)
    }
}

// The card after reset.
pub fn fresh() -> Card {
    Card::fresh().reset().card
}

// A write to a CSR, through RAP.
pub fn written(c: Card, m: &[u8], r: u16, v: u16) -> Reply {
    c.write(m, 0x12, r).card.write(m, 0x10, v)
}

// A card with another CSR behind RDP.
pub fn selected(c: Card, r: u16) -> Card {
    c.write(&[0], 0x12, r).card
}

// The initialization block at 10h: station address 02-60-8C-01-02-03, no filter, and the words of the two rings.
pub fn block(m: &mut Memory, mode: u16, receive: [u16; 2], transmit: [u16; 2]) {
    let [receive, receive_high] = receive;
    let [transmit, transmit_high] = transmit;
    let words = [
        mode,
        0x6002,
        0x018C,
        0x0302,
        0,
        0,
        0,
        0,
        receive,
        receive_high,
        transmit,
        transmit_high,
    ];
    let (places, _) = m[0x10..0x28].as_chunks_mut::<2>();
    for (place, word) in places.iter_mut().zip(words) {
        *place = word.to_le_bytes();
    }
}

// A reset card that is told where the block stands (an odd address, of which bit 0 counts as 0), then a write to CSR0.
pub fn begin(m: &[u8], v: u16) -> Reply {
    let reply = written(fresh(), m, 1, 0x11);
    let reply = written(reply.card, m, 2, 0);
    written(reply.card, m, 0, v)
}

// A running card, CSR0 0073h: INIT, STRT and IENA, then IDON is cleared.
pub fn running(m: &[u8]) -> Card {
    written(begin(m, 0x0043).card, m, 0, 0x0140).card
}

// A running card over the given block, with the receive ring at 40h and the transmit ring at 80h, of 1 (0) to 8 (6000h) slots.
pub fn started(m: &mut Memory, mode: u16, receive_high: u16, transmit_high: u16) -> Card {
    block(m, mode, [0x40, receive_high], [0x80, transmit_high]);
    running(m)
}

// Whether a CSR reads as expected.
pub fn reads(c: Card, r: u16, v: u16) -> bool {
    is(selected(c, r).read(0x10), Answer::Done(v))
}

// Whether answer, CSR0 and line are the expected ones.
pub fn shows(reply: Reply, answer: Answer, csr0: u16, line: bool) -> bool {
    is(reply, answer) & reads(reply.card, 0, csr0) & (reply.line == line)
}

// Whether these slots are current.
pub fn slots(reply: Reply, receive: u16, transmit: u16) -> bool {
    let c = reply.card;
    (c.receive.slot.0 == receive) & (c.transmit.slot.0 == transmit)
}

// Whether a call was refused with a number, as document 01's table has it, and gave nothing else, the card being kept and the line as
// expected.
pub fn refused(reply: Reply, number: u8, kept: Card, line: bool) -> bool {
    let answer = reply.answer;
    (answer.number() == number)
        & (answer.word() == 0)
        & (answer.value() == 0)
        & (answer.length() == 0)
        & (reply.card == kept)
        & (reply.line == line)
}

// The same card at another receive slot, which may make its state unsound.
pub fn moved(mut c: Card, slot: u16) -> Card {
    c.receive = c.receive.moved(Slot(slot));
    c
}
