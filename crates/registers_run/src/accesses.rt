// Every register number from 0 to 127 on one card: RAP read back, the register read, FFFFh written, 0000h written.
use crate::cards::{answers, gives, selected, without, write};
use crate::table;
use card::Card;
use tally::Tally;

// All registers.
pub fn run(mut t: Tally, c: Card) -> Tally {
    for r in 0..128 {
        t = register(t, c, r);
    }
    t
}

// The four accesses to one register.
fn register(t: Tally, c: Card, r: u8) -> Tally {
    let s = selected(c, u16::from(r));
    t.with(rap(s, r))
        .with(read(s, r))
        .with(write_of(s, r, 0xFFFF, table::after_ones(r)))
        .with(write_of(s, r, 0x0000, table::after_zeros(r, s.csr0.stop)))
}

// RAP reads as the register number, and is never locked.
fn rap(c: Card, r: u8) -> bool {
    gives(c.read(0x12), Ok(u16::from(r)), c)
}

// A read changes nothing; a refused one has the table's number.
fn read(c: Card, r: u8) -> bool {
    gives(c.read(0x10), table::read(r, c.csr0.stop), c)
}

// A write that is refused changes nothing; any other shows when the register is read, and changes nothing else.
fn write_of(c: Card, r: u8, v: u16, shown: u16) -> bool {
    let reply = write(c, 0x10, v);
    if let Err(number) = table::write(r, c.csr0.stop) {
        return gives(reply, Err(number), c);
    }
    let after = reply.card;
    answers(reply, Ok(0))
        & answers(after.read(0x10), Ok(shown))
        & (without(after, r) == without(c, r))
        & !reply.line
}
