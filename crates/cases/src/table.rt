// Cases A to L of document 01, run.
use crate::bytes::{copy, descriptor, ended, fill, frame, handed_out, lent, minus, ring};
use crate::cards::{begin, block, fresh, reads, report, running, shows, slots, started, written};
use answers::Answer;
use card::Card;
use tally::{Tally, same};

// Cases 1 to 13.
pub fn run(t: Tally) -> Tally {
    t.with(count_000())
        .with(count_fff())
        .with(count_a12())
        .with(sixteen_slots())
        .with(one_slot())
        .with(ring_words())
        .with(init())
        .with(start())
        .with(init_outside())
        .with(two_buffers())
        .with(second_not_owned())
        .with(wrong_fcs())
        .with(one_retry() & retry_failure())
}

// 1, A: "000h is 4,096". The buffer ends on the memory's last byte, and lies outside when one byte less is lent.
fn count_000() -> bool {
    let mut m = [0; 8192];
    let c = started(&mut m, 0, 0, 0);
    descriptor(&mut m, 0x40, 0x100, 0x80, 0x0000);
    let f = frame::<4095>(1);
    let mut wanted = m;
    let reply = c.arrive(lent(&mut m, 4351), &f, 0);
    let outside = shows(reply, Answer::Memory, 0x88C3, true) & same(&m, &wanted);
    ended(&mut wanted, 0x40, 0x03, 4095);
    copy(&mut wanted, 0x100, &f);
    let reply = c.arrive(lent(&mut m, 4352), &f, 0);
    outside & shows(reply, Answer::Received, 0x04F3, true) & same(&m, &wanted)
}

// 2, B: "FFFh is 1". The first buffer takes one byte, the second the other 63.
fn count_fff() -> bool {
    let mut m = [0; 8192];
    let c = started(&mut m, 0, 0x2000, 0);
    descriptor(&mut m, 0x40, 0x100, 0x80, 0xFFFF);
    descriptor(&mut m, 0x48, 0x200, 0x80, minus(100));
    let f = frame::<64>(2);
    let mut wanted = m;
    wanted[0x43] = 0x02;
    ended(&mut wanted, 0x48, 0x01, 64);
    let (first, rest) = f.split_at(1);
    copy(&mut wanted, 0x100, first);
    copy(&mut wanted, 0x200, rest);
    let reply = c.arrive(&mut m, &f, 0);
    shows(reply, Answer::Received, 0x04F3, true) & slots(reply, 0, 0) & same(&m, &wanted)
}

// 3, C: "A12h is 1,518", and "bits 15-12 are ignored". 1,518 bytes fit in one buffer, 1,519 do not.
fn count_a12() -> bool {
    let mut m = [0; 8192];
    let c = started(&mut m, 0, 0x4000, 0);
    descriptor(&mut m, 0x40, 0x100, 0x80, 0x0A12);
    descriptor(&mut m, 0x48, 0x700, 0x80, 0xFA12);
    descriptor(&mut m, 0x50, 0xD00, 0x80, minus(100));
    let f = frame::<1518>(3);
    let g = frame::<1519>(4);
    let mut wanted = m;
    ended(&mut wanted, 0x40, 0x03, 1518);
    copy(&mut wanted, 0x100, &f);
    let reply = c.arrive(&mut m, &f, 0);
    let fits = shows(reply, Answer::Received, 0x04F3, true)
        & slots(reply, 1, 0)
        & same(&m, &wanted);
    wanted[0x4B] = 0x02;
    ended(&mut wanted, 0x50, 0x01, 1519);
    let (first, rest) = g.split_at(1518);
    copy(&mut wanted, 0x700, first);
    copy(&mut wanted, 0xD00, rest);
    let reply = reply.card.arrive(&mut m, &g, 0);
    fits & shows(reply, Answer::Received, 0x04F3, true) & slots(reply, 3, 0) & same(&m, &wanted)
}

// 4, D: "16 slots, slot 0, FFF0h; slot 15, FFFFh". A frame of 1,500 bytes takes 15 buffers of 100.
fn sixteen_slots() -> bool {
    let mut m = [0; 8192];
    block(&mut m, 0, [0x80, 0x8000], [0x40, 0]);
    ring(&mut m, 0x80, 16, 0x100, 100, 100);
    let f = frame::<1500>(5);
    let reply = begin(&m, 0x0001);
    let reply = written(reply.card, &m, 0, 0x0004);
    let first = counters(reply.card, 0xFFF0, 0xFFF0, 0xFFFF, 0xFFFF);
    let reply = written(reply.card, &m, 0, 0x0042);
    let reply = reply.card.arrive(&mut m, &f, 0);
    let taken = shows(reply, Answer::Received, 0x04F2, true) & slots(reply, 15, 0);
    let reply = written(reply.card, &m, 0, 0x0004);
    first & taken & counters(reply.card, 0xFFFF, 0xFFF0, 0xFFFF, 0xFFFF)
}

// Whether CSR72, 76, 74 and 78 read as expected.
fn counters(
    c: Card,
    receive: u16,
    receive_length: u16,
    transmit: u16,
    transmit_length: u16,
) -> bool {
    reads(c, 72, receive)
        & reads(c, 76, receive_length)
        & reads(c, 74, transmit)
        & reads(c, 78, transmit_length)
}

// 5, E: "1 slot, FFFFh"; "Before initialization they read 0".
fn one_slot() -> bool {
    let mut m = [0; 8192];
    block(&mut m, 0, [0x28, 0], [0x30, 0]);
    let before = counters(fresh(), 0, 0, 0, 0);
    let reply = begin(&m, 0x0001);
    let reply = written(reply.card, &m, 0, 0x0004);
    before & counters(reply.card, 0xFFFF, 0xFFFF, 0xFFFF, 0xFFFF)
}

// 6, F: "words 2345h, 4001h: base 012340h, 4 slots"; the transmit ring has words FFFFh, FFFFh: base FFFFF8h, 128 slots.
fn ring_words() -> bool {
    let mut m = [0; 8192];
    block(&mut m, 0, [0x2345, 0x4001], [0xFFFF, 0xFFFF]);
    let reply = begin(&m, 0x0001);
    let reply = written(reply.card, &m, 0, 0x0004);
    let c = reply.card;
    reads(c, 24, 0x2340)
        & reads(c, 25, 0x0001)
        & reads(c, 30, 0xFFF8)
        & reads(c, 31, 0x00FF)
        & counters(c, 0xFFFC, 0xFFFC, 0xFF80, 0xFF80)
}

// 7, G: "reset, write 0001h, good block, MODE 0: 0181h, line low".
fn init() -> bool {
    let mut m = [0; 8192];
    block(&mut m, 0, [0x40, 0], [0x80, 0]);
    let reply = begin(m.split_at(40).0, 0x0001);
    shows(reply, Answer::Done(0), 0x0181, false)
}

// 8, H: "then 0142h: 0073h".
fn start() -> bool {
    let mut m = [0; 8192];
    block(&mut m, 0, [0x40, 0], [0x80, 0]);
    let reply = begin(&m, 0x0001);
    let reply = written(reply.card, &m, 0, 0x0142);
    shows(reply, Answer::Done(0), 0x0073, false)
}

// 9, I: "reset, write 0041h, block outside: 88C1h, line high". One of the block's 24 bytes is outside; nothing is loaded.
fn init_outside() -> bool {
    let mut m = [0; 8192];
    block(&mut m, 0, [0x40, 0], [0x80, 0]);
    let reply = begin(m.split_at(39).0, 0x0041);
    let line = shows(reply, Answer::Done(0), 0x88C1, true);
    let reply = written(reply.card, &m, 0, 0x0004);
    let c = reply.card;
    line & counters(c, 0, 0, 0, 0) & reads(c, 12, 0) & !c.initialized
}

// 10, J: "300 bytes with good FCS, two owned buffers of 200: status 02h, 01h, MCNT 2Ch 01h"; then a second frame in the next slot.
fn two_buffers() -> bool {
    let mut m = [0; 8192];
    let c = started(&mut m, 0, 0x4000, 0);
    ring(&mut m, 0x40, 3, 0x100, 250, 200);
    let f = frame::<300>(6);
    let g = frame::<100>(7);
    let mut wanted = m;
    wanted[0x43] = 0x02;
    wanted[0x4B] = 0x01;
    wanted[0x4E] = 0x2C;
    wanted[0x4F] = 0x01;
    let (first, rest) = f.split_at(200);
    copy(&mut wanted, 0x100, first);
    copy(&mut wanted, 0x1FA, rest);
    let reply = c.arrive(&mut m, &f, 0);
    let both = shows(reply, Answer::Received, 0x04F3, true)
        & slots(reply, 2, 0)
        & same(&m, &wanted);
    ended(&mut wanted, 0x50, 0x03, 100);
    copy(&mut wanted, 0x2F4, &g);
    let reply = reply.card.arrive(&mut m, &g, 0);
    both & shows(reply, Answer::Received, 0x04F3, true) & slots(reply, 3, 0) & same(&m, &wanted)
}

// 11, J: "second not owned: 46h". The frame is cut after 200 bytes, and is not counted as missed.
fn second_not_owned() -> bool {
    let mut m = [0; 8192];
    let c = started(&mut m, 0, 0x2000, 0);
    descriptor(&mut m, 0x40, 0x100, 0x80, minus(200));
    descriptor(&mut m, 0x48, 0x200, 0x7F, minus(200));
    let f = frame::<300>(8);
    let mut wanted = m;
    wanted[0x43] = 0x46;
    let (first, _) = f.split_at(200);
    copy(&mut wanted, 0x100, first);
    let reply = c.arrive(&mut m, &f, 0);
    shows(reply, Answer::Cut, 0x04F3, true)
        & slots(reply, 1, 0)
        & reads(reply.card, 112, 0)
        & same(&m, &wanted)
}

// 12, K: "one buffer, wrong FCS: 4Bh"; with extra bits "FRAM with ERR" too, 6Bh.
fn wrong_fcs() -> bool {
    let mut m = [0; 8192];
    let c = started(&mut m, 0, 0x2000, 0);
    ring(&mut m, 0x40, 2, 0x100, 256, 200);
    let mut f = frame::<100>(9);
    f[50] ^= 0x10;
    let mut wanted = m;
    ended(&mut wanted, 0x40, 0x4B, 100);
    copy(&mut wanted, 0x100, &f);
    let reply = c.arrive(&mut m, &f, 0);
    let wrong = shows(reply, Answer::Received, 0x04F3, true)
        & slots(reply, 1, 0)
        & same(&m, &wanted);
    ended(&mut wanted, 0x48, 0x6B, 100);
    copy(&mut wanted, 0x200, &f);
    let reply = reply.card.arrive(&mut m, &f, 7);
    wrong & shows(reply, Answer::Received, 0x04F3, true) & slots(reply, 0, 0) & same(&m, &wanted)
}

// 13, L: "status 83h, one retry: 0Bh". The frame of 100 bytes goes out with its FCS.
fn one_retry() -> bool {
    let mut m = [0; 8192];
    fill(&mut m, 10);
    let c = started(&mut m, 0, 0, 0x2000);
    descriptor(&mut m, 0x80, 0x100, 0x83, minus(100));
    let mut out = [0xEE; 4100];
    let expected = handed_out::<4100>(&m[0x100..0x164]);
    let mut wanted = m;
    ended(&mut wanted, 0x80, 0x0B, 0);
    let reply = c.turn(&mut m, &mut out, report(1));
    shows(reply, Answer::Sent(104), 0x02F3, true)
        & slots(reply, 0, 1)
        & same(&m, &wanted)
        & same(&out, &expected)
}

// 13, L: "report 3: 43h, TMD3 0400h". Nothing is handed out.
fn retry_failure() -> bool {
    let mut m = [0; 8192];
    block(&mut m, 0, [0x40, 0], [0x80, 0x2000]);
    descriptor(&mut m, 0x80, 0x100, 0x83, minus(100));
    let c = running(&m);
    let mut out = [0xEE; 4100];
    let expected = out;
    let mut wanted = m;
    ended(&mut wanted, 0x80, 0x43, 0x0400);
    let reply = c.turn(&mut m, &mut out, report(3));
    shows(reply, Answer::Failed, 0x02F3, true)
        & slots(reply, 0, 1)
        & same(&m, &wanted)
        & same(&out, &expected)
}
