// Cases 31 to 34: arrivals whose buffers overlap the ring, missed frames, and a walk over the largest ring.
use crate::bytes::{
    Memory, copy, descriptor, ended, fill, frame, frame_to, handed_out, minus, ring,
};
use crate::cards::{block, reads, report, running, shows, slots, started};
use answers::Answer;
use tally::{Tally, same};

// Cases 31 to 34.
pub fn run(t: Tally) -> Tally {
    t.with(over_itself() & sent_over_itself())
        .with(next_given() & next_taken())
        .with(missed())
        .with(
            all_slots(&frame::<3968>(35), Answer::Received, 0x01, 3968)
                & all_slots(&frame::<3969>(35), Answer::Cut, 0x44, 0x5AA5),
        )
}

// 31: "A descriptor is read once per use". Byte 14 of the frame is in the next buffer, though bytes 10 and 11 now stand where the byte count stood.
fn over_itself() -> bool {
    let mut m = [0; 8192];
    let c = started(&mut m, 0, 0x2000, 0);
    descriptor(&mut m, 0x40, 0x3A, 0x80, minus(14));
    descriptor(&mut m, 0x48, 0x100, 0x80, minus(200));
    let f = frame::<100>(30);
    let mut wanted = m;
    let (first, rest) = f.split_at(14);
    copy(&mut wanted, 0x3A, first);
    wanted[0x43] = 0x02;
    copy(&mut wanted, 0x100, rest);
    ended(&mut wanted, 0x48, 0x01, 100);
    let reply = c.arrive(&mut m, &f, 0);
    shows(reply, Answer::Received, 0x04F3, true) & slots(reply, 0, 0) & same(&m, &wanted)
}

// 31: "nothing being written till it is read": a buffer over its own descriptor is handed out with OWN as it was.
// It runs like case 13 and is spelled out all the same: each case is to be read by itself, beside docs/CASES.md.
fn sent_over_itself() -> bool {
    let mut m = [0; 8192];
    fill(&mut m, 31);
    let c = started(&mut m, 0, 0, 0x2000);
    descriptor(&mut m, 0x80, 0x80, 0x83, minus(60));
    let mut out = [0xEE; 4100];
    let expected = handed_out::<4100>(&m[0x80..0xBC]);
    let mut wanted = m;
    ended(&mut wanted, 0x80, 0x03, 0);
    let reply = c.turn(&mut m, &mut out, report(0));
    shows(reply, Answer::Sent(64), 0x02F3, true)
        & slots(reply, 0, 1)
        & same(&m, &wanted)
        & same(&out, &expected)
}

// 32: "all reads see earlier writes of the call, even where buffers overlap rings". The first eight bytes of the frame make the next slot owned, with 100 bytes at 100h.
fn next_given() -> bool {
    let mut m = [0; 8192];
    let c = started(&mut m, 0x8000, 0x2000, 0);
    descriptor(&mut m, 0x40, 0x48, 0x80, minus(8));
    descriptor(&mut m, 0x48, 0x200, 0x00, minus(64));
    let f = frame_to::<100>(*b"\x00\x01\x00\x80\x9c\xff", 32);
    let mut wanted = m;
    let (first, rest) = f.split_at(8);
    copy(&mut wanted, 0x48, first);
    wanted[0x43] = 0x02;
    copy(&mut wanted, 0x100, rest);
    ended(&mut wanted, 0x48, 0x01, 100);
    let reply = c.arrive(&mut m, &f, 0);
    shows(reply, Answer::Received, 0x04F3, true) & slots(reply, 0, 0) & same(&m, &wanted)
}

// 32: the same the other way: the frame's fourth byte, 01h, takes OWN from the next slot, and the frame is cut.
fn next_taken() -> bool {
    let mut m = [0; 8192];
    let c = started(&mut m, 0, 0x2000, 0);
    descriptor(&mut m, 0x40, 0x48, 0x80, minus(8));
    descriptor(&mut m, 0x48, 0x200, 0x80, minus(200));
    let f = frame::<100>(33);
    let mut wanted = m;
    let (first, _) = f.split_at(8);
    copy(&mut wanted, 0x48, first);
    wanted[0x43] = 0x46;
    let reply = c.arrive(&mut m, &f, 0);
    shows(reply, Answer::Cut, 0x04F3, true) & slots(reply, 1, 0) & same(&m, &wanted)
}

// 33: "OWN clear, MISS is set, CSR112 rises by one and the answer is "missed""; "16 bits, 65,535 goes to 0".
fn missed() -> bool {
    let mut m = [0; 8192];
    let mut c = started(&mut m, 0, 0x2000, 0);
    c.missed = 65535;
    descriptor(&mut m, 0x40, 0x100, 0x7F, minus(200));
    let kept = m;
    let f = frame::<64>(34);
    let before = reads(c, 112, 65535);
    let reply = c.arrive(&mut m, &f, 0);
    let zero = shows(reply, Answer::Missed, 0x90F3, true)
        & slots(reply, 0, 0)
        & reads(reply.card, 112, 0);
    let reply = reply.card.arrive(&mut m, &f, 0);
    before
        & zero
        & shows(reply, Answer::Missed, 0x90F3, true)
        & reads(reply.card, 112, 1)
        & same(&m, &kept)
}

// 34: "a ring has 1, 2, 4, 8, 16, 32, 64 or 128 slots". 3,968 bytes fill 128 buffers of 31 and end in the last; one byte more, and the frame is cut there:
// "Not owned: the current status is ERR and BUFF". "STP is in the first only." The last slot then has this status and this last word.
fn all_slots(f: &[u8], answer: Answer, status: u8, last: u16) -> bool {
    let mut m = [0; 8192];
    block(&mut m, 0, [0x400, 0xE000], [0x80, 0]);
    let c = running(&m);
    ring(&mut m, 0x400, 128, 0x1000, 32, 31);
    let mut wanted = m;
    spread(&mut wanted, f);
    wanted[0x403] = 0x02;
    ended(&mut wanted, 0x7F8, status, last);
    let reply = c.arrive(&mut m, f, 0);
    shows(reply, answer, 0x04F3, true) & slots(reply, 0, 0) & same(&m, &wanted)
}

// What the 128 full buffers hold of a frame, each slot being released with status 0.
fn spread(m: &mut Memory, f: &[u8]) {
    let (slots, _) = m.as_chunks_mut::<8>();
    for slot in slots.iter_mut().skip(0x400 / 8).take(128) {
        slot[3] = 0;
    }
    let (buffers, _) = m.as_chunks_mut::<32>();
    let (pieces, _) = f.as_chunks::<31>();
    for (buffer, piece) in buffers.iter_mut().skip(0x1000 / 32).zip(pieces) {
        buffer[..31].copy_from_slice(piece);
    }
}
