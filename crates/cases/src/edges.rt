// Cases 22 to 30: the edges that document 01 names.
use crate::bytes::{copy, descriptor, ended, fill, frame, handed_out, lent, minus};
use crate::cards::{begin, report, shows, slots, started};
use answers::Answer;
use tally::{Tally, same};

// Cases 22 to 30.
pub fn run(t: Tally) -> Tally {
    t.with(bytes_63())
        .with(bytes_64())
        .with(as_long())
        .with(one_longer())
        .with(one_slot())
        .with(no_memory())
        .with(receive_end() & transmit_end())
        .with(goes_out(1514, 1518, 0x02F3))
        .with(goes_out(1515, 1519, 0xC2F3))
}

// 22: "under 64 bytes, "runt"". "None of these changes anything."
fn bytes_63() -> bool {
    let mut m = [0; 8192];
    let c = started(&mut m, 0, 0x2000, 0);
    descriptor(&mut m, 0x40, 0x100, 0x80, minus(200));
    let kept = m;
    let f = frame::<63>(20);
    let reply = c.arrive(&mut m, &f, 0);
    shows(reply, Answer::Runt, 0x0073, false) & (reply.card == c) & same(&m, &kept)
}

// 23: 64 bytes are no runt, and "FF-FF-FF-FF-FF-FF passes if bit 14 (DRCVBC) is clear". The frame is spelled out with its FCS, which zlib gives too.
fn bytes_64() -> bool {
    let mut m = [0; 8192];
    let c = started(&mut m, 0, 0x2000, 0);
    descriptor(&mut m, 0x40, 0x100, 0x80, minus(200));
    let f =
        b"\xff\xff\xff\xff\xff\xff\x00\x00\x00\x04\x14\x13\x08\x00\x45\x00\x00\x2e\x00\x00\x00\x00\x40\x11\x7a\xc0\x00\x00\x00\x00\xff\xff\xff\xff\x00\x00\x50\xda\x00\x12\x00\x00BBBBBBBBBBBBBBBBBB\x9b\xf6\xd0\xfd";
    let mut wanted = m;
    ended(&mut wanted, 0x40, 0x03, 64);
    copy(&mut wanted, 0x100, f);
    let reply = c.arrive(&mut m, f, 0);
    shows(reply, Answer::Received, 0x04F3, true) & slots(reply, 1, 0) & same(&m, &wanted)
}

// 24: a frame as long as its buffer: "If the frame ends, status is ENP and MCNT the whole length". The next slot, not owned, plays no part.
fn as_long() -> bool {
    let mut m = [0; 8192];
    let c = started(&mut m, 0, 0x2000, 0);
    descriptor(&mut m, 0x40, 0x100, 0x80, minus(200));
    let f = frame::<200>(21);
    let mut wanted = m;
    ended(&mut wanted, 0x40, 0x03, 200);
    copy(&mut wanted, 0x100, &f);
    let reply = c.arrive(&mut m, &f, 0);
    shows(reply, Answer::Received, 0x04F3, true) & slots(reply, 1, 0) & same(&m, &wanted)
}

// 25: a frame one longer: "Owned: the current one is released without ERR or ENP, and the walk goes on."
fn one_longer() -> bool {
    let mut m = [0; 8192];
    let c = started(&mut m, 0, 0x2000, 0);
    descriptor(&mut m, 0x40, 0x100, 0x80, minus(200));
    descriptor(&mut m, 0x48, 0x200, 0x80, minus(200));
    let f = frame::<201>(22);
    let mut wanted = m;
    wanted[0x43] = 0x02;
    ended(&mut wanted, 0x48, 0x01, 201);
    let (first, rest) = f.split_at(200);
    copy(&mut wanted, 0x100, first);
    copy(&mut wanted, 0x200, rest);
    let reply = c.arrive(&mut m, &f, 0);
    shows(reply, Answer::Received, 0x04F3, true) & slots(reply, 0, 0) & same(&m, &wanted)
}

// 26: one-slot ring: "The next slot counts as not owned when the frame has used as many slots as the ring has."
fn one_slot() -> bool {
    let mut m = [0; 8192];
    let c = started(&mut m, 0, 0, 0);
    descriptor(&mut m, 0x40, 0x100, 0x80, minus(200));
    let f = frame::<201>(23);
    let mut wanted = m;
    wanted[0x43] = 0x46;
    let (first, _) = f.split_at(200);
    copy(&mut wanted, 0x100, first);
    let reply = c.arrive(&mut m, &f, 0);
    shows(reply, Answer::Cut, 0x04F3, true) & slots(reply, 0, 0) & same(&m, &wanted)
}

// 27: memory of 0 bytes: "an address outside the lent memory stands for the missing DMA acknowledge"; MERR "always clears RXON and TXON".
fn no_memory() -> bool {
    let mut m = [0; 8192];
    let c = started(&mut m, 0, 0x2000, 0x2000);
    descriptor(&mut m, 0x40, 0x100, 0x80, minus(200));
    descriptor(&mut m, 0x80, 0x200, 0x83, minus(200));
    let kept = m;
    let f = frame::<64>(24);
    let mut out = [0xEE; 4100];
    let same_out = out;
    let reply = begin(&m[..0], 0x0041);
    let initialized = shows(reply, Answer::Done(0), 0x88C1, true);
    let reply = c.arrive(&mut m[..0], &f, 0);
    let arrived = shows(reply, Answer::Memory, 0x88C3, true) & slots(reply, 0, 0);
    let reply = c.turn(&mut m[..0], &mut out, report(0));
    let turned = shows(reply, Answer::Memory, 0x88C3, true) & slots(reply, 0, 0);
    initialized & arrived & turned & same(&m, &kept) & same(&out, &same_out)
}

// 28: "buffer not wholly inside, MERR". A buffer that ends on the last byte takes the frame; one past it, nothing.
fn receive_end() -> bool {
    let mut m = [0; 8192];
    let c = started(&mut m, 0, 0x2000, 0);
    descriptor(&mut m, 0x40, 824, 0x80, minus(200));
    descriptor(&mut m, 0x48, 825, 0x80, minus(200));
    let f = frame::<64>(25);
    let mut wanted = m;
    ended(&mut wanted, 0x40, 0x03, 64);
    copy(&mut wanted, 824, &f);
    let reply = c.arrive(lent(&mut m, 1024), &f, 0);
    let inside = shows(reply, Answer::Received, 0x04F3, true)
        & slots(reply, 1, 0)
        & same(&m, &wanted);
    let reply = reply.card.arrive(lent(&mut m, 1024), &f, 0);
    inside & shows(reply, Answer::Memory, 0x8CC3, true) & slots(reply, 1, 0) & same(&m, &wanted)
}

// 28: "buffer outside, MERR"; "On MERR the frame's first slot stays current". The same for a frame that is sent.
fn transmit_end() -> bool {
    let mut m = [0; 8192];
    fill(&mut m, 26);
    let c = started(&mut m, 0, 0, 0x2000);
    descriptor(&mut m, 0x80, 824, 0x83, minus(200));
    descriptor(&mut m, 0x88, 825, 0x83, minus(200));
    let mut out = [0xEE; 4100];
    let expected = handed_out::<4100>(&m[824..1024]);
    let mut wanted = m;
    ended(&mut wanted, 0x80, 0x03, 0);
    let reply = c.turn(lent(&mut m, 1024), &mut out, report(0));
    let inside = shows(reply, Answer::Sent(204), 0x02F3, true)
        & slots(reply, 0, 1)
        & same(&m, &wanted);
    let reply = reply.card.turn(lent(&mut m, 1024), &mut out, report(0));
    inside
        & shows(reply, Answer::Memory, 0x8AC3, true)
        & slots(reply, 0, 1)
        & same(&m, &wanted)
        & same(&out, &expected)
}

// 29 and 30: "1,519 bytes or more handed out, FCS counted, set BABL". `data` bytes of memory go out as `length` bytes.
fn goes_out(data: u16, length: u16, csr0: u16) -> bool {
    let mut m = [0; 8192];
    fill(&mut m, 27);
    let c = started(&mut m, 0, 0, 0x2000);
    descriptor(&mut m, 0x80, 0x100, 0x83, minus(data));
    let Some(sent) = m[0x100..].get(..usize::from(data)) else {
        return false;
    };
    let expected = handed_out::<4200>(sent);
    let mut out = [0xEE; 4200];
    let mut wanted = m;
    ended(&mut wanted, 0x80, 0x03, 0);
    let reply = c.turn(&mut m, &mut out, report(0));
    shows(reply, Answer::Sent(length), csr0, true)
        & slots(reply, 0, 1)
        & same(&m, &wanted)
        & same(&out, &expected)
}
