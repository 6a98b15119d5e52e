// Cases 14 to 21: a call for each refusal number but 1, with state, memory and outgoing slice kept and the line that of the kept state.
// 1 asks for more memory than a program can lend here; the checks in C run it.
use crate::bytes::{Memory, descriptor, frame, minus};
use crate::cards::{flagged, fresh, is, moved, refused, report, selected, shows, started, written};
use answers::Answer;
use card::Card;
use tally::{Tally, same};

// Cases 14 to 21.
pub fn run(t: Tally) -> Tally {
    t.with(unsound())
        .with(long_frame())
        .with(extra_bits())
        .with(short_slice())
        .with(bad_report())
        .with(locked())
        .with(no_register())
        .with(only_reads())
}

// A running card that has received a frame, so that its line is high, and owns the next slot of each ring.
fn ringing(m: &mut Memory) -> Card {
    let c = started(m, 0, 0x2000, 0x2000);
    descriptor(m, 0x40, 0x100, 0x80, minus(100));
    descriptor(m, 0x48, 0x200, 0x80, minus(100));
    descriptor(m, 0x80, 0x300, 0x83, minus(60));
    c.arrive(m, &frame::<64>(11), 0).card
}

// 14: "9: .. not the block of a sound state"; "A state that comes by value is tested for this too"; "with 9 it is reported low".
// Slot 2 does not lie in a ring of two. All else that could be refused is wrong too, and 9 comes first.
fn unsound() -> bool {
    let mut m = [0; 8192];
    let c = moved(ringing(&mut m), 2);
    let kept = m;
    let f = [0; 4096];
    let mut out = [0xEE; 4099];
    let same_out = out;
    let read = refused(c.read(0x11), 9, c, false) & refused(c.read(0x14), 9, c, false);
    let wrote = refused(c.write(&m, 0x11, 0), 9, c, false);
    let arrived = refused(c.arrive(&mut m, &f, 8), 9, c, false);
    let turned = refused(c.turn(&mut m, &mut out, flagged(6)), 9, c, false);
    let reply = c.reset();
    read & wrote
        & arrived
        & turned
        & shows(reply, Answer::Done(0), 0x0004, false)
        & same(&m, &kept)
        & same(&out, &same_out)
}

// 15: "2: frame above 4,095 bytes", before 3 and before "off". 4,095 bytes are not refused.
fn long_frame() -> bool {
    let mut m = [0; 8192];
    let c = ringing(&mut m);
    let kept = m;
    let f = [0; 4096];
    let high = refused(c.arrive(&mut m, &f, 8), 2, c, true);
    let off = refused(fresh().arrive(&mut m, &f, 0), 2, fresh(), false);
    let reply = fresh().arrive(&mut m, &f[..4095], 0);
    high & off & shows(reply, Answer::Off, 0x0004, false) & same(&m, &kept)
}

// 16: "3: extra bits above 7", before "runt". 7 are not refused, 256 are.
fn extra_bits() -> bool {
    let mut m = [0; 8192];
    let c = ringing(&mut m);
    let kept = m;
    let f = frame::<63>(12);
    let eight = refused(c.arrive(&mut m, &f, 8), 3, c, true);
    let many = refused(c.arrive(&mut m, &f, 256), 3, c, true);
    let reply = c.arrive(&mut m, &f, 7);
    eight & many & shows(reply, Answer::Runt, 0x04F3, true) & same(&m, &kept)
}

// 17: "4: outgoing slice under 4,100 bytes", before 5 and before "off". 4,100 bytes are not refused.
fn short_slice() -> bool {
    let mut m = [0; 8192];
    let c = ringing(&mut m);
    let kept = m;
    let mut short = [0xEE; 4099];
    let same_short = short;
    let mut out = [0xEE; 4100];
    let same_out = out;
    let high = refused(c.turn(&mut m, &mut short, report(6)), 4, c, true);
    let off = refused(
        fresh().turn(&mut m, &mut short, report(0)),
        4,
        fresh(),
        false,
    );
    let reply = fresh().turn(&mut m, &mut out, report(0));
    high & off
        & shows(reply, Answer::Off, 0x0004, false)
        & same(&m, &kept)
        & same(&short, &same_short)
        & same(&out, &same_out)
}

// 18: "5: wire report above 5", before "off". 5 is not refused, 65,536 is.
fn bad_report() -> bool {
    let mut m = [0; 8192];
    let c = ringing(&mut m);
    let kept = m;
    let mut out = [0xEE; 4100];
    let same_out = out;
    let six = refused(c.turn(&mut m, &mut out, report(6)), 5, c, true);
    let wide = refused(c.turn(&mut m, &mut out, report(65536)), 5, c, true);
    let reply = fresh().turn(&mut m, &mut out, report(5));
    six & wide & shows(reply, Answer::Off, 0x0004, false) & same(&m, &kept) & same(&out, &same_out)
}

// Whether a read and a write of a CSR are both refused, the line being high.
fn both_refused(c: Card, r: u16, read: u8, write: u8) -> bool {
    let c = selected(c, r);
    refused(c.read(0x10), read, c, true) & refused(c.write(&[0], 0x10, 0xFFFF), write, c, true)
}

// 19: "6: register locked, STOP being clear", before 8. "All but 0, 88, 89, 112 are locked while STOP is clear."
fn locked() -> bool {
    let mut m = [0; 8192];
    let c = ringing(&mut m);
    [1, 3, 8, 72].iter().all(|r| both_refused(c, *r, 6, 6))
}

// Whether there is nothing at an offset.
fn nothing_at(c: Card, offset: u32) -> bool {
    refused(c.read(offset), 7, c, true) & refused(c.write(&[0], offset, 0x0004), 7, c, true)
}

// 20: "7: no such offset or register", before 6. "word accesses only: 10h RDP, 12h RAP, 14h reset".
fn no_register() -> bool {
    let mut m = [0; 8192];
    let c = ringing(&mut m);
    let offsets = [0x0F, 0x11, 0x15, 0x16, 0x10010];
    offsets.iter().all(|offset| nothing_at(c, *offset))
        & [4, 127].iter().all(|r| both_refused(c, *r, 7, 7))
}

// Whether a CSR reads but a write to it is refused with 8.
fn reads_only(c: Card, r: u16, v: u16, line: bool) -> bool {
    let c = selected(c, r);
    is(c.read(0x10), Answer::Done(v)) & refused(c.write(&[0], 0x10, 0xFFFF), 8, c, line)
}

// 21: "8: write to a register that only reads", with STOP set, and with STOP clear for the three that are never locked.
fn only_reads() -> bool {
    let mut m = [0; 8192];
    let c = ringing(&mut m);
    let reply = written(c, &m, 0, 0x0004);
    let stopped = reply.card;
    let running = [(88, 0x3003), (89, 0), (112, 0)];
    let stopping = [(8, 0), (12, 0x6002), (72, 0xFFFF), (112, 0)];
    running.iter().all(|(r, v)| reads_only(c, *r, *v, true))
        & stopping
            .iter()
            .all(|(r, v)| reads_only(stopped, *r, *v, false))
}
