// Cases 35 to 40: turns over chains.
use crate::bytes::{copy, descriptor, ended, fill, handed_out, minus};
use crate::cards::{flagged, is, report, shows, slots, started, written};
use answers::Answer;
use tally::{Tally, same};
use transmit::Report;

// Cases 35 to 40.
pub fn run(t: Tally) -> Tally {
    t.with(total_4096())
        .with(total_4097())
        .with(whole_ring())
        .with(endless() & not_owned())
        .with(no_start())
        .with(drty())
}

// 35: a total of 4,096 is not "above 4,096": with its FCS it fills the outgoing slice. "All other slots of either chain lose OWN only."
fn total_4096() -> bool {
    let mut m = [0; 8192];
    fill(&mut m, 40);
    let c = started(&mut m, 0, 0, 0x2000);
    descriptor(&mut m, 0x80, 0x100, 0x82, minus(2048));
    descriptor(&mut m, 0x88, 0x900, 0x81, minus(2048));
    let mut out = [0xEE; 4100];
    let expected = handed_out::<4100>(&m[0x100..0x1100]);
    let mut wanted = m;
    wanted[0x83] = 0x02;
    ended(&mut wanted, 0x88, 0x01, 0);
    let reply = c.turn(&mut m, &mut out, report(0));
    shows(reply, Answer::Sent(4100), 0xC2F3, true)
        & slots(reply, 0, 0)
        & same(&m, &wanted)
        & same(&out, &expected)
}

// 36: "total above 4,096, underflow here (ruled)": "there OWN, MORE, ONE and DEF become 0, ERR is set, and TMD3 is UFLO". "It clears TXON and hands nothing out."
fn total_4097() -> bool {
    let mut m = [0; 8192];
    let c = started(&mut m, 0, 0, 0x4000);
    descriptor(&mut m, 0x80, 0x100, 0x82, minus(2048));
    descriptor(&mut m, 0x88, 0x900, 0xBD, minus(2049));
    descriptor(&mut m, 0x90, 0x100, 0x83, minus(60));
    let mut out = [0xEE; 4100];
    let expected = out;
    let mut wanted = m;
    wanted[0x83] = 0x02;
    ended(&mut wanted, 0x88, 0x61, 0x4000);
    let reply = c.turn(&mut m, &mut out, flagged(0));
    let under = shows(reply, Answer::Underflow, 0x02E3, true) & slots(reply, 0, 2);
    let reply = reply.card.turn(&mut m, &mut out, report(0));
    under & shows(reply, Answer::Off, 0x02E3, true) & same(&m, &wanted) & same(&out, &expected)
}

// 37: a chain over the whole ring that ends in ENP. "The FCS is appended if ADD_FCS is set in the first descriptor or DXMTFCS (MODE bit 3) is clear." "A later STP is ignored." "No heartbeat sets CERR".
fn whole_ring() -> bool {
    let mut m = [0; 8192];
    fill(&mut m, 41);
    let c = started(&mut m, 0x0008, 0, 0x4000);
    descriptor(&mut m, 0x80, 0x100, 0xA2, minus(30));
    descriptor(&mut m, 0x88, 0x200, 0x80, minus(31));
    descriptor(&mut m, 0x90, 0x280, 0xD2, minus(32));
    descriptor(&mut m, 0x98, 0x300, 0xDD, minus(33));
    let mut out = [0xEE; 8192];
    let mut data = [0; 126];
    copy(&mut data, 0, &m[0x100..0x11E]);
    copy(&mut data, 30, &m[0x200..0x21F]);
    copy(&mut data, 61, &m[0x280..0x2A0]);
    copy(&mut data, 93, &m[0x300..0x321]);
    let expected = handed_out::<8192>(&data);
    let mut wanted = m;
    wanted[0x83] = 0x22;
    wanted[0x8B] = 0x00;
    wanted[0x93] = 0x52;
    ended(&mut wanted, 0x98, 0x11, 0);
    let no_heartbeat = Report {
        noheartbeat: true,
        ..report(2)
    };
    let reply = c.turn(&mut m, &mut out, no_heartbeat);
    shows(reply, Answer::Sent(130), 0xA2F3, true)
        & slots(reply, 0, 0)
        & same(&m, &wanted)
        & same(&out, &expected)
}

// 38: a chain over the whole ring without ENP: "ring used up, underflow at the slot before", with UFLO and BUFF.
fn endless() -> bool {
    let mut m = [0; 8192];
    let c = started(&mut m, 0, 0, 0x4000);
    descriptor(&mut m, 0x80, 0x100, 0x82, minus(30));
    descriptor(&mut m, 0x88, 0x200, 0x80, minus(30));
    descriptor(&mut m, 0x90, 0x280, 0x80, minus(30));
    descriptor(&mut m, 0x98, 0x300, 0x9C, minus(30));
    let mut out = [0xEE; 4100];
    let expected = out;
    let mut wanted = m;
    wanted[0x83] = 0x02;
    wanted[0x8B] = 0x00;
    wanted[0x93] = 0x00;
    ended(&mut wanted, 0x98, 0x40, 0xC000);
    let reply = c.turn(&mut m, &mut out, report(0));
    let under = shows(reply, Answer::Underflow, 0x02E3, true) & slots(reply, 0, 0);
    let reply = reply.card.turn(&mut m, &mut out, report(0));
    under & is(reply, Answer::Off) & same(&m, &wanted) & same(&out, &expected)
}

// 38: "OWN clear .. underflow at the slot before"; "The slot after the chain, underflow included, is current"; "STRT after STOP alone goes on at the current slots".
fn not_owned() -> bool {
    let mut m = [0; 8192];
    let c = started(&mut m, 0, 0, 0x4000);
    descriptor(&mut m, 0x80, 0x100, 0xA2, minus(30));
    descriptor(&mut m, 0x88, 0xFFFF, 0x7F, minus(30));
    let mut out = [0xEE; 4100];
    let mut wanted = m;
    ended(&mut wanted, 0x80, 0x62, 0xC000);
    let reply = c.turn(&mut m, &mut out, report(0));
    let under = shows(reply, Answer::Underflow, 0x02E3, true)
        & slots(reply, 0, 1)
        & same(&m, &wanted);
    let reply = written(reply.card, &m, 0, 0x0004);
    let reply = written(reply.card, &m, 0, 0x0042);
    let again = shows(reply, Answer::Done(0), 0x0072, false) & slots(reply, 0, 1);
    let reply = reply.card.turn(&mut m, &mut out, report(0));
    under
        & again
        & shows(reply, Answer::Idle, 0x0072, false)
        & slots(reply, 0, 1)
        & same(&m, &wanted)
}

// 39: "An owned descriptor without STP where a frame should start has only OWN cleared and is passed." "Not owned: "idle"." "Otherwise TDMD is cleared."
fn no_start() -> bool {
    let mut m = [0; 8192];
    let c = started(&mut m, 0, 0, 0x4000);
    descriptor(&mut m, 0x80, 0x100, 0x80, minus(30));
    descriptor(&mut m, 0x88, 0xFFFF, 0x81, minus(30));
    descriptor(&mut m, 0x90, 0x280, 0xFD, minus(30));
    descriptor(&mut m, 0x98, 0x300, 0x90, minus(30));
    let mut out = [0xEE; 4100];
    let expected = out;
    let mut wanted = m;
    wanted[0x83] = 0x00;
    wanted[0x8B] = 0x01;
    wanted[0x93] = 0x7D;
    wanted[0x9B] = 0x10;
    let reply = written(c, &m, 0, 0x0048);
    let asked = shows(reply, Answer::Done(0), 0x007B, false);
    let reply = reply.card.turn(&mut m, &mut out, report(0));
    asked
        & shows(reply, Answer::Idle, 0x0073, false)
        & slots(reply, 0, 0)
        & same(&m, &wanted)
        & same(&out, &expected)
}

// 40: "With DRTY (MODE bit 5) reports 1 and 2 mean 3." Report 0 still goes out, deferred: DEF is set.
fn drty() -> bool {
    let mut m = [0; 8192];
    fill(&mut m, 42);
    let c = started(&mut m, 0x0020, 0, 0x4000);
    descriptor(&mut m, 0x80, 0x100, 0x83, minus(60));
    descriptor(&mut m, 0x88, 0x100, 0x83, minus(60));
    descriptor(&mut m, 0x90, 0x200, 0x83, minus(60));
    let mut out = [0xEE; 4100];
    let expected = out;
    let mut wanted = m;
    ended(&mut wanted, 0x80, 0x43, 0x0400);
    let reply = c.turn(&mut m, &mut out, flagged(1));
    let one = shows(reply, Answer::Failed, 0x02F3, true) & slots(reply, 0, 1) & same(&m, &wanted);
    ended(&mut wanted, 0x88, 0x43, 0x0400);
    let reply = reply.card.turn(&mut m, &mut out, flagged(2));
    let more = shows(reply, Answer::Failed, 0x02F3, true)
        & slots(reply, 0, 2)
        & same(&m, &wanted)
        & same(&out, &expected);
    ended(&mut wanted, 0x90, 0x07, 0);
    let expected = handed_out::<4100>(&m[0x200..0x23C]);
    let deferred = Report {
        deferred: true,
        ..report(0)
    };
    let reply = reply.card.turn(&mut m, &mut out, deferred);
    one & more
        & shows(reply, Answer::Sent(64), 0x02F3, true)
        & slots(reply, 0, 3)
        & same(&m, &wanted)
        & same(&out, &expected)
}
