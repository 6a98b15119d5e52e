// A transmit turn on a ring in lent memory.
#![tactic(auto)]

ghost use Rattle.std.specs.Prelude.{◌≡◌, ◌+◌, ◌-◌, ◌≤◌, ◌<◌, not, length, take};
ghost use Rattle.fcs.specs.Fcs.{fcs_of};
ghost use Rattle.bus.specs.Words.{bytes_of, overwritten};
ghost use Rattle.bus.specs.Bus.{run, leaves};
ghost use Rattle.ring.specs.Slots.{place};
ghost use Rattle.chain.specs.Inner.Laid.{buffer, buffers, Inside, Laid, Given, Sendable, Ready};
ghost use Rattle.transmit.specs.Report.{meant, stays, hands_out, reported, reported_tmd3};
ghost use Rattle.transmit.specs.Turn.{with_fcs, release, finish, give_back, send, ending, turn};

use bus::bit;
use chain::{Close, Reach, Start};
use ring::{ERR, OWN, Ring, Slot};

// Bits that only a transmit status has.
const ADD_FCS: u8 = 0x20;

const MORE: u8 = 0x10;

const ONE: u8 = 0x08;

const DEF: u8 = 0x04;

// Bits of TMD3.
const TMD3_BUFF: u16 = 0x8000;

const UFLO: u16 = 0x4000;

const LCOL: u16 = 0x1000;

const LCAR: u16 = 0x0800;

const RTRY: u16 = 0x0400;

// Bits of MODE that a turn asks.
const DRTY: u16 = 0x0020;

const DXMTFCS: u16 = 0x0008;

// The most bytes that are handed out: 4,096 of a chain, and the FCS.
pub const ROOM: usize = 4100;

// What the wire says of a frame: 0 sent, 1 one retry, 2 more, 3 retry failure, 4 late collision, 5 lost carrier; and two flags.
// `result` stays a number: `turn` answers for every one, as for the 6 and 65,536 of the cases, and an enum would need a kind that no wire says.
#[derive(Clone, Copy)]
pub struct Report {
    pub result: u32,
    pub deferred: bool,
    pub noheartbeat: bool,
}

// What a turn comes to.
// Five ends of one rank: to `answers` none of them is an error, as four would be in a Result.
#[derive(Clone, Copy)]
pub enum Outcome {
    Idle,
    OutOfMemory,
    Underflow,
    Failed,
    Sent(u16),
}

// What a turn came to, and the slot that is current then.
// Not one type with `receive::Walked`: the definitions of either act name its own field.
#[derive(Clone, Copy)]
pub struct Turned {
    pub outcome: Outcome,
    pub slot: Slot,
}

// A frame to send: its ring and first slot, how far its chain was read, and whether its FCS is appended.
#[derive(Clone, Copy)]
struct Outgoing {
    ring: Ring,
    first: Slot,
    reach: Reach,
    append: bool,
}

// What a wire report means with DRTY.
#[tactic(auto, unfolding(crate::specs::Report::meant))]
fn meant(mode: u16, report: Report) -> Report
    ensures { result ≡ meant mode report }
{
    let drty = bit(mode, DRTY);
    match report.result {
        1 | 2 if drty => Report {
            result: 3,
            ..report
        },
        _ => report,
    }
}

// What stays of a chain's last status.
#[tactic(auto, unfolding(crate::specs::Report::stays))]
fn stays(status: u8) -> u8
    ensures { (result ≡ stays status) × (result ≤ 35) }
{
    status / ADD_FCS % 2 * ADD_FCS + status % 4
}

// Whether a wire report hands the frame out.
fn hands_out(report: Report) -> bool
    ensures { result ≡ hands_out report }
{
    !matches!(report.result, 3 | 4)
}

// What a wire report leaves in the last status.
#[tactic(auto, unfolding(crate::specs::Report::reported, bus::specs::Bits::weigh))]
fn reported(report: Report) -> u8
    ensures { (result ≡ reported report) × (result < 128) }
{
    let def = if report.deferred { DEF } else { 0 };
    match report.result {
        0 => def,
        1 => ONE + def,
        2 => MORE + def,
        3 | 4 => ERR,
        _ => ERR + def,
    }
}

// What a wire report leaves in TMD3.
#[tactic(auto, unfolding(crate::specs::Report::reported_tmd3, bus::specs::Bits::weigh))]
fn reported_tmd3(report: Report) -> u16
    ensures { result ≡ reported_tmd3 report }
{
    match report.result {
        3 => RTRY,
        4 => LCOL,
        5 => LCAR,
        _ => 0,
    }
}

// The FCS of the slice's first n bytes is written behind them.
// A place in the slice and no slice of it: this clause and that of `hand_out` speak of the whole.
#[tactic(auto, using(crate::proofs::Frames::fcs_written))]
fn append_fcs(out: &mut [u8], n: usize)
    requires { n + 4 ≤ length out.old }
    ensures { out.new ≡ overwritten out.old n (bytes_of 4 (fcs_of (take n out.old))) }
{
    let x = fcs::fcs_of(&out[..n]);
    bus::put_double(out, n, x);
}

impl Outgoing {
    // A slot's buffer is copied into the slice: the place after it there.
    // A place, as `bus::copy_bytes` takes it.
    fn copy_buffer(self, memory: &[u8], slot: Slot, out: &mut [u8], at: usize) -> usize
        requires inside { Inside memory.now self.ring slot }
        requires room { at + length (buffer memory.now self.ring slot) ≤ length out.old }
        ensures { (result ≡ at + length (buffer memory.now self.ring slot)) × (out.new ≡ overwritten out.old at (buffer memory.now self.ring slot)) }
    {
        let d = ring::described(memory, self.ring.place(slot));
        let from = d.address as usize;
        let count = d.count as usize;
        bus::copy_bytes(memory, from, count, out, at);
        at + count
    }

    // The chain's buffers are copied into the slice, one after the other: the number of their bytes.
    // No iterator over slots here and in `release`: `chain::pass` says why.
    fn gather(self, memory: &[u8], out: &mut [u8]) -> usize
        requires laid { Laid memory.now self.ring self.reach.slots self.first }
        requires room { length (buffers memory.now self.ring self.reach.slots self.first) ≤ length out.old }
        ensures { (result ≡ length (buffers memory.now self.ring self.reach.slots self.first)) × (out.new ≡ overwritten out.old 0 (buffers memory.now self.ring self.reach.slots self.first)) }
    {
        let mut i = self.first;
        let mut at = 0;
        for _ in 0..self.reach.slots {
            at = self.copy_buffer(memory, i, out, at);
            i = self.ring.next(i);
        }
        at
    }

    // The frame fills the slice from its start: its length.
    fn hand_out(self, memory: &[u8], out: &mut [u8; ROOM]) -> u16
        requires { Sendable memory.now self.ring self.reach.slots self.first }
        ensures { (result ≡ length (with_fcs self.append (buffers memory.now self.ring self.reach.slots self.first))) × (out.new ≡ overwritten out.old 0 (with_fcs self.append (buffers memory.now self.ring self.reach.slots self.first))) }
    {
        let n = self.gather(memory, out);
        if self.append {
            append_fcs(out, n);
            return (n + 4) as u16;
        }
        n as u16
    }

    // All slots of the chain but its last lose OWN: the last.
    fn release(self, memory: &mut [u8]) -> Slot
        requires { Given memory.old self.ring self.reach.slots self.first }
        ensures { run (release self.ring (self.reach.slots - 1) self.first) memory.old ≡ record { answer = result; memory = memory.new } }
    {
        let mut i = self.first;
        for _ in 1..self.reach.slots {
            let at = self.ring.place(i);
            memory[at + 3] %= OWN;
            i = self.ring.next(i);
        }
        i
    }

    // The chain's last slot gets TMD3 and what its status says, and loses OWN.
    #[tactic(auto, using(crate::proofs::Releasing::finished))]
    fn finish(self, memory: &mut [u8], says: u8, tmd3: u16, last: Slot)
        requires last_inside { place self.ring last + 8 ≤ length memory.old }
        requires says_small { says < 128 }
        ensures { run (finish self.ring says tmd3 last) memory.old ≡ record { answer = tt; memory = memory.new } }
    {
        let at = self.ring.place(last);
        let status = stays(memory[at + 3]);
        bus::put_word(memory, at + 6, tmd3);
        memory[at + 3] = status + says;
    }

    // The chain is given back.
    fn give_back(self, memory: &mut [u8], says: u8, tmd3: u16)
        requires given { Given memory.old self.ring self.reach.slots self.first }
        requires says_small { says < 128 }
        ensures { run (give_back self.ring says tmd3 self.reach.slots self.first) memory.old ≡ record { answer = tt; memory = memory.new } }
    {
        let last = self.release(memory);
        self.finish(memory, says, tmd3, last);
    }

    // The chain is whole, and sent with a wire report.
    fn send(self, memory: &mut [u8], report: Report, out: &mut [u8; ROOM]) -> Turned
        requires { Sendable memory.old self.ring self.reach.slots self.first }
        ensures { leaves (run (send self.ring report self.append self.first self.reach) memory.old) out.old ≡ record { answer = result; memory = memory.new; out = out.new } }
    {
        let outcome = if hands_out(report) {
            Outcome::Sent(self.hand_out(memory, out))
        } else {
            Outcome::Failed
        };
        self.give_back(memory, reported(report), reported_tmd3(report));
        Turned {
            outcome,
            slot: self.reach.slot,
        }
    }

    // The chain is sent, or given up, by how it ends. `long` is what `turn` needs to know of the slice's type.
    fn ending(self, memory: &mut [u8], report: Report, close: Close, out: &mut [u8; ROOM]) -> Turned
        requires { Ready memory.old self.ring self.reach.slots self.first close }
        ensures left { leaves (run (ending self.ring report self.append self.first close self.reach) memory.old) out.old ≡ record { answer = result; memory = memory.new; out = out.new } }
        ensures long { length out.new ≡ 4100 }
    {
        let tmd3 = match close {
            Close::Whole => return self.send(memory, report, out),
            Close::Memory => {
                return Turned {
                    outcome: Outcome::OutOfMemory,
                    slot: self.first,
                };
            }
            Close::Short => UFLO + TMD3_BUFF,
            Close::Long => UFLO,
        };
        self.give_back(memory, ERR, tmd3);
        Turned {
            outcome: Outcome::Underflow,
            slot: self.reach.slot,
        }
    }
}

// A transmit turn from the ring's current slot on, by MODE and the wire report.
// Memory and ring come apart, as at `receive::walk`: one memory holds both rings.
// `out` stays a slice here, as its contract may not change and the C interface lends one of any length; within, its front is an array.
pub fn turn(memory: &mut [u8], ring: Ring, mode: u16, report: Report, out: &mut [u8]) -> Turned
    requires { 4100 ≤ length out.old }
    ensures { leaves (run (turn (length memory.old) ring mode report) memory.old) out.old ≡ record { answer = result; memory = memory.new; out = out.new } }
{
    let meaning = meant(mode, report);
    match chain::pass(memory, ring) {
        Start::NoMemory(slot) => Turned {
            outcome: Outcome::OutOfMemory,
            slot,
        },
        Start::Nothing(slot) => Turned {
            outcome: Outcome::Idle,
            slot,
        },
        Start::Frame(first, d) => {
            let read = chain::read_chain(memory, ring, first, d);
            // Tried: `bus::bit` for MODE here too. The proof didn't close: `turn_frame` doesn't take the flag from a call.
            let append = (d.status / ADD_FCS % 2 == 1) | !(mode / DXMTFCS % 2 == 1);
            let frame = Outgoing {
                ring,
                first,
                reach: read.reach,
                append,
            };
            let room = out.first_chunk_mut().unwrap();
            frame.ending(memory, meaning, read.close, room)
        }
    }
}
