// A frame's way through the receive ring.
#![tactic(auto)]

ghost use Rattle.std.specs.Prelude.{◌≡◌, ◌-◌, ◌≤◌, ◌<◌, ℕ, suc, length};
ghost use Rattle.std.specs.ControlFlow.{ForContinue};
ghost use Rattle.bus.specs.Bus.{Bus, run};
ghost use Rattle.ring.specs.Slots.{slots};
ghost use Rattle.ring.specs.Status.{STP};
ghost use Rattle.receive.specs.Status.{end_status};
ghost use Rattle.receive.specs.Walk.{status, leave, cut, ended, walk};
ghost use Rattle.receive.specs.Inner.Ends.{stops_at, ending_of};

use ring::{Descriptor, ENP, ERR, Found, Ring, STP, Slot};
use std::ops::ControlFlow;

// The bits that only a receive status has.
const FRAM: u8 = 0x20;

const CRC: u8 = 0x08;

const BUFF: u8 = 0x04;

// How a walk ends.
#[derive(Clone, Copy)]
pub enum Ending {
    Memory,
    Missed,
    Received,
    Cut,
}

// How a walk ended, and the slot that is current then.
#[derive(Clone, Copy)]
pub struct Walked {
    pub ending: Ending,
    pub slot: Slot,
}

// A walk at a slot that the card owns: its ring, the whole frame and the status where that ends, without STP; the slot, its
// descriptor, what went into no buffer yet, and STP in the first slot.
#[derive(Clone, Copy)]
struct Current<'a> {
    ring: Ring,
    frame: &'a [u8],
    end: u8,
    slot: Slot,
    descriptor: Descriptor,
    rest: &'a [u8],
    // The bit and no flag: a status adds it.
    stp: u8,
    ghost ends_released: { end < 128 },
    ghost only_stp: { stp ≤ STP },
}

// Each asks `Fits`. Tried: a struct that holds the memory too, with that as its fact. The proof didn't close: a method that writes through
// such a struct is not covered.
impl<'a> Current<'a> {
    ghost use Rattle.receive.specs.Inner.Step.{Fits, onward, remaining, taken, passed};

    // The slot takes a status.
    #[tactic(auto, using(crate::proofs::Leaving::status_is))]
    fn status(&self, memory: &mut [u8], bits: u8)
        requires { Fits (length memory.old) self.now }
        ensures { run (status self.now.ring self.now.slot bits) memory.old ≡ record { answer = tt; memory = memory.new } }
    {
        let at = self.ring.place(self.slot);
        memory[at + 3] = bits;
    }

    // The slot takes a status, and the walk ends.
    #[tactic(auto, using(crate::proofs::Leaving::leave_is))]
    fn leave(&self, memory: &mut [u8], bits: u8, ending: Ending) -> Walked
        requires { Fits (length memory.old) self.now }
        ensures { run (leave self.now.ring self.now.slot bits ending) memory.old ≡ record { answer = result; memory = memory.new } }
    {
        self.status(memory, bits);
        Walked {
            ending,
            slot: self.ring.next(self.slot),
        }
    }

    // The frame is cut at the slot.
    #[tactic(auto, unfolding(crate::specs::Walk::cut))]
    fn cut(&self, memory: &mut [u8]) -> Walked
        requires { Fits (length memory.old) self.now }
        ensures { run (cut self.now.ring self.now.slot self.now.stp) memory.old ≡ record { answer = result; memory = memory.new } }
    {
        self.leave(memory, self.stp + ERR + BUFF, Ending::Cut)
    }

    // The frame ends at the slot.
    #[tactic(auto, using(crate::proofs::Leaving::ended_is))]
    fn ended(&self, memory: &mut [u8]) -> Walked
        requires { Fits (length memory.old) self.now }
        ensures { run (ended self.now.ring (length self.now.frame.now) self.now.end self.now.slot self.now.stp) memory.old ≡ record { answer = result; memory = memory.new } }
    {
        let at = self.ring.place(self.slot);
        bus::put_word(memory, at + 6, (self.frame.len() % 65536) as u16);
        self.leave(memory, self.stp + self.end, Ending::Received)
    }

    // The walk ends at the slot, since the next one is outside the memory or not owned.
    #[tactic(auto, using(crate::proofs::Leaving::stop_outside, crate::proofs::Leaving::stop_other))]
    fn stops_at(&self, memory: &mut [u8], found: Found) -> Walked
        requires { Fits (length memory.old) self.now }
        ensures { run (stops_at self.now.ring self.now.slot self.now.stp found) memory.old ≡ record { answer = result; memory = memory.new } }
    {
        match found {
            Found::Outside => self.leave(memory, self.stp, Ending::Memory),
            _ => self.cut(memory),
        }
    }

    // The slot's buffer takes what fits of the frame, which ends there or not.
    #[tactic(auto, using(crate::proofs::Filling::taken_outside, crate::proofs::Filling::taken_ends, crate::proofs::Filling::taken_goes))]
    fn takes(&self, memory: &mut [u8]) -> ControlFlow<Walked>
        requires { Fits (length memory.old) self.now }
        ensures same_run { (otherwise : Bus Walked) → run (taken (length memory.old) self.now otherwise) memory.old ≡ run (onward result (λ _. otherwise)) memory.new }
        ensures more { ForContinue result (λ _. self.now.descriptor.count < length self.now.rest.now) }
    {
        let at = self.descriptor.address as usize;
        let count = self.descriptor.count as usize;
        if memory.len() < at + count {
            return ControlFlow::Break(Walked {
                ending: Ending::Memory,
                slot: self.slot,
            });
        }
        let fits = count.min(self.rest.len());
        bus::copy_bytes(self.rest, 0, fits, memory, at);
        if self.rest.len() <= count {
            return ControlFlow::Break(self.ended(memory));
        }
        ControlFlow::Continue(())
    }

    // The frame goes beyond the slot: the next one is read.
    #[tactic(auto, using(crate::proofs::Leaving::next_stops, bus::proofs::Run::run_done), unfolding(crate::specs::Inner::Step::onward))]
    fn beyond(&self, memory: &mut [u8]) -> ControlFlow<Walked, Self>
        requires { Fits (length memory.old) self.now × (self.now.descriptor.count ≤ length self.now.rest.now) }
        ensures same_run { (left : ℕ) → run (passed (length memory.old) left self.now) memory.old ≡ run (onward result (remaining (length memory.old) left)) memory.new }
        ensures fits { ForContinue result (Fits (length memory.old)) }
    {
        let slot = self.ring.next(self.slot);
        let found = ring::look(memory, self.ring, slot);
        let Found::Owned(descriptor) = found else {
            return ControlFlow::Break(self.stops_at(memory, found));
        };
        self.status(memory, self.stp);
        let rest = &self.rest[self.descriptor.count as usize..];
        ControlFlow::Continue(Self {
            ring: self.ring,
            frame: self.frame,
            end: self.end,
            slot,
            descriptor,
            rest,
            stp: 0,
        })
    }

    // The slot is filled, and the walk is over or at the next slot.
    #[tactic(auto, using(crate::proofs::Filling::slot_over))]
    fn fill_slot(&self, memory: &mut [u8]) -> ControlFlow<Walked, Self>
        requires { Fits (length memory.old) self.now }
        ensures same_run { (left : ℕ) → run (remaining (length memory.old) (suc left) self.now) memory.old ≡ run (onward result (remaining (length memory.old) left)) memory.new }
        ensures fits { ForContinue result (Fits (length memory.old)) }
    {
        self.takes(memory)?;
        self.beyond(memory)
    }

    // The walk from an owned slot on.
    fn fill(&self, memory: &mut [u8]) -> Walked
        requires { Fits (length memory.old) self.now }
        ensures { run (remaining (length memory.old) (slots self.now.ring - 1) self.now) memory.old ≡ record { answer = result; memory = memory.new } }
    {
        let mut current = *self;
        // each slot that the frame may use but the last, which has no next one for it
        for _ in 1..self.ring.slots() {
            match current.fill_slot(memory) {
                ControlFlow::Break(walked) => return walked,
                ControlFlow::Continue(next) => current = next,
            }
        }
        match current.takes(memory) {
            ControlFlow::Break(walked) => walked,
            ControlFlow::Continue(()) => current.cut(memory),
        }
    }
}

// The status of the slot where the frame ends, without STP.
#[tactic(auto, using(crate::proofs::EndStatus::end_extra), unfolding(crate::specs::Status::end_status))]
fn end_status(right: bool, extra: u32) -> u8
    ensures { (result ≡ end_status right extra) × (result < 128) }
{
    match (right, extra) {
        (true, 0) => ENP,
        (true, _) => ENP + ERR + FRAM,
        (false, 0) => ENP + ERR + CRC,
        (false, _) => ENP + ERR + CRC + FRAM,
    }
}

// How a walk ends whose first slot is outside the memory or not owned.
// No `From`: an owned slot is no end.
#[tactic(auto, using(crate::proofs::Begins::ends_outside, crate::proofs::Begins::ends_other))]
fn ending_of(found: Found) -> Ending
    ensures { result ≡ ending_of found }
{
    match found {
        Found::Outside => Ending::Memory,
        _ => Ending::Missed,
    }
}

// A frame's way through the ring, from its current slot on.
// `right` and `extra` apart from the frame: the definition takes only the status that they make.
// Memory and ring come apart, since the caller lends the one and the card has the other.
pub fn walk(memory: &mut [u8], ring: Ring, frame: &[u8], right: bool, extra: u32) -> Walked
    ensures { run (walk (length memory.old) ring frame.now (end_status right extra)) memory.old ≡ record { answer = result; memory = memory.new } }
{
    let slot = ring.slot;
    let found = ring::look(memory, ring, slot);
    let Found::Owned(descriptor) = found else {
        let ending = ending_of(found);
        return Walked { ending, slot };
    };
    let first = Current {
        ring,
        frame,
        end: end_status(right, extra),
        slot,
        descriptor,
        rest: frame,
        stp: STP,
    };
    first.fill(memory)
}
