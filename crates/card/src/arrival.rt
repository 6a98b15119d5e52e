// The act "frame arrival".
#![tactic(auto, unfolding(crate::specs::Computed::computed_arrival, crate::specs::State::with, answers::specs::Refusals::unless), using(bus::proofs::Run::ways))]

ghost use Rattle.std.specs.Prelude.{◌≡◌, ◌≤◌, length};
ghost use Rattle.bus.specs.Bus.{run};
ghost use Rattle.card.specs.Arrival.{happened, arrived, is_ours, take_in, arrival, arrive_refusal, arriving};

use crate::{Card, Reply};
use answers::{Answer, Event, Refusal};
use receive::Ending;
use ring::{Ring, Slot};

// The shortest frame that is no runt.
const SHORTEST: usize = 64;

impl Card {
    // An event, with the rings at their slots.
    pub(crate) fn happened(self, event: Event, receive: Ring, transmit: Ring) -> Card
        ensures { result ≡ happened self event receive transmit }
    {
        Card {
            csr0: self.csr0.changed(event.on, event.off),
            missed: self.missed.wrapping_add(event.missed),
            receive,
            transmit,
            ..self
        }
    }

    // What a walk through the ring leaves.
    // Slot and ending apart, as the definition has them.
    fn arrived(self, slot: Slot, ending: Ending) -> Reply
        ensures { result ≡ arrived self slot ending }
    {
        let event = answers::arrival_event(ending);
        self.happened(event, self.receive.moved(slot), self.transmit)
            .replied(event.answer)
    }

    // Whether a frame's destination is ours.
    fn is_ours(self, frame: &[u8]) -> bool
        requires { 6 ≤ length frame.now }
        ensures { result ≡ is_ours self frame.now }
    {
        let to = frame.first_chunk::<6>().unwrap();
        filter::is_ours(self.mode, self.address, self.filter, *to)
    }

    // A frame that is ours goes through the ring.
    fn take_in(self, memory: &mut [u8], frame: &[u8], extra: u32) -> Reply
        ensures { run (take_in self (length memory.old) frame.now extra) memory.old ≡ record { answer = result; memory = memory.new } }
    {
        let right = fcs::right_fcs(frame);
        let walked = receive::walk(memory, self.receive, frame, right, extra);
        self.arrived(walked.slot, walked.ending)
    }

    // An arrival that nothing refuses.
    fn arrival(self, memory: &mut [u8], frame: &[u8], extra: u32) -> Reply
        ensures { run (arrival self (length memory.old) frame.now extra) memory.old ≡ record { answer = result; memory = memory.new } }
    {
        if !self.csr0.rxon {
            return self.replied(Answer::Off);
        }
        if frame.len() < SHORTEST {
            return self.replied(Answer::Runt);
        }
        if !self.is_ours(frame) {
            return self.replied(Answer::NotOurs);
        }
        self.take_in(memory, frame, extra)
    }

    // Whether an arrival is refused.
    fn arrive_refusal(self, size: usize, frame: usize, extra: u32) -> Result<(), Refusal>
        ensures { result ≡ arrive_refusal self size frame extra }
    {
        answers::arrive_tests(self.is_sound(), size, frame, extra)
    }

    // The act "frame arrival".
    pub fn arrive(self, memory: &mut [u8], frame: &[u8], extra: u32) -> Reply
        ensures { run (arriving self (length memory.old) frame.now extra) memory.old ≡ record { answer = result; memory = memory.new } }
    {
        match self.arrive_refusal(memory.len(), frame.len(), extra) {
            Ok(()) => self.arrival(memory, frame, extra),
            Err(refusal) => self.refused(refusal),
        }
    }
}
