// The act "transmit turn".
#![tactic(auto, unfolding(crate::specs::Computed::computed_turning, answers::specs::Refusals::unless), using(crate::proofs::Answering::leaves_empty, answers::proofs::Tests::slice_long))]

ghost use Rattle.std.specs.Prelude.{◌≡◌, ◌≤◌, length};
ghost use Rattle.bus.specs.Bus.{run, leaves};
ghost use Rattle.card.specs.Turning.{turned, take_turn, turn_if_on, turn_refusal, turning};

use crate::{Card, Reply};
use answers::{Answer, Refusal};
use ring::Slot;
use transmit::{Outcome, Report};

impl Card {
    // What a turn on the ring leaves.
    // Slot and outcome apart, as the definition has them.
    fn turned(self, noheartbeat: bool, slot: Slot, outcome: Outcome) -> Reply
        ensures { result ≡ turned self noheartbeat slot outcome }
    {
        let event = answers::turn_event(noheartbeat, outcome);
        self.happened(event, self.receive, self.transmit.moved(slot))
            .replied(event.answer)
    }

    // A turn on the ring.
    // The slice's length is asked here and below as `transmit::turn` asks it: the slice may be longer, so it is no array.
    fn take_turn(self, memory: &mut [u8], out: &mut [u8], report: Report) -> Reply
        requires { 4100 ≤ length out.old }
        ensures { leaves (run (take_turn self (length memory.old) report) memory.old) out.old ≡ record { answer = result; memory = memory.new; out = out.new } }
    {
        let turned = transmit::turn(memory, self.transmit, self.mode, report, out);
        self.turned(report.noheartbeat, turned.slot, turned.outcome)
    }

    // A turn that nothing refuses.
    fn turn_if_on(self, memory: &mut [u8], out: &mut [u8], report: Report) -> Reply
        requires { 4100 ≤ length out.old }
        ensures { leaves (run (turn_if_on self (length memory.old) report) memory.old) out.old ≡ record { answer = result; memory = memory.new; out = out.new } }
    {
        if !self.csr0.txon {
            return self.replied(Answer::Off);
        }
        self.take_turn(memory, out, report)
    }

    // Whether a turn is refused, by the number of the report as the C interface gives it.
    fn turn_refusal(self, size: usize, out: usize, report: u32) -> Result<(), Refusal>
        ensures { result ≡ turn_refusal self size out report }
    {
        answers::turn_tests(self.is_sound(), size, out, report)
    }

    // The act "transmit turn".
    pub fn turn(self, memory: &mut [u8], out: &mut [u8], report: Report) -> Reply
        ensures { leaves (run (turning self (length memory.old) (length out.old) report) memory.old) out.old ≡ record { answer = result; memory = memory.new; out = out.new } }
    {
        match self.turn_refusal(memory.len(), out.len(), report.result) {
            Ok(()) => self.turn_if_on(memory, out, report),
            Err(refusal) => self.refused(refusal),
        }
    }
}
