// The acts on registers: reset, read and write.
#![tactic(auto, unfolding(crate::specs::Computed::computed_acts, answers::specs::Refusals::unless), using(bus::proofs::Run::ways))]

ghost use Rattle.std.specs.Prelude.{◌≡◌, length};
ghost use Rattle.bus.specs.Bus.{run};
ghost use Rattle.card.specs.Acts.{resetting, read_at, read_refusal, reading, write_register, write_at, write_refusal, writing};

use crate::{Card, Reply};
use answers::{Answer, Refusal};
use registers::{RAP, RDP, RESET, SELECT};

impl Card {
    // The act "reset".
    pub fn reset(self) -> Reply
        ensures { result ≡ resetting }
    {
        Card::fresh().replied(Answer::Done(0))
    }

    // A read that nothing refuses.
    fn read_at(self, offset: u32) -> Reply
        ensures { result ≡ read_at self offset }
    {
        let rap = self.written.rap;
        match offset {
            RESET => self.reset(),
            RAP => self.replied(Answer::Done(rap)),
            _ => self.replied(Answer::Done(self.register_word(rap))),
        }
    }

    // Whether a read is refused.
    fn read_refusal(self, offset: u32) -> Result<(), Refusal>
        ensures { result ≡ read_refusal self offset }
    {
        let rap = self.written.rap;
        let nowhere = registers::is_nowhere(rap, offset);
        let locked = registers::is_locked(self.csr0.stop, rap, offset);
        answers::read_tests(self.is_sound(), nowhere, locked)
    }

    // The act "register read".
    // The same match stands in the four acts: a method that takes the act as a closure would need its bus program beside it.
    pub fn read(self, offset: u32) -> Reply
        ensures { result ≡ reading self offset }
    {
        match self.read_refusal(offset) {
            Ok(()) => self.read_at(offset),
            Err(refusal) => self.refused(refusal),
        }
    }

    // A write behind RDP.
    fn write_register(self, memory: &[u8], v: u16) -> Card
        ensures { run (write_register self (length memory.now) v) memory.now ≡ record { answer = result; memory = memory.now } }
    {
        let rap = self.written.rap;
        if rap == 0 {
            return self.write_csr0(memory, v);
        }
        self.with_written(self.written.keep(rap, v))
    }

    // A write that nothing refuses.
    fn write_at(self, memory: &[u8], offset: u32, v: u16) -> Card
        ensures { run (write_at self (length memory.now) offset v) memory.now ≡ record { answer = result; memory = memory.now } }
    {
        match offset {
            RDP => self.write_register(memory, v),
            RAP => self.with_written(self.written.keep(SELECT, v)),
            _ => self,
        }
    }

    // Whether a write is refused.
    // Two tests are those of a read: the table lists them again, since a write has others around them.
    fn write_refusal(self, size: usize, offset: u32) -> Result<(), Refusal>
        ensures { result ≡ write_refusal self size offset }
    {
        let rap = self.written.rap;
        let nowhere = registers::is_nowhere(rap, offset);
        let locked = registers::is_locked(self.csr0.stop, rap, offset);
        let only = registers::is_only_read(rap, offset);
        answers::write_tests(self.is_sound(), size, nowhere, locked, only)
    }

    // The act "register write".
    #[tactic(auto, unfolding(crate::specs::Acts::writing, answers::specs::Refusals::unless), using(bus::proofs::Run::run_gives, crate::proofs::Answering::wrote))]
    pub fn write(self, memory: &[u8], offset: u32, v: u16) -> Reply
        ensures { run (writing self (length memory.now) offset v) memory.now ≡ record { answer = result; memory = memory.now } }
    {
        match self.write_refusal(memory.len(), offset) {
            Ok(()) => self.write_at(memory, offset, v).replied(Answer::Done(0)),
            Err(refusal) => self.refused(refusal),
        }
    }
}
