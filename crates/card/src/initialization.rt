// The initialization block, and the write to CSR0 that reads it.
ghost use Rattle.std.specs.Prelude.{◌≡◌, ◌+◌, ◌≤◌, ◌<◌, length};
ghost use Rattle.bus.specs.Bus.{run};
ghost use Rattle.card.specs.Initialization.{block_address, succeeded, failed, initialization, init_if_asked, write_csr0};

use crate::state::six_bytes;
use crate::{Card, Tried};
use bus::bit;
use registers::{Csr0, IDON, INIT, MERR, RXON, STOP, TXON};
use ring::Ring;

impl Card {
    // Where the initialization block stands.
    #[tactic(auto, unfolding(crate::specs::Initialization::block_address))]
    fn block_address(self) -> usize
        ensures { (result ≡ block_address self) × (result < 0x100000000) }
    {
        (self.written.csr1 / 2 * 2) as usize + 65536 * (self.written.csr2 as usize)
    }

    // An initialization that succeeds takes the block apart.
    #[tactic(auto, unfolding(crate::specs::State::with, crate::specs::State::state_of, crate::specs::Initialization::loaded_from, crate::specs::Initialization::succeeded))]
    fn succeeded(self, words: [u16; 12]) -> Card
        ensures { result ≡ succeeded self words }
    {
        let [mode, a, b, c, f0, f1, f2, f3, r0, r1, t0, t1] = words;
        Card {
            csr0: self.csr0.changed(IDON + INIT, STOP),
            initialized: true,
            mode,
            address: six_bytes(a, b, c),
            filter: [f0, f1, f2, f3],
            receive: Ring::from_words(r0, r1),
            transmit: Ring::from_words(t0, t1),
            ..self
        }
    }

    // An initialization that fails loads nothing.
    #[tactic(auto, unfolding(crate::specs::Initialization::failed))]
    fn failed(self) -> Card
        ensures { result ≡ failed self }
    {
        self.with_csr0(self.csr0.changed(INIT + MERR, STOP + RXON + TXON))
    }

    // The initialization.
    #[tactic(auto, using(crate::proofs::Initializing::init_fails, crate::proofs::Initializing::init_works))]
    fn initialization(self, memory: &[u8]) -> Tried
        ensures { run (initialization self (length memory.now)) memory.now ≡ record { answer = result; memory = memory.now } }
    {
        let at = self.block_address();
        if memory.len() < at + 24 {
            return Tried {
                card: self.failed(),
                ready: false,
            };
        }
        Tried {
            card: self.succeeded(bus::words_at(memory, at)),
            ready: true,
        }
    }

    // INIT of a write to CSR0.
    #[tactic(auto, using(bus::proofs::Run::ways), unfolding(crate::specs::Initialization::init_if_asked, crate::specs::Initialization::tried))]
    fn init_if_asked(self, memory: &[u8], v: u16) -> Tried
        ensures { run (init_if_asked self (length memory.now) v) memory.now ≡ record { answer = result; memory = memory.now } }
    {
        if bit(v, INIT) & self.csr0.stop {
            return self.initialization(memory);
        }
        Tried {
            card: self,
            ready: self.initialized,
        }
    }

    // A write to CSR0.
    #[tactic(auto, using(bus::proofs::Run::ways), unfolding(crate::specs::Initialization::write_csr0))]
    pub(crate) fn write_csr0(self, memory: &[u8], v: u16) -> Card
        ensures { run (write_csr0 self (length memory.now) v) memory.now ≡ record { answer = result; memory = memory.now } }
    {
        if bit(v, STOP) {
            return self.with_csr0(Csr0::stopped());
        }
        let Tried { card, ready } = self
            .with_csr0(self.csr0.cleared(v))
            .init_if_asked(memory, v);
        card.with_csr0(card.csr0.finished(card.mode, ready, v))
    }
}
