// A write to CSR0 without STOP, in its order.
ghost use Rattle.std.specs.Prelude.{◌≡◌};
ghost use Rattle.registers.specs.Writing.{cleared, started, enabled, demanded, finished};

use crate::{Csr0, DRX, DTX, IENA, RXON, STOP, STRT, TDMD, TXON};
use bus::{bit, weigh};

impl Csr0 {
    // The ones written in bits 14 to 8 clear those bits.
    #[tactic(auto, unfolding(crate::specs::Writing::cleared))]
    pub fn cleared(self, v: u16) -> Csr0
        ensures { result ≡ cleared self v }
    {
        self.changed(0, v % 0x8000 / 0x100 * 0x100)
    }

    // STRT of a write, where the card is ready to start.
    #[tactic(auto, unfolding(crate::specs::Writing::started))]
    fn started(self, mode: u16, ready: bool, v: u16) -> Csr0
        ensures { result ≡ started self mode ready v }
    {
        if bit(v, STRT) & !self.strt & ready {
            let receiver = weigh(!bit(mode, DRX), RXON);
            let transmitter = weigh(!bit(mode, DTX), TXON);
            self.changed(STRT + receiver + transmitter, STOP)
        } else {
            self
        }
    }

    // IENA of a write.
    #[tactic(auto, unfolding(crate::specs::Writing::enabled))]
    fn enabled(self, v: u16) -> Csr0
        ensures { result ≡ enabled self v }
    {
        let iena = weigh(bit(v, IENA) & !self.stop, IENA);
        self.changed(iena, IENA)
    }

    // TDMD of a write.
    #[tactic(auto, unfolding(crate::specs::Writing::demanded))]
    fn demanded(self, v: u16) -> Csr0
        ensures { result ≡ demanded self v }
    {
        let tdmd = weigh(bit(v, TDMD) & self.txon, TDMD);
        self.changed(tdmd, 0)
    }

    // STRT, IENA and TDMD of a write.
    #[tactic(auto, unfolding(crate::specs::Writing::finished))]
    pub fn finished(self, mode: u16, ready: bool, v: u16) -> Csr0
        ensures { result ≡ finished self mode ready v }
    {
        self.started(mode, ready, v).enabled(v).demanded(v)
    }
}
