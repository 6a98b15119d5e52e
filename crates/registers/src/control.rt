// CSR0: its word, the interrupt line, and what an event does to it.
ghost use Rattle.std.specs.Prelude.{◌≡◌, ◌/◌, ◌&&◌, ◌||◌, not};
ghost use Rattle.bus.specs.Bits.{bit};
ghost use Rattle.registers.specs.Csr0.{err, heard, intr, line_of, word, stopped, changed, sound_csr0, csr0_of};

use crate::{
    BABL, CERR, CSR0_ERR, Csr0, IDON, IENA, INIT, INTR, MERR, MISS, RINT, RXON, STOP, STRT, TDMD,
    TINT, TXON,
};
use bus::{bit, weigh};

// Whether a cause reaches INTR, which CSR3's bit of the same position masks.
fn heard(cause: bool, csr3: u16, weight: u16) -> bool
    ensures { result ≡ heard cause (csr3 / weight) }
{
    cause & !bit(csr3, weight)
}

// A bit that was set or not, after those of `off` became 0 and those of `on` 1.
fn switched(was: bool, weight: u16, on: u16, off: u16) -> bool
    ensures { result ≡ ((was && not (bit off weight)) || bit on weight) }
{
    (was & !bit(off, weight)) | bit(on, weight)
}

impl Csr0 {
    // ERR.
    fn err(self) -> bool
        ensures { result ≡ err self }
    {
        self.babl | self.cerr | self.miss | self.merr
    }

    // INTR, with the masks of CSR3.
    #[tactic(auto, unfolding(crate::specs::Csr0::intr))]
    fn intr(self, csr3: u16) -> bool
        ensures { result ≡ intr self csr3 }
    {
        heard(self.babl, csr3, BABL)
            | heard(self.miss, csr3, MISS)
            | heard(self.merr, csr3, MERR)
            | heard(self.rint, csr3, RINT)
            | heard(self.tint, csr3, TINT)
            | heard(self.idon, csr3, IDON)
    }

    // The interrupt line.
    #[tactic(auto, unfolding(crate::specs::Csr0::line_of))]
    pub fn line_of(self, csr3: u16) -> bool
        ensures { result ≡ line_of self csr3 }
    {
        self.intr(csr3) & self.iena
    }

    // The register's word.
    // No From: the masks of CSR3 decide on INTR.
    #[tactic(auto, unfolding(crate::specs::Csr0::word))]
    pub fn word(self, csr3: u16) -> u16
        ensures { result ≡ word self csr3 }
    {
        weigh(self.err(), CSR0_ERR)
            + weigh(self.babl, BABL)
            + weigh(self.cerr, CERR)
            + weigh(self.miss, MISS)
            + weigh(self.merr, MERR)
            + weigh(self.rint, RINT)
            + weigh(self.tint, TINT)
            + weigh(self.idon, IDON)
            + weigh(self.intr(csr3), INTR)
            + weigh(self.iena, IENA)
            + weigh(self.rxon, RXON)
            + weigh(self.txon, TXON)
            + weigh(self.tdmd, TDMD)
            + weigh(self.stop, STOP)
            + weigh(self.strt, STRT)
            + weigh(self.init, INIT)
    }

    // CSR0 after reset or STOP.
    #[tactic(auto, unfolding(crate::specs::Csr0::csr0_of))]
    pub fn stopped() -> Csr0
        ensures { result ≡ stopped }
    {
        Csr0::from(STOP)
    }

    // The bits of `off` become 0, and those of `on` become 1.
    // A line a field: by way of `word` and back it would ask for CSR3 and is no plainer.
    #[tactic(auto, unfolding(crate::specs::Csr0::changed))]
    pub fn changed(self, on: u16, off: u16) -> Csr0
        ensures { result ≡ changed self on off }
    {
        Csr0 {
            babl: switched(self.babl, BABL, on, off),
            cerr: switched(self.cerr, CERR, on, off),
            miss: switched(self.miss, MISS, on, off),
            merr: switched(self.merr, MERR, on, off),
            rint: switched(self.rint, RINT, on, off),
            tint: switched(self.tint, TINT, on, off),
            idon: switched(self.idon, IDON, on, off),
            iena: switched(self.iena, IENA, on, off),
            rxon: switched(self.rxon, RXON, on, off),
            txon: switched(self.txon, TXON, on, off),
            tdmd: switched(self.tdmd, TDMD, on, off),
            stop: switched(self.stop, STOP, on, off),
            strt: switched(self.strt, STRT, on, off),
            init: switched(self.init, INIT, on, off),
        }
    }

    // Whether CSR0 is that of a sound state.
    #[tactic(auto, unfolding(crate::specs::Csr0::sound_csr0))]
    pub fn is_sound_csr0(self) -> bool
        ensures { result ≡ sound_csr0 self }
    {
        (!self.stop | (self == Csr0::stopped()))
            & (self.stop | self.strt | self.init)
            & (self.strt | !(self.rxon | self.txon | self.tdmd))
    }
}

// The bits of CSR0 in its word: a line a field, as in `changed`.
impl From<u16> for Csr0 {
    ghost from_gives = { λ w s. s ≡ csr0_of w };

    #[tactic(auto, unfolding(crate::specs::Csr0::csr0_of))]
    fn from(w: u16) -> Csr0 {
        Csr0 {
            babl: bit(w, BABL),
            cerr: bit(w, CERR),
            miss: bit(w, MISS),
            merr: bit(w, MERR),
            rint: bit(w, RINT),
            tint: bit(w, TINT),
            idon: bit(w, IDON),
            iena: bit(w, IENA),
            rxon: bit(w, RXON),
            txon: bit(w, TXON),
            tdmd: bit(w, TDMD),
            stop: bit(w, STOP),
            strt: bit(w, STRT),
            init: bit(w, INIT),
        }
    }
}
