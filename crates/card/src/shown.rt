// What each register shows.
ghost use Rattle.std.specs.Prelude.{◌≡◌, ◌≤◌};
ghost use Rattle.card.specs.Registers.{control_word, station_word, base_word, counter_word, other_word, register_word};

use crate::Card;
use bus::joined;

// The chip's ID, in CSR88.
const CHIP: u16 = 0x3003;

impl Card {
    // CSR0 to CSR3.
    #[tactic(auto, unfolding(crate::specs::Registers::control_word))]
    fn control_word(self, r: u16) -> u16
        ensures { result ≡ control_word self r }
    {
        match r {
            0 => self.csr0.word(self.written.csr3),
            1 => self.written.csr1,
            2 => self.written.csr2,
            _ => self.written.csr3,
        }
    }

    // CSR8 to CSR15.
    #[tactic(auto, unfolding(crate::specs::Registers::station_word))]
    fn station_word(self, r: u16) -> u16
        requires { (8 ≤ r) × (r ≤ 15) }
        ensures { result ≡ station_word self r }
    {
        let k = r as usize;
        match k {
            8..=11 => self.filter[k - 8],
            12..=14 => joined(self.address[2 * (k - 12)], self.address[2 * (k - 12) + 1]),
            _ => self.mode,
        }
    }

    // CSR24, 25, 30 and 31.
    // A row for each register here and below, as document 01 lists them: the two rings stand in turn.
    #[tactic(auto, unfolding(crate::specs::Registers::base_word))]
    fn base_word(self, r: u16) -> u16
        ensures { result ≡ base_word self r }
    {
        match r {
            24 => (self.receive.base % 65536) as u16,
            25 => (self.receive.base / 65536) as u16,
            30 => (self.transmit.base % 65536) as u16,
            _ => (self.transmit.base / 65536) as u16,
        }
    }

    // CSR72, 74, 76 and 78.
    #[tactic(auto, unfolding(crate::specs::Registers::counter_word))]
    fn counter_word(self, r: u16) -> u16
        ensures { result ≡ counter_word self r }
    {
        match r {
            72 => self.receive.slot_shown(self.receive.slot).0,
            74 => self.transmit.slot_shown(self.transmit.slot).0,
            76 => self.receive.length_shown().0,
            _ => self.transmit.length_shown().0,
        }
    }

    // CSR88, 89 and 112.
    #[tactic(auto, unfolding(crate::specs::Registers::other_word))]
    fn other_word(self, r: u16) -> u16
        ensures { result ≡ other_word self r }
    {
        match r {
            88 => CHIP,
            112 => self.missed,
            _ => 0,
        }
    }

    // What a register that there is shows.
    #[tactic(auto, unfolding(crate::specs::Registers::register_word))]
    pub(crate) fn register_word(self, r: u16) -> u16
        ensures { result ≡ register_word self r }
    {
        match r {
            0..=7 => self.control_word(r),
            8..=15 => self.station_word(r),
            16..=31 => self.base_word(r),
            32..=79 => self.counter_word(r),
            _ => self.other_word(r),
        }
    }
}
