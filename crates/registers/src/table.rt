// The table of registers: which there are, which lock, which are written, and which bits each keeps.
ghost use Rattle.std.specs.Prelude.{◌≡◌};
ghost use Rattle.registers.specs.Table.{known, free, writable, no_register, locked, only_reads, kept, keep, settled};

use crate::{RAP, RDP, RESET, SELECT, Written};

// Whether there is such a CSR.
fn is_known(r: u16) -> bool
    ensures { result ≡ known r }
{
    matches!(r, 0..=3 | 8..=15 | 24 | 25 | 30 | 31 | 72 | 74 | 76 | 78 | 88 | 89 | 112)
}

// Whether a CSR is never locked.
fn is_free(r: u16) -> bool
    ensures { result ≡ free r }
{
    matches!(r, 0 | 88 | 89 | 112)
}

// Whether a CSR is written.
fn is_writable(r: u16) -> bool
    ensures { result ≡ writable r }
{
    matches!(r, 0..=3)
}

// Whether there is no register at an offset.
// RAP and an offset apart, here and below: the acts have them so, and RAP alone is of the state.
#[tactic(auto, unfolding(crate::specs::Table::no_register))]
pub fn is_nowhere(rap: u16, offset: u32) -> bool
    ensures { result ≡ no_register rap offset }
{
    match offset {
        RDP => !is_known(rap),
        RAP | RESET => false,
        _ => true,
    }
}

// Whether the register at an offset is locked.
#[tactic(auto, unfolding(crate::specs::Table::locked))]
pub fn is_locked(stop: bool, rap: u16, offset: u32) -> bool
    ensures { result ≡ locked stop rap offset }
{
    (offset == RDP) & !stop & !is_free(rap)
}

// Whether the register at an offset only reads.
#[tactic(auto, unfolding(crate::specs::Table::only_reads))]
pub fn is_only_read(rap: u16, offset: u32) -> bool
    ensures { result ≡ only_reads rap offset }
{
    (offset == RDP) & !is_writable(rap)
}

// What a row keeps of a word.
#[tactic(auto, unfolding(crate::specs::Table::kept))]
fn kept(r: u16, v: u16) -> u16
    ensures { result ≡ kept r v }
{
    match r {
        SELECT => v % 128,
        2 => v % 256,
        3 => v / 0x4000 % 2 * 0x4000 + v / 0x100 % 32 * 0x100,
        _ => v,
    }
}

impl Written {
    // The written registers after a write of v to row r.
    #[tactic(auto, unfolding(crate::specs::Table::keep))]
    pub fn keep(self, r: u16, v: u16) -> Written
        ensures { result ≡ keep self r v }
    {
        let k = kept(r, v);
        match r {
            SELECT => Written { rap: k, ..self },
            1 => Written { csr1: k, ..self },
            2 => Written { csr2: k, ..self },
            3 => Written { csr3: k, ..self },
            _ => self,
        }
    }

    // Whether each register has only bits that it keeps.
    #[tactic(auto, unfolding(crate::specs::Table::settled))]
    pub fn is_settled(self) -> bool
        ensures { result ≡ settled self }
    {
        (kept(SELECT, self.rap) == self.rap)
            & (kept(2, self.csr2) == self.csr2)
            & (kept(3, self.csr3) == self.csr3)
    }
}
