// The card's registers: CSR0 and what happens to it, the registers that are written, and the table of all.
#![tactic(auto)]

mod control;
mod table;
mod writing;

pub use table::{is_locked, is_nowhere, is_only_read};

// The bits of CSR0.
const CSR0_ERR: u16 = 0x8000;

pub const BABL: u16 = 0x4000;

pub const CERR: u16 = 0x2000;

pub const MISS: u16 = 0x1000;

pub const MERR: u16 = 0x0800;

pub const RINT: u16 = 0x0400;

pub const TINT: u16 = 0x0200;

pub const IDON: u16 = 0x0100;

const INTR: u16 = 0x0080;

pub const IENA: u16 = 0x0040;

pub const RXON: u16 = 0x0020;

pub const TXON: u16 = 0x0010;

pub const TDMD: u16 = 0x0008;

pub const STOP: u16 = 0x0004;

pub const STRT: u16 = 0x0002;

pub const INIT: u16 = 0x0001;

// MODE's bits that keep the receiver and the transmitter off.
const DTX: u16 = 0x0002;

const DRX: u16 = 0x0001;

// Offsets from the card's base.
// Numbers and no enum: C passes them, and `Card::read` and `Card::write` answer for every number.
pub const RDP: u32 = 0x10;

pub const RAP: u32 = 0x12;

pub const RESET: u32 = 0x14;

// RAP's own row in the table: no CSR has this number.
// A number and no enum: `keep` is public, and takes a row by the number that RAP selects.
pub const SELECT: u16 = 128;

// The bits of CSR0 but ERR and INTR, which follow from the others.
// Flags, since each is set and cleared by itself: one enum for all fourteen is no plainer.
#[derive(Clone, Copy, PartialEq, Eq)]
pub struct Csr0 {
    pub babl: bool,
    pub cerr: bool,
    pub miss: bool,
    pub merr: bool,
    pub rint: bool,
    pub tint: bool,
    pub idon: bool,
    pub iena: bool,
    pub rxon: bool,
    pub txon: bool,
    pub tdmd: bool,
    pub stop: bool,
    pub strt: bool,
    pub init: bool,
}

// The registers that are written, but for CSR0.
#[derive(Clone, Copy, PartialEq, Eq)]
pub struct Written {
    pub rap: u16,
    pub csr1: u16,
    pub csr2: u16,
    pub csr3: u16,
}
