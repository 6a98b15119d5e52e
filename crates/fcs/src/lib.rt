// The frame check sequence of IEEE 802.3: bytes in, number out.
#![tactic(auto)]

ghost use Rattle.std.specs.Prelude.{◌≡◌, ◌<◌};
ghost use Rattle.fcs.specs.Fcs.{register_of, fcs_of, right_fcs, hash_of};

mod fold;
mod table;

use crate::fold::Waiting;
use crate::table::Table;

// The register over some bytes: the last five words of eight bytes, and the bytes that fill none, are not folded.
#[tactic(auto, using(crate::proofs::Long::by_words), unfolding(crate::specs::Fcs::register_of))]
pub fn register_of(bytes: &[u8]) -> u32
    ensures { result ≡ register_of bytes.now }
{
    let table = Table::new();
    let (words, rest) = bytes.as_chunks::<8>();
    match words.split_last_chunk::<5>() {
        Some((far, near)) => Waiting::after(far).finish(&table, near, rest),
        None => table.over(bytes, 0xFFFFFFFF),
    }
}

// The FCS of some bytes.
#[tactic(auto, unfolding(crate::specs::Fcs::fcs_of))]
pub fn fcs_of(bytes: &[u8]) -> u32
    ensures { result ≡ fcs_of bytes.now }
{
    0xFFFFFFFF - register_of(bytes)
}

// Whether a frame ends in the FCS of what stands before.
#[tactic(auto, using(crate::proofs::Frames::too_short, crate::proofs::Frames::long_enough))]
pub fn right_fcs(frame: &[u8]) -> bool
    ensures { result ≡ right_fcs frame.now }
{
    match frame.split_last_chunk::<4>() {
        Some((before, fcs)) => u32::from_le_bytes(*fcs) == fcs_of(before),
        None => false,
    }
}

// The hash of an address.
#[tactic(auto, unfolding(crate::specs::Fcs::hash_of))]
pub fn hash_of(address: &[u8]) -> u8
    ensures { (result ≡ hash_of address.now) × (result < 64) }
{
    (register_of(address) / 0x4000000) as u8
}
