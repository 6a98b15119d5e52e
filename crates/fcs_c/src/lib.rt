// The frame check sequence for programs in C and Rust: the functions of the crate fcs under names that a program links.
// A slice is passed as a pointer and a length.
#![tactic(auto)]

ghost use Rattle.std.specs.Prelude.{◌≡◌, ◌<◌};
ghost use Rattle.fcs.specs.Fcs.{fcs_of, right_fcs, hash_of};

// The FCS of some bytes.
#[unsafe(no_mangle)]
pub extern "C" fn am79c960_fcs(bytes: &[u8]) -> u32
    ensures { result ≡ fcs_of bytes.now }
{
    fcs::fcs_of(bytes)
}

// Whether the last four bytes of a frame are the FCS of what stands before.
#[unsafe(no_mangle)]
pub extern "C" fn am79c960_right_fcs(frame: &[u8]) -> bool
    ensures { result ≡ right_fcs frame.now }
{
    fcs::right_fcs(frame)
}

// The bit of the logical address filter that an address selects.
#[unsafe(no_mangle)]
pub extern "C" fn am79c960_hash(address: &[u8]) -> u8
    ensures { (result ≡ hash_of address.now) × (result < 64) }
{
    fcs::hash_of(address)
}
