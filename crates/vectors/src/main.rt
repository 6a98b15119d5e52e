// Runs published vectors of the FCS and of the hash, and prints how many were run and how many came out wrong.
#![tactic(auto)]

mod frames;
mod hashes;
mod texts;

use std::io;
use tally::Tally;

// Runs all vectors and prints the tally.
fn main(rt: HostRuntime) -> io::Result<()> {
    let t = texts::run(Tally::none());
    let t = frames::run(t);
    let t = hashes::run(t);
    println!(rt; "vectors {t}")
}
