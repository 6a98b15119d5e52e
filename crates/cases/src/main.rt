// Runs the forty cases of docs/CASES.md and prints how many were run and how many came out wrong. Each case is to be read by itself beside
// that page, so cases that are alike are spelled out all the same.
#![tactic(auto)]

mod bytes;
mod cards;
mod edges;
mod receiving;
mod refusals;
mod sending;
mod table;

use std::io;
use tally::Tally;

// Runs all cases and prints the tally.
fn main(rt: HostRuntime) -> io::Result<()> {
    let t = table::run(Tally::none());
    let t = refusals::run(t);
    let t = edges::run(t);
    let t = receiving::run(t);
    let t = sending::run(t);
    println!(rt; "cases {t}")
}
