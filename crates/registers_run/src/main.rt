// Compares every register number, and the offsets around 10h, 12h and 14h, with a table written from document 01 by hand,
// and prints how many accesses were compared and how many came out wrong.
#![tactic(auto)]

mod accesses;
mod cards;
mod offsets;
mod table;

use std::io;
use tally::Tally;

// Compares with STOP set and with STOP clear, and prints the tally.
fn main(rt: HostRuntime) -> io::Result<()> {
    let mut t = Tally::none();
    let cards = [cards::stopped(), cards::running()];
    for c in cards {
        t = accesses::run(t, c);
    }
    for c in cards {
        t = offsets::run(t, c);
    }
    println!(rt; "registers {t}")
}
