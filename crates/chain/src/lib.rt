// The start of a frame in a transmit ring, and the chain of its descriptors.
// A memory and a ring stay two parameters: `ring::look` and `transmit::turn` take them so, and a struct of both would be made at each.
#![tactic(auto)]

ghost use Rattle.std.specs.Prelude.{◌≡◌, ◌-◌, ◌<◌, length};
ghost use Rattle.std.specs.declared.ops.ControlFlow.TheVariants.{Continue};
ghost use Rattle.bus.specs.Bus.{run};
ghost use Rattle.ring.specs.Slots.{slots};
ghost use Rattle.chain.specs.Start.{pass};
ghost use Rattle.chain.specs.Chain.{over, grow, link, links, read_chain};
ghost use Rattle.chain.specs.Inner.Bounds.{Counted, Within};

use ring::{Descriptor, ENP, Found, OWN, Ring, STP, Slot, look};
use std::ops::ControlFlow;

// The most bytes that a chain may have.
const MOST: u16 = 4096;

// What a turn finds where a frame should start.
// Three ends, each with its slot: an Option or a Result would need an enum of two inside, and `Found` would call a ring that was passed not owned.
#[derive(Clone, Copy)]
pub enum Start {
    NoMemory(Slot),
    Nothing(Slot),
    Frame(Slot, Descriptor),
}

// How far a chain was read: the slot after it, its slots and its bytes.
#[derive(Clone, Copy)]
pub struct Reach {
    pub slot: Slot,
    pub slots: u32,
    pub total: u16,
}

// How a chain ends: with ENP, outside memory, at a slot that isn't the card's, or with too many bytes.
// Four ends that `transmit` tells apart: a Result would need an enum of the last three inside.
#[derive(Clone, Copy)]
pub enum Close {
    Whole,
    Memory,
    Short,
    Long,
}

// A chain that was read.
#[derive(Clone, Copy)]
pub struct Closed {
    pub close: Close,
    pub reach: Reach,
}

impl Reach {
    // A chain that is over, and how.
    fn over(self, close: Close) -> ControlFlow<Closed, Reach>
        ensures { result ≡ over close self }
    {
        ControlFlow::Break(Closed { close, reach: self })
    }
}

// Slots are passed to where a frame starts, from the current one on.
// No iterator over a ring's slots: it would be a type with laws of its own, for this loop and two in `transmit`.
pub fn pass(memory: &mut [u8], ring: Ring) -> Start
    ensures { run (pass (length memory.old) ring (slots ring) ring.slot) memory.old ≡ record { answer = result; memory = memory.new } }
{
    let mut i = ring.slot;
    for _ in 0..ring.slots() {
        match look(memory, ring, i) {
            Found::Outside => return Start::NoMemory(i),
            Found::NotOwned => return Start::Nothing(i),
            Found::Owned(d) => {
                let stp = d.status / STP % 2;
                if stp == 1 {
                    return Start::Frame(i, d);
                }
                let at = ring.place(i);
                memory[at + 3] = d.status % OWN;
                i = ring.next(i);
            }
        }
    }
    Start::Nothing(i)
}

// A chain grows by an owned descriptor, in a memory of n bytes: it goes on, or it is over.
// `Within` is no invariant of Reach: a chain that is over may have more bytes, and a type of those that go on would be its twin.
// `Counted` is asked here as `read_chain` asks it, whose contract may not change.
#[tactic(auto, unfolding(crate::specs::Chain::grow, crate::specs::Chain::further))]
fn grow(n: usize, ring: Ring, d: Descriptor, reach: Reach) -> ControlFlow<Closed, Reach>
    requires counted { Counted d }
    requires within { Within reach }
    ensures { result ≡ grow n ring d reach }
{
    let end = d.address as usize + d.count as usize;
    let further = Reach {
        slot: ring.next(reach.slot),
        slots: reach.slots + 1,
        total: reach.total + d.count,
    };
    if n < end {
        return reach.over(Close::Memory);
    }
    if MOST < further.total {
        return further.over(Close::Long);
    }
    let enp = d.status / ENP % 2;
    if enp == 1 {
        return further.over(Close::Whole);
    }
    ControlFlow::Continue(further)
}

// One slot more of an open chain.
fn link(memory: &[u8], ring: Ring, reach: Reach) -> ControlFlow<Closed, Reach>
    requires { Within reach }
    ensures { run (link (length memory.now) ring (Continue reach)) memory.now ≡ record { answer = result; memory = memory.now } }
{
    match look(memory, ring, reach.slot) {
        Found::Outside => reach.over(Close::Memory),
        Found::NotOwned => reach.over(Close::Short),
        Found::Owned(d) => grow(memory.len(), ring, d, reach),
    }
}

// At most k slots more of an open chain: each half by itself, so that no call is as deep as the chain is long.
fn links(memory: &[u8], ring: Ring, k: u32, reach: Reach) -> ControlFlow<Closed, Reach>
    requires { Within reach }
    ensures { run (links (length memory.now) ring k (Continue reach)) memory.now ≡ record { answer = result; memory = memory.now } }
{
    if k == 0 {
        return ControlFlow::Continue(reach);
    }
    if k == 1 {
        return link(memory, ring, reach);
    }
    let half = k / 2;
    let first = links(memory, ring, half, reach)?;
    links(memory, ring, k - half, first)
}

// How far a chain goes on from its start, or how it is over, by the first slot's descriptor and the slots after it.
#[tactic(auto, using(crate::proofs::Chains::grow_bounds, crate::proofs::Chains::links_over))]
fn follow(memory: &[u8], ring: Ring, d: Descriptor, start: Reach) -> ControlFlow<Closed, Reach>
    requires counted { Counted d }
    requires within { Within start }
    requires some_slots { 0 < slots ring }
    ensures { run (links (length memory.now) ring (slots ring - 1) (grow (length memory.now) ring d start)) memory.now ≡ record { answer = result; memory = memory.now } }
{
    let first = grow(memory.len(), ring, d, start)?;
    links(memory, ring, ring.slots() - 1, first)
}

// The chain from its first slot, whose descriptor was read.
pub fn read_chain(memory: &[u8], ring: Ring, slot: Slot, d: Descriptor) -> Closed
    requires counted { Counted d }
    requires some_slots { 0 < slots ring }
    ensures { run (read_chain (length memory.now) ring slot d) memory.now ≡ record { answer = result; memory = memory.now } }
{
    let start = Reach {
        slot,
        slots: 0,
        total: 0,
    };
    match follow(memory, ring, d, start) {
        ControlFlow::Continue(reach) => Closed {
            close: Close::Short,
            reach,
        },
        ControlFlow::Break(closed) => closed,
    }
}
