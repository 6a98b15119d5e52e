// Rings of descriptors in lent memory: slots, counters, and reading a descriptor.
#![tactic(auto)]

ghost use Rattle.std.specs.Prelude.{◌≡◌, ◌+◌, ◌*◌, ◌≤◌, ◌<◌, length, get_or};
ghost use Rattle.bus.specs.Words.{part};
ghost use Rattle.bus.specs.Bus.{run};
ghost use Rattle.ring.specs.Slots.{slots, slot_shown, length_shown, next, place, moved, ring_words, ring_of};
ghost use Rattle.ring.specs.Loading.{none, from_words, kept_by_base, is_length, unloaded, loaded};
ghost use Rattle.ring.specs.Descriptor.{described, look};

// The bits that a status byte of either ring has.
pub const OWN: u8 = 0x80;

pub const ERR: u8 = 0x40;

pub const STP: u8 = 0x02;

pub const ENP: u8 = 0x01;

// A slot number counts from zero.
#[derive(Clone, Copy, PartialEq, Eq)]
pub struct Slot(pub u16);

// A register's counter ends at minus one.
// No From makes one of a slot: document 01 has it only by the rule that a ring states.
#[derive(Clone, Copy)]
pub struct Counter(pub u16);

// Where a ring lies, how many slots it has and which is current.
#[derive(Clone, Copy, PartialEq, Eq)]
pub struct Ring {
    pub base: u32,
    pub length: u16,
    pub slot: Slot,
}

// A buffer's address and byte count, and the status byte.
#[derive(Clone, Copy)]
pub struct Descriptor {
    pub address: u32,
    pub status: u8,
    pub count: u16,
}

// What is found at a slot.
// An enum, as document 01 wants, and no Option: outside and not owned are different things to all who look.
#[derive(Clone, Copy)]
pub enum Found {
    Outside,
    NotOwned,
    Owned(Descriptor),
}

// Whether a number of slots is one that a ring can have.
fn is_length(n: u16) -> bool
    ensures { result ≡ is_length n }
{
    matches!(n, 1 | 2 | 4 | 8 | 16 | 32 | 64 | 128)
}

// What a ring's base keeps of a number.
fn kept_by_base(b: u32) -> u32
    ensures { result ≡ kept_by_base b }
{
    b % 0x1000000 / 8 * 8
}

impl Ring {
    // A ring before initialization.
    pub fn none() -> Ring
        ensures { result ≡ none }
    {
        Ring {
            base: 0,
            length: 0,
            slot: Slot(0),
        }
    }

    // The ring that two words of the initialization block name.
    // No From: the words' bits that a base drops are lost.
    #[tactic(auto, unfolding(crate::specs::Loading::from_words))]
    pub fn from_words(low: u16, high: u16) -> Ring
        ensures { result ≡ from_words low high }
    {
        let base = (low / 8 * 8) as u32 + 65536 * ((high % 256) as u32);
        let length = 1u16 << (high / 8192);
        Ring {
            base,
            length,
            slot: Slot(0),
        }
    }

    // Whether a ring is as before initialization.
    pub fn is_unloaded(self) -> bool
        ensures { result ≡ unloaded self }
    {
        self == Ring::none()
    }

    // Whether a ring is one that an initialization can leave, at any of its slots.
    #[tactic(auto, unfolding(crate::specs::Loading::loaded))]
    pub fn is_loaded(self) -> bool
        ensures { result ≡ loaded self }
    {
        is_length(self.length)
            & ((self.slot.0 as u32) < self.slots())
            & (kept_by_base(self.base) == self.base)
    }

    // How many slots a ring has.
    #[tactic(auto, unfolding(crate::specs::Slots::slots))]
    pub fn slots(self) -> u32
        ensures { (result ≡ slots self) × (result ≤ 65536) }
    {
        self.length as u32
    }

    // The counter by which a register shows a slot.
    pub fn slot_shown(self, slot: Slot) -> Counter
        ensures { result ≡ slot_shown self slot }
    {
        Counter(((65536 - self.slots() + slot.0 as u32) % 65536) as u16)
    }

    // The counter by which a register shows a length.
    pub fn length_shown(self) -> Counter
        ensures { result ≡ length_shown self }
    {
        Counter(((65536 - self.slots()) % 65536) as u16)
    }

    // The slot after a slot.
    #[tactic(auto, unfolding(crate::specs::Slots::next))]
    pub fn next(self, slot: Slot) -> Slot
        ensures { result ≡ next self slot }
    {
        let after = slot.0 as u32 + 1;
        if after < self.slots() {
            Slot(after as u16)
        } else {
            Slot(0)
        }
    }

    // Where the descriptor of a slot stands.
    #[tactic(auto, unfolding(crate::specs::Slots::place))]
    pub fn place(self, slot: Slot) -> usize
        ensures { (result ≡ place self slot) × (result < 0x200000000) }
    {
        self.base as usize + 8 * (slot.0 as usize)
    }

    // The ring with another current slot.
    pub fn moved(self, slot: Slot) -> Ring
        ensures { result ≡ moved self slot }
    {
        Ring { slot, ..self }
    }
}

// The ring as four words: base low and high, length, slot.
impl From<Ring> for [u16; 4] {
    ghost from_gives = { λ r words. words ≡ ring_words r };

    fn from(ring: Ring) -> [u16; 4] {
        [
            (ring.base % 65536) as u16,
            (ring.base / 65536 % 65536) as u16,
            ring.length,
            ring.slot.0,
        ]
    }
}

// The ring of four words.
impl From<[u16; 4]> for Ring {
    ghost from_gives = { λ words r. r ≡ ring_of (get_or words 0 0) (get_or words 1 0) (get_or words 2 0) (get_or words 3 0) };

    fn from(words: [u16; 4]) -> Ring {
        let [low, high, length, slot] = words;
        Ring {
            base: low as u32 + 65536 * (high as u32),
            length,
            slot: Slot(slot),
        }
    }
}

// What the descriptor at a place says.
// A place and no slice of eight bytes: its clause speaks of a place in memory, as `look` and `transmit` do.
#[tactic(auto, using(crate::proofs::Finding::described_bytes))]
pub fn described(memory: &[u8], at: usize) -> Descriptor
    requires { at + 8 ≤ length memory.now }
    ensures { result ≡ described (part memory.now at 8) }
{
    Descriptor {
        address: u32::from_le_bytes([memory[at], memory[at + 1], memory[at + 2], 0]),
        status: memory[at + 3],
        count: 4096 - bus::joined(memory[at + 4], memory[at + 5]) % 4096,
    }
}

// What stands at a slot.
// Memory and ring apart: one memory holds both rings, and the card has a ring of each kind.
#[tactic(auto, using(crate::proofs::Finding::look_outside, crate::proofs::Finding::look_not_owned, crate::proofs::Finding::look_owned))]
pub fn look(memory: &[u8], ring: Ring, slot: Slot) -> Found
    ensures { run (look (length memory.now) ring slot) memory.now ≡ record { answer = result; memory = memory.now } }
{
    let at = ring.place(slot);
    if memory.len() < at + 8 {
        return Found::Outside;
    }
    if memory[at + 3] < OWN {
        return Found::NotOwned;
    }
    Found::Owned(described(memory, at))
}
