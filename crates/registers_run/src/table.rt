// The table: what document 01 says of each register, right after an initialization with the block of `cards`.

// A letter for each register number from 0 to 127, as `Kind::of` reads them.
// Letters, so that all rows are held beside document 01 at one look.
const LETTERS: [u8; 128] = *b"0www....rrrrrrrr........rr....rr................................\
........r.r.r.r.........ff......................f...............";

// What can be done with a register.
#[derive(Clone, Copy)]
enum Kind {
    // CSR0: written, and never locked.
    Control,
    // Written, and locked while STOP is clear.
    Written,
    // Only reads, and is locked while STOP is clear.
    Read,
    // Only reads, and is never locked.
    Fixed,
    // No register.
    Nothing,
}

impl Kind {
    // The kind of a register number.
    fn of(r: u8) -> Kind {
        match LETTERS.get(usize::from(r)) {
            Some(b'0') => Kind::Control,
            Some(b'w') => Kind::Written,
            Some(b'r') => Kind::Read,
            Some(b'f') => Kind::Fixed,
            _ => Kind::Nothing,
        }
    }
}

// The value that a register shows. CSR0 is 0004h with STOP set, and 0073h as the running card has it.
fn value(r: u8, stop: bool) -> u16 {
    match r {
        0 => control(stop),
        1 => 0x0011,
        2 => 0x0000,
        3 => 0x0000,
        8 => 0x2301,
        9 => 0x6745,
        10 => 0xAB89,
        11 => 0xEFCD,
        12 => 0x6002,
        13 => 0x018C,
        14 => 0x0302,
        15 => 0x0040,
        24 => 0x2340,
        25 => 0x0001,
        30 => 0xFFF8,
        31 => 0x00AB,
        72 => 0xFFFC,
        74 => 0xFFF0,
        76 => 0xFFFC,
        78 => 0xFFF0,
        88 => 0x3003,
        89 => 0x0000,
        112 => 0x0000,
        _ => 0x0000,
    }
}

// CSR0.
fn control(stop: bool) -> u16 {
    if stop { 0x0004 } else { 0x0073 }
}

// What a read gives: the value, or the number of its refusal.
// A number here and below, and no `answers::Refusal`: the table is document 01's, and has its own numbers.
pub fn read(r: u8, stop: bool) -> Result<u16, u8> {
    match Kind::of(r) {
        Kind::Nothing => Err(7),
        Kind::Written | Kind::Read if !stop => Err(6),
        _ => Ok(value(r, stop)),
    }
}

// Whether a write is taken, or the number of its refusal. A locked register is refused with 6 though it only reads.
pub fn write(r: u8, stop: bool) -> Result<(), u8> {
    match Kind::of(r) {
        Kind::Nothing => Err(7),
        Kind::Written | Kind::Read if !stop => Err(6),
        Kind::Read | Kind::Fixed => Err(8),
        Kind::Control | Kind::Written => Ok(()),
    }
}

// What CSR0 to CSR3 show after FFFFh was written: STOP makes CSR0 0004h, CSR2 keeps its low byte, CSR3 keeps bits 14, 12, 11, 10, 9 and 8.
pub fn after_ones(r: u8) -> u16 {
    match r {
        0 => 0x0004,
        1 => 0xFFFF,
        2 => 0x00FF,
        _ => 0x5F00,
    }
}

// What CSR0 to CSR3 show after 0000h was written: of CSR0 only IENA goes, where STOP is clear.
pub fn after_zeros(r: u8, stop: bool) -> u16 {
    match (r, stop) {
        (0, true) => 0x0004,
        (0, false) => 0x0033,
        _ => 0,
    }
}
