// What a C program calls: the card's acts on numbers, lent slices and the state block.
#![tactic(auto, unfolding(bus::specs::Bits::weigh, crate::specs::Entries::packed, crate::specs::Entries::given, crate::specs::Entries::reset_entry, crate::specs::Entries::shut), using(block::proofs::Opens::open_long))]

ghost use Rattle.std.specs.Prelude.{◌≡◌, ◌≤◌, length};
ghost use Rattle.bus.specs.Bits.{weigh};
ghost use Rattle.bus.specs.Bus.{run, leaves};
ghost use Rattle.am79c960.specs.Entries.{packed, given, reset_entry, read_entry, write_entry, arrive_entry, turn_entry};

use answers::{Answer, Refusal};
use card::{Card, Reply};
use transmit::Report;

// What is handed back for a block that does not open: the table's number, and the line low.
const SHUT: u64 = Refusal::Unsound as u64;

// What the line adds to the number handed back.
// An `if` and no `u64::from`: so the definition `weigh` has it.
fn line_bit(line: bool) -> u64
    ensures { (result ≡ weigh line 0x1000000000000) × (result ≤ 0x1000000000000) }
{
    if line { 0x1000000000000 } else { 0 }
}

// A reply in one number. It is no `From`, since neither type is of this crate.
fn packed(r: Reply) -> u64
    ensures { result ≡ packed r }
{
    r.answer.number() as u64
        + 0x100 * r.answer.word() as u64
        + 0x10000 * r.answer.value() as u64
        + 0x100000000 * r.answer.length() as u64
        + line_bit(r.line)
}

// A reply is handed back, and its state stored where nothing is refused.
fn given(block: &mut [u8], r: Reply) -> u64
    requires { length block.old ≡ 512 }
    ensures { given block.old r ≡ record { result = result; block = block.new } }
{
    if !matches!(r.answer, Answer::Refused(_)) {
        block::put_state(block, r.card);
    }
    packed(r)
}

// The act "reset".
#[unsafe(no_mangle)]
pub extern "C" fn am79c960_entry_reset(block: &mut [u8]) -> u64
    ensures { reset_entry block.old ≡ record { result = result; block = block.new } }
{
    if block.len() == block::BYTES {
        return given(block, Card::fresh().reset());
    }
    SHUT
}

// The act "register read".
#[tactic(auto, using(block::proofs::Opens::some_long, crate::proofs::Entering::read_goes, crate::proofs::Entering::read_shut))]
#[unsafe(no_mangle)]
pub extern "C" fn am79c960_entry_read(block: &mut [u8], offset: u32) -> u64
    ensures { read_entry block.old offset ≡ record { result = result; block = block.new } }
{
    let Some(card) = block::opened(block) else {
        return SHUT;
    };
    given(block, card.read(offset))
}

// The act "register write".
#[tactic(auto, using(block::proofs::Opens::some_long, crate::proofs::Entering::write_goes, crate::proofs::Entering::write_shut))]
#[unsafe(no_mangle)]
pub extern "C" fn am79c960_entry_write(
    block: &mut [u8],
    memory: &[u8],
    offset: u32,
    value: u32,
) -> u64
    ensures { run (write_entry block.old (length memory.now) offset value) memory.now ≡ record { answer = record { result = result; block = block.new }; memory = memory.now } }
{
    let Some(card) = block::opened(block) else {
        return SHUT;
    };
    given(block, card.write(memory, offset, (value % 65536) as u16))
}

// The act "frame arrival".
#[tactic(auto, using(block::proofs::Opens::some_long, crate::proofs::Entering::arrive_shut))]
#[unsafe(no_mangle)]
pub extern "C" fn am79c960_entry_arrive(
    block: &mut [u8],
    memory: &mut [u8],
    frame: &[u8],
    extra: u32,
) -> u64
    ensures { run (arrive_entry block.old (length memory.old) frame.now extra) memory.old ≡ record { answer = record { result = result; block = block.new }; memory = memory.new } }
{
    let Some(card) = block::opened(block) else {
        return SHUT;
    };
    given(block, card.arrive(memory, frame, extra))
}

// The act "transmit turn". The report and its flags come one by one, as C hands them over.
#[tactic(auto, using(block::proofs::Opens::some_long, crate::proofs::Entering::turn_shut))]
#[unsafe(no_mangle)]
pub extern "C" fn am79c960_entry_turn(
    block: &mut [u8],
    memory: &mut [u8],
    out: &mut [u8],
    wire: u32,
    deferred: bool,
    noheartbeat: bool,
) -> u64
    ensures { leaves (run (turn_entry block.old (length memory.old) (length out.old) (record { result = wire; deferred = deferred; noheartbeat = noheartbeat })) memory.old) out.old ≡ record { answer = record { result = result; block = block.new }; memory = memory.new; out = out.new } }
{
    let Some(card) = block::opened(block) else {
        return SHUT;
    };
    let report = Report {
        result: wire,
        deferred,
        noheartbeat,
    };
    given(block, card.turn(memory, out, report))
}
