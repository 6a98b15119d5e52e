// What a call answers: refusals in the table's order, the words, and the events that a walk or a turn leaves in the registers.
#![tactic(auto, unfolding(crate::specs::Computed::computed))]

ghost use Rattle.std.specs.Prelude.{◌≡◌, [], ◌∷◌};
ghost use Rattle.answers.specs.Refusals.{refusal_number, ◌refuses_if◌, first, read_tests, write_tests, arrive_tests, turn_tests};
ghost use Rattle.answers.specs.Answers.{answer_number, answer_word, answer_value, answer_length};
ghost use Rattle.answers.specs.Events.{sets, sent_bits, arrival_event, turn_event};

use bus::weigh;
use receive::Ending;
use registers::{BABL, CERR, MERR, MISS, RINT, RXON, TDMD, TINT, TXON};
use transmit::Outcome;

// The table's limits.
pub const MOST_MEMORY: usize = 16777216;

pub const LONGEST_FRAME: usize = 4095;

pub const MOST_EXTRA: u32 = 7;

pub const LEAST_SLICE: usize = transmit::ROOM;

pub const LAST_REPORT: u32 = 5;

// Why a call is refused, with the table's number.
#[derive(Clone, Copy, PartialEq, Eq)]
pub enum Refusal {
    LargeMemory = 1,
    LongFrame = 2,
    ExtraBits = 3,
    ShortSlice = 4,
    BadReport = 5,
    Locked = 6,
    NoRegister = 7,
    OnlyReads = 8,
    Unsound = 9,
}

// What is answered: a refusal, or a word, with a read's value and with the length sent.
// No Result of a word and a refusal: document 01 gives every answer its four numbers, and each of the methods below would open it first.
#[derive(Clone, Copy, PartialEq, Eq)]
pub enum Answer {
    Refused(Refusal),
    Done(u16),
    Off,
    Runt,
    NotOurs,
    Missed,
    Received,
    Cut,
    Memory,
    Idle,
    Underflow,
    Failed,
    Sent(u16),
}

// What a walk or a turn leaves besides memory and a slot: bits of CSR0, a rise of CSR112, and the answer.
#[derive(Clone, Copy)]
pub struct Event {
    pub on: u16,
    pub off: u16,
    pub missed: u16,
    pub answer: Answer,
}

impl Refusal {
    // The table's number, which the C interface hands back.
    // No From: an answer has four numbers, and each is a method with the definition's name.
    pub fn number(self) -> u8
        ensures { result ≡ refusal_number self }
    {
        self as u8
    }

    // A test of the table.
    fn refuses_if(self, found: bool) -> Result<(), Refusal>
        ensures { result ≡ first (self refuses_if found ∷ []) }
    {
        if found { Err(self) } else { Ok(()) }
    }
}

impl Answer {
    // The table's number for the C interface, or 0 where nothing is refused.
    pub fn number(self) -> u8
        ensures { result ≡ answer_number self }
    {
        match self {
            Answer::Refused(refusal) => refusal.number(),
            _ => 0,
        }
    }

    // The word's number for the C interface, or 0 with a refusal.
    pub fn word(self) -> u8
        ensures { result ≡ answer_word self }
    {
        match self {
            Answer::Refused(_) => 0,
            Answer::Done(_) => 1,
            Answer::Off => 2,
            Answer::Runt => 3,
            Answer::NotOurs => 4,
            Answer::Missed => 5,
            Answer::Received => 6,
            Answer::Cut => 7,
            Answer::Memory => 8,
            Answer::Idle => 9,
            Answer::Underflow => 10,
            Answer::Failed => 11,
            Answer::Sent(_) => 12,
        }
    }

    // A read's value, or 0.
    pub fn value(self) -> u16
        ensures { result ≡ answer_value self }
    {
        match self {
            Answer::Done(value) => value,
            _ => 0,
        }
    }

    // The length sent, or 0.
    pub fn length(self) -> u16
        ensures { result ≡ answer_length self }
    {
        match self {
            Answer::Sent(length) => length,
            _ => 0,
        }
    }
}

// The tests of a read. Each flag here and below is what one test finds, with no value beside it.
pub fn read_tests(sound: bool, nowhere: bool, locked: bool) -> Result<(), Refusal>
    ensures { result ≡ read_tests sound nowhere locked }
{
    Refusal::Unsound.refuses_if(!sound)?;
    Refusal::NoRegister.refuses_if(nowhere)?;
    Refusal::Locked.refuses_if(locked)
}

// The tests of a write.
pub fn write_tests(
    sound: bool,
    size: usize,
    nowhere: bool,
    locked: bool,
    only: bool,
) -> Result<(), Refusal>
    ensures { result ≡ write_tests sound size nowhere locked only }
{
    Refusal::Unsound.refuses_if(!sound)?;
    Refusal::LargeMemory.refuses_if(MOST_MEMORY < size)?;
    Refusal::NoRegister.refuses_if(nowhere)?;
    Refusal::Locked.refuses_if(locked)?;
    Refusal::OnlyReads.refuses_if(only)
}

// The tests of an arrival.
pub fn arrive_tests(sound: bool, size: usize, frame: usize, extra: u32) -> Result<(), Refusal>
    ensures { result ≡ arrive_tests sound size frame extra }
{
    Refusal::Unsound.refuses_if(!sound)?;
    Refusal::LargeMemory.refuses_if(MOST_MEMORY < size)?;
    Refusal::LongFrame.refuses_if(LONGEST_FRAME < frame)?;
    Refusal::ExtraBits.refuses_if(MOST_EXTRA < extra)
}

// The tests of a turn. The report is a number, as the C interface gives any, and one above 5 is refused.
pub fn turn_tests(sound: bool, size: usize, out: usize, report: u32) -> Result<(), Refusal>
    ensures { result ≡ turn_tests sound size out report }
{
    Refusal::Unsound.refuses_if(!sound)?;
    Refusal::LargeMemory.refuses_if(MOST_MEMORY < size)?;
    Refusal::ShortSlice.refuses_if(out < LEAST_SLICE)?;
    Refusal::BadReport.refuses_if(LAST_REPORT < report)
}

// An event: bits of CSR0 to set and to clear, a rise of CSR112, and the answer.
fn sets(on: u16, off: u16, missed: u16, answer: Answer) -> Event
    ensures { result ≡ sets on off missed answer }
{
    Event {
        on,
        off,
        missed,
        answer,
    }
}

// The event of an arrival.
// No `From<Ending>`: the event of a turn takes a flag too, and the two tables read alike so.
pub fn arrival_event(ending: Ending) -> Event
    ensures { result ≡ arrival_event ending }
{
    match ending {
        Ending::Memory => sets(MERR, RXON + TXON, 0, Answer::Memory),
        Ending::Missed => sets(MISS, 0, 1, Answer::Missed),
        Ending::Received => sets(RINT, 0, 0, Answer::Received),
        Ending::Cut => sets(RINT, 0, 0, Answer::Cut),
    }
}

// What a frame handed out sets in CSR0.
fn sent_bits(noheartbeat: bool, n: u16) -> u16
    ensures { result ≡ sent_bits noheartbeat n }
{
    TINT + weigh(noheartbeat, CERR) + weigh(1519 <= n, BABL)
}

// The event of a turn.
pub fn turn_event(noheartbeat: bool, outcome: Outcome) -> Event
    ensures { result ≡ turn_event noheartbeat outcome }
{
    match outcome {
        Outcome::Idle => sets(0, TDMD, 0, Answer::Idle),
        Outcome::OutOfMemory => sets(MERR, TDMD + RXON + TXON, 0, Answer::Memory),
        Outcome::Underflow => sets(TINT, TDMD + TXON, 0, Answer::Underflow),
        Outcome::Failed => sets(TINT, TDMD, 0, Answer::Failed),
        Outcome::Sent(n) => sets(sent_bits(noheartbeat, n), TDMD, 0, Answer::Sent(n)),
    }
}
