// The state as words, after reset, and what is handed back with it.
ghost use Rattle.std.specs.Prelude.{◌≡◌, ◌++◌};
ghost use Rattle.bus.specs.Words.{bytes_of};
ghost use Rattle.card.specs.State.{state_words, state_of, fresh, with_csr0, with_written, line};
ghost use Rattle.card.specs.Replies.{replied, refused};

use crate::{Card, Reply, WORDS};
use answers::{Answer, Refusal};
use bus::{joined, weigh};
use registers::{Csr0, STOP, Written};
use ring::Ring;

// The two bytes of each of three words.
#[tactic(auto, unfolding(bus::specs::Words::bytes_of))]
pub(crate) fn six_bytes(a: u16, b: u16, c: u16) -> [u8; 6]
    ensures { result ≡ bytes_of 2 a ++ (bytes_of 2 b ++ bytes_of 2 c) }
{
    let [a0, a1] = a.to_le_bytes();
    let [b0, b1] = b.to_le_bytes();
    let [c0, c1] = c.to_le_bytes();
    [a0, a1, b0, b1, c0, c1]
}

// The state as words, one by one as docs/STATE-BLOCK.md lists them.
impl From<Card> for [u16; WORDS] {
    ghost from_gives = { λ c words. words ≡ state_words c };

    #[tactic(auto, unfolding(crate::specs::State::state_words))]
    fn from(card: Card) -> [u16; WORDS] {
        let [a0, a1, b0, b1, c0, c1] = card.address;
        let [f0, f1, f2, f3] = card.filter;
        let [r0, r1, r2, r3]: [u16; 4] = card.receive.into();
        let [t0, t1, t2, t3]: [u16; 4] = card.transmit.into();
        [
            card.csr0.word(card.written.csr3),
            card.written.rap,
            card.written.csr1,
            card.written.csr2,
            card.written.csr3,
            card.missed,
            weigh(card.initialized, 1),
            card.mode,
            joined(a0, a1),
            joined(b0, b1),
            joined(c0, c1),
            f0,
            f1,
            f2,
            f3,
            r0,
            r1,
            r2,
            r3,
            t0,
            t1,
            t2,
            t3,
        ]
    }
}

// The state that words say, in the same order.
impl From<[u16; WORDS]> for Card {
    ghost from_gives = { λ words c. c ≡ state_of words };

    #[tactic(auto, unfolding(crate::specs::State::state_of))]
    fn from(words: [u16; WORDS]) -> Card {
        let [
            csr0,
            rap,
            csr1,
            csr2,
            csr3,
            missed,
            initialized,
            mode,
            a,
            b,
            c,
            f0,
            f1,
            f2,
            f3,
            r0,
            r1,
            r2,
            r3,
            t0,
            t1,
            t2,
            t3,
        ] = words;
        Card {
            csr0: Csr0::from(csr0),
            written: Written {
                rap,
                csr1,
                csr2,
                csr3,
            },
            missed,
            initialized: initialized % 2 == 1,
            mode,
            address: six_bytes(a, b, c),
            filter: [f0, f1, f2, f3],
            receive: Ring::from([r0, r1, r2, r3]),
            transmit: Ring::from([t0, t1, t2, t3]),
        }
    }
}

impl Card {
    // The card after reset.
    #[tactic(auto, unfolding(crate::specs::State::fresh))]
    pub fn fresh() -> Card
        ensures { result ≡ fresh }
    {
        let mut words = [0u16; WORDS];
        words[0] = STOP;
        Card::from(words)
    }

    // The card with another CSR0.
    #[tactic(auto, unfolding(crate::specs::State::with))]
    pub(crate) fn with_csr0(self, csr0: Csr0) -> Card
        ensures { result ≡ with_csr0 self csr0 }
    {
        Card { csr0, ..self }
    }

    // The card with other written registers.
    #[tactic(auto, unfolding(crate::specs::State::with))]
    pub(crate) fn with_written(self, written: Written) -> Card
        ensures { result ≡ with_written self written }
    {
        Card { written, ..self }
    }

    // The level of the interrupt line.
    #[tactic(auto, unfolding(crate::specs::State::line))]
    fn line(self) -> bool
        ensures { result ≡ line self }
    {
        self.csr0.line_of(self.written.csr3)
    }

    // A call that is not refused.
    #[tactic(auto, unfolding(crate::specs::Replies::replied))]
    pub(crate) fn replied(self, answer: Answer) -> Reply
        ensures { result ≡ replied self answer }
    {
        Reply {
            card: self,
            answer,
            line: self.line(),
        }
    }

    // A call that is refused: the card stays as it is, and the line is reported low where the state isn't sound.
    #[tactic(auto, unfolding(crate::specs::Replies::refused))]
    pub(crate) fn refused(self, refusal: Refusal) -> Reply
        ensures { result ≡ refused self refusal }
    {
        Reply {
            card: self,
            answer: Answer::Refused(refusal),
            line: (refusal != Refusal::Unsound) & self.line(),
        }
    }
}
