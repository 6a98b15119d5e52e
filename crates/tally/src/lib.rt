// The tally of a program that compares, the text that it prints, and whether bytes are the same.
#![tactic(auto)]

ghost use Rattle.std.specs.Prelude.{◌≡◌, Some};
ghost use Rattle.tally.specs.Counting.{nothing, one_more, alike, told};

use std::fmt;

// How many things were compared, and how many of them came out wrong.
#[derive(Clone, Copy)]
pub struct Tally {
    pub run: u64,
    pub wrong: u64,
}

impl Tally {
    // The tally before the first.
    pub fn none() -> Tally
        ensures { result ≡ nothing }
    {
        Tally { run: 0, wrong: 0 }
    }

    // The tally with one more.
    #[tactic(auto, unfolding(crate::specs::Counting::one_more))]
    pub fn with(self, right: bool) -> Tally
        ensures { result ≡ one_more self right }
    {
        let run = self.run.wrapping_add(1);
        if right {
            return Tally { run, ..self };
        }
        let wrong = self.wrong.wrapping_add(1);
        Tally { run, wrong }
    }
}

// How many were run and how many of them were wrong, as a program's line ends.
impl fmt::Display for Tally {
    ghost output = { λ t. Some (told t) };

    fn fmt<W: fmt::Write>(&self, f: &mut fmt::Formatter<W>) -> fmt::Result {
        let Tally { run, wrong } = *self;
        write!(f, "{run} wrong {wrong}")
    }
}

// Whether two slices have the same bytes.
// Not `a == b`: with it no edit of the first byte or of a comparison was refused by a fact, as first_byte_passed_over and differing_bytes_same are.
pub fn same(a: &[u8], b: &[u8]) -> bool
    ensures { result ≡ alike a.now b.now }
{
    if a.len() != b.len() {
        return false;
    }
    for i in 0..a.len() {
        if a[i] != b[i] {
            return false;
        }
    }
    true
}
