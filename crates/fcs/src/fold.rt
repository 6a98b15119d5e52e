// The register over many bytes: the polynomial divides x^300 + x^155 + x^117 + x^89 + 1, so a word of eight bytes may be put on the bytes
// 145, 183, 211 and 300 bits after it instead of being shifted out, and the table is read only near the end.
ghost use Rattle.std.specs.Prelude.{◌≡◌, List, [], ◌∷◌, ◌++◌, ℕ, ◌+◌, ◌^◌, ◌≤◌, ◌<◌, length};
ghost use Rattle.std.specs.List.{flat_map};
ghost use Rattle.std.specs.Int.Bits.{bit_xor};
ghost use Rattle.fcs.specs.Waiting.{after, ahead};

use crate::table::Table;

// Words that wait to be put on the next forty bytes.
#[derive(Clone, Copy)]
pub(crate) struct Waiting {
    a: u64,
    b: u64,
    c: u64,
    d: u64,
    e: u64,
}

impl Waiting {
    // One word further: it goes onto the words that follow, where 145 is two words and 17 bits, 183 two and 55, 211 three and 19, 300 four and 44.
    #[tactic(auto, using(crate::proofs::Places::after_folded))]
    fn fold(self, word: &[u8; 8]) -> Waiting
        ensures { (bs : List ℕ) → 40 ≤ length bs → ahead result bs ≡ ahead self (word.now ++ bs) }
    {
        let w = self.a ^ u64::from_le_bytes(*word);
        let b = (w << 17) ^ ((w << 55) ^ self.c);
        let c = (w >> 47) ^ ((w >> 9) ^ ((w << 19) ^ self.d));
        let d = (w << 44) ^ ((w >> 45) ^ self.e);
        let e = w >> 20;
        Waiting {
            a: self.b,
            b,
            c,
            d,
            e,
        }
    }

    // Some words further.
    fn fold_each(self, words: &[[u8; 8]]) -> Waiting
        ensures { (bs : List ℕ) → 40 ≤ length bs → ahead result bs ≡ ahead self (flat_map (λ (w : List ℕ). w) words.now ++ bs) }
    {
        let mut p = self;
        for word in words {
            p = p.fold(word);
        }
        p
    }

    // The words that wait after some words from the first on, five by five: then each is back in its place, so that none has to be moved.
    pub(crate) fn after(words: &[[u8; 8]]) -> Waiting
        ensures { (bs : List ℕ) → 40 ≤ length bs → ahead result bs ≡ after (0xFFFFFFFF ∷ 0 ∷ 0 ∷ 0 ∷ 0 ∷ []) (flat_map (λ (w : List ℕ). w) words.now ++ bs) }
    {
        let mut p = Waiting {
            a: 0xFFFFFFFF,
            b: 0,
            c: 0,
            d: 0,
            e: 0,
        };
        let mut rest = words;
        // Tried: `for five in words.as_chunks::<5>().0`. It takes 542 instructions for 48 bytes, and this 530; the bar is 3 % above 523.
        while let Some((five, more)) = rest.split_first_chunk::<5>() {
            p = p.fold_each(five);
            rest = more;
        }
        p.fold_each(rest)
    }

    // The register over the last five words, with the waiting ones put on them, and over the bytes that fill none.
    // Word by word: each takes what the one before it leaves, and a loop over the five fields is no plainer.
    pub(crate) fn finish(self, table: &Table, words: &[[u8; 8]; 5], rest: &[u8]) -> u32
        ensures { result ≡ ahead self (flat_map (λ (w : List ℕ). w) words.now ++ rest.now) }
    {
        let b = self.b ^ (absorb(table, &words[0], self.a) as u64);
        let c = self.c ^ (absorb(table, &words[1], b) as u64);
        let d = self.d ^ (absorb(table, &words[2], c) as u64);
        let e = self.e ^ (absorb(table, &words[3], d) as u64);
        table.over(rest, absorb(table, &words[4], e))
    }
}

// The waiting word a with the next eight bytes put on it, shifted out: what it leaves is for the next waiting word.
#[tactic(auto, using(crate::proofs::Shifts::high_half, crate::proofs::Shifts::shifts_halves, crate::proofs::Afters::after_shifts))]
fn absorb(table: &Table, word: &[u8; 8], a: u64) -> u32
    ensures { (b : ℕ) (ws bs : List ℕ) → b < 2 ^ 64 → after (bit_xor b result ∷ ws) bs ≡ after (a ∷ b ∷ ws) (word.now ++ bs) }
{
    let w = a ^ u64::from_le_bytes(*word);
    let low = (w % 0x100000000) as u32;
    let high = (w / 0x100000000) as u32;
    table.shifted(8, table.shifted(8, low) ^ high)
}
