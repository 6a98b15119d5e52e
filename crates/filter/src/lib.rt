// The address filter: which destinations are ours.
#![tactic(auto)]

ghost use Rattle.std.specs.Prelude.{◌≡◌, ◌<◌};
ghost use Rattle.filter.specs.Filter.{station, hashed, group, addressed, ours};

use bus::bit;

// Bits of MODE.
const PROM: u16 = 0x8000;

const DRCVBC: u16 = 0x4000;

const DRCVPA: u16 = 0x2000;

// What decides on a destination: MODE, PADR and LADRF.
#[derive(Clone, Copy)]
struct Filter {
    mode: u16,
    padr: [u8; 6],
    ladrf: [u16; 4],
}

impl Filter {
    // Whether a station's address is ours.
    #[tactic(auto, using(crate::proofs::Alike::station_is))]
    fn is_station(&self, to: &[u8; 6]) -> bool
        ensures { result ≡ station self.now.mode self.now.padr to.now }
    {
        (*to == self.padr) & !bit(self.mode, DRCVPA)
    }

    // Whether the filter's bit for a hash is set.
    fn is_hashed(&self, hash: u8) -> bool
        requires { hash < 64 }
        ensures { result ≡ hashed self.now.ladrf hash }
    {
        let word = self.ladrf[(hash / 16) as usize];
        (word >> (hash % 16)) % 2 == 1
    }

    // Whether a group's address is ours.
    #[tactic(auto, using(crate::proofs::Alike::group_is))]
    fn is_group(&self, to: &[u8; 6]) -> bool
        ensures { result ≡ group self.now.mode self.now.ladrf to.now }
    {
        let broadcast = *to == [255; 6];
        let hashed = self.is_hashed(fcs::hash_of(to));
        (broadcast & !bit(self.mode, DRCVBC)) | hashed
    }

    // Whether a destination is ours by its address.
    #[tactic(auto, unfolding(crate::specs::Filter::addressed))]
    fn is_addressed(&self, to: &[u8; 6]) -> bool
        ensures { result ≡ addressed self.now.mode self.now.padr self.now.ladrf to.now }
    {
        if to[0] % 2 == 1 {
            self.is_group(to)
        } else {
            self.is_station(to)
        }
    }
}

// Whether a destination is ours.
#[tactic(auto, unfolding(crate::specs::Filter::ours))]
pub fn is_ours(mode: u16, address: [u8; 6], filter: [u16; 4], to: [u8; 6]) -> bool
    ensures { result ≡ ours mode address filter to }
{
    let filter = Filter {
        mode,
        padr: address,
        ladrf: filter,
    };
    bit(mode, PROM) | filter.is_addressed(&to)
}
