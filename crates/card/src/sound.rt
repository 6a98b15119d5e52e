// Whether a state is sound.
ghost use Rattle.std.specs.Prelude.{◌≡◌};
ghost use Rattle.card.specs.Sound.{before, afterwards, fitting, sound};

use crate::Card;

impl Card {
    // Whether all that an initialization loads is 0.
    #[tactic(auto, using(crate::proofs::Sounding::before_is))]
    fn is_before(self) -> bool
        ensures { result ≡ before self }
    {
        !self.csr0.strt
            & (self.mode == 0)
            & (self.address == [0; 6])
            & (self.filter == [0; 4])
            & self.receive.is_unloaded()
            & self.transmit.is_unloaded()
    }

    // Whether the rings are ones that an initialization can leave.
    #[tactic(auto, unfolding(crate::specs::Sound::afterwards))]
    fn is_afterwards(self) -> bool
        ensures { result ≡ afterwards self }
    {
        self.receive.is_loaded() & self.transmit.is_loaded()
    }

    // Whether what an initialization loads fits whether there was one.
    #[tactic(auto, unfolding(crate::specs::Sound::fitting))]
    fn is_fitting(self) -> bool
        ensures { result ≡ fitting self }
    {
        if self.initialized {
            self.is_afterwards()
        } else {
            self.is_before()
        }
    }

    // Whether the state is sound.
    #[tactic(auto, unfolding(crate::specs::Sound::sound))]
    pub fn is_sound(self) -> bool
        ensures { result ≡ sound self }
    {
        self.csr0.is_sound_csr0() & self.written.is_settled() & self.is_fitting()
    }
}
