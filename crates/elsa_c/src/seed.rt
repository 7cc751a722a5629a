//! [`Seed`]: what a caller of C gives to the hash of its texts.
ghost use Rattle.std.specs.Prelude.{◌≡◌, bit_xor};
ghost use Rattle.elsa_hash.specs.Seeded as seeded;
ghost use Rattle.elsa_c.specs.Seed.{zero_factor, zero_start};

use elsa_hash::seeded::SeededState;

/// The secret of a hash, of two words. A seed of zeros is no secret: who knows this code can make
/// texts that collide.
#[repr(C)]
#[derive(Clone, Copy)]
pub struct Seed {
    pub start: u64,
    pub factor: u64,
}

impl Seed {
    /// Makes the hasher builder with this secret. Words of few bits hash badly, so each is combined
    /// with a fixed word.
    pub fn state(self) -> SeededState
        ensures { seeded.first_hasher result ≡ seeded.hasher
            (bit_xor self.start zero_start) (bit_xor self.factor zero_factor) }
    {
        SeededState::with_seed(
            self.start ^ 0x243F_6A88_85A3_08D3,
            self.factor ^ 0x9E37_79B9_7F4A_7C15,
        )
    }
}
