//! Names that are drawn.

ghost use Rattle.std.specs.Prelude.{◌≡◌};
ghost use Rattle.fr_demo.specs.Demonstration as spec;

// The names that are drawn from.
const NAMES: &[u8; 7] = b"abcdtpq";

/// A linear congruential generator.
#[derive(Drop)]
pub struct Draws {
    pub state: u32,
}

impl Draws {
    /// Draws a name.
    pub fn name(&mut self) -> u8
        ensures state { self.new.state ≡ spec.next self.old.state }
        ensures name { result ≡ spec.name_at (spec.next self.old.state) }
    {
        self.state = self
            .state
            .wrapping_mul(1_664_525)
            .wrapping_add(1_013_904_223);
        // The lower bits of such a generator have short periods.
        NAMES[(self.state >> 24) as usize % NAMES.len()]
    }
}
