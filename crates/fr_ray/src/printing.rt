//! How rays are written.

ghost use Rattle.std.specs.Prelude.{ℕ, ◌≡◌, ◌++◌, Ok, OnErr, OnOk, length, map, take};
ghost use Rattle.fr_alphabet.specs.Writing.{letter_digit};
ghost use Rattle.fr_model.specs.Words.{IsWord};
ghost use Rattle.fr_ray.specs.Rays.{IsBoundedRay};
ghost use Rattle.fr_ray.specs.Reading.{ray_reading};
ghost use Rattle.fr_ray.specs.Writing.{ray_text};

use crate::ray::Ray;
use fr_alphabet::NoMemory;

impl Ray {
    /// Appends the ray as `Ray::read` reads it: the digits of the letters before the period, and in parentheses those of the
    /// period.
    ///
    /// The only error is want of memory; `out` is then as before.
    pub fn print(&self, out: &mut Vec<u8>) -> Result<(), NoMemory>
        ensures ok { OnOk result (out.new.items ≡ out.old.items ++ ray_text self.now) }
        ensures err { OnErr result (out.new.items ≡ out.old.items) }

        // The text reads as the ray, over each alphabet that has its letters.
        ensures reads_back { (d : ℕ) → IsWord d self.now.before → IsWord d self.now.period → ray_reading d (ray_text self.now) ≡ Ok self.now }
    {
        let start = out.len();
        let printed = self.push_text(out);
        if printed.is_err() {
            out.truncate(start);
        }
        printed
    }

    // Appends the text. Where memory runs out, a part of it may stand there.
    fn push_text(&self, out: &mut Vec<u8>) -> Result<(), NoMemory>
        ensures ok { OnOk result (out.new.items ≡ out.old.items ++ ray_text self.now) }
        ensures kept { take (length out.old.items) out.new.items ≡ out.old.items }
        ensures bounded { IsBoundedRay self.now }
    {
        push_digits(self.before(), out)?;
        out.push(b'(')?;
        push_digits(self.period(), out)?;
        out.push(b')')?;
        Ok(())
    }
}

// Appends the digits of letters. Where memory runs out, some of them may stand there.
fn push_digits(letters: &[u8], out: &mut Vec<u8>) -> Result<(), NoMemory>
    requires { IsWord 8 letters.now }
    ensures ok { OnOk result (out.new.items ≡ out.old.items ++ map letter_digit letters.now) }
    ensures kept { take (length out.old.items) out.new.items ≡ out.old.items }
{
    out.reserve(letters.len())?;
    for x in letters {
        out.push_reserved(b'0' + *x);
    }
    Ok(())
}
