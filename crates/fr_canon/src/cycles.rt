//! The cycles of a permutation, read from the line of a state.

ghost use Rattle.std.specs.Prelude.{◌≡◌, ◌≢◌, ◌≤◌, ℕ, List, Some, fold, IfOk, IfSome, MatchOption};
ghost use Rattle.fr_model.specs.Permutations.{IsPermutation};
ghost use Rattle.fr_alphabet.specs.Cycles.{cycles_text};
ghost use Rattle.fr_canon.specs.CycleScans.{after_byte, first_scan};

use fr_alphabet::{Alphabet, NoMemory, Perm};

// What the bytes so far say: the image of each letter at its place, where place 0 counts for nothing, and the first
// and the last letter of the cycle that is read; the last one is 0 before the first.
#[derive(Drop)]
struct CycleScan {
    images: [u8; 9],
    first: u8,
    last: u8,
}

impl CycleScan {
    // Takes in one byte more.
    fn take(&mut self, byte: u8)
        requires { self.old.last ≤ 8 }
        ensures small { self.new.last ≤ 8 }
        ensures value { self.new ≡ after_byte self.old byte }
    {
        match byte {
            b'(' => self.last = 0,
            b')' => self.images[self.last as usize] = self.first,
            b'1'..=b'8' => {
                let letter = byte - b'0';
                if self.last == 0 {
                    self.first = letter;
                }
                self.images[self.last as usize] = letter;
                self.last = letter;
            }
            _ => {}
        }
    }
}

// The images that cycles say, where they are well written: that of letter x at place x.
fn scan_cycles(text: &[u8]) -> [u8; 9]
    ensures { result ≡ (fold after_byte first_scan text.now).images }
{
    let mut scan = CycleScan {
        images: [0, 1, 2, 3, 4, 5, 6, 7, 8],
        first: 0,
        last: 0,
    };
    for byte in text {
        scan.take(*byte);
    }
    scan.images
}

// The permutation that the bytes say, if they say one.
fn perm_of(a: Alphabet, cycles: &[u8]) -> Option<Perm>
    ensures over { IfSome result (λ p. IsPermutation a p) }
    ensures found { (p : List ℕ) → IsPermutation a p → cycles.now ≡ cycles_text p → result ≡ Some p }
{
    let images = scan_cycles(cycles);
    Perm::of_images(a, &images[1..1 + a.letters() as usize])
}

// The permutation whose cycles are written so. They are printed into `buffer` and compared.
pub(crate) fn written_perm(
    a: Alphabet,
    cycles: &[u8],
    buffer: &mut Vec<u8>,
) -> Result<Option<Perm>, NoMemory>
    ensures { IfOk result (λ o. MatchOption o ((p : List ℕ) → IsPermutation a p → cycles.now ≢ cycles_text p) (λ p. IsPermutation a p × (cycles.now ≡ cycles_text p))) }
{
    let Some(perm) = perm_of(a, cycles) else {
        return Ok(None);
    };
    buffer.clear();
    perm.print_cycles(buffer)?;
    if buffer.as_slice() == cycles {
        Ok(Some(perm))
    } else {
        Ok(None)
    }
}
