//! The script, line after line.

ghost use Rattle.std.specs.Prelude.{◌≡◌, ◌==◌, IfOk, codes, count_by, drop, length};
ghost use Rattle.fr_demo.specs.Demonstration as spec;

use crate::draws::Draws;
use fr_alphabet::NoMemory;
use std::alloc::Global;

// Grigorchuk's group, the adding machine, and two elements that are sections of each other.
const DEFINITIONS: &[u8] = b"group\n\
    a = (1,2)\n\
    b = <a,c>\n\
    c = <a,d>\n\
    d = <1,b>\n\
    t = <1,t>(1,2)\n\
    p = <1,q>\n\
    q = <1,p>(1,2)\n\
    end\n";

// How many questions follow the definitions.
const QUESTIONS: usize = 1991;

/// The script of the demonstration for a seed, over 2 letters: a block that defines elements, and 1,991 questions whether
/// two products of two of them are equal, whose names are drawn by a generator that begins at the seed. It has 2,000 lines,
/// each with its newline.
///
/// The only error is want of memory.
pub fn demo_script(alloc: Global, seed: u32) -> Result<Vec<u8>, NoMemory>
    ensures script { IfOk result (λ script. script.items ≡ spec.demonstration seed) }
    ensures bytes { IfOk result (λ script. length script.items ≡ 21991) }
    ensures lines { IfOk result (λ script. count_by (λ c. c == 10) script.items ≡ 2000) }
    ensures end { IfOk result (λ script. drop 21990 script.items ≡ codes "\n") }
{
    let mut draws = Draws { state: seed };
    let mut script = DEFINITIONS.to_vec(alloc)?;
    for _ in 0..QUESTIONS {
        script.extend_from_slice(&question(&mut draws))?;
    }
    Ok(script)
}

// The first question of those that the generator draws, which is then past its four draws.
fn question(draws: &mut Draws) -> [u8; 11]
    ensures question { result ≡ spec.question draws.old.state 0 }
    ensures state { draws.new.state ≡ spec.state draws.old.state 4 }
{
    let [x, y, z, w] = [draws.name(), draws.name(), draws.name(), draws.name()];
    [b'e', b'q', b' ', x, b'*', y, b' ', z, b'*', w, b'\n']
}
