//! The texts of machines, and of their rows.

ghost use Rattle.std.specs.Prelude.{◌≡◌, ◌++◌, ◌∷◌, [], ℕ, suc, ◌≤◌, OnOk, length, map};
ghost use Rattle.std.specs.Fmt.{decimal};
ghost use Rattle.fr_machine.specs.Rows.{IsRow, state_of, states_of};
ghost use Rattle.fr_canon.specs.Texts.{numbers_text, wreath_text, machine_text};

use fr_alphabet::NoMemory;
use fr_machine::{Minimal, Row};
use itoa::write_digits;

/// Appends a number in decimal. Where memory runs out, a part of it may stand there.
pub fn push_number(n: u64, out: &mut Vec<u8>) -> Result<(), NoMemory>
    ensures { OnOk result (out.new.items ≡ out.old.items ++ decimal n) }
{
    out.extend_from_slice(itoa::Buffer::new().format(n).as_bytes())?;
    Ok(())
}

// The most bytes that the next rows of a row take in brackets: eight numbers of at most four digits with a byte before each,
// and the brackets.
const WIDTH: usize = 42;

// Appends the next rows of a row, counted from 1, in brackets. They are written from the last one to the first, so that the
// text is copied once.
fn push_nexts(row: &Row, out: &mut Vec<u8>) -> Result<(), NoMemory>
    requires { (n : ℕ) × (n ≤ 1024) × IsRow (length row.now.perm) n row.now }
    ensures { OnOk result (out.new.items ≡ out.old.items ++ 60 ∷ numbers_text (map suc (state_of row.now).next) ++ 62 ∷ []) }
{
    let letters = row.perm.letters() as usize;
    let mut text = [b'>'; WIDTH];
    let mut at = WIDTH - 1;
    let mut x = letters;
    while x > 0 {
        if x < letters {
            at -= 1;
            text[at] = b',';
        }
        x -= 1;
        at = write_digits(row.next[x] as u64 + 1, &mut text, at);
    }
    at -= 1;
    text[at] = b'<';
    out.extend_from_slice(&text[at..])?;
    Ok(())
}

/// Appends a row as `<2,3>(1,2)`: its next rows, counted from 1, and the cycles of its permutation. Where memory runs out, a
/// part of it may stand there.
pub fn push_wreath(row: &Row, out: &mut Vec<u8>) -> Result<(), NoMemory>
    requires { (n : ℕ) × (n ≤ 1024) × IsRow (length row.now.perm) n row.now }
    ensures { OnOk result (out.new.items ≡ out.old.items ++ wreath_text (state_of row.now)) }
{
    push_nexts(row, out)?;
    row.perm.print_cycles(out)?;
    Ok(())
}

/// Appends the text of a machine: the line `states n`, then for each row k in order the line `k = <n1,..,nd>` with its next
/// rows, counted from 1, and the cycles of its permutation behind. Where memory runs out, a part of it may stand there.
pub fn push_machine(m: &Minimal, out: &mut Vec<u8>) -> Result<(), NoMemory>
    ensures { OnOk result (out.new.items ≡ out.old.items ++ machine_text (states_of m.now.rows)) }
{
    let rows = m.machine().rows();
    out.extend_from_slice(b"states ")?;
    push_number(rows.len() as u64, out)?;
    out.push(b'\n')?;
    for (k, row) in rows.iter().enumerate() {
        push_number(k as u64 + 1, out)?;
        out.extend_from_slice(b" = ")?;
        push_wreath(row, out)?;
        out.push(b'\n')?;
    }
    Ok(())
}
