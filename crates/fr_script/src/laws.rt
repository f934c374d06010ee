//! Laws of scripts, which no call needs.

ghost use Rattle.std.specs.Prelude.{◌≡◌, ◌≤◌, ℕ, List, false, length};
ghost use Rattle.fr_alphabet.specs.Cycles.{cycles_image};
ghost use Rattle.fr_script.specs.Cycles.{cycles_letters, disjoint_cycles_image, has_repeat};
ghost use Rattle.fr_script.specs.declared.script.Script.{Script};
ghost use Rattle.fr_script.specs.declared.line_reader.Advance.{Advance};
ghost use Rattle.fr_script.specs.declared.line_reader.State.{State};
ghost use Rattle.fr_script.specs.Pushes.{Advances};
ghost use Rattle.fr_script.specs.Fits.{FitsScript};
ghost use Rattle.fr_script.specs.Scripts.{IsReadByLines, IsScript, lines_of};

/// Bytes write one script.
pub fn scripts_are_unique()
    ensures { (bytes : List ℕ) (a b : Script) → IsScript bytes a → IsScript bytes b → a ≡ b }
{}

/// Bytes of at most 4,096 lines write a script.
pub fn scripts_exist()
    ensures { (bytes : List ℕ) → length (lines_of bytes) ≤ 4096 → (script : Script) × IsScript bytes script }
{}

/// The script of bytes is what a reader gives to whom their lines are given one after the other.
pub fn scripts_are_read_by_lines()
    ensures script { (bytes : List ℕ) (script : Script) → IsReadByLines bytes script → IsScript bytes script }
    ensures lines { (bytes : List ℕ) (script : Script) → IsScript bytes script → IsReadByLines bytes script }
{}

/// A script fits its alphabet.
pub fn scripts_fit()
    ensures { (bytes : List ℕ) (script : Script) → IsScript bytes script → FitsScript script }
{}

/// A line does one thing to a reader, and ends one item or none.
pub fn pushes_are_unique()
    ensures { (state : State) (line : List ℕ) (a b : Advance) → Advances state line a → Advances state line b → a ≡ b }
{}

/// Cycles no two of which have a letter in common send each letter to where their product sends it.
pub fn disjoint_cycles_are_their_product()
    ensures { (cycles : List (List ℕ)) (x : ℕ) → has_repeat (cycles_letters cycles) ≡ false → disjoint_cycles_image cycles x ≡ cycles_image cycles x }
{}
