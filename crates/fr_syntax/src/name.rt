//! Names of elements.

ghost use Rattle.std.specs.Prelude.{◌≡◌, IfOk};

use fr_alphabet::NoMemory;
use sqlite_items::Boxed;
use std::alloc::Global;
use std::marker::Model;

// The most bytes of a name that is kept in place. Most names have fewer.
const SHORT_LIMIT: usize = 15;

/// The name of an element: an ASCII letter, and letters, digits and `_` after it.
#[derive(Debug, Drop)]
pub struct Name {
    text: Text,
}

// The bytes of a name.
#[derive(Debug, Drop)]
enum Text {
    // So many of these.
    Short(u8, [u8; SHORT_LIMIT]),
    Long(Boxed<Vec<u8>>),
}

// Clauses see the list of its bytes.
impl Model for Name {
    ghost use Rattle.std.specs.Prelude.{ℕ, List};
    ghost use Rattle.fr_syntax.specs.Names.{IsText, text_bytes};

    ghost Value = { List ℕ };

    ghost view = { λ n. text_bytes n.text };

    ghost invariant = { λ n. IsText n.text };
}

impl Name {
    /// The name of these bytes. The only error is want of memory.
    pub fn from_bytes(alloc: Global, bytes: &[u8]) -> Result<Name, NoMemory>
        ensures { IfOk result (λ n. n ≡ bytes.now) }
    {
        let count = bytes.len();
        if count > SHORT_LIMIT {
            let bytes = Vec::from_slice(alloc, bytes)?;
            let text = Text::Long(Boxed::new(alloc, bytes)?);
            return Ok(Name { text });
        }
        let mut short = [0; SHORT_LIMIT];
        short[..count].copy_from_slice(bytes);
        let text = Text::Short(count as u8, short);
        Ok(Name { text })
    }

    /// Its bytes.
    pub fn bytes(&self) -> &[u8]
        ensures { result.now ≡ self.now }
    {
        match &self.text {
            Text::Short(count, bytes) => &bytes[..*count as usize],
            Text::Long(bytes) => bytes.get(),
        }
    }
}
