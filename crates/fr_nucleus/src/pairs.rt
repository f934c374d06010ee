//! The table of products: a row for each pair of a member and a section of a generator.

ghost use Rattle.std.specs.Prelude.{◌≡◌, ◌<◌, ◌≤◌, ◌*◌, ◌/◌, ◌%◌, IfOk, OnOk, length};
ghost use Rattle.fr_machine.specs.Rows.{row_at};
ghost use Rattle.fr_machine.specs.Rows.{IsLonger};
ghost use Rattle.fr_nucleus.specs.Products.{IsProductOfRows, AreProductRows, IsProductTable};

use fr_alphabet::NoMemory;
use fr_machine::{Machine, Row};

/// The products of each row of `members` with each of the `sections`, in this order, where the first of them are `known`
/// already. The section of a product at a letter is again such a product, so they are the rows of one machine. Both machines
/// are over one alphabet. The only error is want of memory.
pub fn with_products(
    known: Vec<Row>,
    members: &Machine,
    sections: &Machine,
) -> Result<Machine, NoMemory>
    requires alphabets { members.now.alphabet ≡ sections.now.alphabet }
    requires few { length members.now.rows ≤ 256 }
    requires few_too { length sections.now.rows ≤ 64 }
    requires within { length known.items ≤ length members.now.rows * length sections.now.rows }
    requires known { AreProductRows members.now.rows sections.now.rows known.items }
    ensures alphabet { IfOk result (λ p. p.alphabet ≡ members.now.alphabet) }
    ensures rows { IfOk result (λ p. IsProductTable members.now.rows sections.now.rows p.rows) }
    ensures longer { IfOk result (λ p. IsLonger known.items p.rows) }
{
    // For the proof: what is known of the rows.
    let _members = members.rows();
    let _sections = sections.rows();
    let mut rows = known;
    push_products(&mut rows, members, sections)?;
    Ok(Machine::from_rows(members.alphabet(), rows))
}

// Adds the products that are not in the table yet.
fn push_products(rows: &mut Vec<Row>, members: &Machine, sections: &Machine) -> Result<(), NoMemory>
    requires alphabets { members.now.alphabet ≡ sections.now.alphabet }
    requires few { length members.now.rows ≤ 256 }
    requires few_too { length sections.now.rows ≤ 64 }
    requires within { length rows.old.items ≤ length members.now.rows * length sections.now.rows }
    requires known { AreProductRows members.now.rows sections.now.rows rows.old.items }
    ensures table { OnOk result (IsProductTable members.now.rows sections.now.rows rows.new.items) }
    ensures longer { OnOk result (IsLonger rows.old.items rows.new.items) }
{
    let count = members.rows().len() * sections.rows().len();
    rows.reserve(count - rows.len())?;
    while rows.len() < count {
        rows.push(product_row(members, sections, rows.len() as u16))?;
    }
    Ok(())
}

// The product of a pair, which is a place in a table of as many columns as sections: first the member acts, then the section.
fn product_row(members: &Machine, sections: &Machine, pair: u16) -> Row
    requires alphabets { members.now.alphabet ≡ sections.now.alphabet }
    requires few { length members.now.rows ≤ 256 }
    requires few_too { length sections.now.rows ≤ 64 }
    requires pair { pair < length members.now.rows * length sections.now.rows }
    ensures { IsProductOfRows (length sections.now.rows) (row_at members.now.rows (pair / length sections.now.rows)) (row_at sections.now.rows (pair % length sections.now.rows)) result }
{
    let width = sections.rows().len() as u16;
    let left = members.wreath(pair / width);
    let right = sections.wreath(pair % width);
    let mut next = [0; 8];
    for x in 0..left.perm.letters() {
        let y = left.perm.apply(x + 1);
        next[x as usize] = left.next[x as usize] * width + right.next[y as usize - 1];
    }
    Row {
        perm: left.perm.then(&right.perm),
        next,
    }
}
