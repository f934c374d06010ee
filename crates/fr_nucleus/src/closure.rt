//! The closure of the identity under limit sections of products with sections of generators.

ghost use Rattle.std.specs.Prelude.{◌≡◌, ◌<◌, ◌≤◌, ◌⊎◌, List, IfOk, IfErr, OnOk, length};
ghost use Rattle.fr_machine.specs.declared.row.Row.{Row};
ghost use Rattle.fr_machine.specs.Rows.{IsLonger};
ghost use Rattle.fr_nucleus.specs.Rows.{AreFewRows};
ghost use Rattle.fr_nucleus.specs.Products.{IsProductTable};
ghost use Rattle.fr_nucleus.specs.Numberings.{AreMembers, IsNumberingOf, IsClosure, HasMoreOf};
ghost use Rattle.fr_nucleus.specs.Surveys.{IsSurvey, classes_of};

use crate::fault::NucleusFault;
use crate::numbering::{check_guess, grown_members, number_classes, outside_of};
use crate::pairs::with_products;
use crate::survey::Survey;
use fr_machine::{Machine, Walk};
use std::alloc::Global;

/// The members of the closure, and their products with the sections of generators.
#[derive(Drop)]
pub struct Closure {
    /// A row for each member.
    pub members: Machine,
    /// A row for each product of a member and a section.
    pub products: Machine,
    /// For each product whether it acts like no member.
    pub outside: Vec<bool>,
}

/// The closure: begun with the identity, it has the limit sections of each product of a member and one of the `sections`,
/// which are the rows that are reached from cycles of the machine of all such products. Each pair is multiplied once.
///
/// Errors: `Passes(most)` exactly where the closure has more than `most` members, and want of memory.
pub fn close(alloc: Global, sections: &Machine, most: u16) -> Result<Closure, NucleusFault>
    requires sections { AreFewRows sections.now.rows }
    requires least { 1 ≤ most }
    requires most { most ≤ 256 }
    ensures alphabet { IfOk result (λ c. (c.members.alphabet ≡ sections.now.alphabet) × (c.products.alphabet ≡ sections.now.alphabet)) }
    ensures closure { IfOk result (λ c. IsClosure sections.now.alphabet sections.now.rows c.members.rows c.products.rows c.outside.items) }
    ensures few { IfOk result (λ c. length c.members.rows ≤ most) }
    ensures err { IfErr result (λ e. (e ≡ NucleusFault.NoMemory) ⊎ ((e ≡ NucleusFault.Passes most) × HasMoreOf sections.now.alphabet sections.now.rows most)) }
{
    let mut members = Machine::identity(alloc, sections.alphabet())?;
    let mut products = with_products(Vec::new(alloc), &members, sections)?;
    let mut survey = Survey::new(alloc)?;
    let mut walk = number_products(alloc, &members, &products, &mut survey, sections, most)?;
    while walk.keys().len() > members.rows().len() {
        members = grown_members(alloc, survey.of(&products), &walk, &products, &members)?;
        products = with_products(products.into_rows(), &members, sections)?;
        walk = number_products(alloc, &members, &products, &mut survey, sections, most)?;
    }
    let outside = outside_of(alloc, survey.of(&products), &walk)?;
    Ok(Closure {
        members,
        products,
        outside,
    })
}

// Numbers the classes of products that are members, where `survey` has what is known of the products before.
fn number_products(
    alloc: Global,
    members: &Machine,
    products: &Machine,
    survey: &mut Survey,
    sections: &Machine,
    most: u16,
) -> Result<Walk, NucleusFault>
    requires members_over { members.now.alphabet ≡ sections.now.alphabet }
    requires products_over { products.now.alphabet ≡ sections.now.alphabet }
    requires sections { AreFewRows sections.now.rows }
    requires members { AreMembers sections.now.alphabet sections.now.rows members.now.rows }
    requires table { IsProductTable members.now.rows sections.now.rows products.now.rows }
    requires survey { (old : List Row) × IsSurvey sections.now.alphabet old survey.old × IsLonger old products.now.rows }
    requires few { length members.now.rows ≤ most }
    requires most { most ≤ 256 }
    ensures survey { OnOk result (IsSurvey sections.now.alphabet products.now.rows survey.new) }
    ensures numbers { IfOk result (λ w. IsNumberingOf sections.now.alphabet products.now.rows (length members.now.rows) (length sections.now.rows) most (classes_of survey.new) w.keys) }
    ensures bound { IfOk result (λ w. w.bound ≡ length (classes_of survey.new)) }
    ensures err { IfErr result (λ e. (e ≡ NucleusFault.NoMemory) ⊎ ((e ≡ NucleusFault.Passes most) × HasMoreOf sections.now.alphabet sections.now.rows most)) }
{
    let count = members.rows().len() as u16;
    let width = sections.rows().len() as u16;
    survey.extend(alloc, products)?;
    check_guess(alloc, products, survey, most)?;
    survey.refine(alloc, products)?;
    number_classes(alloc, products, survey, count, width, most)
}
