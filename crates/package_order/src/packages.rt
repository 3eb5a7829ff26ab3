ghost use Rattle.std.specs.Prelude.{◌≡◌, ◌<◌, ◌^◌, IsTrue};
ghost use Rattle.package_order.specs.Packages as packages;

use spark_base::Items;

/// A package, by what it names in with clauses. Packages are numbered from 0 by the places of their specs; a number of no package
/// is passed over.
#[derive(Drop)]
pub struct Package {
    /// The packages that its spec withs.
    pub withs: Items<usize>,
    /// Those that its body withs, if it has one.
    pub body_withs: Option<Items<usize>>,
}

/// What is elaborated: the spec of a package, or its body.
#[derive(Clone, Copy, Debug, PartialEq, Eq)]
pub struct Item {
    /// Of its package.
    pub number: usize,
    pub is_body: bool,
}

/// The place of an item in the list of all items, the spec of each package before its body.
pub(crate) fn place_of(number: usize, is_body: bool) -> usize
    requires { number < 2 ^ 63 }
    ensures { result ≡ packages.place_of is_body number }
{
    if is_body { 2 * number + 1 } else { 2 * number }
}

/// The item at a place.
pub(crate) fn item_at(place: usize) -> Item
    ensures { result ≡ packages.item_at place }
{
    Item {
        number: place / 2,
        is_body: place % 2 == 1,
    }
}

/// Whether there is a package of this number, with a body if this is asked.
pub(crate) fn has_item(all: &[Package], number: usize, is_body: bool) -> bool
    ensures value { result ≡ packages.has_item all.now is_body number }
    ensures small { IsTrue result → number < 2 ^ 63 }
{
    if number >= all.len() {
        return false;
    }
    let owner = &all[number];
    !is_body || owner.body_withs.is_some()
}
