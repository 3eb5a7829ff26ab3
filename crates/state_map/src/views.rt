ghost use Rattle.std.specs.Prelude.{◌≡◌, ◌<◌, length};
ghost use Rattle.std.specs.Option.{option_copied};
ghost use Rattle.core_form.specs.Fine.{IsWellFormed};
ghost use Rattle.state_map.specs.Views as spec;
ghost use Rattle.state_map.specs.Views.{IsView, IsBodyView};

use core_form::{Home, Item, Program, Sharing, Var};
use spark_base::{LeafNo, ObjectNo, PackageNo, VarNo};

/// Of what a variable is a part.
fn owner(var: VarNo, sharing: Sharing) -> Item
    ensures { result ≡ spec.owner var sharing }
{
    match sharing {
        Sharing::Component(object) => Item::Guard(object),
        Sharing::Plain | Sharing::Atomic | Sharing::ClockTime => Item::Whole(var),
    }
}

/// The variable of an item that is no state.
fn item_var<'a>(program: &'a Program, item: Item) -> Option<&'a Var>
    ensures { option_copied result ≡ spec.item_var program.now item }
{
    match item {
        Item::Whole(var) => program.vars.get(var.0 as usize),
        Item::State(_) => None,
        Item::Guard(object) => match program.objects.get(object.0 as usize) {
            Some(object) => program.vars.get(object.var.0 as usize),
            None => None,
        },
    }
}

/// Whether what has this home is declared in the package from inside which one looks.
fn is_inside(inside: Option<PackageNo>, home: Home) -> bool
    ensures { result ≡ spec.is_inside inside home }
{
    match (inside, home) {
        (Some(package), Home::Package(own)) => package == own,
        _ => false,
    }
}

/// An item, as it is seen from inside a package, or from outside of all.
fn seen(program: &Program, inside: Option<PackageNo>, item: Item) -> Item
    ensures { result ≡ spec.seen program.now inside item }
{
    match item_var(program, item) {
        Some(var) => match var.state {
            Some(state) if !is_inside(inside, var.home) => Item::State(state),
            _ => item,
        },
        None => item,
    }
}

/// The variable of a leaf, or the object whose component that is.
fn owner_of(program: &Program, leaf: LeafNo) -> Item
    requires fine { IsWellFormed program.now }
    requires in_range { leaf.0 < length program.now.leaves }
    ensures { spec.IsOwner program.now leaf.0 result }
{
    let var = program.leaves.at(leaf.0 as usize).var;
    owner(var, program.vars.at(var.0 as usize).sharing)
}

/// The item as which a leaf is seen from inside a package, or from outside of all packages: the state of its variable,
/// or of the object whose component that is, where it has one and is not of this package; else the variable or object.
/// It takes no memory, and constant time.
pub fn view_item(program: &Program, leaf: LeafNo, inside: Option<PackageNo>) -> Item
    requires fine { IsWellFormed program.now }
    requires in_range { leaf.0 < length program.now.leaves }
    ensures { IsView program.now inside leaf.0 result }
{
    seen(program, inside, owner_of(program, leaf))
}

/// The item as which the contract of a body sees a leaf. `own` is the object to which the body belongs as an operation:
/// that is an implied formal of its contracts, so its components are seen as the object itself, whether it has a state
/// or not; all other leaves are seen as by `view_item`. It takes no memory, and constant time.
pub fn view_in_body(
    program: &Program,
    leaf: LeafNo,
    own: Option<ObjectNo>,
    inside: Option<PackageNo>,
) -> Item
    requires fine { IsWellFormed program.now }
    requires in_range { leaf.0 < length program.now.leaves }
    ensures { IsBodyView program.now own inside leaf.0 result }
{
    match owner_of(program, leaf) {
        Item::Guard(object) if own == Some(object) => Item::Guard(object),
        item => seen(program, inside, item),
    }
}
