ghost use Rattle.std.specs.Prelude.{◌≡◌, ◌<◌, ◌^◌, length, IfOk};
ghost use Rattle.first_lower.specs.Lowered.{dotted, each_from, low_leaf, low_var, low_item};

use core_form::{Home, Item, Leaf, Part, Sharing, Var};
use first_path::{Variable, Word};
use spark_base::{Bytes, Items, LeafNo, NoMemory, PackageNo, VarNo};
use std::alloc::Global;

/// The printed name of what a package declares.
pub fn dotted(alloc: Global, home: &Word, name: &Word) -> Result<Bytes, NoMemory>
    ensures { IfOk result (λ b. b ≡ dotted home.now name.now) }
{
    let mut bytes = Bytes::from_slice(alloc, home.written.as_slice())?;
    bytes.append(b".")?;
    bytes.append(name.written.as_slice())?;
    Ok(bytes)
}

fn leaf(alloc: Global, home: &Word, number: u32, variable: &Variable) -> Result<Leaf, NoMemory>
    ensures { IfOk result (λ l. l ≡ low_leaf home.now number variable.now) }
{
    Ok(Leaf {
        name: dotted(alloc, home, &variable.name)?,
        var: VarNo(number),
        cells: 1,
    })
}

/// The leaves of the variables.
pub fn leaves(alloc: Global, home: &Word, variables: &[Variable]) -> Result<Items<Leaf>, NoMemory>
    requires { length variables.now < 2 ^ 32 }
    ensures { IfOk result (λ l. l ≡ each_from (low_leaf home.now) 0 variables.now) }
{
    let mut list = Items::new(alloc);
    for (i, variable) in variables.iter().enumerate() {
        list.push(leaf(alloc, home, i as u32, variable)?)?;
    }
    Ok(list)
}

fn var(alloc: Global, home: &Word, number: u32, variable: &Variable) -> Result<Var, NoMemory>
    ensures { IfOk result (λ v. v ≡ low_var home.now number variable.now) }
{
    Ok(Var {
        name: dotted(alloc, home, &variable.name)?,
        place: variable.name.span,
        home: Home::Package(PackageNo(0)),
        part: Part::Visible,
        state: None,
        sharing: Sharing::Plain,
        from: LeafNo(number),
        count: 1,
        assigned: true,
    })
}

/// The variables.
pub fn vars(alloc: Global, home: &Word, variables: &[Variable]) -> Result<Items<Var>, NoMemory>
    requires { length variables.now < 2 ^ 32 }
    ensures { IfOk result (λ l. l ≡ each_from (low_var home.now) 0 variables.now) }
{
    let mut list = Items::new(alloc);
    for (i, variable) in variables.iter().enumerate() {
        list.push(var(alloc, home, i as u32, variable)?)?;
    }
    Ok(list)
}

/// An item for each variable.
pub fn items(alloc: Global, variables: &[Variable]) -> Result<Items<Item>, NoMemory>
    requires { length variables.now < 2 ^ 32 }
    ensures { IfOk result (λ l. l ≡ each_from low_item 0 variables.now) }
{
    let mut list = Items::new(alloc);
    for (i, _variable) in variables.iter().enumerate() {
        list.push(Item::Whole(VarNo(i as u32)))?;
    }
    Ok(list)
}
