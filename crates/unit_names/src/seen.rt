//! Which units there are, by their names.
ghost use Rattle.std.specs.Prelude.{◌≡◌, ◌∷◌, ◌++◌, [], ℕ, List, true, nat_eq, if◌then◌else◌, OnOk};
ghost use Rattle.unit_names.specs.Names.{has_part, is_bodiless, is_doubled, is_there};
ghost use Rattle.unit_names.specs.Seen.{IsSeen, has};
ghost use Rattle.unit_names.specs.declared.heads.Head.{Head as TheHead};

use crate::heads::{Head, Part, Withed};
use spark_base::NoMemory;
use std::alloc::Global;
use std::collections::BTreeSet;

/// The names of the units of each part.
#[derive(Drop)]
pub struct Seen {
    specs: BTreeSet<usize>,
    bodies: BTreeSet<usize>,
    mains: BTreeSet<usize>,
}

/// Adds a number.
fn add(set: &mut BTreeSet<usize>, number: usize) -> Result<(), NoMemory>
    ensures { OnOk result ((i : ℕ) → has set.new i ≡ (if nat_eq number i then true else has set.old i)) }
{
    set.insert(number)?;
    Ok(())
}

impl Seen {
    /// No units.
    pub fn new(alloc: Global) -> Self
        ensures { IsSeen result [] }
    {
        Seen {
            specs: BTreeSet::new(alloc),
            bodies: BTreeSet::new(alloc),
            mains: BTreeSet::new(alloc),
        }
    }

    /// Whether there is a unit of this part and name.
    pub fn has(&self, part: Part, name: usize) -> bool
        ensures { (units : List TheHead) → IsSeen self.now units → result ≡ has_part units part name }
    {
        match part {
            Part::Spec => self.specs.contains(&name),
            Part::Body => self.bodies.contains(&name),
            Part::Main => self.mains.contains(&name),
        }
    }

    /// Adds a unit behind the others.
    pub fn note(&mut self, head: &Head) -> Result<(), NoMemory>
        ensures { OnOk result ((units : List TheHead) → IsSeen self.old units → IsSeen self.new (units ++ head.now ∷ [])) }
    {
        match head.part {
            Part::Spec => {
                add(&mut self.specs, head.name)?;
                Ok(())
            }
            Part::Body => {
                add(&mut self.bodies, head.name)?;
                Ok(())
            }
            Part::Main => {
                add(&mut self.mains, head.name)?;
                Ok(())
            }
        }
    }

    /// Whether the name of a unit is that of one of these: of one of the same part, or of a main and another.
    pub fn doubles(&self, head: &Head) -> bool
        ensures { (units : List TheHead) → IsSeen self.now units → result ≡ is_doubled units head.now }
    {
        match head.part {
            Part::Spec => self.has(Part::Spec, head.name) || self.has(Part::Main, head.name),
            Part::Body => self.has(Part::Body, head.name) || self.has(Part::Main, head.name),
            Part::Main => self.has(Part::Spec, head.name) || self.has(Part::Body, head.name),
        }
    }

    /// Whether a unit is a body whose spec is not among these.
    pub fn lacks_spec(&self, head: &Head) -> bool
        ensures { (units : List TheHead) → IsSeen self.now units → result ≡ is_bodiless units [] head.now }
    {
        head.part.is_body() && !self.has(Part::Spec, head.name)
    }

    /// Whether what a with clause names is there: the spec of a package, or the clock.
    pub fn is_there(&self, withed: Withed) -> bool
        ensures { (units : List TheHead) → IsSeen self.now units → result ≡ is_there units withed }
    {
        match withed {
            Withed::Package(name) => self.has(Part::Spec, name),
            Withed::Clock => true,
            Withed::Elsewhere => false,
        }
    }
}
