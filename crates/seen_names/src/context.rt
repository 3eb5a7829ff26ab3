//! The tables of what is declared, and what a name denotes by them.
ghost use Rattle.std.specs.Prelude.{◌≡◌, slice_get};
ghost use Rattle.std.specs.Option.{option_copied};
ghost use Rattle.seen_names.specs.Contexts as spec;
ghost use Rattle.seen_names.specs.Contexts.{context};

use crate::shown::{Callable, Shown};
use name_keys::KeyTable;
use scope_table::ScopeTable;
use seen_types::{TypeTable, is_number};
use spark_base::{Items, Name};
use use_table::{Member, UseTable};

/// What is declared so far, and the regions and use clauses that are open.
#[derive(Drop)]
pub struct Tables {
    /// The numbers of names.
    pub keys: KeyTable,
    /// What is declared in open regions; the parameters of loops stand apart, since labels are declared under them.
    pub opens: ScopeTable<Shown>,
    pub params: ScopeTable<Shown>,
    /// The declarations of packages, and the packages that open use clauses name.
    pub members: UseTable<Shown>,
    /// The operations of protected units: the home of one is the number of its unit, and visible is what is not private.
    pub operations: UseTable<Shown>,
    pub types: TypeTable,
    pub callables: Items<Callable>,
}

/// A place: the package whose private part is seen there, the protected unit in whose body it is, and whether it is in a
/// function of that unit.
#[derive(Clone, Copy, Debug)]
pub struct Place {
    pub home: Option<usize>,
    pub unit: Option<usize>,
    pub in_function: bool,
}

/// Of a declaration and the parameter of a loop the one of the inner region.
fn inner_of(declared: Option<Shown>, parameter: Option<Shown>) -> Option<Shown>
    ensures { result ≡ spec.inner_of declared parameter }
{
    match (declared, parameter) {
        (_, None) => declared,
        (None, Some(_)) => parameter,
        (Some(d), Some(p)) => {
            if d.region < p.region {
                parameter
            } else {
                declared
            }
        }
    }
}

/// What is visible, or is seen from within.
fn seen_by(member: Option<Member<Shown>>, is_inside: bool) -> Option<Shown>
    ensures { result ≡ spec.seen_by is_inside member }
{
    match member {
        None => None,
        Some(member) => {
            if member.is_visible || is_inside {
                Some(member.shown)
            } else {
                None
            }
        }
    }
}

/// The member of this home that a name of this number denotes.
fn member_by(
    members: &UseTable<Shown>,
    home: usize,
    is_inside: bool,
    key: Option<usize>,
) -> Option<Shown>
    ensures { result ≡ spec.member_key members.now home is_inside key }
{
    match key {
        None => None,
        Some(key) => seen_by(members.member(home, key), is_inside),
    }
}

impl Tables {
    /// The number of a name, if it has one.
    pub fn key_of(&self, name: &Name) -> Option<usize>
        ensures { result ≡ spec.key_of self.now name.now }
    {
        self.keys.find(name.key.as_slice())
    }

    fn visible_key(&self, key: Option<usize>) -> Option<Shown>
        ensures { result ≡ spec.visible_key self.now key }
    {
        match key {
            None => None,
            Some(key) => match inner_of(self.opens.find(key), self.params.find(key)) {
                None => self.members.find(key),
                Some(shown) => Some(shown),
            },
        }
    }

    /// What a name denotes that begins here: what the innermost open region declares, and if none does what use clauses
    /// make visible.
    #[tactic(auto, unfolding(crate::specs::Contexts::visible))]
    pub fn visible(&self, name: &Name) -> Option<Shown>
        ensures { result ≡ spec.visible self.now name.now }
    {
        self.visible_key(self.key_of(name))
    }

    /// What a name denotes behind a package and a point: of its own package the private part and the body are seen too.
    #[tactic(auto, unfolding(crate::specs::Contexts::member))]
    pub fn member(&self, place: Place, home: usize, name: &Name) -> Option<Shown>
        ensures { result ≡ spec.member (context self.now place) home name.now }
    {
        member_by(
            &self.members,
            home,
            is_number(place.home, home),
            self.key_of(name),
        )
    }

    /// The operation of a protected unit: private ones are seen in its body alone.
    #[tactic(auto, unfolding(crate::specs::Contexts::operation))]
    pub fn operation(&self, place: Place, unit: usize, name: &Name) -> Option<Shown>
        ensures { result ≡ spec.operation (context self.now place) unit name.now }
    {
        member_by(
            &self.operations,
            unit,
            is_number(place.unit, unit),
            self.key_of(name),
        )
    }

    /// A subprogram, by its number.
    pub fn callable(&self, number: usize) -> Option<&Callable>
        ensures { option_copied result ≡ slice_get self.now.callables number }
    {
        self.callables.get(number)
    }
}
