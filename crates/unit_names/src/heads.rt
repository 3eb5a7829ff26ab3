ghost use Rattle.std.specs.Prelude.{◌≡◌};
ghost use Rattle.unit_names.specs.Names as units;
ghost use Rattle.unit_names.specs.declared.heads.Part.TheVariants as parts;

use spark_base::Items;

/// What a unit is.
#[derive(Clone, Copy, Debug, PartialEq, Eq)]
pub enum Part {
    /// The spec of a package.
    Spec,
    /// The body of a package.
    Body,
    /// A main subprogram.
    Main,
}

impl Part {
    /// Whether this is a body of a package.
    pub(crate) fn is_body(self) -> bool
        ensures { result ≡ units.is_part parts.Body self }
    {
        match self {
            Part::Body => true,
            Part::Spec | Part::Main => false,
        }
    }

    /// Whether this is a main subprogram.
    pub(crate) fn is_main(self) -> bool
        ensures { result ≡ units.is_part parts.Main self }
    {
        match self {
            Part::Main => true,
            Part::Spec | Part::Body => false,
        }
    }
}

/// What a with clause names.
#[derive(Clone, Copy, Debug, PartialEq, Eq)]
pub enum Withed {
    /// A name of one identifier, by its number.
    Package(usize),
    /// `Ada.Real_Time`, which is always there.
    Clock,
    /// Any other name of several identifiers, which never is.
    Elsewhere,
}

/// A unit, by its name and what it names in with clauses. Names are numbered: two are the same where their numbers are.
#[derive(Drop)]
pub struct Head {
    pub part: Part,
    pub name: usize,
    /// In the order of the source.
    pub withs: Items<Withed>,
}
