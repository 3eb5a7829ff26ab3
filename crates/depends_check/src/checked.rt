ghost use Rattle.std.specs.Prelude.{◌≡◌};
ghost use Rattle.std.specs.Option.{option_copied};
ghost use Rattle.depends_check.specs.DependsCheck as spec;

use core_form::{Body, Contract, DependsPair};
use spark_base::{PackageNo, Span};

fn with_depends(contract: &Option<Contract>) -> Option<&Contract>
    ensures { option_copied result ≡ spec.with_depends contract.now }
{
    match contract {
        Some(contract) => match &contract.depends {
            Some(_) => Some(contract),
            None => None,
        },
        None => None,
    }
}

// The contract whose Depends is checked.
pub fn checked_depends(body: &Body) -> Option<&Contract>
    ensures { option_copied result ≡ spec.checked_depends body.now }
{
    match with_depends(&body.inner) {
        Some(inner) => Some(inner),
        None => with_depends(&body.outer),
    }
}

// From inside which package it sees, if any.
pub fn depends_view(body: &Body) -> Option<PackageNo>
    ensures { result ≡ spec.depends_view body.now }
{
    match (with_depends(&body.inner), with_depends(&body.outer)) {
        (None, Some(outer)) if outer.on_spec => None,
        _ => body.package,
    }
}

pub fn pairs_of(contract: &Contract) -> &[DependsPair]
    ensures { result.now ≡ spec.pairs_of contract.now }
{
    match &contract.depends {
        Some(pairs) => pairs.as_slice(),
        None => &[],
    }
}

// The place of the name of its Depends.
pub fn aspect_of(contract: &Contract) -> Span
    ensures { result ≡ spec.aspect_of contract.now }
{
    match contract.depends_place {
        Some(place) => place,
        None => contract.place,
    }
}
