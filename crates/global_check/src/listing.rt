ghost use Rattle.std.specs.Prelude.{◌≡◌, ◌<◌, All, IsTrue, ◌↔◌, length, slice_get, Some};
ghost use Rattle.std.specs.Option.{option_copied};
ghost use Rattle.core_form.specs.Fine.{IsWellFormed};
ghost use Rattle.global_check.specs.GlobalCheck as spec;
ghost use Rattle.global_check.specs.GlobalCheck.{IsListed, IsMissing};

use core_form::{Body, Contract, GlobalItem, Item, Mode, Program};
use spark_base::{ObjectNo, PackageNo};

/// As what a Global may list an item.
#[derive(Clone, Copy, Debug, PartialEq, Eq)]
pub enum Listing {
    /// For more than proofs.
    Used,
    ForProofs,
    /// As Output or In_Out.
    AsOutput,
}

pub fn passes(listing: Listing, mode: Mode) -> bool
    ensures { result ≡ spec.passes listing mode }
{
    match listing {
        Listing::Used => mode != Mode::ProofIn,
        Listing::ForProofs => mode == Mode::ProofIn,
        Listing::AsOutput => mode == Mode::Output || mode == Mode::InOut,
    }
}

fn lists(program: &Program, listing: Listing, global: GlobalItem, item: Item) -> bool
    ensures { IsTrue result ↔ (IsTrue (spec.passes listing global.mode) × (slice_get program.now.items global.item.0 ≡ Some item)) }
{
    match program.items.get(global.item.0 as usize) {
        Some(listed) => passes(listing, global.mode) && *listed == item,
        None => false,
    }
}

// Whether a Global lists an item so.
pub fn is_listed(program: &Program, listing: Listing, globals: &[GlobalItem], item: Item) -> bool
    ensures { IsTrue result ↔ IsListed program.now listing globals.now item }
{
    for global in globals {
        if lists(program, listing, *global, item) {
            return true;
        }
    }
    false
}

// Whether a Global does not list an item, or lists it for proofs.
pub fn is_missing(program: &Program, globals: &[GlobalItem], item: Item) -> bool
    ensures { IsTrue result ↔ IsMissing program.now globals.now item }
{
    !is_listed(program, Listing::Used, globals, item)
        || is_listed(program, Listing::ForProofs, globals, item)
}

// The contract whose Global is checked.
pub fn checked_contract(body: &Body) -> Option<&Contract>
    ensures { option_copied result ≡ spec.checked_contract body.now }
{
    match &body.inner {
        Some(inner) => Some(inner),
        None => body.outer.as_ref(),
    }
}

// From inside which package it sees, if any.
pub fn checked_view(body: &Body) -> Option<PackageNo>
    ensures { result ≡ spec.checked_view body.now }
{
    match (&body.inner, &body.outer) {
        (None, Some(outer)) if outer.on_spec => None,
        _ => body.package,
    }
}

// Whether an item is the object to which an operation belongs.
pub fn is_own_item(own: Option<ObjectNo>, item: Item) -> bool
    ensures { result ≡ spec.is_own_item own item }
{
    match item {
        Item::Guard(object) => own == Some(object),
        Item::Whole(_) | Item::State(_) => false,
    }
}
