ghost use Rattle.std.specs.Prelude.{◌≡◌};
ghost use Rattle.ada_tree.specs.Identifiers as texts;

use crate::{GlobalMode, is_written};

/// What a word is beside an identifier.
#[derive(Clone, Copy, Debug)]
pub enum WordRole {
    Ordinary,
    /// The mode of a Global.
    Mode,
    /// The literal `True`.
    True,
}

/// The aspect that a word names.
#[derive(Clone, Copy, Debug)]
pub enum AspectName {
    Global,
    RefinedGlobal,
    Depends,
    RefinedDepends,
    AbstractState,
    RefinedState,
    Initializes,
    PartOf,
    Atomic,
    /// An aspect that is read over.
    Skipped,
    Unknown,
}

/// The mode that a word names, in whatever case, if it names one.
#[tactic(auto, unfolding(crate::specs::Identifiers::mode_of))]
pub fn mode_of(text: &[u8]) -> Option<GlobalMode>
    ensures { result ≡ texts.mode_of text.now }
{
    if is_written(text, b"input") {
        Some(GlobalMode::Input)
    } else if is_written(text, b"output") {
        Some(GlobalMode::Output)
    } else if is_written(text, b"in_out") {
        Some(GlobalMode::InOut)
    } else if is_written(text, b"proof_in") {
        Some(GlobalMode::ProofIn)
    } else {
        None
    }
}

/// What a word is beside an identifier, in whatever case.
#[tactic(auto, unfolding(crate::specs::Identifiers::role_of))]
pub fn role_of(text: &[u8]) -> WordRole
    ensures { result ≡ texts.role_of text.now }
{
    if mode_of(text).is_some() {
        WordRole::Mode
    } else if is_written(text, b"true") {
        WordRole::True
    } else {
        WordRole::Ordinary
    }
}

/// Whether a word names a contract of a subprogram or a package, in whatever case.
#[tactic(auto, unfolding(crate::specs::Identifiers::is_contract))]
fn is_contract(text: &[u8]) -> bool
    ensures { result ≡ texts.is_contract text.now }
{
    is_written(text, b"pre")
        || is_written(text, b"post")
        || is_written(text, b"refined_post")
        || is_written(text, b"contract_cases")
        || is_written(text, b"initial_condition")
        || is_written(text, b"subprogram_variant")
}

/// Whether a word names a setting of the proof or of the compiler, in whatever case.
#[tactic(auto, unfolding(crate::specs::Identifiers::is_setting))]
fn is_setting(text: &[u8]) -> bool
    ensures { result ≡ texts.is_setting text.now }
{
    is_written(text, b"spark_mode")
        || is_written(text, b"priority")
        || is_written(text, b"inline")
        || is_written(text, b"size")
        || is_written(text, b"always_terminates")
}

/// Whether a word names a property of what is volatile, in whatever case.
#[tactic(auto, unfolding(crate::specs::Identifiers::is_property))]
fn is_property(text: &[u8]) -> bool
    ensures { result ≡ texts.is_property text.now }
{
    is_written(text, b"volatile_function")
        || is_written(text, b"async_readers")
        || is_written(text, b"async_writers")
        || is_written(text, b"effective_reads")
        || is_written(text, b"effective_writes")
}

/// The aspect that a word names, in whatever case.
#[tactic(auto, unfolding(crate::specs::Identifiers::aspect_name))]
pub fn aspect_name(text: &[u8]) -> AspectName
    ensures { result ≡ texts.aspect_name text.now }
{
    if is_written(text, b"global") {
        AspectName::Global
    } else if is_written(text, b"refined_global") {
        AspectName::RefinedGlobal
    } else if is_written(text, b"depends") {
        AspectName::Depends
    } else if is_written(text, b"refined_depends") {
        AspectName::RefinedDepends
    } else if is_written(text, b"abstract_state") {
        AspectName::AbstractState
    } else if is_written(text, b"refined_state") {
        AspectName::RefinedState
    } else if is_written(text, b"initializes") {
        AspectName::Initializes
    } else if is_written(text, b"part_of") {
        AspectName::PartOf
    } else if is_written(text, b"atomic") {
        AspectName::Atomic
    } else if is_contract(text) || is_setting(text) || is_property(text) {
        AspectName::Skipped
    } else {
        AspectName::Unknown
    }
}
