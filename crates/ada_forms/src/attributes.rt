//! The words of attributes.
ghost use Rattle.std.specs.Prelude.{◌≡◌};
ghost use Rattle.ada_forms.specs.AttributeWords as words;

use ada_tree::is_written;

/// What an attribute asks for.
#[derive(Clone, Copy, Debug)]
pub enum Property {
    First,
    Last,
    Length,
    Succ,
    Pred,
    Min,
    Max,
    Pos,
    Val,
    Other,
}

/// What the attribute of this word asks for, in whatever case.
#[tactic(auto, unfolding(crate::specs::AttributeWords::property_of))]
pub fn property_of(text: &[u8]) -> Property
    ensures { result ≡ words.property_of text.now }
{
    if is_written(text, b"first") {
        Property::First
    } else if is_written(text, b"last") {
        Property::Last
    } else if is_written(text, b"length") {
        Property::Length
    } else if is_written(text, b"succ") {
        Property::Succ
    } else if is_written(text, b"pred") {
        Property::Pred
    } else if is_written(text, b"min") {
        Property::Min
    } else if is_written(text, b"max") {
        Property::Max
    } else if is_written(text, b"pos") {
        Property::Pos
    } else if is_written(text, b"val") {
        Property::Val
    } else {
        Property::Other
    }
}
