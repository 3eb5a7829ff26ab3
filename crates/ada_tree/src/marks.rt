ghost use Rattle.std.specs.Prelude.{◌≡◌};
ghost use Rattle.ada_tree.specs.Marks as marks;

use crate::token::Mark;

/// The mark of one byte, if it is one.
#[tactic(auto, unfolding(crate::specs::Marks::single))]
pub fn single_mark(b: u8) -> Option<Mark>
    ensures { result ≡ marks.single b }
{
    match b {
        b'&' => Some(Mark::Ampersand),
        b'\'' => Some(Mark::Tick),
        b'(' => Some(Mark::Open),
        b')' => Some(Mark::Close),
        b'*' => Some(Mark::Star),
        b'+' => Some(Mark::Plus),
        b',' => Some(Mark::Comma),
        b'-' => Some(Mark::Minus),
        b'.' => Some(Mark::Dot),
        b'/' => Some(Mark::Slash),
        b':' => Some(Mark::Colon),
        b';' => Some(Mark::Semicolon),
        b'<' => Some(Mark::Less),
        b'=' => Some(Mark::Equal),
        b'>' => Some(Mark::Greater),
        b'|' => Some(Mark::Bar),
        _ => None,
    }
}

/// The mark of two bytes, if they are one.
#[tactic(auto, unfolding(crate::specs::Marks::double))]
pub fn double_mark(a: u8, b: u8) -> Option<Mark>
    ensures { result ≡ marks.double a b }
{
    if a == b'=' && b == b'>' {
        Some(Mark::Arrow)
    } else if a == b'.' && b == b'.' {
        Some(Mark::Dots)
    } else if a == b'*' && b == b'*' {
        Some(Mark::Power)
    } else if a == b':' && b == b'=' {
        Some(Mark::Becomes)
    } else if a == b'/' && b == b'=' {
        Some(Mark::NotEqual)
    } else if a == b'>' && b == b'=' {
        Some(Mark::AtLeast)
    } else if a == b'<' && b == b'=' {
        Some(Mark::AtMost)
    } else if a == b'<' && b == b'<' {
        Some(Mark::OpenLabel)
    } else if a == b'>' && b == b'>' {
        Some(Mark::CloseLabel)
    } else if a == b'<' && b == b'>' {
        Some(Mark::Box)
    } else {
        None
    }
}
