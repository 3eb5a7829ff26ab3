use ada_tree::TokenKind;
use spark_messages::Code;

/// A piece of a source: white space, a comment or a token.
#[derive(Clone, Copy, Debug, PartialEq, Eq)]
pub struct Piece {
    pub len: usize,
    /// The kind of a token; none for white space and comments.
    pub kind: Option<TokenKind>,
}

/// A refusal at a byte, counted from where a piece was to begin.
#[derive(Clone, Copy, Debug)]
pub struct Fault {
    pub code: Code,
    pub at: usize,
}
