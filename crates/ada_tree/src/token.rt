use crate::words::Reserved;
use spark_base::{Bytes, FileNo, Items, Pos, Span};

/// A delimiter, of one or two bytes.
#[derive(Clone, Copy, Debug, PartialEq, Eq)]
pub enum Mark {
    /// `&`
    Ampersand,
    /// `'`
    Tick,
    /// `(`
    Open,
    /// `)`
    Close,
    /// `*`
    Star,
    /// `+`
    Plus,
    /// `,`
    Comma,
    /// `-`
    Minus,
    /// `.`
    Dot,
    /// `/`
    Slash,
    /// `:`
    Colon,
    /// `;`
    Semicolon,
    /// `<`
    Less,
    /// `=`
    Equal,
    /// `>`
    Greater,
    /// `|`
    Bar,
    /// `=>`
    Arrow,
    /// `..`
    Dots,
    /// `**`
    Power,
    /// `:=`
    Becomes,
    /// `/=`
    NotEqual,
    /// `>=`
    AtLeast,
    /// `<=`
    AtMost,
    /// `<<`
    OpenLabel,
    /// `>>`
    CloseLabel,
    /// `<>`
    Box,
}

/// What a token is.
#[derive(Clone, Copy, Debug, PartialEq, Eq)]
pub enum TokenKind {
    /// An identifier.
    Word,
    Reserved(Reserved),
    /// A number, by its value.
    Number(u128),
    /// A string literal.
    Text,
    /// A character literal.
    Character,
    Mark(Mark),
}

/// A token of a source.
#[derive(Clone, Copy, Debug, PartialEq, Eq)]
pub struct Token {
    pub kind: TokenKind,
    pub span: Span,
    /// The place in the source, from 0, of the token's first byte.
    pub from: u32,
    /// The place in the source, from 0, behind the token's last byte.
    pub to: u32,
}

/// The tokens of a file, and its bytes, of which each token is a slice.
#[derive(Debug, Drop)]
pub struct Tokens {
    pub file: FileNo,
    pub source: Bytes,
    /// In the order of the source.
    pub list: Items<Token>,
    /// The place behind the last byte.
    pub end: Pos,
}
