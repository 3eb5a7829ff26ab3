ghost use Rattle.std.specs.Prelude.{◌≡◌};
ghost use Rattle.ada_grammar.specs.Lexemes.{lexemes, lexeme, sort};
ghost use Rattle.ada_grammar.specs.Numbers as numbers;
ghost use Rattle.ada_grammar.specs.Sorts as sorts;
ghost use Rattle.ada_grammar.specs.Taking.{Accepts, Expects};
ghost use Rattle.ada_tree.specs.declared.identifiers.WordRole.TheVariants as roles;
ghost use Rattle.ada_tree.specs.declared.token.TokenKind.TheVariants as kinds;

use crate::nodes::text;
use ada_tree::{Mark, Reserved, Token, TokenKind, Tokens, WordRole, role_of};
use spark_base::NoMemory;
use std::alloc::{AllocError, AllocFailed};

/// Tokens that the grammar has in one place.
#[derive(Clone, Copy, Debug)]
pub enum Class {
    /// An identifier.
    Word,
    Number,
    Reserved(Reserved),
    Mark(Mark),
    /// `=`, `/=`, `<`, `<=`, `>`, `>=`
    Relational,
    /// `+`, `-`
    Adding,
    /// `*`, `/`, `mod`, `rem`
    Multiplying,
    /// An identifier, or `Range`.
    AttributeName,
    /// The mode of a Global: `Input`, `Output`, `In_Out`, `Proof_In`.
    Mode,
    /// The literal `True`.
    True,
    /// What a statement begins with.
    Statement,
    /// What a compound statement begins with that is no `if` and no `case`: behind a label alone.
    Compound,
    /// What a declaration begins with that a block may have.
    LocalDeclaration,
    /// What a declaration begins with.
    Declaration,
    /// What an operation of a protected type begins with.
    Operation,
    /// What the body of an operation of a protected type begins with.
    OperationBody,
    /// An operation, a component or a pragma.
    PrivateItem,
    /// What stands in a file by itself.
    FileItem,
    /// Any token but `(` and `)`.
    Enclosed,
    /// Any token but `(`, `)`, `,`, `;` and `is`.
    Skipped,
}

/// The head of a loop, up to its `loop`.
#[derive(Clone, Copy, Debug)]
pub enum LoopHead {
    /// No head is open.
    Nothing,
    /// Behind `for`, before its `in`.
    Parameter,
    /// Behind `while`, or the `in` of a `for`.
    Scheme,
}

/// The token before, as far as it matters to the limits.
#[derive(Clone, Copy, Debug)]
pub enum Last {
    Other,
    Not,
    And,
    Or,
    End,
    Is,
    Tick,
}

/// What the limits know of the tokens that were read.
#[derive(Clone, Copy, Debug)]
pub struct Nesting {
    /// How many parentheses are open.
    pub depth: usize,
    /// How many operators the expression has so far that stands in no other.
    pub operators: usize,
    /// Where fewer parentheses than so many are open, two dots part two expressions; elsewhere they stand in one.
    pub parted: usize,
    /// How many compound statements are open.
    pub compounds: usize,
    /// How many of them are loops.
    pub loops: usize,
    /// Whether statements are read, and `begin` opens a block.
    pub in_statements: bool,
    /// Whether tokens are skipped: a pragma, or what stands behind `with`.
    pub skips: bool,
    pub head: LoopHead,
    pub last: Last,
}

/// A place between tokens, from 0, and what the limits know there.
#[derive(Clone, Copy, Debug)]
pub struct Cursor {
    pub at: usize,
    pub nesting: Nesting,
}

/// Why a part of the grammar was not read. Tokens are told by their number, from 0.
#[derive(Clone, Copy, Debug)]
pub enum Fault {
    NoMemory,
    /// No sentence goes on with this token, or with the end of the tokens.
    Syntax(usize),
    /// This token passes a limit.
    Limit(usize),
}

impl From<NoMemory> for Fault {
    ghost use Rattle.ada_grammar.specs.declared.tokens.Fault.TheVariants as faults;

    ghost from_gives = { λ _ fault. fault ≡ faults.NoMemory };

    fn from(_: NoMemory) -> Fault {
        Fault::NoMemory
    }
}

impl From<AllocError> for Fault {
    ghost use Rattle.ada_grammar.specs.declared.tokens.Fault.TheVariants as faults;

    ghost from_gives = { λ _ fault. fault ≡ faults.NoMemory };

    fn from(_: AllocError) -> Fault {
        Fault::NoMemory
    }
}

impl<T: Drop> From<AllocFailed<T>> for Fault {
    ghost use Rattle.ada_grammar.specs.declared.tokens.Fault.TheVariants as faults;

    ghost from_gives = { λ _ fault. fault ≡ faults.NoMemory };

    fn from(_: AllocFailed<T>) -> Fault {
        Fault::NoMemory
    }
}

/// `=`, `/=`, `<`, `<=`, `>` or `>=`.
fn is_relational(mark: Mark) -> bool
    ensures { result ≡ sorts.is_relational mark }
{
    match mark {
        Mark::Equal | Mark::NotEqual | Mark::Less => true,
        Mark::AtMost | Mark::Greater | Mark::AtLeast => true,
        _ => false,
    }
}

/// Whether a reserved word is this one.
fn is_reserved(found: Reserved, word: Reserved) -> bool
    ensures { result ≡ numbers.same_word word found }
{
    found == word
}

/// Whether a mark is this one.
fn is_mark(found: Mark, mark: Mark) -> bool
    ensures { result ≡ numbers.same_mark mark found }
{
    found == mark
}

/// Whether a word begins a compound statement that is no `if` and no `case`.
fn opens_compound(word: Reserved) -> bool
    ensures { result ≡ sorts.opens_compound word }
{
    match word {
        Reserved::While | Reserved::For | Reserved::Loop => true,
        Reserved::Declare | Reserved::Begin => true,
        _ => false,
    }
}

/// Whether a word begins a statement.
fn opens_statement(word: Reserved) -> bool
    ensures { result ≡ sorts.opens_statement word }
{
    match word {
        Reserved::Null | Reserved::Pragma | Reserved::If | Reserved::Case => true,
        Reserved::Exit | Reserved::Return | Reserved::Delay => true,
        Reserved::While | Reserved::For | Reserved::Loop => true,
        Reserved::Declare | Reserved::Begin => true,
        _ => false,
    }
}

/// Whether a word begins a declaration that a block may have.
fn opens_local(word: Reserved) -> bool
    ensures { result ≡ sorts.opens_local word }
{
    match word {
        Reserved::Type | Reserved::Subtype | Reserved::Use | Reserved::Pragma => true,
        _ => false,
    }
}

/// Whether a word begins a declaration.
fn opens_declaration(word: Reserved) -> bool
    ensures { result ≡ sorts.opens_declaration word }
{
    match word {
        Reserved::Procedure | Reserved::Function | Reserved::Task | Reserved::Protected => true,
        Reserved::Type | Reserved::Subtype | Reserved::Use | Reserved::Pragma => true,
        _ => false,
    }
}

/// Whether a word begins what stands in a file by itself.
fn opens_file_item(word: Reserved) -> bool
    ensures { result ≡ sorts.opens_file_item word }
{
    match word {
        Reserved::Pragma | Reserved::With | Reserved::Use => true,
        Reserved::Package | Reserved::Procedure => true,
        _ => false,
    }
}

/// Whether a word begins the body of an operation of a protected type.
fn opens_body(word: Reserved) -> bool
    ensures { result ≡ sorts.opens_body word }
{
    match word {
        Reserved::Procedure | Reserved::Function | Reserved::Entry => true,
        _ => false,
    }
}

impl Class {
    /// Whether a reserved word is of the class.
    fn has_word(self, word: Reserved) -> bool
        ensures { result ≡ sorts.is_in self (sorts.ReservedSort word) }
    {
        match self {
            Class::Reserved(wanted) => is_reserved(word, wanted),
            Class::Multiplying => matches!(word, Reserved::Mod | Reserved::Rem),
            Class::AttributeName => matches!(word, Reserved::Range),
            Class::Statement => opens_statement(word),
            Class::Compound => opens_compound(word),
            Class::LocalDeclaration => opens_local(word),
            Class::Declaration => opens_declaration(word),
            Class::Operation => opens_body(word) || matches!(word, Reserved::Pragma),
            Class::OperationBody => opens_body(word),
            Class::PrivateItem => opens_body(word) || matches!(word, Reserved::Pragma),
            Class::FileItem => opens_file_item(word),
            Class::Enclosed => true,
            Class::Skipped => !matches!(word, Reserved::Is),
            _ => false,
        }
    }

    /// Whether a mark is of the class.
    fn has_mark(self, mark: Mark) -> bool
        ensures { result ≡ sorts.is_in self (sorts.MarkSort mark) }
    {
        match self {
            Class::Mark(wanted) => is_mark(mark, wanted),
            Class::Relational => is_relational(mark),
            Class::Adding => matches!(mark, Mark::Plus | Mark::Minus),
            Class::Multiplying => matches!(mark, Mark::Star | Mark::Slash),
            Class::Enclosed => !matches!(mark, Mark::Open | Mark::Close),
            Class::Skipped => {
                !matches!(
                    mark,
                    Mark::Open | Mark::Close | Mark::Comma | Mark::Semicolon
                )
            }
            _ => false,
        }
    }

    /// Whether identifiers are of the class, whatever they are.
    fn has_identifiers(self) -> bool
        ensures { result ≡ sorts.is_in self (sorts.WordSort roles.Ordinary) }
    {
        match self {
            Class::Word | Class::AttributeName | Class::Statement => true,
            Class::LocalDeclaration | Class::Declaration | Class::PrivateItem => true,
            Class::Enclosed | Class::Skipped => true,
            _ => false,
        }
    }

    /// Whether an identifier that is written so is of the class.
    fn has_identifier(self, text: &[u8]) -> bool
        ensures { result ≡ sorts.is_in self (sorts.sort_of kinds.Word text.now) }
    {
        match self {
            Class::Mode => matches!(role_of(text), WordRole::Mode),
            Class::True => matches!(role_of(text), WordRole::True),
            _ => self.has_identifiers(),
        }
    }

    /// Whether a token is of the class.
    fn has(self, tokens: &Tokens, token: Token) -> bool
        ensures { result ≡ sorts.is_in self (sort (lexeme tokens.now.source token)) }
    {
        match token.kind {
            TokenKind::Word => self.has_identifier(text(tokens, token)),
            TokenKind::Reserved(word) => self.has_word(word),
            TokenKind::Mark(mark) => self.has_mark(mark),
            TokenKind::Number(_) => {
                matches!(self, Class::Number | Class::Enclosed | Class::Skipped)
            }
            _ => matches!(self, Class::Enclosed | Class::Skipped),
        }
    }
}

/// Takes the next token if it is of the class. The fault can only be `Limit`, at this token.
pub fn accept(
    tokens: &Tokens,
    cursor: Cursor,
    class: Class,
) -> Result<Option<(Token, Cursor)>, Fault>
    ensures { Accepts class (lexeme tokens.now.source) (lexemes tokens.now) cursor result }
{
    let list = tokens.list.as_slice();
    let Some(token) = list.get(cursor.at) else {
        return Ok(None);
    };
    if !class.has(tokens, *token) {
        return Ok(None);
    }
    match cursor.nesting.behind(token.kind) {
        Some(nesting) => {
            let next = Cursor {
                at: cursor.at + 1,
                nesting,
            };
            Ok(Some((*token, next)))
        }
        None => Err(Fault::Limit(cursor.at)),
    }
}

/// Takes the next token, which has to be of the class. The fault is `Limit` or `Syntax`, at this place.
pub fn expect(tokens: &Tokens, cursor: Cursor, class: Class) -> Result<(Token, Cursor), Fault>
    ensures { Expects class (lexeme tokens.now.source) (lexemes tokens.now) cursor result }
{
    match accept(tokens, cursor, class)? {
        Some(taken) => Ok(taken),
        None => Err(Fault::Syntax(cursor.at)),
    }
}
