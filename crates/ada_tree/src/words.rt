ghost use Rattle.std.specs.Prelude.{◌≡◌, length};
ghost use Rattle.ada_tree.specs.Words as words;

/// A reserved word of Ada 2012.
#[derive(Clone, Copy, Debug, PartialEq, Eq)]
pub enum Reserved {
    Abort,
    Abs,
    Abstract,
    Accept,
    Access,
    Aliased,
    All,
    And,
    Array,
    At,
    Begin,
    Body,
    Case,
    Constant,
    Declare,
    Delay,
    Delta,
    Digits,
    Do,
    Else,
    Elsif,
    End,
    Entry,
    Exception,
    Exit,
    For,
    Function,
    Generic,
    Goto,
    If,
    In,
    Interface,
    Is,
    Limited,
    Loop,
    Mod,
    New,
    Not,
    Null,
    Of,
    Or,
    Others,
    Out,
    Overriding,
    Package,
    Pragma,
    Private,
    Procedure,
    Protected,
    Raise,
    Range,
    Record,
    Rem,
    Renames,
    Requeue,
    Return,
    Reverse,
    Select,
    Separate,
    Some,
    Subtype,
    Synchronized,
    Tagged,
    Task,
    Terminate,
    Then,
    Type,
    Until,
    Use,
    When,
    While,
    With,
    Xor,
}

/// Every reserved word.
pub const RESERVED_WORDS: [Reserved; 73] = [
    Reserved::Abort,
    Reserved::Abs,
    Reserved::Abstract,
    Reserved::Accept,
    Reserved::Access,
    Reserved::Aliased,
    Reserved::All,
    Reserved::And,
    Reserved::Array,
    Reserved::At,
    Reserved::Begin,
    Reserved::Body,
    Reserved::Case,
    Reserved::Constant,
    Reserved::Declare,
    Reserved::Delay,
    Reserved::Delta,
    Reserved::Digits,
    Reserved::Do,
    Reserved::Else,
    Reserved::Elsif,
    Reserved::End,
    Reserved::Entry,
    Reserved::Exception,
    Reserved::Exit,
    Reserved::For,
    Reserved::Function,
    Reserved::Generic,
    Reserved::Goto,
    Reserved::If,
    Reserved::In,
    Reserved::Interface,
    Reserved::Is,
    Reserved::Limited,
    Reserved::Loop,
    Reserved::Mod,
    Reserved::New,
    Reserved::Not,
    Reserved::Null,
    Reserved::Of,
    Reserved::Or,
    Reserved::Others,
    Reserved::Out,
    Reserved::Overriding,
    Reserved::Package,
    Reserved::Pragma,
    Reserved::Private,
    Reserved::Procedure,
    Reserved::Protected,
    Reserved::Raise,
    Reserved::Range,
    Reserved::Record,
    Reserved::Rem,
    Reserved::Renames,
    Reserved::Requeue,
    Reserved::Return,
    Reserved::Reverse,
    Reserved::Select,
    Reserved::Separate,
    Reserved::Some,
    Reserved::Subtype,
    Reserved::Synchronized,
    Reserved::Tagged,
    Reserved::Task,
    Reserved::Terminate,
    Reserved::Then,
    Reserved::Type,
    Reserved::Until,
    Reserved::Use,
    Reserved::When,
    Reserved::While,
    Reserved::With,
    Reserved::Xor,
];

/// How a reserved word is written, in lower case.
pub fn spelled(word: Reserved) -> &'static [u8]
    ensures { result.now ≡ words.spelled word }
{
    match word {
        Reserved::Abort => b"abort",
        Reserved::Abs => b"abs",
        Reserved::Abstract => b"abstract",
        Reserved::Accept => b"accept",
        Reserved::Access => b"access",
        Reserved::Aliased => b"aliased",
        Reserved::All => b"all",
        Reserved::And => b"and",
        Reserved::Array => b"array",
        Reserved::At => b"at",
        Reserved::Begin => b"begin",
        Reserved::Body => b"body",
        Reserved::Case => b"case",
        Reserved::Constant => b"constant",
        Reserved::Declare => b"declare",
        Reserved::Delay => b"delay",
        Reserved::Delta => b"delta",
        Reserved::Digits => b"digits",
        Reserved::Do => b"do",
        Reserved::Else => b"else",
        Reserved::Elsif => b"elsif",
        Reserved::End => b"end",
        Reserved::Entry => b"entry",
        Reserved::Exception => b"exception",
        Reserved::Exit => b"exit",
        Reserved::For => b"for",
        Reserved::Function => b"function",
        Reserved::Generic => b"generic",
        Reserved::Goto => b"goto",
        Reserved::If => b"if",
        Reserved::In => b"in",
        Reserved::Interface => b"interface",
        Reserved::Is => b"is",
        Reserved::Limited => b"limited",
        Reserved::Loop => b"loop",
        Reserved::Mod => b"mod",
        Reserved::New => b"new",
        Reserved::Not => b"not",
        Reserved::Null => b"null",
        Reserved::Of => b"of",
        Reserved::Or => b"or",
        Reserved::Others => b"others",
        Reserved::Out => b"out",
        Reserved::Overriding => b"overriding",
        Reserved::Package => b"package",
        Reserved::Pragma => b"pragma",
        Reserved::Private => b"private",
        Reserved::Procedure => b"procedure",
        Reserved::Protected => b"protected",
        Reserved::Raise => b"raise",
        Reserved::Range => b"range",
        Reserved::Record => b"record",
        Reserved::Rem => b"rem",
        Reserved::Renames => b"renames",
        Reserved::Requeue => b"requeue",
        Reserved::Return => b"return",
        Reserved::Reverse => b"reverse",
        Reserved::Select => b"select",
        Reserved::Separate => b"separate",
        Reserved::Some => b"some",
        Reserved::Subtype => b"subtype",
        Reserved::Synchronized => b"synchronized",
        Reserved::Tagged => b"tagged",
        Reserved::Task => b"task",
        Reserved::Terminate => b"terminate",
        Reserved::Then => b"then",
        Reserved::Type => b"type",
        Reserved::Until => b"until",
        Reserved::Use => b"use",
        Reserved::When => b"when",
        Reserved::While => b"while",
        Reserved::With => b"with",
        Reserved::Xor => b"xor",
    }
}

/// Whether a word is written so, in whatever case.
pub fn is_written(word: &[u8], key: &[u8]) -> bool
    ensures { result ≡ words.is_written word.now key.now }
{
    word.len() == key.len() && agrees(word, key)
}

/// Whether bytes of the same number are the same, but for their case.
fn agrees(word: &[u8], key: &[u8]) -> bool
    requires { length word.now ≡ length key.now }
    ensures { result ≡ words.agrees word.now key.now }
{
    for (i, b) in word.iter().enumerate() {
        if b.to_ascii_lowercase() != key[i] {
            return false;
        }
    }
    true
}

/// The first in a list that this word is.
fn first_written(word: &[u8], list: &[Reserved]) -> Option<Reserved>
    ensures { result ≡ words.first_written word.now list.now }
{
    for r in list {
        if is_written(word, spelled(*r)) {
            return Some(*r);
        }
    }
    None
}

/// The reserved word that this is, in whatever case, if it is one.
#[tactic(auto, unfolding(crate::specs::Words::reserved_of))]
pub fn reserved_of(word: &[u8]) -> Option<Reserved>
    ensures { result ≡ words.reserved_of word.now }
{
    first_written(word, &RESERVED_WORDS)
}
