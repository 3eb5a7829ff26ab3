ghost use Rattle.std.specs.Prelude.{◌≡◌, ℕ, List};
ghost use Rattle.ada_grammar.specs.Limits as limits;
ghost use Rattle.ada_grammar.specs.Sorts as sorts;

use crate::tokens::{Last, LoopHead, Nesting};
use ada_tree::{Mark, Reserved, TokenKind};

/// What a token is to the limits.
#[derive(Clone, Copy)]
pub enum Weight {
    Nothing,
    /// `(`
    Opens,
    /// `)`
    Closes,
    /// `..`
    Dots,
    /// `in`
    Contains,
    /// `mod`, an operator unless behind `is`
    Divides,
    Operator,
    /// `range`, behind which an expression begins, unless behind a tick
    Ranges,
    /// `;` and `is`: an expression may begin, and what is skipped ends
    Ends,
    /// `:` and `:=`, behind which an expression may begin
    Begins,
    /// `=>`, `|`, `,` and words behind which an expression may begin, where no parentheses are open
    Parts,
    Then,
    Else,
    /// `array`, behind which ranges stand in parentheses
    Indexes,
    /// `if` and `case`
    Branches,
    While,
    For,
    Loops,
    Declares,
    /// `begin`
    Enters,
    Record,
    With,
    Pragma,
}

/// What a reserved word is to the limits.
fn word_weight(word: Reserved) -> Weight
    ensures { result ≡ limits.word_weight word }
{
    match word {
        Reserved::And | Reserved::Or | Reserved::Xor => Weight::Operator,
        Reserved::Rem | Reserved::Abs | Reserved::Not => Weight::Operator,
        Reserved::Mod => Weight::Divides,
        Reserved::In => Weight::Contains,
        Reserved::Range => Weight::Ranges,
        Reserved::Is => Weight::Ends,
        Reserved::Elsif | Reserved::When => Weight::Parts,
        Reserved::Return | Reserved::Until => Weight::Parts,
        Reserved::Then => Weight::Then,
        Reserved::Else => Weight::Else,
        Reserved::Array => Weight::Indexes,
        Reserved::If | Reserved::Case => Weight::Branches,
        Reserved::While => Weight::While,
        Reserved::For => Weight::For,
        Reserved::Loop => Weight::Loops,
        Reserved::Declare => Weight::Declares,
        Reserved::Begin => Weight::Enters,
        Reserved::Record => Weight::Record,
        Reserved::With => Weight::With,
        Reserved::Pragma => Weight::Pragma,
        _ => Weight::Nothing,
    }
}

/// What a mark is to the limits.
fn mark_weight(mark: Mark) -> Weight
    ensures { result ≡ limits.mark_weight mark }
{
    match mark {
        Mark::Open => Weight::Opens,
        Mark::Close => Weight::Closes,
        Mark::Dots => Weight::Dots,
        Mark::Semicolon => Weight::Ends,
        Mark::Colon | Mark::Becomes => Weight::Begins,
        Mark::Arrow | Mark::Bar | Mark::Comma => Weight::Parts,
        Mark::Star | Mark::Plus | Mark::Minus | Mark::Slash => Weight::Operator,
        Mark::Power | Mark::Equal | Mark::NotEqual | Mark::Less => Weight::Operator,
        Mark::AtMost | Mark::Greater | Mark::AtLeast => Weight::Operator,
        _ => Weight::Nothing,
    }
}

/// What a token is to the limits.
fn weight_of(kind: TokenKind) -> Weight
    ensures { (text : List ℕ) → result ≡ limits.weight_of (sorts.sort_of kind text) }
{
    match kind {
        TokenKind::Mark(mark) => mark_weight(mark),
        TokenKind::Reserved(word) => word_weight(word),
        _ => Weight::Nothing,
    }
}

/// A token as the one before the next.
fn last_of(kind: TokenKind) -> Last
    ensures { (text : List ℕ) → result ≡ limits.last_of (sorts.sort_of kind text) }
{
    match kind {
        TokenKind::Reserved(Reserved::Not) => Last::Not,
        TokenKind::Reserved(Reserved::And) => Last::And,
        TokenKind::Reserved(Reserved::Or) => Last::Or,
        TokenKind::Reserved(Reserved::End) => Last::End,
        TokenKind::Reserved(Reserved::Is) => Last::Is,
        TokenKind::Mark(Mark::Tick) => Last::Tick,
        _ => Last::Other,
    }
}

impl Nesting {
    /// Before a declaration or an expression, behind so many open parentheses. With `parted`, two dots that stand in no
    /// further parentheses part two expressions.
    pub fn new(depth: usize, parted: usize) -> Nesting
        ensures { result ≡ limits.nesting depth parted }
    {
        Nesting {
            depth,
            operators: 0,
            parted,
            compounds: 0,
            loops: 0,
            in_statements: false,
            skips: false,
            head: LoopHead::Nothing,
            last: Last::Other,
        }
    }

    /// Before a statement that stands in no other.
    pub fn in_statements() -> Nesting
        ensures { result ≡ limits.before_statements }
    {
        Nesting {
            in_statements: true,
            ..Nesting::new(0, 1)
        }
    }

    /// So many operators, and two dots part two expressions in fewer parentheses than so many.
    fn with_count(self, operators: usize, parted: usize) -> Nesting
        ensures { result ≡ limits.with_count self operators parted }
    {
        Nesting {
            operators,
            parted,
            ..self
        }
    }

    /// So many compound statements and loops, and this head of a loop.
    fn with_open(self, compounds: usize, loops: usize, head: LoopHead) -> Nesting
        ensures { result ≡ limits.with_open self compounds loops head }
    {
        Nesting {
            compounds,
            loops,
            head,
            ..self
        }
    }

    /// Whether statements are read.
    fn with_statements(self, in_statements: bool) -> Nesting
        ensures { result ≡ limits.with_statements self in_statements }
    {
        Nesting {
            in_statements,
            ..self
        }
    }

    /// An expression begins, whose bounds count alone where no parentheses are open.
    fn anew(self) -> Nesting
        ensures { result ≡ limits.anew self }
    {
        self.with_count(0, 1)
    }

    /// One operator more, unless there are as many as may be.
    fn counted(self) -> Option<Nesting>
        ensures { result ≡ limits.counted self }
    {
        if self.operators < 1024 {
            Some(self.with_count(self.operators + 1, self.parted))
        } else {
            None
        }
    }

    /// The next two dots are those of a membership.
    fn member(self) -> Nesting
        ensures { result ≡ limits.member self }
    {
        if self.depth < self.parted {
            self.with_count(self.operators, 0)
        } else {
            self
        }
    }

    /// Whether `in` stands in the head of a `for` loop.
    fn in_for_head(self) -> bool
        ensures { result ≡ limits.in_for_head self }
    {
        if self.depth == 0 {
            matches!(self.head, LoopHead::Parameter)
        } else {
            false
        }
    }

    /// The word `in`: behind the parameter of a loop no operator, and counted already behind `not`.
    fn contained(self) -> Option<Nesting>
        ensures { result ≡ limits.contained self }
    {
        if self.in_for_head() {
            let headed = self.with_open(self.compounds, self.loops, LoopHead::Scheme);
            return Some(headed.anew());
        }
        match self.last {
            Last::Not => Some(self.member()),
            _ => self.member().counted(),
        }
    }

    /// One compound statement more, unless there are as many as may be.
    fn compounded(self) -> Option<Nesting>
        ensures { result ≡ limits.compounded self }
    {
        if self.compounds < 128 {
            Some(self.with_open(self.compounds + 1, self.loops, self.head))
        } else {
            None
        }
    }

    /// One loop more, with this head, unless there are as many as may be.
    fn looped(self, head: LoopHead) -> Option<Nesting>
        ensures { result ≡ limits.looped self head }
    {
        if self.loops < 16 {
            if self.compounds < 128 {
                Some(self.with_open(self.compounds + 1, self.loops + 1, head))
            } else {
                None
            }
        } else {
            None
        }
    }

    /// A statement begins.
    fn opened(self, weight: Weight) -> Option<Nesting>
        ensures { result ≡ limits.opened self weight }
    {
        match weight {
            Weight::Branches => self.compounded(),
            Weight::While => self.looped(LoopHead::Scheme),
            Weight::For => self.looped(LoopHead::Parameter),
            Weight::Loops => match self.head {
                LoopHead::Nothing => self.looped(LoopHead::Nothing),
                _ => Some(self.with_open(self.compounds, self.loops, LoopHead::Nothing)),
            },
            Weight::Declares => match self.compounded() {
                Some(next) => Some(next.with_statements(false)),
                None => None,
            },
            Weight::Enters => {
                if self.in_statements {
                    self.compounded()
                } else {
                    Some(self.with_statements(true))
                }
            }
            _ => Some(self),
        }
    }

    /// Whether the token before is `end`.
    fn is_behind_end(self) -> bool
        ensures { result ≡ limits.is_end self.last }
    {
        matches!(self.last, Last::End)
    }

    /// What counts where no parentheses are open.
    fn outside(self, weight: Weight) -> Option<Nesting>
        ensures { result ≡ limits.outside self weight }
    {
        match weight {
            Weight::Nothing | Weight::Record => Some(self),
            Weight::With => Some(Nesting {
                skips: true,
                ..self
            }),
            Weight::Parts => Some(self.anew()),
            Weight::Indexes => Some(self.with_count(0, 2)),
            Weight::Then => match self.last {
                Last::And => Some(self),
                _ => Some(self.anew()),
            },
            Weight::Else => match self.last {
                Last::Or => Some(self),
                _ => Some(self.anew()),
            },
            _ => {
                if self.is_behind_end() {
                    Some(self.anew())
                } else {
                    self.anew().opened(weight)
                }
            }
        }
    }

    /// Two dots, which part two expressions or stand in one.
    fn behind_dots(self) -> Nesting
        ensures { result ≡ limits.behind_dots self }
    {
        let parts = self.depth < self.parted;
        if parts {
            self.with_count(0, self.parted)
        } else {
            self
        }
    }

    /// What counts in what is not skipped.
    fn counts(self, weight: Weight) -> Option<Nesting>
        ensures { result ≡ limits.counts self weight }
    {
        match weight {
            Weight::Operator => self.counted(),
            Weight::Divides => match self.last {
                Last::Is => Some(self),
                _ => self.counted(),
            },
            Weight::Contains => self.contained(),
            Weight::Dots => Some(self.behind_dots()),
            Weight::Ranges => match self.last {
                Last::Tick => Some(self),
                _ => Some(self.with_count(0, self.parted)),
            },
            Weight::Begins | Weight::Ends => Some(self.anew()),
            Weight::Pragma => Some(Nesting {
                skips: true,
                ..self
            }),
            _ => {
                if self.depth == 0 {
                    self.outside(weight)
                } else {
                    Some(self)
                }
            }
        }
    }

    /// What is skipped, up to `;` or `is` where no parentheses are open.
    fn skipped(self, weight: Weight) -> Nesting
        ensures { result ≡ limits.skipped self weight }
    {
        match weight {
            Weight::Ends => {
                if self.depth == 0 {
                    let read = Nesting {
                        skips: false,
                        ..self
                    };
                    read.anew()
                } else {
                    self
                }
            }
            _ => self,
        }
    }

    /// A token more, unless it passes a limit.
    fn weighed(self, weight: Weight) -> Option<Nesting>
        ensures { result ≡ limits.weighed self weight }
    {
        match weight {
            Weight::Opens => {
                if self.depth < 128 {
                    Some(Nesting {
                        depth: self.depth + 1,
                        ..self
                    })
                } else {
                    None
                }
            }
            Weight::Closes => Some(Nesting {
                depth: self.depth.saturating_sub(1),
                ..self
            }),
            _ => {
                if self.skips {
                    Some(self.skipped(weight))
                } else {
                    self.counts(weight)
                }
            }
        }
    }

    /// One compound statement less, or none are left and the statements end.
    fn left(self) -> Nesting
        ensures { result ≡ limits.left self }
    {
        if self.compounds == 0 {
            self.with_statements(false)
        } else {
            self.with_open(self.compounds.saturating_sub(1), self.loops, self.head)
        }
    }

    /// What `end` closes, by the token behind it.
    fn closed(self, weight: Weight) -> Nesting
        ensures { result ≡ limits.closed self weight }
    {
        let compounds = self.compounds.saturating_sub(1);
        match weight {
            Weight::Record => self,
            Weight::Branches => self.with_open(compounds, self.loops, self.head),
            Weight::Loops => self.with_open(compounds, self.loops.saturating_sub(1), self.head),
            _ => self.left(),
        }
    }

    /// What stands behind `end`, which is closed by the token behind it.
    fn ended(self, weight: Weight) -> Nesting
        ensures { result ≡ limits.ended self weight }
    {
        if self.skips {
            return self;
        }
        match self.last {
            Last::End => self.closed(weight),
            _ => self,
        }
    }

    /// A token more, unless it passes a limit: 128 open parentheses, 1,024 operators in an expression that stands in
    /// no other, 128 open compound statements, 16 open loops. `and then`, `or else` and `not in` are one operator each,
    /// which counts at its first word.
    #[tactic(auto, unfolding(crate::specs::Limits::step))]
    pub fn behind(self, kind: TokenKind) -> Option<Nesting>
        ensures { (text : List ℕ) → result ≡ limits.step self (sorts.sort_of kind text) }
    {
        let weight = weight_of(kind);
        match self.ended(weight).weighed(weight) {
            Some(next) => Some(Nesting {
                last: last_of(kind),
                ..next
            }),
            None => None,
        }
    }
}
