use ada_grammar::{
    Class, Cursor, Fault, Last, LoopHead, Nesting, accept, expect, limit_fault, syntax_fault,
};
use ada_tree::{
    AspectName, GlobalMode, Mark, Reserved, Token, TokenKind, Tokens, WordRole, aspect_name,
    mode_of, role_of,
};
use spark_base::{Bytes, FileNo, Items, NoMemory, Pos, Span};
use spark_messages::{Code, PhaseFault};
use std::alloc::Global;
use std::test::Fail;

/// A token of the first line, that begins at this place of the source.
fn token(kind: TokenKind, from: u32, to: u32) -> Token {
    let begin = Pos {
        line: 1,
        col: from.saturating_add(1),
    };
    let end = Pos {
        line: 1,
        col: to.saturating_add(1),
    };
    let span = Span {
        file: FileNo(0),
        from: begin,
        to: end,
    };
    Token {
        kind,
        span,
        from,
        to,
    }
}

/// The tokens of `(A) goto`.
fn tokens(alloc: Global) -> Result<Tokens, NoMemory> {
    let mut list = Items::new(alloc);
    list.push(token(TokenKind::Mark(Mark::Open), 0, 1))?;
    list.push(token(TokenKind::Word, 1, 2))?;
    list.push(token(TokenKind::Mark(Mark::Close), 2, 3))?;
    list.push(token(TokenKind::Reserved(Reserved::Goto), 4, 8))?;
    Ok(Tokens {
        file: FileNo(0),
        source: Bytes::from_slice(alloc, b"(A) goto")?,
        list,
        end: Pos { line: 1, col: 9 },
    })
}

/// How many operators there are behind a token, or none where it passes a limit.
fn operators(nesting: Nesting, kind: TokenKind) -> Option<usize> {
    match nesting.behind(kind) {
        Some(next) => Some(next.operators),
        None => None,
    }
}

/// A reserved word.
fn word(word: Reserved) -> TokenKind {
    TokenKind::Reserved(word)
}

/// How many compound statements are open behind some words, or none where one passes a limit.
fn compounds(nesting: Nesting, words: &[Reserved]) -> Option<usize> {
    let mut level = nesting;
    for found in words {
        match level.behind(word(*found)) {
            Some(next) => level = next,
            None => return None,
        }
    }
    Some(level.compounds)
}

/// The code and the column of a refusal.
fn told(fault: PhaseFault) -> Option<(Code, u32)> {
    match fault {
        PhaseFault::Refused(message) => Some((message.code, message.place.col)),
        PhaseFault::NoMemory => None,
    }
}

#[test]
fn a_token_is_taken_where_it_stands(rt: HostRuntime) -> Result<(), Fail> {
    let tokens = tokens(rt.alloc())?;
    let start = Cursor {
        at: 0,
        nesting: Nesting::new(0, 0),
    };
    match accept(&tokens, start, Class::Mark(Mark::Open)) {
        Ok(Some((_, next))) => {
            assert_eq!(rt; next.at, 1);
            assert_eq!(rt; next.nesting.depth, 1);
        }
        _ => assert!(rt; false),
    }
    assert!(rt; matches!(accept(&tokens, start, Class::Word), Ok(None)));
    assert!(rt; matches!(expect(&tokens, start, Class::Word), Err(Fault::Syntax(0))));
    Ok(())
}

#[test]
fn classes_tell_tokens_apart(rt: HostRuntime) -> Result<(), Fail> {
    let tokens = tokens(rt.alloc())?;
    let open = Cursor {
        at: 0,
        nesting: Nesting::new(0, 0),
    };
    assert!(rt; matches!(accept(&tokens, open, Class::Enclosed), Ok(None)));
    assert!(rt; matches!(accept(&tokens, open, Class::Statement), Ok(None)));
    let word = Cursor {
        at: 1,
        nesting: Nesting::new(1, 0),
    };
    assert!(rt; matches!(accept(&tokens, word, Class::Enclosed), Ok(Some(_))));
    assert!(rt; matches!(accept(&tokens, word, Class::Statement), Ok(Some(_))));
    assert!(rt; matches!(accept(&tokens, word, Class::Mode), Ok(None)));
    assert!(rt; matches!(accept(&tokens, word, Class::True), Ok(None)));
    Ok(())
}

#[test]
fn a_token_that_passes_a_limit_is_told(rt: HostRuntime) -> Result<(), Fail> {
    let tokens = tokens(rt.alloc())?;
    let deep = Cursor {
        at: 0,
        nesting: Nesting::new(128, 0),
    };
    assert!(rt;
        matches!(
            accept(&tokens, deep, Class::Mark(Mark::Open)),
            Err(Fault::Limit(0))
        )
    );
    let full = Cursor {
        at: 0,
        nesting: Nesting::new(127, 0),
    };
    assert!(rt; matches!(accept(&tokens, full, Class::Mark(Mark::Open)), Ok(Some(_))));
    Ok(())
}

#[test]
fn operators_are_counted(rt: HostRuntime) -> Result<(), Fail> {
    let one = Nesting {
        operators: 1023,
        ..Nesting::new(0, 1)
    };
    assert_eq!(rt; operators(one, TokenKind::Mark(Mark::Plus)), Some(1024));
    let all = Nesting {
        operators: 1024,
        ..Nesting::new(0, 1)
    };
    assert_eq!(rt; operators(all, TokenKind::Mark(Mark::Plus)), None);
    assert_eq!(rt; operators(all, word(Reserved::In)), None);
    assert_eq!(rt; operators(all, TokenKind::Mark(Mark::Dots)), Some(0));
    assert_eq!(rt; operators(all, word(Reserved::Then)), Some(0));
    let joined = Nesting {
        last: Last::And,
        ..all
    };
    assert_eq!(rt; operators(joined, word(Reserved::Then)), Some(1024));
    let negated = Nesting {
        operators: 1024,
        last: Last::Not,
        ..Nesting::new(1, 1)
    };
    assert_eq!(rt; operators(negated, word(Reserved::In)), Some(1024));
    assert_eq!(rt; operators(negated, TokenKind::Mark(Mark::Dots)), Some(1024));
    Ok(())
}

#[test]
fn compound_statements_are_counted(rt: HostRuntime) -> Result<(), Fail> {
    let start = Nesting::in_statements();
    let full = Nesting {
        compounds: 128,
        ..start
    };
    assert!(rt; full.behind(word(Reserved::If)).is_none());
    assert_eq!(rt; compounds(full, &[Reserved::End, Reserved::If]), Some(127));
    assert_eq!(rt;
        compounds(start, &[Reserved::Declare, Reserved::Begin]),
        Some(1)
    );
    assert_eq!(rt; compounds(start, &[Reserved::Begin, Reserved::If]), Some(2));
    assert_eq!(rt; compounds(Nesting::new(0, 1), &[Reserved::Begin]), Some(0));
    assert_eq!(rt;
        compounds(full, &[Reserved::End, Reserved::Record]),
        Some(128)
    );
    Ok(())
}

#[test]
fn loops_are_counted(rt: HostRuntime) -> Result<(), Fail> {
    let full = Nesting {
        compounds: 16,
        loops: 16,
        ..Nesting::in_statements()
    };
    assert!(rt; full.behind(word(Reserved::Loop)).is_none());
    assert!(rt; full.behind(word(Reserved::While)).is_none());
    let headed = Nesting {
        head: LoopHead::Scheme,
        ..full
    };
    assert_eq!(rt; compounds(headed, &[Reserved::Loop]), Some(16));
    assert_eq!(rt; compounds(full, &[Reserved::End, Reserved::Loop]), Some(15));
    assert_eq!(rt;
        compounds(
            full,
            &[
                Reserved::End,
                Reserved::Loop,
                Reserved::For,
                Reserved::In,
                Reserved::Loop
            ]
        ),
        Some(16)
    );
    Ok(())
}

#[test]
fn pragmas_are_skipped(rt: HostRuntime) -> Result<(), Fail> {
    let all = Nesting {
        operators: 1024,
        ..Nesting::in_statements()
    };
    assert_eq!(rt;
        compounds(all, &[Reserved::Pragma, Reserved::And, Reserved::If]),
        Some(0)
    );
    Ok(())
}

#[test]
fn words_are_known_by_their_text(rt: HostRuntime) -> Result<(), Fail> {
    assert!(rt; matches!(mode_of(b"In_Out"), Some(GlobalMode::InOut)));
    assert!(rt; matches!(mode_of(b"In"), None));
    assert!(rt; matches!(role_of(b"PROOF_IN"), WordRole::Mode));
    assert!(rt; matches!(role_of(b"True"), WordRole::True));
    assert!(rt; matches!(role_of(b"False"), WordRole::Ordinary));
    assert!(rt; matches!(aspect_name(b"Part_Of"), AspectName::PartOf));
    assert!(rt; matches!(aspect_name(b"Effective_Writes"), AspectName::Skipped));
    assert!(rt; matches!(aspect_name(b"Import"), AspectName::Unknown));
    Ok(())
}

#[test]
fn refusals_tell_their_tokens(rt: HostRuntime) -> Result<(), Fail> {
    let alloc = rt.alloc();
    let tokens = tokens(alloc)?;
    assert_eq!(rt; told(syntax_fault(alloc, &tokens, 2)), Some((Code::S01, 3)));
    assert_eq!(rt; told(syntax_fault(alloc, &tokens, 3)), Some((Code::U01, 5)));
    assert_eq!(rt; told(syntax_fault(alloc, &tokens, 4)), Some((Code::S01, 9)));
    assert_eq!(rt; told(limit_fault(alloc, &tokens, 0)), Some((Code::X02, 1)));
    Ok(())
}
