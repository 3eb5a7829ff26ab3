use ada_lexer::{LIMIT, lex};
use ada_tree::{Mark, Reserved, Token, TokenKind, Tokens};
use spark_base::{Bytes, FileNo, NoMemory, Pos, Span};
use spark_messages::{Code, Kind, Message, PhaseFault};
use std::alloc::Global;
use std::test::Fail;

const FILE: FileNo = FileNo(7);

fn tokens_of(alloc: Global, source: &[u8]) -> Result<Tokens, PhaseFault> {
    lex(alloc, FILE, Bytes::from_slice(alloc, source)?)
}

fn refusal_of(alloc: Global, source: &[u8]) -> Result<Option<Message>, NoMemory> {
    match tokens_of(alloc, source) {
        Ok(_) => Ok(None),
        Err(PhaseFault::Refused(message)) => Ok(Some(message)),
        Err(PhaseFault::NoMemory) => Err(NoMemory),
    }
}

/// A message of a refusal.
fn message(alloc: Global, code: Code, place: Pos, text: &str) -> Result<Message, NoMemory> {
    Ok(Message {
        file: FILE,
        place,
        code,
        text: Bytes::from_slice(alloc, text.as_bytes())?,
        kind: Kind::Refused,
    })
}

/// A token of one line, by its bytes and its columns.
fn token(kind: TokenKind, bytes: (u32, u32), line: u32, cols: (u32, u32)) -> Token {
    let span = Span {
        file: FILE,
        from: Pos { line, col: cols.0 },
        to: Pos { line, col: cols.1 },
    };
    Token {
        kind,
        span,
        from: bytes.0,
        to: bytes.1,
    }
}

#[test]
fn tokens_stand_at_their_places(rt: HostRuntime) -> Result<(), Fail> {
    let source = b"begin -- one \xC8\n  N := N'First + 16#FF#E1;\nend; ";
    let tokens = tokens_of(rt.alloc(), source)?;
    let wanted = [
        token(TokenKind::Reserved(Reserved::Begin), (0, 5), 1, (1, 6)),
        token(TokenKind::Word, (17, 18), 2, (3, 4)),
        token(TokenKind::Mark(Mark::Becomes), (19, 21), 2, (5, 7)),
        token(TokenKind::Word, (22, 23), 2, (8, 9)),
        token(TokenKind::Mark(Mark::Tick), (23, 24), 2, (9, 10)),
        token(TokenKind::Word, (24, 29), 2, (10, 15)),
        token(TokenKind::Mark(Mark::Plus), (30, 31), 2, (16, 17)),
        token(TokenKind::Number(4080), (32, 40), 2, (18, 26)),
        token(TokenKind::Mark(Mark::Semicolon), (40, 41), 2, (26, 27)),
        token(TokenKind::Reserved(Reserved::End), (42, 45), 3, (1, 4)),
        token(TokenKind::Mark(Mark::Semicolon), (45, 46), 3, (4, 5)),
    ];
    assert_eq!(rt; tokens.list.as_slice(), wanted.as_slice());
    assert_eq!(rt; tokens.file, FILE);
    assert_eq!(rt; tokens.source.as_slice(), source.as_slice());
    assert_eq!(rt; tokens.end, Pos { line: 3, col: 6 });
    Ok(())
}

#[test]
fn counts_and_last_kinds(rt: HostRuntime) -> Result<(), Fail> {
    let tick = TokenKind::Mark(Mark::Tick);
    let sources = [
        (b"'a'".as_slice(), 1, TokenKind::Character),
        (b"N 'a'".as_slice(), 4, tick),
        (b"all'a'".as_slice(), 4, tick),
        (b")'a'".as_slice(), 4, tick),
        (b"end'a'".as_slice(), 2, TokenKind::Character),
        (b"\"a\"\"b\"".as_slice(), 1, TokenKind::Text),
        (b"16#F#1".as_slice(), 2, TokenKind::Number(1)),
        (b"1..5".as_slice(), 3, TokenKind::Number(5)),
        (b"0E99999".as_slice(), 1, TokenKind::Number(0)),
        (b"0_016#F#".as_slice(), 1, TokenKind::Number(15)),
        (
            b"340282366920938463463374607431768211455".as_slice(),
            1,
            TokenKind::Number(340282366920938463463374607431768211455),
        ),
    ];
    for (source, count, last) in sources {
        let tokens = tokens_of(rt.alloc(), source)?;
        let kind = tokens.list.as_slice().last().map(|token| token.kind);
        assert_eq!(rt; tokens.list.len(), count);
        assert_eq!(rt; kind, Some(last));
    }
    Ok(())
}

/// The text of a refusal, as a user reads it.
fn text_of(code: Code) -> &'static str {
    match code {
        Code::L01 => "byte outside ASCII",
        Code::L02 => "malformed number",
        Code::L03 => "number past 128 bits",
        _ => "unknown character",
    }
}

#[test]
fn refusals_stand_at_their_places(rt: HostRuntime) -> Result<(), Fail> {
    let sources = [
        (b"1_".as_slice(), Code::L02, 1, 1),
        (b"1E-1".as_slice(), Code::L02, 1, 1),
        (b"2#2#".as_slice(), Code::L02, 1, 1),
        (b"1.5".as_slice(), Code::L02, 1, 1),
        (b"16#F#_".as_slice(), Code::L04, 1, 6),
        (b"1E1#".as_slice(), Code::L04, 1, 4),
        (b"\"a\"\"b\n".as_slice(), Code::L04, 1, 1),
        (b"\"\xC8\n".as_slice(), Code::L04, 1, 1),
        (b"\"\xC8\"".as_slice(), Code::L01, 1, 2),
        (b"x\n \xC8".as_slice(), Code::L01, 2, 2),
        (b"A__B".as_slice(), Code::L04, 1, 2),
        (b"\x7F".as_slice(), Code::L04, 1, 1),
        (
            b"340282366920938463463374607431768211456".as_slice(),
            Code::L03,
            1,
            1,
        ),
    ];
    for (source, code, line, col) in sources {
        let place = Pos { line, col };
        let message = message(rt.alloc(), code, place, text_of(code))?;
        assert_eq!(rt; refusal_of(rt.alloc(), source)?, Some(message));
    }
    Ok(())
}

#[test]
fn a_source_has_a_limit(rt: HostRuntime) -> Result<(), Fail> {
    let alloc = rt.alloc();
    let blanks = vec![in alloc; b' '; LIMIT as usize + 1]?;
    let place = Pos { line: 1, col: 1 };
    let message = message(alloc, Code::X01, place, "too many bytes")?;
    assert_eq!(rt; refusal_of(alloc, &blanks)?, Some(message));
    assert_eq!(rt; refusal_of(alloc, &blanks[1..])?, None);
    Ok(())
}
