// What is answered of whole files, from their bytes.
use crate::reading::tokens_of;
use crate::worked::{
    BODY_WITHOUT_STATEMENTS, BYTE_200_IN_A_COMMENT, BYTE_200_OUTSIDE, NUMBER_PAST_THE_WIDEST,
    PRODUCER_AND_CONSUMER, READ, TOO_MANY_PARENTHESES,
};
use ada_tree::Tokens;
use spark_base::{Items, NoMemory};
use spark_messages::{Code, Message, PhaseFault};
use spark_parser::{ParseFault, parse};
use std::alloc::{AllocError, Global};
use std::test::Fail;

/// What is answered of some files.
#[derive(Clone, Copy, Debug, PartialEq, Eq)]
enum Answer {
    /// So many units.
    Read {
        units: usize,
    },
    /// So many refusals, and the code, the line and the column of the first of them.
    Refused {
        files: usize,
        first: (Code, u32, u32),
    },
}

fn refusal(code: Code, line: u32, col: u32) -> Answer {
    Answer::Refused {
        files: 1,
        first: (code, line, col),
    }
}

fn told(files: usize, message: &Message) -> Answer {
    Answer::Refused {
        files,
        first: (message.code, message.place.line, message.place.col),
    }
}

/// What the parser answers of these tokens.
fn parsed(alloc: Global, all: &[Tokens]) -> Result<Answer, NoMemory> {
    match parse(alloc, all) {
        Ok(units) => Ok(Answer::Read {
            units: units.units.len(),
        }),
        Err(ParseFault::Refused(messages)) => match messages.get(0) {
            Some(first) => Ok(told(messages.len(), first)),
            None => Err(NoMemory),
        },
        Err(ParseFault::NoMemory) => Err(NoMemory),
    }
}

/// What is answered of these sources, or of the first that is not cut into tokens.
fn answer_of_all(alloc: Global, sources: &[&[u8]]) -> Result<Answer, NoMemory> {
    let mut all = Items::new(alloc);
    for source in sources {
        match tokens_of(alloc, source) {
            Ok(tokens) => all.push(tokens)?,
            Err(PhaseFault::Refused(message)) => return Ok(told(1, &message)),
            Err(PhaseFault::NoMemory) => return Err(NoMemory),
        }
    }
    parsed(alloc, all.as_slice())
}

fn answer_of(alloc: Global, source: &[u8]) -> Result<Answer, NoMemory> {
    answer_of_all(alloc, &[source])
}

#[test]
fn single_files(rt: HostRuntime) -> Result<(), Fail> {
    let alloc = rt.alloc();
    let cases = [
        (BODY_WITHOUT_STATEMENTS, refusal(Code::S01, 2, 6)),
        (TOO_MANY_PARENTHESES, refusal(Code::X02, 2, 148)),
        (NUMBER_PAST_THE_WIDEST, refusal(Code::L03, 2, 20)),
        ("", refusal(Code::S01, 1, 1)),
        ("pragma A;\n", refusal(Code::S01, 2, 1)),
        // A context awaits its unit.
        ("package P is end; with A;", refusal(Code::S01, 1, 26)),
        ("package P is end; end", refusal(Code::S01, 1, 19)),
        // An end name is a word, and any word.
        ("package P is end 1;", refusal(Code::S01, 1, 18)),
        ("package P is end Q;", Answer::Read { units: 1 }),
        (
            "package P is private private end P;",
            refusal(Code::S01, 1, 22),
        ),
    ];
    for (source, wanted) in cases {
        assert_eq!(rt; answer_of(alloc, source.as_bytes())?, wanted, "of {source}");
    }
    assert_eq!(rt;
        answer_of(alloc, BYTE_200_IN_A_COMMENT)?,
        Answer::Read { units: 2 }
    );
    assert_eq!(rt;
        answer_of(alloc, BYTE_200_OUTSIDE)?,
        refusal(Code::L01, 1, 3)
    );
    Ok(())
}

#[test]
fn several_files(rt: HostRuntime) -> Result<(), Fail> {
    let alloc = rt.alloc();
    let contexts = "with A.B, C; use A.B; use type T.U; pragma X (1, ()); package P is end;";
    let main = "package body P is end; procedure Main is begin null; end Main; pragma Y;";
    let found = answer_of_all(alloc, &[contexts.as_bytes(), main.as_bytes()])?;
    assert_eq!(rt; found, Answer::Read { units: 3 });
    // Each refused file is told once.
    let good = "package P is end P;".as_bytes();
    let found = answer_of_all(
        alloc,
        &[good, b"package\nP begin is is", good, b"", b") ) )"],
    )?;
    let wanted = Answer::Refused {
        files: 3,
        first: (Code::S01, 2, 3),
    };
    assert_eq!(rt; found, wanted);
    Ok(())
}

#[test]
fn worked_sources_are_read(rt: HostRuntime) -> Result<(), Fail> {
    for source in READ {
        let found = answer_of(rt.alloc(), source.as_bytes())?;
        assert!(rt; matches!(found, Answer::Read { .. }), "of {source}");
    }
    Ok(())
}

#[test]
fn proper_fronts_are_refused(rt: HostRuntime) -> Result<(), Fail> {
    // The package's declaration alone is a file: that it has no body is for a later phase to refuse.
    let behind_declaration = 219;
    let alloc = rt.alloc();
    let source = PRODUCER_AND_CONSUMER.as_bytes();
    let mut read = Items::new(alloc);
    for (end, _) in source.iter().enumerate() {
        if let Answer::Read { .. } = answer_of(alloc, &source[..end])? {
            read.push(end)?;
        }
    }
    let wanted = [behind_declaration, behind_declaration + 1, source.len() - 1];
    assert_eq!(rt; read.as_slice(), wanted.as_slice());
    Ok(())
}

/// A text, so often, and one behind these.
fn push_repeated(
    source: &mut Vec<u8>,
    text: &str,
    times: usize,
    back: &str,
) -> Result<(), AllocError> {
    for _ in 0..times {
        source.extend_from_slice(text.as_bytes())?;
    }
    source.extend_from_slice(back.as_bytes())
}

#[test]
fn many_names_share_many_aspects(rt: HostRuntime) -> Result<(), Fail> {
    let alloc = rt.alloc();
    let mut source = Vec::from_slice(alloc, b"package P is A")?;
    push_repeated(&mut source, ", A", 4_000, " : T with B")?;
    push_repeated(&mut source, ", B", 4_000, "; end;")?;
    assert_eq!(rt;
        answer_of(alloc, source.as_slice())?,
        Answer::Read { units: 1 }
    );
    Ok(())
}
