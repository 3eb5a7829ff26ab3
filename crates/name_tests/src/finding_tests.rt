use name_findings::{Fault, Findings, Spelling, refuse_if};
use spark_base::{DeclNo, ExprNo, Pos, TypeNo};
use spark_messages::Code;
use std::test::Fail;

fn at(line: u32, col: u32) -> Pos {
    Pos { line, col }
}

/// Faults in the order in which they are found, and the place and the code of the one that counts.
#[test]
fn the_first_by_place_and_code_counts(rt: HostRuntime) -> Result<(), Fail> {
    let rows = [
        (
            [(2, 5, Code::Y04), (2, 4, Code::Y09), (3, 1, Code::N01)],
            (2, 4, Code::Y09),
        ),
        (
            [(2, 4, Code::Y04), (2, 4, Code::N08), (2, 4, Code::Y01)],
            (2, 4, Code::N08),
        ),
        (
            [(9, 1, Code::N12), (8, 80, Code::Y09), (9, 1, Code::N01)],
            (8, 80, Code::Y09),
        ),
        (
            [(1, 1, Code::Y01), (1, 1, Code::N12), (1, 1, Code::N10)],
            (1, 1, Code::N10),
        ),
    ];
    for (faults, (line, col, code)) in rows {
        let mut found = Findings::new(rt.alloc(), 0)?;
        for (line, col, code) in faults {
            refuse_if(&mut found, true, code, at(line, col), Spelling::Nothing);
        }
        let first = found.first().expect(&rt, "a fault is kept");
        assert_eq!(rt; first.at, at(line, col));
        assert_eq!(rt; first.code, code);
    }
    Ok(())
}

#[test]
fn of_two_alike_the_one_found_first_counts(rt: HostRuntime) -> Result<(), Fail> {
    let mut found = Findings::new(rt.alloc(), 0)?;
    refuse_if(&mut found, false, Code::N01, at(1, 1), Spelling::Exit);
    assert!(rt; found.first().is_none());
    found.refuse(Fault {
        at: at(4, 2),
        code: Code::N06,
        spelling: Spelling::Word(ExprNo(7)),
    });
    refuse_if(&mut found, true, Code::N06, at(4, 2), Spelling::Range);
    let first = found.first().expect(&rt, "a fault is kept");
    let is_first = match first.spelling {
        Spelling::Word(e) => e == ExprNo(7),
        _ => false,
    };
    assert!(rt; is_first);
    Ok(())
}

#[test]
fn names_and_types_are_kept_by_node(rt: HostRuntime) -> Result<(), Fail> {
    let mut found = Findings::new(rt.alloc(), 3)?;
    found.denote(ExprNo(1), DeclNo(9));
    found.denote(ExprNo(3), DeclNo(8));
    found.tell_type(ExprNo(2), TypeNo(4));
    found.tell_type(ExprNo(2), TypeNo(5));
    let (decls, types) = found.into_answers();
    assert_eq!(rt; decls.as_slice(), [None, Some(DeclNo(9)), None].as_slice());
    assert_eq!(rt; types.as_slice(), [None, None, Some(TypeNo(5))].as_slice());
    Ok(())
}
