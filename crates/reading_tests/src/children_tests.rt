use ada_grammar::{
    Children, add_aspect, add_declaration, add_end_name, add_named_aspect, add_statement, add_unit,
    declare_all,
};
use ada_tree::{AspectKind, DeclKind, StmtKind, Token, TokenKind, Tokens, UnitKind, Units};
use spark_base::{Bytes, ExprNo, FileNo, Items, NoMemory, Pos, Span};
use std::alloc::Global;
use std::test::Fail;

const PLACE: Pos = Pos { line: 1, col: 1 };

const PART: Span = Span {
    file: FileNo(0),
    from: PLACE,
    to: PLACE,
};

/// A word of the source.
fn word(from: u32, to: u32) -> Token {
    Token {
        kind: TokenKind::Word,
        span: PART,
        from,
        to,
    }
}

/// The words `A`, `B` and `C`.
fn words(alloc: Global) -> Result<Tokens, NoMemory> {
    let mut list = Items::new(alloc);
    list.push(word(0, 1))?;
    list.push(word(2, 3))?;
    list.push(word(4, 5))?;
    Ok(Tokens {
        file: FileNo(0),
        source: Bytes::from_slice(alloc, b"A B C")?,
        list,
        end: PLACE,
    })
}

#[test]
fn each_name_has_a_node(rt: HostRuntime) -> Result<(), Fail> {
    let alloc = rt.alloc();
    let tokens = words(alloc)?;
    let mut units = Units::new(alloc);
    let mut own = Children::new(alloc);
    add_end_name(alloc, &mut units, &tokens, word(4, 5), &mut own)?;
    let mut names = Items::new(alloc);
    names.push(word(0, 1))?;
    names.push(word(2, 3))?;
    let mut into = Children::new(alloc);
    declare_all(
        alloc,
        &mut units,
        &tokens,
        DeclKind::NullRecordType,
        &names,
        own,
        &mut into,
    )?;
    assert_eq!(rt; units.exprs.len(), 1);
    assert_eq!(rt; into.decls.len(), 2);
    for node in units.decls.as_slice() {
        assert_eq!(rt; node.exprs.as_slice(), [ExprNo(0)].as_slice());
    }
    Ok(())
}

/// A null statement over an end name, and an exit.
fn statements(alloc: Global, units: &mut Units, tokens: &Tokens) -> Result<Children, NoMemory> {
    let mut own = Children::new(alloc);
    add_end_name(alloc, units, tokens, word(0, 1), &mut own)?;
    let mut into = Children::new(alloc);
    add_statement(units, StmtKind::Null, PART, own, &mut into)?;
    let exit = StmtKind::Exit {
        has_loop_name: true,
        has_condition: false,
    };
    add_statement(units, exit, PART, Children::new(alloc), &mut into)?;
    Ok(into)
}

#[test]
fn nodes_stand_under_a_unit(rt: HostRuntime) -> Result<(), Fail> {
    let alloc = rt.alloc();
    let tokens = words(alloc)?;
    let mut units = Units::new(alloc);
    let mut into = statements(alloc, &mut units, &tokens)?;
    add_declaration(
        &mut units,
        DeclKind::PrivatePart,
        PART,
        Children::new(alloc),
        &mut into,
    )?;
    add_aspect(
        &mut units,
        AspectKind::Null,
        PART,
        Children::new(alloc),
        &mut into,
    )?;
    add_named_aspect(
        alloc,
        &mut units,
        &tokens,
        AspectKind::PartOf,
        word(2, 3),
        Children::new(alloc),
        &mut into,
    )?;
    let main = UnitKind::Main {
        has_end_name: false,
    };
    add_unit(alloc, &mut units, &tokens, main, word(4, 5), into)?;
    assert_eq!(rt; units.units.len(), 1);
    if let Some(unit) = units.units.get(0) {
        assert_eq!(rt; unit.stmts.len(), 2);
        assert_eq!(rt; unit.decls.len(), 1);
        assert_eq!(rt; unit.aspects.len(), 2);
    }
    Ok(())
}
