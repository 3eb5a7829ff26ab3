// What is answered of the parts of the grammar that a call reads by itself.
use crate::reading::{
    Answer, Part, answer_of, aspects_of, declarations_of, expressions_of, names_of, statements_of,
};
use spark_messages::Code;
use std::alloc::{AllocError, Global};
use std::test::Fail;

#[test]
fn expressions_and_names(rt: HostRuntime) -> Result<(), Fail> {
    let cases = [
        (
            Part::Expression,
            "A + B * 2",
            "Identifier Identifier Number Product Sum ",
        ),
        (
            Part::Expression,
            "- A ** 2",
            "Identifier Number Power Sign ",
        ),
        (Part::Expression, "not A", "Identifier Not "),
        (
            Part::Expression,
            "A and then B and then C",
            "Identifier Identifier Logical Identifier Logical ",
        ),
        (
            Part::Expression,
            "A < B or C",
            "Identifier Identifier Relation Identifier Logical ",
        ),
        (
            Part::Expression,
            "A not in B .. C",
            "Identifier Identifier Identifier RangeMembership ",
        ),
        (
            Part::Expression,
            "A in P.B",
            "Identifier Identifier Selected MarkMembership ",
        ),
        (
            Part::Expression,
            "(if A then B else C)",
            "Identifier Identifier Identifier Conditional Parenthesized ",
        ),
        (
            Part::Expression,
            "(1, 2, others => 3)",
            "Number Number Number PositionalAggregate ",
        ),
        (
            Part::Expression,
            "(A | B => 1, others => 2)",
            "Identifier ValueChoice Identifier ValueChoice Number Association OthersChoice Number Association NamedAggregate ",
        ),
        (Part::Range, "1 .. N", "Number Identifier BoundsRange "),
        (
            Part::Range,
            "T range 1 .. 2",
            "Identifier Number Number SubtypeIndication SubtypeRange ",
        ),
        (
            Part::Range,
            "T",
            "Identifier SubtypeIndication SubtypeRange ",
        ),
        (
            Part::Range,
            "A'Range",
            "Identifier RangeAttribute AttributeRange ",
        ),
        (
            Part::Name,
            "P.F (1).G",
            "Identifier Selected Number Argument Applied Selected ",
        ),
        (
            Part::Name,
            "F (X => 1, 2)",
            "Identifier Identifier Number Argument Number Argument Applied ",
        ),
        (
            Part::Name,
            "T'(A)",
            "Identifier Identifier Parenthesized Qualified ",
        ),
        (Part::Name, "A'First (1)", "Identifier Number Attribute "),
        (Part::Simple, "A - B", "Identifier Identifier Sum "),
        (Part::Simple, "A < B", "Identifier "),
    ];
    for (part, text, wanted) in cases {
        let found = expressions_of(rt.alloc(), part, text)?;
        assert_eq!(rt; found.as_str(), wanted, "of {text}");
    }
    Ok(())
}

#[test]
fn aspects(rt: HostRuntime) -> Result<(), Fail> {
    let cases = [
        ("with Global => null", "Null Global "),
        ("with Global => P.X", "Items Global "),
        ("with Global => (X, P.Y)", "Items Global "),
        (
            "with Global => (Input => X)",
            "Items Mode { mode: Input } Global ",
        ),
        // A mode's name is a variable's where no arrow stands behind it.
        ("with Global => (Input, X)", "Items Global "),
        (
            "with Global => (INPUT => X, Output => null, In_Out => (A, B), Proof_In => C)",
            "Items Mode { mode: Input } Null Mode { mode: Output } Items Mode { mode: InOut } Items Mode { mode: ProofIn } Global ",
        ),
        (
            "with Refined_Global => (Output => X)",
            "Items Mode { mode: Output } RefinedGlobal ",
        ),
        ("with Depends => null", "Null Depends "),
        (
            "with Depends => (X => Y)",
            "Items Items Dependency { has_plus: false } Depends ",
        ),
        (
            "with Depends => (X =>+ null, (A, B) => (C, D), null => E)",
            "Items Null Dependency { has_plus: true } Items Items Dependency { has_plus: false } Null Items Dependency { has_plus: false } Depends ",
        ),
        (
            "with Refined_Depends => (X => + Y)",
            "Items Items Dependency { has_plus: true } RefinedDepends ",
        ),
        ("with Abstract_State => null", "AbstractState "),
        (
            "with Abstract_State => S",
            "State { has_options: false } AbstractState ",
        ),
        (
            "with Abstract_State => (S, T)",
            "State { has_options: false } State { has_options: false } AbstractState ",
        ),
        (
            "with Abstract_State => (S with External)",
            "State { has_options: true } AbstractState ",
        ),
        (
            "with Abstract_State => ((S with External => (A, B)), T)",
            "State { has_options: true } State { has_options: false } AbstractState ",
        ),
        (
            "with Abstract_State => (S, (T with External))",
            "State { has_options: false } State { has_options: true } AbstractState ",
        ),
        (
            "with Refined_State => (S => X, T => (X, Y), U => null)",
            "Items Refinement Items Refinement Null Refinement RefinedState ",
        ),
        ("with Initializes => null", "Null Initializes "),
        (
            "with Initializes => (X, Y => Z, P.V => (A, B), W => null)",
            "Initialized { has_inputs: false } Items Initialized { has_inputs: true } Items Initialized { has_inputs: true } Null Initialized { has_inputs: true } Initializes ",
        ),
        ("with Part_Of => P.S", "PartOf "),
        (
            "with ATOMIC => TRUE, Part_Of => S",
            "Atomic { has_definition: true } PartOf ",
        ),
        ("with Atomic", "Atomic { has_definition: false } "),
        (
            "with Foo, Bar => 1",
            "Unknown { has_definition: false } Unknown { has_definition: true } ",
        ),
        (
            "with Global => null, Depends => null",
            "Null Global Null Depends ",
        ),
    ];
    for (text, wanted) in cases {
        let found = aspects_of(rt.alloc(), text)?;
        assert_eq!(rt; found.as_str(), wanted, "of {text}");
    }
    Ok(())
}

#[test]
fn aspects_that_are_read_over(rt: HostRuntime) -> Result<(), Fail> {
    let alloc = rt.alloc();
    let names = [
        "Pre",
        "Post",
        "Refined_Post",
        "Contract_Cases",
        "Initial_Condition",
        "Subprogram_Variant",
        "SPARK_Mode",
        "Priority",
        "Inline",
        "Size",
        "Always_Terminates",
        "Volatile_Function",
        "Async_Readers",
        "Async_Writers",
        "Effective_Reads",
        "Effective_Writes",
    ];
    let wanted =
        "Skipped { has_definition: false } Skipped { has_definition: true } Skipped { has_definition: true } ";
    for name in names {
        let text = format!(in alloc;
            "with {name}, {name} =>, {name} => (A, (B)) = C'Old and then D > 8"
        )?;
        let found = aspects_of(alloc, text.as_str())?;
        assert_eq!(rt; found.as_str(), wanted, "of {name}");
    }
    Ok(())
}

#[test]
fn statements(rt: HostRuntime) -> Result<(), Fail> {
    let cases = [
        ("null;", "Null Sequence "),
        ("X (1).Y := 1;", "Assignment Sequence "),
        ("P;", "Call Sequence "),
        ("P.F (1);", "Call Sequence "),
        ("return;", "Return { has_value: false } Sequence "),
        ("return X;", "Return { has_value: true } Sequence "),
        ("delay until X;", "DelayUntil Sequence "),
        (
            "exit;",
            "Exit { has_loop_name: false, has_condition: false } Sequence ",
        ),
        (
            "exit L;",
            "Exit { has_loop_name: true, has_condition: false } Sequence ",
        ),
        (
            "exit when X;",
            "Exit { has_loop_name: false, has_condition: true } Sequence ",
        ),
        (
            "exit L when X;",
            "Exit { has_loop_name: true, has_condition: true } Sequence ",
        ),
        // A pragma leaves no node.
        ("pragma Assert (X, (Y));", "Sequence "),
        ("null; pragma P; X;", "Null Call Sequence "),
        (
            "if A then null; end if;",
            "Null Sequence If { has_else: false } Sequence ",
        ),
        (
            "if A then null; elsif B then P; else return; end if;",
            "Null Sequence Call Sequence Return { has_value: false } Sequence If { has_else: true } Sequence ",
        ),
        (
            "case A is when 1 | 2 => null; when others => P; end case;",
            "Null Sequence Alternative Call Sequence Alternative Case Sequence ",
        ),
        (
            "loop null; end loop;",
            "Null Sequence Loop { has_label: false, has_end_name: false } Sequence ",
        ),
        (
            "L : loop null; end loop L;",
            "Null Sequence Loop { has_label: true, has_end_name: true } Sequence ",
        ),
        (
            "L : while A loop null; end loop;",
            "Null Sequence While { has_label: true, has_end_name: false } Sequence ",
        ),
        (
            "for I in reverse T loop null; end loop L;",
            "Null Sequence For { has_label: false, has_end_name: true } Sequence ",
        ),
        (
            "B : begin null; end C;",
            "Null Sequence Block { has_label: true, has_declare: false, has_end_name: true } Sequence ",
        ),
        (
            "declare X : T; begin null; end;",
            "Null Sequence Block { has_label: false, has_declare: true, has_end_name: false } Sequence ",
        ),
    ];
    for (text, wanted) in cases {
        let found = statements_of(rt.alloc(), text)?;
        assert_eq!(rt; found.as_str(), wanted, "of {text}");
    }
    Ok(())
}

#[test]
fn declarations(rt: HostRuntime) -> Result<(), Fail> {
    let cases = [
        ("", ""),
        ("pragma P (X);", ""),
        (
            "X : T;",
            "Object { is_constant: false, has_initial_value: false } ",
        ),
        (
            "X : T range 1 .. 2 := 1 with Atomic;",
            "Object { is_constant: false, has_initial_value: true } ",
        ),
        (
            "X : constant T;",
            "Object { is_constant: true, has_initial_value: false } ",
        ),
        (
            "A, B : constant T := 1;",
            "Object { is_constant: true, has_initial_value: true } Object { is_constant: true, has_initial_value: true } ",
        ),
        ("N : constant := 1;", "NamedNumber "),
        (
            "type T is (A, B);",
            "EnumerationLiteral EnumerationLiteral EnumerationType ",
        ),
        ("type T is range 1 .. 2;", "RangeType "),
        ("type T is mod 8;", "ModularType "),
        ("type T is array (1 .. 2) of U;", "ArrayType "),
        ("type T is null record;", "NullRecordType "),
        ("type T is private;", "PrivateType "),
        (
            "type T is record A, B : U; C : V := 1; end record;",
            "Component { has_preset: false } Component { has_preset: false } Component { has_preset: true } RecordType ",
        ),
        ("subtype S is T range 1 .. 2;", "Subtype "),
        (
            "use P.Q, R; use type T;",
            "Use { is_type: false } Use { is_type: true } ",
        ),
    ];
    for (text, wanted) in cases {
        let found = declarations_of(rt.alloc(), text)?;
        assert_eq!(rt; found.as_str(), wanted, "of {text}");
    }
    Ok(())
}

#[test]
fn names(rt: HostRuntime) -> Result<(), Fail> {
    let cases = [
        (
            Part::Declarations,
            "A, B : T; type E is (C, D);",
            "A B C D E ",
        ),
        (
            Part::Statements,
            "L : for I in T loop null; end loop L;",
            "L I ",
        ),
        // What is read over leaves its name.
        (
            Part::Aspects,
            "with Pre => (A, (B)), Size => 8",
            "Pre Size ",
        ),
    ];
    for (part, text, wanted) in cases {
        let found = names_of(rt.alloc(), part, text)?;
        assert_eq!(rt; found.as_str(), wanted, "of {text}");
    }
    Ok(())
}

// The longest front that goes on, where it is a sentence, by the place behind it.
#[test]
fn fronts(rt: HostRuntime) -> Result<(), Fail> {
    let cases = [
        (Part::Expression, "A and B or C", 3),
        (Part::Expression, "A ** B ** C", 3),
        (Part::Aspects, "with Pre => (A, (B)), Size => 8 is", 14),
        (Part::Aspects, "with Pre =>", 3),
        (Part::Aspects, "with Pre => ; Size", 3),
        (Part::Aspects, "with Foo X", 2),
        (Part::Aspects, "with Pre => A) => B", 4),
        (
            Part::Aspects,
            "with Pre => A = \"x,)\" & 'c', Size => (',', \";\", is) ;",
            18,
        ),
        (Part::Aspects, "with Initializes => X Y", 4),
        (Part::Statements, "null; end", 2),
        (Part::Statements, "null; goto L;", 2),
        (Part::Statements, "P; when X", 2),
        (Part::Statements, "return; 5", 2),
        (Part::Declarations, "X : T; begin", 4),
    ];
    for (part, text, next) in cases {
        let found = answer_of(rt.alloc(), part, text)?;
        assert_eq!(rt; found, Answer::Read { next }, "of {text}");
    }
    Ok(())
}

// The first token that no sentence goes on with, or the end of input.
#[test]
fn refusals_of_expressions_and_aspects(rt: HostRuntime) -> Result<(), Fail> {
    let cases = [
        (Part::Expression, "A and then B and C", Code::S01, 18),
        (Part::Expression, "(1, others => 2)", Code::S01, 5),
        (Part::Expression, "(A => 1, 2)", Code::S01, 11),
        (Part::Expression, "F (1 => 2)", Code::S01, 6),
        (Part::Expression, "A'First (X => 1)", Code::S01, 12),
        (Part::Expression, "- - A", Code::S01, 3),
        (Part::Expression, "A + goto", Code::U01, 5),
        (Part::Expression, "(A", Code::S01, 3),
        (Part::Expression, "", Code::S01, 1),
        (Part::Name, "1", Code::S01, 1),
        (Part::Aspects, "with Global => (In => X)", Code::S01, 17),
        (Part::Aspects, "with Global => (Foo => X)", Code::S01, 21),
        (
            Part::Aspects,
            "with Global => (Input => A, Foo => B)",
            Code::S01,
            29,
        ),
        (Part::Aspects, "with Global X", Code::S01, 13),
        (Part::Aspects, "with Global => (X => +", Code::S01, 19),
        (Part::Aspects, "with Atomic => False", Code::S01, 16),
        (Part::Aspects, "with Depends => X", Code::S01, 17),
        (Part::Aspects, "with Depends => (X =>+ +", Code::S01, 24),
        (Part::Aspects, "with Refined_State => null", Code::S01, 23),
        (Part::Aspects, "with Refined_State => (S)", Code::S01, 25),
        (
            Part::Aspects,
            "with Abstract_State => (S with A, T",
            Code::S01,
            36,
        ),
        (Part::Aspects, "with Abstract_State => ((S))", Code::S01, 27),
        (Part::Aspects, "with Part_Of => null", Code::S01, 17),
        (Part::Aspects, "with Global => goto", Code::U01, 16),
        (Part::Aspects, "with Pre => (A", Code::S01, 15),
        (Part::Aspects, "with Foo,", Code::S01, 10),
        (Part::Aspects, "with", Code::S01, 5),
        (Part::Aspects, "Global => null", Code::S01, 1),
    ];
    for (part, text, code, column) in cases {
        let found = answer_of(rt.alloc(), part, text)?;
        assert_eq!(rt; found, Answer::Refused(code, column), "of {text}");
    }
    Ok(())
}

#[test]
fn refusals_of_statements_and_declarations(rt: HostRuntime) -> Result<(), Fail> {
    let cases = [
        (Part::Statements, "if A null; end if;", Code::S01, 6),
        (
            Part::Statements,
            "if A then null; else end if;",
            Code::S01,
            22,
        ),
        (Part::Statements, "case A is end case;", Code::S01, 11),
        (Part::Statements, "loop null; end loop X Y;", Code::S01, 23),
        (Part::Statements, "loop null; end loop 5;", Code::S01, 21),
        (Part::Statements, "loop end loop;", Code::S01, 6),
        (Part::Statements, "L : X := 1;", Code::S01, 5),
        (
            Part::Statements,
            "L : if A then null; end if;",
            Code::S01,
            5,
        ),
        (Part::Statements, "pragma P (X;", Code::S01, 13),
        (Part::Statements, "delay X;", Code::S01, 7),
        (Part::Statements, "goto L;", Code::U01, 1),
        (Part::Statements, "", Code::S01, 1),
        (Part::Declarations, "X : ;", Code::S01, 5),
        (Part::Declarations, "X, : T;", Code::S01, 4),
        (Part::Declarations, "type T is ();", Code::S01, 12),
        (
            Part::Declarations,
            "type T is record end record;",
            Code::S01,
            18,
        ),
        (Part::Declarations, "subtype S is;", Code::S01, 13),
        (Part::Declarations, "use type;", Code::S01, 9),
    ];
    for (part, text, code, column) in cases {
        let found = answer_of(rt.alloc(), part, text)?;
        assert_eq!(rt; found, Answer::Refused(code, column), "of {text}");
    }
    Ok(())
}

/// A front, so many times a text, a text behind these, and so many times a last one.
fn nested(alloc: Global, texts: [&str; 4], times: usize) -> Result<String, AllocError> {
    let [front, opens, middle, closes] = texts;
    let mut text = String::new(alloc);
    text.push_str(front)?;
    for _ in 0..times {
        text.push_str(opens)?;
    }
    text.push_str(middle)?;
    for _ in 0..times {
        text.push_str(closes)?;
    }
    Ok(text)
}

#[test]
fn limits(rt: HostRuntime) -> Result<(), Fail> {
    let alloc = rt.alloc();
    let parentheses = ["", "(", "A", ")"];
    let operators = ["A", " + A", " + (A + A)", ""];
    let read_over = ["with Pre => ", "(", "A", ")"];
    let branches = ["", "if A then ", "null;", "end if;"];
    let loops = ["", "loop ", "null;", "end loop;"];
    let cases = [
        (
            Part::Expression,
            parentheses,
            128,
            Answer::Read { next: 257 },
        ),
        (
            Part::Expression,
            parentheses,
            129,
            Answer::Refused(Code::X02, 129),
        ),
        (
            Part::Expression,
            operators,
            1022,
            Answer::Read { next: 2051 },
        ),
        (
            Part::Expression,
            operators,
            1023,
            Answer::Refused(Code::X02, 4100),
        ),
        (Part::Aspects, read_over, 128, Answer::Read { next: 260 }),
        (
            Part::Aspects,
            read_over,
            129,
            Answer::Refused(Code::X02, 141),
        ),
        (Part::Statements, branches, 128, Answer::Read { next: 770 }),
        (
            Part::Statements,
            branches,
            129,
            Answer::Refused(Code::X02, 1281),
        ),
        (Part::Statements, loops, 16, Answer::Read { next: 66 }),
        (Part::Statements, loops, 17, Answer::Refused(Code::X02, 81)),
    ];
    for (part, texts, times, wanted) in cases {
        let text = nested(alloc, texts, times)?;
        let found = answer_of(alloc, part, text.as_str())?;
        assert_eq!(rt; found, wanted, "of {times} times {}", texts[1]);
    }
    Ok(())
}
