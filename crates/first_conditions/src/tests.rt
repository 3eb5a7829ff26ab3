use crate::conditions;
use first_path::reading_of;
use spark_base::{Bytes, FileNo, NoMemory};
use std::alloc::{AllocError, Global};
use std::test::Fail;

const COUNTER: &str = "package Counter is
   Count : Integer := 0;
   Step : Integer := 1;
   procedure Inc with Global => (In_Out => Count, Input => Step);
end Counter;
package body Counter is
   procedure Inc is
   begin
      Count := Count + Step;
   end Inc;
end Counter;
";

/// What is answered of a text.
#[derive(Clone, Copy, Debug, PartialEq, Eq)]
enum Answer {
    /// It spells no source.
    Unspelled,
    /// A source, which does not meet the conditions.
    Unmet,
    /// A source that meets them, and the place of the variable `Count`.
    Met(Option<usize>),
}

fn answer_of(alloc: Global, text: &[u8]) -> Result<Answer, NoMemory> {
    let bytes = Bytes::from_slice(alloc, text)?;
    let Some(source) = reading_of(alloc, FileNo(0), bytes)? else {
        return Ok(Answer::Unspelled);
    };
    match conditions(alloc, &source)? {
        None => Ok(Answer::Unmet),
        Some(keys) => Ok(Answer::Met(keys.find(b"count"))),
    }
}

/// The counter, with its assignment in a number of ifs, one in another.
fn in_ifs(alloc: Global, number: usize) -> Result<String, AllocError> {
    let mut text = String::new(alloc);
    for _ in 0..number {
        text.push_str("if Step > 0 then ")?;
    }
    text.push_str("Count := Count + Step;")?;
    for _ in 0..number {
        text.push_str(" end if;")?;
    }
    COUNTER.replace(alloc, "Count := Count + Step;", text.as_str())
}

/// The counter, with a number of operators in its sum.
fn with_operators(alloc: Global, number: usize) -> Result<String, AllocError> {
    let mut sum = String::new(alloc);
    for _ in 0..number {
        sum.push_str(" - 1")?;
    }
    COUNTER.replace(alloc, " + Step", sum.as_str())
}

/// The counter meets the conditions, and its first variable is `Count`.
const FIRST: Answer = Answer::Met(Some(0));

/// What is answered of the counter where the first text in it is replaced by the second.
const CHANGES: [(&str, &str, Answer); 51] = [
    ("", "", FIRST),
    // Names are the same in whatever case, and each is declared once.
    ("Count + Step", "COUNT + sTEP", FIRST),
    ("   Step :", "   count :", Answer::Unmet),
    ("   Step :", "   Counter :", Answer::Unmet),
    ("   Step :", "   INTEGER :", Answer::Unmet),
    ("   Step :", "   Inc :", Answer::Unmet),
    ("   Count :", "   Total :", Answer::Unmet),
    ("+ Step", "+ Other", Answer::Unmet),
    ("+ Step", "+ Inc", Answer::Unmet),
    ("Count := Count", "Other := Count", Answer::Unmet),
    ("Integer := 1", "Natural := 1", Answer::Unmet),
    // Each item of the Global is a variable, once, under one of three modes.
    ("In_Out => Count", "In_Out => (Count, Count)", Answer::Unmet),
    ("Input => Step", "Input => COUNT", Answer::Unmet),
    ("Input => Step", "Input => Other", Answer::Unmet),
    ("Input => Step", "INPUT => Step", FIRST),
    ("Input => Step", "Output => Step", FIRST),
    ("Input => Step", "Proof_In => Step", Answer::Unmet),
    ("(In_Out => Count, Input => Step)", "null", FIRST),
    ("(In_Out => Count, Input => Step)", "()", Answer::Unspelled),
    ("Global", "Depends", Answer::Unmet),
    // The name behind an `end` may be left out.
    ("end Inc", "end Dec", Answer::Unmet),
    ("end Inc", "end", FIRST),
    ("end Counter", "end", FIRST),
    ("end Counter;\npackage", "end Inc;\npackage", Answer::Unmet),
    ("body Counter", "body Inc", Answer::Unmet),
    ("procedure Inc is", "procedure Dec is", Answer::Unmet),
    // A number has digits alone, and 31 bits at most.
    ("1;", "2147483647;", FIRST),
    ("1;", "2147483648;", Answer::Unspelled),
    ("1;", "1_0;", Answer::Unspelled),
    ("1;", "16#F#;", Answer::Unspelled),
    ("1;", "1E1;", Answer::Unspelled),
    ("1;", "-1;", Answer::Unspelled),
    // A list has a statement.
    ("Count := Count + Step;", "null;", FIRST),
    ("Count := Count + Step;", "", Answer::Unspelled),
    // An if has a test of one relation, and ends by its own words.
    ("Count :=", "if Step > 0 then null; end if; Count :=", FIRST),
    (
        "Count :=",
        "if Step > 0 then null; else null; end if; Count :=",
        FIRST,
    ),
    (
        "Count :=",
        "if 1 + 1 /= Step - 1 then null; end if; Count :=",
        FIRST,
    ),
    (
        "Count :=",
        "if Step > Other then null; end if; Count :=",
        Answer::Unmet,
    ),
    (
        "Count :=",
        "if Other > Step then null; end if; Count :=",
        Answer::Unmet,
    ),
    (
        "Count :=",
        "if Step > 0 then Other := 1; end if; Count :=",
        Answer::Unmet,
    ),
    (
        "Count :=",
        "if Step then null; end if; Count :=",
        Answer::Unspelled,
    ),
    (
        "Count :=",
        "if Step > 0 > 1 then null; end if; Count :=",
        Answer::Unspelled,
    ),
    (
        "Count :=",
        "if Step > 0 then end if; Count :=",
        Answer::Unspelled,
    ),
    (
        "Count :=",
        "if Step > 0 then null; else end if; Count :=",
        Answer::Unspelled,
    ),
    (
        "Count :=",
        "if Step > 0 then null; end; Count :=",
        Answer::Unspelled,
    ),
    (
        "Count :=",
        "if Step > 0 then null; Count :=",
        Answer::Unspelled,
    ),
    ("Count :=", "else null; end if; Count :=", Answer::Unspelled),
    ("Count :=", "null; end if; Count :=", Answer::Unspelled),
    (
        "Count :=",
        "if Step > 0 then null; else null; else null; end if; Count :=",
        Answer::Unspelled,
    ),
    ("+ Step", "* Step", Answer::Unspelled),
    ("+ Step", "+ ~Step", Answer::Unspelled),
];

#[test]
fn changes_of_the_counter(rt: HostRuntime) -> Result<(), Fail> {
    let alloc = rt.alloc();
    for (old, new, wanted) in CHANGES {
        let text = COUNTER.replace(alloc, old, new)?;
        let found = answer_of(alloc, text.as_bytes())?;
        assert_eq!(rt; found, wanted, "with {new}");
    }
    Ok(())
}

/// The counter, with an if whose test has a number of operators, the relation among them.
fn with_test(alloc: Global, number: usize) -> Result<String, AllocError> {
    let mut text = String::new(alloc);
    text.push_str("if 1")?;
    for _ in 0..number / 2 {
        text.push_str(" + 1")?;
    }
    text.push_str(" = Step")?;
    for _ in number / 2 + 1..number {
        text.push_str(" - 1")?;
    }
    text.push_str(" then null; end if; Count :=")?;
    COUNTER.replace(alloc, "Count :=", text.as_str())
}

#[test]
fn a_test_has_a_limit(rt: HostRuntime) -> Result<(), Fail> {
    let alloc = rt.alloc();
    let longest = with_test(alloc, 1024)?;
    assert_eq!(rt; answer_of(alloc, longest.as_bytes())?, Answer::Met(Some(0)));
    let longer = with_test(alloc, 1025)?;
    assert_eq!(rt; answer_of(alloc, longer.as_bytes())?, Answer::Unmet);
    Ok(())
}

#[test]
fn open_ifs_have_a_limit(rt: HostRuntime) -> Result<(), Fail> {
    let alloc = rt.alloc();
    let deepest = in_ifs(alloc, 128)?;
    assert_eq!(rt; answer_of(alloc, deepest.as_bytes())?, Answer::Met(Some(0)));
    for depth in [129, 20_000] {
        let deeper = in_ifs(alloc, depth)?;
        assert_eq!(rt; answer_of(alloc, deeper.as_bytes())?, Answer::Unspelled);
    }
    Ok(())
}

#[test]
fn a_sum_has_a_limit(rt: HostRuntime) -> Result<(), Fail> {
    let alloc = rt.alloc();
    let longest = with_operators(alloc, 1024)?;
    assert_eq!(rt; answer_of(alloc, longest.as_bytes())?, Answer::Met(Some(0)));
    let longer = with_operators(alloc, 1025)?;
    assert_eq!(rt; answer_of(alloc, longer.as_bytes())?, Answer::Unmet);
    Ok(())
}
