use spark_base::{Bytes, NoMemory};
use spark_messages::message_texts::*;
use spark_messages::{Code, PhaseFault};
use std::test::Fail;

fn reads(text: Result<Bytes, NoMemory>, want: &str) -> Result<bool, NoMemory> {
    Ok(text?.as_slice() == want.as_bytes())
}

#[test]
fn texts_without_names(rt: HostRuntime) -> Result<(), Fail> {
    let texts = [
        (Code::L01, "byte outside ASCII"),
        (Code::L02, "malformed number"),
        (Code::L03, "number past 128 bits"),
        (Code::L04, "unknown character"),
        (Code::N03, "specs with each other in a circle"),
        (Code::S01, "not in the grammar here"),
        (Code::X01, "too many bytes"),
        (Code::X02, "nesting too deep"),
        (Code::X03, "more than 4096 bodies"),
        (Code::X04, "more than 16384 leaves"),
        (Code::X05, "summary table too large"),
        (Code::X06, "more than 1000 files"),
        (Code::Y01, "static value past 128 bits"),
        (Code::Y02, "not static"),
        (Code::Y03, "static division by zero"),
        (Code::Y04, "types differ"),
        (Code::Y05, "range or modulus is not allowed"),
        (Code::Y06, "no such component"),
        (Code::Y07, "not an array"),
        (Code::Y08, "case choices are not exact"),
        (Code::Y09, "aggregate is not exact"),
    ];
    for (code, text) in texts {
        assert_eq!(rt; refusal_text(code), text);
    }
    assert_eq!(rt; refusal_text(Code::U01), "");
    Ok(())
}

#[test]
fn texts_of_calls_and_dependencies(rt: HostRuntime) -> Result<(), Fail> {
    let alloc = rt.alloc();
    assert!(rt;
        reads(
            overlapping_actuals_text(alloc, b"X", b"P.Q"),
            "actual of \"X\" overlaps actual of \"P.Q\""
        )?
    );
    assert!(rt;
        reads(
            overlapping_global_text(alloc, b"X", b"P.Q"),
            "actual of \"X\" overlaps global \"P.Q\""
        )?
    );
    assert!(rt;
        reads(
            missing_dependency_text(alloc, b"X", b"Y", b"P.Q"),
            "\"X\" depends on \"Y\" but Depends of \"P.Q\" does not say so"
        )?
    );
    assert!(rt;
        reads(
            unused_dependency_text(alloc, b"X", b"Y", b"P.Q"),
            "\"X\" does not depend on \"Y\" in \"P.Q\""
        )?
    );
    assert!(rt;
        reads(
            doubled_output_text(alloc, b"X"),
            "\"X\" is listed twice as output"
        )?
    );
    assert!(rt; reads(no_output_text(alloc, b"X"), "\"X\" is no output")?);
    assert!(rt; reads(no_input_text(alloc, b"X"), "\"X\" is no input")?);
    assert!(rt; reads(missing_output_text(alloc, b"X"), "output \"X\" is missing")?);
    assert!(rt; reads(missing_input_text(alloc, b"X"), "input \"X\" is missing")?);
    Ok(())
}

#[test]
fn texts_of_assignment(rt: HostRuntime) -> Result<(), Fail> {
    let alloc = rt.alloc();
    assert!(rt;
        reads(
            unassigned_text(alloc, b"X"),
            "\"X\" might not be assigned here"
        )?
    );
    assert!(rt;
        reads(
            unassigned_out_text(alloc, b"X", b"P.Q"),
            "out parameter \"X\" might not be assigned when \"P.Q\" returns"
        )?
    );
    Ok(())
}

#[test]
fn texts_of_globals(rt: HostRuntime) -> Result<(), Fail> {
    let alloc = rt.alloc();
    assert!(rt;
        reads(
            unlisted_text(alloc, b"X", UsedMode::InOut, b"P.Q"),
            "\"X\" is In_Out in \"P.Q\" but its Global does not list it"
        )?
    );
    assert!(rt;
        reads(
            written_input_text(alloc, b"X", b"P.Q"),
            "\"X\" is Input but \"P.Q\" writes it"
        )?
    );
    assert!(rt;
        reads(
            read_output_text(alloc, b"X", b"P.Q"),
            "\"X\" is Output but \"P.Q\" may read its initial value or leave it; it must be In_Out"
        )?
    );
    assert!(rt;
        reads(
            unused_mode_text(alloc, b"X", UsedMode::InOut, b"P.Q", UsedMode::Output),
            "\"X\" is declared In_Out but \"P.Q\" uses it as Output"
        )?
    );
    assert!(rt;
        reads(
            writing_function_text(alloc, b"X", b"P.Q"),
            "function \"X\" writes \"P.Q\""
        )?
    );
    Ok(())
}

#[test]
fn texts_of_elaboration(rt: HostRuntime) -> Result<(), Fail> {
    let alloc = rt.alloc();
    assert!(rt;
        reads(
            unassigned_initial_text(alloc, b"X"),
            "\"X\" is listed in Initializes but might not be assigned after elaboration"
        )?
    );
    assert!(rt;
        reads(
            unlisted_initial_text(alloc, b"X"),
            "\"X\" is assigned by elaboration but not listed"
        )?
    );
    assert!(rt;
        reads(
            foreign_write_text(alloc, b"X", b"P.Q"),
            "elaboration of \"X\" writes \"P.Q\""
        )?
    );
    assert!(rt;
        reads(
            unassigned_at_start_text(alloc, b"X", b"P.Q"),
            "\"X\" might not be assigned by elaboration but \"P.Q\" reads it"
        )?
    );
    Ok(())
}

#[test]
fn texts_of_names(rt: HostRuntime) -> Result<(), Fail> {
    let alloc = rt.alloc();
    assert!(rt; reads(not_visible_text(alloc, b"X"), "\"X\" is not visible")?);
    assert!(rt; reads(declared_twice_text(alloc, b"X"), "\"X\" is declared twice")?);
    assert!(rt; reads(without_body_text(alloc, b"X"), "\"X\" has no body")?);
    assert!(rt;
        reads(
            differing_text(alloc, b"X"),
            "\"X\" differs from its declaration"
        )?
    );
    assert!(rt;
        reads(
            not_variable_text(alloc, b"X"),
            "\"X\" is not a variable here"
        )?
    );
    assert!(rt;
        reads(
            not_callable_text(alloc, b"X"),
            "\"X\" cannot be called here"
        )?
    );
    assert!(rt; reads(wrong_actuals_text(alloc, b"X"), "wrong actuals for \"X\"")?);
    Ok(())
}

#[test]
fn texts_of_rules(rt: HostRuntime) -> Result<(), Fail> {
    let alloc = rt.alloc();
    assert!(rt;
        reads(
            not_in_contract_text(alloc, b"X"),
            "\"X\" is not visible in this contract"
        )?
    );
    assert!(rt;
        reads(
            tasking_rule_text(alloc, b"X"),
            "\"X\" breaks a rule of tasks and protected units"
        )?
    );
    assert!(rt; reads(second_main_text(alloc, b"X"), "second main \"X\"")?);
    assert!(rt;
        reads(
            misplaced_aspect_text(alloc, b"X"),
            "aspect \"X\" is not allowed here"
        )?
    );
    assert!(rt; reads(outside_text(alloc, b"X"), "\"X\" is outside the subset")?);
    Ok(())
}

#[test]
fn texts_of_refinement(rt: HostRuntime) -> Result<(), Fail> {
    let alloc = rt.alloc();
    assert!(rt;
        reads(
            unrefined_state_text(alloc, b"X"),
            "state \"X\" is not refined"
        )?
    );
    assert!(rt;
        reads(
            doubled_constituent_text(alloc, b"X"),
            "\"X\" is a constituent twice"
        )?
    );
    assert!(rt; reads(without_state_text(alloc, b"X"), "\"X\" belongs to no state")?);
    assert!(rt;
        reads(
            part_of_text(alloc, b"X"),
            "Part_Of of \"X\" does not agree with Refined_State"
        )?
    );
    assert!(rt;
        reads(
            refined_mode_text(alloc, b"X", UsedMode::Input, UsedMode::Nothing),
            "\"X\" is Input but its refinement is nothing"
        )?
    );
    assert!(rt;
        reads(
            missing_pair_text(alloc, b"X", b"P.Q"),
            "\"X\" => \"P.Q\" is missing in Depends"
        )?
    );
    assert!(rt;
        reads(
            unrefined_pair_text(alloc, b"X", b"P.Q"),
            "\"X\" => \"P.Q\" is not in Refined_Depends"
        )?
    );
    Ok(())
}

#[test]
fn texts_of_tasking(rt: HostRuntime) -> Result<(), Fail> {
    let alloc = rt.alloc();
    assert!(rt;
        reads(
            unsynchronised_text(alloc, b"X", b"Y", b"P.Q"),
            "\"X\" is accessed by \"Y\" and \"P.Q\" without synchronisation"
        )?
    );
    assert!(rt;
        reads(
            blocking_text(alloc, b"X"),
            "\"X\" may block inside a protected action"
        )?
    );
    assert!(rt;
        reads(
            shared_entry_text(alloc, b"X", b"Y", b"P.Q"),
            "entry \"X\" is called by \"Y\" and \"P.Q\""
        )?
    );
    assert!(rt;
        reads(
            without_initial_text(alloc, b"X"),
            "\"X\" needs an initial value"
        )?
    );
    Ok(())
}

#[test]
fn want_of_memory_is_a_fault_of_a_phase(rt: HostRuntime) -> Result<(), Fail> {
    assert_eq!(rt; PhaseFault::from(NoMemory), PhaseFault::NoMemory);
    Ok(())
}
