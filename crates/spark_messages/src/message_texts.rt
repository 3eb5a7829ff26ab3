//! The texts of messages, as functions of the names that they mention.
ghost use Rattle.std.specs.Prelude.{◌≡◌, ◌++◌, IfOk, OnOk};
ghost use Rattle.spark_messages.specs.MessageTexts.{quoted, mode_text, refusal_text, overlapping_actuals_text, overlapping_global_text, missing_dependency_text, unused_dependency_text, doubled_output_text, no_output_text, no_input_text, missing_output_text, missing_input_text, unassigned_text, unassigned_out_text, unlisted_text, written_input_text, read_output_text, unused_mode_text, writing_function_text, unassigned_initial_text, unlisted_initial_text, foreign_write_text, unassigned_at_start_text, not_visible_text, declared_twice_text, without_body_text, differing_text, not_variable_text, not_callable_text, wrong_actuals_text, not_in_contract_text, tasking_rule_text, second_main_text, misplaced_aspect_text, unrefined_state_text, doubled_constituent_text, without_state_text, part_of_text, refined_mode_text, missing_pair_text, unrefined_pair_text, unsynchronised_text, blocking_text, shared_entry_text, without_initial_text, outside_text};

use crate::messages::Code;
use spark_base::{Bytes, NoMemory};
use std::alloc::Global;

/// What a body does with an item.
#[derive(Clone, Copy, Debug, PartialEq, Eq)]
pub enum UsedMode {
    /// It neither reads nor writes it.
    Nothing,
    /// It reads it alone.
    Input,
    /// It writes it, and does not read what it held before.
    Output,
    /// It reads it and writes it.
    InOut,
}

impl UsedMode {
    /// The mode as it is printed.
    pub fn name(self) -> &'static str
        ensures { result.now ≡ mode_text self }
    {
        match self {
            UsedMode::Nothing => "nothing",
            UsedMode::Input => "Input",
            UsedMode::Output => "Output",
            UsedMode::InOut => "In_Out",
        }
    }
}

/// The text of a refusal whose text mentions no name. It is empty for the other codes.
pub fn refusal_text(code: Code) -> &'static str
    ensures { result.now ≡ refusal_text code }
{
    match code {
        Code::L01 => "byte outside ASCII",
        Code::L02 => "malformed number",
        Code::L03 => "number past 128 bits",
        Code::L04 => "unknown character",
        Code::N03 => "specs with each other in a circle",
        Code::S01 => "not in the grammar here",
        Code::X01 => "too many bytes",
        Code::X02 => "nesting too deep",
        Code::X03 => "more than 4096 bodies",
        Code::X04 => "more than 16384 leaves",
        Code::X05 => "summary table too large",
        Code::X06 => "more than 1000 files",
        Code::Y01 => "static value past 128 bits",
        Code::Y02 => "not static",
        Code::Y03 => "static division by zero",
        Code::Y04 => "types differ",
        Code::Y05 => "range or modulus is not allowed",
        Code::Y06 => "no such component",
        Code::Y07 => "not an array",
        Code::Y08 => "case choices are not exact",
        Code::Y09 => "aggregate is not exact",
        _ => "",
    }
}

/// Adds a name between quotes.
fn append_quoted(out: &mut Bytes, name: &[u8]) -> Result<(), NoMemory>
    ensures { OnOk result (out.new ≡ out.old ++ quoted name.now) }
{
    out.append(b"\"")?;
    out.append(name)?;
    out.append(b"\"")
}

/// A name between quotes, and what stands behind it.
fn quoted_then(alloc: Global, name: &[u8], after: &[u8]) -> Result<Bytes, NoMemory>
    ensures { IfOk result (λ t. t ≡ quoted name.now ++ after.now) }
{
    let mut text = Bytes::new(alloc);
    append_quoted(&mut text, name)?;
    text.append(after)?;
    Ok(text)
}

/// A name between quotes, and what stands before and behind it.
fn quoted_between(
    alloc: Global,
    before: &[u8],
    name: &[u8],
    after: &[u8],
) -> Result<Bytes, NoMemory>
    ensures { IfOk result (λ t. t ≡ before.now ++ quoted name.now ++ after.now) }
{
    let mut text = Bytes::from_slice(alloc, before)?;
    append_quoted(&mut text, name)?;
    text.append(after)?;
    Ok(text)
}

/// Two names between quotes, and what stands before, between and behind them.
fn two_quoted(
    alloc: Global,
    before: &[u8],
    first: &[u8],
    between: &[u8],
    second: &[u8],
    after: &[u8],
) -> Result<Bytes, NoMemory>
    ensures { IfOk result (λ t. t ≡ before.now ++ quoted first.now ++ between.now ++ quoted second.now ++ after.now) }
{
    let mut text = quoted_between(alloc, before, first, between)?;
    append_quoted(&mut text, second)?;
    text.append(after)?;
    Ok(text)
}

/// The text of `A01`, about the actuals of two formals of one call.
pub fn overlapping_actuals_text(
    alloc: Global,
    later: &[u8],
    earlier: &[u8],
) -> Result<Bytes, NoMemory>
    ensures { IfOk result (λ t. t ≡ overlapping_actuals_text later.now earlier.now) }
{
    two_quoted(
        alloc,
        b"actual of ",
        later,
        b" overlaps actual of ",
        earlier,
        b"",
    )
}

/// The text of `A01`, about the actual of a formal, and an item that the callee reads or writes.
pub fn overlapping_global_text(alloc: Global, formal: &[u8], item: &[u8]) -> Result<Bytes, NoMemory>
    ensures { IfOk result (λ t. t ≡ overlapping_global_text formal.now item.now) }
{
    two_quoted(
        alloc,
        b"actual of ",
        formal,
        b" overlaps global ",
        item,
        b"",
    )
}

/// The text of `D01`, about an output of a body that depends on an input, which its Depends does not say.
pub fn missing_dependency_text(
    alloc: Global,
    output: &[u8],
    input: &[u8],
    body: &[u8],
) -> Result<Bytes, NoMemory>
    ensures { IfOk result (λ t. t ≡ missing_dependency_text output.now input.now body.now) }
{
    let mut text = two_quoted(
        alloc,
        b"",
        output,
        b" depends on ",
        input,
        b" but Depends of ",
    )?;
    append_quoted(&mut text, body)?;
    text.append(b" does not say so")?;
    Ok(text)
}

/// The text of `D02`, about an output and an input of a Depends, where the output does not depend on the input.
pub fn unused_dependency_text(
    alloc: Global,
    output: &[u8],
    input: &[u8],
    body: &[u8],
) -> Result<Bytes, NoMemory>
    ensures { IfOk result (λ t. t ≡ unused_dependency_text output.now input.now body.now) }
{
    let mut text = two_quoted(alloc, b"", output, b" does not depend on ", input, b" in ")?;
    append_quoted(&mut text, body)?;
    Ok(text)
}

/// The text of `D03`, about an item that a Depends lists on the left a second time.
pub fn doubled_output_text(alloc: Global, item: &[u8]) -> Result<Bytes, NoMemory>
    ensures { IfOk result (λ t. t ≡ doubled_output_text item.now) }
{
    quoted_then(alloc, item, b" is listed twice as output")
}

/// The text of `D03`, about an item on the left of a Depends that is no output.
pub fn no_output_text(alloc: Global, item: &[u8]) -> Result<Bytes, NoMemory>
    ensures { IfOk result (λ t. t ≡ no_output_text item.now) }
{
    quoted_then(alloc, item, b" is no output")
}

/// The text of `D03`, about an item on the right of a Depends that is no input.
pub fn no_input_text(alloc: Global, item: &[u8]) -> Result<Bytes, NoMemory>
    ensures { IfOk result (λ t. t ≡ no_input_text item.now) }
{
    quoted_then(alloc, item, b" is no input")
}

/// The text of `D03`, about an output that does not stand on the left of a Depends.
pub fn missing_output_text(alloc: Global, item: &[u8]) -> Result<Bytes, NoMemory>
    ensures { IfOk result (λ t. t ≡ missing_output_text item.now) }
{
    quoted_between(alloc, b"output ", item, b" is missing")
}

/// The text of `D03`, about an input that does not stand on the right of a Depends.
pub fn missing_input_text(alloc: Global, item: &[u8]) -> Result<Bytes, NoMemory>
    ensures { IfOk result (λ t. t ≡ missing_input_text item.now) }
{
    quoted_between(alloc, b"input ", item, b" is missing")
}

/// The text of `F01`, about what is read where it might not be assigned.
pub fn unassigned_text(alloc: Global, leaf: &[u8]) -> Result<Bytes, NoMemory>
    ensures { IfOk result (λ t. t ≡ unassigned_text leaf.now) }
{
    quoted_then(alloc, leaf, b" might not be assigned here")
}

/// The text of `F02`, about what belongs to an out parameter, and might not be assigned at a return of its body.
pub fn unassigned_out_text(alloc: Global, leaf: &[u8], body: &[u8]) -> Result<Bytes, NoMemory>
    ensures { IfOk result (λ t. t ≡ unassigned_out_text leaf.now body.now) }
{
    two_quoted(
        alloc,
        b"out parameter ",
        leaf,
        b" might not be assigned when ",
        body,
        b" returns",
    )
}

/// The text of `G01`, about an item that a body uses and its Global does not list.
pub fn unlisted_text(
    alloc: Global,
    item: &[u8],
    used: UsedMode,
    body: &[u8],
) -> Result<Bytes, NoMemory>
    ensures { IfOk result (λ t. t ≡ unlisted_text item.now used body.now) }
{
    let mut text = quoted_then(alloc, item, b" is ")?;
    text.append(used.name().as_bytes())?;
    text.append(b" in ")?;
    append_quoted(&mut text, body)?;
    text.append(b" but its Global does not list it")?;
    Ok(text)
}

/// The text of `G02`, about an item that a body writes and its Global lists as an input.
pub fn written_input_text(alloc: Global, item: &[u8], body: &[u8]) -> Result<Bytes, NoMemory>
    ensures { IfOk result (λ t. t ≡ written_input_text item.now body.now) }
{
    two_quoted(alloc, b"", item, b" is Input but ", body, b" writes it")
}

/// The text of `G03`, about an item that its Global lists as an output, and that a body may read or leave.
pub fn read_output_text(alloc: Global, item: &[u8], body: &[u8]) -> Result<Bytes, NoMemory>
    ensures { IfOk result (λ t. t ≡ read_output_text item.now body.now) }
{
    two_quoted(
        alloc,
        b"",
        item,
        b" is Output but ",
        body,
        b" may read its initial value or leave it; it must be In_Out",
    )
}

/// The text of `G04`, about an item that its Global declares with more than the mode that its body uses.
pub fn unused_mode_text(
    alloc: Global,
    item: &[u8],
    declared: UsedMode,
    body: &[u8],
    used: UsedMode,
) -> Result<Bytes, NoMemory>
    ensures { IfOk result (λ t. t ≡ unused_mode_text item.now declared body.now used) }
{
    let mut text = quoted_then(alloc, item, b" is declared ")?;
    text.append(declared.name().as_bytes())?;
    text.append(b" but ")?;
    append_quoted(&mut text, body)?;
    text.append(b" uses it as ")?;
    text.append(used.name().as_bytes())?;
    Ok(text)
}

/// The text of `G05`, about a function and an item that it writes.
pub fn writing_function_text(alloc: Global, function: &[u8], item: &[u8]) -> Result<Bytes, NoMemory>
    ensures { IfOk result (λ t. t ≡ writing_function_text function.now item.now) }
{
    two_quoted(alloc, b"function ", function, b" writes ", item, b"")
}

/// The text of `I01`, about an item of an Initializes that might not be assigned.
pub fn unassigned_initial_text(alloc: Global, item: &[u8]) -> Result<Bytes, NoMemory>
    ensures { IfOk result (λ t. t ≡ unassigned_initial_text item.now) }
{
    quoted_then(
        alloc,
        item,
        b" is listed in Initializes but might not be assigned after elaboration",
    )
}

/// The text of `I02`, about an item that is assigned and that the Initializes does not list.
pub fn unlisted_initial_text(alloc: Global, item: &[u8]) -> Result<Bytes, NoMemory>
    ensures { IfOk result (λ t. t ≡ unlisted_initial_text item.now) }
{
    quoted_then(alloc, item, b" is assigned by elaboration but not listed")
}

/// The text of `I03`, about a package whose elaboration writes what belongs to another package.
pub fn foreign_write_text(alloc: Global, elaborated: &[u8], leaf: &[u8]) -> Result<Bytes, NoMemory>
    ensures { IfOk result (λ t. t ≡ foreign_write_text elaborated.now leaf.now) }
{
    two_quoted(
        alloc,
        b"elaboration of ",
        elaborated,
        b" writes ",
        leaf,
        b"",
    )
}

/// The text of `I04`, about what might not be assigned when its reader begins: the main, a task or an elaboration.
pub fn unassigned_at_start_text(
    alloc: Global,
    leaf: &[u8],
    reader: &[u8],
) -> Result<Bytes, NoMemory>
    ensures { IfOk result (λ t. t ≡ unassigned_at_start_text leaf.now reader.now) }
{
    two_quoted(
        alloc,
        b"",
        leaf,
        b" might not be assigned by elaboration but ",
        reader,
        b" reads it",
    )
}

/// The text of `N01`, about a name that is not declared or not visible.
pub fn not_visible_text(alloc: Global, name: &[u8]) -> Result<Bytes, NoMemory>
    ensures { IfOk result (λ t. t ≡ not_visible_text name.now) }
{
    quoted_then(alloc, name, b" is not visible")
}

/// The text of `N02`, about a name that its region declares twice.
pub fn declared_twice_text(alloc: Global, name: &[u8]) -> Result<Bytes, NoMemory>
    ensures { IfOk result (λ t. t ≡ declared_twice_text name.now) }
{
    quoted_then(alloc, name, b" is declared twice")
}

/// The text of `N04`, about a declaration without a body or completion.
pub fn without_body_text(alloc: Global, name: &[u8]) -> Result<Bytes, NoMemory>
    ensures { IfOk result (λ t. t ≡ without_body_text name.now) }
{
    quoted_then(alloc, name, b" has no body")
}

/// The text of `N05`, about a body or a name at an end that differs from the declaration.
pub fn differing_text(alloc: Global, name: &[u8]) -> Result<Bytes, NoMemory>
    ensures { IfOk result (λ t. t ≡ differing_text name.now) }
{
    quoted_then(alloc, name, b" differs from its declaration")
}

/// The text of `N06`, about what is no variable where one must stand.
pub fn not_variable_text(alloc: Global, name: &[u8]) -> Result<Bytes, NoMemory>
    ensures { IfOk result (λ t. t ≡ not_variable_text name.now) }
{
    quoted_then(alloc, name, b" is not a variable here")
}

/// The text of `N07`, about what is called and is no subprogram, or not one that can stand there.
pub fn not_callable_text(alloc: Global, name: &[u8]) -> Result<Bytes, NoMemory>
    ensures { IfOk result (λ t. t ≡ not_callable_text name.now) }
{
    quoted_then(alloc, name, b" cannot be called here")
}

/// The text of `N08`, about a callee whose actuals are missing, doubled or too many.
pub fn wrong_actuals_text(alloc: Global, name: &[u8]) -> Result<Bytes, NoMemory>
    ensures { IfOk result (λ t. t ≡ wrong_actuals_text name.now) }
{
    quoted_between(alloc, b"wrong actuals for ", name, b"")
}

/// The text of `N09`, about an item of a contract that is not visible there.
pub fn not_in_contract_text(alloc: Global, name: &[u8]) -> Result<Bytes, NoMemory>
    ensures { IfOk result (λ t. t ≡ not_in_contract_text name.now) }
{
    quoted_then(alloc, name, b" is not visible in this contract")
}

/// The text of `N10`, about what breaks a rule of tasks, protected units and entries.
pub fn tasking_rule_text(alloc: Global, name: &[u8]) -> Result<Bytes, NoMemory>
    ensures { IfOk result (λ t. t ≡ tasking_rule_text name.now) }
{
    quoted_then(alloc, name, b" breaks a rule of tasks and protected units")
}

/// The text of `N11`, about a main where there is one before it.
pub fn second_main_text(alloc: Global, name: &[u8]) -> Result<Bytes, NoMemory>
    ensures { IfOk result (λ t. t ≡ second_main_text name.now) }
{
    quoted_between(alloc, b"second main ", name, b"")
}

/// The text of `N12`, about an aspect that is unknown, doubled or in a wrong place.
pub fn misplaced_aspect_text(alloc: Global, aspect: &[u8]) -> Result<Bytes, NoMemory>
    ensures { IfOk result (λ t. t ≡ misplaced_aspect_text aspect.now) }
{
    quoted_between(alloc, b"aspect ", aspect, b" is not allowed here")
}

/// The text of `R01`, about a state that no Refined_State refines.
pub fn unrefined_state_text(alloc: Global, state: &[u8]) -> Result<Bytes, NoMemory>
    ensures { IfOk result (λ t. t ≡ unrefined_state_text state.now) }
{
    quoted_between(alloc, b"state ", state, b" is not refined")
}

/// The text of `R02`, about a variable that is listed a second time as a constituent.
pub fn doubled_constituent_text(alloc: Global, variable: &[u8]) -> Result<Bytes, NoMemory>
    ensures { IfOk result (λ t. t ≡ doubled_constituent_text variable.now) }
{
    quoted_then(alloc, variable, b" is a constituent twice")
}

/// The text of `R03`, about a hidden variable or object that is in no state.
pub fn without_state_text(alloc: Global, variable: &[u8]) -> Result<Bytes, NoMemory>
    ensures { IfOk result (λ t. t ≡ without_state_text variable.now) }
{
    quoted_then(alloc, variable, b" belongs to no state")
}

/// The text of `R04`, about a variable or object whose Part_Of and the Refined_State do not agree.
pub fn part_of_text(alloc: Global, variable: &[u8]) -> Result<Bytes, NoMemory>
    ensures { IfOk result (λ t. t ≡ part_of_text variable.now) }
{
    quoted_between(
        alloc,
        b"Part_Of of ",
        variable,
        b" does not agree with Refined_State",
    )
}

/// The text of `R05`, about an item of a Global, and the mode that its refinement gives it.
pub fn refined_mode_text(
    alloc: Global,
    item: &[u8],
    mode: UsedMode,
    refined: UsedMode,
) -> Result<Bytes, NoMemory>
    ensures { IfOk result (λ t. t ≡ refined_mode_text item.now mode refined) }
{
    let mut text = quoted_then(alloc, item, b" is ")?;
    text.append(mode.name().as_bytes())?;
    text.append(b" but its refinement is ")?;
    text.append(refined.name().as_bytes())?;
    Ok(text)
}

/// The text of `R06`, about an output that depends on an input in the refinement, and not in the Depends.
pub fn missing_pair_text(alloc: Global, output: &[u8], input: &[u8]) -> Result<Bytes, NoMemory>
    ensures { IfOk result (λ t. t ≡ missing_pair_text output.now input.now) }
{
    two_quoted(
        alloc,
        b"",
        output,
        b" => ",
        input,
        b" is missing in Depends",
    )
}

/// The text of `R06`, about an output that depends on an input in the Depends, and not in the refinement.
pub fn unrefined_pair_text(alloc: Global, output: &[u8], input: &[u8]) -> Result<Bytes, NoMemory>
    ensures { IfOk result (λ t. t ≡ unrefined_pair_text output.now input.now) }
{
    two_quoted(
        alloc,
        b"",
        output,
        b" => ",
        input,
        b" is not in Refined_Depends",
    )
}

/// The text of `T01`, about a variable that two tasks access.
pub fn unsynchronised_text(
    alloc: Global,
    variable: &[u8],
    first: &[u8],
    second: &[u8],
) -> Result<Bytes, NoMemory>
    ensures { IfOk result (λ t. t ≡ unsynchronised_text variable.now first.now second.now) }
{
    let mut text = two_quoted(alloc, b"", variable, b" is accessed by ", first, b" and ")?;
    append_quoted(&mut text, second)?;
    text.append(b" without synchronisation")?;
    Ok(text)
}

/// The text of `T02`, about a protected operation that may block.
pub fn blocking_text(alloc: Global, operation: &[u8]) -> Result<Bytes, NoMemory>
    ensures { IfOk result (λ t. t ≡ blocking_text operation.now) }
{
    quoted_then(alloc, operation, b" may block inside a protected action")
}

/// The text of `T03`, about an entry that two tasks call.
pub fn shared_entry_text(
    alloc: Global,
    entry: &[u8],
    first: &[u8],
    second: &[u8],
) -> Result<Bytes, NoMemory>
    ensures { IfOk result (λ t. t ≡ shared_entry_text entry.now first.now second.now) }
{
    let mut text = two_quoted(alloc, b"entry ", entry, b" is called by ", first, b" and ")?;
    append_quoted(&mut text, second)?;
    Ok(text)
}

/// The text of `T04`, about an atomic variable or protected component without initial value.
pub fn without_initial_text(alloc: Global, variable: &[u8]) -> Result<Bytes, NoMemory>
    ensures { IfOk result (λ t. t ≡ without_initial_text variable.now) }
{
    quoted_then(alloc, variable, b" needs an initial value")
}

/// The text of `U01`, about a word of a source.
pub fn outside_text(alloc: Global, word: &[u8]) -> Result<Bytes, NoMemory>
    ensures { IfOk result (λ t. t ≡ outside_text word.now) }
{
    quoted_then(alloc, word, b" is outside the subset")
}
