//! Messages, their order and their text.
ghost use Rattle.std.specs.Prelude.{◌≡◌, ◌++◌, IfOk, OnOk, map, string_bytes};
ghost use Rattle.std.specs.List.Sorted.{IsStrictlySortedBy};
ghost use Rattle.spark_messages.specs.Message.{is_grave, kind_text, code_text, order, HaveSame};
ghost use Rattle.spark_messages.specs.Text.{text, front, back, line_of, last_line, name_at, error_count, warning_count};

use spark_base::{Bytes, FileNo, NoMemory, Pos};
use std::alloc::Global;

/// What a message is. Errors and refusals count as errors.
#[derive(Clone, Copy, Debug, PartialEq, Eq, PartialOrd, Ord)]
pub enum Kind {
    Error,
    Warning,
    Refused,
}

impl Kind {
    /// The kind as it is printed.
    pub fn name(self) -> &'static str
        ensures { result.now ≡ kind_text self }
    {
        match self {
            Kind::Error => "error",
            Kind::Warning => "warning",
            Kind::Refused => "refused",
        }
    }

    /// Whether a message of this kind counts as an error.
    pub fn is_grave(self) -> bool
        ensures { result ≡ is_grave self }
    {
        match self {
            Kind::Error | Kind::Refused => true,
            Kind::Warning => false,
        }
    }
}

/// Which rule a message is about. Codes are compared by their texts.
#[derive(Clone, Copy, Debug)]
pub enum Code {
    /// The actuals of a call overlap, or one overlaps a global of the callee.
    A01,
    /// An output depends on an input, and the Depends does not say so.
    D01,
    /// A Depends says that an output depends on an input, and it does not.
    D02,
    /// A Depends does not list the outputs and the inputs, each output once.
    D03,
    /// What is read might not be assigned yet.
    F01,
    /// An out parameter might not be assigned at the return.
    F02,
    /// A body reads or writes what its Global does not list so.
    G01,
    /// A body writes what its Global lists as an input.
    G02,
    /// An item is Output, and the body may read its initial value or leave it.
    G03,
    /// A Global lists an item with more than what its body does with it.
    G04,
    /// A function writes something besides its result.
    G05,
    /// An item of an Initializes might not be assigned by the elaboration.
    I01,
    /// The elaboration assigns what its Initializes does not list.
    I02,
    /// An elaboration writes something of another package.
    I03,
    /// Something is read that no elaboration before it assigns for certain.
    I04,
    /// A byte above 127 stands outside a comment.
    L01,
    /// A number is malformed.
    L02,
    /// A number is 2 ** 128 or more.
    L03,
    /// No token begins with this byte, or a text does not end in its line.
    L04,
    /// A name is not declared, or not visible where it stands.
    N01,
    /// A name is declared twice in one region.
    N02,
    /// Package specifications name each other by with clauses in a circle.
    N03,
    /// A declaration has no body or completion.
    N04,
    /// A body, its formals or the name at its end differ from its declaration.
    N05,
    /// Something other than a variable stands where a variable or a value must.
    N06,
    /// What is called is no subprogram, or not one that can stand there.
    N07,
    /// The actuals of a call are missing, doubled or too many.
    N08,
    /// An item of a contract is not visible there, or is a state whose refinement is.
    N09,
    /// A rule of tasks, protected units and entries is broken.
    N10,
    /// There is a second main.
    N11,
    /// An aspect is unknown, doubled or in a wrong place.
    N12,
    /// A state is not refined.
    R01,
    /// A variable is a constituent twice.
    R02,
    /// A hidden variable belongs to no state.
    R03,
    /// A Part_Of and the Refined_State do not agree.
    R04,
    /// The mode of an item in a Global differs from that of its refinement.
    R05,
    /// A Depends and its refinement do not agree.
    R06,
    /// A source is no sentence of the grammar.
    S01,
    /// Two tasks access a variable without synchronisation.
    T01,
    /// A protected operation may block.
    T02,
    /// Two tasks call one entry.
    T03,
    /// An atomic variable or a protected component has no initial value.
    T04,
    /// A source is outside the subset.
    U01,
    /// A file, or the files up to it, have too many bytes.
    X01,
    /// Parentheses, statements, loops, operators or core statements nest too deep.
    X02,
    /// There are more than 4,096 bodies.
    X03,
    /// The library variables have more than 16,384 leaves.
    X04,
    /// The table of summaries, or the frame of a body, is too large.
    X05,
    /// There are more than 1,000 files.
    X06,
    /// A static value leaves the range from -2 ** 127 to 2 ** 127 - 1.
    Y01,
    /// What must be static is not.
    Y02,
    /// A static divisor is zero.
    Y03,
    /// Types differ, or a return has a value where none may stand, or none where one must.
    Y04,
    /// An integer type is empty, or a bound or a modulus is outside what is allowed.
    Y05,
    /// What is selected is no component of a record.
    Y06,
    /// What is indexed is not an array.
    Y07,
    /// The choices of a case are missing or doubled.
    Y08,
    /// The components of an aggregate are missing or doubled.
    Y09,
}

impl Code {
    /// The code as it is printed.
    pub fn name(self) -> &'static str
        ensures { result.now ≡ code_text self }
    {
        match self {
            Code::A01 => "A01",
            Code::D01 => "D01",
            Code::D02 => "D02",
            Code::D03 => "D03",
            Code::F01 => "F01",
            Code::F02 => "F02",
            Code::G01 => "G01",
            Code::G02 => "G02",
            Code::G03 => "G03",
            Code::G04 => "G04",
            Code::G05 => "G05",
            Code::I01 => "I01",
            Code::I02 => "I02",
            Code::I03 => "I03",
            Code::I04 => "I04",
            Code::L01 => "L01",
            Code::L02 => "L02",
            Code::L03 => "L03",
            Code::L04 => "L04",
            Code::N01 => "N01",
            Code::N02 => "N02",
            Code::N03 => "N03",
            Code::N04 => "N04",
            Code::N05 => "N05",
            Code::N06 => "N06",
            Code::N07 => "N07",
            Code::N08 => "N08",
            Code::N09 => "N09",
            Code::N10 => "N10",
            Code::N11 => "N11",
            Code::N12 => "N12",
            Code::R01 => "R01",
            Code::R02 => "R02",
            Code::R03 => "R03",
            Code::R04 => "R04",
            Code::R05 => "R05",
            Code::R06 => "R06",
            Code::S01 => "S01",
            Code::T01 => "T01",
            Code::T02 => "T02",
            Code::T03 => "T03",
            Code::T04 => "T04",
            Code::U01 => "U01",
            Code::X01 => "X01",
            Code::X02 => "X02",
            Code::X03 => "X03",
            Code::X04 => "X04",
            Code::X05 => "X05",
            Code::X06 => "X06",
            Code::Y01 => "Y01",
            Code::Y02 => "Y02",
            Code::Y03 => "Y03",
            Code::Y04 => "Y04",
            Code::Y05 => "Y05",
            Code::Y06 => "Y06",
            Code::Y07 => "Y07",
            Code::Y08 => "Y08",
            Code::Y09 => "Y09",
        }
    }
}

/// A message about a place of a file. Messages are compared by their fields, in the order in which the fields stand.
#[derive(Debug, Drop, PartialEq, Eq, PartialOrd, Ord)]
pub struct Message {
    pub file: FileNo,
    pub place: Pos,
    pub code: Code,
    pub text: Bytes,
    pub kind: Kind,
}

/// Why a phase of the analysis has no result.
#[derive(Debug, Drop, PartialEq, Eq)]
pub enum PhaseFault {
    /// The sources are refused, by this message.
    Refused(Message),
    /// Memory was refused.
    NoMemory,
}

impl From<NoMemory> for PhaseFault {
    ghost use Rattle.std.specs.Prelude.{◌≡◌};
    ghost use Rattle.spark_messages.specs.declared.messages.PhaseFault.TheVariants as faults;

    ghost from_gives = { λ _ fault. fault ≡ faults.NoMemory };

    fn from(_: NoMemory) -> Self {
        PhaseFault::NoMemory
    }
}

/// The messages in order, and one of those that are equal. After `NoMemory` the list is given up.
#[tactic(auto, using(crate::proofs::MessageOrder::rises, crate::proofs::MessageOrder::keeps))]
pub fn ordered(list: Vec<Message>) -> Result<Vec<Message>, NoMemory>
    ensures same { IfOk result (λ all. HaveSame all.items list.items) }
    ensures rises { IfOk result (λ all. IsStrictlySortedBy order all.items) }
{
    let mut list = list;
    list.sort()?;
    list.dedup();
    Ok(list)
}

/// The name of a file, by its place in the words.
fn name_of(names: &[String], file: FileNo) -> &str
    ensures { result.now ≡ name_at (map string_bytes names.now) file.0 }
{
    match names.get(file.0 as usize) {
        Some(name) => name.as_str(),
        None => "",
    }
}

/// What stands before the text of a message.
fn front_of(alloc: Global, names: &[String], message: &Message) -> Result<String, NoMemory>
    ensures { IfOk result (λ s. string_bytes s ≡ front (map string_bytes names.now) message.now) }
{
    let name = name_of(names, message.file);
    let line = message.place.line;
    let col = message.place.col;
    let kind = message.kind.name();
    Ok(format!(in alloc; "{name}:{line}:{col}: {kind}: ")?)
}

/// What stands behind it.
fn back_of(alloc: Global, message: &Message) -> Result<String, NoMemory>
    ensures { IfOk result (λ s. string_bytes s ≡ back message.now) }
{
    let code = message.code.name();
    Ok(format!(in alloc; " [{code}]\n")?)
}

/// Adds the line of a message.
fn append_line(
    alloc: Global,
    out: &mut Bytes,
    names: &[String],
    message: &Message,
) -> Result<(), NoMemory>
    ensures { OnOk result (out.new ≡ out.old ++ line_of (map string_bytes names.now) message.now) }
{
    let front = front_of(alloc, names, message)?;
    let back = back_of(alloc, message)?;
    out.append(front.as_bytes())?;
    out.append(message.text.as_slice())?;
    out.append(back.as_bytes())
}

/// How many messages count as errors.
fn errors_in(list: &[Message]) -> usize
    ensures { result ≡ error_count list.now }
{
    list.iter()
        .filter(|message| message.kind.is_grave())
        .count()
}

/// How many messages are warnings.
fn warnings_in(list: &[Message]) -> usize
    ensures { result ≡ warning_count list.now }
{
    list.iter()
        .filter(|message| !message.kind.is_grave())
        .count()
}

/// The last line.
fn last_line_of(alloc: Global, errors: usize, warnings: usize) -> Result<String, NoMemory>
    ensures { IfOk result (λ s. string_bytes s ≡ last_line errors warnings) }
{
    Ok(format!(in alloc; "sparkflow: {errors} errors, {warnings} warnings\n")?)
}

/// The text of a list of messages, over the files of these names: a line for each in the order given, and a last line.
/// A file without a name is printed as if its name were empty.
#[tactic(auto, unfolding(crate::specs::Text::text))]
pub fn text_of(alloc: Global, names: &[String], list: &[Message]) -> Result<Bytes, NoMemory>
    ensures { IfOk result (λ t. t ≡ text (map string_bytes names.now) list.now) }
{
    let mut out = Bytes::new(alloc);
    for message in list {
        append_line(alloc, &mut out, names, message)?;
    }
    let last = last_line_of(alloc, errors_in(list), warnings_in(list))?;
    out.append(last.as_bytes())?;
    Ok(out)
}
