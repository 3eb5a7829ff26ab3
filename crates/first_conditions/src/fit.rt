ghost use Rattle.std.specs.Prelude.{◌≡◌, ◌+◌, ◌≤◌, ◌∷◌, ◌↔◌, length, map, All, IsSome, IsTrue, IfSome, codes};
ghost use Rattle.std.specs.Char.{to_ascii_lowercase};
ghost use Rattle.first_conditions.specs.Checks.{IsFitBody, IsFitSpec};
ghost use Rattle.first_conditions.specs.Conditions.{IsFree, IsShort, declared_keys, entries_of, key, mode_named};

use core_form::Mode;
use first_path::{Entry, GlobalForm, Line, PackageBody, Spec, Test, Variable, Word};

/// The most operators of an expression.
const MOST_OPERATORS: usize = 1024;

/// Whether the two are the same name.
fn is_same(a: &Word, b: &Word) -> bool
    ensures { IsTrue result ↔ (key a.now ≡ key b.now) }
{
    a.written
        .as_slice()
        .eq_ignore_ascii_case(b.written.as_slice())
}

/// Whether a word is this text, in whatever case.
fn is_written(word: &Word, text: &[u8]) -> bool
    ensures { IsTrue result ↔ (key word.now ≡ map to_ascii_lowercase text.now) }
{
    word.written.as_slice().eq_ignore_ascii_case(text)
}

/// Whether a word names the type.
fn is_integer(word: &Word) -> bool
    ensures { IsTrue result ↔ (key word.now ≡ codes "integer") }
{
    is_written(word, b"integer")
}

/// The mode that a word names, in whatever case, and none where it names none.
pub fn mode_of(word: &Word) -> Option<Mode>
    ensures { result ≡ mode_named (key word.now) }
{
    if is_written(word, b"input") {
        Some(Mode::Input)
    } else if is_written(word, b"output") {
        Some(Mode::Output)
    } else if is_written(word, b"in_out") {
        Some(Mode::InOut)
    } else {
        None
    }
}

/// Whether a declared name hides neither the type nor the package.
fn is_free(home: &Word, name: &Word) -> bool
    ensures { IsTrue result ↔ IsFree (key home.now) (key name.now) }
{
    !is_integer(name) && !is_same(name, home)
}

/// Whether the variables are of the type.
fn are_integers(variables: &[Variable]) -> bool
    ensures { IsTrue result ↔ All (λ v. key v.mark ≡ codes "integer") variables.now }
{
    variables.iter().all(|v| is_integer(&v.mark))
}

/// Whether the names of the variables are free.
fn are_free(home: &Word, variables: &[Variable]) -> bool
    ensures { IsTrue result ↔ All (λ v. IsFree (key home.now) (key v.name)) variables.now }
{
    variables.iter().all(|v| is_free(home, &v.name))
}

/// Whether each entry has a mode.
fn have_modes(entries: &[Entry]) -> bool
    ensures { IsTrue result ↔ All (λ e. IsSome (mode_named (key e.mode))) entries.now }
{
    entries.iter().all(|e| mode_of(&e.mode).is_some())
}

/// Whether each entry of a Global has a mode.
fn has_modes(global: &GlobalForm) -> bool
    ensures { IsTrue result ↔ All (λ e. IsSome (mode_named (key e.mode))) (entries_of global.now) }
{
    match global {
        GlobalForm::Null => true,
        GlobalForm::Entries { first, more } => {
            mode_of(&first.mode).is_some() && have_modes(more.as_slice())
        }
    }
}

/// Whether a name that stands behind an `end` is this one.
fn ends_as(end: &Option<Word>, name: &Word) -> bool
    ensures { IsTrue result ↔ IfSome end.now (λ w. key w ≡ key name.now) }
{
    match end {
        None => true,
        Some(word) => is_same(word, name),
    }
}

/// Whether a test is short. Its relation is an operator, too.
fn is_short_test(test: &Test) -> bool
    ensures { IsTrue result ↔ (length test.now.left.more + 1 + length test.now.right.more ≤ 1024) }
{
    let left = test.left.more.len();
    left < MOST_OPERATORS && test.right.more.len() < MOST_OPERATORS - left
}

/// Whether a line's expression is short.
fn is_short(line: &Line) -> bool
    ensures { IsTrue result ↔ IsShort line.now }
{
    match line {
        Line::Assign { value, .. } => value.more.len() <= MOST_OPERATORS,
        Line::If(test) => is_short_test(test),
        Line::Null | Line::Else | Line::EndIf => true,
    }
}

/// Whether each line's expression is short.
fn are_short(lines: &[Line]) -> bool
    ensures { IsTrue result ↔ All IsShort lines.now }
{
    lines.iter().all(|l| is_short(l))
}

/// Whether each name that a spec declares is free.
fn declares_free(spec: &Spec) -> bool
    ensures { IsTrue result ↔ All (IsFree (key spec.now.package)) (declared_keys spec.now) }
{
    is_free(&spec.package, &spec.procedure.name)
        && are_free(&spec.package, spec.variables.as_slice())
}

/// Whether a spec is fit by itself.
pub fn is_fit_spec(spec: &Spec) -> bool
    ensures { IsTrue result ↔ IsFitSpec spec.now }
{
    are_integers(spec.variables.as_slice())
        && is_written(&spec.procedure.aspect, b"global")
        && has_modes(&spec.procedure.global)
        && declares_free(spec)
        && ends_as(&spec.end, &spec.package)
}

/// Whether a body fits its spec.
pub fn is_fit_body(spec: &Spec, body: &PackageBody) -> bool
    ensures { IsTrue result ↔ IsFitBody spec.now body.now }
{
    is_same(&body.package, &spec.package)
        && is_same(&body.procedure.name, &spec.procedure.name)
        && ends_as(&body.procedure.end, &spec.procedure.name)
        && ends_as(&body.end, &spec.package)
        && are_short(body.procedure.lines.as_slice())
}
