ghost use Rattle.std.specs.Prelude.{◌≡◌, ◌<◌, ◌≤◌, List, Option, IfOk, IfErr, OnOk, OnErr, IfSome, IfNone, [], true, false, length};
ghost use Rattle.first_path.specs.Begins.{Denies, begins, begins_word};
ghost use Rattle.first_path.specs.Spelling.{each_then, sign_then, end_then, ended_then, variable_then, procedure_spec_then, spec_then, procedure_body_then, package_body_then, spelled};
ghost use Rattle.first_path.specs.declared.source.PackageBody.{PackageBody};
ghost use Rattle.first_path.specs.declared.source.ProcedureBody.{ProcedureBody};
ghost use Rattle.first_path.specs.declared.source.ProcedureSpec.{ProcedureSpec};
ghost use Rattle.first_path.specs.declared.source.Sign.TheVariants as signs;
ghost use Rattle.first_path.specs.declared.source.Source.{Source};
ghost use Rattle.first_path.specs.declared.source.Spec.{Spec};
ghost use Rattle.first_path.specs.declared.source.Symbol.{Symbol};
ghost use Rattle.first_path.specs.declared.source.Variable.{Variable};
ghost use Rattle.first_path.specs.declared.source.Word.{Word};

use crate::global::global;
use crate::lines::lines;
use crate::reading::{ReadFault, variable};
use crate::source::{
    PackageBody, ProcedureBody, ProcedureSpec, Sign, Source, Spec, Symbol, Variable, Word,
};
use crate::steps::{NotSpelled, is_finished, is_word_next, sign, word};
use spark_base::Items;
use std::alloc::Global;
use std::collections::VecDeque;

/// Reads the variables.
fn variables(alloc: Global, rest: &mut VecDeque<Symbol>) -> Result<Items<Variable>, ReadFault>
    ensures ok { IfOk result (λ vs. rest.old.items ≡ each_then variable_then vs rest.new.items) }
    ensures stop { OnOk result (begins_word rest.new.items ≡ false) }
    ensures err { IfErr result (λ f. Denies f ((vs : List Variable) (r : List Symbol) → begins_word r ≡ false
        → rest.old.items ≡ each_then variable_then vs r → ⊥)) }
{
    let mut list = Items::new(alloc);
    'each: while is_word_next(rest) {
        match variable(rest) {
            Ok(next) => list.push(next)?,
            Err(NotSpelled) => return Err(ReadFault::NotSpelled),
        }
    }
    Ok(list)
}

/// Reads the name behind an `end`, where there is one, and the semicolon.
fn end_name(rest: &mut VecDeque<Symbol>) -> Result<Option<Word>, NotSpelled>
    ensures ok { IfOk result (λ w. rest.old.items ≡ end_then w (sign_then signs.Semicolon rest.new.items)) }
    ensures err { OnErr result ((w : Option Word) (r : List Symbol) → rest.old.items ≡ end_then w (sign_then signs.Semicolon r) → ⊥) }
{
    if is_word_next(rest) {
        let name = word(rest)?;
        sign(rest, Sign::Semicolon)?;
        Ok(Some(name))
    } else {
        sign(rest, Sign::Semicolon)?;
        Ok(None)
    }
}

/// Reads an `end`, with its name, and the semicolon.
fn end(rest: &mut VecDeque<Symbol>) -> Result<Option<Word>, NotSpelled>
    ensures ok { IfOk result (λ w. rest.old.items ≡ ended_then w rest.new.items) }
    ensures err { OnErr result ((w : Option Word) (r : List Symbol) → rest.old.items ≡ ended_then w r → ⊥) }
{
    sign(rest, Sign::End)?;
    end_name(rest)
}

/// Reads the declaration of the procedure.
fn procedure_spec(alloc: Global, rest: &mut VecDeque<Symbol>) -> Result<ProcedureSpec, ReadFault>
    ensures ok { IfOk result (λ p. rest.old.items ≡ procedure_spec_then p rest.new.items) }
    ensures err { IfErr result (λ f. Denies f ((p : ProcedureSpec) (r : List Symbol) → rest.old.items ≡ procedure_spec_then p r → ⊥)) }
{
    sign(rest, Sign::Procedure)?;
    let name = word(rest)?;
    sign(rest, Sign::With)?;
    let aspect = word(rest)?;
    sign(rest, Sign::Arrow)?;
    let global = global(alloc, rest)?;
    sign(rest, Sign::Semicolon)?;
    Ok(ProcedureSpec {
        name,
        aspect,
        global,
    })
}

/// Reads the package spec.
fn spec(alloc: Global, rest: &mut VecDeque<Symbol>) -> Result<Spec, ReadFault>
    ensures ok { IfOk result (λ s. rest.old.items ≡ spec_then s rest.new.items) }
    ensures err { IfErr result (λ f. Denies f ((s : Spec) (r : List Symbol) → rest.old.items ≡ spec_then s r → ⊥)) }
{
    sign(rest, Sign::Package)?;
    let package = word(rest)?;
    sign(rest, Sign::Is)?;
    let variables = variables(alloc, rest)?;
    let procedure = procedure_spec(alloc, rest)?;
    let end = end(rest)?;
    Ok(Spec {
        package,
        variables,
        procedure,
        end,
    })
}

/// Reads the body of the procedure.
fn procedure_body(alloc: Global, rest: &mut VecDeque<Symbol>) -> Result<ProcedureBody, ReadFault>
    ensures ok { IfOk result (λ p. rest.old.items ≡ procedure_body_then p rest.new.items) }
    ensures err { IfErr result (λ f. Denies f ((p : ProcedureBody) (r : List Symbol) → rest.old.items ≡ procedure_body_then p r → ⊥)) }
{
    sign(rest, Sign::Procedure)?;
    let name = word(rest)?;
    sign(rest, Sign::Is)?;
    sign(rest, Sign::Begin)?;
    let lines = lines(alloc, rest)?;
    let end = end(rest)?;
    Ok(ProcedureBody { name, lines, end })
}

/// Reads the package body.
fn package_body(alloc: Global, rest: &mut VecDeque<Symbol>) -> Result<PackageBody, ReadFault>
    ensures ok { IfOk result (λ b. rest.old.items ≡ package_body_then b rest.new.items) }
    ensures err { IfErr result (λ f. Denies f ((b : PackageBody) (r : List Symbol) → rest.old.items ≡ package_body_then b r → ⊥)) }
{
    sign(rest, Sign::Package)?;
    sign(rest, Sign::Body)?;
    let package = word(rest)?;
    sign(rest, Sign::Is)?;
    let procedure = procedure_body(alloc, rest)?;
    let end = end(rest)?;
    Ok(PackageBody {
        package,
        procedure,
        end,
    })
}

/// Reads a whole source.
pub fn source(alloc: Global, symbols: VecDeque<Symbol>) -> Result<Source, ReadFault>
    ensures ok { IfOk result (λ s. symbols.items ≡ spelled s) }
    ensures err { IfErr result (λ f. Denies f ((s : Source) → symbols.items ≡ spelled s → ⊥)) }
{
    let mut rest = symbols;
    let spec = spec(alloc, &mut rest)?;
    let body = package_body(alloc, &mut rest)?;
    if !is_finished(&rest) {
        return Err(ReadFault::NotSpelled);
    }
    Ok(Source { spec, body })
}
