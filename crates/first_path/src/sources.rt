ghost use Rattle.std.specs.Prelude.{◌≡◌, All, IfNone, IfOk, IfSome};
ghost use Rattle.first_path.specs.Nested.{AreNested};
ghost use Rattle.first_path.specs.Spelling.{spelled};
ghost use Rattle.first_path.specs.Symbols.{IsInside, Spells, symbols};
ghost use Rattle.first_path.specs.declared.source.Source.{Source};

use crate::nested::is_nested;
use crate::reading::ReadFault;
use crate::source::Source;
use crate::symbols::symbols_of;
use crate::units::source;
use ada_lexer::{lex, tokens_in_order};
use ada_tree::Tokens;
use spark_base::{Bytes, FileNo, NoMemory};
use spark_messages::PhaseFault;
use std::alloc::Global;

/// The source that tokens spell, and none where they spell none.
fn spelled_by(alloc: Global, tokens: &Tokens) -> Result<Option<Source>, NoMemory>
    requires { All (IsInside tokens.now.source) tokens.now.list }
    ensures some { IfOk result (λ r. IfSome r (λ s. (symbols tokens.now.source tokens.now.list ≡ spelled s)
        × AreNested s.body.procedure.lines)) }
    ensures none { IfOk result (λ r. IfNone r ((s : Source) → symbols tokens.now.source tokens.now.list ≡ spelled s
        → AreNested s.body.procedure.lines → ⊥)) }
{
    let symbols = symbols_of(alloc, tokens)?;
    let source = match source(alloc, symbols) {
        Ok(source) => source,
        Err(ReadFault::NotSpelled) => return Ok(None),
        Err(ReadFault::NoMemory) => return Err(NoMemory),
    };
    if is_nested(alloc, source.body.procedure.lines.as_slice())? {
        Ok(Some(source))
    } else {
        Ok(None)
    }
}

/// The source that the bytes of a file spell, and none where they spell none.
pub fn reading_of(alloc: Global, file: FileNo, bytes: Bytes) -> Result<Option<Source>, NoMemory>
    ensures some { IfOk result (λ r. IfSome r (Spells file bytes)) }
    ensures none { IfOk result (λ r. IfNone r ((s : Source) → Spells file bytes s → ⊥)) }
{
    match lex(alloc, file, bytes) {
        Ok(tokens) => {
            tokens_in_order();
            spelled_by(alloc, &tokens)
        }
        Err(PhaseFault::Refused(_)) => Ok(None),
        Err(PhaseFault::NoMemory) => Err(NoMemory),
    }
}
