//! Names of identifiers and points, as they were written.
ghost use Rattle.std.specs.Prelude.{◌≡◌, ◌<◌, ◌++◌, codes, reverse, IfOk, OnOk};
ghost use Rattle.ada_forms.specs.Forms.{expr_of};
ghost use Rattle.unit_order.specs.Reading.{IsRead, IsShorter};
ghost use Rattle.unit_order.specs.Withs.{begins, written};

use ada_forms::{ExprForm, expr_form};
use ada_tree::Units;
use spark_base::{Bytes, ExprNo, Name, NoMemory, Pos};
use std::alloc::Global;

/// What a name ends with.
#[derive(Clone, Copy)]
pub(crate) enum Piece<'a> {
    /// A point and an identifier, behind a prefix.
    Selected { name: &'a Name, prefix: ExprNo },
    /// A first identifier. Nothing stands in place of what is no name.
    Word { at: Pos, word: &'a [u8] },
}

fn last_piece<'a>(units: &'a Units, e: ExprNo) -> Piece<'a>
    ensures read { IsRead (expr_of units.now.exprs) (expr_of units.now.exprs e) result }
    ensures shorter { IsShorter e.0 result }
{
    let formed = expr_form(units, e);
    match formed.form {
        ExprForm::Selected { name, prefix } => Piece::Selected { name, prefix },
        ExprForm::Identifier(name) => Piece::Word {
            at: formed.at,
            word: name.written.as_slice(),
        },
        _ => Piece::Word {
            at: Pos { line: 1, col: 1 },
            word: &[],
        },
    }
}

/// Adds a word from its end to its begin.
fn append_back(text: &mut Vec<u8>, word: &[u8]) -> Result<(), NoMemory>
    ensures { OnOk result (reverse text.new.items ≡ word.now ++ reverse text.old.items) }
{
    for i in (0..word.len()).rev() {
        text.push(word[i])?;
    }
    Ok(())
}

/// Adds an identifier from its end to its begin, and the point before it.
fn append_selected(text: &mut Vec<u8>, name: &Name) -> Result<(), NoMemory>
    ensures { OnOk result (reverse text.new.items ≡ codes "." ++ name.now.written ++ reverse text.old.items) }
{
    append_back(text, name.written.as_slice())?;
    text.push(b'.')?;
    Ok(())
}

/// A name as it was written, and where it begins.
#[derive(Drop)]
pub(crate) struct Spelling {
    pub begins: Pos,
    pub text: Bytes,
}

/// The spelling of a name, from its last identifier to its first.
pub(crate) fn spell(alloc: Global, units: &Units, e: ExprNo) -> Result<Spelling, NoMemory>
    ensures begins { IfOk result (λ s. s.begins ≡ begins (expr_of units.now.exprs e)) }
    ensures text { IfOk result (λ s. s.text ≡ written (expr_of units.now.exprs e)) }
{
    let mut text = Vec::new(alloc);
    let mut here = e;
    loop {
        match last_piece(units, here) {
            Piece::Selected { name, prefix } => {
                append_selected(&mut text, name)?;
                here = prefix;
            }
            Piece::Word { at, word } => {
                append_back(&mut text, word)?;
                text.reverse();
                return Ok(Spelling {
                    begins: at,
                    text: Bytes::from_vec(text),
                });
            }
        }
    }
}
