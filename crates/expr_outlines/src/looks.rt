//! Names, aggregates and first tokens.
ghost use Rattle.std.specs.Prelude.{◌≡◌};
ghost use Rattle.ada_forms.specs.Forms.{expr_of};
ghost use Rattle.expr_outlines.specs.Outlines as spec;

use ada_forms::{ExprForm, UnaryOperator, expr_form};
use ada_tree::{AddingOperator, Units};
use name_findings::Spelling;
use spark_base::ExprNo;

/// Whether it is an aggregate, within further parentheses or not. It takes a step for each of these.
pub fn is_aggregate(units: &Units, e: ExprNo) -> bool
    ensures { result ≡ spec.is_aggregate (expr_of units.now.exprs e) }
{
    let mut at = e;
    loop {
        match expr_form(units, at).form {
            ExprForm::Positional { .. } | ExprForm::Named { .. } => return true,
            ExprForm::Parenthesized { inner } => at = inner,
            ExprForm::Argument { value } => at = value,
            ExprForm::NamedArgument { value, .. } => at = value,
            _ => return false,
        }
    }
}

/// Whether it is a name of words and points alone. It takes a step for each of these.
pub fn is_plain_name(units: &Units, e: ExprNo) -> bool
    ensures { result ≡ spec.is_plain_name (expr_of units.now.exprs e) }
{
    let mut at = e;
    loop {
        match expr_form(units, at).form {
            ExprForm::Identifier(_) => return true,
            ExprForm::Selected { prefix, .. } => at = prefix,
            _ => return false,
        }
    }
}

/// Whether it is a name.
pub fn is_name(units: &Units, e: ExprNo) -> bool
    ensures { result ≡ spec.is_name (expr_of units.now.exprs e) }
{
    match expr_form(units, e).form {
        ExprForm::Identifier(_)
        | ExprForm::Selected { .. }
        | ExprForm::Applied { .. }
        | ExprForm::Attribute { .. }
        | ExprForm::RangeAttribute { .. }
        | ExprForm::Qualified { .. } => true,
        _ => false,
    }
}

fn sign_text(operator: UnaryOperator) -> Spelling
    ensures { result ≡ spec.sign_text operator }
{
    match operator {
        UnaryOperator::Sign(AddingOperator::Plus) => Spelling::Plus,
        UnaryOperator::Sign(AddingOperator::Minus) => Spelling::Minus,
        UnaryOperator::Absolute => Spelling::Absolute,
        UnaryOperator::Not => Spelling::Not,
    }
}

/// The first token. It takes a step for each part with which it begins.
pub fn first_token(units: &Units, e: ExprNo) -> Spelling
    ensures { result ≡ spec.first_token (expr_of units.now.exprs e) }
{
    let mut at = e;
    loop {
        match expr_form(units, at).form {
            ExprForm::Number(n) => return Spelling::Numeral(n),
            ExprForm::Identifier(_) => return Spelling::Word(at),
            ExprForm::Selected { prefix, .. } => at = prefix,
            ExprForm::Applied { prefix, .. } => at = prefix,
            ExprForm::Attribute { prefix, .. } => at = prefix,
            ExprForm::RangeAttribute { prefix, .. } => at = prefix,
            ExprForm::Qualified { mark, .. } => at = mark,
            ExprForm::Argument { value } => at = value,
            ExprForm::NamedArgument { value, .. } => at = value,
            ExprForm::Unary { operator, .. } => return sign_text(operator),
            ExprForm::Binary { left, .. } => at = left,
            ExprForm::InRange { value, .. } => at = value,
            ExprForm::InMark { value, .. } => at = value,
            _ => return Spelling::Parenthesis,
        }
    }
}
