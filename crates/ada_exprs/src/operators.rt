ghost use Rattle.ada_exprs.specs.Steps.{Links, Opens};
ghost use Rattle.ada_grammar.specs.Lexemes.{lexeme, lexemes};

use ada_grammar::{Class, Cursor, Fault, accept, expect};
use ada_tree::{LogicalOperator, Reserved, Token, Tokens};

/// Reads the words of an operator between relations, if one stands there.
#[tactic(auto)]
pub fn operator(
    tokens: &Tokens,
    cursor: Cursor,
) -> Result<Option<(LogicalOperator, Token, Cursor)>, Fault>
    ensures { Opens (lexeme tokens.now.source) (lexemes tokens.now) cursor result }
{
    if let Some((and, next)) = accept(tokens, cursor, Class::Reserved(Reserved::And))? {
        return match accept(tokens, next, Class::Reserved(Reserved::Then))? {
            Some((_, end)) => Ok(Some((LogicalOperator::AndThen, and, end))),
            None => Ok(Some((LogicalOperator::And, and, next))),
        };
    }
    if let Some((or, next)) = accept(tokens, cursor, Class::Reserved(Reserved::Or))? {
        return match accept(tokens, next, Class::Reserved(Reserved::Else))? {
            Some((_, end)) => Ok(Some((LogicalOperator::OrElse, or, end))),
            None => Ok(Some((LogicalOperator::Or, or, next))),
        };
    }
    match accept(tokens, cursor, Class::Reserved(Reserved::Xor))? {
        Some((xor, next)) => Ok(Some((LogicalOperator::Xor, xor, next))),
        None => Ok(None),
    }
}

/// Reads the words of this operator, if its first word stands there.
pub fn again(
    tokens: &Tokens,
    cursor: Cursor,
    operator: LogicalOperator,
) -> Result<Option<(Token, Cursor)>, Fault>
    ensures { Links operator (lexeme tokens.now.source) (lexemes tokens.now) cursor result }
{
    match operator {
        LogicalOperator::And => accept(tokens, cursor, Class::Reserved(Reserved::And)),
        LogicalOperator::Or => accept(tokens, cursor, Class::Reserved(Reserved::Or)),
        LogicalOperator::Xor => accept(tokens, cursor, Class::Reserved(Reserved::Xor)),
        LogicalOperator::AndThen => {
            let Some((and, next)) = accept(tokens, cursor, Class::Reserved(Reserved::And))? else {
                return Ok(None);
            };
            let (_, end) = expect(tokens, next, Class::Reserved(Reserved::Then))?;
            Ok(Some((and, end)))
        }
        LogicalOperator::OrElse => {
            let Some((or, next)) = accept(tokens, cursor, Class::Reserved(Reserved::Or))? else {
                return Ok(None);
            };
            let (_, end) = expect(tokens, next, Class::Reserved(Reserved::Else))?;
            Ok(Some((or, end)))
        }
    }
}
