//! Laws of parts that were refused.
ghost use Rattle.std.specs.Prelude.{◌≡◌, Bool, [], true};
ghost use Rattle.ada_forms.specs.declared.forms.BinaryOperator.{BinaryOperator as Operator};
ghost use Rattle.seen_names.specs.Contexts.{Context};
ghost use Rattle.seen_names.specs.declared.entities.Entity.{Entity as Meaning};
ghost use Rattle.seen_names.specs.declared.entities.Entity.TheVariants.{Nothing};
ghost use Rattle.spark_base.specs.declared.numbers.Pos.{Pos};
ghost use Rattle.static_eval.specs.declared.judgements.Judgement.{Judgement};
ghost use Rattle.value_rules.specs.Branches.{with_branch};
ghost use Rattle.value_rules.specs.Operators.{binary, binary_found};
ghost use Rattle.value_rules.specs.declared.branches.Branches.{Branches};

/// Where the right operand was refused, the whole is refused as well, and nothing more is told of it.
pub fn a_refused_operand_is_told_once()
    ensures whole { (c : Context) (operator : Operator) (a : Meaning) → binary c operator a Nothing ≡ Nothing }
    ensures found { (c : Context) (operator : Operator) (at : Pos) (start : Pos) (a : Meaning) (j : Judgement) (k : Judgement) → binary_found c operator at start a Nothing j k ≡ [] }
{}

/// Behind a value that was refused, or has another type than those before it, a conditional expression stays refused,
/// whatever follows.
pub fn a_bad_branch_spoils_the_whole()
    ensures { (c : Context) (s : Branches) (is_last : Bool) (a : Meaning) → s.is_bad ≡ true → (with_branch c s is_last a).is_bad ≡ true }
{}
