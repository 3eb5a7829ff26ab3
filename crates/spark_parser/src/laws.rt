ghost use Rattle.std.specs.Prelude.{◌≡◌, List};
ghost use Rattle.ada_grammar.specs.Phrases.{Tree};
ghost use Rattle.ada_tree.specs.declared.token.Tokens.{Tokens};
ghost use Rattle.spark_messages.specs.declared.messages.Message.{Message};
ghost use Rattle.spark_parser.specs.Parsed.{Told};

/// What is told of some files is told of them alone: no file is both read and refused, and each has one list of units or
/// one refusal.
pub fn one_answer()
    ensures { (all : List Tokens) (us vs : List Tree) (ms ns : List Message) → Told all us ms → Told all vs ns → (us ≡ vs) × (ms ≡ ns) }
{}
