ghost use Rattle.std.specs.Prelude.{◌≡◌, ◌++◌, List};
ghost use Rattle.ada_grammar.specs.Answer.{IsRead, IsRefused};
ghost use Rattle.ada_grammar.specs.Parts as parts;
ghost use Rattle.ada_grammar.specs.Parts.{Part};
ghost use Rattle.ada_grammar.specs.Spelling.{Spells};
ghost use Rattle.ada_grammar.specs.Lexemes.{Lexeme};
ghost use Rattle.ada_grammar.specs.Phrases.{Phrase};
ghost use Rattle.ada_grammar.specs.Reading.{Awaits, Reads};
ghost use Rattle.ada_grammar.specs.Fronts.{Point};

/// Each part of the grammar has a sentence.
pub fn parts_have_sentences()
    ensures { (part : Part) → (x : Phrase) × (w : List Lexeme) × Spells part x w }
{}

/// Where a part is read so far, and awaits nothing but its phrase, the tokens so far are its longest viable front, and
/// spell this phrase and no other.
pub fn what_is_read()
    ensures { (part : Part) (p q : Point) (x : Phrase) → Reads part p q x → IsRead part p.level p.rest q.rest x.tree }
{}

/// Where a part is read so far, and awaits what never comes, the tokens so far are its longest viable front, and no
/// sentence.
pub fn what_is_refused()
    ensures { (part : Part) (p q : Point) → Awaits part p q parts.Never → IsRefused part p.level p.rest q.rest }
{}
