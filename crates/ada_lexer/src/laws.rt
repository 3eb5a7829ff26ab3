ghost use Rattle.std.specs.Prelude.{◌≡◌, ◌<◌, ◌≤◌, ◌↔◌, ◌⊎◌, ◌*◌, ◌^◌, ℕ, List, Bool, true, length, IfOk};
ghost use Rattle.ada_lexer.specs.Classes.{base_of};
ghost use Rattle.ada_lexer.specs.Laws.{InOrder, IsBased, IsDecimal, IsLongest, NonePasses};
ghost use Rattle.ada_lexer.specs.Joined.{IsCut, IsRefused};
ghost use Rattle.ada_lexer.specs.Cut.{lexed, number_value, value_from};
ghost use Rattle.ada_lexer.specs.Pieces.{longest, number};
ghost use Rattle.spark_base.specs.declared.numbers.FileNo.{FileNo};
ghost use Rattle.ada_tree.specs.declared.token.Token.{Token};
ghost use Rattle.ada_lexer.specs.declared.lexing.TheConstants.{LIMIT};
ghost use Rattle.ada_lexer.specs.declared.refusal.Refusal.{Refusal};
ghost use Rattle.spark_messages.specs.declared.messages.Code.TheVariants.{X01};

/// What `longest` gives is the longest front that passes, and none only where no front passes.
pub fn longest_fronts()
    ensures some { (test : List ℕ → Bool) (bytes : List ℕ) (n : ℕ) →
        longest test bytes ≡ Some n → IsLongest test bytes n }
    ensures none { (test : List ℕ → Bool) (bytes : List ℕ) →
        longest test bytes ≡ None → NonePasses test bytes }
{}

/// The test of a number passes digits with perhaps an exponent, and a base with its digits, and
/// nothing else.
pub fn number_parts()
    ensures { (bytes : List ℕ) →
        (number bytes ≡ true) ↔ (IsDecimal true bytes ⊎ IsBased 0 true bytes) }
{}

/// The value of a number is that of its digits, times the base to the exponent.
pub fn number_values()
    ensures decimal { (bytes : List ℕ) (r : IsDecimal true bytes) →
        number_value bytes ≡ value_from 10 0 r.digits * 10 ^ value_from 10 0 r.tail }
    ensures based { (bytes : List ℕ) (r : IsBased 0 true bytes) →
        let base = base_of (value_from 10 0 r.base) in
        number_value bytes
        ≡ value_from base 0 r.is_rest.digits * base ^ value_from 10 0 r.is_rest.tail }
{}

/// A source has tokens exactly where it is within the limit and is pieces joined, each the longest
/// that may stand where it begins; and its tokens are those of the pieces.
pub fn pieces_joined()
    ensures { (file : FileNo) (source : List ℕ) (tokens : List Token) →
        (lexed file source ≡ Ok tokens) ↔ ((length source ≤ LIMIT) × IsCut file source tokens) }
{}

/// Where a source is refused within the limit, it begins with such pieces, and the refusal is that
/// of what stands behind them and is no piece; a source beyond the limit is refused at its beginning.
pub fn refusals_behind_pieces()
    ensures within { (file : FileNo) (source : List ℕ) (r : Refusal) →
        length source ≤ LIMIT → lexed file source ≡ Err r → IsRefused source r }
    ensures beyond { (file : FileNo) (source : List ℕ) →
        LIMIT < length source → lexed file source ≡ Err (record { code = X01; place = record { line = 1; col = 1 } }) }
{}

/// It follows that tokens have bytes, stand in order within their source and do not overlap, and
/// that the span of each is that of its bytes.
pub fn tokens_in_order()
    ensures { (file : FileNo) (source : List ℕ) →
        IfOk (lexed file source) (InOrder file source 0) }
{}
