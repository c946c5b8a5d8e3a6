// How tokens are written.
ghost use Rattle.std.specs.Prelude.{◌≡◌, ℕ, true, List, length, map};
ghost use Rattle.rule_lexer.specs.Lexing.{Lexing};
ghost use Rattle.rule_lexer.specs.Writing.{Piece, written, Parted};

/// What is written from tokens, with blanks where two of them would join or where any are wanted, is read as these tokens.
pub fn written_is_read()
    ensures { (ps : List Piece) → Parted ps ≡ true → (places : List ℕ)
        × Lexing (written ps) 0 (map (λ p. p.terminal) ps) places (length (written ps)) true }
{}
