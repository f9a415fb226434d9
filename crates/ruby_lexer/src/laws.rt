//! Laws of the relation between a text and its tokens.
ghost use Rattle.std.specs.Prelude.{◌≡◌, ℕ, ◌⊎◌};
ghost use Rattle.ruby_lexer.specs.Bytes.{Bytes};
ghost use Rattle.ruby_lexer.specs.Pieces.{Toks};
ghost use Rattle.ruby_lexer.specs.Tokens.{IsText, AreTokens, FaultLine};

/// A text has one list of tokens or one line of a fault, and never both.
pub fn one_reading()
    ensures tokens { (bytes : Bytes) (ts us : Toks) → AreTokens bytes ts → AreTokens bytes us → ts ≡ us }
    ensures lines { (bytes : Bytes) (m n : ℕ) → FaultLine bytes m → FaultLine bytes n → m ≡ n }
    ensures apart { (bytes : Bytes) (ts : Toks) (n : ℕ) → AreTokens bytes ts → FaultLine bytes n → ⊥ }
    ensures either { (bytes : Bytes) → IsText bytes → ((ts : Toks) × AreTokens bytes ts) ⊎ ((n : ℕ) × FaultLine bytes n) }
{}
