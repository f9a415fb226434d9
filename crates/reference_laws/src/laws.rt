//! Laws of the grammar and of the reader on lists. Each is proved once, and its function does
//! nothing.
ghost use Rattle.std.specs.Prelude.{◌≡◌, ◌≤◌, ◌⊎◌, ℕ, Some, None};
ghost use Rattle.ruby_lexer.specs.Bytes.{Bytes};
ghost use Rattle.ruby_lexer.specs.Pieces.{Toks, none};
ghost use Rattle.ruby_tree.specs.Tree.{Tree};
ghost use Rattle.ruby_tree.specs.Rules.{Scope, fresh, own};
ghost use Rattle.ruby_tree.specs.Depth.{depth};
ghost use Rattle.ruby_tree.specs.Grammar.{Derives};
ghost use Rattle.ruby_tree.specs.FaultLine.{StopsAt};
ghost use Rattle.reference_parser.specs.Answers.{taken, fault};
ghost use Rattle.reference_parser.specs.ReadStatements.{readers};
ghost use Rattle.reference_parser.specs.Stops.{stops_at};

/// A list of tokens has at most one tree.
pub fn one_tree()
    ensures { (source : Bytes) (tokens : Toks) (t u : Tree) → Derives source tokens t → Derives source tokens u → t ≡ u }
{}

/// The reader takes exactly what is derived, whose trees are no deeper than symbols may nest.
pub fn reads_what_is_derived()
    // What is taken whole is derived.
    ensures sound { (source : Bytes) (tokens : Toks) (n : ℕ) (t : Tree) (behind : Scope) → (readers source n).stmts own tokens fresh ≡ taken t none behind → Derives source tokens t }
    // A tree of at most n nodes' depth is taken where n symbols may nest.
    ensures complete { (source : Bytes) (tokens : Toks) (n : ℕ) (t : Tree) → Derives source tokens t → depth t ≤ n → (behind : Scope) × ((readers source n).stmts own tokens fresh ≡ taken t none behind) }
    // Where it says that nothing is derived, nothing is, however deep.
    ensures never { (source : Bytes) (tokens : Toks) (n : ℕ) (t : Tree) → (readers source n).stmts own tokens fresh ≡ fault → Derives source tokens t → ⊥ }
    // The same where it leaves tokens.
    ensures left { (source : Bytes) (tokens rest : Toks) (n : ℕ) (t u : Tree) (behind : Scope) → (readers source n).stmts own tokens fresh ≡ taken t rest behind → (rest ≡ none → ⊥) → Derives source tokens u → ⊥ }
{}

/// The walk finds the line at which the grammar stops: over lines of statements, a header, lines of
/// statements, and so on. It gives none only where it is cut by the depth.
pub fn stops_at_one_line()
    ensures found { (source : Bytes) (tokens : Toks) (scope : Scope) (n end line : ℕ) → stops_at source (readers source n) end tokens scope ≡ Some line → StopsAt source end scope tokens line }
    ensures known { (source : Bytes) (tokens : Toks) (scope : Scope) (n end line : ℕ) → StopsAt source end scope tokens line →
        (stops_at source (readers source n) end tokens scope ≡ None) ⊎ (stops_at source (readers source n) end tokens scope ≡ Some line) }
    ensures once { (source : Bytes) (tokens : Toks) (scope : Scope) (end line other : ℕ) → StopsAt source end scope tokens line → StopsAt source end scope tokens other → line ≡ other }
{}
