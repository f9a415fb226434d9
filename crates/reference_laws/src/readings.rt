//! Laws of the reading of a text. Each is proved once, and its function does nothing.
ghost use Rattle.std.specs.Prelude.{◌≡◌, ◌↔◌, ℕ, Option};
ghost use Rattle.ruby_lexer.specs.Bytes.{Bytes};
ghost use Rattle.ruby_lexer.specs.Pieces.{Toks};
ghost use Rattle.ruby_lexer.specs.Tokens.{IsText, IsFront, FaultLine};
ghost use Rattle.ruby_tree.specs.Tree.{Tree};
ghost use Rattle.ruby_tree.specs.Placement.{at_home, file};
ghost use Rattle.ruby_tree.specs.Reading.{Reads};
ghost use Rattle.reference_parser.specs.Scanned.{front, no_text, scanned_of};
ghost use Rattle.reference_parser.specs.HasFault.{HasFault};
ghost use Rattle.reference_parser.specs.ReadingOf.{tree, fault, reading_of};
ghost use Rattle.reference_laws.specs.Placed.{IsPlaced};

/// What a text is scanned as is what the lexer's rules say of it: a front of tokens and where it
/// stops, or a fault of what is no text.
pub fn scanning_is_one()
    ensures front { (source : Bytes) (tokens : Toks) (stop : Option ℕ) → (scanned_of source ≡ front tokens stop) ↔ IsFront source tokens stop }
    ensures no_text { (source : Bytes) (line : ℕ) → (scanned_of source ≡ no_text line) ↔ ((IsText source → ⊥) × FaultLine source line) }
{}

/// A text has one reading: the tree that its tokens are derived as, or the one line of its fault.
pub fn reading_is_one()
    ensures tree { (source : Bytes) (t : Tree) → (reading_of source ≡ tree t) ↔ Reads source t }
    ensures fault { (source : Bytes) (line : ℕ) → (reading_of source ≡ fault line) ↔ HasFault source line }
{}

/// In the tree of a text each node stands where it may: in the homes, loops, blocks and clauses
/// that its parts are run in.
pub fn what_is_read_is_placed()
    ensures { (source : Bytes) (t : Tree) → Reads source t → IsPlaced (at_home file) t }
{}
