//! Laws of the definitions alone.
ghost use Rattle.std.specs.Prelude.{◌≡◌, ℕ, List, [], ◌++◌};
ghost use Rattle.msgpack_codec.specs.declared.value.Value.{Value};
ghost use Rattle.msgpack_codec.specs.Message.{SpellsMessage};

/// One value has one spelling, one spelling has one value, and no spelling is a proper prefix of another.
pub fn one_spelling()
    ensures one_spelling { (v : Value) (s t : List ℕ) → SpellsMessage v s → SpellsMessage v t → s ≡ t }
    ensures one_value { (v w : Value) (s : List ℕ) → SpellsMessage v s → SpellsMessage w s → v ≡ w }
    ensures no_prefix { (v w : Value) (s more : List ℕ) → SpellsMessage v s → SpellsMessage w (s ++ more) → more ≡ [] }
{}
