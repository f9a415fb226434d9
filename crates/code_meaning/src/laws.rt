//! What holds of code and of its running, over the definitions alone.
ghost use Rattle.std.specs.Prelude.{◌≡◌, ℕ, true, List, [], ◌∷◌};
ghost use Rattle.iseq_types.specs.declared.sequences.CatchRow.{CatchRow};
ghost use Rattle.ruby_tree.specs.Names.{Bytes};
ghost use Rattle.ruby_tree.specs.Tree.{Tree};
ghost use Rattle.ruby_meaning.specs.Value.{Value};
ghost use Rattle.ruby_meaning.specs.World.{World, Frame, Outcome, Run};
ghost use Rattle.ruby_meaning.specs.Definitions.{read_local, set_local};
ghost use Rattle.ruby_meaning.specs.Files.{Files};
ghost use Rattle.ruby_meaning.specs.Levels.{Scopes, is_held, level_of, slot_of};
ghost use Rattle.ruby_meaning.specs.InSight.{HasScopes};
ghost use Rattle.code_meaning.specs.Code.{Routine, Shape, finish, lines_of, rows_of, rows_at, Placed, Rising};
ghost use Rattle.code_meaning.specs.Machine.{goes, pends, pends_behind, ends, stuck, meet, step, Runs, Follows, Met};
ghost use Rattle.code_meaning.specs.Slots.{read_slot, set_slot};
ghost use Rattle.code_meaning.specs.Frames.{State, Turn, Turns, Leads};

/// Code stands in its own lines, and the rows that hold its places are its own; and the rows stand
/// by their ends.
pub fn code_is_placed()
    ensures placed { (s : Shape) (h : ℕ) → Placed (lines_of h 0 s) (rows_of h 0 s) [] h 0 s }
    ensures rising { (s : Shape) (h p : ℕ) → Rising p (finish p s) (rows_of h p s) }
{}

/// A place, a stack and a world have one outcome.
pub fn runs_have_one_outcome()
    ensures { (files : Files) (b : Tree → Frame → Run) (seqs : ℕ → Routine) (bodies : ℕ → Tree) (seq : Routine) (frame : Frame) (p : ℕ) (st : List Value) (w : World) (o o1 : Outcome) → Runs files b seqs bodies seq frame p st w o → Runs files b seqs bodies seq frame p st w o1 → o ≡ o1 }
{}

/// What a run has to go on with, by the step that is taken: what the step leads to; on at a place; left
/// with an outcome; with no row left; what the next row does with what is pending; the rows behind a
/// call's own. No run is stuck, and none lacks the row of a call with a literal block.
pub fn runs_go_by_steps()
    ensures unrolled { (files : Files) (b : Tree → Frame → Run) (seqs : ℕ → Routine) (bodies : ℕ → Tree) (seq : Routine) (frame : Frame) (p : ℕ) (st : List Value) (w : World) (o : Outcome) → Runs files b seqs bodies seq frame p st w o → Follows files b seqs bodies seq frame (rows_at p seq.body.rows) st (step files b seqs bodies seq frame p st w) o }
    ensures went { (files : Files) (b : Tree → Frame → Run) (seqs : ℕ → Routine) (bodies : ℕ → Tree) (seq : Routine) (frame : Frame) (rs : List CatchRow) (st : List Value) (p : ℕ) (st1 : List Value) (w : World) (o : Outcome) → Follows files b seqs bodies seq frame rs st (goes p st1 w) o → Runs files b seqs bodies seq frame p st1 w o }
    ensures left { (files : Files) (b : Tree → Frame → Run) (seqs : ℕ → Routine) (bodies : ℕ → Tree) (seq : Routine) (frame : Frame) (rs : List CatchRow) (st : List Value) (c o : Outcome) → Follows files b seqs bodies seq frame rs st (ends c) o → c ≡ o }
    ensures fell { (files : Files) (b : Tree → Frame → Run) (seqs : ℕ → Routine) (bodies : ℕ → Tree) (seq : Routine) (frame : Frame) (st : List Value) (c o : Outcome) → Follows files b seqs bodies seq frame [] st (pends c) o → c ≡ o }
    ensures met { (files : Files) (b : Tree → Frame → Run) (seqs : ℕ → Routine) (bodies : ℕ → Tree) (seq : Routine) (frame : Frame) (r : CatchRow) (rs : List CatchRow) (st : List Value) (c o : Outcome) → Follows files b seqs bodies seq frame (r ∷ rs) st (pends c) o → Met files b seqs bodies seq frame r rs st c o (meet r c) }
    ensures was_behind { (files : Files) (b : Tree → Frame → Run) (seqs : ℕ → Routine) (bodies : ℕ → Tree) (seq : Routine) (frame : Frame) (r : CatchRow) (rs : List CatchRow) (st : List Value) (c o : Outcome) → Follows files b seqs bodies seq frame (r ∷ rs) st (pends_behind c) o → Follows files b seqs bodies seq frame rs st (pends c) o }
    ensures not_stuck { (files : Files) (b : Tree → Frame → Run) (seqs : ℕ → Routine) (bodies : ℕ → Tree) (seq : Routine) (frame : Frame) (rs : List CatchRow) (st : List Value) (o : Outcome) → Follows files b seqs bodies seq frame rs st stuck o → ⊥ }
    ensures has_own_row { (files : Files) (b : Tree → Frame → Run) (seqs : ℕ → Routine) (bodies : ℕ → Tree) (seq : Routine) (frame : Frame) (st : List Value) (c o : Outcome) → Follows files b seqs bodies seq frame [] st (pends_behind c) o → ⊥ }
{}

/// Each turn of a machine with a list of frames keeps the outcome that its state leads to, and so do
/// any number of turns.
pub fn turns_keep_the_outcome()
    ensures one { (files : Files) (b : Tree → Frame → Run) (s s1 : State) (o : Outcome) → Turn files b s s1 → Leads files b s o → Leads files b s1 o }
    ensures all { (files : Files) (b : Tree → Frame → Run) (s s1 : State) (o : Outcome) → Turns files b s s1 → Leads files b s o → Leads files b s1 o }
{}

/// Where the environments outward have these names, the slot at a local's level is what its name finds:
/// to read it and to set it.
pub fn slots_are_locals()
    ensures read { (scopes : Scopes) (x : Bytes) (frame : Frame) (w : World) → HasScopes scopes frame w → is_held x scopes ≡ true → read_slot frame (slot_of x scopes) (level_of x scopes) w ≡ read_local frame x w }
    ensures set { (scopes : Scopes) (x : Bytes) (frame : Frame) (v : Value) (w : World) → HasScopes scopes frame w → is_held x scopes ≡ true → set_slot frame (slot_of x scopes) (level_of x scopes) v w ≡ set_local frame x v w }
{}
