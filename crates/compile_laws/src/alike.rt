//! What a call takes of the frame that makes it.
ghost use Rattle.std.specs.Prelude.{◌≡◌, ℕ, Bool, List, Option};
ghost use Rattle.ruby_tree.specs.Names.{Bytes};
ghost use Rattle.ruby_tree.specs.Tree.{Tree, Goal};
ghost use Rattle.ruby_meaning.specs.Value.{Value};
ghost use Rattle.ruby_meaning.specs.World.{Given, Running, Frame, Run};
ghost use Rattle.ruby_meaning.specs.Steps.{raise_new, line_in};
ghost use Rattle.ruby_meaning.specs.Blocks.{run_given};
ghost use Rattle.ruby_meaning.specs.Files.{Files};
ghost use Rattle.ruby_meaning.specs.Invoke.{call_method};
ghost use Rattle.ruby_meaning.specs.Definitions.{set_goal, define_method, path_from, path_around};
ghost use Rattle.ruby_meaning.specs.ClassBodies.{open_class};
ghost use Rattle.ruby_meaning.specs.Parts.{leave_home, leave_block};
ghost use Rattle.ruby_meaning.specs.Evaluation.{super_with};
ghost use Rattle.compile_laws.specs.Likeness.{Alike, with_flag};

/// A frame in a loop and the same one outside of it are alike; and so are a frame at a line and the
/// frame at the line that is read there, which for line 0 is the first of its sequence.
pub fn frames_are_alike()
    ensures loops { (x : Bool) (frame : Frame) (line : ℕ) → Alike (with_flag x frame) line frame line }
    ensures lines { (frame : Frame) (line : ℕ) → Alike frame (line_in frame line) frame line }
{}

/// What a frame calls, raises, reads by a path, sets, defines, opens and leaves is the same in one
/// that is alike.
pub fn calls_are_alike()
    ensures calls { (it frame : Frame) (at_line line : ℕ) → Alike it at_line frame line → (files : Files) (b : Tree → Frame → Run) (self : Value) (x : Bytes) (vs : List Value) (given : Given) (bare : Bool) → call_method files b it at_line self x vs given bare ≡ call_method files b frame line self x vs given bare }
    ensures supers { (it frame : Frame) (at_line line : ℕ) → Alike it at_line frame line → (files : Files) (b : Tree → Frame → Run) (fuel : ℕ) (vs : List Value) (own : Given) (r : Running) (given : Given) → super_with files fuel b at_line vs own r it given ≡ super_with files fuel b line vs own r frame given }
    ensures blocks { (it frame : Frame) (at_line line : ℕ) → Alike it at_line frame line → (files : Files) (b : Tree → Frame → Run) (given : Given) (vs : List Value) → run_given b it at_line given vs ≡ run_given b frame line given vs }
    ensures raises { (it frame : Frame) (at_line line : ℕ) → Alike it at_line frame line → (k : ℕ) (x : Bytes) → raise_new it at_line k x ≡ raise_new frame line k x }
    ensures paths { (it frame : Frame) (at_line line : ℕ) → Alike it at_line frame line → (xs : List Bytes) (v : Value) → path_from it at_line xs v ≡ path_from frame line xs v }
    ensures names { (it frame : Frame) (at_line line : ℕ) → Alike it at_line frame line → (xs : List Bytes) → path_around it at_line xs ≡ path_around frame line xs }
    ensures goals { (it frame : Frame) (at_line line : ℕ) → Alike it at_line frame line → (g : Goal) (v : Value) → set_goal it at_line g v ≡ set_goal frame line g v }
    ensures methods { (it frame : Frame) (at_line line : ℕ) → Alike it at_line frame line → (x : Bytes) (t : Tree) (on_self : Bool) → define_method it at_line x t on_self ≡ define_method frame line x t on_self }
    ensures classes { (it frame : Frame) (at_line line : ℕ) → Alike it at_line frame line → (t : Tree) (go : Frame → Run) (c : ℕ) → open_class it at_line t go c ≡ open_class frame line t go c }
    ensures returns { (it frame : Frame) (at_line line : ℕ) → Alike it at_line frame line → (v : Value) → leave_home it at_line v ≡ leave_home frame line v }
    ensures breaks { (it frame : Frame) (at_line line : ℕ) → Alike it at_line frame line → (k : Option ℕ) (v : Value) → leave_block k it at_line v ≡ leave_block k frame line v }
{}
