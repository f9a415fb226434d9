//! That a machine puts the frame of a call on top, and that this frame begins as its sequence asks.
ghost use Rattle.std.specs.Prelude.{◌≡◌, ℕ, ◌+◌, ◌≤◌, true, List, [], ◌∷◌, length, Option, Some, None, is_some, slice_get, false};
ghost use Rattle.ruby_tree.specs.Names.{Bytes};
ghost use Rattle.ruby_tree.specs.Tree.{Tree};
ghost use Rattle.iseq_types.specs.declared.instructions.Instr.TheVariants.{Send, InvokeBlock};
ghost use Rattle.iseq_types.specs.declared.sequences.SeqKind.{SeqKind};
ghost use Rattle.ruby_meaning.specs.Value.{Value, Source, Code, written};
ghost use Rattle.ruby_meaning.specs.Store.{environment_cells, Place, find_method};
ghost use Rattle.ruby_meaning.specs.Locals.{locals_of};
ghost use Rattle.ruby_meaning.specs.World.{Given, no_block, Closure, World, Frame, Outcome, Run, Full};
ghost use Rattle.ruby_meaning.specs.Steps.{then_do, changing, returned, stand};
ghost use Rattle.ruby_meaning.specs.Calls.{enter, spread, optional_given, all_nil, with_environment, next_environment};
ghost use Rattle.ruby_meaning.specs.Files.{Files, ruby_tree};
ghost use Rattle.ruby_meaning.specs.Definitions.{code_of, closure_here};
ghost use Rattle.ruby_meaning.specs.Loads.{file_body, file_code, file_frame, load_ruby};
ghost use Rattle.ruby_meaning.specs.Levels.{Scopes};
ghost use Rattle.ruby_meaning.specs.InSight.{HaveNames};
ghost use Rattle.ruby_meaning.specs.Evaluation.{eval, evaluate};
ghost use Rattle.ruby_meaning.specs.PlainRun.{Program, top_frame, start_cells, with_turns, program_run};
ghost use Rattle.code_meaning.specs.Code.{at_line, Routine, rows_at};
ghost use Rattle.code_meaning.specs.Machine.{is_valued, call_answer, Runs};
ghost use Rattle.code_meaning.specs.Frames.{Wrap, of_method, of_block, wrapped, Tables, Under, at_call, running, proceed, Turn};
ghost use Rattle.compile_table.specs.Shapes.{Where};
ghost use Rattle.compile_table.specs.Sequences.{in_file, in_body, in_block};
ghost use Rattle.compile_laws.specs.Finds.{body_routine, FindsBody, StandsIn, start_of};
ghost use Rattle.compile_laws.specs.Calling.{entering, MayRunMethod, method_environment, MayRunBlock, given_by, closure_given, calling_frame, calling_given, calling_world, pushed, with_block_value, at_once, enters, has_room, with_cells, method_world, called_frame, block_world, yielded_frame, class_world, opened_frame, MayLoad, loaded_code, file_environment, file_world, loaded_frame, StepCalls};
ghost use Rattle.compile_laws.specs.Begins.{Begins, IsCodeAt};

/// A body that begins runs to what it means. So where a step is a call that comes to a body, of the
/// frame's own unit or of another, a machine puts its frame on top, and the caller waits; and where
/// it is a call that comes to an outcome without a frame, the caller goes on with that.
pub fn frames_go_on_top()
    ensures runs { (files : Files) (unit : Tables) (l : Where) (kind : SeqKind) (name : Bytes) (t : Tree) (frame : Frame) (w : World) → Begins unit l t frame w → Runs files (evaluate files) unit.seqs unit.bodies (body_routine l kind name t) frame (start_of l t frame.given) [] w (evaluate files t frame w) }
    ensures turn { (files : Files) (unit its : Tables) (seq : Routine) (frame : Frame) (p : ℕ) (st rest : List Value) (w : World) (us : List Under) (q : ℕ) (m : Wrap) (l : Where) (kind : SeqKind) (name : Bytes) (t : Tree) (fr : Frame) (z : World) → StepCalls files unit seq frame p st w q rest (enters m t fr z) → Begins its l t fr z → Turn files (evaluate files) (running unit seq frame p st w us) (running its (body_routine l kind name t) fr (start_of l t fr.given) [] z (at_call unit seq frame p st rest q (length w.closures) m ∷ us)) }
    ensures without { (files : Files) (b : Tree → Frame → Run) (unit : Tables) (seq : Routine) (frame : Frame) (p : ℕ) (st rest : List Value) (w : World) (us : List Under) (q : ℕ) (o : Outcome) → StepCalls files unit seq frame p st w q rest (at_once o) → Turn files b (running unit seq frame p st w us) (proceed unit seq frame (rows_at p seq.body.rows) st (call_answer q (length w.closures) (p + 1) rest o) us) }
{}

/// A send of a method that is found, is written in Ruby and may run puts its frame on top, at the entry
/// for the optional parameters that it is given; and so does a yield to a block that may run.
pub fn sends_and_yields_put_frames_on_top()
    ensures send { (files : Files) (unit its : Tables) (seq : Routine) (frame : Frame) (p line : ℕ) (w : World) (us : List Under) (x : Bytes) (n : ℕ) (ks : List ℕ) (flags q : ℕ) (v : Option Value) (given : Given) (vs : List Value) (self : Value) (rest : List Value) (l : Where) (kind : SeqKind) (name : Bytes) (place : Place) (code : Code) (turns : ℕ) → slice_get seq.body.code p ≡ Some (at_line line (Send x n ks flags q)) → is_valued flags ≡ is_some v → n ≡ length vs → given_by w.objects no_block v ≡ Some given → find_method (calling_world unit.bodies q frame w).objects self x ≡ Some (record { place = place; body = written code }) → MayRunMethod code (spread ks vs (calling_world unit.bodies q frame w)) (calling_given q given w) turns (calling_world unit.bodies q frame w) → IsCodeAt its l [] code → Turn files (evaluate files) (running unit seq frame p (with_block_value v (pushed vs (self ∷ rest))) w us) (running its (body_routine l kind name code.body) (called_frame (calling_frame q frame w) line code self x place (spread ks vs (calling_world unit.bodies q frame w)) (calling_given q given w) turns (calling_world unit.bodies q frame w)) (start_of l code.body (optional_given code (spread ks vs (calling_world unit.bodies q frame w)))) [] (method_world code (spread ks vs (calling_world unit.bodies q frame w)) (calling_given q given w) turns (calling_world unit.bodies q frame w)) (at_call unit seq frame p (with_block_value v (pushed vs (self ∷ rest))) rest q (length w.closures) (of_method (entering code (calling_world unit.bodies q frame w)).depth (method_environment code (spread ks vs (calling_world unit.bodies q frame w)) (calling_given q given w) turns (calling_world unit.bodies q frame w))) ∷ us)) }
    ensures yields { (files : Files) (unit its : Tables) (seq : Routine) (frame : Frame) (p line : ℕ) (w : World) (us : List Under) (n : ℕ) (ks : List ℕ) (vs rest : List Value) (l : Where) (scopes : Scopes) (kind : SeqKind) (name : Bytes) (k : ℕ) (c : Closure) (turns : ℕ) → slice_get seq.body.code p ≡ Some (at_line line (InvokeBlock n ks)) → n ≡ length vs → closure_given frame.block ≡ Some k → slice_get w.closures k ≡ Some c → MayRunBlock c.code (spread ks vs w) turns w → IsCodeAt its l scopes c.code → HaveNames (length w.environments) scopes w.environments (Some c.environment) → Turn files (evaluate files) (running unit seq frame p (pushed vs rest) w us) (running its (body_routine l kind name c.code.body) (yielded_frame frame line c k (spread ks vs w) turns w) (start_of l c.code.body 0) [] (block_world c (spread ks vs w) turns w) (at_call unit seq frame p (pushed vs rest) rest 0 (length w.closures) (of_block w.depth) ∷ us)) }
{}

/// To enter a sequence changes the trace alone.
pub fn entries_change_the_trace()
    ensures { (source : Source) (place : ℕ) (w : World) → enter source place w ≡ record w { trace = (enter source place w).trace } }
{}

/// The frames that calls make begin so: that of a method and of a block where their code is one whose
/// nodes stand there, and for a block the environments outward of its own have the names in sight;
/// that of a class body where the frame that opens it stands there; and that of a file.
pub fn made_frames_begin()
    ensures method { (unit : Tables) (l : Where) (frame : Frame) (line : ℕ) (code : Code) (self : Value) (x : Bytes) (place : Place) (vs : List Value) (given : Given) (turns : ℕ) (w : World) → IsCodeAt unit l [] code → Begins unit l code.body (called_frame frame line code self x place vs given turns w) (method_world code vs given turns w) }
    ensures block { (unit : Tables) (l : Where) (scopes : Scopes) (frame : Frame) (line k : ℕ) (vs : List Value) (c : Closure) (turns : ℕ) (w : World) → IsCodeAt unit l scopes c.code → HaveNames (length w.environments) scopes w.environments (Some c.environment) → Begins unit l c.code.body (yielded_frame frame line c k vs turns w) (block_world c vs turns w) }
    ensures class { (unit : Tables) (l : Where) (frame : Frame) (line : ℕ) (t : Tree) (c : ℕ) (w : World) → StandsIn l frame → FindsBody unit.seqs unit.bodies (in_body l t) t → Begins unit (in_body l t) t (opened_frame frame line t c w) (class_world frame t w) }
    ensures file { (unit : Tables) (path : Bytes) (load : Option ℕ) (t : Tree) (outside : Option (Bytes × ℕ)) (running calling : List ℕ) (w : World) → FindsBody unit.seqs unit.bodies (in_file path t) (file_body t) → Begins unit (in_file path t) (file_body t) (file_frame (file_code path load t) (next_environment w) outside running calling) (with_environment None (all_nil (locals_of [] t)) w) }
    ensures loaded { (unit : Tables) (frame : Frame) (line : ℕ) (path : Bytes) (t : Tree) (turns : ℕ) (w : World) → FindsBody unit.seqs unit.bodies (in_file path t) (file_body t) → Begins unit (in_file path t) (loaded_code path t w).body (loaded_frame frame line path t turns w) (file_world path t turns w) }
{}

/// The code of a method and of a block that a frame makes stands in the unit of that frame.
pub fn made_codes_stand()
    ensures method { (unit : Tables) (l : Where) (frame : Frame) (t : Tree) → StandsIn l frame → FindsBody unit.seqs unit.bodies (in_body l t) t → IsCodeAt unit (in_body l t) [] (code_of frame t) }
    ensures block { (unit : Tables) (l : Where) (frame : Frame) (t : Tree) → StandsIn l frame → frame.code.seen ≡ l.sight.seen → FindsBody unit.seqs unit.bodies (in_block l t) t → IsCodeAt unit (in_block l t) l.sight.scopes (closure_here frame t).code }
{}

/// A program is the body of the prelude, which is run with no turn, and then the load of its file,
/// which comes to the file's body as every load does. What each of the two bodies does is what it
/// means, at any number of turns. Where what the start costs, or the prelude's environment, passes the
/// cells, the store is full.
pub fn programs_load_their_file()
    ensures begins { (files : Files) (prelude : Tree) (p : Program) (w : World) → w.turns ≡ 0 → has_room (start_cells p) w ≡ true → has_room (environment_cells (length (locals_of [] prelude))) (with_cells (start_cells p) w) ≡ true → program_run files prelude p w ≡ then_do (returned (next_environment w) (evaluate files (file_body prelude) (file_frame (file_code [] None prelude) (next_environment w) (stand top_frame 0) top_frame.running top_frame.calling) (with_environment None (all_nil (locals_of [] prelude)) (with_cells (environment_cells (length (locals_of [] prelude))) (with_cells (start_cells p) w))))) (λ v. changing (with_turns p.turns) (load_ruby files (eval files p.turns) top_frame 0 p.file)) }
    ensures full { (files : Files) (prelude : Tree) (p : Program) (w : World) → has_room (start_cells p) w ≡ false → program_run files prelude p w ≡ Full w }
    ensures prelude_full { (files : Files) (prelude : Tree) (p : Program) (w : World) → has_room (start_cells p) w ≡ true → has_room (environment_cells (length (locals_of [] prelude))) (with_cells (start_cells p) w) ≡ false → program_run files prelude p w ≡ Full (with_cells (start_cells p) w) }
    ensures file { (files : Files) (n : ℕ) (path : Bytes) (t : Tree) (turns : ℕ) (w : World) → files.ruby path ≡ ruby_tree t → w.turns ≤ n → MayLoad path t turns w → load_ruby files (eval files n) top_frame 0 path w ≡ wrapped (of_method w.depth (file_environment path t turns w)) (evaluate files (loaded_code path t w).body (loaded_frame top_frame 0 path t turns w) (file_world path t turns w)) }
{}
