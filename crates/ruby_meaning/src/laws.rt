//! What holds of every run, over the definitions alone.
ghost use Rattle.std.specs.Prelude.{◌≡◌, ℕ, ◌+◌, ◌≤◌, ◌<◌, Bool, true, false, ◌||◌, List, [], ◌∷◌, map, length, Option, Some, None, is_some, slice_get};
ghost use Rattle.bs_outside.specs.SourceTree.{SourceTree, bytes_at};
ghost use Rattle.ruby_tree.specs.Names.{Bytes};
ghost use Rattle.ruby_tree.specs.Tree.{SourcePosition, Tree, at, super, bare_super, return_with, break_with, while_loop, rescue, Trees, Other};
ghost use Rattle.ruby_tree.specs.Placement.{Around, in_loop, in_block, in_clause, outside_clause, at_home, file};
ghost use Rattle.ruby_tree.specs.Placement as placement;
ghost use Rattle.ruby_meaning.specs.Value.{Value, Code, written, Class, class_or_module, Object, Objects};
ghost use Rattle.ruby_meaning.specs.NativeName.{Native};
ghost use Rattle.ruby_meaning.specs.Native.{gives};
ghost use Rattle.ruby_meaning.specs.NativeAnswer.{itself, native_answer};
ghost use Rattle.ruby_meaning.specs.Steps.{with_objects, with_object};
ghost use Rattle.ruby_meaning.specs.Invoke.{thrown};
ghost use Rattle.ruby_meaning.specs.Store.{cell_limit, each_once, line_of, superclasses, is_one_of, new_object, is_class_or_module, Place, rows_of, Found, find_in};
ghost use Rattle.ruby_meaning.specs.World.{in_class, Given, Running, Closure, World, Frame, to_loop, Outcome, Break, Spent, Run, world_of};
ghost use Rattle.ruby_meaning.specs.Locals.{params_of, locals_of};
ghost use Rattle.ruby_meaning.specs.Calls.{bound, all_nil, with_names, with_environment, next_environment, method_frame, block_frame};
ghost use Rattle.ruby_meaning.specs.Loads.{file_body, file_code, file_frame, with_feature};
ghost use Rattle.ruby_meaning.specs.Definitions.{set_local, with_constant, code_of, closure_here, with_closure, with_row, with_class_row};
ghost use Rattle.ruby_meaning.specs.ClassBodies.{class_frame};
ghost use Rattle.ruby_meaning.specs.Files.{Files};
ghost use Rattle.ruby_meaning.specs.Parts.{in_loop_of, in_sequence, handling};
ghost use Rattle.ruby_meaning.specs.Evaluation.{run, eval, evaluate, loop, rescuing};
ghost use Rattle.ruby_meaning.specs.Constructs.{ReadsAsTable, body_of};
ghost use Rattle.ruby_meaning.specs.PlainRun.{Program, IsPrelude, prelude_of_text, program_run, start_world, plain_run};
ghost use Rattle.ruby_meaning.specs.FilesOf.{DataReader, IsRubyFile, files_of};
ghost use Rattle.ruby_meaning.specs.ClassGraph.{above_in, IsGraph, StoreLeads};
ghost use Rattle.reference_laws.specs.Placed.{home_of, IsPlaced};
ghost use Rattle.ruby_meaning.specs.Stored.{IsClass, AreClasses, class_of_place, CodeStored, StoredIn, ClosureStored, IsStored, FrameFits, PlacedOut, StoredOut, StaysStored, ArePlaced, EndsAsProgram};
ghost use Rattle.ruby_meaning.specs.Housed.{source_of, CodeHoused, MadeIn, ClosureHoused, WorldHoused, HousedOut, StandsFrom, InPlace, StaysHoused, AreHoused};
ghost use Rattle.ruby_meaning.specs.RunLaws.{GainsNone, loop_turn, rescue_turn, last_of, Allowed, EndsOutside};
ghost use Rattle.ruby_meaning.specs.Laws.{names_in, Grows, IsSound, EnvironmentsStay, ClosuresStay, given, given_out, IsOver, given_program, HasEnded};
ghost use Rattle.ruby_meaning.specs.Levels.{Scopes, Sight, file_sight, body_sight, block_sight, Telling, Told, IsHoused};
ghost use Rattle.ruby_meaning.specs.InSight.{HaveNames, HasScopes, InSight};

/// What each node does, as the table of nodes reads it, at any fuel and for any meaning of bodies;
/// and an evaluation is such a run, in which bodies have one fuel less.
pub fn nodes_do_as_the_table_says()
    ensures table { (files : Files) (fuel : ℕ) (b : Tree → Frame → Run) → ReadsAsTable files fuel b }
    ensures runs { (files : Files) (fuel : ℕ) (t : Tree) (frame : Frame) → eval files fuel t frame ≡ run files fuel (body_of files fuel) t frame }
{}

/// Any fuel from the turns on gives the same, and no run gains turns.
pub fn fuel_is_enough()
    ensures same { (files : Files) (f : ℕ) (t : Tree) (frame : Frame) (w : World) → w.turns ≤ f → eval files f t frame w ≡ evaluate files t frame w }
    ensures no_gain { (files : Files) (t : Tree) (frame : Frame) (w : World) → (world_of (evaluate files t frame w)).turns ≤ w.turns }
{}

/// A run that has ended is the same with more turns, and keeps them; and a program that has ended
/// leaves the same with more turns.
pub fn more_turns_keep()
    ensures runs { (files : Files) (k : ℕ) (t : Tree) (frame : Frame) (w : World) → IsOver (evaluate files t frame w) → evaluate files t frame (given k w) ≡ given_out k (evaluate files t frame w) }
    ensures programs { (files : Files) (k : ℕ) (prelude : Tree) (p : Program) → HasEnded (plain_run files prelude p).ending → plain_run files prelude (given_program k p) ≡ plain_run files prelude p }
{}

/// The output and the error text only grow.
pub fn texts_grow()
    ensures output { (files : Files) (t : Tree) (frame : Frame) (w : World) → Grows w.output (world_of (evaluate files t frame w)).output }
    ensures error_text { (files : Files) (t : Tree) (frame : Frame) (w : World) → Grows w.error_text (world_of (evaluate files t frame w)).error_text }
{}

/// Cells only grow, and never pass the limit; nor do they in the plain run of a program, from its
/// start on.
pub fn cells_grow_within_the_limit()
    ensures grow { (files : Files) (t : Tree) (frame : Frame) (w : World) → w.cells ≤ (world_of (evaluate files t frame w)).cells }
    ensures within { (files : Files) (t : Tree) (frame : Frame) (w : World) → w.cells ≤ cell_limit → (world_of (evaluate files t frame w)).cells ≤ cell_limit }
    ensures program { (files : Files) (prelude : Tree) (p : Program) → (world_of (program_run files prelude p (start_world p))).cells ≤ cell_limit }
{}

/// A parent's number is below its child's, in each world that a run reaches from a sound one, and
/// in that in which a program ends.
pub fn parents_are_below()
    ensures reached { (files : Files) (t : Tree) (frame : Frame) (w : World) → frame.environment < length w.environments → IsSound w → IsSound (world_of (evaluate files t frame w)) }
    ensures program { (files : Files) (prelude : Tree) (p : Program) → IsSound (world_of (program_run files prelude p (start_world p))) }
{}

/// The evaluation is a fixed point: what it gives is one step of `run` whose bodies are the
/// evaluation itself, at any fuel from the turns on. Such a step gains no turns.
pub fn evaluation_is_fixed()
    ensures same { (files : Files) (fuel : ℕ) (t : Tree) (frame : Frame) (w : World) → w.turns ≤ fuel → run files fuel (evaluate files) t frame w ≡ evaluate files t frame w }
    ensures no_gain { (files : Files) (fuel : ℕ) (t : Tree) (frame : Frame) → GainsNone fuel (run files fuel (evaluate files) t frame) }
{}

/// With no less fuel than turns, a loop is one turn of it and then the loop again at the same
/// fuel, and a rescue whose clause ends in a retry is the rescue again. Where they are evaluated,
/// what comes again is the same node, and no fuel is spoken of.
pub fn loops_unfold()
    ensures loops { (fuel : ℕ) (until_true : Bool) (test inner : Run) → GainsNone fuel test → GainsNone fuel inner → (w : World) → w.turns ≤ fuel → loop fuel until_true test inner w ≡ loop_turn until_true test inner (loop fuel until_true test inner) w }
    ensures rescues { (fuel : ℕ) (inner : Run) (clauses last : Value → Run) → GainsNone fuel inner → ((v : Value) → GainsNone fuel (clauses v)) → (w : World) → w.turns ≤ fuel → rescuing fuel inner clauses last w ≡ rescue_turn inner clauses last (rescuing fuel inner clauses last) w }
    ensures loop_nodes { (files : Files) (s : SourcePosition) (frame : Frame) (a c : Tree) (u : Bool) (w : World) → evaluate files (at s (while_loop a c u false)) frame w ≡ loop_turn u (evaluate files c frame) (evaluate files a (in_loop_of frame)) (evaluate files (at s (while_loop a c u false)) frame) w }
    ensures rescue_nodes { (files : Files) (s : SourcePosition) (frame : Frame) (a : Tree) (o : Other) (c : Tree) (w : World) → evaluate files (at s (rescue a o c)) frame w ≡ rescue_turn (evaluate files a frame) (λ v. evaluate files c (handling frame v)) (last_of files o frame) (evaluate files (at s (rescue a o c)) frame) w }
{}

/// Whatever its outcome, a run leaves the depth and the files that are loading as they were; the
/// closures that stand stay, and the environments that stand keep their parents and the names of
/// their locals. A program ends at depth 0, and no file is loading.
pub fn what_stands_stays()
    ensures depth { (files : Files) (t : Tree) (frame : Frame) (w : World) → (world_of (evaluate files t frame w)).depth ≡ w.depth }
    ensures loading { (files : Files) (t : Tree) (frame : Frame) (w : World) → (world_of (evaluate files t frame w)).loading ≡ w.loading }
    ensures closures { (files : Files) (t : Tree) (frame : Frame) (w : World) → ClosuresStay w.closures (world_of (evaluate files t frame w)).closures }
    ensures environments { (files : Files) (t : Tree) (frame : Frame) (w : World) → EnvironmentsStay w.environments (world_of (evaluate files t frame w)).environments }
    ensures program_depth { (files : Files) (prelude : Tree) (p : Program) → (world_of (program_run files prelude p (start_world p))).depth ≡ 0 }
    ensures program_loading { (files : Files) (prelude : Tree) (p : Program) → (world_of (program_run files prelude p (start_world p))).loading ≡ [] }
{}

/// The environments outward of a frame keep their names where environments stay, so through each
/// evaluation; and one that is opened has its own before those of its parent.
pub fn scopes_are_kept()
    ensures stay { (scopes : Scopes) (frame : Frame) (w z : World) → HasScopes scopes frame w → EnvironmentsStay w.environments z.environments → HasScopes scopes frame z }
    ensures opened { (scopes : Scopes) (parent : Option ℕ) (locals : List (Bytes × Value)) (frame : Frame) (w : World) → frame.environment ≡ next_environment w → HaveNames (length w.environments) scopes w.environments parent → HasScopes (names_in locals ∷ scopes) frame (with_environment parent locals w) }
{}

/// A run ends as its frame lets it: a return leaves a method or file that is running, a break a
/// loop around it or a call that is being evaluated, and it is spent only with no turn left. A
/// program ends with no return and no break.
pub fn runs_end_as_they_may()
    ensures allowed { (files : Files) (t : Tree) (frame : Frame) (w : World) → Allowed frame (evaluate files t frame w) }
    ensures spent { (files : Files) (t : Tree) (frame : Frame) (w z : World) → evaluate files t frame w ≡ Spent z → z.turns ≡ 0 }
    ensures program { (files : Files) (prelude : Tree) (p : Program) → EndsOutside (program_run files prelude p (start_world p)) }
{}

/// A `next` comes only out of a loop's body or a block, and a `retry` only out of a rescue clause:
/// so the placement of its tree lets them. What the files of a source tree and the prelude are read
/// as is placed, so a plain run ends with a value, an exception, no turn left or a full store. And
/// a break that leaves a loop comes only from where a loop or a block stands around.
pub fn outcomes_are_placed()
    // One step, whatever its bodies do where a tree is not placed or a frame does not fit.
    ensures step { (files : Files) → ArePlaced files → (fuel : ℕ) (b : Tree → Frame → Run) → StaysStored b → StaysStored (run files fuel b) }
    ensures stays { (files : Files) → ArePlaced files → StaysStored (evaluate files) }
    ensures break_in_loop { (files : Files) (c : Around) (t : Tree) (frame : Frame) (w z : World) (v : Value) → FrameFits c frame w.objects → evaluate files t frame w ≡ Break to_loop v z → c.loop ≡ true }
    ensures evaluated { (files : Files) → ArePlaced files → (c : Around) (t : Tree) (frame : Frame) (w : World) → IsPlaced c t → FrameFits c frame w.objects → IsStored w → PlacedOut c (evaluate files t frame w) }
    ensures program { (files : Files) (prelude : Tree) (p : Program) → ArePlaced files → IsPlaced (at_home file) prelude → EndsAsProgram (program_run files prelude p (start_world p)) }
    ensures read { (source : SourceTree) (files : Files) → ((path : Bytes) → IsRubyFile (bytes_at source path) (files.ruby path)) → ArePlaced files }
    ensures prelude { (t : Tree) → IsPrelude t → IsPlaced (at_home file) t }
    ensures plain { (reader : DataReader) (source : SourceTree) (p : Program) → EndsAsProgram (program_run (files_of reader source) prelude_of_text p (start_world p)) }
{}

/// In a frame that fits, a placed `super` has a method that runs, a placed `return` a method or a
/// file to leave, and a placed `break` a loop or a block. So what stands for these elsewhere is
/// reached from no frame that fits.
pub fn odd_endings_are_not_reached()
    ensures super_in_a_method { (c : Around) (frame : Frame) (store : Objects) (o : SourcePosition) → FrameFits c frame store → (ts : Trees) (ks : List ℕ) (v b : Other) → IsPlaced c (at o (super ts ks v b)) → is_some frame.method ≡ true }
    ensures bare_super_in_a_method { (c : Around) (frame : Frame) (store : Objects) (o : SourcePosition) → FrameFits c frame store → (b : Other) → IsPlaced c (at o (bare_super b)) → is_some frame.method ≡ true }
    ensures return_in_no_class { (c : Around) (frame : Frame) (store : Objects) (o : SourcePosition) → FrameFits c frame store → (ts : Trees) → IsPlaced c (at o (return_with ts)) → frame.home ≡ in_class → ⊥ }
    ensures break_in_a_loop_or_block { (c : Around) (frame : Frame) (store : Objects) (o : SourcePosition) → FrameFits c frame store → (ts : Trees) → IsPlaced c (at o (break_with ts)) → (frame.in_loop || is_some frame.in_block) ≡ true }
{}

/// The classes are a graph without a way back in the world of the start and in each that a run of
/// placed trees reaches, so in that in which a plain run ends: what a class includes, its superclass
/// and the class bodies around each method and block are classes. As many steps as the store has
/// objects are enough for each way upward, and a search over each ancestor once finds what one over
/// the whole way does.
pub fn classes_have_no_cycle()
    ensures start { (p : Program) → IsStored (start_world p) }
    ensures reached { (files : Files) → ArePlaced files → (c : Around) (t : Tree) (frame : Frame) (w : World) → IsPlaced c t → FrameFits c frame w.objects → IsStored w → IsStored (world_of (evaluate files t frame w)) }
    ensures program { (files : Files) (prelude : Tree) (p : Program) → ArePlaced files → IsPlaced (at_home file) prelude → IsStored (world_of (program_run files prelude p (start_world p))) }
    ensures plain { (reader : DataReader) (source : SourceTree) (p : Program) → IsStored (world_of (program_run (files_of reader source) prelude_of_text p (start_world p))) }
    ensures steps { (store : Objects) → IsGraph store → (k c : ℕ) → 0 < length store → length store ≤ k → line_of k store c ≡ line_of (length store) store c }
    ensures superclass_steps { (store : Objects) → IsGraph store → (k c : ℕ) → 0 < length store → length store ≤ k → superclasses k store c ≡ superclasses (length store) store c }
    ensures searched_once { (store : Objects) (x : Bytes) (numbers : List ℕ) → find_in store x (map rows_of (each_once numbers)) ≡ find_in store x (map rows_of numbers) }
{}

/// Each tree that is evaluated is in place: placed and housed, in a frame that fits and is in its
/// sight, which runs the body in sight in environments that have the names in sight. So it is in
/// each world that a run of such trees reaches, and at the end of a program whose files are placed
/// and housed; and what follows a run in its frame is in place as it was.
pub fn frames_are_in_sight()
    // One step, whatever its bodies do where a tree is not in place.
    ensures step { (told : Telling) (files : Files) → ArePlaced files → AreHoused told files → (fuel : ℕ) (b : Tree → Frame → Run) → StaysHoused told b → StaysHoused told (run files fuel b) }
    ensures stays { (told : Telling) (files : Files) → ArePlaced files → AreHoused told files → StaysHoused told (evaluate files) }
    ensures follows { (told : Telling) (c : Around) (s : Sight) (t : Tree) (frame : Frame) (w : World) → InPlace told c s t frame w → (z : World) → StoreLeads w.objects z.objects → EnvironmentsStay w.environments z.environments → IsStored z → WorldHoused told z → InPlace told c s t frame z }
    ensures start { (told : Telling) (p : Program) → WorldHoused told (start_world p) }
    ensures program { (told : Telling) (files : Files) → ArePlaced files → AreHoused told files → (prelude : Tree) → IsPlaced (at_home file) prelude → IsHoused (told (source_of [] None prelude)) (file_sight prelude) prelude → (p : Program) → WorldHoused told (world_of (program_run files prelude p (start_world p))) }
{}

/// The frames that a run makes are in place where they begin: that of a method's code, of a block,
/// of a class body and of a file, each in the world in which its environment was opened, whatever
/// its arguments. The code of a method that is found stands, and so does a block by its number; and
/// so do the code and the block that a frame in place makes.
pub fn made_frames_are_in_place()
    ensures method { (told : Telling) (frame : Frame) (line : ℕ) (code : Code) (self : Value) (x : Running) (given : Given) (vs : List Value) (n k : ℕ) (r b : Value) (w : World) → IsStored w → WorldHoused told w → CodeStored w.objects code → CodeHoused told code → IsClass w.objects (class_of_place x.place) → InPlace told (at_home (home_of code.body)) (body_sight code.body) code.body (method_frame frame line code self (next_environment w) x given n) (with_environment None (with_names (bound (params_of code.body) vs k r b) (all_nil code.locals)) w) }
    ensures block { (told : Telling) (frame : Frame) (line : ℕ) (d : Closure) (i : ℕ) (c : Around) (s : Sight) (vs : List Value) (k : ℕ) (r b : Value) (w : World) → IsStored w → WorldHoused told w → StoredIn c w.objects d → MadeIn told s w.environments d → InPlace told (in_block c) (block_sight s d.code.body) d.code.body (block_frame frame line d i (next_environment w)) (with_environment (Some d.environment) (with_names (bound (params_of d.code.body) vs k r b) (all_nil d.code.locals)) w) }
    ensures class { (told : Telling) (frame : Frame) (line : ℕ) (t : Tree) (c : ℕ) (w : World) → IsStored w → WorldHoused told w → IsClass w.objects c → AreClasses w.objects frame.code.classes → IsPlaced (at_home placement.in_class) t → IsHoused (told frame.code.source) (body_sight t) t → InPlace told (at_home placement.in_class) (body_sight t) t (class_frame frame line t c (next_environment w)) (with_environment None (all_nil (locals_of [] t)) w) }
    ensures file { (told : Telling) (path : Bytes) (load : Option ℕ) (t : Tree) (outside : Option (Bytes × ℕ)) (running calling : List ℕ) (w : World) → IsStored w → WorldHoused told w → IsPlaced (at_home file) t → IsHoused (told (source_of path load t)) (file_sight t) t → InPlace told (at_home file) (file_sight t) (file_body t) (file_frame (file_code path load t) (next_environment w) outside running calling) (with_environment None (all_nil (locals_of [] t)) w) }
    ensures found { (told : Telling) (w : World) → IsStored w → WorldHoused told w → (x : Bytes) (ps : List Place) (f : Found) (code : Code) → find_in w.objects x ps ≡ Some f → f.body ≡ written code → CodeStored w.objects code × CodeHoused told code × IsClass w.objects (class_of_place f.place) }
    ensures closure { (told : Telling) (w : World) → IsStored w → WorldHoused told w → (i : ℕ) (d : Closure) → slice_get w.closures i ≡ Some d → ClosureStored w.objects d × ClosureHoused told w.environments d }
    ensures code_made { (told : Telling) (c : Around) (frame : Frame) (w : World) (t : Tree) → FrameFits c frame w.objects → IsPlaced (at_home (home_of t)) t → IsHoused (told frame.code.source) (body_sight t) t → Told (told frame.code.source) (body_sight t) t → CodeStored w.objects (code_of frame t) × CodeHoused told (code_of frame t) }
    ensures block_made { (told : Telling) (c : Around) (s : Sight) (frame : Frame) (w : World) (t : Tree) → FrameFits c frame w.objects → InSight s frame w → IsPlaced (in_block c) t → IsHoused (told frame.code.source) (block_sight s t) t → Told (told frame.code.source) (block_sight s t) t → StoredIn c w.objects (closure_here frame t) × MadeIn told s w.environments (closure_here frame t) }
    // What stands stays where the store leads on and the environments stay.
    ensures code_stays { (code : Code) (w z : World) → StoreLeads w.objects z.objects → CodeStored w.objects code → CodeStored z.objects code }
    ensures block_stays { (told : Telling) (c : Around) (s : Sight) (d : Closure) (w z : World) → StoreLeads w.objects z.objects → EnvironmentsStay w.environments z.environments → StoredIn c w.objects d → MadeIn told s w.environments d → StoredIn c z.objects d × MadeIn told s z.environments d }
{}

/// So are the frames of parts: of the body of a loop, of a rescue's clauses, of what a rescue or
/// ensure part runs, and of a call that is given a literal block.
pub fn part_frames_are_in_place()
    ensures part { (told : Telling) (c : Around) (s : Sight) (t : Tree) (frame : Frame) (w : World) → InPlace told c s t frame w → (u : Tree) → IsPlaced c u → IsHoused (told frame.code.source) s u → InPlace told c s u frame w }
    ensures loop_body { (told : Telling) (c : Around) (s : Sight) (t : Tree) (frame : Frame) (w : World) → InPlace told c s t frame w → (u : Tree) → IsPlaced (in_loop c) u → IsHoused (told frame.code.source) s u → InPlace told (in_loop c) s u (in_loop_of frame) w }
    ensures clauses { (told : Telling) (c : Around) (s : Sight) (t : Tree) (frame : Frame) (w : World) → InPlace told c s t frame w → (u : Tree) (v : Value) → IsPlaced (in_clause c) u → IsHoused (told frame.code.source) s u → InPlace told (in_clause c) s u (handling frame v) w }
    ensures rescue_part { (told : Telling) (c : Around) (s : Sight) (t : Tree) (frame : Frame) (w : World) → InPlace told c s t frame w → (u : Tree) (n : ℕ) → IsPlaced c u → IsHoused (told frame.code.source) s u → InPlace told c s u (in_sequence n frame) w }
    ensures ensure_part { (told : Telling) (c : Around) (s : Sight) (t : Tree) (frame : Frame) (w : World) → InPlace told c s t frame w → (u : Tree) (n : ℕ) → IsPlaced (outside_clause c) u → IsHoused (told frame.code.source) s u → InPlace told (outside_clause c) s u (in_sequence n frame) w }
    ensures calling { (told : Telling) (c : Around) (s : Sight) (t : Tree) (frame : Frame) (w : World) → InPlace told c s t frame w → (ks : List ℕ) → InPlace told c s t (record frame { calling = ks }) w }
{}

/// Each change of a world that a run makes keeps what stands in it: other turns, cells, depth,
/// texts, globals and steps of the trace; an object that is no class, and a class without rows; an
/// environment that is opened; a local that is set; a block, a method and a constant that a frame
/// in place makes; and what natives, loads and raises do to the store. So does each run of a tree
/// that is in place, and what is in place stays so.
pub fn changes_keep_what_stands()
    ensures same { (told : Telling) (w : World) → IsStored w → WorldHoused told w → (z : World) → z.objects ≡ w.objects → z.environments ≡ w.environments → z.closures ≡ w.closures → StandsFrom told w z }
    ensures on { (told : Telling) (w y z : World) → StandsFrom told w y → StandsFrom told y z → StandsFrom told w z }
    ensures object { (told : Telling) (w : World) → IsStored w → WorldHoused told w → (o : Object) → is_class_or_module o.kind ≡ false → StandsFrom told w (with_object o w) }
    ensures class { (told : Telling) (w : World) → IsStored w → WorldHoused told w → (c : Class) → c.methods ≡ [] → c.class_methods ≡ [] → ((p : ℕ) → is_one_of p (above_in (class_or_module c)) ≡ true → IsClass w.objects p) → StandsFrom told w (with_object (new_object (class_or_module c)) w) }
    ensures environment { (told : Telling) (w : World) → IsStored w → WorldHoused told w → (parent : Option ℕ) (locals : List (Bytes × Value)) → StandsFrom told w (with_environment parent locals w) }
    ensures local { (told : Telling) (w : World) → IsStored w → WorldHoused told w → (frame : Frame) (x : Bytes) (v : Value) → StandsFrom told w (set_local frame x v w) }
    ensures closure { (told : Telling) (w : World) → IsStored w → WorldHoused told w → (c : Around) (s : Sight) (d : Closure) → StoredIn c w.objects d → MadeIn told s w.environments d → StandsFrom told w (with_closure d w) }
    ensures row { (told : Telling) (w : World) → IsStored w → WorldHoused told w → (n : ℕ) (x : Bytes) (code : Code) → IsClass w.objects n → CodeStored w.objects code → CodeHoused told code → StandsFrom told w (with_row n (record { name = x; body = written code }) w) }
    ensures class_row { (told : Telling) (w : World) → IsStored w → WorldHoused told w → (n : ℕ) (x : Bytes) (code : Code) → IsClass w.objects n → CodeStored w.objects code → CodeHoused told code → StandsFrom told w (with_class_row n (record { name = x; body = written code }) w) }
    ensures constant { (told : Telling) (w : World) → IsStored w → WorldHoused told w → (n : ℕ) (x : Bytes) (v : Value) → IsClass w.objects n → StandsFrom told w (with_constant n x v w) }
    ensures feature { (told : Telling) (w : World) → IsStored w → WorldHoused told w → (n : ℕ) → StandsFrom told w (with_feature n w) }
    ensures thrown { (told : Telling) (w : World) → IsStored w → WorldHoused told w → (p : Option (Bytes × ℕ)) (v : Value) → StandsFrom told w (thrown p v w) }
    ensures native { (told : Telling) (w : World) → IsStored w → WorldHoused told w → (n : Native) (self : Value) (vs : List Value) (cells : ℕ) (store : Objects) (v : Value) → native_answer n w.objects self vs ≡ itself (gives cells store v) → StandsFrom told w (with_objects store w) }
    ensures run { (told : Telling) (c : Around) (w : World) (o : Outcome) → StoredOut c w o → HousedOut told w o → StandsFrom told w (world_of o) }
    ensures in_place { (told : Telling) (c : Around) (s : Sight) (t : Tree) (frame : Frame) (w z : World) → InPlace told c s t frame w → StandsFrom told w z → InPlace told c s t frame z }
{}
