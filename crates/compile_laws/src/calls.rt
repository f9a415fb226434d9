//! How a call becomes a frame: what each call comes to, whatever bodies do. It is a body with the
//! frame and the world in which it begins, or an outcome without one.
ghost use Rattle.std.specs.Prelude.{◌≡◌, ◌≤◌, ℕ, suc, pred, ◌+◌, Bool, true, false, List, [], ◌∷◌, ◌++◌, length, get_or, Option, Some, None, is_some, slice_get, codes};
ghost use Rattle.ruby_tree.specs.Names.{Bytes};
ghost use Rattle.ruby_tree.specs.Tree.{Tree};
ghost use Rattle.iseq_types.specs.declared.instructions.Instr.TheVariants.{ObjToString, Send, InvokeSuper, InvokeBlock, DefineClass};
ghost use Rattle.ruby_meaning.specs.NativeName.{Control, control, control_call, Native};
ghost use Rattle.ruby_meaning.specs.Value.{Value, nil, no, Code, MethodBody, written, native, reader, writer};
ghost use Rattle.ruby_meaning.specs.Native.{Answer};
ghost use Rattle.ruby_meaning.specs.NativeAnswer.{itself, native_answer};
ghost use Rattle.ruby_meaning.specs.Numbers.{object_class, closed_classes, argument_error, type_error, local_jump_error, load_error, syntax_error, system_stack_error};
ghost use Rattle.ruby_meaning.specs.Store.{class_cells, name_cells, environment_cells, is_one_of, next_number, class_at, class_name, name_of_class_of, Place, Found, find_method};
ghost use Rattle.ruby_meaning.specs.Natives.{control_count};
ghost use Rattle.ruby_meaning.specs.Natives.Messages.{no_conversion};
ghost use Rattle.ruby_meaning.specs.Natives.Reading.{called};
ghost use Rattle.ruby_meaning.specs.Locals.{params_of, locals_of};
ghost use Rattle.ruby_meaning.specs.Constants.{own_constant, innermost};
ghost use Rattle.ruby_meaning.specs.World.{Given, no_block, Running, Closure, Ask, World, Frame, Done, Spent, Full, Run, ruby_file, loaded, text_of, path_of, loaded_of};
ghost use Rattle.ruby_meaning.specs.Steps.{raise_new, at_depth, ended, reading};
ghost use Rattle.ruby_meaning.specs.Calls.{answered, counted, variable_of, set_variable, with_step, count_of_params, has_block_param, optional_given, fits, wrong_count, spread, no_method};
ghost use Rattle.ruby_meaning.specs.Files.{Files, no_ruby, ruby_fault, ruby_tree};
ghost use Rattle.ruby_meaning.specs.Blocks.{run_method, run_block, run_given};
ghost use Rattle.ruby_meaning.specs.Search.{provided, found_at, missing, missing_name, resolve};
ghost use Rattle.ruby_meaning.specs.Loads.{cannot_load, fault_at, file_code, load_ruby, after_load, ask_for};
ghost use Rattle.ruby_meaning.specs.Invoke.{first_of, closure_of, run_found, run_if_found, call_method};
ghost use Rattle.ruby_meaning.specs.ClassBodies.{class_alone, module_alone, same_class, refused, no_superclass, not_a, open_class, class_named, class_below, module_of_name};
ghost use Rattle.ruby_meaning.specs.Parts.{given_of, super_found, wrong_block};
ghost use Rattle.ruby_meaning.specs.Levels.{Scopes};
ghost use Rattle.ruby_meaning.specs.PlainRun.{Program, nowhere, top_frame, start_world, with_turns};
ghost use Rattle.code_meaning.specs.Code.{at_line, Routine};
ghost use Rattle.code_meaning.specs.Machine.{is_valued, is_bare, step};
ghost use Rattle.code_meaning.specs.Frames.{after_file, Tables};
ghost use Rattle.compile_table.specs.Shapes.{Where};
ghost use Rattle.compile_table.specs.Sequences.{body_sequence};
ghost use Rattle.compile_laws.specs.Finds.{start_of};
ghost use Rattle.compile_laws.specs.Begins.{IsCodeAt};
ghost use Rattle.compile_laws.specs.Calling.{Comes, at_once, ComesTo, IsFresh, has_depth, has_room, one_deeper, IsFullFor, entering, takes, at_method, MayRunMethod, method_entered, at_block, taken, MayRunBlock, block_entered, at_class, MayOpen, class_entered, class_made, at_file, MayLoad, file_entered, asked_entered, searched, now_loading, asking, given_by, closure_given, calling_frame, calling_given, calling_world, pushed, with_block_value, StepCalls, StepComes};

/// A call of a method that is written in Ruby comes to its body where its tests pass: as many
/// arguments as it takes, a turn, the depth, and the cells of its rest parameter, its environment
/// and its block parameter. Where one fails, the call is an outcome.
pub fn methods_are_entered()
    ensures enters { (frame : Frame) (line : ℕ) (code : Code) (self : Value) (x : Bytes) (place : Place) (vs : List Value) (given : Given) (turns : ℕ) (w : World) → MayRunMethod code vs given turns w → ComesTo (λ b. run_method b frame line code self x place vs given w) (method_entered frame line code self x place vs given turns w) }
    ensures miscounted { (frame : Frame) (line : ℕ) (code : Code) (self : Value) (x : Bytes) (place : Place) (vs : List Value) (given : Given) (w : World) → takes code vs ≡ false → ComesTo (λ b. run_method b frame line code self x place vs given w) (at_once (raise_new frame line argument_error (wrong_count (length vs) (count_of_params (params_of code.body))) (entering code w))) }
    ensures spent { (frame : Frame) (line : ℕ) (code : Code) (self : Value) (x : Bytes) (place : Place) (vs : List Value) (given : Given) (w : World) → takes code vs ≡ true → (entering code w).turns ≡ 0 → ComesTo (λ b. run_method b frame line code self x place vs given w) (at_once (Spent (entering code w))) }
    ensures too_deep { (frame : Frame) (line : ℕ) (code : Code) (self : Value) (x : Bytes) (place : Place) (vs : List Value) (given : Given) (turns : ℕ) (w : World) → takes code vs ≡ true → (entering code w).turns ≡ suc turns → has_depth (entering code w) ≡ false → ComesTo (λ b. run_method b frame line code self x place vs given w) (at_once (raise_new frame line system_stack_error (codes "stack level too deep") (with_turns turns (entering code w)))) }
    ensures full { (frame : Frame) (line : ℕ) (code : Code) (self : Value) (x : Bytes) (place : Place) (vs : List Value) (given : Given) (turns : ℕ) (w z : World) → takes code vs ≡ true → (entering code w).turns ≡ suc turns → has_depth (entering code w) ≡ true → IsFullFor code vs given (at_method code turns w) z → ComesTo (λ b. run_method b frame line code self x place vs given w) (at_once (Full (at_depth (entering code w).depth z))) }
{}

/// A call of a block, by its closure, comes to its body where its tests pass: a turn, the depth, and
/// the cells. It takes what a block takes of the arguments, and miscounts none.
pub fn blocks_are_entered()
    ensures enters { (frame : Frame) (line k : ℕ) (vs : List Value) (c : Closure) (turns : ℕ) (w : World) → slice_get w.closures k ≡ Some c → MayRunBlock c.code vs turns w → ComesTo (λ b. run_block b frame line k vs w) (block_entered frame line k vs c turns w) }
    ensures missing { (frame : Frame) (line k : ℕ) (vs : List Value) (w : World) → slice_get w.closures k ≡ None → ComesTo (λ b. run_block b frame line k vs w) (at_once (raise_new frame line local_jump_error (codes "no block given (yield)") w)) }
    ensures spent { (frame : Frame) (line k : ℕ) (vs : List Value) (c : Closure) (w : World) → slice_get w.closures k ≡ Some c → w.turns ≡ 0 → ComesTo (λ b. run_block b frame line k vs w) (at_once (Spent w)) }
    ensures too_deep { (frame : Frame) (line k : ℕ) (vs : List Value) (c : Closure) (turns : ℕ) (w : World) → slice_get w.closures k ≡ Some c → w.turns ≡ suc turns → has_depth w ≡ false → ComesTo (λ b. run_block b frame line k vs w) (at_once (raise_new frame line system_stack_error (codes "stack level too deep") (with_turns turns w))) }
    ensures full { (frame : Frame) (line k : ℕ) (vs : List Value) (c : Closure) (turns : ℕ) (w z : World) → slice_get w.closures k ≡ Some c → w.turns ≡ suc turns → has_depth w ≡ true → IsFullFor c.code (taken c.code vs (at_block c.code turns w)) no_block (at_block c.code turns w) z → ComesTo (λ b. run_block b frame line k vs w) (at_once (Full (at_depth w.depth z))) }
    ensures given { (frame : Frame) (line k : ℕ) (given : Given) (vs : List Value) (w : World) (c : Comes) → closure_given given ≡ Some k → ComesTo (λ b. run_block b frame line k vs w) c → ComesTo (λ b. run_given b frame line given vs w) c }
    ensures none_given { (frame : Frame) (line : ℕ) (vs : List Value) (w : World) → ComesTo (λ b. run_given b frame line no_block vs w) (at_once (raise_new frame line local_jump_error (codes "no block given (yield)") w)) }
{}

/// The body of a class or a module that is opened is entered where the depth and the cells are
/// there. It costs no turn.
pub fn class_bodies_are_entered()
    ensures enters { (frame : Frame) (line : ℕ) (t : Tree) (c : ℕ) (w : World) → MayOpen frame t w → ComesTo (λ b. open_class frame line t (b t) c w) (class_entered frame line t c w) }
    ensures too_deep { (frame : Frame) (line : ℕ) (t : Tree) (c : ℕ) (w : World) → has_depth w ≡ false → ComesTo (λ b. open_class frame line t (b t) c w) (at_once (raise_new frame line system_stack_error (codes "stack level too deep") w)) }
    ensures full { (frame : Frame) (line : ℕ) (t : Tree) (c : ℕ) (w : World) → has_depth w ≡ true → has_room (environment_cells (length (locals_of [] t))) (at_class frame t w) ≡ false → ComesTo (λ b. open_class frame line t (b t) c w) (at_once (Full (at_depth w.depth (at_class frame t w)))) }
{}

/// What `class` and `module` open: what the constant holds, or what is made where it holds nothing;
/// and where they are refused.
pub fn classes_are_opened_or_made()
    ensures named_found { (frame : Frame) (line : ℕ) (x : Bytes) (w : World) (go : ℕ → Run) (v : Value) (c : ℕ) → own_constant w.objects (innermost frame.code.classes) x ≡ Some v → class_alone w.objects v ≡ Some c → class_named frame line x go w ≡ go c w }
    ensures named_refused { (frame : Frame) (line : ℕ) (x : Bytes) (w : World) (go : ℕ → Run) (v : Value) → own_constant w.objects (innermost frame.code.classes) x ≡ Some v → class_alone w.objects v ≡ None → class_named frame line x go w ≡ refused frame line (not_a x (codes "class")) w }
    ensures named_made { (frame : Frame) (line : ℕ) (x : Bytes) (w : World) (go : ℕ → Run) → own_constant w.objects (innermost frame.code.classes) x ≡ None → has_room (class_cells + name_cells) w ≡ true → class_named frame line x go w ≡ go (next_number w.objects) (class_made frame x false (Some object_class) w) }
    ensures named_full { (frame : Frame) (line : ℕ) (x : Bytes) (w : World) (go : ℕ → Run) → own_constant w.objects (innermost frame.code.classes) x ≡ None → has_room (class_cells + name_cells) w ≡ false → class_named frame line x go w ≡ Full w }
    ensures module_found { (frame : Frame) (line : ℕ) (x : Bytes) (w : World) (go : ℕ → Run) (v : Value) (c : ℕ) → own_constant w.objects (innermost frame.code.classes) x ≡ Some v → module_alone w.objects v ≡ Some c → module_of_name frame line x go w ≡ go c w }
    ensures module_refused { (frame : Frame) (line : ℕ) (x : Bytes) (w : World) (go : ℕ → Run) (v : Value) → own_constant w.objects (innermost frame.code.classes) x ≡ Some v → module_alone w.objects v ≡ None → module_of_name frame line x go w ≡ refused frame line (not_a x (codes "module")) w }
    ensures module_made { (frame : Frame) (line : ℕ) (x : Bytes) (w : World) (go : ℕ → Run) → own_constant w.objects (innermost frame.code.classes) x ≡ None → has_room (class_cells + name_cells) w ≡ true → module_of_name frame line x go w ≡ go (next_number w.objects) (class_made frame x true None w) }
    ensures module_full { (frame : Frame) (line : ℕ) (x : Bytes) (w : World) (go : ℕ → Run) → own_constant w.objects (innermost frame.code.classes) x ≡ None → has_room (class_cells + name_cells) w ≡ false → module_of_name frame line x go w ≡ Full w }
    ensures below_none { (frame : Frame) (line : ℕ) (x : Bytes) (w : World) (go : ℕ → Run) (u : Value) → class_alone w.objects u ≡ None → class_below frame line x u go w ≡ no_superclass frame line w }
    ensures below_made { (frame : Frame) (line : ℕ) (x : Bytes) (w : World) (go : ℕ → Run) (u : Value) (base : ℕ) → class_alone w.objects u ≡ Some base → own_constant w.objects (innermost frame.code.classes) x ≡ None → is_one_of base closed_classes ≡ false → has_room (class_cells + name_cells) w ≡ true → class_below frame line x u go w ≡ go (next_number w.objects) (class_made frame x false (Some base) w) }
    ensures below_full { (frame : Frame) (line : ℕ) (x : Bytes) (w : World) (go : ℕ → Run) (u : Value) (base : ℕ) → class_alone w.objects u ≡ Some base → own_constant w.objects (innermost frame.code.classes) x ≡ None → is_one_of base closed_classes ≡ false → has_room (class_cells + name_cells) w ≡ false → class_below frame line x u go w ≡ Full w }
    ensures below_closed { (frame : Frame) (line : ℕ) (x : Bytes) (w : World) (go : ℕ → Run) (u : Value) (base : ℕ) → class_alone w.objects u ≡ Some base → own_constant w.objects (innermost frame.code.classes) x ≡ None → is_one_of base closed_classes ≡ true → class_below frame line x u go w ≡ refused frame line (codes "can't inherit from " ++ class_name w.objects base) w }
    ensures below_found { (frame : Frame) (line : ℕ) (x : Bytes) (w : World) (go : ℕ → Run) (u : Value) (base : ℕ) (v : Value) (c : ℕ) → class_alone w.objects u ≡ Some base → own_constant w.objects (innermost frame.code.classes) x ≡ Some v → class_alone w.objects v ≡ Some c → same_class (class_at w.objects c).superclass base ≡ true → class_below frame line x u go w ≡ go c w }
    ensures below_mismatch { (frame : Frame) (line : ℕ) (x : Bytes) (w : World) (go : ℕ → Run) (u : Value) (base : ℕ) (v : Value) (c : ℕ) → class_alone w.objects u ≡ Some base → own_constant w.objects (innermost frame.code.classes) x ≡ Some v → class_alone w.objects v ≡ Some c → same_class (class_at w.objects c).superclass base ≡ false → class_below frame line x u go w ≡ refused frame line (codes "superclass mismatch for class " ++ x) w }
    ensures below_refused { (frame : Frame) (line : ℕ) (x : Bytes) (w : World) (go : ℕ → Run) (u : Value) (base : ℕ) (v : Value) → class_alone w.objects u ≡ Some base → own_constant w.objects (innermost frame.code.classes) x ≡ Some v → class_alone w.objects v ≡ None → class_below frame line x u go w ≡ refused frame line (not_a x (codes "class")) w }
{}

/// A file that is loaded comes to its body where its tests pass: a turn, the depth, its text is read
/// as a tree, and the cells. It costs a turn before it is known whether there is such a file.
pub fn files_are_entered()
    ensures enters { (files : Files) (frame : Frame) (line : ℕ) (path : Bytes) (t : Tree) (turns : ℕ) (w : World) → files.ruby path ≡ ruby_tree t → MayLoad path t turns w → ComesTo (λ b. load_ruby files b frame line path w) (file_entered frame line path t turns w) }
    ensures spent { (files : Files) (frame : Frame) (line : ℕ) (path : Bytes) (w : World) → w.turns ≡ 0 → ComesTo (λ b. load_ruby files b frame line path w) (at_once (Spent w)) }
    ensures too_deep { (files : Files) (frame : Frame) (line : ℕ) (path : Bytes) (turns : ℕ) (w : World) → w.turns ≡ suc turns → has_depth w ≡ false → ComesTo (λ b. load_ruby files b frame line path w) (at_once (raise_new frame line system_stack_error (codes "stack level too deep") (with_turns turns w))) }
    ensures lost { (files : Files) (frame : Frame) (line : ℕ) (path : Bytes) (turns : ℕ) (w : World) → w.turns ≡ suc turns → has_depth w ≡ true → files.ruby path ≡ no_ruby → ComesTo (λ b. load_ruby files b frame line path w) (at_once (ended (at_depth w.depth) (raise_new frame line load_error (cannot_load path) (with_step (loaded ruby_file path) (one_deeper (with_turns turns w)))))) }
    ensures at_fault { (files : Files) (frame : Frame) (line : ℕ) (path : Bytes) (n turns : ℕ) (w : World) → w.turns ≡ suc turns → has_depth w ≡ true → files.ruby path ≡ ruby_fault n → ComesTo (λ b. load_ruby files b frame line path w) (at_once (ended (at_depth w.depth) (raise_new frame line syntax_error (fault_at path n (codes "syntax error")) (with_step (loaded ruby_file path) (one_deeper (with_turns turns w)))))) }
    ensures full { (files : Files) (frame : Frame) (line : ℕ) (path : Bytes) (t : Tree) (turns : ℕ) (w : World) → w.turns ≡ suc turns → has_depth w ≡ true → files.ruby path ≡ ruby_tree t → has_room (environment_cells (length (locals_of [] t))) (at_file path turns w) ≡ false → ComesTo (λ b. load_ruby files b frame line path w) (at_once (Full (at_depth w.depth (at_file path turns w)))) }
{}

/// A `require`, a `require_relative` or a `load` searches for a file: it is provided, or missing, or
/// it is loaded while its path is among those that are loading, and what follows the load is done
/// with its outcome.
pub fn requires_call_files()
    ensures enters { (files : Files) (frame : Frame) (line : ℕ) (ask : Ask) (path : Bytes) (t : Tree) (turns : ℕ) (w : World) → resolve files.is_file ask (path_of w) (loaded_of w) w.loading ≡ found_at path → files.ruby path ≡ ruby_tree t → MayLoad path t turns (now_loading ask path (searched ask w)) → ComesTo (λ b. ask_for files b frame line ask w) (asked_entered frame line ask path w.loading t turns (now_loading ask path (searched ask w))) }
    ensures loads { (files : Files) (b : Tree → Frame → Run) (frame : Frame) (line : ℕ) (ask : Ask) (path : Bytes) (w : World) → resolve files.is_file ask (path_of w) (loaded_of w) w.loading ≡ found_at path → ask_for files b frame line ask w ≡ after_file frame line ask path w.loading (load_ruby files b frame line path (now_loading ask path (searched ask w))) }
    ensures is_provided { (files : Files) (frame : Frame) (line : ℕ) (ask : Ask) (w : World) → resolve files.is_file ask (path_of w) (loaded_of w) w.loading ≡ provided → ComesTo (λ b. ask_for files b frame line ask w) (at_once (Done no (searched ask w))) }
    ensures is_missing { (files : Files) (frame : Frame) (line : ℕ) (ask : Ask) (w : World) → resolve files.is_file ask (path_of w) (loaded_of w) w.loading ≡ missing → ComesTo (λ b. ask_for files b frame line ask w) (at_once (raise_new frame line load_error (cannot_load (missing_name ask)) (searched ask w))) }
{}

/// What is found under a method's name, and what its call comes to: a body written in Ruby, a Proc
/// that is called, or a file that is asked for by its text. No other native calls.
pub fn calls_run_what_is_found()
    ensures found { (files : Files) (frame : Frame) (line : ℕ) (self : Value) (x : Bytes) (vs : List Value) (given : Given) (bare : Bool) (f : Found) (w : World) (c : Comes) → find_method w.objects self x ≡ Some f → ComesTo (λ b. run_found files b frame line self x vs given f.place f.body w) c → ComesTo (λ b. call_method files b frame line self x vs given bare w) c }
    ensures nowhere { (files : Files) (frame : Frame) (line : ℕ) (self : Value) (x : Bytes) (vs : List Value) (given : Given) (bare : Bool) (w : World) → find_method w.objects self x ≡ None → ComesTo (λ b. call_method files b frame line self x vs given bare w) (at_once (no_method frame line self x bare w)) }
    ensures found_above { (files : Files) (frame : Frame) (line : ℕ) (self : Value) (x : Bytes) (vs : List Value) (given : Given) (bare : Bool) (above : Option Found) (f : Found) (w : World) (c : Comes) → above ≡ Some f → ComesTo (λ b. run_found files b frame line self x vs given f.place f.body w) c → ComesTo (λ b. run_if_found files b frame line self x vs given bare above w) c }
    ensures nowhere_above { (files : Files) (frame : Frame) (line : ℕ) (self : Value) (x : Bytes) (vs : List Value) (given : Given) (bare : Bool) (above : Option Found) (w : World) → above ≡ None → ComesTo (λ b. run_if_found files b frame line self x vs given bare above w) (at_once (no_method frame line self x bare w)) }
    ensures is_written { (files : Files) (frame : Frame) (line : ℕ) (self : Value) (x : Bytes) (vs : List Value) (given : Given) (place : Place) (m : MethodBody) (code : Code) (w : World) (c : Comes) → m ≡ written code → ComesTo (λ b. run_method b frame line code self x place vs given w) c → ComesTo (λ b. run_found files b frame line self x vs given place m w) c }
    ensures is_call { (files : Files) (frame : Frame) (line : ℕ) (self : Value) (x : Bytes) (vs : List Value) (given : Given) (place : Place) (k : ℕ) (w : World) (c : Comes) → closure_of w.objects self ≡ Some k → ComesTo (λ b. run_block b frame line k vs w) c → ComesTo (λ b. run_found files b frame line self x vs given place (native (control control_call)) w) c }
    ensures is_call_of_none { (files : Files) (frame : Frame) (line : ℕ) (self : Value) (x : Bytes) (vs : List Value) (given : Given) (place : Place) (w : World) → closure_of w.objects self ≡ None → ComesTo (λ b. run_found files b frame line self x vs given place (native (control control_call)) w) (at_once (Done nil w)) }
    ensures asks { (files : Files) (frame : Frame) (line : ℕ) (self : Value) (x : Bytes) (vs : List Value) (given : Given) (place : Place) (n : Control) (ask : Bytes → Ask) (text : Bytes) (w : World) (c : Comes) → asking n frame ≡ Some ask → fits (control_count n) (length vs) ≡ true → text_of w.objects (first_of vs) ≡ Some text → ComesTo (λ b. ask_for files b frame line (ask text) w) c → ComesTo (λ b. run_found files b frame line self x vs given place (native (control n)) w) c }
    ensures asks_without_text { (files : Files) (frame : Frame) (line : ℕ) (self : Value) (x : Bytes) (vs : List Value) (given : Given) (place : Place) (n : Control) (ask : Bytes → Ask) (w : World) → asking n frame ≡ Some ask → fits (control_count n) (length vs) ≡ true → text_of w.objects (first_of vs) ≡ None → ComesTo (λ b. run_found files b frame line self x vs given place (native (control n)) w) (at_once (raise_new frame line type_error (no_conversion (called w.objects (first_of vs)) (codes "String")) w)) }
    ensures answers { (files : Files) (frame : Frame) (line : ℕ) (self : Value) (x : Bytes) (vs : List Value) (given : Given) (place : Place) (m : MethodBody) (n : Native) (a : Answer) (w : World) → m ≡ native n → native_answer n w.objects self vs ≡ itself a → ComesTo (λ b. run_found files b frame line self x vs given place m w) (at_once (answered frame line a w)) }
    ensures reads { (files : Files) (frame : Frame) (line : ℕ) (self : Value) (x : Bytes) (vs : List Value) (given : Given) (place : Place) (m : MethodBody) (variable : Bytes) (w : World) → m ≡ reader variable → ComesTo (λ b. run_found files b frame line self x vs given place m w) (at_once (counted frame line (record { required = 0; optional = 0; rest = false }) (length vs) (reading (variable_of self variable) Done) w)) }
    ensures writes { (files : Files) (frame : Frame) (line : ℕ) (self : Value) (x : Bytes) (vs : List Value) (given : Given) (place : Place) (m : MethodBody) (variable : Bytes) (w : World) → m ≡ writer variable → ComesTo (λ b. run_found files b frame line self x vs given place m w) (at_once (counted frame line (record { required = 1; optional = 0; rest = false }) (length vs) (set_variable frame line self variable (first_of vs)) w)) }
    ensures is_miscounted { (files : Files) (frame : Frame) (line : ℕ) (self : Value) (x : Bytes) (vs : List Value) (given : Given) (place : Place) (n : Control) (w : World) → fits (control_count n) (length vs) ≡ false → ComesTo (λ b. run_found files b frame line self x vs given place (native (control n)) w) (at_once (raise_new frame line argument_error (wrong_count (length vs) (control_count n)) w)) }
{}

/// The instructions that call methods: a send, a super, and the text of a part of a string. The step
/// comes to what the call comes to that is made in the calling frame, with the block that it is
/// given, in the world with its closure; and a block value that is no block is refused.
pub fn sends_call_methods()
    ensures sends { (files : Files) (unit : Tables) (seq : Routine) (frame : Frame) (p l : ℕ) (w : World) (c : Comes) (x : Bytes) (n : ℕ) (ks : List ℕ) (flags q : ℕ) (v : Option Value) (given : Given) (vs : List Value) (self : Value) (rest : List Value) → slice_get seq.body.code p ≡ Some (at_line l (Send x n ks flags q)) → is_valued flags ≡ is_some v → n ≡ length vs → given_by w.objects no_block v ≡ Some given → ComesTo (λ b. call_method files b (calling_frame q frame w) l self x (spread ks vs (calling_world unit.bodies q frame w)) (calling_given q given w) (is_bare flags) (calling_world unit.bodies q frame w)) c → StepCalls files unit seq frame p (with_block_value v (pushed vs (self ∷ rest))) w q rest c }
    ensures send_refused { (files : Files) (unit : Tables) (seq : Routine) (frame : Frame) (p l : ℕ) (w : World) (x : Bytes) (n : ℕ) (ks : List ℕ) (flags q : ℕ) (v : Value) (vs : List Value) (self : Value) (rest : List Value) → slice_get seq.body.code p ≡ Some (at_line l (Send x n ks flags q)) → is_valued flags ≡ true → n ≡ length vs → given_of w.objects v ≡ None → StepCalls files unit seq frame p (v ∷ pushed vs (self ∷ rest)) w q rest (at_once (raise_new frame l type_error (wrong_block (name_of_class_of w.objects v)) w)) }
    ensures supers { (files : Files) (unit : Tables) (seq : Routine) (frame : Frame) (p l : ℕ) (w : World) (c : Comes) (n : ℕ) (ks : List ℕ) (flags q : ℕ) (v : Option Value) (given : Given) (r : Running) (vs : List Value) (self : Value) (rest : List Value) → slice_get seq.body.code p ≡ Some (at_line l (InvokeSuper n ks flags q)) → is_valued flags ≡ is_some v → n ≡ length vs → given_by w.objects frame.block v ≡ Some given → frame.method ≡ Some r → ComesTo (λ b. run_if_found files b (calling_frame q frame w) l (calling_frame q frame w).self_value r.name (spread ks vs w) (calling_given q given w) false (super_found (calling_frame q frame w) r (calling_world unit.bodies q frame w)) (calling_world unit.bodies q frame w)) c → StepCalls files unit seq frame p (with_block_value v (pushed vs (self ∷ rest))) w q rest c }
    ensures super_refused { (files : Files) (unit : Tables) (seq : Routine) (frame : Frame) (p l : ℕ) (w : World) (n : ℕ) (ks : List ℕ) (flags q : ℕ) (v : Value) (vs : List Value) (self : Value) (rest : List Value) → slice_get seq.body.code p ≡ Some (at_line l (InvokeSuper n ks flags q)) → is_valued flags ≡ true → n ≡ length vs → given_of w.objects v ≡ None → StepCalls files unit seq frame p (v ∷ pushed vs (self ∷ rest)) w q rest (at_once (raise_new frame l type_error (wrong_block (name_of_class_of w.objects v)) w)) }
    ensures super_nowhere { (files : Files) (unit : Tables) (seq : Routine) (frame : Frame) (p l : ℕ) (w : World) (n : ℕ) (ks : List ℕ) (flags q : ℕ) (v : Option Value) (given : Given) (vs : List Value) (self : Value) (rest : List Value) → slice_get seq.body.code p ≡ Some (at_line l (InvokeSuper n ks flags q)) → is_valued flags ≡ is_some v → n ≡ length vs → given_by w.objects frame.block v ≡ Some given → frame.method ≡ None → StepCalls files unit seq frame p (with_block_value v (pushed vs (self ∷ rest))) w q rest (at_once (no_method frame l frame.self_value [] false w)) }
    ensures texts { (files : Files) (unit : Tables) (seq : Routine) (frame : Frame) (p l : ℕ) (w : World) (c : Comes) (v : Value) (rest : List Value) → slice_get seq.body.code p ≡ Some (at_line l ObjToString) → ComesTo (λ b. call_method files b frame l v (codes "to_s") [] no_block false w) c → StepCalls files unit seq frame p (v ∷ rest) w 0 rest c }
{}

/// A yield runs the block that the method was given.
pub fn yields_call_blocks()
    ensures { (files : Files) (unit : Tables) (seq : Routine) (frame : Frame) (p l : ℕ) (w : World) (c : Comes) (n : ℕ) (ks : List ℕ) (vs rest : List Value) → slice_get seq.body.code p ≡ Some (at_line l (InvokeBlock n ks)) → n ≡ length vs → ComesTo (λ b. run_given b frame l frame.block (spread ks vs w) w) c → StepCalls files unit seq frame p (pushed vs rest) w 0 rest c }
{}

/// A class, a class below a value, or a module is opened with the body of a sequence.
pub fn class_bodies_are_called()
    ensures classes { (files : Files) (unit : Tables) (seq : Routine) (frame : Frame) (p l : ℕ) (w : World) (c : Comes) (x : Bytes) (q : ℕ) (v : Value) (rest : List Value) → slice_get seq.body.code p ≡ Some (at_line l (DefineClass x (suc q) 0)) → ComesTo (λ b. class_named frame l x (open_class frame l (unit.bodies q) (b (unit.bodies q))) w) c → StepCalls files unit seq frame p (v ∷ rest) w 0 rest c }
    ensures below { (files : Files) (unit : Tables) (seq : Routine) (frame : Frame) (p l : ℕ) (w : World) (c : Comes) (x : Bytes) (q : ℕ) (v : Value) (rest : List Value) → slice_get seq.body.code p ≡ Some (at_line l (DefineClass x (suc q) 1)) → ComesTo (λ b. class_below frame l x v (open_class frame l (unit.bodies q) (b (unit.bodies q))) w) c → StepCalls files unit seq frame p (v ∷ rest) w 0 rest c }
    ensures modules { (files : Files) (unit : Tables) (seq : Routine) (frame : Frame) (p l : ℕ) (w : World) (c : Comes) (x : Bytes) (q : ℕ) (v : Value) (rest : List Value) → slice_get seq.body.code p ≡ Some (at_line l (DefineClass x (suc q) 2)) → ComesTo (λ b. module_of_name frame l x (open_class frame l (unit.bodies q) (b (unit.bodies q))) w) c → StepCalls files unit seq frame p (v ∷ rest) w 0 rest c }
{}

/// Each step of a frame is the same whatever bodies do, or it is a call that comes to a body, in a
/// frame that is in no loop and stands at the body's first line. And each call comes to something.
pub fn steps_are_alike_or_call()
    ensures steps { (files : Files) (unit : Tables) (seq : Routine) (frame : Frame) (p : ℕ) (st : List Value) (w : World) → StepComes (λ b. step files b unit.seqs unit.bodies seq frame p st w) (length w.closures) p }
    ensures methods { (files : Files) (frame : Frame) (line : ℕ) (self : Value) (x : Bytes) (vs : List Value) (given : Given) (bare : Bool) (w : World) → (c : Comes) × IsFresh c × ComesTo (λ b. call_method files b frame line self x vs given bare w) c }
    ensures blocks { (frame : Frame) (line : ℕ) (given : Given) (vs : List Value) (w : World) → (c : Comes) × IsFresh c × ComesTo (λ b. run_given b frame line given vs w) c }
    ensures files { (files : Files) (frame : Frame) (line : ℕ) (ask : Ask) (w : World) → (c : Comes) × IsFresh c × ComesTo (λ b. ask_for files b frame line ask w) c }
    ensures classes { (frame : Frame) (line : ℕ) (t : Tree) (c : ℕ) (w : World) → (o : Comes) × IsFresh o × ComesTo (λ b. open_class frame line t (b t) c w) o }
{}

/// The head of a body's sequence tells how a call counts and binds its arguments: the required and
/// optional parameters, the rest and the block parameter, and the locals. A body begins at the entry
/// for the optional parameters that are given, which are no more than there are.
pub fn sequences_tell_how_they_are_called()
    ensures required { (l : Where) (name : Bytes) (t : Tree) → (body_sequence l name t).required ≡ (count_of_params (params_of t)).required }
    ensures optional { (l : Where) (name : Bytes) (t : Tree) → pred (length (body_sequence l name t).entries) ≡ (count_of_params (params_of t)).optional }
    ensures rest { (l : Where) (name : Bytes) (t : Tree) → (body_sequence l name t).rest ≡ (count_of_params (params_of t)).rest }
    ensures block { (l : Where) (name : Bytes) (t : Tree) → (body_sequence l name t).block ≡ has_block_param (params_of t) }
    ensures entry { (l : Where) (name : Bytes) (t : Tree) (k : ℕ) → k ≤ (count_of_params (params_of t)).optional → get_or (body_sequence l name t).entries k 0 ≡ start_of l t k }
    ensures given { (code : Code) (vs : List Value) → optional_given code vs ≤ (count_of_params (params_of code.body)).optional }
    ensures locals { (unit : Tables) (l : Where) (scopes : Scopes) (name : Bytes) (code : Code) → IsCodeAt unit l scopes code → (body_sequence l name code.body).locals ≡ code.locals }
    ensures first { (unit : Tables) (l : Where) (scopes : Scopes) (name : Bytes) (code : Code) → IsCodeAt unit l scopes code → (body_sequence l name code.body).first_line ≡ l.first }
{}

/// The tests before a body can pass: in the world in which a program starts, with one turn, they do for
/// a body without parameters and without statements.
pub fn tests_can_pass()
    ensures method { (p : Program) → MayRunMethod (file_code [] None nowhere) [] no_block 0 (with_turns 1 (start_world p)) }
    ensures block { (p : Program) → MayRunBlock (file_code [] None nowhere) [] 0 (with_turns 1 (start_world p)) }
    ensures class { (p : Program) → MayOpen top_frame nowhere (start_world p) }
    ensures file { (path : Bytes) (p : Program) → MayLoad path nowhere 0 (with_turns 1 (start_world p)) }
{}
