//! Small programs: what their plain runs leave, by evaluation.
ghost use Rattle.std.specs.Prelude.{◌≡◌, ◌≤◌, []};
ghost use Rattle.ruby_tree.specs.Depth.{depth};
ghost use Rattle.ruby_tree.specs.Placement.{faults, at_home, file};
ghost use Rattle.ruby_meaning.specs.PreludeTree.{prelude_tree};
ghost use Rattle.ruby_meaning.specs.EdgeRows.{EdgeRows};
ghost use Rattle.ruby_meaning.specs.Rows.{bare_name, block_locals, block_outlives_method, block_values, break_of_ended_call, break_through_ensure, case_of_values, case_in_a_clause, case_in_an_ensure, cells_of_a_class, cells_of_a_hash, cells_of_a_local, cells_of_a_proc, cells_of_a_text, indexed_asks, other_asks, cells_of_an_exception, class_bodies, constants_outward, cycle_of_features, data_fault_row, data_row, divided_by_zero, ensure_and_break, ensure_replaces, exact_turns, exit_out_of_range, exit_runs_ensure, faulty_program, floor_of_quotients, frozen, frozen_features, given_blocks, global_names, lexical_constants, lines_of_input, load_twice, locals_of_modifiers, loops, missing_constant, missing_feature, missing_program, module_methods, no_text, no_turn, one_turn_less, count_before_turn, turn_before_depth, operators, order_of_a_call, order_of_parts, own_to_s, parameters, place_in_a_block, raise_in_else, raise_in_feature, raised_again, relative, reopened, require_twice, rescue_of_no_class, retries, retry_in_a_body, retry_in_an_else, return_from_block, return_in_file_block, return_of_ended_method, return_through_block, self_methods, several_classes, singleton_refused, spread, stack_too_deep, sum_row, super_on_self, super_rows, superclass_mismatch, texts_of_values, too_large, trace_row, turns_are_spent, wrong_count, yield_without_block};

/// What the plain run of each program leaves. Each clause has the name of its row in
/// specs/Rows.antt.
pub fn small_programs()
    ensures of_sum_row { sum_row }
    ensures of_require_twice { require_twice }
    ensures of_missing_feature { missing_feature }
    ensures of_raise_in_feature { raise_in_feature }
    ensures of_cycle_of_features { cycle_of_features }
    ensures of_break_through_ensure { break_through_ensure }
    ensures of_turns_are_spent { turns_are_spent }
    ensures of_no_turn { no_turn }
    ensures of_too_large { too_large }
    ensures of_floor_of_quotients { floor_of_quotients }
    ensures of_divided_by_zero { divided_by_zero }
    ensures of_texts_of_values { texts_of_values }
    ensures of_exit_runs_ensure { exit_runs_ensure }
    ensures of_exit_out_of_range { exit_out_of_range }
    ensures of_retries { retries }
    ensures of_retry_in_a_body { retry_in_a_body }
    ensures of_retry_in_an_else { retry_in_an_else }
    ensures of_lines_of_input { lines_of_input }
    ensures of_order_of_parts { order_of_parts }
    ensures of_block_outlives_method { block_outlives_method }
    ensures of_break_of_ended_call { break_of_ended_call }
    ensures of_return_of_ended_method { return_of_ended_method }
    ensures of_return_from_block { return_from_block }
    ensures of_super_rows { super_rows }
    ensures of_constants_outward { constants_outward }
    ensures of_missing_constant { missing_constant }
    ensures of_wrong_count { wrong_count }
    ensures of_parameters { parameters }
    ensures of_spread { spread }
    ensures of_class_bodies { class_bodies }
    ensures of_superclass_mismatch { superclass_mismatch }
    ensures of_case_of_values { case_of_values }
    ensures of_case_in_a_clause { case_in_a_clause }
    ensures of_case_in_an_ensure { case_in_an_ensure }
    ensures of_raised_again { raised_again }
    ensures of_bare_name { bare_name }
    ensures of_loops { loops }
    ensures of_frozen { frozen }
    ensures of_block_locals { block_locals }
    ensures of_operators { operators }
    ensures of_missing_program { missing_program }
    ensures of_load_twice { load_twice }
    ensures of_relative { relative }
    ensures of_given_blocks { given_blocks }
    ensures of_ensure_replaces { ensure_replaces }
    ensures of_return_in_file_block { return_in_file_block }
    ensures of_singleton_refused { singleton_refused }
    ensures of_stack_too_deep { stack_too_deep }
    ensures of_block_values { block_values }
    ensures of_module_methods { module_methods }
    ensures of_global_names { global_names }
    ensures of_yield_without_block { yield_without_block }
    ensures of_ensure_and_break { ensure_and_break }
    ensures of_exact_turns { exact_turns }
    ensures of_one_turn_less { one_turn_less }
    ensures of_count_before_turn { count_before_turn }
    ensures of_turn_before_depth { turn_before_depth }
    ensures of_return_through_block { return_through_block }
    ensures of_raise_in_else { raise_in_else }
    ensures of_rescue_of_no_class { rescue_of_no_class }
    ensures of_several_classes { several_classes }
    ensures of_own_to_s { own_to_s }
    ensures of_place_in_a_block { place_in_a_block }
    ensures of_frozen_features { frozen_features }
    ensures of_no_text { no_text }
    ensures of_super_on_self { super_on_self }
    ensures of_lexical_constants { lexical_constants }
    ensures of_locals_of_modifiers { locals_of_modifiers }
    ensures of_order_of_a_call { order_of_a_call }
    ensures of_reopened { reopened }
    ensures of_self_methods { self_methods }
    ensures of_data_row { data_row }
    ensures of_data_fault_row { data_fault_row }
    ensures of_trace_row { trace_row }
    ensures of_faulty_program { faulty_program }
    ensures of_cells_of_a_text { cells_of_a_text }
    ensures of_indexed_asks { indexed_asks }
    ensures of_other_asks { other_asks }
    ensures of_cells_of_a_local { cells_of_a_local }
    ensures of_cells_of_a_hash { cells_of_a_hash }
    ensures of_cells_of_a_class { cells_of_a_class }
    ensures of_cells_of_a_proc { cells_of_a_proc }
    ensures of_cells_of_an_exception { cells_of_an_exception }
{}

/// What the plain run of each program leaves, of which the texts are read: sentences of the
/// definitions that the programs above would not notice. The clauses are in specs/EdgeRows.antt.
pub fn edge_programs()
    ensures { EdgeRows }
{}

/// The prelude's tree is not too deep, and everything in it stands where it may.
pub fn prelude_tree_is_placed()
    ensures depth_fits { depth prelude_tree ≤ 200 }
    ensures placed { faults (at_home file) prelude_tree ≡ [] }
{}
