//! Worked examples of the definitions: each function's clauses say what a small program does.
ghost use Rattle.std.specs.Prelude.{◌≡◌, List, [], ◌∷◌, ◌++◌, replicate, false, true, pos, negsuc};
ghost use Rattle.ac_tree.specs.declared.policy.PolicyName.TheVariants.{Init, Bounds, Symm};
ghost use Rattle.ac_run.specs.declared.event.Event.TheVariants as event;
ghost use Rattle.ac_run.specs.Start.{Fits};
ghost use Rattle.ac_run.specs.Memory.{scalar, is_inside, number_at};
ghost use Rattle.ac_run.specs.Run.{run, Do, Compare};
ghost use Rattle.ac_run.specs.Examples.{ViolatesAfter, a, i, k, n, x, covariance, number, get, put, set, element, cell, fill, fill_start, turn, nine_turns, last_read, write_outside, four, start_with, read_outside, four_and, write_difference, held, guarded, small_and_low, small_or_low, never_entered, count_up, nine_is_put, up_to, from_six, nine_and_next, use_matrix, use_vector, write_entry, entry, one_to_six, matrix, use_constant, use_nothing, use_written, second_write, sized_by_input, sized};

/// A loop that fills an array, and a read of its last cell. The number of the loop's end is kept in the task.
pub fn a_whole_array_is_filled()
    ensures ended { (run (fill 9) fill_start 33).tasks ≡ [] }
    ensures trace { (run (fill 9) fill_start 33).trace ≡ nine_turns ++ turn 9 ++ last_read }
    ensures stays { run (fill 9) fill_start 40 ≡ run (fill 9) fill_start 33 }
    ensures kept { (run (fill 9) fill_start 1).tasks ≡ Compare i (pos 9) (put a (get i) (number 0) ∷ []) ∷ Do (set x (element a (number 9))) ∷ [] }
    ensures written_before { ¬ ViolatesAfter 33 (fill 9) fill_start [] Init }
    ensures inside { ¬ ViolatesAfter 33 (fill 9) fill_start [] Bounds }
{}

/// The same loop without its last turn: the read of the last cell violates init.
pub fn a_cell_is_left_out()
    ensures trace { (run (fill 8) fill_start 30).trace ≡ nine_turns ++ event.Read (cell a (pos 9)) ∷ event.Write (scalar x) (pos 7) ∷ [] }
    ensures not_written { ViolatesAfter 30 (fill 8) fill_start [] Init }
{}

/// A run halts at a write outside, whose event stands in the trace and leaves the memory.
pub fn a_write_outside_halts()
    ensures trace { (run write_outside (start_with four) 1).trace ≡ event.Write (cell a (pos 4)) (pos 1) ∷ [] }
    ensures memory { (run write_outside (start_with four) 1).memory ≡ four }
    ensures halted { (run write_outside (start_with four) 1).has_halted ≡ true }
    ensures stays { run write_outside (start_with four) 5 ≡ run write_outside (start_with four) 1 }
    ensures outside { ViolatesAfter 1 write_outside (start_with four) [] Bounds }
    ensures reads_nothing { ¬ ViolatesAfter 1 write_outside (start_with four) [] Init }
{}

/// A run halts at a read outside, which violates bounds, and init too where nothing wrote the cell.
pub fn a_read_outside_halts()
    ensures trace { (run read_outside (four_and (pos 0)) 1).trace ≡ event.Read (cell a (pos 4)) ∷ [] }
    ensures stays { run read_outside (four_and (pos 0)) 5 ≡ run read_outside (four_and (pos 0)) 1 }
    ensures outside { ViolatesAfter 1 read_outside (four_and (pos 0)) [] Bounds }
    ensures not_written { ViolatesAfter 1 read_outside (four_and (pos 0)) [] Init }
    ensures below_zero { is_inside read_outside (four_and (pos 0)) (cell a (negsuc 0)) ≡ false }
{}

/// The reads of the index come first, then those of the value, then the write. A constant is not read.
pub fn reads_go_from_left_to_right()
    ensures trace { (run write_difference (start_with (four ++ held i (pos 2 ∷ []) ∷ held x (pos 5 ∷ []) ∷ [])) 1).trace ≡ event.Read (scalar i) ∷ event.Read (scalar x) ∷ event.Write (cell a (pos 2)) (negsuc 1) ∷ [] }
{}

/// `and` skips its right side where the left side is false.
pub fn and_skips_its_right_side()
    ensures skipped { (run (guarded small_and_low) (four_and (pos 4)) 5).trace ≡ event.Read (scalar x) ∷ [] }
    ensures read { (run (guarded small_and_low) (four_and (pos 2)) 5).trace ≡ event.Read (scalar x) ∷ event.Read (scalar x) ∷ event.Read (cell a (pos 2)) ∷ [] }
    ensures entered { (run (guarded small_and_low) (four_and (pos 1)) 2).trace ≡ event.Read (scalar x) ∷ event.Read (scalar x) ∷ event.Read (cell a (pos 1)) ∷ event.Write (scalar x) (pos 1) ∷ [] }
{}

/// `or` skips its right side where the left side is true.
pub fn or_skips_its_right_side()
    ensures skipped { (run (guarded small_or_low) (four_and (pos 3)) 2).trace ≡ event.Read (scalar x) ∷ event.Write (scalar x) (pos 1) ∷ [] }
    ensures outside { (run (guarded small_or_low) (four_and (pos 4)) 2).trace ≡ event.Read (scalar x) ∷ event.Read (scalar x) ∷ event.Read (cell a (pos 4)) ∷ [] }
{}

/// A `for` whose end is below its start writes its variable and doesn't enter its body.
pub fn an_empty_range_is_not_entered()
    ensures ended { (run never_entered (four_and (pos 0)) 2).tasks ≡ [] }
    ensures trace { (run never_entered (four_and (pos 0)) 2).trace ≡ event.Write (scalar x) (pos 5) ∷ [] }
    ensures memory { (run never_entered (four_and (pos 0)) 2).memory ≡ (four_and (pos 5)).cells }
{}

/// A `for` reads its start, then its end, and then writes its variable. Where a read is outside it writes nothing.
pub fn a_for_reads_both_ends_before_it_writes()
    ensures trace { (run (up_to (element a (number 1))) from_six 1).trace ≡ event.Read (scalar x) ∷ event.Read (cell a (pos 1)) ∷ event.Write (scalar i) (pos 6) ∷ [] }
    ensures old_number { (run (up_to (get i)) from_six 1).tasks ≡ Compare i (pos 3) nine_is_put ∷ [] }
    ensures outside { (run (up_to (element a (number 4))) from_six 9).trace ≡ event.Read (scalar x) ∷ event.Read (cell a (pos 4)) ∷ [] }
    ensures memory { (run (up_to (element a (number 4))) from_six 9).memory ≡ from_six.cells }
{}

/// A `for` keeps the number that its end had: it doesn't read the end again when its body has changed it from 7 to 9.
pub fn a_for_keeps_the_number_of_its_end()
    ensures trace { (run (up_to (element a (number 1))) from_six 8).trace ≡ event.Read (scalar x) ∷ event.Read (cell a (pos 1)) ∷ event.Write (scalar i) (pos 6) ∷ (nine_and_next 7 ++ nine_and_next 8) }
    ensures ended { (run (up_to (element a (number 1))) from_six 8).tasks ≡ [] }
    ensures kept { (run (up_to (element a (number 1))) from_six 7).tasks ≡ Compare i (pos 7) nine_is_put ∷ [] }
{}

/// A `while` tests before each turn.
pub fn a_while_tests_before_each_turn()
    ensures trace { (run count_up (start_with (held x (pos 1 ∷ []) ∷ [])) 3).trace ≡ event.Read (scalar x) ∷ event.Read (scalar x) ∷ event.Write (scalar x) (pos 2) ∷ event.Read (scalar x) ∷ [] }
    ensures ended { (run count_up (start_with (held x (pos 1 ∷ []) ∷ [])) 3).tasks ≡ [] }
{}

/// A write to a matrix changes the number at its place in row order. A column outside is outside, also where the place has a number.
pub fn a_matrix_is_written_in_row_order()
    ensures trace { (run (write_entry 1 0) (matrix one_to_six) 1).trace ≡ event.Write (entry a (pos 1) (pos 0)) (pos 9) ∷ [] }
    ensures memory { (run (write_entry 1 0) (matrix one_to_six) 1).memory ≡ (matrix (pos 1 ∷ pos 2 ∷ pos 3 ∷ pos 9 ∷ pos 5 ∷ pos 6 ∷ [])).cells }
    ensures column_outside { (run (write_entry 0 3) (matrix one_to_six) 1).has_halted ≡ true }
    ensures stays { (run (write_entry 0 3) (matrix one_to_six) 1).memory ≡ (matrix one_to_six).cells }
{}

/// A `use` hands over the contents in row order. Under init all cells have to be written.
pub fn a_use_hands_over_all_cells()
    ensures trace { (run (use_matrix 2 2) (matrix (pos 1 ∷ pos 2 ∷ pos 3 ∷ pos 4 ∷ [])) 1).trace ≡ event.Hand a covariance (pos 1 ∷ pos 2 ∷ pos 3 ∷ pos 4 ∷ []) ∷ [] }
    ensures row_order { number_at (use_matrix 2 3) (matrix one_to_six) (matrix one_to_six).cells (entry a (pos 1) (pos 0)) ≡ pos 4 }
    ensures some_missing { ViolatesAfter 2 (use_written []) (matrix (pos 7 ∷ pos 7 ∷ [])) [] Init }
    ensures all_written { ¬ ViolatesAfter 3 (use_written second_write) (matrix (pos 7 ∷ pos 7 ∷ [])) [] Init }
    ensures no_cells { ¬ ViolatesAfter 1 use_nothing (matrix []) [] Init }
{}

/// A `use` of a constant has its one number, which nothing wrote, and which is no matrix.
pub fn a_constant_is_handed_over()
    ensures trace { (run use_constant (start_with []) 1).trace ≡ event.Hand k covariance (pos 3 ∷ []) ∷ [] }
    ensures not_written { ViolatesAfter 1 use_constant (start_with []) [] Init }
    ensures no_matrix { ViolatesAfter 1 use_constant (start_with []) (covariance ∷ []) Symm }
{}

/// Under symm only a symmetric matrix may be used in a listed role.
pub fn a_listed_role_asks_for_symmetry()
    ensures symmetric { ¬ ViolatesAfter 1 (use_matrix 2 2) (matrix (pos 1 ∷ pos 2 ∷ pos 2 ∷ pos 4 ∷ [])) (covariance ∷ []) Symm }
    ensures mirrored { ViolatesAfter 1 (use_matrix 2 2) (matrix (pos 1 ∷ pos 2 ∷ pos 3 ∷ pos 4 ∷ [])) (covariance ∷ []) Symm }
    ensures unlisted { ¬ ViolatesAfter 1 (use_matrix 2 2) (matrix (pos 1 ∷ pos 2 ∷ pos 3 ∷ pos 4 ∷ [])) (k ∷ []) Symm }
    ensures vector { ViolatesAfter 1 use_vector (matrix (pos 1 ∷ [])) (covariance ∷ []) Symm }
    ensures not_square { ViolatesAfter 1 (use_matrix 1 2) (matrix (pos 1 ∷ pos 1 ∷ [])) (covariance ∷ []) Symm }
{}

/// An extent that is an input has the input's number in the start.
pub fn a_start_gives_the_extents()
    ensures fits { Fits sized_by_input (sized (pos 2) (pos 7 ∷ pos 7 ∷ [])) }
    ensures too_many { ¬ Fits sized_by_input (sized (pos 2) (pos 7 ∷ pos 7 ∷ pos 7 ∷ [])) }
    ensures below_range { ¬ Fits sized_by_input (sized (negsuc 0) (pos 7 ∷ [])) }
    ensures above_range { ¬ Fits sized_by_input (sized (pos 51) (replicate 51 (pos 7))) }
    ensures misnamed { ¬ Fits sized_by_input (start_with (held n (pos 0 ∷ []) ∷ held x [] ∷ [])) }
    ensures missing { ¬ Fits sized_by_input (start_with (held n (pos 0 ∷ []) ∷ [])) }
    ensures outside { (run sized_by_input (sized (pos 2) (pos 7 ∷ pos 7 ∷ [])) 1).has_halted ≡ true }
    ensures inside { (run sized_by_input (sized (pos 3) (pos 7 ∷ pos 7 ∷ pos 7 ∷ [])) 1).has_halted ≡ false }
{}
