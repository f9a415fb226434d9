//! Laws of sound bodies: what one who runs them takes from them, and what shows that they are sound.
ghost use Rattle.std.specs.Prelude.{◌≡◌, ◌≢◌, ◌↔◌, ◌+◌, ◌<◌, ◌≤◌, ℕ, suc, List, [], ◌∷◌, Option, Some, IsTrue, All, Contains, false, length, slice_get};
ghost use Rattle.iseq_types.specs.declared.instructions.Instr.{Instr};
ghost use Rattle.iseq_types.specs.declared.instructions.Instr.TheVariants.{Throw};
ghost use Rattle.iseq_types.specs.declared.sequences.CatchKind.{CatchKind};
ghost use Rattle.iseq_types.specs.declared.sequences.CatchKind.TheVariants as catches;
ghost use Rattle.iseq_types.specs.declared.sequences.CatchRow.{CatchRow};
ghost use Rattle.iseq_types.specs.declared.sequences.IndexRow.{IndexRow};
ghost use Rattle.iseq_types.specs.declared.sequences.Line.{Line};
ghost use Rattle.iseq_types.specs.declared.sequences.SeqKind.{SeqKind};
ghost use Rattle.iseq_types.specs.declared.sequences.SeqKind.TheVariants as kinds;
ghost use Rattle.iseq_types.specs.declared.sequences.Sequence.{Sequence};
ghost use Rattle.iseq_types.specs.Catch.{Holds, IsFirstFit, IsFirstOneOf, NoneFits, NoneFitsOneOf};
ghost use Rattle.iseq_types.specs.Depths.{CoversWays, DepthAt, KeepsDepths, KeepsFloor};
ghost use Rattle.iseq_types.specs.Index.{AreIndexRows, HasLocal, IsChild, Outward, homes_of};
ghost use Rattle.iseq_types.specs.Instructions.{depth_after, goes_on, is_ending, needs_of, takes_of, target_of};
ghost use Rattle.iseq_types.specs.Sound.{CountsLocals, EachInstr, EachThrow, EndsRight, FindsLocal, HasKnownOperands, IsInside, IsOrdered, IsSound, NamesChildren, SpreadsBelow, kind_of, locals_of};
ghost use Rattle.iseq_types.specs.Ways.{Way, start_depth};

/// A sound body begins inside its code: at the first place, and at each entry with an empty stack.
pub fn sound_body_begins()
    ensures some { (seq : Sequence) (rows : List IndexRow) (id : ℕ) → IsSound seq rows id → 0 < length seq.code }
    ensures first { (seq : Sequence) (kind : SeqKind) → Way seq kind 0 (start_depth kind) }
    ensures entries { (seq : Sequence) (rows : List IndexRow) (id entry : ℕ) → IsSound seq rows id → Contains seq.entries entry → (entry < length seq.code) × Way seq (kind_of rows id) entry 0 }
{}

/// A sound body goes on: each instruction finds what it needs, and where it leads lies inside the code,
/// with the depth after it. Any place inside has one depth on all ways to it. Falling through is told
/// of all instructions but those that a body may end with, which are those that do not go on and the
/// throws.
pub fn sound_body_goes_on()
    ensures takes { (instr : Instr) → takes_of instr ≤ needs_of instr }
    ensures needs { (seq : Sequence) (rows : List IndexRow) (id place depth : ℕ) (line : Line) → IsSound seq rows id → Way seq (kind_of rows id) place depth → slice_get seq.code place ≡ Some line → needs_of line.instr ≤ depth }
    ensures one_depth { (seq : Sequence) (rows : List IndexRow) (id place depth other : ℕ) → IsSound seq rows id → place < length seq.code → Way seq (kind_of rows id) place depth → Way seq (kind_of rows id) place other → depth ≡ other }
    ensures falls { (instr : Instr) → IsTrue (goes_on instr) → ((n : ℕ) → instr ≢ Throw n) → is_ending instr ≡ false }
    ensures next { (seq : Sequence) (rows : List IndexRow) (id place depth : ℕ) (line : Line) → IsSound seq rows id → Way seq (kind_of rows id) place depth → slice_get seq.code place ≡ Some line → is_ending line.instr ≡ false → (place + 1 < length seq.code) × Way seq (kind_of rows id) (place + 1) (depth_after line.instr depth) }
    ensures jump { (seq : Sequence) (rows : List IndexRow) (id place depth target : ℕ) (line : Line) → IsSound seq rows id → Way seq (kind_of rows id) place depth → slice_get seq.code place ≡ Some line → target_of line.instr ≡ Some target → (target < length seq.code) × Way seq (kind_of rows id) target (depth_after line.instr depth) }
{}

/// The rows of a sound body catch: at a place that a row holds, no instruction takes the stack below the
/// row's depth; what goes on after the row does so behind the place, inside the code, with one value
/// more than that depth; and a rescue row begins at it.
pub fn sound_rows_catch()
    ensures spared { (seq : Sequence) (rows : List IndexRow) (id place depth : ℕ) (row : CatchRow) (line : Line) → IsSound seq rows id → Contains seq.rows row → Holds row place → Way seq (kind_of rows id) place depth → slice_get seq.code place ≡ Some line → row.sp + takes_of line.instr ≤ depth }
    ensures behind { (seq : Sequence) (rows : List IndexRow) (id place : ℕ) (row : CatchRow) → IsSound seq rows id → Contains seq.rows row → Holds row place → place < row.cont }
    ensures cont { (seq : Sequence) (rows : List IndexRow) (id : ℕ) (row : CatchRow) → IsSound seq rows id → Contains seq.rows row → (row.cont < length seq.code) × Way seq (kind_of rows id) row.cont (row.sp + 1) }
    ensures from { (seq : Sequence) (rows : List IndexRow) (id : ℕ) (row : CatchRow) → IsSound seq rows id → Contains seq.rows row → row.kind ≡ catches.Rescue → (row.from < length seq.code) × Way seq (kind_of rows id) row.from row.sp }
    ensures rescue { (seq : Sequence) (rows : List IndexRow) (id : ℕ) (row : CatchRow) → IsSound seq rows id → Contains seq.rows row → row.kind ≡ catches.Rescue → IsChild rows id kinds.Rescue row.seq }
    ensures ensured { (seq : Sequence) (rows : List IndexRow) (id : ℕ) (row : CatchRow) → IsSound seq rows id → Contains seq.rows row → row.kind ≡ catches.Ensure → IsChild rows id kinds.Ensure row.seq }
{}

/// A child has a row of its kind, and a greater number than its parent.
pub fn children_come_later()
    ensures kind { (rows : List IndexRow) (parent id : ℕ) (kind : SeqKind) → IsChild rows parent kind id → (id < length rows) × (kind_of rows id ≡ kind) }
    ensures greater { (rows : List IndexRow) (parent id : ℕ) (kind : SeqKind) → AreIndexRows rows → IsChild rows parent kind id → kind ≢ kinds.File → parent < id }
{}

/// The environments outward of a sequence are a list, in which a local's level is a place.
pub fn homes_are_by_level()
    ensures outward { (rows : List IndexRow) (id level home : ℕ) → AreIndexRows rows → Outward rows id level home ↔ (slice_get (homes_of rows id) level ≡ Some home) }
    ensures local { (rows : List IndexRow) (id slot level : ℕ) → AreIndexRows rows → HasLocal rows id slot level ↔ ((home : ℕ) × (slice_get (homes_of rows id) level ≡ Some home) × (slot < locals_of rows home)) }
    ensures file { (rows : List IndexRow) → AreIndexRows rows → homes_of rows 0 ≡ 0 ∷ [] }
    ensures method { (rows : List IndexRow) (parent id : ℕ) → AreIndexRows rows → IsChild rows parent kinds.Method id → homes_of rows id ≡ id ∷ [] }
    ensures class { (rows : List IndexRow) (parent id : ℕ) → AreIndexRows rows → IsChild rows parent kinds.Class id → homes_of rows id ≡ id ∷ [] }
    ensures block { (rows : List IndexRow) (parent id : ℕ) → AreIndexRows rows → IsChild rows parent kinds.Block id → homes_of rows id ≡ id ∷ homes_of rows parent }
    ensures rescue { (rows : List IndexRow) (parent id : ℕ) → AreIndexRows rows → IsChild rows parent kinds.Rescue id → homes_of rows id ≡ homes_of rows parent }
    ensures ensured { (rows : List IndexRow) (parent id : ℕ) → AreIndexRows rows → IsChild rows parent kinds.Ensure id → homes_of rows id ≡ homes_of rows parent }
{}

/// The first row of several kinds that fits is the nearest of those that `find_catch` finds for each kind.
pub fn first_rows_join()
    ensures none { (rows : List CatchRow) (place low high : ℕ) → NoneFitsOneOf rows [] place low high }
    ensures neither { (rows : List CatchRow) (kind : CatchKind) (others : List CatchKind) (place low high : ℕ) → NoneFits rows kind place low high → NoneFitsOneOf rows others place low high → NoneFitsOneOf rows (kind ∷ others) place low high }
    ensures sooner { (rows : List CatchRow) (kind : CatchKind) (others : List CatchKind) (place low found : ℕ) → IsFirstFit rows kind place low found → NoneFitsOneOf rows others place low found → IsFirstOneOf rows (kind ∷ others) place low found }
    ensures later { (rows : List CatchRow) (kind : CatchKind) (others : List CatchKind) (place low found : ℕ) → NoneFits rows kind place low found → IsFirstOneOf rows others place low found → IsFirstOneOf rows (kind ∷ others) place low found }
    ensures below { (rows : List CatchRow) (kind : CatchKind) (place low high other : ℕ) → NoneFits rows kind place low high → other ≤ high → NoneFits rows kind place low other }
    ensures below_one_of { (rows : List CatchRow) (kinds : List CatchKind) (place low high other : ℕ) → NoneFitsOneOf rows kinds place low high → other ≤ high → NoneFitsOneOf rows kinds place low other }
{}

/// One who makes a body shows what is asked of ways by a list of depths: it has the depths at which ways
/// begin, fits at each instruction that has a depth, and keeps the depth of each row.
pub fn depths_make_sound()
    ensures way { (seq : Sequence) (kind : SeqKind) (depths : List (Option ℕ)) (place depth : ℕ) → CoversWays seq kind depths → place < length seq.code → Way seq kind place depth → DepthAt depths place depth }
    ensures kept { (seq : Sequence) (kind : SeqKind) (depths : List (Option ℕ)) → 0 < length seq.code → IsInside seq → CoversWays seq kind depths → All (KeepsFloor seq depths) seq.rows → KeepsDepths seq kind }
    ensures sound { (seq : Sequence) (rows : List IndexRow) (id : ℕ) (depths : List (Option ℕ)) → CoversWays seq (kind_of rows id) depths → All (KeepsFloor seq depths) seq.rows → IsInside seq → All IsOrdered seq.rows → EndsRight seq (kind_of rows id) → EachInstr seq (FindsLocal rows id) → NamesChildren seq rows id → EachInstr seq SpreadsBelow → EachInstr seq HasKnownOperands → CountsLocals seq rows id → EachThrow seq (kind_of rows id) → IsSound seq rows id }
{}
