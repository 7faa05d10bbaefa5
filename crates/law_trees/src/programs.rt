//! Laws of the programs: each function's contract is the law, and its body is empty.

ghost use Rattle.std.specs.Prelude.{◌≡◌, ◌⊎◌, ℕ, ◌+◌, ◌-◌, ◌*◌, ◌<◌, ◌≤◌, true, false, List, [], length, Some, take, drop};
ghost use Rattle.std.specs.Option.{is_some};
ghost use Rattle.mem_files.specs.Name.{Name, Bytes};
ghost use Rattle.mem_files.specs.Files.{FileMap};
ghost use Rattle.prog_parts.specs.declared.program.Program.{Program};
ghost use Rattle.user_calls.specs.declared.calls.Call.{Call};
ghost use Rattle.user_calls.specs.Limits.{block_size};
ghost use Rattle.user_calls.specs.declared.calls.Call.TheVariants.{Exit, Write};
ghost use Rattle.user_calls.specs.declared.calls.Reply.{Reply};
ghost use Rattle.user_calls.specs.declared.calls.Reply.TheVariants.{Refused};
ghost use Rattle.meaning_model.specs.Programs.{program_value};
ghost use Rattle.user_progs.specs.State.{State, begins};
ghost use Rattle.prog_parts.specs.Program.{program_uses_input};
ghost use Rattle.user_progs.specs.Turn.{Turn, turn, call_of, next_of, bytes_in};
ghost use Rattle.tree_model.specs.Ahead.{still_opens, still_writes, still_uses};
ghost use Rattle.tree_model.specs.Alone.{World, may_write, May, after_call, to_out};
ghost use Rattle.tree_model.specs.Still.{still, left_of, after_bytes};
ghost use Rattle.tree_model.specs.Waits.{Waits, BeginsShort};
ghost use Rattle.tree_model.specs.Fits.{Fits};
ghost use Rattle.tree_model.specs.Frame.{depends_on, holds_to_write, may_change, only_changed};
ghost use Rattle.tree_model.specs.Refusals.{IsTold, PassesOrTells};
ghost use Rattle.tree_model.specs.Calls.{MayCall};
ghost use Rattle.meaning_model.specs.Firm.{IsFirm};
ghost use Rattle.tree_model.specs.Blocks.{WritesBlock, HoldsBlock};
ghost use Rattle.tree_model.specs.Reads.{bytes_of_function};
ghost use Rattle.tree_model.specs.FilesAhead.{Sizes, sizes, files_ahead, from_files};
ghost use Rattle.tree_model.specs.Tame.{Among, AreTame};
ghost use Rattle.tree_model.specs.Exits.{calls_on, bytes_told, bytes_read, calls_for, most_calls, calls_left, width};
ghost use Rattle.tree_model.specs.ProgramRuns.{first_process, after_replies, MayBe, MayBeRefused, Comes};

/// A program that runs alone, whatever its reads give and how much at a time: what it wrote so far begins what the
/// program function writes, and once it calls `Exit`, its output, the input left and the files are the function's.
///
/// Each argument of `echo` has at most 1,024 bytes, as many as one call writes, and `tee` has at most 16 file words.
/// Opens are answered by the files, with a descriptor above 2 that the program doesn't hold; a read gives at least one
/// byte where any is left; each write and close is done.
pub fn a_program_alone_does_what_its_function_says()
    ensures { (program : Program) (arguments : List Bytes) (input : Bytes) (F : FileMap) (replies : List Reply) → BeginsShort program arguments
        → MayBe (first_process program arguments input F) replies
        → Comes (after_replies (first_process program arguments input F) replies) (program_value (Some program) arguments input F) }
{}

/// What is left of a program: of one that was found, all that its function says; and each reply that a program alone
/// may be given leaves what the next call writes and what follows it. After each it waits for the reply to its call,
/// with its files open where it left them, and those that it writes no further than at their ends.
pub fn each_call_keeps_what_is_left()
    ensures begins { (program : Program) (arguments : List Bytes) (world : World)
        → still (begins program arguments) world ≡ program_value (Some program) arguments world.input world.files }
    ensures kept { (state : State) (call : Call) (reply : Reply) (world : World) → Waits state call world → Fits state world → May call reply world
        → still state world ≡ left_of (turn state reply) 0 (after_call call reply world) }
    ensures waits { (state : State) (call : Call) (reply : Reply) (world : World) → Waits state call world → May call reply world
        → Waits (turn state reply).next (turn state reply).call (after_call call reply world) }
    ensures fits { (state : State) (call : Call) (reply : Reply) (world : World) → Waits state call world → Fits state world → May call reply world
        → Fits (turn state reply).next (after_call call reply world) }
    ensures put { (turn : Turn) (put more : ℕ) (world : World)
        → left_of turn put world ≡ after_bytes (take more (drop put (to_out turn.call))) (left_of turn (put + more) world) }
{}

/// Whatever a program is answered, from the first reply on: it reads standard input, if it uses it, and what it opened and
/// did not close; writes to 1, to 2 and to such a file; opens its file words, `tee` for writing and the others for reading;
/// closes what it opened; and else only exits.
pub fn a_program_makes_no_other_calls()
    ensures { (program : Program) (arguments : List Bytes) (first : Reply) (replies : List Reply)
        → AreTame program arguments (next_of (begins program arguments) first) (call_of (begins program arguments) first) [] replies }
{}

/// Whatever a program is answered, refused writes too: `Exit` is among its first (n + 4) * (W + 1) calls, where the
/// replies hold n bytes, which is what it reads, and the program has W words, its name among them.
pub fn a_program_exits_in_time()
    ensures { (program : Program) (arguments : List Bytes) (replies : List Reply) → most_calls arguments replies ≤ length replies
        → Among Exit (take (most_calls arguments replies) (calls_on (begins program arguments) replies)) }
{}

/// A program that runs alone, whose writes may be refused too: its reads give no more bytes than its program function reads
/// of its inputs, so that `Exit` is among its first (n + 4) * (W + 1) calls, n the bytes that the function reads. Of standard
/// input these are what the function doesn't leave: so `head -1` exits in time, however long its input is.
pub fn a_program_alone_exits_in_time()
    ensures reads { (program : Program) (arguments : List Bytes) (input : Bytes) (F : FileMap) (replies : List Reply) → BeginsShort program arguments
        → MayBeRefused (first_process program arguments input F) replies
        → bytes_read replies ≤ bytes_of_function program arguments input F }
    ensures exits { (program : Program) (arguments : List Bytes) (input : Bytes) (F : FileMap) (replies : List Reply) → BeginsShort program arguments
        → MayBeRefused (first_process program arguments input F) replies
        → calls_for (bytes_of_function program arguments input F) arguments ≤ length replies
        → Among Exit (take (calls_for (bytes_of_function program arguments input F) arguments) (calls_on (begins program arguments) replies)) }
    ensures input { (program : Program) (arguments : List Bytes) (input : Bytes) (F : FileMap) → program_uses_input program arguments ≡ true
        → bytes_of_function program arguments input F ≡ length input - length (program_value (Some program) arguments input F).rest }
{}

/// What the bound on calls comes from, for the end of every run: a turn calls `Exit`, or a state follows that makes fewer
/// calls still than the one before, where each byte that was read pays for as many calls as the widest state asks.
pub fn each_turn_makes_one_call_fewer()
    ensures turn { (most : ℕ) (state : State) (reply : Reply) → width state ≤ most
        → (call_of state reply ≡ Exit)
        ⊎ ((calls_left (next_of state reply) < calls_left state + bytes_told (bytes_in reply) * most) × (width (next_of state reply) ≤ most)) }
    ensures some { (state : State) → 1 ≤ calls_left state }
{}

/// How many bytes of files a program may still read falls with each that it reads, for the end of every run; it is no more
/// after a call that is refused, and no less where the files that the program depends on are larger.
pub fn what_it_reads_of_files_was_ahead()
    ensures call { (state : State) (call : Call) (reply : Reply) (world : World) → Waits state call world → May call reply world
        → from_files call reply + files_ahead (next_of state reply) (after_call call reply world).own (sizes (after_call call reply world).files)
        ≤ files_ahead state world.own (sizes world.files) }
    ensures refused { (state : State) (world : World) (L : Sizes) → files_ahead (next_of state Refused) world.own L ≤ files_ahead state world.own L }
    ensures larger { (state : State) (world : World) (L M : Sizes) → ((name : Name) → depends_on state world name ≡ true → L name ≤ M name)
        → files_ahead state world.own L ≤ files_ahead state world.own M }
{}

/// No call of a program writes more bytes than a call moves, and `tee` holds no more, if no reply gives more.
pub fn a_call_writes_a_block_at_most()
    ensures writes { (state : State) (reply : Reply) → HoldsBlock state → bytes_told (bytes_in reply) ≤ block_size → WritesBlock (call_of state reply) }
    ensures holds { (state : State) (reply : Reply) → HoldsBlock state → bytes_told (bytes_in reply) ≤ block_size → HoldsBlock (next_of state reply) }
{}

/// No write of a program that runs alone is refused: it writes to descriptors 1 and 2, and to files that it opened to write and
/// that go on within their bytes or at their end, so that none leaves a gap.
pub fn no_write_of_a_program_alone_is_refused()
    ensures { (state : State) (fd : ℕ) (bytes : Bytes) (world : World) → Waits state (Write fd bytes) world → Fits state world → may_write fd world ≡ true }
{}

/// A call that is refused changes nothing, whatever the reason, as a full table or a pipe that no process reads: the program
/// waits for the reply to the call that it makes next, and depends on no more files than before and may change no more.
pub fn a_refused_call_changes_nothing()
    ensures same { (call : Call) (world : World) → after_call call Refused world ≡ world }
    ensures waits { (state : State) (call : Call) (world : World) → Waits state call world → Waits (next_of state Refused) (call_of state Refused) world }
    ensures fits { (state : State) (world : World) → Fits (next_of state Refused) world }
    ensures depends { (state : State) (world : World) (name : Name) → depends_on state world name ≡ false → depends_on (next_of state Refused) world name ≡ false }
    ensures changes { (state : State) (world : World) (name : Name) → may_change state world name ≡ false → may_change (next_of state Refused) world name ≡ false }
{}

/// A program whose write is refused goes on as if it had been done, or writes a message to descriptor 2 and exits; the latter
/// always, where the write was to a file of its own. So what it still writes after a refused write is the same, or a message.
pub fn a_refused_write_is_passed_over_or_told()
    ensures any { (state : State) (fd : ℕ) (bytes : Bytes) (world : World) → Waits state (Write fd bytes) world → PassesOrTells state }
    ensures own { (state : State) (fd : ℕ) (bytes : Bytes) (world : World) → Waits state (Write fd bytes) world → 2 < fd → IsTold (turn state Refused) }
{}

/// What call a program waits for, by its state and its open files: what the machine that runs a command must answer.
pub fn what_a_program_waits_for()
    ensures { (state : State) (call : Call) (world : World) → Waits state call world → MayCall call state world }
{}

/// A program that waits goes on to wait over another input and among other files, as those that other commands leave: as long
/// as the files that it holds open to write are there and hold the same; so, where files agree on what it depends on.
pub fn a_program_waits_elsewhere_too()
    ensures there { (state : State) (call : Call) (world : World) (name : Name) → Waits state call world → holds_to_write state world name ≡ true
        → is_some (world.files name) ≡ true }
    ensures waits { (state : State) (call : Call) (world : World) (input : Bytes) (G : FileMap) → Waits state call world
        → ((name : Name) → holds_to_write state world name ≡ true → is_some (G name) ≡ true)
        → Waits state call (record world { input = input; files = G }) }
    ensures agree { (state : State) (call : Call) (world : World) (input : Bytes) (G : FileMap) → Waits state call world
        → ((name : Name) → depends_on state world name ≡ true → world.files name ≡ G name)
        → Waits state call (record world { input = input; files = G }) }
    ensures fits { (state : State) (world : World) (input : Bytes) (G : FileMap) → Fits state world
        → ((name : Name) → holds_to_write state world name ≡ true → world.files name ≡ G name)
        → Fits state (record world { input = input; files = G }) }
{}

/// Which files a program depends on, and which it may change, follows from its state and its open files, and not from what the
/// input and the files hold; and what it may change it depends on.
pub fn open_files_tell_what_it_depends_on()
    ensures depends { (state : State) (world : World) (input : Bytes) (G : FileMap) (name : Name)
        → depends_on state (record world { input = input; files = G }) name ≡ depends_on state world name }
    ensures changes { (state : State) (world : World) (input : Bytes) (G : FileMap) (name : Name)
        → may_change state (record world { input = input; files = G }) name ≡ may_change state world name }
    ensures within { (state : State) (world : World) (name : Name) → depends_on state world name ≡ false → may_change state world name ≡ false }
{}

/// What is left of a program depends on no order in which processes run: none of what it leaves unread, and no file.
pub fn what_is_left_depends_on_no_order()
    ensures { (state : State) (world : World) → IsFirm (still state world) }
{}

/// Whatever a program is answered, the names that it may still open and those that it may still open for writing only
/// shrink; and once it no longer reads standard input, it never does again.
pub fn what_lies_ahead_shrinks()
    ensures opens { (state : State) (reply : Reply) (name : Name) → still_opens state name ≡ false → still_opens (next_of state reply) name ≡ false }
    ensures writes { (state : State) (reply : Reply) (name : Name) → still_writes state name ≡ false → still_writes (next_of state reply) name ≡ false }
    ensures uses { (state : State) (reply : Reply) → still_uses state ≡ false → still_uses (next_of state reply) ≡ false }
{}

/// What a program still does when it runs alone depends on no other files than those that it may still open and those
/// that it holds open; and it changes no other files than those that it may still open for writing or holds so, which
/// only `tee` does.
pub fn what_is_left_depends_on_its_own_files()
    ensures { (state : State) (call : Call) (world : World) (G : FileMap) → Waits state call world
        → ((name : Name) → depends_on state world name ≡ true → world.files name ≡ G name)
        → still state (record world { files = G }) ≡ record (still state world) { files = only_changed (may_change state world) (still state world).files G } }
{}

/// After each reply that a program alone may be given, it depends on no more files than before, and may change no more.
pub fn what_it_depends_on_shrinks()
    ensures depends { (state : State) (call : Call) (reply : Reply) (world : World) (name : Name) → Waits state call world → May call reply world
        → depends_on state world name ≡ false → depends_on (next_of state reply) (after_call call reply world) name ≡ false }
    ensures changes { (state : State) (call : Call) (reply : Reply) (world : World) (name : Name) → Waits state call world → May call reply world
        → may_change state world name ≡ false → may_change (next_of state reply) (after_call call reply world) name ≡ false }
{}

/// A program that no longer reads standard input leaves all of it, and does the same whatever it holds.
pub fn an_unused_input_is_left()
    ensures { (state : State) (call : Call) (world : World) (input : Bytes) → Waits state call world → still_uses state ≡ false
        → still state (record world { input = input }) ≡ record (still state world) { rest = input } }
{}
