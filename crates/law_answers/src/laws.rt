//! Laws of runs of the program: each function's contract is the law, and its body is empty. Each is of both profiles, and says
//! nothing of writers of which it isn't known what they hold.

ghost use Rattle.std.specs.Prelude.{◌≡◌, ◌⊎◌, ℕ, Bool, List, ◌++◌, Option, true, Some, None, codes};
ghost use Rattle.std.specs.Global.{Global};
ghost use Rattle.clap.specs.Walk.{Row};
ghost use Rattle.mem_files.specs.Files.{files};
ghost use Rattle.mem_files.specs.Listing.{AreFiles};
ghost use Rattle.mem_files.specs.Name.{Bytes};
ghost use Rattle.script_load.specs.Line.{ScriptLine};
ghost use Rattle.script_load.specs.Script.{IsScript};
ghost use Rattle.meaning_model.specs.Meaning.{script_meaning};
ghost use Rattle.meaning_model.specs.Settled.{IsSettledScript};
ghost use Rattle.plain_run.specs.declared.outcome.Plain.{Plain};
ghost use Rattle.kernel_model.specs.declared.events.Full.{Full};
ghost use Rattle.kernel_model.specs.declared.events.Full.TheVariants.{Memory};
ghost use Rattle.room_model.specs.Roomy.{IsRoomyScript};
ghost use Rattle.script_outcomes.specs.declared.finding.Found.TheVariants.{Settled};
ghost use Rattle.grade_verdicts.specs.Judged.{IsPassed};
ghost use Rattle.grade_verdicts.specs.declared.expected.Task.{Task};
ghost use Rattle.xvsh_read.specs.Console.{Known};
ghost use Rattle.xvsh_read.specs.Path.{Path};
ghost use Rattle.xvsh_runs.specs.Runs.{RanReplay, RanRun};
ghost use Rattle.xvsh_runs.specs.Strict.{IsStrictFault};
ghost use Rattle.xvsh_runs.specs.Why.{IsRunFault};
ghost use Rattle.xvsh_runs.specs.declared.fault.ProcessFault.TheVariants.{Spent};
ghost use Rattle.xvsh_runs.specs.declared.report.Lists.{Lists};
ghost use Rattle.xvsh_explores.specs.Explores.{RanExplore};
ghost use Rattle.xvsh_ends.specs.Ends.{How, RanBy};
ghost use Rattle.xvsh.specs.Drive.{EndsOn};
ghost use Rattle.law_answers.specs.Settings.{EndsIn, IsKnown, IsSettledIn, LeavesInput, MeantIn, Outputs, RanIn, Setting, WriteTheSame, WritesMeaningIn, plain_in, run_in, strict_in};
ghost use Rattle.law_answers.specs.Spending.{IsGivenUpIn, IsSpentIn};
ghost use Rattle.law_answers.specs.Unless.{IsRightUnlessRefused, PrintsUnlessRefused};
ghost use Rattle.law_answers.specs.Words.{AreOfStrictRun, WroteMeaningOf};
ghost use Rattle.law_answers.specs.Written.{IsValueText, no_lists};

/// What `run` prints of a run in which nothing was full, of a script that is settled on what was read, is the output of the
/// script's recursive meaning, and then the lists that were requested: the files that it lists are the meaning's but for soft
/// names. Without lists it is that output and nothing else. So is what `replay` prints, whatever the schedule says.
pub fn a_run_prints_the_meaning()
    ensures run { (s : Setting) (harts : ℕ) (turns : Option ℕ) (lists : Lists) (text diag : Bytes) (r : RanRun s.input s.file s.profile s.script s.paths harts turns lists None text diag)
        → IsSettledScript s.profile r.lines r.stdin (files r.given) → IsValueText (script_meaning s.profile r.lines r.stdin (files r.given)) lists r.on.events text }
    ensures replay { (s : Setting) (schedule : Path) (lists : Lists) (text diag : Bytes) (r : RanReplay s.input s.file s.profile s.script s.paths schedule lists None text diag)
        → IsSettledScript s.profile r.lines r.stdin (files r.given) → IsValueText (script_meaning s.profile r.lines r.stdin (files r.given)) lists r.events text }
{}

/// And where such a script has room in xv6's tables by its bounds, nothing but memory is full in any run of `run` or `replay` that is
/// printed: so what it prints is the meaning, unless it reports that memory was refused.
pub fn a_printed_run_of_a_roomy_script_fills_nothing_but_memory()
    ensures run { (s : Setting) (harts : ℕ) (turns : Option ℕ) (lists : Lists) (full : Option Full) (text diag : Bytes) (r : RanRun s.input s.file s.profile s.script s.paths harts turns lists full text diag)
        → IsSettledScript s.profile r.lines r.stdin (files r.given) → IsRoomyScript r.lines r.stdin r.given → (full ≡ None) ⊎ (full ≡ Some Memory) }
    ensures replay { (s : Setting) (schedule : Path) (lists : Lists) (full : Option Full) (text diag : Bytes) (r : RanReplay s.input s.file s.profile s.script s.paths schedule lists full text diag)
        → IsSettledScript s.profile r.lines r.stdin (files r.given) → IsRoomyScript r.lines r.stdin r.given → (full ≡ None) ⊎ (full ≡ Some Memory) }
{}

/// Nor does such a script want for turns: where `run` has as many as are enough for it, the number that `check --turns` prints, or more,
/// it reports that they are spent only where memory was refused in some run that spends its turns, on however many harts.
pub fn turns_of_a_roomy_script_are_spent_only_where_memory_is_refused()
    ensures run { (s : Setting) (harts : ℕ) (turns : Option ℕ) → IsRunFault s.input s.file s.profile s.script s.paths harts turns Spent → IsSpentIn s turns }
    ensures strict { (s : Setting) (harts : ℕ) (turns : Option ℕ) → IsStrictFault s.input s.file s.profile s.script s.paths harts turns Spent → IsSpentIn s turns }
{}

/// And by itself `run` has as many: where no number is asked for, and that of `check --turns` is within 1,000,000,000, it reports that the
/// turns of such a script are spent only where memory was refused in some run that spends its turns, on however many harts.
pub fn a_roomy_script_has_turns_enough_by_itself()
    ensures run { (s : Setting) (harts : ℕ) → IsRunFault s.input s.file s.profile s.script s.paths harts None Spent → IsGivenUpIn s }
    ensures strict { (s : Setting) (harts : ℕ) → IsStrictFault s.input s.file s.profile s.script s.paths harts None Spent → IsGivenUpIn s }
{}

/// What `explore` knows of such a script without trying an order, its output, is what each run by processes prints, unless that reports
/// that memory was refused; where no list was requested, and the host states all bytes that are read.
pub fn what_explore_knows_of_a_roomy_script_is_what_each_run_prints()
    ensures { (s : Setting) (states : ℕ) (all : Bool) (value : Plain Global) → IsKnown s → (e : RanExplore s.input s.file s.profile s.script s.paths states all (Settled value)) → IsRoomyScript e.lines e.stdin e.given
        → (how : How) (full : Option Full) (text diag : Bytes) → LeavesInput how → RanBy s.input s.file how s.profile s.script s.paths no_lists full text diag → PrintsUnlessRefused value.out full text }
{}

/// And where a script passes a test of `grade` by its meaning, and has room on the test's input and files, each finished run of it, on
/// any harts and in any order, leaves what the test expects, unless memory was refused in it.
pub fn a_pass_of_a_roomy_script_is_right_in_each_run()
    ensures { (t : Task) (bytes : Bytes) (lines : List ScriptLine) → AreFiles t.files.now → IsScript bytes lines → IsPassed t lines → IsRoomyScript lines t.stdin.now t.files.now → IsRightUnlessRefused t lines }
{}

/// So two runs of one script, under one profile and on the same files, print the same on standard output, where nothing was full
/// in them, the script is settled, no list was requested, and the host states all bytes that are read: two runs by processes, each
/// by `run`, on as many harts as may be, or by `replay` of a schedule that isn't read from standard input; or one of these and
/// one by meaning, as of `plain`, that found the script settled.
pub fn two_runs_print_the_same()
    ensures by_processes { (s : Setting) (how other : How) (one two diag report : Bytes) → IsKnown s → IsSettledIn s → LeavesInput how → LeavesInput other
        → RanIn s how one diag → RanIn s other two report → one ≡ two }
    ensures by_meaning { (s : Setting) (how : How) (one two diag : Bytes) → IsKnown s → LeavesInput how → RanIn s how one diag → MeantIn s two → one ≡ two }
{}

/// The same by what the program reports: where a run by processes ends with status 0, and another does, or `plain` does
/// and adds `settled` to standard error, or `plain --strict` does, both wrote the same to standard output.
pub fn status_0_and_settled_is_one_output()
    ensures by_processes { (s : Setting) (how other : How) (one two : Outputs) → IsKnown s → IsSettledIn s → LeavesInput how → LeavesInput other
        → EndsIn s one (run_in s how) 0 → EndsIn s two (run_in s other) 0 → WriteTheSame one two }
    ensures by_meaning { (s : Setting) (how : How) (one two : Outputs) (strict : Bool) (before : Bytes) → IsKnown s → LeavesInput how
        → EndsIn s one (run_in s how) 0 → EndsIn s two (plain_in s strict) 0 → two.err ≡ Some before → two.err_after ≡ Some (before ++ codes "settled\n") → WriteTheSame one two }
    ensures by_strict_meaning { (s : Setting) (how : How) (one two : Outputs) → IsKnown s → LeavesInput how
        → EndsIn s one (run_in s how) 0 → EndsIn s two (plain_in s true) 0 → WriteTheSame one two }
{}

/// Of `run --strict` status 0 alone says it: the script is settled on what was read, and its recursive meaning was written, with
/// the lists that were requested. So two such runs without lists, on as many harts as may be, wrote the same to standard output.
pub fn status_0_of_a_strict_run_is_the_meaning()
    ensures meaning { (s : Setting) (harts : ℕ) (turns : Option ℕ) (lists : Lists) (o : Outputs) → EndsIn s o (strict_in s harts turns lists) 0 → WritesMeaningIn s lists o }
    ensures two { (s : Setting) (harts others : ℕ) (turns more : Option ℕ) (one two : Outputs) → IsKnown s
        → EndsIn s one (strict_in s harts turns no_lists) 0 → EndsIn s two (strict_in s others more no_lists) 0 → WriteTheSame one two }
{}

/// From the words of the command line on: where they are those of `run --strict`, and the program ends with status 0, the script that
/// they name is settled on the standard input and the files that they name, and its recursive meaning was written, with the lists
/// that they ask for.
pub fn status_0_of_strict_words_is_the_meaning()
    ensures { (old new : Known) (words : List (List ℕ)) (rows : List Row) → AreOfStrictRun words rows → EndsOn old new words 0 → WroteMeaningOf old new rows }
{}
