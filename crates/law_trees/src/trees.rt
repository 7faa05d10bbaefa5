//! Laws of the tree machine: each function's contract is the law, and its body is empty.
ghost use Rattle.std.specs.Prelude.{◌≡◌, ◌⊎◌, true, false, Bool, List};
ghost use Rattle.mem_files.specs.Files.{FileMap};
ghost use Rattle.mem_files.specs.Name.{Bytes, Name};
ghost use Rattle.script_load.specs.declared.profile.Profile.{Profile};
ghost use Rattle.script_load.specs.Limits.{are_small};
ghost use Rattle.script_load.specs.Line.{ScriptLine};
ghost use Rattle.script_load.specs.Script.{IsScript};
ghost use Rattle.meaning_model.specs.Firm.{IsFirm};
ghost use Rattle.meaning_model.specs.Meaning.{meaning, script_meaning, script_tree};
ghost use Rattle.meaning_model.specs.Met.{met_names};
ghost use Rattle.meaning_model.specs.Settled.{IsSettledScript};
ghost use Rattle.meaning_model.specs.Value.{Value};
ghost use Rattle.sh_tree.specs.Tree.{Tree};
ghost use Rattle.tree_model.specs.AsksItsOwn.{AsksItsOwn};
ghost use Rattle.tree_model.specs.Moving.{IsPlain, Moves};
ghost use Rattle.tree_model.specs.Residual.{Residual, done, left_names, left_writes, piped};
ghost use Rattle.tree_model.specs.Rules.{IsMet, Label, Steps, is_refused, put_out, silent, taken};
ghost use Rattle.tree_model.specs.Runs.{Agrees, Goes, IsOnWay, Reaches, Stage, after_steps, first_stage, next_stage};
ghost use Rattle.tree_model.specs.Step.{Choice, step};
ghost use Rattle.tree_model.specs.Tidy.{HasShortCommands, IsClearScript, IsTidy};
ghost use Rattle.tree_model.specs.Uncut.{AgreesWholly, IsUncut, IsUncutScript, has_lost};

/// Each step by the rules is the step of a choice, wherever its label can be met.
pub fn each_rule_is_a_choice()
    ensures { (profile : Profile) (X Y : Residual) (F G : FileMap) (label : Label) (closed ended : Bool) (input : Bytes) → Steps profile X F label Y G → IsMet label closed ended input
        → (c : Choice) × (step profile X c closed ended input F ≡ record { wrote = put_out label; refused = is_refused label; took = taken label; next = Y; files = G }) }
{}

/// The two sides of a pipe commute: a step of the left side, as an open, a read or a write of a file, and then one of the right
/// side give the same as these two in the other order, where neither side writes a file that the other names, as in a clear
/// tree. Its commands may be of any length: only each program that runs must wait for a call that its state may make, as in
/// what is tidy.
pub fn steps_of_the_two_sides_commute()
    ensures sides { (profile : Profile) (X NextX Y NextY : Residual) (F G H : FileMap) (left right : Label) → AsksItsOwn X → AsksItsOwn Y
        → ((name : Name) → left_writes X name ≡ true → left_names Y name ≡ false) → ((name : Name) → left_writes Y name ≡ true → left_names X name ≡ false)
        → Steps profile X F left NextX G → Steps profile Y G right NextY H
        → (K : FileMap) × Steps profile Y F right NextY K × Steps profile X K left NextX H }
    ensures pipe { (profile : Profile) (lost : Bool) (bytes : Bytes) (X NextX Y NextY : Residual) (F G H : FileMap) → AsksItsOwn X → AsksItsOwn Y
        → ((name : Name) → left_writes X name ≡ true → left_names Y name ≡ false) → ((name : Name) → left_writes Y name ≡ true → left_names X name ≡ false)
        → Steps profile X F silent NextX G → Steps profile Y G silent NextY H
        → (K : FileMap) × Steps profile (piped lost X bytes Y) F silent (piped lost X bytes NextY) K × Steps profile (piped lost X bytes NextY) K silent (piped lost NextX bytes NextY) H }
    ensures tidy { (X : Residual) (F : FileMap) → IsTidy X F → AsksItsOwn X }
{}

/// A settled script begins on the way to its meaning, and each step stays on it: what is left is tidy, and what was written
/// so far, followed by what is still to come, is what the meaning writes; the files that are not soft, and the rest of the
/// input where it is not loose, are the meaning's. Early readers, cut pipes and refused writes are among the steps.
pub fn each_step_keeps_the_final_value()
    ensures begins { (profile : Profile) (lines : List ScriptLine) (input : Bytes) (F : FileMap) → IsSettledScript profile lines input F → HasShortCommands (script_tree lines)
        → IsOnWay profile (script_meaning profile lines input F) (first_stage (script_tree lines) input F) }
    ensures by_rules { (profile : Profile) (value : Value) (stage next : Stage) → Goes profile stage next → IsOnWay profile value stage → IsOnWay profile value next }
    ensures by_choices { (profile : Profile) (value : Value) (stage : Stage) (c : Choice) → IsOnWay profile value stage → IsOnWay profile value (next_stage profile stage c) }
    ensures reached { (profile : Profile) (lines : List ScriptLine) (input : Bytes) (F : FileMap) (last : Stage) → IsSettledScript profile lines input F → HasShortCommands (script_tree lines)
        → Reaches profile (first_stage (script_tree lines) input F) last → IsOnWay profile (script_meaning profile lines input F) last }
    ensures done { (profile : Profile) (value : Value) (stage : Stage) → IsOnWay profile value stage → stage.left ≡ done → Agrees stage value }
{}

/// One answer for every order: whatever steps a run of a settled script makes, in whatever order, once all is done its output
/// and its files are those of the recursive meaning, soft names aside, and it leaves what the meaning leaves of the input,
/// unless that is loose.
pub fn one_answer_for_every_order()
    ensures by_rules { (profile : Profile) (lines : List ScriptLine) (input : Bytes) (F : FileMap) (last : Stage) → IsSettledScript profile lines input F → HasShortCommands (script_tree lines)
        → Reaches profile (first_stage (script_tree lines) input F) last → last.left ≡ done → Agrees last (script_meaning profile lines input F) }
    ensures by_choices { (profile : Profile) (lines : List ScriptLine) (input : Bytes) (F : FileMap) (cs : List Choice) → IsSettledScript profile lines input F → HasShortCommands (script_tree lines)
        → (after_steps profile cs (first_stage (script_tree lines) input F)).left ≡ done → Agrees (after_steps profile cs (first_stage (script_tree lines) input F)) (script_meaning profile lines input F) }
{}

/// The commands of a loaded script are as short as that asks, and so are those of lines within the limits of scripts.
pub fn a_script_has_short_commands()
    ensures loaded { (bytes : Bytes) (lines : List ScriptLine) → IsScript bytes lines → HasShortCommands (script_tree lines) }
    ensures made { (lines : List ScriptLine) → are_small lines ≡ true → HasShortCommands (script_tree lines) }
{}

/// What is left can always go on: a residual that is tidy and within its pipes is done, makes a step of its own, waits on the
/// input around it, of which it takes any byte that comes or the end, or waits on the output around it, where it puts a byte
/// or is refused. Every step keeps it so.
pub fn what_is_left_waits_only_on_what_is_around_it()
    ensures moves { (profile : Profile) (X : Residual) (F : FileMap) → IsTidy X F → IsPlain X → Moves profile X F }
    ensures tidy { (profile : Profile) (X Y : Residual) (F G : FileMap) (label : Label) → Steps profile X F label Y G → IsTidy X F → IsTidy Y G }
    ensures plain { (profile : Profile) (X Y : Residual) (F G : FileMap) (label : Label) → Steps profile X F label Y G → IsPlain X → IsPlain Y }
{}

/// Never stuck: in every run of a clear script without `&`, as long as something is left to do, a step can be made.
pub fn a_run_goes_on_until_all_is_done()
    ensures { (profile : Profile) (lines : List ScriptLine) (input : Bytes) (F : FileMap) (last : Stage) → IsClearScript lines
        → Reaches profile (first_stage (script_tree lines) input F) last → (last.left ≡ done) ⊎ ((next : Stage) × Goes profile last next) }
{}

/// The plain case, where each right side of a pipe reads its input to the end, so that no pipe is cut: nothing is soft or loose,
/// and no name is met, so a clear script without `&` is settled; in none of its runs a write is refused to the left side of a pipe; and each run
/// that is done gives the output, every file and the rest of the input of the recursive meaning.
pub fn where_no_pipe_is_cut_nothing_depends_on_the_order()
    ensures firm { (profile : Profile) (tree : Tree) (input : Bytes) (F : FileMap) → IsUncut profile tree input F → IsFirm (meaning profile tree input F) }
    ensures meets_nothing { (profile : Profile) (tree : Tree) (input : Bytes) (F : FileMap) → IsUncut profile tree input F → (name : Name) → met_names profile tree input F name ≡ false }
    ensures settled { (profile : Profile) (lines : List ScriptLine) (input : Bytes) (F : FileMap) → IsUncutScript profile lines input F → IsSettledScript profile lines input F }
    ensures unrefused { (profile : Profile) (lines : List ScriptLine) (input : Bytes) (F : FileMap) (last : Stage) → IsUncutScript profile lines input F → HasShortCommands (script_tree lines)
        → Reaches profile (first_stage (script_tree lines) input F) last → has_lost last.left ≡ false }
    ensures wholly { (profile : Profile) (lines : List ScriptLine) (input : Bytes) (F : FileMap) (last : Stage) → IsUncutScript profile lines input F → HasShortCommands (script_tree lines)
        → Reaches profile (first_stage (script_tree lines) input F) last → last.left ≡ done → AgreesWholly last (script_meaning profile lines input F) }
{}
