//! The rows of the table of calls, and what a shell calls whatever it is answered: each the contract of a function that
//! does nothing.

ghost use Rattle.std.specs.Prelude.{◌≡◌, ◌++◌, ◌∷◌, [], ℕ, List, Some, None, true, false, Contains, length, drop, replicate, codes};
ghost use Rattle.mem_files.specs.Name.{Bytes, Name};
ghost use Rattle.sh_tree.specs.declared.tree.Mode.{Mode};
ghost use Rattle.sh_tree.specs.declared.fault.ParseFault.{ParseFault};
ghost use Rattle.sh_tree.specs.declared.fault.ParseFault.TheVariants.{MissingFile, MissingParen, TooManyWords, Unexpected, Leftover, Memory};
ghost use Rattle.sh_tree.specs.Tree.{Tree, exec, redir, pipe, list, back};
ghost use Rattle.script_load.specs.declared.profile.Profile.{Profile};
ghost use Rattle.script_load.specs.Line.{ScriptLine, command, bad, cd};
ghost use Rattle.sh_machine.specs.declared.state.Phase.TheVariants.{Starts};
ghost use Rattle.user_calls.specs.declared.calls.Call.TheVariants.{Fork, Exec, Exit, Wait, MakePipe, Write, OpenFile, Close, Dup};
ghost use Rattle.user_calls.specs.declared.calls.Reply.TheVariants.{Start, Child, Done, Fd, Ends, Refused};
ghost use Rattle.user_calls.specs.declared.calls.Reply.{Reply};
ghost use Rattle.user_progs.specs.State.{State};
ghost use Rattle.user_progs.specs.Turn.{block};
ghost use Rattle.user_progs.specs.View.{first_state};
ghost use Rattle.sh_machine.specs.CallsOn.{calls_from, calls_on};
ghost use Rattle.sh_machine.specs.Held.{MayCall, calls_of_lines, ends_of, held_by, held_next};
ghost use Rattle.sh_machine.specs.State.{Shell, ended, init, program, shell, top};
ghost use Rattle.sh_machine.specs.Turn.{call_mode, fault_text, old_fd, runs, shell_turn, takes_first};

/// A command without words exits. A command whose program is known becomes that program; one whose program is unknown writes
/// so to descriptor 2 and exits (`user/sh.c`, `runcmd`, EXEC).
pub fn a_command_becomes_its_program()
    ensures nothing { (profile : Profile) → calls_from profile (runs (exec [])) [] ≡ Exit ∷ [] }
    ensures found { (profile : Profile) (name : Bytes) (arguments : List Bytes) (state : State) (replies : List Reply) → first_state (name ∷ arguments) ≡ Some state
        → calls_from profile (runs (exec (name ∷ arguments))) replies ≡ Exec true ∷ calls_on (program state) replies }
    ensures unknown { (profile : Profile) (name : Bytes) (arguments : List Bytes) (reply : Reply) → first_state (name ∷ arguments) ≡ None
        → calls_from profile (runs (exec (name ∷ arguments))) (Refused ∷ reply ∷ []) ≡ Exec false ∷ Write 2 (block (codes "exec " ++ (name ++ codes " failed\n"))) ∷ Exit ∷ [] }
{}

/// A list: the parent waits for the left side, and then runs the right side; a child runs the left side (`runcmd`, LIST).
pub fn a_list_is_run_in_order()
    ensures parent { (profile : Profile) (left right : Tree) → calls_from profile (runs (list left right)) (Done ∷ Done ∷ []) ≡ Fork ∷ Wait ∷ (runs right).call ∷ [] }
    ensures child { (profile : Profile) (left right : Tree) → calls_from profile (runs (list left right)) (Child ∷ []) ≡ Fork ∷ (runs left).call ∷ [] }
{}

/// Behind `&` a child runs the body, and the parent exits and doesn't wait (`runcmd`, BACK).
pub fn a_back_is_not_waited_for()
    ensures parent { (profile : Profile) (body : Tree) → calls_from profile (runs (back body)) (Done ∷ []) ≡ Fork ∷ Exit ∷ [] }
    ensures child { (profile : Profile) (body : Tree) → calls_from profile (runs (back body)) (Child ∷ []) ≡ Fork ∷ (runs body).call ∷ [] }
{}

/// A redirection closes its descriptor, opens its file and goes on as the body; where the open is refused it writes so to
/// descriptor 2 and exits (`runcmd`, REDIR).
pub fn a_redirection_closes_and_opens()
    ensures granted { (profile : Profile) (mode : Mode) (name : Name) (body : Tree) (fd : ℕ) → calls_from profile (runs (redir mode name body)) (Done ∷ Fd fd ∷ []) ≡ Close (old_fd mode) ∷ OpenFile (block name) (call_mode profile mode) ∷ (runs body).call ∷ [] }
    ensures refused { (profile : Profile) (mode : Mode) (name : Name) (body : Tree) (reply : Reply) → calls_from profile (runs (redir mode name body)) (Done ∷ Refused ∷ reply ∷ []) ≡ Close (old_fd mode) ∷ OpenFile (block name) (call_mode profile mode) ∷ Write 2 (block (codes "open " ++ (name ++ codes " failed\n"))) ∷ Exit ∷ [] }
{}

/// A pipe: the parent forks twice, closes both ends and waits twice; each child puts its end in place of its standard
/// descriptor, closes both ends and runs its side (`runcmd`, PIPE).
pub fn a_pipe_has_a_parent_and_two_children()
    ensures parent { (profile : Profile) (left right : Tree) (reader writer : ℕ) → calls_from profile (runs (pipe left right)) (Ends reader writer ∷ Done ∷ Done ∷ Done ∷ Done ∷ Done ∷ Done ∷ []) ≡ MakePipe ∷ Fork ∷ Fork ∷ Close reader ∷ Close writer ∷ Wait ∷ Wait ∷ Exit ∷ [] }
    ensures left { (profile : Profile) (left right : Tree) (reader writer fd : ℕ) → calls_from profile (runs (pipe left right)) (Ends reader writer ∷ Child ∷ Done ∷ Fd fd ∷ Done ∷ Done ∷ []) ≡ MakePipe ∷ Fork ∷ Close 1 ∷ Dup writer ∷ Close reader ∷ Close writer ∷ (runs left).call ∷ [] }
    ensures right { (profile : Profile) (left right : Tree) (reader writer fd : ℕ) → calls_from profile (runs (pipe left right)) (Ends reader writer ∷ Done ∷ Child ∷ Done ∷ Fd fd ∷ Done ∷ Done ∷ []) ≡ MakePipe ∷ Fork ∷ Fork ∷ Close 0 ∷ Dup reader ∷ Close reader ∷ Close writer ∷ (runs right).call ∷ [] }
{}

/// The top shell forks for a line, waits and takes the next (`user/sh.c`, `main`); the child of a line that is no command
/// writes what is wrong with it; for a line of `cd` the top shell itself writes that it can't (own).
pub fn a_line_is_run_and_waited_for()
    ensures parent { (profile : Profile) (tree : Tree) (later : List ScriptLine) → calls_on (shell profile (top Starts (command tree ∷ later))) (Start ∷ Done ∷ Done ∷ []) ≡ Fork ∷ Wait ∷ (takes_first later).call ∷ [] }
    ensures child { (profile : Profile) (tree : Tree) (later : List ScriptLine) → calls_on (shell profile (top Starts (command tree ∷ later))) (Start ∷ Child ∷ []) ≡ Fork ∷ (runs tree).call ∷ [] }
    ensures fault { (profile : Profile) (fault : ParseFault) (text : Bytes) (later : List ScriptLine) (reply : Reply) → calls_on (shell profile (top Starts (bad fault text ∷ later))) (Start ∷ Child ∷ reply ∷ []) ≡ Fork ∷ Write 2 (block (fault_text fault text)) ∷ Exit ∷ [] }
    ensures directory { (profile : Profile) (text : Bytes) (later : List ScriptLine) (reply : Reply) → calls_on (shell profile (top Starts (cd text ∷ later))) (Start ∷ reply ∷ []) ≡ Write 2 (block (codes "cannot cd " ++ (text ++ 10 ∷ []))) ∷ (takes_first later).call ∷ [] }
{}

/// Over all its lines the top shell makes each line's calls in order, and exits then.
pub fn the_top_shell_takes_every_line()
    ensures { (profile : Profile) (lines : List ScriptLine)
        → calls_on (shell profile (top Starts lines)) (Start ∷ replicate (length (calls_of_lines lines)) Done) ≡ calls_of_lines lines ++ Exit ∷ [] }
{}

/// What the child of a line that is no command writes.
pub fn each_fault_has_its_message()
    ensures file { (text : Bytes) (place : ℕ) → fault_text (MissingFile place) text ≡ codes "missing file for redirection\n" }
    ensures parenthesis { (text : Bytes) (place : ℕ) → fault_text (MissingParen place) text ≡ codes "syntax - missing )\n" }
    ensures words { (text : Bytes) (place : ℕ) → fault_text (TooManyWords place) text ≡ codes "too many args\n" }
    ensures unexpected { (text : Bytes) (place : ℕ) → fault_text (Unexpected place) text ≡ codes "syntax\n" }
    ensures leftover { (text : Bytes) (place : ℕ) → fault_text (Leftover place) text ≡ codes "leftovers: " ++ (drop place text ++ 10 ∷ []) }
    ensures memory { (text : Bytes) → fault_text Memory text ≡ codes "no memory\n" }
{}

/// A process whose fork or pipe is refused writes so to descriptor 2 and ends, the top shell too (`fork1`, `panic`).
pub fn a_refused_fork_ends_the_process()
    ensures first { (profile : Profile) (tree : Tree) (later : List ScriptLine) (reply : Reply) → calls_on (shell profile (top Starts (command tree ∷ later))) (Start ∷ Refused ∷ reply ∷ []) ≡ Fork ∷ Write 2 (block (codes "fork\n")) ∷ Exit ∷ [] }
    ensures side { (profile : Profile) (left right : Tree) (reply : Reply) → calls_from profile (runs (list left right)) (Refused ∷ reply ∷ []) ≡ Fork ∷ Write 2 (block (codes "fork\n")) ∷ Exit ∷ [] }
    ensures behind { (profile : Profile) (body : Tree) (reply : Reply) → calls_from profile (runs (back body)) (Refused ∷ reply ∷ []) ≡ Fork ∷ Write 2 (block (codes "fork\n")) ∷ Exit ∷ [] }
    ensures ends { (profile : Profile) (left right : Tree) (reply : Reply) → calls_from profile (runs (pipe left right)) (Refused ∷ reply ∷ []) ≡ MakePipe ∷ Write 2 (block (codes "pipe\n")) ∷ Exit ∷ [] }
    ensures left { (profile : Profile) (left right : Tree) (reader writer : ℕ) (reply : Reply) → calls_from profile (runs (pipe left right)) (Ends reader writer ∷ Refused ∷ reply ∷ []) ≡ MakePipe ∷ Fork ∷ Write 2 (block (codes "fork\n")) ∷ Exit ∷ [] }
    ensures right { (profile : Profile) (left right : Tree) (reader writer : ℕ) (reply : Reply) → calls_from profile (runs (pipe left right)) (Ends reader writer ∷ Done ∷ Refused ∷ reply ∷ []) ≡ MakePipe ∷ Fork ∷ Fork ∷ Write 2 (block (codes "fork\n")) ∷ Exit ∷ [] }
{}

/// Whatever it is answered, a shell reads nothing, writes to descriptor 2 alone, and closes and duplicates no descriptor but
/// 0, 1 and the ends of the pipe that it made; one that exited exits again, and init waits.
pub fn a_shell_keeps_to_its_calls()
    ensures calls { (profile : Profile) (at : Shell) (reply : Reply) → MayCall at (shell_turn profile at reply).call }
    ensures holds { (profile : Profile) (at : Shell) (reply : Reply) (fd : ℕ) → Contains (held_next (shell_turn profile at reply).next) fd → Contains (held_by at ++ ends_of reply) fd }
    ensures over { (profile : Profile) (replies : List Reply) → calls_on (shell profile ended) replies ≡ replicate (length replies) Exit }
    ensures waits { (replies : List Reply) → calls_on init replies ≡ replicate (length replies) Wait }
{}
