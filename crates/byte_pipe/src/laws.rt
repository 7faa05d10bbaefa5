//! Laws of the definitions that the contracts of a pipe cite: each function's contract is the law, and its body is
//! empty.

ghost use Rattle.std.specs.Prelude.{◌≡◌, ◌≤◌, List, ◌++◌, length};
ghost use Rattle.byte_pipe.specs.Limits.{pipe_size};
ghost use Rattle.byte_pipe.specs.PipeState.{PipeState, new_pipe};
ghost use Rattle.byte_pipe.specs.PipeCall.{PipeCall, after_calls, all_put, all_taken};

/// Nothing is lost, doubled or out of order: after any calls on any pipe, the bytes that were taken, followed by those
/// that are held, are the bytes that were held at first, followed by those that were put.
pub fn bytes_come_out_once_and_in_order()
    ensures any_pipe { (p : PipeState) (calls : List PipeCall) → all_taken p calls ++ (after_calls p calls).bytes ≡ p.bytes ++ all_put p calls }
    ensures new_pipe { (calls : List PipeCall) → all_taken new_pipe calls ++ (after_calls new_pipe calls).bytes ≡ all_put new_pipe calls }
{}

/// No calls make a pipe hold more than 512 bytes.
pub fn a_pipe_stays_within_its_size()
    ensures { (p : PipeState) (calls : List PipeCall) → length p.bytes ≤ pipe_size → length (after_calls p calls).bytes ≤ pipe_size }
{}
