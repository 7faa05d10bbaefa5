//! Callers that use the laws of every run: that they can is proved.

ghost use Rattle.std.specs.Prelude.{IfOk, OnOk, All, ◌≡◌, false};
ghost use Rattle.proc_table.specs.Slots.{is_running_on};
ghost use Rattle.law_kernel.specs.Sleeping.{AllWait};
ghost use Rattle.law_kernel.specs.Limits.{IsWithin};

use hart_run::{Kernel, facts};
use mem_files::Files;
use std::alloc::{AllocError, Allocator};
use std::test::Fail;
use test_kernel::walker::Walker;

// A kernel of which init and the shell wait.
fn boot<A: Allocator + Copy>(alloc: A) -> Result<Kernel<Walker, A>, AllocError>
    ensures within { IfOk result (λ k. IsWithin k.now) }
{
    let files = Files::new(alloc);
    let kernel = Kernel::boot(
        alloc,
        Walker { left: b"Z." },
        Walker { left: b"Z." },
        b"",
        &files,
    )?;
    facts::it_is_within_its_limits(&kernel);
    Ok(kernel)
}

// Two events on hart 0.
fn goes_on<A: Allocator + Copy>(kernel: &mut Kernel<Walker, A>) -> Result<bool, AllocError>
    requires idle { All (λ slot. is_running_on 0 slot ≡ false) kernel.old.now.table }
    ensures waits { OnOk result (AllWait kernel.new.now.table kernel.new.now.pipes) }
{
    let went = kernel.step(0)?;
    facts::no_wake_up_is_lost(kernel);
    Ok(went)
}

#[test]
fn init_sleeps_while_it_has_a_child(rt: HostRuntime) -> Result<(), Fail> {
    let mut kernel = boot(rt.alloc())?;
    assert!(rt; kernel.is_idle(0));
    assert!(rt; goes_on(&mut kernel)? && kernel.runnable() == 1);
    Ok(())
}
