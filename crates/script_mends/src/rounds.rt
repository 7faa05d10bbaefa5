//! Mends a script until it is settled.
ghost use Rattle.std.specs.Prelude.{◌≡◌, ◌≢◌, ◌<◌, ◌⊎◌, ℕ, None, IfErr, IfNone, IfOk, IfSome, MatchOption};
ghost use Rattle.mem_files.specs.Files.{files};
ghost use Rattle.script_mends.specs.Mended.{AreMends, IsSettledText, IsUnmended};
ghost use Rattle.script_mends.specs.Rounds.{IsMendFault, IsRound, most_mends};

use crate::mending::mended_by;
use crate::task::Task;
use plain_run::{PlainFault, plain_with_reasons};
use script_load::{LoadFault, load_with};
use std::alloc::{AllocError, Global};
use thiserror::Error;

/// How many mends are made at most (own).
pub const MOST_MENDS: usize = 100;

/// Why a script can't be mended (own).
#[derive(Clone, Copy, Debug, PartialEq, Eq, Error)]
pub enum MendFault {
    /// It is refused.
    #[error("{0}")]
    Load(LoadFault),
    /// Its meaning is too large, or memory is refused.
    #[error("{0}")]
    Plain(PlainFault),
}

// What becomes of a script.
#[derive(Drop)]
pub enum Round {
    /// It is settled.
    Settled,
    /// It isn't, and this is the script with a line mended.
    Mended(Vec<u8>),
    /// It isn't, and no rule mends it.
    Unmended,
}

impl From<AllocError> for MendFault {
    ghost use Rattle.std.specs.Prelude.{◌≡◌};
    ghost use Rattle.plain_run.specs.declared.fault.PlainFault.TheVariants.{Memory};
    ghost use Rattle.script_mends.specs.declared.rounds.MendFault.TheVariants.{Plain};

    ghost from_gives = { λ _ fault. fault ≡ Plain Memory };

    fn from(_error: AllocError) -> MendFault {
        MendFault::Plain(PlainFault::Memory)
    }
}

// What becomes of a script.
fn next_round(alloc: Global, bytes: &[u8], task: &Task<'_>) -> Result<Round, MendFault>
    ensures made { IfOk result (IsRound task.now.profile task.now.stdin.now (files task.now.files.now) bytes.now) }
    ensures fault { IfErr result (IsMendFault task.now.profile task.now.stdin.now (files task.now.files.now) bytes.now) }
{
    let script = match load_with(alloc, bytes, task.profile) {
        Ok(script) => script,
        Err(LoadFault::Memory) => return Err(MendFault::Plain(PlainFault::Memory)),
        Err(fault) => return Err(MendFault::Load(fault)),
    };
    let reasoned = match plain_with_reasons(alloc, &script, task.stdin, task.files) {
        Ok(reasoned) => reasoned,
        Err(fault) => return Err(MendFault::Plain(fault)),
    };
    let Some(reason) = reasoned.reasons.first() else {
        return Ok(Round::Settled);
    };
    match mended_by(alloc, bytes, reason, task)? {
        Some(new) => Ok(Round::Mended(new)),
        None => Ok(Round::Unmended),
    }
}

// What comes of a fault after so many mends: of one that they made, no mended script.
fn after_mends(mends: usize, fault: MendFault) -> Result<Option<Vec<u8>>, MendFault>
    ensures error { IfErr result (λ told. (told ≡ fault) × ((mends ≡ 0) ⊎ (fault ≡ MendFault.Plain PlainFault.Memory))) }
    ensures none { IfOk result (λ found. (found ≡ None) × (0 < mends) × (fault ≢ MendFault.Plain PlainFault.Memory)) }
{
    match fault {
        MendFault::Plain(PlainFault::Memory) => Err(fault),
        _ if mends == 0 => Err(fault),
        _ => Ok(None),
    }
}

/// The script of these bytes, mended by rules until it is settled: unchanged where it is settled already, and `None` where no mend
/// makes it so (own). At each reason why it isn't settled, the first first, its line is mended: each `&` becomes a `;`; and a pipe
/// whose sides clash at a file, or whose right side may stop early, becomes two lines, with a new file between them. Each
/// script on the way is run by its meaning, on this task; there are at most `MOST_MENDS` mends.
///
/// `Load` where the script is refused; `Plain` where its meaning is too large, or memory is refused.
pub fn mend(alloc: Global, bytes: &[u8], task: &Task<'_>) -> Result<Option<Vec<u8>>, MendFault>
    ensures settled { IfOk result (λ found. IfSome found (λ text. IsSettledText task.now.profile task.now.stdin.now (files task.now.files.now) text.items)) }
    ensures mended { IfOk result (λ found. IfSome found (λ text. (count : ℕ) × AreMends task.now.profile task.now.stdin.now (files task.now.files.now) count bytes.now text.items)) }
    ensures same { IsSettledText task.now.profile task.now.stdin.now (files task.now.files.now) bytes.now → IfOk result (λ found. MatchOption found ⊥ (λ text. text.items ≡ bytes.now)) }
    ensures none { IfOk result (λ found. IfNone found (IsUnmended task.now.profile task.now.stdin.now (files task.now.files.now) most_mends bytes.now)) }
    ensures fault { IfErr result (IsMendFault task.now.profile task.now.stdin.now (files task.now.files.now) bytes.now) }
{
    let mut text = Vec::from_slice(alloc, bytes)?;
    for mends in 0..MOST_MENDS {
        match next_round(alloc, text.as_slice(), task) {
            Ok(Round::Settled) => return Ok(Some(text)),
            Ok(Round::Mended(new)) => text = new,
            Ok(Round::Unmended) => return Ok(None),
            Err(fault) => return after_mends(mends, fault),
        }
    }
    Ok(None)
}
