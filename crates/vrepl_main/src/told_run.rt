//! Runs to the feeds' ends that a gate is told of, also of their end.

ghost use Rattle.std.specs.Prelude.{◌≡◌, ◌<◌, ℕ, IfErr, IfOk, OnOk, length};
ghost use Rattle.board_laws.specs.Sources.{ShowAll};
ghost use Rattle.apply_core.specs.Shown.{all_rows};
ghost use Rattle.apply_core.specs.Ended.{AllHaveEnded, AreAsBefore, AreSound, HaveEnded, IsNamedStream, IsRowsUnion};
ghost use Rattle.apply_core.specs.RunRefused.{EndsRun, IsLowest};

use crate::ahead::{named_ahead, run_ahead};
use crate::progress::{Progress, tell_streams};
use apply_core::{FedBoard, Policy, RunRefusal};
use std::alloc::Global;
use std::sync::Wait;
use std::thread::Threads;
use stream_worker::run_fed_parallel;

/// All streams run in threads, as `run_fed_parallel` runs them.
pub(crate) fn run_in_threads<'h, R: Threads + Wait + Sync, G: Progress + Sync>(
    rt: &R,
    alloc: Global,
    fed: FedBoard<'h>,
    policy: &Policy,
    gate: &G,
) -> Result<FedBoard<'h>, RunRefusal>
    ensures feeds { IfOk result (λ ended. ended.feeds ≡ fed.entry.feeds) }
    ensures ended { IfOk result (λ ended. AllHaveEnded ended.feeds ended.board) }
    ensures rows { IfOk result (λ ended. IsRowsUnion ended.feeds (all_rows ended.board.rows)) }
    ensures sound { IfOk result (λ ended. AreSound ended.feeds) }
    ensures shows { IfOk result (λ ended. ShowAll ended.feeds ended.board) }
    ensures refused { IfErr result (EndsRun fed.entry.feeds) }
    ensures lowest { IfErr result (IsLowest fed.entry.feeds) }
{
    tell_streams(gate, &fed);
    let ended = run_fed_parallel(rt, alloc, fed, policy, gate);
    gate.ends();
    ended
}

/// All streams run one after another, as `FedBoard::run` runs them.
pub(crate) fn run_in_turn<G: Progress>(
    alloc: Global,
    fed: &mut FedBoard<'_>,
    policy: &Policy,
    gate: &G,
) -> Result<(), RunRefusal>
    ensures feeds { fed.new.feeds ≡ fed.old.feeds }
    ensures ended { OnOk result (AllHaveEnded fed.new.feeds fed.new.board) }
    ensures rows { OnOk result (IsRowsUnion fed.new.feeds (all_rows fed.new.board.rows)) }
    ensures sound { OnOk result (AreSound fed.new.feeds) }
    ensures shows { ShowAll fed.new.feeds fed.new.board }
    ensures refused { IfErr result (EndsRun fed.old.feeds) }
    ensures lowest { IfErr result (IsLowest fed.old.feeds) }
{
    run_ahead(alloc, gate, fed, policy);
    let ended = fed.run(alloc, policy);
    gate.ends();
    ended
}

/// These streams run one after another, as `FedBoard::run_streams` runs them.
pub(crate) fn run_named<G: Progress>(
    alloc: Global,
    fed: &mut FedBoard<'_>,
    only: &[u8],
    policy: &Policy,
    gate: &G,
) -> Result<(), RunRefusal>
    requires { (s : ℕ) → IsNamedStream only.now s → s < length fed.old.feeds }
    ensures feeds { fed.new.feeds ≡ fed.old.feeds }
    ensures ended { OnOk result (HaveEnded only.now fed.new.feeds fed.new.board) }
    ensures others { OnOk result (AreAsBefore only.now fed.old.board fed.new.board) }
    ensures shows { ShowAll fed.new.feeds fed.new.board }
    ensures refused { IfErr result (EndsRun fed.old.feeds) }
{
    named_ahead(alloc, gate, fed, only, policy);
    let ended = fed.run_streams(alloc, only, policy);
    gate.ends();
    ended
}
