//! The turns of a round, shared out among the threads that make them.

ghost use Rattle.std.specs.Prelude.{◌≡◌, ◌<◌, [], All, IfOk, length};
ghost use Rattle.rc_runner.specs.Shares.{AreShared};

use rc_tuple::Memory;
use rc_work::Turn;
use std::alloc::Global;

/// The turns of a thread in a round, in order.
pub(crate) type Share<'a> = Vec<&'a Turn>;

/// A share of no turns for each thread.
fn empty_shares<'a>(alloc: Global, threads: u32) -> Result<Vec<Share<'a>>, Memory>
    ensures count { IfOk result (λ shares. length shares.items ≡ threads) }
    ensures empty { IfOk result (λ shares. AreShared [] shares.items) }
{
    let mut shares = Vec::new(alloc);
    for _ in 0..threads {
        shares.push(Vec::new(alloc))?;
    }
    Ok(shares)
}

/// Shares the turns of a round out among so many threads, each of which has its own in order.
pub(crate) fn share_out(
    alloc: Global,
    threads: u32,
    round: &[Turn],
) -> Result<Vec<Share<'_>>, Memory>
    requires { All (λ turn. turn.thread < threads) round.now }
    ensures { IfOk result (λ shares. AreShared round.now shares.items) }
{
    let mut shares = empty_shares(alloc, threads)?;
    for turn in round {
        shares[turn.thread as usize].push(turn)?;
    }
    Ok(shares)
}
