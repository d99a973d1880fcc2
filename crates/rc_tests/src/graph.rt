//! A directed graph with weights.

use rc_mutate::compile;
use rc_place::accept;
use rc_plan::Compiled;
use rc_reader::read_spec_only;
use std::alloc::Global;
use std::test::Fail;

/// The graph, on twelve stripes: those of `k1` are 0 to 7, those of `k2` 8 to 11.
pub(crate) const GRAPH: &[u8] = b"relc 1
col src num
col dst num
col weight num
fd src dst -> weight
node root
node u src
node w src dst
node z src dst weight
edge e1 root u hash src
edge e2 u w ordered dst
edge e3 w z singleton weight
lock k1 8 src
lock k2 4 src
place e1 k1
place e2 k2
place e3 k2
op ins insert src dst
op del remove src dst
op succ query src -> dst weight
op find query src dst -> weight
end
";

/// The graph with its plans.
pub(crate) fn compiled(alloc: Global) -> Result<Compiled, Fail> {
    let accepted = accept(alloc, read_spec_only(alloc, GRAPH)?)?;
    Ok(compile(alloc, accepted)?)
}
