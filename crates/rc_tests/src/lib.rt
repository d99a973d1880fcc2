//! Tests of what no case of data can say, and no clause: which values threads may share, streams over a reader and a writer of the
//! standard library, threads beside each other on a store, on a run of the top call and on plans, and how often the top call asks its
//! source.
#![tactic(auto)]

#[cfg(test)]
mod cache_tests;
#[cfg(test)]
mod gates;
#[cfg(test)]
mod graph;
#[cfg(test)]
mod judge;
#[cfg(test)]
mod reading_tests;
#[cfg(test)]
mod run_tests;
#[cfg(test)]
mod sharing_tests;
#[cfg(test)]
mod stream_tests;
