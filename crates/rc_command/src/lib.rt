//! The command that the words of the command line give.
#![tactic(auto)]

mod command;

pub use command::{Command, TextCommand, command_in};
