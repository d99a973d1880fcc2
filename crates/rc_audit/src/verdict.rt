/// What is said of a report.
#[derive(Clone, Copy, Debug, PartialEq, Eq)]
pub enum Verdict {
    /// It is that of a run, with so many entries.
    Legal { entries: u64 },
    /// The first line such that no good report begins with the lines so far. Where all lines begin
    /// one and more is wanted, it is one past the text's last, which may be blank or a comment.
    Bad { line: u32 },
}
