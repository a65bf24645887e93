//! What the words ask for.

/// A command of the program.
#[derive(Clone, Copy, PartialEq, Eq)]
pub enum Command {
    /// to take the events of a journal in order
    Replay {
        /// whether the crews are checked after each change
        crew: bool,
    },
    /// to take them, and to keep each answered one in a journal on the disk, so that a stopped run goes on
    Store,
    /// to take the batches of a day, and to search for a cheaper plan after each
    Recover {
        /// how many workers search beside one another, 0 to 64; with 0 the desk searches alone
        workers: u32,
        /// after how many accepted moves since the last batch the search stops, 1 to 100,000
        moves: u32,
        /// whether batches are taken while workers search; then there is at least 1
        live: bool,
        /// whether a viewer watches the desk's board meanwhile; then there is at least 1 worker
        watch: bool,
    },
    /// to check the files of a plan
    Check {
        /// whether the crews are checked too
        crew: bool,
    },
    /// to add empty legs to the plan of these files
    Ferry,
    /// to make up a day by a seed, 0 to 999,999,999, and a size, 1 to 40
    Gen {
        seed: u32,
        size: u32,
    },
    /// to make up such a day, and to recover it without a file
    Trial {
        seed: u32,
        size: u32,
    },
}

/// The directories of a command.
#[derive(Clone, Copy)]
pub struct Directories<'a> {
    /// that of the input; empty where the command reads none
    pub input: &'a str,
    /// that of the output, which is also that of a plan to check or to add legs to
    pub output: &'a str,
}

/// A command with its directories.
#[derive(Clone, Copy)]
pub struct Asked<'a> {
    pub command: Command,
    /// none where the command has no files
    pub directories: Option<Directories<'a>>,
}
