/// A run.
#[derive(Clone, Copy)]
pub struct Run {
    /// How many turns it may spend.
    pub turns: u64,
    /// How many workers do it.
    pub workers: u64,
}

/// A run by the picks of a file.
#[derive(Clone, Copy)]
pub struct Step<'a> {
    /// The name of the file.
    pub picks: &'a str,
    /// How many turns it may spend.
    pub turns: u64,
    /// Whether its moves are told before its outcome.
    pub traces: bool,
}

/// What is asked of the files of a call.
#[derive(Clone, Copy)]
pub enum Command<'a> {
    /// A run.
    Run(Run),
    /// A run by picks.
    Step(Step<'a>),
    /// The text of their graph.
    Print,
    /// The race check of their graph.
    Check,
    /// The plan of their graph.
    Plan,
    /// The rewrites that may be done on their graph.
    Matches,
}

/// The files of a call, and what is asked of them.
#[derive(Clone, Copy)]
pub struct Asked<'a> {
    /// The name of the source.
    pub source: &'a str,
    /// The name of the arrays file.
    pub arrays: &'a str,
    /// The name of the chain file, where there is one.
    pub chain: Option<&'a str>,
    /// What is asked of them.
    pub command: Command<'a>,
}
