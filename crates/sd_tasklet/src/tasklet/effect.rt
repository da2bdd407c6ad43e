use sd_list::Sequence;

/// One assignment to an output connector. `at` is the index in the connector, a number for each
/// of its dimensions and then zeros.
#[derive(Clone, Copy, Debug, PartialEq, Eq)]
pub struct Effect {
    pub connector: u32,
    pub at: [u64; 4],
    pub value: i64,
}

/// The effects of a tasklet, in the order in which they were assigned.
#[derive(Drop)]
pub struct Effects {
    pub list: Sequence<Effect>,
}
