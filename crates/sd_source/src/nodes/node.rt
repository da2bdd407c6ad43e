use sd_list::Text;

/// A node of a state.
#[derive(Drop)]
pub struct Node {
    /// The line of the item for which it was made.
    pub line: u32,
    /// The function whose graph it holds.
    pub called: Option<Text>,
}
