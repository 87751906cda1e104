use bow_units::Seen;
use std::collections::LinkedList;

// What the holder of a pass knows. No value of it is made.
pub struct View {
    pub publishes: bool,
    pub sent: LinkedList<Seen>,
    pub looks: u64,
    pub last: Seen,
}
