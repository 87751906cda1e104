// Whose step comes next.
use bow_queue::Ticket;

/// Whose turn it is.
#[derive(Clone, Copy, Debug, PartialEq, Eq)]
pub enum Turn {
    /// The request of this ticket.
    Map(Ticket),
    /// The worker, which makes batches for the writes that need it.
    Worker,
    /// The prepare or commit in hand, or the first one that waits.
    Command,
}
