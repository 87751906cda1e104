// What names a waiting request.
/// Names a request from when it is taken in until it is answered.
#[derive(Clone, Copy, Debug, Default, PartialEq, Eq)]
pub struct Ticket {
    /// The place in which the request waits.
    pub key: u32,
    /// How many requests were taken in before it.
    pub serial: u64,
}
