// What passes between lanes and servers.
/// A request of lane `lane` that is taken and not yet answered. Only `Tags::take` makes one, and only
/// `Tags::answer` uses it up.
#[non_exhaustive]
#[derive(Drop)]
pub struct Job {
    pub lane: u32,
    pub number: u32,
}

/// The answer to request `number` of lane `lane`.
#[derive(Drop)]
pub struct Reply<Q> {
    pub lane: u32,
    pub number: u32,
    pub outcome: Q,
}

/// The lane's word was another than the one expected.
#[derive(Clone, Copy, Debug, PartialEq, Eq)]
pub struct Lost {
    pub found: u64,
}
