// When a lane may post its next request.
ghost use Rattle.std.specs.Prelude.{◌≡◌, true};

use crate::Seen;

/// Asked before lane `lane` posts its request `number`, again and again until it says `true`.
/// It is asked for `number + 1` only after the reply to `number`.
pub trait Gate {
    /// Whether the lane may post that request now. `seen` is the last status that the lane saw.
    fn may_start(&self, lane: u32, number: u32, seen: Seen) -> bool;
}

/// Lets every request start at once.
#[derive(Clone, Copy, Debug)]
pub struct OpenGate;

impl Gate for OpenGate {
    fn may_start(&self, _lane: u32, _number: u32, _seen: Seen) -> bool
        ensures { result ≡ true }
    {
        true
    }
}
