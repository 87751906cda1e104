// All that a sink is to take.
ghost use Rattle.std.specs.Prelude.{◌≡◌, ◌≤◌, ℕ, take, true, false};
ghost use Rattle.std.specs.Io.KnownBytes.{Appends};
ghost use Rattle.bow_units.specs.Causes.{Rose};

use bow_units::Sink;

/// Puts all the bytes. `false` where the sink failed or took none; it has taken a front of them then.
pub(crate) fn put_all<W: Sink>(sink: &mut W, bytes: &[u8]) -> bool
    ensures all { result ≡ true → Appends (W.contents sink.old) (W.contents sink.new) bytes.now }
    ensures front { (n : ℕ) × Appends (W.contents sink.old) (W.contents sink.new) (take n bytes.now) }
    ensures faults { W.faults sink.old ≤ W.faults sink.new }
    ensures cause { result ≡ false → Rose (W.faults sink.old) (W.faults sink.new) }
{
    let mut at = 0;
    while at < bytes.len() {
        let Ok(count) = sink.put(&bytes[at..]) else {
            return false;
        };
        if count == 0 {
            return false;
        }
        at += count;
    }
    true
}
