// A status as the words of the cell.
ghost use Rattle.std.specs.Prelude.{◌≡◌, ◌<◌, ◌^◌, [], ◌∷◌};
ghost use Rattle.bow_status.specs.Codes.{code};

use bow_units::Phase;
use crossbeam_utils::atomic::Words;

#[derive(Clone, Copy)]
pub struct Shown {
    pub version: u64,
    pub phase: Phase,
    pub free: u64,
    pub sequence: u64,
    pub entries: u64,
    ghost small_sequence: { sequence < 2 ^ 32 },
    ghost small_entries: { entries < 2 ^ 32 },
}

impl Words<5> for Shown {
    ghost words = { λ s. s.version ∷ code s.phase ∷ s.free ∷ s.sequence ∷ s.entries ∷ [] };

    fn to_words(self) -> [u64; 5] {
        let phase = match self.phase {
            Phase::Trim => 0,
            Phase::Arming => 1,
            Phase::Checkpoint => 2,
            Phase::Deciding => 3,
            Phase::Committed => 4,
        };
        [self.version, phase, self.free, self.sequence, self.entries]
    }

    fn from_words(bits: &[u64; 5]) -> Shown {
        Shown {
            version: bits[0],
            phase: phase_of(bits[1]),
            free: bits[2],
            sequence: bits[3],
            entries: bits[4],
        }
    }
}

fn phase_of(word: u64) -> Phase
    requires { (p : Phase) × (word ≡ code p) }
    ensures { code result ≡ word }
{
    match word {
        0 => Phase::Trim,
        1 => Phase::Arming,
        2 => Phase::Checkpoint,
        3 => Phase::Deciding,
        4 => Phase::Committed,
        _ => unreachable!(),
    }
}
