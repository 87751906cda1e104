// Which candidate of each block a cut takes.
ghost use Rattle.std.specs.Prelude.{◌≡◌, ◌+◌, ◌%◌, nat_lt, if◌then◌else◌};
ghost use Rattle.bow_units.specs.Draws.{next_number, drawn_value};
ghost use Rattle.bow_disk.specs.Cuts.{choice, after_choice};
ghost use Rattle.bow_disk.specs.Picking.{pick_of};

use bow_units::Draws;

/// Which crash image a cut leaves, of those that it may.
#[derive(Clone, Copy, Debug, PartialEq, Eq)]
pub enum Pick {
    /// The first candidate of each block: nothing of what was written since the last flush.
    Oldest,
    /// The last candidate of each block: all that was written.
    Newest,
    /// For each block with more than one candidate, from block 0 on, one drawn from this number.
    Seeded(u64),
}

// A pick that goes on from block to block.
#[derive(Drop)]
pub(crate) enum Picker {
    Oldest,
    Newest,
    Seeded(Draws),
}

impl Picker {
    pub(crate) fn new(pick: Pick) -> Picker
        ensures { pick_of result ≡ pick }
    {
        match pick {
            Pick::Oldest => Picker::Oldest,
            Pick::Newest => Picker::Newest,
            Pick::Seeded(number) => Picker::Seeded(Draws::new(number)),
        }
    }

    // Which of its candidates the next block takes, of which the last one has this number.
    pub(crate) fn choose(&mut self, last: usize) -> usize
        ensures choice { result ≡ choice (pick_of self.old) (last + 1) }
        ensures after { pick_of self.new ≡ after_choice (pick_of self.old) (last + 1) }
    {
        match self {
            Picker::Oldest => 0,
            Picker::Newest => last,
            Picker::Seeded(draws) => drawn(draws, last),
        }
    }
}

// Draws a number up to the last one, where there is more than one.
fn drawn(draws: &mut Draws, last: usize) -> usize
    ensures value { result ≡ (if nat_lt 1 (last + 1) then drawn_value (next_number draws.old) % (last + 1) else 0) }
    ensures after { draws.new ≡ (if nat_lt 1 (last + 1) then next_number draws.old else draws.old) }
{
    if last == 0 {
        return 0;
    }
    draws.draw(last.min(u32::MAX as usize - 1) as u32 + 1) as usize
}
