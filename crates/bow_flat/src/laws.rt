// What holds of flat states, whatever device stands for them.
ghost use Rattle.bow_flat.specs.Laws.{EventsKeepValid, OpeningIsValid};

/// The events of a legal journal lead from a valid state to a valid state, and the state of a device that is opened on
/// an image without a magic in block 0 is valid.
pub fn validity_law()
    ensures events { EventsKeepValid }
    ensures opening { OpeningIsValid }
{}
