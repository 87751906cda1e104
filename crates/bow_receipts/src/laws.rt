// What holds of a history whose requests come one by one.
ghost use Rattle.bow_receipts.specs.Asking.{HistoriesAreLegal, HistoriesCountFaults, HistoriesGoInOrder};
ghost use Rattle.bow_receipts.specs.Asking.{LoadedIsHistory, TurnsKeepHistory};
ghost use Rattle.bow_receipts.specs.Calls.{CallsRise, CallsStand};

/// A device in which no request waits begins a history, whatever its callers will ask. Each turn that keeps the
/// contract of a session's turn, whatever is asked later, leads from a history to one; and so what was done is legal,
/// with what was asked so far as its requests, from the state for which the device stood when the history began. Over
/// any disk each caller's requests are answered in its order, each once, and faults are counted.
pub fn history_law()
    ensures loaded { LoadedIsHistory }
    ensures turns { TurnsKeepHistory }
    ensures legal { HistoriesAreLegal }
    ensures order { HistoriesGoInOrder }
    ensures faults { HistoriesCountFaults }
{}

/// The calls of a journal are its answers, each at its place, in its order.
pub fn calls_law()
    ensures stand { CallsStand }
    ensures rise { CallsRise }
{}
