// What holds of the device, of restorations and of boots together.
ghost use Rattle.bow_return.specs.Laws.{HeldFromTheCheckpoint, HeldFromAnyCut, BootsBringBack};

/// Cut the device before its decision, then cut restorations as often as may be: the checkpoint is held, block 0 among
/// it, and plain. And once no attempts are left, the next boot that ends well has it in place, however often one was
/// cut before.
pub fn comes_back_law()
    ensures image { HeldFromTheCheckpoint }
    ensures machine { HeldFromAnyCut }
    ensures boots { BootsBringBack }
{}
