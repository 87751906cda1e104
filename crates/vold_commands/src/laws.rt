// What boots, cut and begun again, make of the attempts and of the checkpoint.
ghost use Rattle.vold_commands.specs.BootLaws.{CallsAreCut, AttemptsNeverRise, BootsAnswer, BootsEnd, BootsKeep, BootsRollBack};

/// A law on boots, for a checkpoint in which block 0 is used and was saved without a magic. It does nothing.
///
/// - `calls`: a call of `boot` that was cut is a cut boot of the law, where the cut leaves an image of the device.
/// - `never_rise`: however often the system boots, cut or not, and whatever is written between, attempts never rise.
/// - `answer`: a boot that ends well answers and keeps what the marked attempts and block 0 say, whatever is held.
/// - `ends`: where the image held the checkpoint, it then has it in place, and no log is left.
/// - `keeps`: however often a boot is cut and begun again, the checkpoint is held. Where attempts were kept, none are
///   left only where the checkpoint is in place and no log is left.
/// - `rolls_back`: once attempts are 0, the next boot that ends well, however often a boot was cut before, has the
///   checkpoint in place and keeps no attempts. It answers that it rolled back, or that it was a plain boot where a cut
///   had left no attempts already: the boot that rolled back was then cut after that.
pub fn boots_law()
    ensures calls { CallsAreCut }
    ensures never_rise { AttemptsNeverRise }
    ensures answer { BootsAnswer }
    ensures ends { BootsEnd }
    ensures keeps { BootsKeep }
    ensures rolls_back { BootsRollBack }
{}
