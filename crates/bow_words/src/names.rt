// The names of the commands.
ghost use Rattle.std.specs.Prelude.{◌≡◌, IfSome, IfNone};
ghost use Rattle.bow_words.specs.Names.{text_of};
ghost use Rattle.bow_words.specs.declared.names.Name.{Name};

/// A command's name.
#[derive(Clone, Copy, Debug, PartialEq, Eq)]
pub(crate) enum Name {
    Play,
    Run,
    Restore,
    Check,
    Forward,
    Start,
    Mark,
    NeedsCheckpoint,
    NeedsRollback,
    Abort,
    Boot,
    Drill,
    Past,
    Callers,
}

/// The name that a word is, and `None` where it is no command's name.
pub(crate) fn read_name(word: &str) -> Option<Name>
    ensures found { IfSome result (λ name. word.now ≡ text_of name) }
    ensures none { IfNone result ((name : Name) → word.now ≡ text_of name → ⊥) }
{
    match word {
        "play" => Some(Name::Play),
        "run" => Some(Name::Run),
        "restore" => Some(Name::Restore),
        "check" => Some(Name::Check),
        "forward" => Some(Name::Forward),
        "start" => Some(Name::Start),
        "mark" => Some(Name::Mark),
        "needs-checkpoint" => Some(Name::NeedsCheckpoint),
        "needs-rollback" => Some(Name::NeedsRollback),
        "abort" => Some(Name::Abort),
        "boot" => Some(Name::Boot),
        "drill" => Some(Name::Drill),
        "past" => Some(Name::Past),
        "callers" => Some(Name::Callers),
        _ => None,
    }
}
