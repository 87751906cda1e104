// Words as a shell would give them, each line with the command that it asks for.
use bow_words::{Command, WordsFault, read_words};
use std::alloc::Global;
use std::test::Fail;

// What the words of a line ask for, which a bar parts from one another.
fn asked(alloc: Global, line: &str) -> Result<Result<Command, WordsFault>, Fail> {
    let mut words: Vec<String> = Vec::new(alloc);
    for word in line.split("|") {
        words.push(word.to_string(alloc)?)?;
    }
    Ok(read_words(alloc, words.as_slice()))
}

#[test]
fn words_ask_for_commands(rt: HostRuntime) -> Result<(), Fail> {
    for (line, command) in [
        ("i|a|512|play|0", Command::Play(0)),
        (
            "||4096|play|18446744073709551615",
            Command::Play(0xffff_ffff_ffff_ffff),
        ),
        ("i|a|512|play|--|5", Command::Play(5)),
        ("i|a|512|play|5|--", Command::Play(5)),
        ("i|a|512|run|1", Command::Run(1)),
        ("i|a|512|run|8", Command::Run(8)),
        ("i|a|1024|restore", Command::Restore(None)),
        ("i|a|512|restore|--limit|3", Command::Restore(Some(3))),
        (
            "i|a|512|restore|--limit=4294967295",
            Command::Restore(Some(4_294_967_295)),
        ),
        ("i|a|2048|check", Command::Check),
        ("i|a|512|check|--", Command::Check),
        ("i|a|512|forward", Command::Forward),
        ("i|a|512|start|2147483646", Command::Start(2_147_483_646)),
        ("i|a|512|mark", Command::Mark),
        ("i|a|512|needs-checkpoint", Command::NeedsCheckpoint),
        ("i|a|512|needs-rollback", Command::NeedsRollback),
        ("i|a|512|abort", Command::Abort(false)),
        ("i|a|512|abort|--retry", Command::Abort(true)),
        ("i|a|512|boot", Command::Boot),
        ("i|a|512|drill|7", Command::Drill(7)),
    ] {
        assert_eq!(rt; asked(rt.alloc(), line)?, Ok(command));
    }
    Ok(())
}

#[test]
fn other_words_ask_for_nothing(rt: HostRuntime) -> Result<(), Fail> {
    for line in [
        "i|a|512",
        "i|a|512|",
        "i|a|513|check",
        "i|a|0512|check",
        "i|a|512|CHECK",
        "--|a|512|check|check",
        "i|a|512|check|--|--",
        "i|a|512|check|x",
        "i|a|512|check|--help",
        "i|a|512|check|-V",
        "i|a|512|play",
        "i|a|512|play|",
        "i|a|512|play|05",
        "i|a|512|play|-5",
        "i|a|512|play|--|-5",
        "i|a|512|play|5|6",
        "i|a|512|play|--number=5",
        "i|a|512|play|18446744073709551616",
        "i|a|512|restore|3",
        "i|a|512|restore|--limit",
        "i|a|512|restore|--limit=",
        "i|a|512|restore|--limit=0",
        "i|a|512|restore|--limit=4294967296",
        "i|a|512|restore|--limit|3|--limit|3",
        "i|a|512|restore|--|--limit|3",
        "i|a|512|restore|--lim|3",
        "i|a|512|start|2147483647",
        "i|a|512|abort|--retry|--retry",
        "i|a|512|abort|--retry=true",
        "i|a|512|run|0",
        "i|a|512|run|9",
        "i|a|512|run",
        "i|a|512|drill",
        "i|a|512|drill|07",
    ] {
        assert_eq!(rt; asked(rt.alloc(), line)?, Err(WordsFault::BadWords));
    }
    Ok(())
}
