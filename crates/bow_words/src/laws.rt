// What the words of the command line are, as laws.
ghost use Rattle.bow_words.specs.Words.{AskForOne};
ghost use Rattle.bow_words.specs.Plain.{AskInRange, PlainWordsAsk};

/// Laws on the words of the command line: no words ask for two commands; and the two paths, a block size, a command's
/// name, and its own words as a user writes them (a number, three numbers, `--limit K`, `--retry`, or none) ask for
/// that command; and the numbers of a command that words ask for are in their ranges.
pub fn words_law()
    ensures one { AskForOne }
    ensures plain { PlainWordsAsk }
    ensures range { AskInRange }
{}
