//! Laws.

ghost use Rattle.command_words.specs.Laws.{OneCommand};

/// The same words are one command at most.
pub fn one_command()
    ensures { OneCommand }
{}
