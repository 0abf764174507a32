//! The options, and which commands take them.

ghost use Rattle.std.specs.Prelude.{◌≡◌};
ghost use Rattle.command_words.specs.Commands.{same_flag};
ghost use Rattle.command_words.specs.Options.{has_value, takes};
ghost use Rattle.command_words.specs.Spellings.{flag_named};

/// What a command does.
#[derive(Clone, Copy, Debug, PartialEq, Eq)]
pub enum Verb {
    Compare,
    Run,
}

/// An option.
#[derive(Clone, Copy, Debug, PartialEq, Eq)]
pub enum Flag {
    Map,
    Steps,
}

impl Verb {
    /// Whether the command takes this option.
    pub fn takes(self, flag: Flag) -> bool
        ensures { result ≡ takes self flag }
    {
        match (self, flag) {
            (Verb::Compare, Flag::Map) => true,
            (Verb::Compare, Flag::Steps) => false,
            (Verb::Run, Flag::Map) => false,
            (Verb::Run, Flag::Steps) => true,
        }
    }
}

impl Flag {
    /// The option of this name.
    pub fn named(name: &str) -> Option<Flag>
        ensures { result ≡ flag_named name.now }
    {
        if name == "map" {
            return Some(Flag::Map);
        }
        if name == "steps" {
            return Some(Flag::Steps);
        }
        None
    }

    /// Whether it is this option.
    pub fn is(self, other: Flag) -> bool
        ensures { result ≡ same_flag self other }
    {
        match (self, other) {
            (Flag::Map, Flag::Map) => true,
            (Flag::Steps, Flag::Steps) => true,
            _ => false,
        }
    }

    /// Whether the option has a value.
    pub fn has_value(self) -> bool
        ensures { result ≡ has_value self }
    {
        match self {
            Flag::Map => true,
            Flag::Steps => true,
        }
    }
}
