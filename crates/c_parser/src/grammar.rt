use crate::symbol::Symbol;

/// A grammar that one token of look-ahead is enough for.
///
/// `rules` is what it says. `table` is what may come first and next, which a reader needn't believe: `right` is its proof.
pub trait Grammar {
    ghost use Rattle.std.specs.Prelude.{◌≡◌, map};
    ghost use Rattle.c_parser.specs.Rules.{Rules};
    ghost use Rattle.c_parser.specs.LookAhead.{Table, IsRight};

    /// What a token is to the grammar.
    type Class: Copy + 'static;
    /// A line of the grammar.
    type Line: Copy + 'static;
    /// What a caller does where a part has been read.
    type Action: Copy + 'static;

    ghost rules: { Rules Self.Class Self.Line Self.Action };

    ghost table: { Table Self.Class Self.Line };

    /// Classes are equal where their numbers are.
    fn number(class: Self::Class) -> u8
        ensures { result ≡ rules.number class };

    /// The class of names.
    fn name() -> Self::Class
        ensures { result ≡ rules.name };

    /// The class of names that a typedef has declared.
    fn type_name() -> Self::Class
        ensures { result ≡ rules.type_name };

    /// The line of a whole file.
    fn start() -> Self::Line
        ensures { result ≡ rules.start };

    /// What a line may read, each as a row of symbols.
    fn alternatives(
        line: Self::Line,
    ) -> &'static [&'static [Symbol<Self::Class, Self::Line, Self::Action>]]
        ensures { map (λ row. row.now) result.now ≡ rules.lines line };

    /// The classes of tokens that may come first in a line.
    fn first(line: Self::Line) -> &'static [Self::Class]
        ensures { result.now ≡ table.first line };

    /// The classes of tokens that may come after a line.
    fn follow(line: Self::Line) -> &'static [Self::Class]
        ensures { result.now ≡ table.follow line };

    /// Whether a line may read nothing.
    fn is_empty(line: Self::Line) -> bool
        ensures { result ≡ table.empty line };

    ghost right: { IsRight rules table };
}
