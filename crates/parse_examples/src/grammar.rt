//! The grammar, as tools/tables.py writes it from grammar.txt.

use c_parser::{Effect, Grammar, Symbol, Turn};

/// What a token is to the grammar.
#[derive(Clone, Copy, Debug, PartialEq, Eq)]
pub enum Class {
    Name,
    TypeName,
    Typedef,
    If,
    Else,
    LeftParen,
    RightParen,
    Comma,
    Semicolon,
}

/// A line of the grammar.
#[derive(Clone, Copy, Debug, PartialEq, Eq)]
pub enum Line {
    File,
    Items,
    Item,
    ElsePart,
    List,
    Members,
    MoreMembers,
    Member,
}

/// What is made where a part has been read.
#[derive(Clone, Copy, Debug, PartialEq, Eq)]
pub enum Action {
    Item,
    Typedef,
    List,
    IfElse,
    If,
    End,
    Member,
    Type,
}

static FILE: [&[Symbol<Class, Line, Action>]; 1] = [&[
    Symbol::Line(Line::Item),
    Symbol::Make(Action::Item),
    Symbol::Line(Line::Items),
]];

static ITEMS: [&[Symbol<Class, Line, Action>]; 2] = [
    &[
        Symbol::Line(Line::Item),
        Symbol::Make(Action::Item),
        Symbol::Line(Line::Items),
    ],
    &[],
];

static ITEM: [&[Symbol<Class, Line, Action>]; 3] = [
    &[
        Symbol::Token(Class::Typedef, Effect::Nothing),
        Symbol::Token(Class::Name, Effect::Declares),
        Symbol::Token(Class::Semicolon, Effect::Nothing),
        Symbol::Turn(Turn::Learn),
        Symbol::Make(Action::Typedef),
    ],
    &[
        Symbol::Line(Line::List),
        Symbol::Token(Class::Semicolon, Effect::Nothing),
        Symbol::Make(Action::List),
    ],
    &[
        Symbol::Turn(Turn::Enter),
        Symbol::Token(Class::If, Effect::Opens),
        Symbol::Line(Line::Item),
        Symbol::Line(Line::ElsePart),
        Symbol::Turn(Turn::Leave),
    ],
];

static ELSE_PART: [&[Symbol<Class, Line, Action>]; 2] = [
    &[
        Symbol::Token(Class::Else, Effect::Nothing),
        Symbol::Line(Line::Item),
        Symbol::Make(Action::IfElse),
    ],
    &[Symbol::NotNext(Class::Else), Symbol::Make(Action::If)],
];

static LIST: [&[Symbol<Class, Line, Action>]; 1] = [&[
    Symbol::Turn(Turn::Enter),
    Symbol::Token(Class::LeftParen, Effect::Opens),
    Symbol::Line(Line::Members),
]];

static MEMBERS: [&[Symbol<Class, Line, Action>]; 2] = [
    &[
        Symbol::Token(Class::RightParen, Effect::Nothing),
        Symbol::Turn(Turn::Leave),
        Symbol::Make(Action::End),
    ],
    &[
        Symbol::Line(Line::Member),
        Symbol::Make(Action::Member),
        Symbol::Line(Line::MoreMembers),
    ],
];

static MORE_MEMBERS: [&[Symbol<Class, Line, Action>]; 2] = [
    &[
        Symbol::Token(Class::Comma, Effect::Nothing),
        Symbol::Line(Line::Member),
        Symbol::Make(Action::Member),
        Symbol::Line(Line::MoreMembers),
    ],
    &[
        Symbol::Token(Class::RightParen, Effect::Nothing),
        Symbol::Turn(Turn::Leave),
        Symbol::Make(Action::End),
    ],
];

static MEMBER: [&[Symbol<Class, Line, Action>]; 3] = [
    &[Symbol::Token(Class::Name, Effect::Nothing)],
    &[
        Symbol::Token(Class::TypeName, Effect::Nothing),
        Symbol::Make(Action::Type),
    ],
    &[Symbol::Line(Line::List)],
];

static FILE_FIRST: [Class; 3] = [Class::Typedef, Class::If, Class::LeftParen];

static FILE_FOLLOW: [Class; 0] = [];

static ITEMS_FIRST: [Class; 3] = [Class::Typedef, Class::If, Class::LeftParen];

static ITEMS_FOLLOW: [Class; 0] = [];

static ITEM_FIRST: [Class; 3] = [Class::Typedef, Class::If, Class::LeftParen];

static ITEM_FOLLOW: [Class; 4] = [Class::Typedef, Class::If, Class::Else, Class::LeftParen];

static ELSE_PART_FIRST: [Class; 1] = [Class::Else];

static ELSE_PART_FOLLOW: [Class; 4] = [Class::Typedef, Class::If, Class::Else, Class::LeftParen];

static LIST_FIRST: [Class; 1] = [Class::LeftParen];

static LIST_FOLLOW: [Class; 3] = [Class::RightParen, Class::Comma, Class::Semicolon];

static MEMBERS_FIRST: [Class; 4] = [
    Class::Name,
    Class::TypeName,
    Class::LeftParen,
    Class::RightParen,
];

static MEMBERS_FOLLOW: [Class; 3] = [Class::RightParen, Class::Comma, Class::Semicolon];

static MORE_MEMBERS_FIRST: [Class; 2] = [Class::RightParen, Class::Comma];

static MORE_MEMBERS_FOLLOW: [Class; 3] = [Class::RightParen, Class::Comma, Class::Semicolon];

static MEMBER_FIRST: [Class; 3] = [Class::Name, Class::TypeName, Class::LeftParen];

static MEMBER_FOLLOW: [Class; 2] = [Class::RightParen, Class::Comma];

/// The grammar of grammar.txt.
#[derive(Clone, Copy, Debug, PartialEq, Eq)]
pub struct Lists;

impl Grammar for Lists {
    ghost use Rattle.parse_examples.specs.Grammar.{rules, table};
    ghost use Rattle.parse_examples.specs.GrammarHolds.{is_right};

    type Class = Class;

    type Line = Line;

    type Action = Action;

    ghost rules = { rules };

    ghost table = { table };

    ghost right = { is_right };

    #[tactic(auto, unfolding(crate::specs::Grammar::rules, crate::specs::Grammar::number))]
    fn number(class: Class) -> u8 {
        match class {
            Class::Name => 0,
            Class::TypeName => 1,
            Class::Typedef => 2,
            Class::If => 3,
            Class::Else => 4,
            Class::LeftParen => 5,
            Class::RightParen => 6,
            Class::Comma => 7,
            Class::Semicolon => 8,
        }
    }

    #[tactic(auto, unfolding(crate::specs::Grammar::rules))]
    fn name() -> Class {
        Class::Name
    }

    #[tactic(auto, unfolding(crate::specs::Grammar::rules))]
    fn type_name() -> Class {
        Class::TypeName
    }

    #[tactic(auto, unfolding(crate::specs::Grammar::rules))]
    fn start() -> Line {
        Line::File
    }

    #[tactic(auto, unfolding(crate::specs::Grammar::rules, crate::specs::Grammar::lines))]
    fn alternatives(line: Line) -> &'static [&'static [Symbol<Class, Line, Action>]] {
        match line {
            Line::File => &FILE,
            Line::Items => &ITEMS,
            Line::Item => &ITEM,
            Line::ElsePart => &ELSE_PART,
            Line::List => &LIST,
            Line::Members => &MEMBERS,
            Line::MoreMembers => &MORE_MEMBERS,
            Line::Member => &MEMBER,
        }
    }

    #[tactic(auto, unfolding(crate::specs::Grammar::table, crate::specs::Grammar::first))]
    fn first(line: Line) -> &'static [Class] {
        match line {
            Line::File => &FILE_FIRST,
            Line::Items => &ITEMS_FIRST,
            Line::Item => &ITEM_FIRST,
            Line::ElsePart => &ELSE_PART_FIRST,
            Line::List => &LIST_FIRST,
            Line::Members => &MEMBERS_FIRST,
            Line::MoreMembers => &MORE_MEMBERS_FIRST,
            Line::Member => &MEMBER_FIRST,
        }
    }

    #[tactic(auto, unfolding(crate::specs::Grammar::table, crate::specs::Grammar::follow))]
    fn follow(line: Line) -> &'static [Class] {
        match line {
            Line::File => &FILE_FOLLOW,
            Line::Items => &ITEMS_FOLLOW,
            Line::Item => &ITEM_FOLLOW,
            Line::ElsePart => &ELSE_PART_FOLLOW,
            Line::List => &LIST_FOLLOW,
            Line::Members => &MEMBERS_FOLLOW,
            Line::MoreMembers => &MORE_MEMBERS_FOLLOW,
            Line::Member => &MEMBER_FOLLOW,
        }
    }

    #[tactic(auto, unfolding(crate::specs::Grammar::table, crate::specs::Grammar::empty))]
    fn is_empty(line: Line) -> bool {
        match line {
            Line::File => false,
            Line::Items => true,
            Line::Item => false,
            Line::ElsePart => true,
            Line::List => false,
            Line::Members => false,
            Line::MoreMembers => false,
            Line::Member => false,
        }
    }
}
