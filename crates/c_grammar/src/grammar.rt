//! The grammar, as tools/tables.py writes it from grammar.txt.

use c_parser::{Effect, Grammar, Symbol, Turn};

/// What a token is to the grammar.
#[derive(Clone, Copy, Debug, PartialEq, Eq)]
pub enum Class {
    Name,
    TypeName,
    Constant,
    Typedef,
    Static,
    Inline,
    Extern,
    Register,
    Const,
    Restrict,
    Struct,
    Enum,
    Void,
    Bool,
    Char,
    Short,
    Int,
    Long,
    Signed,
    Unsigned,
    If,
    ElseIf,
    Else,
    While,
    Do,
    For,
    Switch,
    Case,
    Default,
    Break,
    Continue,
    Return,
    Sizeof,
    LeftParen,
    RightParen,
    LeftBrace,
    RightBrace,
    LeftBracket,
    RightBracket,
    Semicolon,
    Comma,
    Colon,
    Question,
    Dot,
    Arrow,
    Increment,
    Decrement,
    Tilde,
    Exclamation,
    Star,
    Slash,
    Percent,
    Plus,
    Minus,
    ShiftLeft,
    ShiftRight,
    Less,
    Greater,
    LessEqual,
    GreaterEqual,
    EqualEqual,
    NotEqual,
    Ampersand,
    Caret,
    Bar,
    AndAnd,
    OrOr,
    Equal,
    StarEqual,
    SlashEqual,
    PercentEqual,
    PlusEqual,
    MinusEqual,
    ShiftLeftEqual,
    ShiftRightEqual,
    AmpersandEqual,
    CaretEqual,
    BarEqual,
    Other,
}

/// A line of the grammar.
#[derive(Clone, Copy, Debug, PartialEq, Eq)]
pub enum Line {
    File,
    Items,
    Item,
    AfterStatic,
    Specifiers,
    AfterBase,
    Declared,
    AfterName,
    FunctionEnd,
    NewDeclarator,
    MoreNewDeclarators,
    Params,
    AfterVoid,
    MoreParams,
    Param,
    ParamRest,
    ParamName,
    Base,
    BaseWords,
    BaseNoVoid,
    NoVoidWords,
    NoVoid,
    ItemBase,
    ItemBaseWords,
    TypedefBase,
    TypedefBaseWords,
    StructRest,
    StructBody,
    Field,
    Fields,
    Declarator,
    MoreDeclarators,
    EnumRest,
    EnumBody,
    Enumerator,
    EnumeratorValue,
    MoreEnumerators,
    EnumeratorsNext,
    Consts,
    Qualifiers,
    Dims,
    DimEnd,
    Words,
    WordsChar,
    WordsSign,
    WordsShort,
    WordsSignShort,
    WordsShortInt,
    WordsInt,
    WordsSignInt,
    WordsLong,
    WordsSignLong,
    WordsLongInt,
    WordsSignLongInt,
    WordsLongLong,
    WordsSignLongLong,
    WordsLongLongInt,
    Block,
    Parts,
    Local,
    Init,
    InitValue,
    MoreInits,
    Value,
    MoreValues,
    ValuesNext,
    Stmt,
    IfStmt,
    ElsePart,
    ReturnRest,
    ForStart,
    ForTest,
    ForStep,
    Groups,
    GroupLabels,
    GroupParts,
    Label,
    Acts,
    MoreActs,
    Act,
    ActParen,
    ActRest,
    Assign,
    Cond,
    CondRest,
    Question,
    OrTail,
    And,
    AndTail,
    BitOr,
    BitOrTail,
    Xor,
    XorTail,
    BitAnd,
    BitAndTail,
    Equality,
    EqualityTail,
    Relational,
    RelationalTail,
    Shift,
    ShiftTail,
    Sum,
    SumTail,
    Product,
    ProductTail,
    Unary,
    AfterParen,
    NonParen,
    AfterSizeof,
    SizeofParen,
    Type,
    TypeNoVoid,
    TypeRest,
    TypeDims,
    PostfixTail,
    Primary,
    NameTail,
    Arguments,
    MoreArguments,
}

/// What is made where a part has been read.
#[derive(Clone, Copy, Debug, PartialEq, Eq)]
pub enum Action {
    AddDeclarator,
    Keep,
    BaseAlone,
    Pointer,
    NoDims,
    Declarator,
    Objects,
    NoPointer,
    Prototype,
    Function,
    Typedef,
    NoParams,
    NewBase,
    LoneVoid,
    Void,
    Params,
    NamedParam,
    BareParam,
    Const,
    Named,
    Begin,
    StructTag,
    EnumTag,
    NoStructTag,
    Field,
    Fields,
    NoEnumTag,
    EnumeratorWith,
    EnumeratorBare,
    Enumerators,
    PointerConst,
    OpenDim,
    Dim,
    Word,
    NoParts,
    AddLocal,
    AddStmt,
    Block,
    InitWith,
    InitBare,
    Declaration,
    CondValue,
    NoValues,
    AddValue,
    Braces,
    Empty,
    ActStmt,
    Break,
    Continue,
    While,
    Do,
    For,
    NoGroups,
    Switch,
    IfElse,
    If,
    Return,
    ReturnValue,
    ForLocal,
    ForActs,
    ForNothing,
    ForCond,
    ForEver,
    ForStep,
    NoStep,
    NoLabels,
    AddLabel,
    AddGroup,
    Case,
    Default,
    AddAct,
    StepBefore,
    Discard,
    Cast,
    Paren,
    Assign,
    StepAfter,
    Evaluate,
    Conditional,
    Binary,
    Unary,
    Sizeof,
    SizeofType,
    Type,
    Index,
    Dot,
    Arrow,
    Constant,
    NoArguments,
    Name,
    Call,
    AddArgument,
}

static FILE: [&[Symbol<Class, Line, Action>]; 1] = [&[Symbol::Line(Line::Items)]];

static ITEMS: [&[Symbol<Class, Line, Action>]; 2] = [
    &[Symbol::Line(Line::Item), Symbol::Line(Line::Items)],
    &[],
];

static ITEM: [&[Symbol<Class, Line, Action>]; 5] = [
    &[
        Symbol::Token(Class::Typedef, Effect::Nothing),
        Symbol::Line(Line::TypedefBase),
        Symbol::Line(Line::NewDeclarator),
        Symbol::Make(Action::AddDeclarator),
        Symbol::Line(Line::MoreNewDeclarators),
    ],
    &[
        Symbol::Token(Class::Static, Effect::Nothing),
        Symbol::Line(Line::AfterStatic),
    ],
    &[
        Symbol::Token(Class::Inline, Effect::Nothing),
        Symbol::Line(Line::Specifiers),
    ],
    &[
        Symbol::Token(Class::Extern, Effect::Nothing),
        Symbol::Line(Line::Specifiers),
    ],
    &[Symbol::Line(Line::ItemBase), Symbol::Line(Line::AfterBase)],
];

static AFTER_STATIC: [&[Symbol<Class, Line, Action>]; 4] = [
    &[
        Symbol::Token(Class::Static, Effect::Nothing),
        Symbol::Line(Line::Specifiers),
    ],
    &[
        Symbol::Token(Class::Inline, Effect::Nothing),
        Symbol::Line(Line::Specifiers),
    ],
    &[
        Symbol::Token(Class::Extern, Effect::Nothing),
        Symbol::Line(Line::Specifiers),
    ],
    &[Symbol::Line(Line::ItemBase), Symbol::Line(Line::Declared)],
];

static SPECIFIERS: [&[Symbol<Class, Line, Action>]; 4] = [
    &[
        Symbol::Token(Class::Static, Effect::Nothing),
        Symbol::Line(Line::Specifiers),
    ],
    &[
        Symbol::Token(Class::Inline, Effect::Nothing),
        Symbol::Line(Line::Specifiers),
    ],
    &[
        Symbol::Token(Class::Extern, Effect::Nothing),
        Symbol::Line(Line::Specifiers),
    ],
    &[
        Symbol::Line(Line::ItemBase),
        Symbol::Token(Class::Name, Effect::Nothing),
        Symbol::Make(Action::Keep),
        Symbol::Turn(Turn::Enter),
        Symbol::Token(Class::LeftParen, Effect::Opens),
        Symbol::Line(Line::Params),
    ],
];

static AFTER_BASE: [&[Symbol<Class, Line, Action>]; 2] = [
    &[
        Symbol::Token(Class::Semicolon, Effect::Nothing),
        Symbol::Make(Action::BaseAlone),
    ],
    &[Symbol::Line(Line::Declared)],
];

static DECLARED: [&[Symbol<Class, Line, Action>]; 2] = [
    &[
        Symbol::Token(Class::Name, Effect::Nothing),
        Symbol::Make(Action::Keep),
        Symbol::Line(Line::AfterName),
    ],
    &[
        Symbol::Token(Class::Star, Effect::Nothing),
        Symbol::Make(Action::Pointer),
        Symbol::Line(Line::Qualifiers),
        Symbol::Token(Class::Name, Effect::Nothing),
        Symbol::Make(Action::Keep),
        Symbol::Make(Action::NoDims),
        Symbol::Line(Line::Dims),
        Symbol::Make(Action::Declarator),
        Symbol::Line(Line::InitValue),
        Symbol::Line(Line::MoreInits),
        Symbol::Make(Action::Objects),
    ],
];

static AFTER_NAME: [&[Symbol<Class, Line, Action>]; 2] = [
    &[
        Symbol::Turn(Turn::Enter),
        Symbol::Token(Class::LeftParen, Effect::Opens),
        Symbol::Line(Line::Params),
    ],
    &[
        Symbol::Make(Action::NoPointer),
        Symbol::Make(Action::NoDims),
        Symbol::Line(Line::Dims),
        Symbol::Make(Action::Declarator),
        Symbol::Line(Line::InitValue),
        Symbol::Line(Line::MoreInits),
        Symbol::Make(Action::Objects),
    ],
];

static FUNCTION_END: [&[Symbol<Class, Line, Action>]; 2] = [
    &[
        Symbol::Token(Class::Semicolon, Effect::Nothing),
        Symbol::Make(Action::Prototype),
    ],
    &[Symbol::Line(Line::Block), Symbol::Make(Action::Function)],
];

static NEW_DECLARATOR: [&[Symbol<Class, Line, Action>]; 2] = [
    &[
        Symbol::Token(Class::Name, Effect::Declares),
        Symbol::Make(Action::Keep),
        Symbol::Make(Action::NoPointer),
        Symbol::Make(Action::NoDims),
        Symbol::Line(Line::Dims),
        Symbol::Make(Action::Declarator),
    ],
    &[
        Symbol::Token(Class::Star, Effect::Nothing),
        Symbol::Make(Action::Pointer),
        Symbol::Line(Line::Qualifiers),
        Symbol::Token(Class::Name, Effect::Declares),
        Symbol::Make(Action::Keep),
        Symbol::Make(Action::NoDims),
        Symbol::Line(Line::Dims),
        Symbol::Make(Action::Declarator),
    ],
];

static MORE_NEW_DECLARATORS: [&[Symbol<Class, Line, Action>]; 2] = [
    &[
        Symbol::Token(Class::Comma, Effect::Nothing),
        Symbol::Line(Line::NewDeclarator),
        Symbol::Make(Action::AddDeclarator),
        Symbol::Line(Line::MoreNewDeclarators),
    ],
    &[
        Symbol::Token(Class::Semicolon, Effect::Nothing),
        Symbol::Turn(Turn::Learn),
        Symbol::Make(Action::Typedef),
    ],
];

static PARAMS: [&[Symbol<Class, Line, Action>]; 4] = [
    &[
        Symbol::Token(Class::RightParen, Effect::Nothing),
        Symbol::Turn(Turn::Leave),
        Symbol::Make(Action::NoParams),
        Symbol::Line(Line::FunctionEnd),
    ],
    &[
        Symbol::Make(Action::NewBase),
        Symbol::Token(Class::Void, Effect::Nothing),
        Symbol::Line(Line::AfterVoid),
    ],
    &[
        Symbol::Token(Class::Register, Effect::Nothing),
        Symbol::Line(Line::Base),
        Symbol::Line(Line::ParamRest),
        Symbol::Line(Line::MoreParams),
    ],
    &[
        Symbol::Line(Line::BaseNoVoid),
        Symbol::Line(Line::ParamRest),
        Symbol::Line(Line::MoreParams),
    ],
];

static AFTER_VOID: [&[Symbol<Class, Line, Action>]; 2] = [
    &[
        Symbol::Token(Class::RightParen, Effect::Nothing),
        Symbol::Turn(Turn::Leave),
        Symbol::Make(Action::LoneVoid),
        Symbol::Line(Line::FunctionEnd),
    ],
    &[
        Symbol::NotNext(Class::RightParen),
        Symbol::Make(Action::Void),
        Symbol::Line(Line::Consts),
        Symbol::Line(Line::ParamRest),
        Symbol::Line(Line::MoreParams),
    ],
];

static MORE_PARAMS: [&[Symbol<Class, Line, Action>]; 2] = [
    &[
        Symbol::Token(Class::Comma, Effect::Nothing),
        Symbol::Line(Line::Param),
        Symbol::Line(Line::MoreParams),
    ],
    &[
        Symbol::Token(Class::RightParen, Effect::Nothing),
        Symbol::Turn(Turn::Leave),
        Symbol::Make(Action::Params),
        Symbol::Line(Line::FunctionEnd),
    ],
];

static PARAM: [&[Symbol<Class, Line, Action>]; 2] = [
    &[
        Symbol::Token(Class::Register, Effect::Nothing),
        Symbol::Line(Line::Base),
        Symbol::Line(Line::ParamRest),
    ],
    &[Symbol::Line(Line::Base), Symbol::Line(Line::ParamRest)],
];

static PARAM_REST: [&[Symbol<Class, Line, Action>]; 2] = [
    &[
        Symbol::Token(Class::Star, Effect::Nothing),
        Symbol::Make(Action::Pointer),
        Symbol::Line(Line::Qualifiers),
        Symbol::Line(Line::ParamName),
    ],
    &[
        Symbol::Make(Action::NoPointer),
        Symbol::Line(Line::ParamName),
    ],
];

static PARAM_NAME: [&[Symbol<Class, Line, Action>]; 2] = [
    &[
        Symbol::Token(Class::Name, Effect::Nothing),
        Symbol::Make(Action::Keep),
        Symbol::Make(Action::NoDims),
        Symbol::Line(Line::Dims),
        Symbol::Make(Action::NamedParam),
    ],
    &[
        Symbol::Make(Action::NoDims),
        Symbol::Line(Line::Dims),
        Symbol::Make(Action::BareParam),
    ],
];

static BASE: [&[Symbol<Class, Line, Action>]; 1] = [&[
    Symbol::Make(Action::NewBase),
    Symbol::Line(Line::BaseWords),
]];

static BASE_WORDS: [&[Symbol<Class, Line, Action>]; 3] = [
    &[
        Symbol::Token(Class::Const, Effect::Nothing),
        Symbol::Make(Action::Const),
        Symbol::Line(Line::BaseWords),
    ],
    &[
        Symbol::Token(Class::Void, Effect::Nothing),
        Symbol::Make(Action::Void),
        Symbol::Line(Line::Consts),
    ],
    &[Symbol::Line(Line::NoVoid)],
];

static BASE_NO_VOID: [&[Symbol<Class, Line, Action>]; 1] = [&[
    Symbol::Make(Action::NewBase),
    Symbol::Line(Line::NoVoidWords),
]];

static NO_VOID_WORDS: [&[Symbol<Class, Line, Action>]; 2] = [
    &[
        Symbol::Token(Class::Const, Effect::Nothing),
        Symbol::Make(Action::Const),
        Symbol::Line(Line::BaseWords),
    ],
    &[Symbol::Line(Line::NoVoid)],
];

static NO_VOID: [&[Symbol<Class, Line, Action>]; 4] = [
    &[Symbol::Line(Line::Words)],
    &[
        Symbol::Token(Class::TypeName, Effect::Nothing),
        Symbol::Make(Action::Named),
        Symbol::Line(Line::Consts),
    ],
    &[
        Symbol::Token(Class::Struct, Effect::Nothing),
        Symbol::Make(Action::Begin),
        Symbol::Token(Class::Name, Effect::Nothing),
        Symbol::Make(Action::StructTag),
        Symbol::Line(Line::Consts),
    ],
    &[
        Symbol::Token(Class::Enum, Effect::Nothing),
        Symbol::Make(Action::Begin),
        Symbol::Token(Class::Name, Effect::Nothing),
        Symbol::Make(Action::EnumTag),
        Symbol::Line(Line::Consts),
    ],
];

static ITEM_BASE: [&[Symbol<Class, Line, Action>]; 1] = [&[
    Symbol::Make(Action::NewBase),
    Symbol::Line(Line::ItemBaseWords),
]];

static ITEM_BASE_WORDS: [&[Symbol<Class, Line, Action>]; 6] = [
    &[
        Symbol::Token(Class::Const, Effect::Nothing),
        Symbol::Make(Action::Const),
        Symbol::Line(Line::ItemBaseWords),
    ],
    &[
        Symbol::Token(Class::Void, Effect::Nothing),
        Symbol::Make(Action::Void),
        Symbol::Line(Line::Consts),
    ],
    &[Symbol::Line(Line::Words)],
    &[
        Symbol::Token(Class::TypeName, Effect::Nothing),
        Symbol::Make(Action::Named),
        Symbol::Line(Line::Consts),
    ],
    &[
        Symbol::Token(Class::Struct, Effect::Nothing),
        Symbol::Make(Action::Begin),
        Symbol::Token(Class::Name, Effect::Nothing),
        Symbol::Make(Action::StructTag),
        Symbol::Line(Line::StructBody),
        Symbol::Line(Line::Consts),
    ],
    &[
        Symbol::Token(Class::Enum, Effect::Nothing),
        Symbol::Make(Action::Begin),
        Symbol::Line(Line::EnumRest),
        Symbol::Line(Line::Consts),
    ],
];

static TYPEDEF_BASE: [&[Symbol<Class, Line, Action>]; 1] = [&[
    Symbol::Make(Action::NewBase),
    Symbol::Line(Line::TypedefBaseWords),
]];

static TYPEDEF_BASE_WORDS: [&[Symbol<Class, Line, Action>]; 6] = [
    &[
        Symbol::Token(Class::Const, Effect::Nothing),
        Symbol::Make(Action::Const),
        Symbol::Line(Line::TypedefBaseWords),
    ],
    &[
        Symbol::Token(Class::Void, Effect::Nothing),
        Symbol::Make(Action::Void),
        Symbol::Line(Line::Consts),
    ],
    &[Symbol::Line(Line::Words)],
    &[
        Symbol::Token(Class::TypeName, Effect::Nothing),
        Symbol::Make(Action::Named),
        Symbol::Line(Line::Consts),
    ],
    &[
        Symbol::Token(Class::Struct, Effect::Nothing),
        Symbol::Make(Action::Begin),
        Symbol::Line(Line::StructRest),
        Symbol::Line(Line::Consts),
    ],
    &[
        Symbol::Token(Class::Enum, Effect::Nothing),
        Symbol::Make(Action::Begin),
        Symbol::Line(Line::EnumRest),
        Symbol::Line(Line::Consts),
    ],
];

static STRUCT_REST: [&[Symbol<Class, Line, Action>]; 2] = [
    &[
        Symbol::Token(Class::Name, Effect::Nothing),
        Symbol::Make(Action::StructTag),
        Symbol::Line(Line::StructBody),
    ],
    &[
        Symbol::Make(Action::NoStructTag),
        Symbol::Turn(Turn::Enter),
        Symbol::Token(Class::LeftBrace, Effect::Opens),
        Symbol::Line(Line::Field),
        Symbol::Line(Line::Fields),
    ],
];

static STRUCT_BODY: [&[Symbol<Class, Line, Action>]; 2] = [
    &[
        Symbol::Turn(Turn::Enter),
        Symbol::Token(Class::LeftBrace, Effect::Opens),
        Symbol::Line(Line::Field),
        Symbol::Line(Line::Fields),
    ],
    &[],
];

static FIELD: [&[Symbol<Class, Line, Action>]; 1] = [&[
    Symbol::Line(Line::Base),
    Symbol::Line(Line::Declarator),
    Symbol::Make(Action::AddDeclarator),
    Symbol::Line(Line::MoreDeclarators),
    Symbol::Make(Action::Field),
]];

static FIELDS: [&[Symbol<Class, Line, Action>]; 2] = [
    &[Symbol::Line(Line::Field), Symbol::Line(Line::Fields)],
    &[
        Symbol::Token(Class::RightBrace, Effect::Nothing),
        Symbol::Turn(Turn::Leave),
        Symbol::Make(Action::Fields),
    ],
];

static DECLARATOR: [&[Symbol<Class, Line, Action>]; 2] = [
    &[
        Symbol::Token(Class::Name, Effect::Nothing),
        Symbol::Make(Action::Keep),
        Symbol::Make(Action::NoPointer),
        Symbol::Make(Action::NoDims),
        Symbol::Line(Line::Dims),
        Symbol::Make(Action::Declarator),
    ],
    &[
        Symbol::Token(Class::Star, Effect::Nothing),
        Symbol::Make(Action::Pointer),
        Symbol::Line(Line::Qualifiers),
        Symbol::Token(Class::Name, Effect::Nothing),
        Symbol::Make(Action::Keep),
        Symbol::Make(Action::NoDims),
        Symbol::Line(Line::Dims),
        Symbol::Make(Action::Declarator),
    ],
];

static MORE_DECLARATORS: [&[Symbol<Class, Line, Action>]; 2] = [
    &[
        Symbol::Token(Class::Comma, Effect::Nothing),
        Symbol::Line(Line::Declarator),
        Symbol::Make(Action::AddDeclarator),
        Symbol::Line(Line::MoreDeclarators),
    ],
    &[Symbol::Token(Class::Semicolon, Effect::Nothing)],
];

static ENUM_REST: [&[Symbol<Class, Line, Action>]; 2] = [
    &[
        Symbol::Token(Class::Name, Effect::Nothing),
        Symbol::Make(Action::EnumTag),
        Symbol::Line(Line::EnumBody),
    ],
    &[
        Symbol::Make(Action::NoEnumTag),
        Symbol::Turn(Turn::Enter),
        Symbol::Token(Class::LeftBrace, Effect::Opens),
        Symbol::Line(Line::Enumerator),
        Symbol::Line(Line::MoreEnumerators),
    ],
];

static ENUM_BODY: [&[Symbol<Class, Line, Action>]; 2] = [
    &[
        Symbol::Turn(Turn::Enter),
        Symbol::Token(Class::LeftBrace, Effect::Opens),
        Symbol::Line(Line::Enumerator),
        Symbol::Line(Line::MoreEnumerators),
    ],
    &[],
];

static ENUMERATOR: [&[Symbol<Class, Line, Action>]; 1] = [&[
    Symbol::Token(Class::Name, Effect::Nothing),
    Symbol::Make(Action::Keep),
    Symbol::Line(Line::EnumeratorValue),
]];

static ENUMERATOR_VALUE: [&[Symbol<Class, Line, Action>]; 2] = [
    &[
        Symbol::Token(Class::Equal, Effect::Nothing),
        Symbol::Turn(Turn::Enter),
        Symbol::Line(Line::Cond),
        Symbol::Turn(Turn::Leave),
        Symbol::Make(Action::EnumeratorWith),
    ],
    &[Symbol::Make(Action::EnumeratorBare)],
];

static MORE_ENUMERATORS: [&[Symbol<Class, Line, Action>]; 2] = [
    &[
        Symbol::Token(Class::Comma, Effect::Nothing),
        Symbol::Line(Line::EnumeratorsNext),
    ],
    &[
        Symbol::Token(Class::RightBrace, Effect::Nothing),
        Symbol::Turn(Turn::Leave),
        Symbol::Make(Action::Enumerators),
    ],
];

static ENUMERATORS_NEXT: [&[Symbol<Class, Line, Action>]; 2] = [
    &[
        Symbol::Line(Line::Enumerator),
        Symbol::Line(Line::MoreEnumerators),
    ],
    &[
        Symbol::Token(Class::RightBrace, Effect::Nothing),
        Symbol::Turn(Turn::Leave),
        Symbol::Make(Action::Enumerators),
    ],
];

static CONSTS: [&[Symbol<Class, Line, Action>]; 2] = [
    &[
        Symbol::Token(Class::Const, Effect::Nothing),
        Symbol::Make(Action::Const),
        Symbol::Line(Line::Consts),
    ],
    &[],
];

static QUALIFIERS: [&[Symbol<Class, Line, Action>]; 3] = [
    &[
        Symbol::Token(Class::Const, Effect::Nothing),
        Symbol::Make(Action::PointerConst),
        Symbol::Line(Line::Qualifiers),
    ],
    &[
        Symbol::Token(Class::Restrict, Effect::Nothing),
        Symbol::Line(Line::Qualifiers),
    ],
    &[],
];

static DIMS: [&[Symbol<Class, Line, Action>]; 2] = [
    &[
        Symbol::Turn(Turn::Enter),
        Symbol::Token(Class::LeftBracket, Effect::Opens),
        Symbol::Make(Action::Keep),
        Symbol::Line(Line::DimEnd),
    ],
    &[],
];

static DIM_END: [&[Symbol<Class, Line, Action>]; 2] = [
    &[
        Symbol::Token(Class::RightBracket, Effect::Nothing),
        Symbol::Turn(Turn::Leave),
        Symbol::Make(Action::OpenDim),
        Symbol::Line(Line::Dims),
    ],
    &[
        Symbol::Line(Line::Cond),
        Symbol::Token(Class::RightBracket, Effect::Nothing),
        Symbol::Turn(Turn::Leave),
        Symbol::Make(Action::Dim),
        Symbol::Line(Line::Dims),
    ],
];

static WORDS: [&[Symbol<Class, Line, Action>]; 7] = [
    &[
        Symbol::Token(Class::Bool, Effect::Nothing),
        Symbol::Make(Action::Word),
        Symbol::Line(Line::Consts),
    ],
    &[
        Symbol::Token(Class::Char, Effect::Nothing),
        Symbol::Make(Action::Word),
        Symbol::Line(Line::WordsChar),
    ],
    &[
        Symbol::Token(Class::Short, Effect::Nothing),
        Symbol::Make(Action::Word),
        Symbol::Line(Line::WordsShort),
    ],
    &[
        Symbol::Token(Class::Int, Effect::Nothing),
        Symbol::Make(Action::Word),
        Symbol::Line(Line::WordsInt),
    ],
    &[
        Symbol::Token(Class::Long, Effect::Nothing),
        Symbol::Make(Action::Word),
        Symbol::Line(Line::WordsLong),
    ],
    &[
        Symbol::Token(Class::Signed, Effect::Nothing),
        Symbol::Make(Action::Word),
        Symbol::Line(Line::WordsSign),
    ],
    &[
        Symbol::Token(Class::Unsigned, Effect::Nothing),
        Symbol::Make(Action::Word),
        Symbol::Line(Line::WordsSign),
    ],
];

static WORDS_CHAR: [&[Symbol<Class, Line, Action>]; 4] = [
    &[
        Symbol::Token(Class::Const, Effect::Nothing),
        Symbol::Make(Action::Const),
        Symbol::Line(Line::WordsChar),
    ],
    &[
        Symbol::Token(Class::Signed, Effect::Nothing),
        Symbol::Make(Action::Word),
        Symbol::Line(Line::Consts),
    ],
    &[
        Symbol::Token(Class::Unsigned, Effect::Nothing),
        Symbol::Make(Action::Word),
        Symbol::Line(Line::Consts),
    ],
    &[],
];

static WORDS_SIGN: [&[Symbol<Class, Line, Action>]; 6] = [
    &[
        Symbol::Token(Class::Const, Effect::Nothing),
        Symbol::Make(Action::Const),
        Symbol::Line(Line::WordsSign),
    ],
    &[
        Symbol::Token(Class::Char, Effect::Nothing),
        Symbol::Make(Action::Word),
        Symbol::Line(Line::Consts),
    ],
    &[
        Symbol::Token(Class::Short, Effect::Nothing),
        Symbol::Make(Action::Word),
        Symbol::Line(Line::WordsSignShort),
    ],
    &[
        Symbol::Token(Class::Int, Effect::Nothing),
        Symbol::Make(Action::Word),
        Symbol::Line(Line::WordsSignInt),
    ],
    &[
        Symbol::Token(Class::Long, Effect::Nothing),
        Symbol::Make(Action::Word),
        Symbol::Line(Line::WordsSignLong),
    ],
    &[],
];

static WORDS_SHORT: [&[Symbol<Class, Line, Action>]; 5] = [
    &[
        Symbol::Token(Class::Const, Effect::Nothing),
        Symbol::Make(Action::Const),
        Symbol::Line(Line::WordsShort),
    ],
    &[
        Symbol::Token(Class::Int, Effect::Nothing),
        Symbol::Make(Action::Word),
        Symbol::Line(Line::WordsShortInt),
    ],
    &[
        Symbol::Token(Class::Signed, Effect::Nothing),
        Symbol::Make(Action::Word),
        Symbol::Line(Line::WordsSignShort),
    ],
    &[
        Symbol::Token(Class::Unsigned, Effect::Nothing),
        Symbol::Make(Action::Word),
        Symbol::Line(Line::WordsSignShort),
    ],
    &[],
];

static WORDS_SIGN_SHORT: [&[Symbol<Class, Line, Action>]; 3] = [
    &[
        Symbol::Token(Class::Const, Effect::Nothing),
        Symbol::Make(Action::Const),
        Symbol::Line(Line::WordsSignShort),
    ],
    &[
        Symbol::Token(Class::Int, Effect::Nothing),
        Symbol::Make(Action::Word),
        Symbol::Line(Line::Consts),
    ],
    &[],
];

static WORDS_SHORT_INT: [&[Symbol<Class, Line, Action>]; 4] = [
    &[
        Symbol::Token(Class::Const, Effect::Nothing),
        Symbol::Make(Action::Const),
        Symbol::Line(Line::WordsShortInt),
    ],
    &[
        Symbol::Token(Class::Signed, Effect::Nothing),
        Symbol::Make(Action::Word),
        Symbol::Line(Line::Consts),
    ],
    &[
        Symbol::Token(Class::Unsigned, Effect::Nothing),
        Symbol::Make(Action::Word),
        Symbol::Line(Line::Consts),
    ],
    &[],
];

static WORDS_INT: [&[Symbol<Class, Line, Action>]; 6] = [
    &[
        Symbol::Token(Class::Const, Effect::Nothing),
        Symbol::Make(Action::Const),
        Symbol::Line(Line::WordsInt),
    ],
    &[
        Symbol::Token(Class::Short, Effect::Nothing),
        Symbol::Make(Action::Word),
        Symbol::Line(Line::WordsShortInt),
    ],
    &[
        Symbol::Token(Class::Long, Effect::Nothing),
        Symbol::Make(Action::Word),
        Symbol::Line(Line::WordsLongInt),
    ],
    &[
        Symbol::Token(Class::Signed, Effect::Nothing),
        Symbol::Make(Action::Word),
        Symbol::Line(Line::WordsSignInt),
    ],
    &[
        Symbol::Token(Class::Unsigned, Effect::Nothing),
        Symbol::Make(Action::Word),
        Symbol::Line(Line::WordsSignInt),
    ],
    &[],
];

static WORDS_SIGN_INT: [&[Symbol<Class, Line, Action>]; 4] = [
    &[
        Symbol::Token(Class::Const, Effect::Nothing),
        Symbol::Make(Action::Const),
        Symbol::Line(Line::WordsSignInt),
    ],
    &[
        Symbol::Token(Class::Short, Effect::Nothing),
        Symbol::Make(Action::Word),
        Symbol::Line(Line::Consts),
    ],
    &[
        Symbol::Token(Class::Long, Effect::Nothing),
        Symbol::Make(Action::Word),
        Symbol::Line(Line::WordsSignLongInt),
    ],
    &[],
];

static WORDS_LONG: [&[Symbol<Class, Line, Action>]; 6] = [
    &[
        Symbol::Token(Class::Const, Effect::Nothing),
        Symbol::Make(Action::Const),
        Symbol::Line(Line::WordsLong),
    ],
    &[
        Symbol::Token(Class::Long, Effect::Nothing),
        Symbol::Make(Action::Word),
        Symbol::Line(Line::WordsLongLong),
    ],
    &[
        Symbol::Token(Class::Int, Effect::Nothing),
        Symbol::Make(Action::Word),
        Symbol::Line(Line::WordsLongInt),
    ],
    &[
        Symbol::Token(Class::Signed, Effect::Nothing),
        Symbol::Make(Action::Word),
        Symbol::Line(Line::WordsSignLong),
    ],
    &[
        Symbol::Token(Class::Unsigned, Effect::Nothing),
        Symbol::Make(Action::Word),
        Symbol::Line(Line::WordsSignLong),
    ],
    &[],
];

static WORDS_SIGN_LONG: [&[Symbol<Class, Line, Action>]; 4] = [
    &[
        Symbol::Token(Class::Const, Effect::Nothing),
        Symbol::Make(Action::Const),
        Symbol::Line(Line::WordsSignLong),
    ],
    &[
        Symbol::Token(Class::Long, Effect::Nothing),
        Symbol::Make(Action::Word),
        Symbol::Line(Line::WordsSignLongLong),
    ],
    &[
        Symbol::Token(Class::Int, Effect::Nothing),
        Symbol::Make(Action::Word),
        Symbol::Line(Line::WordsSignLongInt),
    ],
    &[],
];

static WORDS_LONG_INT: [&[Symbol<Class, Line, Action>]; 5] = [
    &[
        Symbol::Token(Class::Const, Effect::Nothing),
        Symbol::Make(Action::Const),
        Symbol::Line(Line::WordsLongInt),
    ],
    &[
        Symbol::Token(Class::Long, Effect::Nothing),
        Symbol::Make(Action::Word),
        Symbol::Line(Line::WordsLongLongInt),
    ],
    &[
        Symbol::Token(Class::Signed, Effect::Nothing),
        Symbol::Make(Action::Word),
        Symbol::Line(Line::WordsSignLongInt),
    ],
    &[
        Symbol::Token(Class::Unsigned, Effect::Nothing),
        Symbol::Make(Action::Word),
        Symbol::Line(Line::WordsSignLongInt),
    ],
    &[],
];

static WORDS_SIGN_LONG_INT: [&[Symbol<Class, Line, Action>]; 3] = [
    &[
        Symbol::Token(Class::Const, Effect::Nothing),
        Symbol::Make(Action::Const),
        Symbol::Line(Line::WordsSignLongInt),
    ],
    &[
        Symbol::Token(Class::Long, Effect::Nothing),
        Symbol::Make(Action::Word),
        Symbol::Line(Line::Consts),
    ],
    &[],
];

static WORDS_LONG_LONG: [&[Symbol<Class, Line, Action>]; 5] = [
    &[
        Symbol::Token(Class::Const, Effect::Nothing),
        Symbol::Make(Action::Const),
        Symbol::Line(Line::WordsLongLong),
    ],
    &[
        Symbol::Token(Class::Int, Effect::Nothing),
        Symbol::Make(Action::Word),
        Symbol::Line(Line::WordsLongLongInt),
    ],
    &[
        Symbol::Token(Class::Signed, Effect::Nothing),
        Symbol::Make(Action::Word),
        Symbol::Line(Line::WordsSignLongLong),
    ],
    &[
        Symbol::Token(Class::Unsigned, Effect::Nothing),
        Symbol::Make(Action::Word),
        Symbol::Line(Line::WordsSignLongLong),
    ],
    &[],
];

static WORDS_SIGN_LONG_LONG: [&[Symbol<Class, Line, Action>]; 3] = [
    &[
        Symbol::Token(Class::Const, Effect::Nothing),
        Symbol::Make(Action::Const),
        Symbol::Line(Line::WordsSignLongLong),
    ],
    &[
        Symbol::Token(Class::Int, Effect::Nothing),
        Symbol::Make(Action::Word),
        Symbol::Line(Line::Consts),
    ],
    &[],
];

static WORDS_LONG_LONG_INT: [&[Symbol<Class, Line, Action>]; 4] = [
    &[
        Symbol::Token(Class::Const, Effect::Nothing),
        Symbol::Make(Action::Const),
        Symbol::Line(Line::WordsLongLongInt),
    ],
    &[
        Symbol::Token(Class::Signed, Effect::Nothing),
        Symbol::Make(Action::Word),
        Symbol::Line(Line::Consts),
    ],
    &[
        Symbol::Token(Class::Unsigned, Effect::Nothing),
        Symbol::Make(Action::Word),
        Symbol::Line(Line::Consts),
    ],
    &[],
];

static BLOCK: [&[Symbol<Class, Line, Action>]; 1] = [&[
    Symbol::Turn(Turn::Enter),
    Symbol::Token(Class::LeftBrace, Effect::Opens),
    Symbol::Make(Action::Keep),
    Symbol::Make(Action::NoParts),
    Symbol::Line(Line::Parts),
]];

static PARTS: [&[Symbol<Class, Line, Action>]; 3] = [
    &[
        Symbol::Line(Line::Local),
        Symbol::Make(Action::AddLocal),
        Symbol::Line(Line::Parts),
    ],
    &[
        Symbol::Line(Line::Stmt),
        Symbol::Make(Action::AddStmt),
        Symbol::Line(Line::Parts),
    ],
    &[
        Symbol::Token(Class::RightBrace, Effect::Nothing),
        Symbol::Turn(Turn::Leave),
        Symbol::Make(Action::Block),
    ],
];

static LOCAL: [&[Symbol<Class, Line, Action>]; 2] = [
    &[
        Symbol::Token(Class::Register, Effect::Nothing),
        Symbol::Line(Line::Base),
        Symbol::Line(Line::Init),
        Symbol::Line(Line::MoreInits),
    ],
    &[
        Symbol::Line(Line::Base),
        Symbol::Line(Line::Init),
        Symbol::Line(Line::MoreInits),
    ],
];

static INIT: [&[Symbol<Class, Line, Action>]; 1] = [&[
    Symbol::Line(Line::Declarator),
    Symbol::Line(Line::InitValue),
]];

static INIT_VALUE: [&[Symbol<Class, Line, Action>]; 2] = [
    &[
        Symbol::Token(Class::Equal, Effect::Nothing),
        Symbol::Turn(Turn::Enter),
        Symbol::Line(Line::Value),
        Symbol::Turn(Turn::Leave),
        Symbol::Make(Action::InitWith),
    ],
    &[Symbol::Make(Action::InitBare)],
];

static MORE_INITS: [&[Symbol<Class, Line, Action>]; 2] = [
    &[
        Symbol::Token(Class::Comma, Effect::Nothing),
        Symbol::Line(Line::Init),
        Symbol::Line(Line::MoreInits),
    ],
    &[
        Symbol::Token(Class::Semicolon, Effect::Nothing),
        Symbol::Make(Action::Declaration),
    ],
];

static VALUE: [&[Symbol<Class, Line, Action>]; 2] = [
    &[Symbol::Line(Line::Cond), Symbol::Make(Action::CondValue)],
    &[
        Symbol::Turn(Turn::Enter),
        Symbol::Token(Class::LeftBrace, Effect::Opens),
        Symbol::Make(Action::Keep),
        Symbol::Make(Action::NoValues),
        Symbol::Turn(Turn::Enter),
        Symbol::Line(Line::Value),
        Symbol::Turn(Turn::Leave),
        Symbol::Make(Action::AddValue),
        Symbol::Line(Line::MoreValues),
    ],
];

static MORE_VALUES: [&[Symbol<Class, Line, Action>]; 2] = [
    &[
        Symbol::Token(Class::Comma, Effect::Nothing),
        Symbol::Line(Line::ValuesNext),
    ],
    &[
        Symbol::Token(Class::RightBrace, Effect::Nothing),
        Symbol::Turn(Turn::Leave),
        Symbol::Make(Action::Braces),
    ],
];

static VALUES_NEXT: [&[Symbol<Class, Line, Action>]; 2] = [
    &[
        Symbol::Turn(Turn::Enter),
        Symbol::Line(Line::Value),
        Symbol::Turn(Turn::Leave),
        Symbol::Make(Action::AddValue),
        Symbol::Line(Line::MoreValues),
    ],
    &[
        Symbol::Token(Class::RightBrace, Effect::Nothing),
        Symbol::Turn(Turn::Leave),
        Symbol::Make(Action::Braces),
    ],
];

static STMT: [&[Symbol<Class, Line, Action>]; 11] = [
    &[Symbol::Line(Line::Block)],
    &[
        Symbol::Token(Class::Semicolon, Effect::Nothing),
        Symbol::Make(Action::Empty),
    ],
    &[
        Symbol::Turn(Turn::Enter),
        Symbol::Line(Line::Act),
        Symbol::Turn(Turn::Leave),
        Symbol::Token(Class::Semicolon, Effect::Nothing),
        Symbol::Make(Action::ActStmt),
    ],
    &[
        Symbol::Token(Class::Break, Effect::Nothing),
        Symbol::Make(Action::Break),
        Symbol::Token(Class::Semicolon, Effect::Nothing),
    ],
    &[
        Symbol::Token(Class::Continue, Effect::Nothing),
        Symbol::Make(Action::Continue),
        Symbol::Token(Class::Semicolon, Effect::Nothing),
    ],
    &[
        Symbol::Token(Class::Return, Effect::Nothing),
        Symbol::Make(Action::Keep),
        Symbol::Line(Line::ReturnRest),
    ],
    &[Symbol::Line(Line::IfStmt)],
    &[
        Symbol::Turn(Turn::Enter),
        Symbol::Token(Class::While, Effect::Opens),
        Symbol::Make(Action::Keep),
        Symbol::Turn(Turn::Enter),
        Symbol::Token(Class::LeftParen, Effect::Opens),
        Symbol::Line(Line::Cond),
        Symbol::Token(Class::RightParen, Effect::Nothing),
        Symbol::Turn(Turn::Leave),
        Symbol::Line(Line::Stmt),
        Symbol::Turn(Turn::Leave),
        Symbol::Make(Action::While),
    ],
    &[
        Symbol::Turn(Turn::Enter),
        Symbol::Token(Class::Do, Effect::Opens),
        Symbol::Make(Action::Keep),
        Symbol::Line(Line::Stmt),
        Symbol::Token(Class::While, Effect::Nothing),
        Symbol::Turn(Turn::Enter),
        Symbol::Token(Class::LeftParen, Effect::Opens),
        Symbol::Line(Line::Cond),
        Symbol::Token(Class::RightParen, Effect::Nothing),
        Symbol::Turn(Turn::Leave),
        Symbol::Token(Class::Semicolon, Effect::Nothing),
        Symbol::Turn(Turn::Leave),
        Symbol::Make(Action::Do),
    ],
    &[
        Symbol::Turn(Turn::Enter),
        Symbol::Token(Class::For, Effect::Opens),
        Symbol::Make(Action::Keep),
        Symbol::Turn(Turn::Enter),
        Symbol::Token(Class::LeftParen, Effect::Opens),
        Symbol::Line(Line::ForStart),
        Symbol::Line(Line::ForTest),
        Symbol::Line(Line::ForStep),
        Symbol::Token(Class::RightParen, Effect::Nothing),
        Symbol::Turn(Turn::Leave),
        Symbol::Line(Line::Stmt),
        Symbol::Turn(Turn::Leave),
        Symbol::Make(Action::For),
    ],
    &[
        Symbol::Turn(Turn::Enter),
        Symbol::Token(Class::Switch, Effect::Opens),
        Symbol::Make(Action::Keep),
        Symbol::Turn(Turn::Enter),
        Symbol::Token(Class::LeftParen, Effect::Opens),
        Symbol::Line(Line::Cond),
        Symbol::Token(Class::RightParen, Effect::Nothing),
        Symbol::Turn(Turn::Leave),
        Symbol::Turn(Turn::Enter),
        Symbol::Token(Class::LeftBrace, Effect::Opens),
        Symbol::Make(Action::NoGroups),
        Symbol::Line(Line::Groups),
        Symbol::Turn(Turn::Leave),
        Symbol::Make(Action::Switch),
    ],
];

static IF_STMT: [&[Symbol<Class, Line, Action>]; 1] = [&[
    Symbol::Turn(Turn::Enter),
    Symbol::Token(Class::If, Effect::Opens),
    Symbol::Make(Action::Keep),
    Symbol::Turn(Turn::Enter),
    Symbol::Token(Class::LeftParen, Effect::Opens),
    Symbol::Line(Line::Cond),
    Symbol::Token(Class::RightParen, Effect::Nothing),
    Symbol::Turn(Turn::Leave),
    Symbol::Line(Line::Stmt),
    Symbol::Line(Line::ElsePart),
    Symbol::Turn(Turn::Leave),
]];

static ELSE_PART: [&[Symbol<Class, Line, Action>]; 3] = [
    &[
        Symbol::Token(Class::ElseIf, Effect::Nothing),
        Symbol::Line(Line::IfStmt),
        Symbol::Make(Action::IfElse),
    ],
    &[
        Symbol::Turn(Turn::Enter),
        Symbol::Token(Class::Else, Effect::Opens),
        Symbol::Line(Line::Stmt),
        Symbol::Turn(Turn::Leave),
        Symbol::Make(Action::IfElse),
    ],
    &[
        Symbol::NotNext(Class::Else),
        Symbol::NotNext(Class::ElseIf),
        Symbol::Make(Action::If),
    ],
];

static RETURN_REST: [&[Symbol<Class, Line, Action>]; 2] = [
    &[
        Symbol::Token(Class::Semicolon, Effect::Nothing),
        Symbol::Make(Action::Return),
    ],
    &[
        Symbol::Turn(Turn::Enter),
        Symbol::Line(Line::Cond),
        Symbol::Turn(Turn::Leave),
        Symbol::Token(Class::Semicolon, Effect::Nothing),
        Symbol::Make(Action::ReturnValue),
    ],
];

static FOR_START: [&[Symbol<Class, Line, Action>]; 3] = [
    &[Symbol::Line(Line::Local), Symbol::Make(Action::ForLocal)],
    &[
        Symbol::Line(Line::Acts),
        Symbol::Token(Class::Semicolon, Effect::Nothing),
        Symbol::Make(Action::ForActs),
    ],
    &[
        Symbol::Token(Class::Semicolon, Effect::Nothing),
        Symbol::Make(Action::ForNothing),
    ],
];

static FOR_TEST: [&[Symbol<Class, Line, Action>]; 2] = [
    &[
        Symbol::Line(Line::Cond),
        Symbol::Token(Class::Semicolon, Effect::Nothing),
        Symbol::Make(Action::ForCond),
    ],
    &[
        Symbol::Token(Class::Semicolon, Effect::Nothing),
        Symbol::Make(Action::ForEver),
    ],
];

static FOR_STEP: [&[Symbol<Class, Line, Action>]; 2] = [
    &[Symbol::Line(Line::Acts), Symbol::Make(Action::ForStep)],
    &[Symbol::Make(Action::NoStep)],
];

static GROUPS: [&[Symbol<Class, Line, Action>]; 2] = [
    &[
        Symbol::Make(Action::NoLabels),
        Symbol::Line(Line::Label),
        Symbol::Make(Action::AddLabel),
        Symbol::Line(Line::GroupLabels),
    ],
    &[
        Symbol::Token(Class::RightBrace, Effect::Nothing),
        Symbol::Turn(Turn::Leave),
    ],
];

static GROUP_LABELS: [&[Symbol<Class, Line, Action>]; 4] = [
    &[
        Symbol::Line(Line::Label),
        Symbol::Make(Action::AddLabel),
        Symbol::Line(Line::GroupLabels),
    ],
    &[
        Symbol::Make(Action::NoParts),
        Symbol::Line(Line::Local),
        Symbol::Make(Action::AddLocal),
        Symbol::Line(Line::GroupParts),
    ],
    &[
        Symbol::Make(Action::NoParts),
        Symbol::Line(Line::Stmt),
        Symbol::Make(Action::AddStmt),
        Symbol::Line(Line::GroupParts),
    ],
    &[
        Symbol::Make(Action::NoParts),
        Symbol::Token(Class::RightBrace, Effect::Nothing),
        Symbol::Turn(Turn::Leave),
        Symbol::Make(Action::AddGroup),
    ],
];

static GROUP_PARTS: [&[Symbol<Class, Line, Action>]; 4] = [
    &[
        Symbol::Line(Line::Local),
        Symbol::Make(Action::AddLocal),
        Symbol::Line(Line::GroupParts),
    ],
    &[
        Symbol::Line(Line::Stmt),
        Symbol::Make(Action::AddStmt),
        Symbol::Line(Line::GroupParts),
    ],
    &[
        Symbol::Make(Action::AddGroup),
        Symbol::Make(Action::NoLabels),
        Symbol::Line(Line::Label),
        Symbol::Make(Action::AddLabel),
        Symbol::Line(Line::GroupLabels),
    ],
    &[
        Symbol::Token(Class::RightBrace, Effect::Nothing),
        Symbol::Turn(Turn::Leave),
        Symbol::Make(Action::AddGroup),
    ],
];

static LABEL: [&[Symbol<Class, Line, Action>]; 2] = [
    &[
        Symbol::Turn(Turn::Enter),
        Symbol::Token(Class::Case, Effect::Opens),
        Symbol::Make(Action::Keep),
        Symbol::Line(Line::Cond),
        Symbol::Token(Class::Colon, Effect::Nothing),
        Symbol::Turn(Turn::Leave),
        Symbol::Make(Action::Case),
    ],
    &[
        Symbol::Turn(Turn::Enter),
        Symbol::Token(Class::Default, Effect::Opens),
        Symbol::Make(Action::Default),
        Symbol::Token(Class::Colon, Effect::Nothing),
        Symbol::Turn(Turn::Leave),
    ],
];

static ACTS: [&[Symbol<Class, Line, Action>]; 1] = [&[
    Symbol::Line(Line::Act),
    Symbol::Make(Action::AddAct),
    Symbol::Line(Line::MoreActs),
]];

static MORE_ACTS: [&[Symbol<Class, Line, Action>]; 2] = [
    &[
        Symbol::Token(Class::Comma, Effect::Nothing),
        Symbol::Line(Line::Act),
        Symbol::Make(Action::AddAct),
        Symbol::Line(Line::MoreActs),
    ],
    &[],
];

static ACT: [&[Symbol<Class, Line, Action>]; 4] = [
    &[
        Symbol::Turn(Turn::Enter),
        Symbol::Token(Class::LeftParen, Effect::Opens),
        Symbol::Make(Action::Keep),
        Symbol::Line(Line::ActParen),
    ],
    &[
        Symbol::Token(Class::Increment, Effect::Nothing),
        Symbol::Make(Action::Keep),
        Symbol::Line(Line::Unary),
        Symbol::Make(Action::StepBefore),
    ],
    &[
        Symbol::Token(Class::Decrement, Effect::Nothing),
        Symbol::Make(Action::Keep),
        Symbol::Line(Line::Unary),
        Symbol::Make(Action::StepBefore),
    ],
    &[Symbol::Line(Line::NonParen), Symbol::Line(Line::ActRest)],
];

static ACT_PAREN: [&[Symbol<Class, Line, Action>]; 3] = [
    &[
        Symbol::Token(Class::Void, Effect::Nothing),
        Symbol::Token(Class::RightParen, Effect::Nothing),
        Symbol::Turn(Turn::Leave),
        Symbol::Line(Line::Unary),
        Symbol::Make(Action::Discard),
    ],
    &[
        Symbol::Line(Line::TypeNoVoid),
        Symbol::Token(Class::RightParen, Effect::Nothing),
        Symbol::Turn(Turn::Leave),
        Symbol::Line(Line::Unary),
        Symbol::Make(Action::Cast),
        Symbol::Line(Line::ActRest),
    ],
    &[
        Symbol::Line(Line::Cond),
        Symbol::Token(Class::RightParen, Effect::Nothing),
        Symbol::Turn(Turn::Leave),
        Symbol::Make(Action::Paren),
        Symbol::Line(Line::PostfixTail),
        Symbol::Line(Line::ActRest),
    ],
];

static ACT_REST: [&[Symbol<Class, Line, Action>]; 4] = [
    &[
        Symbol::Line(Line::Assign),
        Symbol::Line(Line::Cond),
        Symbol::Make(Action::Assign),
    ],
    &[
        Symbol::Token(Class::Increment, Effect::Nothing),
        Symbol::Make(Action::StepAfter),
    ],
    &[
        Symbol::Token(Class::Decrement, Effect::Nothing),
        Symbol::Make(Action::StepAfter),
    ],
    &[Symbol::Line(Line::CondRest), Symbol::Make(Action::Evaluate)],
];

static ASSIGN: [&[Symbol<Class, Line, Action>]; 11] = [
    &[
        Symbol::Token(Class::Equal, Effect::Nothing),
        Symbol::Make(Action::Keep),
    ],
    &[
        Symbol::Token(Class::StarEqual, Effect::Nothing),
        Symbol::Make(Action::Keep),
    ],
    &[
        Symbol::Token(Class::SlashEqual, Effect::Nothing),
        Symbol::Make(Action::Keep),
    ],
    &[
        Symbol::Token(Class::PercentEqual, Effect::Nothing),
        Symbol::Make(Action::Keep),
    ],
    &[
        Symbol::Token(Class::PlusEqual, Effect::Nothing),
        Symbol::Make(Action::Keep),
    ],
    &[
        Symbol::Token(Class::MinusEqual, Effect::Nothing),
        Symbol::Make(Action::Keep),
    ],
    &[
        Symbol::Token(Class::ShiftLeftEqual, Effect::Nothing),
        Symbol::Make(Action::Keep),
    ],
    &[
        Symbol::Token(Class::ShiftRightEqual, Effect::Nothing),
        Symbol::Make(Action::Keep),
    ],
    &[
        Symbol::Token(Class::AmpersandEqual, Effect::Nothing),
        Symbol::Make(Action::Keep),
    ],
    &[
        Symbol::Token(Class::CaretEqual, Effect::Nothing),
        Symbol::Make(Action::Keep),
    ],
    &[
        Symbol::Token(Class::BarEqual, Effect::Nothing),
        Symbol::Make(Action::Keep),
    ],
];

static COND: [&[Symbol<Class, Line, Action>]; 1] = [&[
    Symbol::Line(Line::Unary),
    Symbol::Line(Line::CondRest),
]];

static COND_REST: [&[Symbol<Class, Line, Action>]; 1] = [&[
    Symbol::Line(Line::ProductTail),
    Symbol::Line(Line::SumTail),
    Symbol::Line(Line::ShiftTail),
    Symbol::Line(Line::RelationalTail),
    Symbol::Line(Line::EqualityTail),
    Symbol::Line(Line::BitAndTail),
    Symbol::Line(Line::XorTail),
    Symbol::Line(Line::BitOrTail),
    Symbol::Line(Line::AndTail),
    Symbol::Line(Line::OrTail),
    Symbol::Line(Line::Question),
]];

static QUESTION: [&[Symbol<Class, Line, Action>]; 2] = [
    &[
        Symbol::Token(Class::Question, Effect::Opens),
        Symbol::Make(Action::Keep),
        Symbol::Line(Line::Cond),
        Symbol::Token(Class::Colon, Effect::Nothing),
        Symbol::Line(Line::Cond),
        Symbol::Make(Action::Conditional),
    ],
    &[],
];

static OR_TAIL: [&[Symbol<Class, Line, Action>]; 2] = [
    &[
        Symbol::Token(Class::OrOr, Effect::Opens),
        Symbol::Make(Action::Keep),
        Symbol::Line(Line::And),
        Symbol::Make(Action::Binary),
        Symbol::Line(Line::OrTail),
    ],
    &[],
];

static AND: [&[Symbol<Class, Line, Action>]; 1] = [&[
    Symbol::Line(Line::BitOr),
    Symbol::Line(Line::AndTail),
]];

static AND_TAIL: [&[Symbol<Class, Line, Action>]; 2] = [
    &[
        Symbol::Token(Class::AndAnd, Effect::Opens),
        Symbol::Make(Action::Keep),
        Symbol::Line(Line::BitOr),
        Symbol::Make(Action::Binary),
        Symbol::Line(Line::AndTail),
    ],
    &[],
];

static BIT_OR: [&[Symbol<Class, Line, Action>]; 1] = [&[
    Symbol::Line(Line::Xor),
    Symbol::Line(Line::BitOrTail),
]];

static BIT_OR_TAIL: [&[Symbol<Class, Line, Action>]; 2] = [
    &[
        Symbol::Token(Class::Bar, Effect::Opens),
        Symbol::Make(Action::Keep),
        Symbol::Line(Line::Xor),
        Symbol::Make(Action::Binary),
        Symbol::Line(Line::BitOrTail),
    ],
    &[],
];

static XOR: [&[Symbol<Class, Line, Action>]; 1] = [&[
    Symbol::Line(Line::BitAnd),
    Symbol::Line(Line::XorTail),
]];

static XOR_TAIL: [&[Symbol<Class, Line, Action>]; 2] = [
    &[
        Symbol::Token(Class::Caret, Effect::Opens),
        Symbol::Make(Action::Keep),
        Symbol::Line(Line::BitAnd),
        Symbol::Make(Action::Binary),
        Symbol::Line(Line::XorTail),
    ],
    &[],
];

static BIT_AND: [&[Symbol<Class, Line, Action>]; 1] = [&[
    Symbol::Line(Line::Equality),
    Symbol::Line(Line::BitAndTail),
]];

static BIT_AND_TAIL: [&[Symbol<Class, Line, Action>]; 2] = [
    &[
        Symbol::Token(Class::Ampersand, Effect::Opens),
        Symbol::Make(Action::Keep),
        Symbol::Line(Line::Equality),
        Symbol::Make(Action::Binary),
        Symbol::Line(Line::BitAndTail),
    ],
    &[],
];

static EQUALITY: [&[Symbol<Class, Line, Action>]; 1] = [&[
    Symbol::Line(Line::Relational),
    Symbol::Line(Line::EqualityTail),
]];

static EQUALITY_TAIL: [&[Symbol<Class, Line, Action>]; 3] = [
    &[
        Symbol::Token(Class::EqualEqual, Effect::Opens),
        Symbol::Make(Action::Keep),
        Symbol::Line(Line::Relational),
        Symbol::Make(Action::Binary),
        Symbol::Line(Line::EqualityTail),
    ],
    &[
        Symbol::Token(Class::NotEqual, Effect::Opens),
        Symbol::Make(Action::Keep),
        Symbol::Line(Line::Relational),
        Symbol::Make(Action::Binary),
        Symbol::Line(Line::EqualityTail),
    ],
    &[],
];

static RELATIONAL: [&[Symbol<Class, Line, Action>]; 1] = [&[
    Symbol::Line(Line::Shift),
    Symbol::Line(Line::RelationalTail),
]];

static RELATIONAL_TAIL: [&[Symbol<Class, Line, Action>]; 5] = [
    &[
        Symbol::Token(Class::Less, Effect::Opens),
        Symbol::Make(Action::Keep),
        Symbol::Line(Line::Shift),
        Symbol::Make(Action::Binary),
        Symbol::Line(Line::RelationalTail),
    ],
    &[
        Symbol::Token(Class::Greater, Effect::Opens),
        Symbol::Make(Action::Keep),
        Symbol::Line(Line::Shift),
        Symbol::Make(Action::Binary),
        Symbol::Line(Line::RelationalTail),
    ],
    &[
        Symbol::Token(Class::LessEqual, Effect::Opens),
        Symbol::Make(Action::Keep),
        Symbol::Line(Line::Shift),
        Symbol::Make(Action::Binary),
        Symbol::Line(Line::RelationalTail),
    ],
    &[
        Symbol::Token(Class::GreaterEqual, Effect::Opens),
        Symbol::Make(Action::Keep),
        Symbol::Line(Line::Shift),
        Symbol::Make(Action::Binary),
        Symbol::Line(Line::RelationalTail),
    ],
    &[],
];

static SHIFT: [&[Symbol<Class, Line, Action>]; 1] = [&[
    Symbol::Line(Line::Sum),
    Symbol::Line(Line::ShiftTail),
]];

static SHIFT_TAIL: [&[Symbol<Class, Line, Action>]; 3] = [
    &[
        Symbol::Token(Class::ShiftLeft, Effect::Opens),
        Symbol::Make(Action::Keep),
        Symbol::Line(Line::Sum),
        Symbol::Make(Action::Binary),
        Symbol::Line(Line::ShiftTail),
    ],
    &[
        Symbol::Token(Class::ShiftRight, Effect::Opens),
        Symbol::Make(Action::Keep),
        Symbol::Line(Line::Sum),
        Symbol::Make(Action::Binary),
        Symbol::Line(Line::ShiftTail),
    ],
    &[],
];

static SUM: [&[Symbol<Class, Line, Action>]; 1] = [&[
    Symbol::Line(Line::Product),
    Symbol::Line(Line::SumTail),
]];

static SUM_TAIL: [&[Symbol<Class, Line, Action>]; 3] = [
    &[
        Symbol::Token(Class::Plus, Effect::Opens),
        Symbol::Make(Action::Keep),
        Symbol::Line(Line::Product),
        Symbol::Make(Action::Binary),
        Symbol::Line(Line::SumTail),
    ],
    &[
        Symbol::Token(Class::Minus, Effect::Opens),
        Symbol::Make(Action::Keep),
        Symbol::Line(Line::Product),
        Symbol::Make(Action::Binary),
        Symbol::Line(Line::SumTail),
    ],
    &[],
];

static PRODUCT: [&[Symbol<Class, Line, Action>]; 1] = [&[
    Symbol::Line(Line::Unary),
    Symbol::Line(Line::ProductTail),
]];

static PRODUCT_TAIL: [&[Symbol<Class, Line, Action>]; 4] = [
    &[
        Symbol::Token(Class::Star, Effect::Opens),
        Symbol::Make(Action::Keep),
        Symbol::Line(Line::Unary),
        Symbol::Make(Action::Binary),
        Symbol::Line(Line::ProductTail),
    ],
    &[
        Symbol::Token(Class::Slash, Effect::Opens),
        Symbol::Make(Action::Keep),
        Symbol::Line(Line::Unary),
        Symbol::Make(Action::Binary),
        Symbol::Line(Line::ProductTail),
    ],
    &[
        Symbol::Token(Class::Percent, Effect::Opens),
        Symbol::Make(Action::Keep),
        Symbol::Line(Line::Unary),
        Symbol::Make(Action::Binary),
        Symbol::Line(Line::ProductTail),
    ],
    &[],
];

static UNARY: [&[Symbol<Class, Line, Action>]; 2] = [
    &[
        Symbol::Turn(Turn::Enter),
        Symbol::Token(Class::LeftParen, Effect::Opens),
        Symbol::Make(Action::Keep),
        Symbol::Line(Line::AfterParen),
    ],
    &[Symbol::Line(Line::NonParen)],
];

static AFTER_PAREN: [&[Symbol<Class, Line, Action>]; 2] = [
    &[
        Symbol::Line(Line::Type),
        Symbol::Token(Class::RightParen, Effect::Nothing),
        Symbol::Turn(Turn::Leave),
        Symbol::Line(Line::Unary),
        Symbol::Make(Action::Cast),
    ],
    &[
        Symbol::Line(Line::Cond),
        Symbol::Token(Class::RightParen, Effect::Nothing),
        Symbol::Turn(Turn::Leave),
        Symbol::Make(Action::Paren),
        Symbol::Line(Line::PostfixTail),
    ],
];

static NON_PAREN: [&[Symbol<Class, Line, Action>]; 8] = [
    &[
        Symbol::Token(Class::Plus, Effect::Opens),
        Symbol::Make(Action::Keep),
        Symbol::Line(Line::Unary),
        Symbol::Make(Action::Unary),
    ],
    &[
        Symbol::Token(Class::Minus, Effect::Opens),
        Symbol::Make(Action::Keep),
        Symbol::Line(Line::Unary),
        Symbol::Make(Action::Unary),
    ],
    &[
        Symbol::Token(Class::Tilde, Effect::Opens),
        Symbol::Make(Action::Keep),
        Symbol::Line(Line::Unary),
        Symbol::Make(Action::Unary),
    ],
    &[
        Symbol::Token(Class::Exclamation, Effect::Opens),
        Symbol::Make(Action::Keep),
        Symbol::Line(Line::Unary),
        Symbol::Make(Action::Unary),
    ],
    &[
        Symbol::Token(Class::Star, Effect::Opens),
        Symbol::Make(Action::Keep),
        Symbol::Line(Line::Unary),
        Symbol::Make(Action::Unary),
    ],
    &[
        Symbol::Token(Class::Ampersand, Effect::Opens),
        Symbol::Make(Action::Keep),
        Symbol::Line(Line::Unary),
        Symbol::Make(Action::Unary),
    ],
    &[
        Symbol::Token(Class::Sizeof, Effect::Opens),
        Symbol::Make(Action::Keep),
        Symbol::Line(Line::AfterSizeof),
    ],
    &[Symbol::Line(Line::Primary), Symbol::Line(Line::PostfixTail)],
];

static AFTER_SIZEOF: [&[Symbol<Class, Line, Action>]; 2] = [
    &[
        Symbol::Turn(Turn::Enter),
        Symbol::Token(Class::LeftParen, Effect::Opens),
        Symbol::Make(Action::Keep),
        Symbol::Line(Line::SizeofParen),
    ],
    &[Symbol::Line(Line::NonParen), Symbol::Make(Action::Sizeof)],
];

static SIZEOF_PAREN: [&[Symbol<Class, Line, Action>]; 2] = [
    &[
        Symbol::Line(Line::Type),
        Symbol::Token(Class::RightParen, Effect::Nothing),
        Symbol::Turn(Turn::Leave),
        Symbol::Make(Action::SizeofType),
    ],
    &[
        Symbol::Line(Line::Cond),
        Symbol::Token(Class::RightParen, Effect::Nothing),
        Symbol::Turn(Turn::Leave),
        Symbol::Make(Action::Paren),
        Symbol::Line(Line::PostfixTail),
        Symbol::Make(Action::Sizeof),
    ],
];

static TYPE: [&[Symbol<Class, Line, Action>]; 1] = [&[
    Symbol::Line(Line::Base),
    Symbol::Line(Line::TypeRest),
]];

static TYPE_NO_VOID: [&[Symbol<Class, Line, Action>]; 1] = [&[
    Symbol::Line(Line::BaseNoVoid),
    Symbol::Line(Line::TypeRest),
]];

static TYPE_REST: [&[Symbol<Class, Line, Action>]; 2] = [
    &[
        Symbol::Token(Class::Star, Effect::Nothing),
        Symbol::Make(Action::Pointer),
        Symbol::Make(Action::NoDims),
        Symbol::Line(Line::TypeDims),
    ],
    &[
        Symbol::Make(Action::NoPointer),
        Symbol::Make(Action::NoDims),
        Symbol::Line(Line::TypeDims),
    ],
];

static TYPE_DIMS: [&[Symbol<Class, Line, Action>]; 2] = [
    &[
        Symbol::Turn(Turn::Enter),
        Symbol::Token(Class::LeftBracket, Effect::Opens),
        Symbol::Make(Action::Keep),
        Symbol::Line(Line::Cond),
        Symbol::Token(Class::RightBracket, Effect::Nothing),
        Symbol::Turn(Turn::Leave),
        Symbol::Make(Action::Dim),
        Symbol::Line(Line::TypeDims),
    ],
    &[Symbol::Make(Action::Type)],
];

static POSTFIX_TAIL: [&[Symbol<Class, Line, Action>]; 4] = [
    &[
        Symbol::Turn(Turn::Enter),
        Symbol::Token(Class::LeftBracket, Effect::Opens),
        Symbol::Make(Action::Keep),
        Symbol::Line(Line::Cond),
        Symbol::Token(Class::RightBracket, Effect::Nothing),
        Symbol::Turn(Turn::Leave),
        Symbol::Make(Action::Index),
        Symbol::Line(Line::PostfixTail),
    ],
    &[
        Symbol::Token(Class::Dot, Effect::Nothing),
        Symbol::Make(Action::Keep),
        Symbol::Token(Class::Name, Effect::Nothing),
        Symbol::Make(Action::Keep),
        Symbol::Make(Action::Dot),
        Symbol::Line(Line::PostfixTail),
    ],
    &[
        Symbol::Token(Class::Arrow, Effect::Nothing),
        Symbol::Make(Action::Keep),
        Symbol::Token(Class::Name, Effect::Nothing),
        Symbol::Make(Action::Keep),
        Symbol::Make(Action::Arrow),
        Symbol::Line(Line::PostfixTail),
    ],
    &[],
];

static PRIMARY: [&[Symbol<Class, Line, Action>]; 2] = [
    &[
        Symbol::Token(Class::Name, Effect::Nothing),
        Symbol::Make(Action::Keep),
        Symbol::Line(Line::NameTail),
    ],
    &[
        Symbol::Token(Class::Constant, Effect::Nothing),
        Symbol::Make(Action::Constant),
    ],
];

static NAME_TAIL: [&[Symbol<Class, Line, Action>]; 2] = [
    &[
        Symbol::Turn(Turn::Enter),
        Symbol::Token(Class::LeftParen, Effect::Opens),
        Symbol::Make(Action::NoArguments),
        Symbol::Line(Line::Arguments),
    ],
    &[Symbol::Make(Action::Name)],
];

static ARGUMENTS: [&[Symbol<Class, Line, Action>]; 2] = [
    &[
        Symbol::Token(Class::RightParen, Effect::Nothing),
        Symbol::Turn(Turn::Leave),
        Symbol::Make(Action::Call),
    ],
    &[
        Symbol::Turn(Turn::Enter),
        Symbol::Line(Line::Cond),
        Symbol::Turn(Turn::Leave),
        Symbol::Make(Action::AddArgument),
        Symbol::Line(Line::MoreArguments),
    ],
];

static MORE_ARGUMENTS: [&[Symbol<Class, Line, Action>]; 2] = [
    &[
        Symbol::Token(Class::Comma, Effect::Nothing),
        Symbol::Turn(Turn::Enter),
        Symbol::Line(Line::Cond),
        Symbol::Turn(Turn::Leave),
        Symbol::Make(Action::AddArgument),
        Symbol::Line(Line::MoreArguments),
    ],
    &[
        Symbol::Token(Class::RightParen, Effect::Nothing),
        Symbol::Turn(Turn::Leave),
        Symbol::Make(Action::Call),
    ],
];

static FILE_FIRST: [Class; 16] = [
    Class::TypeName,
    Class::Typedef,
    Class::Static,
    Class::Inline,
    Class::Extern,
    Class::Const,
    Class::Struct,
    Class::Enum,
    Class::Void,
    Class::Bool,
    Class::Char,
    Class::Short,
    Class::Int,
    Class::Long,
    Class::Signed,
    Class::Unsigned,
];

static FILE_FOLLOW: [Class; 0] = [];

static ITEMS_FIRST: [Class; 16] = [
    Class::TypeName,
    Class::Typedef,
    Class::Static,
    Class::Inline,
    Class::Extern,
    Class::Const,
    Class::Struct,
    Class::Enum,
    Class::Void,
    Class::Bool,
    Class::Char,
    Class::Short,
    Class::Int,
    Class::Long,
    Class::Signed,
    Class::Unsigned,
];

static ITEMS_FOLLOW: [Class; 0] = [];

static ITEM_FIRST: [Class; 16] = [
    Class::TypeName,
    Class::Typedef,
    Class::Static,
    Class::Inline,
    Class::Extern,
    Class::Const,
    Class::Struct,
    Class::Enum,
    Class::Void,
    Class::Bool,
    Class::Char,
    Class::Short,
    Class::Int,
    Class::Long,
    Class::Signed,
    Class::Unsigned,
];

static ITEM_FOLLOW: [Class; 16] = [
    Class::TypeName,
    Class::Typedef,
    Class::Static,
    Class::Inline,
    Class::Extern,
    Class::Const,
    Class::Struct,
    Class::Enum,
    Class::Void,
    Class::Bool,
    Class::Char,
    Class::Short,
    Class::Int,
    Class::Long,
    Class::Signed,
    Class::Unsigned,
];

static AFTER_STATIC_FIRST: [Class; 15] = [
    Class::TypeName,
    Class::Static,
    Class::Inline,
    Class::Extern,
    Class::Const,
    Class::Struct,
    Class::Enum,
    Class::Void,
    Class::Bool,
    Class::Char,
    Class::Short,
    Class::Int,
    Class::Long,
    Class::Signed,
    Class::Unsigned,
];

static AFTER_STATIC_FOLLOW: [Class; 16] = [
    Class::TypeName,
    Class::Typedef,
    Class::Static,
    Class::Inline,
    Class::Extern,
    Class::Const,
    Class::Struct,
    Class::Enum,
    Class::Void,
    Class::Bool,
    Class::Char,
    Class::Short,
    Class::Int,
    Class::Long,
    Class::Signed,
    Class::Unsigned,
];

static SPECIFIERS_FIRST: [Class; 15] = [
    Class::TypeName,
    Class::Static,
    Class::Inline,
    Class::Extern,
    Class::Const,
    Class::Struct,
    Class::Enum,
    Class::Void,
    Class::Bool,
    Class::Char,
    Class::Short,
    Class::Int,
    Class::Long,
    Class::Signed,
    Class::Unsigned,
];

static SPECIFIERS_FOLLOW: [Class; 16] = [
    Class::TypeName,
    Class::Typedef,
    Class::Static,
    Class::Inline,
    Class::Extern,
    Class::Const,
    Class::Struct,
    Class::Enum,
    Class::Void,
    Class::Bool,
    Class::Char,
    Class::Short,
    Class::Int,
    Class::Long,
    Class::Signed,
    Class::Unsigned,
];

static AFTER_BASE_FIRST: [Class; 3] = [Class::Name, Class::Semicolon, Class::Star];

static AFTER_BASE_FOLLOW: [Class; 16] = [
    Class::TypeName,
    Class::Typedef,
    Class::Static,
    Class::Inline,
    Class::Extern,
    Class::Const,
    Class::Struct,
    Class::Enum,
    Class::Void,
    Class::Bool,
    Class::Char,
    Class::Short,
    Class::Int,
    Class::Long,
    Class::Signed,
    Class::Unsigned,
];

static DECLARED_FIRST: [Class; 2] = [Class::Name, Class::Star];

static DECLARED_FOLLOW: [Class; 16] = [
    Class::TypeName,
    Class::Typedef,
    Class::Static,
    Class::Inline,
    Class::Extern,
    Class::Const,
    Class::Struct,
    Class::Enum,
    Class::Void,
    Class::Bool,
    Class::Char,
    Class::Short,
    Class::Int,
    Class::Long,
    Class::Signed,
    Class::Unsigned,
];

static AFTER_NAME_FIRST: [Class; 5] = [
    Class::LeftParen,
    Class::LeftBracket,
    Class::Semicolon,
    Class::Comma,
    Class::Equal,
];

static AFTER_NAME_FOLLOW: [Class; 16] = [
    Class::TypeName,
    Class::Typedef,
    Class::Static,
    Class::Inline,
    Class::Extern,
    Class::Const,
    Class::Struct,
    Class::Enum,
    Class::Void,
    Class::Bool,
    Class::Char,
    Class::Short,
    Class::Int,
    Class::Long,
    Class::Signed,
    Class::Unsigned,
];

static FUNCTION_END_FIRST: [Class; 2] = [Class::LeftBrace, Class::Semicolon];

static FUNCTION_END_FOLLOW: [Class; 16] = [
    Class::TypeName,
    Class::Typedef,
    Class::Static,
    Class::Inline,
    Class::Extern,
    Class::Const,
    Class::Struct,
    Class::Enum,
    Class::Void,
    Class::Bool,
    Class::Char,
    Class::Short,
    Class::Int,
    Class::Long,
    Class::Signed,
    Class::Unsigned,
];

static NEW_DECLARATOR_FIRST: [Class; 2] = [Class::Name, Class::Star];

static NEW_DECLARATOR_FOLLOW: [Class; 2] = [Class::Semicolon, Class::Comma];

static MORE_NEW_DECLARATORS_FIRST: [Class; 2] = [Class::Semicolon, Class::Comma];

static MORE_NEW_DECLARATORS_FOLLOW: [Class; 16] = [
    Class::TypeName,
    Class::Typedef,
    Class::Static,
    Class::Inline,
    Class::Extern,
    Class::Const,
    Class::Struct,
    Class::Enum,
    Class::Void,
    Class::Bool,
    Class::Char,
    Class::Short,
    Class::Int,
    Class::Long,
    Class::Signed,
    Class::Unsigned,
];

static PARAMS_FIRST: [Class; 14] = [
    Class::TypeName,
    Class::Register,
    Class::Const,
    Class::Struct,
    Class::Enum,
    Class::Void,
    Class::Bool,
    Class::Char,
    Class::Short,
    Class::Int,
    Class::Long,
    Class::Signed,
    Class::Unsigned,
    Class::RightParen,
];

static PARAMS_FOLLOW: [Class; 16] = [
    Class::TypeName,
    Class::Typedef,
    Class::Static,
    Class::Inline,
    Class::Extern,
    Class::Const,
    Class::Struct,
    Class::Enum,
    Class::Void,
    Class::Bool,
    Class::Char,
    Class::Short,
    Class::Int,
    Class::Long,
    Class::Signed,
    Class::Unsigned,
];

static AFTER_VOID_FIRST: [Class; 6] = [
    Class::Name,
    Class::Const,
    Class::RightParen,
    Class::LeftBracket,
    Class::Comma,
    Class::Star,
];

static AFTER_VOID_FOLLOW: [Class; 16] = [
    Class::TypeName,
    Class::Typedef,
    Class::Static,
    Class::Inline,
    Class::Extern,
    Class::Const,
    Class::Struct,
    Class::Enum,
    Class::Void,
    Class::Bool,
    Class::Char,
    Class::Short,
    Class::Int,
    Class::Long,
    Class::Signed,
    Class::Unsigned,
];

static MORE_PARAMS_FIRST: [Class; 2] = [Class::RightParen, Class::Comma];

static MORE_PARAMS_FOLLOW: [Class; 16] = [
    Class::TypeName,
    Class::Typedef,
    Class::Static,
    Class::Inline,
    Class::Extern,
    Class::Const,
    Class::Struct,
    Class::Enum,
    Class::Void,
    Class::Bool,
    Class::Char,
    Class::Short,
    Class::Int,
    Class::Long,
    Class::Signed,
    Class::Unsigned,
];

static PARAM_FIRST: [Class; 13] = [
    Class::TypeName,
    Class::Register,
    Class::Const,
    Class::Struct,
    Class::Enum,
    Class::Void,
    Class::Bool,
    Class::Char,
    Class::Short,
    Class::Int,
    Class::Long,
    Class::Signed,
    Class::Unsigned,
];

static PARAM_FOLLOW: [Class; 2] = [Class::RightParen, Class::Comma];

static PARAM_REST_FIRST: [Class; 3] = [Class::Name, Class::LeftBracket, Class::Star];

static PARAM_REST_FOLLOW: [Class; 2] = [Class::RightParen, Class::Comma];

static PARAM_NAME_FIRST: [Class; 2] = [Class::Name, Class::LeftBracket];

static PARAM_NAME_FOLLOW: [Class; 2] = [Class::RightParen, Class::Comma];

static BASE_FIRST: [Class; 12] = [
    Class::TypeName,
    Class::Const,
    Class::Struct,
    Class::Enum,
    Class::Void,
    Class::Bool,
    Class::Char,
    Class::Short,
    Class::Int,
    Class::Long,
    Class::Signed,
    Class::Unsigned,
];

static BASE_FOLLOW: [Class; 5] = [
    Class::Name,
    Class::RightParen,
    Class::LeftBracket,
    Class::Comma,
    Class::Star,
];

static BASE_WORDS_FIRST: [Class; 12] = [
    Class::TypeName,
    Class::Const,
    Class::Struct,
    Class::Enum,
    Class::Void,
    Class::Bool,
    Class::Char,
    Class::Short,
    Class::Int,
    Class::Long,
    Class::Signed,
    Class::Unsigned,
];

static BASE_WORDS_FOLLOW: [Class; 5] = [
    Class::Name,
    Class::RightParen,
    Class::LeftBracket,
    Class::Comma,
    Class::Star,
];

static BASE_NO_VOID_FIRST: [Class; 11] = [
    Class::TypeName,
    Class::Const,
    Class::Struct,
    Class::Enum,
    Class::Bool,
    Class::Char,
    Class::Short,
    Class::Int,
    Class::Long,
    Class::Signed,
    Class::Unsigned,
];

static BASE_NO_VOID_FOLLOW: [Class; 5] = [
    Class::Name,
    Class::RightParen,
    Class::LeftBracket,
    Class::Comma,
    Class::Star,
];

static NO_VOID_WORDS_FIRST: [Class; 11] = [
    Class::TypeName,
    Class::Const,
    Class::Struct,
    Class::Enum,
    Class::Bool,
    Class::Char,
    Class::Short,
    Class::Int,
    Class::Long,
    Class::Signed,
    Class::Unsigned,
];

static NO_VOID_WORDS_FOLLOW: [Class; 5] = [
    Class::Name,
    Class::RightParen,
    Class::LeftBracket,
    Class::Comma,
    Class::Star,
];

static NO_VOID_FIRST: [Class; 10] = [
    Class::TypeName,
    Class::Struct,
    Class::Enum,
    Class::Bool,
    Class::Char,
    Class::Short,
    Class::Int,
    Class::Long,
    Class::Signed,
    Class::Unsigned,
];

static NO_VOID_FOLLOW: [Class; 5] = [
    Class::Name,
    Class::RightParen,
    Class::LeftBracket,
    Class::Comma,
    Class::Star,
];

static ITEM_BASE_FIRST: [Class; 12] = [
    Class::TypeName,
    Class::Const,
    Class::Struct,
    Class::Enum,
    Class::Void,
    Class::Bool,
    Class::Char,
    Class::Short,
    Class::Int,
    Class::Long,
    Class::Signed,
    Class::Unsigned,
];

static ITEM_BASE_FOLLOW: [Class; 3] = [Class::Name, Class::Semicolon, Class::Star];

static ITEM_BASE_WORDS_FIRST: [Class; 12] = [
    Class::TypeName,
    Class::Const,
    Class::Struct,
    Class::Enum,
    Class::Void,
    Class::Bool,
    Class::Char,
    Class::Short,
    Class::Int,
    Class::Long,
    Class::Signed,
    Class::Unsigned,
];

static ITEM_BASE_WORDS_FOLLOW: [Class; 3] = [Class::Name, Class::Semicolon, Class::Star];

static TYPEDEF_BASE_FIRST: [Class; 12] = [
    Class::TypeName,
    Class::Const,
    Class::Struct,
    Class::Enum,
    Class::Void,
    Class::Bool,
    Class::Char,
    Class::Short,
    Class::Int,
    Class::Long,
    Class::Signed,
    Class::Unsigned,
];

static TYPEDEF_BASE_FOLLOW: [Class; 2] = [Class::Name, Class::Star];

static TYPEDEF_BASE_WORDS_FIRST: [Class; 12] = [
    Class::TypeName,
    Class::Const,
    Class::Struct,
    Class::Enum,
    Class::Void,
    Class::Bool,
    Class::Char,
    Class::Short,
    Class::Int,
    Class::Long,
    Class::Signed,
    Class::Unsigned,
];

static TYPEDEF_BASE_WORDS_FOLLOW: [Class; 2] = [Class::Name, Class::Star];

static STRUCT_REST_FIRST: [Class; 2] = [Class::Name, Class::LeftBrace];

static STRUCT_REST_FOLLOW: [Class; 3] = [Class::Name, Class::Const, Class::Star];

static STRUCT_BODY_FIRST: [Class; 1] = [Class::LeftBrace];

static STRUCT_BODY_FOLLOW: [Class; 4] = [Class::Name, Class::Const, Class::Semicolon, Class::Star];

static FIELD_FIRST: [Class; 12] = [
    Class::TypeName,
    Class::Const,
    Class::Struct,
    Class::Enum,
    Class::Void,
    Class::Bool,
    Class::Char,
    Class::Short,
    Class::Int,
    Class::Long,
    Class::Signed,
    Class::Unsigned,
];

static FIELD_FOLLOW: [Class; 13] = [
    Class::TypeName,
    Class::Const,
    Class::Struct,
    Class::Enum,
    Class::Void,
    Class::Bool,
    Class::Char,
    Class::Short,
    Class::Int,
    Class::Long,
    Class::Signed,
    Class::Unsigned,
    Class::RightBrace,
];

static FIELDS_FIRST: [Class; 13] = [
    Class::TypeName,
    Class::Const,
    Class::Struct,
    Class::Enum,
    Class::Void,
    Class::Bool,
    Class::Char,
    Class::Short,
    Class::Int,
    Class::Long,
    Class::Signed,
    Class::Unsigned,
    Class::RightBrace,
];

static FIELDS_FOLLOW: [Class; 4] = [Class::Name, Class::Const, Class::Semicolon, Class::Star];

static DECLARATOR_FIRST: [Class; 2] = [Class::Name, Class::Star];

static DECLARATOR_FOLLOW: [Class; 3] = [Class::Semicolon, Class::Comma, Class::Equal];

static MORE_DECLARATORS_FIRST: [Class; 2] = [Class::Semicolon, Class::Comma];

static MORE_DECLARATORS_FOLLOW: [Class; 13] = [
    Class::TypeName,
    Class::Const,
    Class::Struct,
    Class::Enum,
    Class::Void,
    Class::Bool,
    Class::Char,
    Class::Short,
    Class::Int,
    Class::Long,
    Class::Signed,
    Class::Unsigned,
    Class::RightBrace,
];

static ENUM_REST_FIRST: [Class; 2] = [Class::Name, Class::LeftBrace];

static ENUM_REST_FOLLOW: [Class; 4] = [Class::Name, Class::Const, Class::Semicolon, Class::Star];

static ENUM_BODY_FIRST: [Class; 1] = [Class::LeftBrace];

static ENUM_BODY_FOLLOW: [Class; 4] = [Class::Name, Class::Const, Class::Semicolon, Class::Star];

static ENUMERATOR_FIRST: [Class; 1] = [Class::Name];

static ENUMERATOR_FOLLOW: [Class; 2] = [Class::RightBrace, Class::Comma];

static ENUMERATOR_VALUE_FIRST: [Class; 1] = [Class::Equal];

static ENUMERATOR_VALUE_FOLLOW: [Class; 2] = [Class::RightBrace, Class::Comma];

static MORE_ENUMERATORS_FIRST: [Class; 2] = [Class::RightBrace, Class::Comma];

static MORE_ENUMERATORS_FOLLOW: [Class; 4] = [
    Class::Name,
    Class::Const,
    Class::Semicolon,
    Class::Star,
];

static ENUMERATORS_NEXT_FIRST: [Class; 2] = [Class::Name, Class::RightBrace];

static ENUMERATORS_NEXT_FOLLOW: [Class; 4] = [
    Class::Name,
    Class::Const,
    Class::Semicolon,
    Class::Star,
];

static CONSTS_FIRST: [Class; 1] = [Class::Const];

static CONSTS_FOLLOW: [Class; 6] = [
    Class::Name,
    Class::RightParen,
    Class::LeftBracket,
    Class::Semicolon,
    Class::Comma,
    Class::Star,
];

static QUALIFIERS_FIRST: [Class; 2] = [Class::Const, Class::Restrict];

static QUALIFIERS_FOLLOW: [Class; 4] = [
    Class::Name,
    Class::RightParen,
    Class::LeftBracket,
    Class::Comma,
];

static DIMS_FIRST: [Class; 1] = [Class::LeftBracket];

static DIMS_FOLLOW: [Class; 4] = [
    Class::RightParen,
    Class::Semicolon,
    Class::Comma,
    Class::Equal,
];

static DIM_END_FIRST: [Class; 11] = [
    Class::Name,
    Class::Constant,
    Class::Sizeof,
    Class::LeftParen,
    Class::RightBracket,
    Class::Tilde,
    Class::Exclamation,
    Class::Star,
    Class::Plus,
    Class::Minus,
    Class::Ampersand,
];

static DIM_END_FOLLOW: [Class; 4] = [
    Class::RightParen,
    Class::Semicolon,
    Class::Comma,
    Class::Equal,
];

static WORDS_FIRST: [Class; 7] = [
    Class::Bool,
    Class::Char,
    Class::Short,
    Class::Int,
    Class::Long,
    Class::Signed,
    Class::Unsigned,
];

static WORDS_FOLLOW: [Class; 6] = [
    Class::Name,
    Class::RightParen,
    Class::LeftBracket,
    Class::Semicolon,
    Class::Comma,
    Class::Star,
];

static WORDS_CHAR_FIRST: [Class; 3] = [Class::Const, Class::Signed, Class::Unsigned];

static WORDS_CHAR_FOLLOW: [Class; 6] = [
    Class::Name,
    Class::RightParen,
    Class::LeftBracket,
    Class::Semicolon,
    Class::Comma,
    Class::Star,
];

static WORDS_SIGN_FIRST: [Class; 5] = [
    Class::Const,
    Class::Char,
    Class::Short,
    Class::Int,
    Class::Long,
];

static WORDS_SIGN_FOLLOW: [Class; 6] = [
    Class::Name,
    Class::RightParen,
    Class::LeftBracket,
    Class::Semicolon,
    Class::Comma,
    Class::Star,
];

static WORDS_SHORT_FIRST: [Class; 4] = [Class::Const, Class::Int, Class::Signed, Class::Unsigned];

static WORDS_SHORT_FOLLOW: [Class; 6] = [
    Class::Name,
    Class::RightParen,
    Class::LeftBracket,
    Class::Semicolon,
    Class::Comma,
    Class::Star,
];

static WORDS_SIGN_SHORT_FIRST: [Class; 2] = [Class::Const, Class::Int];

static WORDS_SIGN_SHORT_FOLLOW: [Class; 6] = [
    Class::Name,
    Class::RightParen,
    Class::LeftBracket,
    Class::Semicolon,
    Class::Comma,
    Class::Star,
];

static WORDS_SHORT_INT_FIRST: [Class; 3] = [Class::Const, Class::Signed, Class::Unsigned];

static WORDS_SHORT_INT_FOLLOW: [Class; 6] = [
    Class::Name,
    Class::RightParen,
    Class::LeftBracket,
    Class::Semicolon,
    Class::Comma,
    Class::Star,
];

static WORDS_INT_FIRST: [Class; 5] = [
    Class::Const,
    Class::Short,
    Class::Long,
    Class::Signed,
    Class::Unsigned,
];

static WORDS_INT_FOLLOW: [Class; 6] = [
    Class::Name,
    Class::RightParen,
    Class::LeftBracket,
    Class::Semicolon,
    Class::Comma,
    Class::Star,
];

static WORDS_SIGN_INT_FIRST: [Class; 3] = [Class::Const, Class::Short, Class::Long];

static WORDS_SIGN_INT_FOLLOW: [Class; 6] = [
    Class::Name,
    Class::RightParen,
    Class::LeftBracket,
    Class::Semicolon,
    Class::Comma,
    Class::Star,
];

static WORDS_LONG_FIRST: [Class; 5] = [
    Class::Const,
    Class::Int,
    Class::Long,
    Class::Signed,
    Class::Unsigned,
];

static WORDS_LONG_FOLLOW: [Class; 6] = [
    Class::Name,
    Class::RightParen,
    Class::LeftBracket,
    Class::Semicolon,
    Class::Comma,
    Class::Star,
];

static WORDS_SIGN_LONG_FIRST: [Class; 3] = [Class::Const, Class::Int, Class::Long];

static WORDS_SIGN_LONG_FOLLOW: [Class; 6] = [
    Class::Name,
    Class::RightParen,
    Class::LeftBracket,
    Class::Semicolon,
    Class::Comma,
    Class::Star,
];

static WORDS_LONG_INT_FIRST: [Class; 4] = [
    Class::Const,
    Class::Long,
    Class::Signed,
    Class::Unsigned,
];

static WORDS_LONG_INT_FOLLOW: [Class; 6] = [
    Class::Name,
    Class::RightParen,
    Class::LeftBracket,
    Class::Semicolon,
    Class::Comma,
    Class::Star,
];

static WORDS_SIGN_LONG_INT_FIRST: [Class; 2] = [Class::Const, Class::Long];

static WORDS_SIGN_LONG_INT_FOLLOW: [Class; 6] = [
    Class::Name,
    Class::RightParen,
    Class::LeftBracket,
    Class::Semicolon,
    Class::Comma,
    Class::Star,
];

static WORDS_LONG_LONG_FIRST: [Class; 4] = [
    Class::Const,
    Class::Int,
    Class::Signed,
    Class::Unsigned,
];

static WORDS_LONG_LONG_FOLLOW: [Class; 6] = [
    Class::Name,
    Class::RightParen,
    Class::LeftBracket,
    Class::Semicolon,
    Class::Comma,
    Class::Star,
];

static WORDS_SIGN_LONG_LONG_FIRST: [Class; 2] = [Class::Const, Class::Int];

static WORDS_SIGN_LONG_LONG_FOLLOW: [Class; 6] = [
    Class::Name,
    Class::RightParen,
    Class::LeftBracket,
    Class::Semicolon,
    Class::Comma,
    Class::Star,
];

static WORDS_LONG_LONG_INT_FIRST: [Class; 3] = [Class::Const, Class::Signed, Class::Unsigned];

static WORDS_LONG_LONG_INT_FOLLOW: [Class; 6] = [
    Class::Name,
    Class::RightParen,
    Class::LeftBracket,
    Class::Semicolon,
    Class::Comma,
    Class::Star,
];

static BLOCK_FIRST: [Class; 1] = [Class::LeftBrace];

static BLOCK_FOLLOW: [Class; 44] = [
    Class::Name,
    Class::TypeName,
    Class::Constant,
    Class::Typedef,
    Class::Static,
    Class::Inline,
    Class::Extern,
    Class::Register,
    Class::Const,
    Class::Struct,
    Class::Enum,
    Class::Void,
    Class::Bool,
    Class::Char,
    Class::Short,
    Class::Int,
    Class::Long,
    Class::Signed,
    Class::Unsigned,
    Class::If,
    Class::ElseIf,
    Class::Else,
    Class::While,
    Class::Do,
    Class::For,
    Class::Switch,
    Class::Case,
    Class::Default,
    Class::Break,
    Class::Continue,
    Class::Return,
    Class::Sizeof,
    Class::LeftParen,
    Class::LeftBrace,
    Class::RightBrace,
    Class::Semicolon,
    Class::Increment,
    Class::Decrement,
    Class::Tilde,
    Class::Exclamation,
    Class::Star,
    Class::Plus,
    Class::Minus,
    Class::Ampersand,
];

static PARTS_FIRST: [Class; 36] = [
    Class::Name,
    Class::TypeName,
    Class::Constant,
    Class::Register,
    Class::Const,
    Class::Struct,
    Class::Enum,
    Class::Void,
    Class::Bool,
    Class::Char,
    Class::Short,
    Class::Int,
    Class::Long,
    Class::Signed,
    Class::Unsigned,
    Class::If,
    Class::While,
    Class::Do,
    Class::For,
    Class::Switch,
    Class::Break,
    Class::Continue,
    Class::Return,
    Class::Sizeof,
    Class::LeftParen,
    Class::LeftBrace,
    Class::RightBrace,
    Class::Semicolon,
    Class::Increment,
    Class::Decrement,
    Class::Tilde,
    Class::Exclamation,
    Class::Star,
    Class::Plus,
    Class::Minus,
    Class::Ampersand,
];

static PARTS_FOLLOW: [Class; 44] = [
    Class::Name,
    Class::TypeName,
    Class::Constant,
    Class::Typedef,
    Class::Static,
    Class::Inline,
    Class::Extern,
    Class::Register,
    Class::Const,
    Class::Struct,
    Class::Enum,
    Class::Void,
    Class::Bool,
    Class::Char,
    Class::Short,
    Class::Int,
    Class::Long,
    Class::Signed,
    Class::Unsigned,
    Class::If,
    Class::ElseIf,
    Class::Else,
    Class::While,
    Class::Do,
    Class::For,
    Class::Switch,
    Class::Case,
    Class::Default,
    Class::Break,
    Class::Continue,
    Class::Return,
    Class::Sizeof,
    Class::LeftParen,
    Class::LeftBrace,
    Class::RightBrace,
    Class::Semicolon,
    Class::Increment,
    Class::Decrement,
    Class::Tilde,
    Class::Exclamation,
    Class::Star,
    Class::Plus,
    Class::Minus,
    Class::Ampersand,
];

static LOCAL_FIRST: [Class; 13] = [
    Class::TypeName,
    Class::Register,
    Class::Const,
    Class::Struct,
    Class::Enum,
    Class::Void,
    Class::Bool,
    Class::Char,
    Class::Short,
    Class::Int,
    Class::Long,
    Class::Signed,
    Class::Unsigned,
];

static LOCAL_FOLLOW: [Class; 38] = [
    Class::Name,
    Class::TypeName,
    Class::Constant,
    Class::Register,
    Class::Const,
    Class::Struct,
    Class::Enum,
    Class::Void,
    Class::Bool,
    Class::Char,
    Class::Short,
    Class::Int,
    Class::Long,
    Class::Signed,
    Class::Unsigned,
    Class::If,
    Class::While,
    Class::Do,
    Class::For,
    Class::Switch,
    Class::Case,
    Class::Default,
    Class::Break,
    Class::Continue,
    Class::Return,
    Class::Sizeof,
    Class::LeftParen,
    Class::LeftBrace,
    Class::RightBrace,
    Class::Semicolon,
    Class::Increment,
    Class::Decrement,
    Class::Tilde,
    Class::Exclamation,
    Class::Star,
    Class::Plus,
    Class::Minus,
    Class::Ampersand,
];

static INIT_FIRST: [Class; 2] = [Class::Name, Class::Star];

static INIT_FOLLOW: [Class; 2] = [Class::Semicolon, Class::Comma];

static INIT_VALUE_FIRST: [Class; 1] = [Class::Equal];

static INIT_VALUE_FOLLOW: [Class; 2] = [Class::Semicolon, Class::Comma];

static MORE_INITS_FIRST: [Class; 2] = [Class::Semicolon, Class::Comma];

static MORE_INITS_FOLLOW: [Class; 42] = [
    Class::Name,
    Class::TypeName,
    Class::Constant,
    Class::Typedef,
    Class::Static,
    Class::Inline,
    Class::Extern,
    Class::Register,
    Class::Const,
    Class::Struct,
    Class::Enum,
    Class::Void,
    Class::Bool,
    Class::Char,
    Class::Short,
    Class::Int,
    Class::Long,
    Class::Signed,
    Class::Unsigned,
    Class::If,
    Class::While,
    Class::Do,
    Class::For,
    Class::Switch,
    Class::Case,
    Class::Default,
    Class::Break,
    Class::Continue,
    Class::Return,
    Class::Sizeof,
    Class::LeftParen,
    Class::LeftBrace,
    Class::RightBrace,
    Class::Semicolon,
    Class::Increment,
    Class::Decrement,
    Class::Tilde,
    Class::Exclamation,
    Class::Star,
    Class::Plus,
    Class::Minus,
    Class::Ampersand,
];

static VALUE_FIRST: [Class; 11] = [
    Class::Name,
    Class::Constant,
    Class::Sizeof,
    Class::LeftParen,
    Class::LeftBrace,
    Class::Tilde,
    Class::Exclamation,
    Class::Star,
    Class::Plus,
    Class::Minus,
    Class::Ampersand,
];

static VALUE_FOLLOW: [Class; 3] = [Class::RightBrace, Class::Semicolon, Class::Comma];

static MORE_VALUES_FIRST: [Class; 2] = [Class::RightBrace, Class::Comma];

static MORE_VALUES_FOLLOW: [Class; 3] = [Class::RightBrace, Class::Semicolon, Class::Comma];

static VALUES_NEXT_FIRST: [Class; 12] = [
    Class::Name,
    Class::Constant,
    Class::Sizeof,
    Class::LeftParen,
    Class::LeftBrace,
    Class::RightBrace,
    Class::Tilde,
    Class::Exclamation,
    Class::Star,
    Class::Plus,
    Class::Minus,
    Class::Ampersand,
];

static VALUES_NEXT_FOLLOW: [Class; 3] = [Class::RightBrace, Class::Semicolon, Class::Comma];

static STMT_FIRST: [Class; 22] = [
    Class::Name,
    Class::Constant,
    Class::If,
    Class::While,
    Class::Do,
    Class::For,
    Class::Switch,
    Class::Break,
    Class::Continue,
    Class::Return,
    Class::Sizeof,
    Class::LeftParen,
    Class::LeftBrace,
    Class::Semicolon,
    Class::Increment,
    Class::Decrement,
    Class::Tilde,
    Class::Exclamation,
    Class::Star,
    Class::Plus,
    Class::Minus,
    Class::Ampersand,
];

static STMT_FOLLOW: [Class; 40] = [
    Class::Name,
    Class::TypeName,
    Class::Constant,
    Class::Register,
    Class::Const,
    Class::Struct,
    Class::Enum,
    Class::Void,
    Class::Bool,
    Class::Char,
    Class::Short,
    Class::Int,
    Class::Long,
    Class::Signed,
    Class::Unsigned,
    Class::If,
    Class::ElseIf,
    Class::Else,
    Class::While,
    Class::Do,
    Class::For,
    Class::Switch,
    Class::Case,
    Class::Default,
    Class::Break,
    Class::Continue,
    Class::Return,
    Class::Sizeof,
    Class::LeftParen,
    Class::LeftBrace,
    Class::RightBrace,
    Class::Semicolon,
    Class::Increment,
    Class::Decrement,
    Class::Tilde,
    Class::Exclamation,
    Class::Star,
    Class::Plus,
    Class::Minus,
    Class::Ampersand,
];

static IF_STMT_FIRST: [Class; 1] = [Class::If];

static IF_STMT_FOLLOW: [Class; 40] = [
    Class::Name,
    Class::TypeName,
    Class::Constant,
    Class::Register,
    Class::Const,
    Class::Struct,
    Class::Enum,
    Class::Void,
    Class::Bool,
    Class::Char,
    Class::Short,
    Class::Int,
    Class::Long,
    Class::Signed,
    Class::Unsigned,
    Class::If,
    Class::ElseIf,
    Class::Else,
    Class::While,
    Class::Do,
    Class::For,
    Class::Switch,
    Class::Case,
    Class::Default,
    Class::Break,
    Class::Continue,
    Class::Return,
    Class::Sizeof,
    Class::LeftParen,
    Class::LeftBrace,
    Class::RightBrace,
    Class::Semicolon,
    Class::Increment,
    Class::Decrement,
    Class::Tilde,
    Class::Exclamation,
    Class::Star,
    Class::Plus,
    Class::Minus,
    Class::Ampersand,
];

static ELSE_PART_FIRST: [Class; 2] = [Class::ElseIf, Class::Else];

static ELSE_PART_FOLLOW: [Class; 40] = [
    Class::Name,
    Class::TypeName,
    Class::Constant,
    Class::Register,
    Class::Const,
    Class::Struct,
    Class::Enum,
    Class::Void,
    Class::Bool,
    Class::Char,
    Class::Short,
    Class::Int,
    Class::Long,
    Class::Signed,
    Class::Unsigned,
    Class::If,
    Class::ElseIf,
    Class::Else,
    Class::While,
    Class::Do,
    Class::For,
    Class::Switch,
    Class::Case,
    Class::Default,
    Class::Break,
    Class::Continue,
    Class::Return,
    Class::Sizeof,
    Class::LeftParen,
    Class::LeftBrace,
    Class::RightBrace,
    Class::Semicolon,
    Class::Increment,
    Class::Decrement,
    Class::Tilde,
    Class::Exclamation,
    Class::Star,
    Class::Plus,
    Class::Minus,
    Class::Ampersand,
];

static RETURN_REST_FIRST: [Class; 11] = [
    Class::Name,
    Class::Constant,
    Class::Sizeof,
    Class::LeftParen,
    Class::Semicolon,
    Class::Tilde,
    Class::Exclamation,
    Class::Star,
    Class::Plus,
    Class::Minus,
    Class::Ampersand,
];

static RETURN_REST_FOLLOW: [Class; 40] = [
    Class::Name,
    Class::TypeName,
    Class::Constant,
    Class::Register,
    Class::Const,
    Class::Struct,
    Class::Enum,
    Class::Void,
    Class::Bool,
    Class::Char,
    Class::Short,
    Class::Int,
    Class::Long,
    Class::Signed,
    Class::Unsigned,
    Class::If,
    Class::ElseIf,
    Class::Else,
    Class::While,
    Class::Do,
    Class::For,
    Class::Switch,
    Class::Case,
    Class::Default,
    Class::Break,
    Class::Continue,
    Class::Return,
    Class::Sizeof,
    Class::LeftParen,
    Class::LeftBrace,
    Class::RightBrace,
    Class::Semicolon,
    Class::Increment,
    Class::Decrement,
    Class::Tilde,
    Class::Exclamation,
    Class::Star,
    Class::Plus,
    Class::Minus,
    Class::Ampersand,
];

static FOR_START_FIRST: [Class; 26] = [
    Class::Name,
    Class::TypeName,
    Class::Constant,
    Class::Register,
    Class::Const,
    Class::Struct,
    Class::Enum,
    Class::Void,
    Class::Bool,
    Class::Char,
    Class::Short,
    Class::Int,
    Class::Long,
    Class::Signed,
    Class::Unsigned,
    Class::Sizeof,
    Class::LeftParen,
    Class::Semicolon,
    Class::Increment,
    Class::Decrement,
    Class::Tilde,
    Class::Exclamation,
    Class::Star,
    Class::Plus,
    Class::Minus,
    Class::Ampersand,
];

static FOR_START_FOLLOW: [Class; 11] = [
    Class::Name,
    Class::Constant,
    Class::Sizeof,
    Class::LeftParen,
    Class::Semicolon,
    Class::Tilde,
    Class::Exclamation,
    Class::Star,
    Class::Plus,
    Class::Minus,
    Class::Ampersand,
];

static FOR_TEST_FIRST: [Class; 11] = [
    Class::Name,
    Class::Constant,
    Class::Sizeof,
    Class::LeftParen,
    Class::Semicolon,
    Class::Tilde,
    Class::Exclamation,
    Class::Star,
    Class::Plus,
    Class::Minus,
    Class::Ampersand,
];

static FOR_TEST_FOLLOW: [Class; 13] = [
    Class::Name,
    Class::Constant,
    Class::Sizeof,
    Class::LeftParen,
    Class::RightParen,
    Class::Increment,
    Class::Decrement,
    Class::Tilde,
    Class::Exclamation,
    Class::Star,
    Class::Plus,
    Class::Minus,
    Class::Ampersand,
];

static FOR_STEP_FIRST: [Class; 12] = [
    Class::Name,
    Class::Constant,
    Class::Sizeof,
    Class::LeftParen,
    Class::Increment,
    Class::Decrement,
    Class::Tilde,
    Class::Exclamation,
    Class::Star,
    Class::Plus,
    Class::Minus,
    Class::Ampersand,
];

static FOR_STEP_FOLLOW: [Class; 1] = [Class::RightParen];

static GROUPS_FIRST: [Class; 3] = [Class::Case, Class::Default, Class::RightBrace];

static GROUPS_FOLLOW: [Class; 40] = [
    Class::Name,
    Class::TypeName,
    Class::Constant,
    Class::Register,
    Class::Const,
    Class::Struct,
    Class::Enum,
    Class::Void,
    Class::Bool,
    Class::Char,
    Class::Short,
    Class::Int,
    Class::Long,
    Class::Signed,
    Class::Unsigned,
    Class::If,
    Class::ElseIf,
    Class::Else,
    Class::While,
    Class::Do,
    Class::For,
    Class::Switch,
    Class::Case,
    Class::Default,
    Class::Break,
    Class::Continue,
    Class::Return,
    Class::Sizeof,
    Class::LeftParen,
    Class::LeftBrace,
    Class::RightBrace,
    Class::Semicolon,
    Class::Increment,
    Class::Decrement,
    Class::Tilde,
    Class::Exclamation,
    Class::Star,
    Class::Plus,
    Class::Minus,
    Class::Ampersand,
];

static GROUP_LABELS_FIRST: [Class; 38] = [
    Class::Name,
    Class::TypeName,
    Class::Constant,
    Class::Register,
    Class::Const,
    Class::Struct,
    Class::Enum,
    Class::Void,
    Class::Bool,
    Class::Char,
    Class::Short,
    Class::Int,
    Class::Long,
    Class::Signed,
    Class::Unsigned,
    Class::If,
    Class::While,
    Class::Do,
    Class::For,
    Class::Switch,
    Class::Case,
    Class::Default,
    Class::Break,
    Class::Continue,
    Class::Return,
    Class::Sizeof,
    Class::LeftParen,
    Class::LeftBrace,
    Class::RightBrace,
    Class::Semicolon,
    Class::Increment,
    Class::Decrement,
    Class::Tilde,
    Class::Exclamation,
    Class::Star,
    Class::Plus,
    Class::Minus,
    Class::Ampersand,
];

static GROUP_LABELS_FOLLOW: [Class; 40] = [
    Class::Name,
    Class::TypeName,
    Class::Constant,
    Class::Register,
    Class::Const,
    Class::Struct,
    Class::Enum,
    Class::Void,
    Class::Bool,
    Class::Char,
    Class::Short,
    Class::Int,
    Class::Long,
    Class::Signed,
    Class::Unsigned,
    Class::If,
    Class::ElseIf,
    Class::Else,
    Class::While,
    Class::Do,
    Class::For,
    Class::Switch,
    Class::Case,
    Class::Default,
    Class::Break,
    Class::Continue,
    Class::Return,
    Class::Sizeof,
    Class::LeftParen,
    Class::LeftBrace,
    Class::RightBrace,
    Class::Semicolon,
    Class::Increment,
    Class::Decrement,
    Class::Tilde,
    Class::Exclamation,
    Class::Star,
    Class::Plus,
    Class::Minus,
    Class::Ampersand,
];

static GROUP_PARTS_FIRST: [Class; 38] = [
    Class::Name,
    Class::TypeName,
    Class::Constant,
    Class::Register,
    Class::Const,
    Class::Struct,
    Class::Enum,
    Class::Void,
    Class::Bool,
    Class::Char,
    Class::Short,
    Class::Int,
    Class::Long,
    Class::Signed,
    Class::Unsigned,
    Class::If,
    Class::While,
    Class::Do,
    Class::For,
    Class::Switch,
    Class::Case,
    Class::Default,
    Class::Break,
    Class::Continue,
    Class::Return,
    Class::Sizeof,
    Class::LeftParen,
    Class::LeftBrace,
    Class::RightBrace,
    Class::Semicolon,
    Class::Increment,
    Class::Decrement,
    Class::Tilde,
    Class::Exclamation,
    Class::Star,
    Class::Plus,
    Class::Minus,
    Class::Ampersand,
];

static GROUP_PARTS_FOLLOW: [Class; 40] = [
    Class::Name,
    Class::TypeName,
    Class::Constant,
    Class::Register,
    Class::Const,
    Class::Struct,
    Class::Enum,
    Class::Void,
    Class::Bool,
    Class::Char,
    Class::Short,
    Class::Int,
    Class::Long,
    Class::Signed,
    Class::Unsigned,
    Class::If,
    Class::ElseIf,
    Class::Else,
    Class::While,
    Class::Do,
    Class::For,
    Class::Switch,
    Class::Case,
    Class::Default,
    Class::Break,
    Class::Continue,
    Class::Return,
    Class::Sizeof,
    Class::LeftParen,
    Class::LeftBrace,
    Class::RightBrace,
    Class::Semicolon,
    Class::Increment,
    Class::Decrement,
    Class::Tilde,
    Class::Exclamation,
    Class::Star,
    Class::Plus,
    Class::Minus,
    Class::Ampersand,
];

static LABEL_FIRST: [Class; 2] = [Class::Case, Class::Default];

static LABEL_FOLLOW: [Class; 38] = [
    Class::Name,
    Class::TypeName,
    Class::Constant,
    Class::Register,
    Class::Const,
    Class::Struct,
    Class::Enum,
    Class::Void,
    Class::Bool,
    Class::Char,
    Class::Short,
    Class::Int,
    Class::Long,
    Class::Signed,
    Class::Unsigned,
    Class::If,
    Class::While,
    Class::Do,
    Class::For,
    Class::Switch,
    Class::Case,
    Class::Default,
    Class::Break,
    Class::Continue,
    Class::Return,
    Class::Sizeof,
    Class::LeftParen,
    Class::LeftBrace,
    Class::RightBrace,
    Class::Semicolon,
    Class::Increment,
    Class::Decrement,
    Class::Tilde,
    Class::Exclamation,
    Class::Star,
    Class::Plus,
    Class::Minus,
    Class::Ampersand,
];

static ACTS_FIRST: [Class; 12] = [
    Class::Name,
    Class::Constant,
    Class::Sizeof,
    Class::LeftParen,
    Class::Increment,
    Class::Decrement,
    Class::Tilde,
    Class::Exclamation,
    Class::Star,
    Class::Plus,
    Class::Minus,
    Class::Ampersand,
];

static ACTS_FOLLOW: [Class; 2] = [Class::RightParen, Class::Semicolon];

static MORE_ACTS_FIRST: [Class; 1] = [Class::Comma];

static MORE_ACTS_FOLLOW: [Class; 2] = [Class::RightParen, Class::Semicolon];

static ACT_FIRST: [Class; 12] = [
    Class::Name,
    Class::Constant,
    Class::Sizeof,
    Class::LeftParen,
    Class::Increment,
    Class::Decrement,
    Class::Tilde,
    Class::Exclamation,
    Class::Star,
    Class::Plus,
    Class::Minus,
    Class::Ampersand,
];

static ACT_FOLLOW: [Class; 3] = [Class::RightParen, Class::Semicolon, Class::Comma];

static ACT_PAREN_FIRST: [Class; 22] = [
    Class::Name,
    Class::TypeName,
    Class::Constant,
    Class::Const,
    Class::Struct,
    Class::Enum,
    Class::Void,
    Class::Bool,
    Class::Char,
    Class::Short,
    Class::Int,
    Class::Long,
    Class::Signed,
    Class::Unsigned,
    Class::Sizeof,
    Class::LeftParen,
    Class::Tilde,
    Class::Exclamation,
    Class::Star,
    Class::Plus,
    Class::Minus,
    Class::Ampersand,
];

static ACT_PAREN_FOLLOW: [Class; 3] = [Class::RightParen, Class::Semicolon, Class::Comma];

static ACT_REST_FIRST: [Class; 32] = [
    Class::Question,
    Class::Increment,
    Class::Decrement,
    Class::Star,
    Class::Slash,
    Class::Percent,
    Class::Plus,
    Class::Minus,
    Class::ShiftLeft,
    Class::ShiftRight,
    Class::Less,
    Class::Greater,
    Class::LessEqual,
    Class::GreaterEqual,
    Class::EqualEqual,
    Class::NotEqual,
    Class::Ampersand,
    Class::Caret,
    Class::Bar,
    Class::AndAnd,
    Class::OrOr,
    Class::Equal,
    Class::StarEqual,
    Class::SlashEqual,
    Class::PercentEqual,
    Class::PlusEqual,
    Class::MinusEqual,
    Class::ShiftLeftEqual,
    Class::ShiftRightEqual,
    Class::AmpersandEqual,
    Class::CaretEqual,
    Class::BarEqual,
];

static ACT_REST_FOLLOW: [Class; 3] = [Class::RightParen, Class::Semicolon, Class::Comma];

static ASSIGN_FIRST: [Class; 11] = [
    Class::Equal,
    Class::StarEqual,
    Class::SlashEqual,
    Class::PercentEqual,
    Class::PlusEqual,
    Class::MinusEqual,
    Class::ShiftLeftEqual,
    Class::ShiftRightEqual,
    Class::AmpersandEqual,
    Class::CaretEqual,
    Class::BarEqual,
];

static ASSIGN_FOLLOW: [Class; 10] = [
    Class::Name,
    Class::Constant,
    Class::Sizeof,
    Class::LeftParen,
    Class::Tilde,
    Class::Exclamation,
    Class::Star,
    Class::Plus,
    Class::Minus,
    Class::Ampersand,
];

static COND_FIRST: [Class; 10] = [
    Class::Name,
    Class::Constant,
    Class::Sizeof,
    Class::LeftParen,
    Class::Tilde,
    Class::Exclamation,
    Class::Star,
    Class::Plus,
    Class::Minus,
    Class::Ampersand,
];

static COND_FOLLOW: [Class; 6] = [
    Class::RightParen,
    Class::RightBrace,
    Class::RightBracket,
    Class::Semicolon,
    Class::Comma,
    Class::Colon,
];

static COND_REST_FIRST: [Class; 19] = [
    Class::Question,
    Class::Star,
    Class::Slash,
    Class::Percent,
    Class::Plus,
    Class::Minus,
    Class::ShiftLeft,
    Class::ShiftRight,
    Class::Less,
    Class::Greater,
    Class::LessEqual,
    Class::GreaterEqual,
    Class::EqualEqual,
    Class::NotEqual,
    Class::Ampersand,
    Class::Caret,
    Class::Bar,
    Class::AndAnd,
    Class::OrOr,
];

static COND_REST_FOLLOW: [Class; 6] = [
    Class::RightParen,
    Class::RightBrace,
    Class::RightBracket,
    Class::Semicolon,
    Class::Comma,
    Class::Colon,
];

static QUESTION_FIRST: [Class; 1] = [Class::Question];

static QUESTION_FOLLOW: [Class; 6] = [
    Class::RightParen,
    Class::RightBrace,
    Class::RightBracket,
    Class::Semicolon,
    Class::Comma,
    Class::Colon,
];

static OR_TAIL_FIRST: [Class; 1] = [Class::OrOr];

static OR_TAIL_FOLLOW: [Class; 7] = [
    Class::RightParen,
    Class::RightBrace,
    Class::RightBracket,
    Class::Semicolon,
    Class::Comma,
    Class::Colon,
    Class::Question,
];

static AND_FIRST: [Class; 10] = [
    Class::Name,
    Class::Constant,
    Class::Sizeof,
    Class::LeftParen,
    Class::Tilde,
    Class::Exclamation,
    Class::Star,
    Class::Plus,
    Class::Minus,
    Class::Ampersand,
];

static AND_FOLLOW: [Class; 8] = [
    Class::RightParen,
    Class::RightBrace,
    Class::RightBracket,
    Class::Semicolon,
    Class::Comma,
    Class::Colon,
    Class::Question,
    Class::OrOr,
];

static AND_TAIL_FIRST: [Class; 1] = [Class::AndAnd];

static AND_TAIL_FOLLOW: [Class; 8] = [
    Class::RightParen,
    Class::RightBrace,
    Class::RightBracket,
    Class::Semicolon,
    Class::Comma,
    Class::Colon,
    Class::Question,
    Class::OrOr,
];

static BIT_OR_FIRST: [Class; 10] = [
    Class::Name,
    Class::Constant,
    Class::Sizeof,
    Class::LeftParen,
    Class::Tilde,
    Class::Exclamation,
    Class::Star,
    Class::Plus,
    Class::Minus,
    Class::Ampersand,
];

static BIT_OR_FOLLOW: [Class; 9] = [
    Class::RightParen,
    Class::RightBrace,
    Class::RightBracket,
    Class::Semicolon,
    Class::Comma,
    Class::Colon,
    Class::Question,
    Class::AndAnd,
    Class::OrOr,
];

static BIT_OR_TAIL_FIRST: [Class; 1] = [Class::Bar];

static BIT_OR_TAIL_FOLLOW: [Class; 9] = [
    Class::RightParen,
    Class::RightBrace,
    Class::RightBracket,
    Class::Semicolon,
    Class::Comma,
    Class::Colon,
    Class::Question,
    Class::AndAnd,
    Class::OrOr,
];

static XOR_FIRST: [Class; 10] = [
    Class::Name,
    Class::Constant,
    Class::Sizeof,
    Class::LeftParen,
    Class::Tilde,
    Class::Exclamation,
    Class::Star,
    Class::Plus,
    Class::Minus,
    Class::Ampersand,
];

static XOR_FOLLOW: [Class; 10] = [
    Class::RightParen,
    Class::RightBrace,
    Class::RightBracket,
    Class::Semicolon,
    Class::Comma,
    Class::Colon,
    Class::Question,
    Class::Bar,
    Class::AndAnd,
    Class::OrOr,
];

static XOR_TAIL_FIRST: [Class; 1] = [Class::Caret];

static XOR_TAIL_FOLLOW: [Class; 10] = [
    Class::RightParen,
    Class::RightBrace,
    Class::RightBracket,
    Class::Semicolon,
    Class::Comma,
    Class::Colon,
    Class::Question,
    Class::Bar,
    Class::AndAnd,
    Class::OrOr,
];

static BIT_AND_FIRST: [Class; 10] = [
    Class::Name,
    Class::Constant,
    Class::Sizeof,
    Class::LeftParen,
    Class::Tilde,
    Class::Exclamation,
    Class::Star,
    Class::Plus,
    Class::Minus,
    Class::Ampersand,
];

static BIT_AND_FOLLOW: [Class; 11] = [
    Class::RightParen,
    Class::RightBrace,
    Class::RightBracket,
    Class::Semicolon,
    Class::Comma,
    Class::Colon,
    Class::Question,
    Class::Caret,
    Class::Bar,
    Class::AndAnd,
    Class::OrOr,
];

static BIT_AND_TAIL_FIRST: [Class; 1] = [Class::Ampersand];

static BIT_AND_TAIL_FOLLOW: [Class; 11] = [
    Class::RightParen,
    Class::RightBrace,
    Class::RightBracket,
    Class::Semicolon,
    Class::Comma,
    Class::Colon,
    Class::Question,
    Class::Caret,
    Class::Bar,
    Class::AndAnd,
    Class::OrOr,
];

static EQUALITY_FIRST: [Class; 10] = [
    Class::Name,
    Class::Constant,
    Class::Sizeof,
    Class::LeftParen,
    Class::Tilde,
    Class::Exclamation,
    Class::Star,
    Class::Plus,
    Class::Minus,
    Class::Ampersand,
];

static EQUALITY_FOLLOW: [Class; 12] = [
    Class::RightParen,
    Class::RightBrace,
    Class::RightBracket,
    Class::Semicolon,
    Class::Comma,
    Class::Colon,
    Class::Question,
    Class::Ampersand,
    Class::Caret,
    Class::Bar,
    Class::AndAnd,
    Class::OrOr,
];

static EQUALITY_TAIL_FIRST: [Class; 2] = [Class::EqualEqual, Class::NotEqual];

static EQUALITY_TAIL_FOLLOW: [Class; 12] = [
    Class::RightParen,
    Class::RightBrace,
    Class::RightBracket,
    Class::Semicolon,
    Class::Comma,
    Class::Colon,
    Class::Question,
    Class::Ampersand,
    Class::Caret,
    Class::Bar,
    Class::AndAnd,
    Class::OrOr,
];

static RELATIONAL_FIRST: [Class; 10] = [
    Class::Name,
    Class::Constant,
    Class::Sizeof,
    Class::LeftParen,
    Class::Tilde,
    Class::Exclamation,
    Class::Star,
    Class::Plus,
    Class::Minus,
    Class::Ampersand,
];

static RELATIONAL_FOLLOW: [Class; 14] = [
    Class::RightParen,
    Class::RightBrace,
    Class::RightBracket,
    Class::Semicolon,
    Class::Comma,
    Class::Colon,
    Class::Question,
    Class::EqualEqual,
    Class::NotEqual,
    Class::Ampersand,
    Class::Caret,
    Class::Bar,
    Class::AndAnd,
    Class::OrOr,
];

static RELATIONAL_TAIL_FIRST: [Class; 4] = [
    Class::Less,
    Class::Greater,
    Class::LessEqual,
    Class::GreaterEqual,
];

static RELATIONAL_TAIL_FOLLOW: [Class; 14] = [
    Class::RightParen,
    Class::RightBrace,
    Class::RightBracket,
    Class::Semicolon,
    Class::Comma,
    Class::Colon,
    Class::Question,
    Class::EqualEqual,
    Class::NotEqual,
    Class::Ampersand,
    Class::Caret,
    Class::Bar,
    Class::AndAnd,
    Class::OrOr,
];

static SHIFT_FIRST: [Class; 10] = [
    Class::Name,
    Class::Constant,
    Class::Sizeof,
    Class::LeftParen,
    Class::Tilde,
    Class::Exclamation,
    Class::Star,
    Class::Plus,
    Class::Minus,
    Class::Ampersand,
];

static SHIFT_FOLLOW: [Class; 18] = [
    Class::RightParen,
    Class::RightBrace,
    Class::RightBracket,
    Class::Semicolon,
    Class::Comma,
    Class::Colon,
    Class::Question,
    Class::Less,
    Class::Greater,
    Class::LessEqual,
    Class::GreaterEqual,
    Class::EqualEqual,
    Class::NotEqual,
    Class::Ampersand,
    Class::Caret,
    Class::Bar,
    Class::AndAnd,
    Class::OrOr,
];

static SHIFT_TAIL_FIRST: [Class; 2] = [Class::ShiftLeft, Class::ShiftRight];

static SHIFT_TAIL_FOLLOW: [Class; 18] = [
    Class::RightParen,
    Class::RightBrace,
    Class::RightBracket,
    Class::Semicolon,
    Class::Comma,
    Class::Colon,
    Class::Question,
    Class::Less,
    Class::Greater,
    Class::LessEqual,
    Class::GreaterEqual,
    Class::EqualEqual,
    Class::NotEqual,
    Class::Ampersand,
    Class::Caret,
    Class::Bar,
    Class::AndAnd,
    Class::OrOr,
];

static SUM_FIRST: [Class; 10] = [
    Class::Name,
    Class::Constant,
    Class::Sizeof,
    Class::LeftParen,
    Class::Tilde,
    Class::Exclamation,
    Class::Star,
    Class::Plus,
    Class::Minus,
    Class::Ampersand,
];

static SUM_FOLLOW: [Class; 20] = [
    Class::RightParen,
    Class::RightBrace,
    Class::RightBracket,
    Class::Semicolon,
    Class::Comma,
    Class::Colon,
    Class::Question,
    Class::ShiftLeft,
    Class::ShiftRight,
    Class::Less,
    Class::Greater,
    Class::LessEqual,
    Class::GreaterEqual,
    Class::EqualEqual,
    Class::NotEqual,
    Class::Ampersand,
    Class::Caret,
    Class::Bar,
    Class::AndAnd,
    Class::OrOr,
];

static SUM_TAIL_FIRST: [Class; 2] = [Class::Plus, Class::Minus];

static SUM_TAIL_FOLLOW: [Class; 20] = [
    Class::RightParen,
    Class::RightBrace,
    Class::RightBracket,
    Class::Semicolon,
    Class::Comma,
    Class::Colon,
    Class::Question,
    Class::ShiftLeft,
    Class::ShiftRight,
    Class::Less,
    Class::Greater,
    Class::LessEqual,
    Class::GreaterEqual,
    Class::EqualEqual,
    Class::NotEqual,
    Class::Ampersand,
    Class::Caret,
    Class::Bar,
    Class::AndAnd,
    Class::OrOr,
];

static PRODUCT_FIRST: [Class; 10] = [
    Class::Name,
    Class::Constant,
    Class::Sizeof,
    Class::LeftParen,
    Class::Tilde,
    Class::Exclamation,
    Class::Star,
    Class::Plus,
    Class::Minus,
    Class::Ampersand,
];

static PRODUCT_FOLLOW: [Class; 22] = [
    Class::RightParen,
    Class::RightBrace,
    Class::RightBracket,
    Class::Semicolon,
    Class::Comma,
    Class::Colon,
    Class::Question,
    Class::Plus,
    Class::Minus,
    Class::ShiftLeft,
    Class::ShiftRight,
    Class::Less,
    Class::Greater,
    Class::LessEqual,
    Class::GreaterEqual,
    Class::EqualEqual,
    Class::NotEqual,
    Class::Ampersand,
    Class::Caret,
    Class::Bar,
    Class::AndAnd,
    Class::OrOr,
];

static PRODUCT_TAIL_FIRST: [Class; 3] = [Class::Star, Class::Slash, Class::Percent];

static PRODUCT_TAIL_FOLLOW: [Class; 22] = [
    Class::RightParen,
    Class::RightBrace,
    Class::RightBracket,
    Class::Semicolon,
    Class::Comma,
    Class::Colon,
    Class::Question,
    Class::Plus,
    Class::Minus,
    Class::ShiftLeft,
    Class::ShiftRight,
    Class::Less,
    Class::Greater,
    Class::LessEqual,
    Class::GreaterEqual,
    Class::EqualEqual,
    Class::NotEqual,
    Class::Ampersand,
    Class::Caret,
    Class::Bar,
    Class::AndAnd,
    Class::OrOr,
];

static UNARY_FIRST: [Class; 10] = [
    Class::Name,
    Class::Constant,
    Class::Sizeof,
    Class::LeftParen,
    Class::Tilde,
    Class::Exclamation,
    Class::Star,
    Class::Plus,
    Class::Minus,
    Class::Ampersand,
];

static UNARY_FOLLOW: [Class; 38] = [
    Class::RightParen,
    Class::RightBrace,
    Class::RightBracket,
    Class::Semicolon,
    Class::Comma,
    Class::Colon,
    Class::Question,
    Class::Increment,
    Class::Decrement,
    Class::Star,
    Class::Slash,
    Class::Percent,
    Class::Plus,
    Class::Minus,
    Class::ShiftLeft,
    Class::ShiftRight,
    Class::Less,
    Class::Greater,
    Class::LessEqual,
    Class::GreaterEqual,
    Class::EqualEqual,
    Class::NotEqual,
    Class::Ampersand,
    Class::Caret,
    Class::Bar,
    Class::AndAnd,
    Class::OrOr,
    Class::Equal,
    Class::StarEqual,
    Class::SlashEqual,
    Class::PercentEqual,
    Class::PlusEqual,
    Class::MinusEqual,
    Class::ShiftLeftEqual,
    Class::ShiftRightEqual,
    Class::AmpersandEqual,
    Class::CaretEqual,
    Class::BarEqual,
];

static AFTER_PAREN_FIRST: [Class; 22] = [
    Class::Name,
    Class::TypeName,
    Class::Constant,
    Class::Const,
    Class::Struct,
    Class::Enum,
    Class::Void,
    Class::Bool,
    Class::Char,
    Class::Short,
    Class::Int,
    Class::Long,
    Class::Signed,
    Class::Unsigned,
    Class::Sizeof,
    Class::LeftParen,
    Class::Tilde,
    Class::Exclamation,
    Class::Star,
    Class::Plus,
    Class::Minus,
    Class::Ampersand,
];

static AFTER_PAREN_FOLLOW: [Class; 38] = [
    Class::RightParen,
    Class::RightBrace,
    Class::RightBracket,
    Class::Semicolon,
    Class::Comma,
    Class::Colon,
    Class::Question,
    Class::Increment,
    Class::Decrement,
    Class::Star,
    Class::Slash,
    Class::Percent,
    Class::Plus,
    Class::Minus,
    Class::ShiftLeft,
    Class::ShiftRight,
    Class::Less,
    Class::Greater,
    Class::LessEqual,
    Class::GreaterEqual,
    Class::EqualEqual,
    Class::NotEqual,
    Class::Ampersand,
    Class::Caret,
    Class::Bar,
    Class::AndAnd,
    Class::OrOr,
    Class::Equal,
    Class::StarEqual,
    Class::SlashEqual,
    Class::PercentEqual,
    Class::PlusEqual,
    Class::MinusEqual,
    Class::ShiftLeftEqual,
    Class::ShiftRightEqual,
    Class::AmpersandEqual,
    Class::CaretEqual,
    Class::BarEqual,
];

static NON_PAREN_FIRST: [Class; 9] = [
    Class::Name,
    Class::Constant,
    Class::Sizeof,
    Class::Tilde,
    Class::Exclamation,
    Class::Star,
    Class::Plus,
    Class::Minus,
    Class::Ampersand,
];

static NON_PAREN_FOLLOW: [Class; 38] = [
    Class::RightParen,
    Class::RightBrace,
    Class::RightBracket,
    Class::Semicolon,
    Class::Comma,
    Class::Colon,
    Class::Question,
    Class::Increment,
    Class::Decrement,
    Class::Star,
    Class::Slash,
    Class::Percent,
    Class::Plus,
    Class::Minus,
    Class::ShiftLeft,
    Class::ShiftRight,
    Class::Less,
    Class::Greater,
    Class::LessEqual,
    Class::GreaterEqual,
    Class::EqualEqual,
    Class::NotEqual,
    Class::Ampersand,
    Class::Caret,
    Class::Bar,
    Class::AndAnd,
    Class::OrOr,
    Class::Equal,
    Class::StarEqual,
    Class::SlashEqual,
    Class::PercentEqual,
    Class::PlusEqual,
    Class::MinusEqual,
    Class::ShiftLeftEqual,
    Class::ShiftRightEqual,
    Class::AmpersandEqual,
    Class::CaretEqual,
    Class::BarEqual,
];

static AFTER_SIZEOF_FIRST: [Class; 10] = [
    Class::Name,
    Class::Constant,
    Class::Sizeof,
    Class::LeftParen,
    Class::Tilde,
    Class::Exclamation,
    Class::Star,
    Class::Plus,
    Class::Minus,
    Class::Ampersand,
];

static AFTER_SIZEOF_FOLLOW: [Class; 38] = [
    Class::RightParen,
    Class::RightBrace,
    Class::RightBracket,
    Class::Semicolon,
    Class::Comma,
    Class::Colon,
    Class::Question,
    Class::Increment,
    Class::Decrement,
    Class::Star,
    Class::Slash,
    Class::Percent,
    Class::Plus,
    Class::Minus,
    Class::ShiftLeft,
    Class::ShiftRight,
    Class::Less,
    Class::Greater,
    Class::LessEqual,
    Class::GreaterEqual,
    Class::EqualEqual,
    Class::NotEqual,
    Class::Ampersand,
    Class::Caret,
    Class::Bar,
    Class::AndAnd,
    Class::OrOr,
    Class::Equal,
    Class::StarEqual,
    Class::SlashEqual,
    Class::PercentEqual,
    Class::PlusEqual,
    Class::MinusEqual,
    Class::ShiftLeftEqual,
    Class::ShiftRightEqual,
    Class::AmpersandEqual,
    Class::CaretEqual,
    Class::BarEqual,
];

static SIZEOF_PAREN_FIRST: [Class; 22] = [
    Class::Name,
    Class::TypeName,
    Class::Constant,
    Class::Const,
    Class::Struct,
    Class::Enum,
    Class::Void,
    Class::Bool,
    Class::Char,
    Class::Short,
    Class::Int,
    Class::Long,
    Class::Signed,
    Class::Unsigned,
    Class::Sizeof,
    Class::LeftParen,
    Class::Tilde,
    Class::Exclamation,
    Class::Star,
    Class::Plus,
    Class::Minus,
    Class::Ampersand,
];

static SIZEOF_PAREN_FOLLOW: [Class; 38] = [
    Class::RightParen,
    Class::RightBrace,
    Class::RightBracket,
    Class::Semicolon,
    Class::Comma,
    Class::Colon,
    Class::Question,
    Class::Increment,
    Class::Decrement,
    Class::Star,
    Class::Slash,
    Class::Percent,
    Class::Plus,
    Class::Minus,
    Class::ShiftLeft,
    Class::ShiftRight,
    Class::Less,
    Class::Greater,
    Class::LessEqual,
    Class::GreaterEqual,
    Class::EqualEqual,
    Class::NotEqual,
    Class::Ampersand,
    Class::Caret,
    Class::Bar,
    Class::AndAnd,
    Class::OrOr,
    Class::Equal,
    Class::StarEqual,
    Class::SlashEqual,
    Class::PercentEqual,
    Class::PlusEqual,
    Class::MinusEqual,
    Class::ShiftLeftEqual,
    Class::ShiftRightEqual,
    Class::AmpersandEqual,
    Class::CaretEqual,
    Class::BarEqual,
];

static TYPE_FIRST: [Class; 12] = [
    Class::TypeName,
    Class::Const,
    Class::Struct,
    Class::Enum,
    Class::Void,
    Class::Bool,
    Class::Char,
    Class::Short,
    Class::Int,
    Class::Long,
    Class::Signed,
    Class::Unsigned,
];

static TYPE_FOLLOW: [Class; 1] = [Class::RightParen];

static TYPE_NO_VOID_FIRST: [Class; 11] = [
    Class::TypeName,
    Class::Const,
    Class::Struct,
    Class::Enum,
    Class::Bool,
    Class::Char,
    Class::Short,
    Class::Int,
    Class::Long,
    Class::Signed,
    Class::Unsigned,
];

static TYPE_NO_VOID_FOLLOW: [Class; 1] = [Class::RightParen];

static TYPE_REST_FIRST: [Class; 2] = [Class::LeftBracket, Class::Star];

static TYPE_REST_FOLLOW: [Class; 1] = [Class::RightParen];

static TYPE_DIMS_FIRST: [Class; 1] = [Class::LeftBracket];

static TYPE_DIMS_FOLLOW: [Class; 1] = [Class::RightParen];

static POSTFIX_TAIL_FIRST: [Class; 3] = [Class::LeftBracket, Class::Dot, Class::Arrow];

static POSTFIX_TAIL_FOLLOW: [Class; 38] = [
    Class::RightParen,
    Class::RightBrace,
    Class::RightBracket,
    Class::Semicolon,
    Class::Comma,
    Class::Colon,
    Class::Question,
    Class::Increment,
    Class::Decrement,
    Class::Star,
    Class::Slash,
    Class::Percent,
    Class::Plus,
    Class::Minus,
    Class::ShiftLeft,
    Class::ShiftRight,
    Class::Less,
    Class::Greater,
    Class::LessEqual,
    Class::GreaterEqual,
    Class::EqualEqual,
    Class::NotEqual,
    Class::Ampersand,
    Class::Caret,
    Class::Bar,
    Class::AndAnd,
    Class::OrOr,
    Class::Equal,
    Class::StarEqual,
    Class::SlashEqual,
    Class::PercentEqual,
    Class::PlusEqual,
    Class::MinusEqual,
    Class::ShiftLeftEqual,
    Class::ShiftRightEqual,
    Class::AmpersandEqual,
    Class::CaretEqual,
    Class::BarEqual,
];

static PRIMARY_FIRST: [Class; 2] = [Class::Name, Class::Constant];

static PRIMARY_FOLLOW: [Class; 41] = [
    Class::RightParen,
    Class::RightBrace,
    Class::LeftBracket,
    Class::RightBracket,
    Class::Semicolon,
    Class::Comma,
    Class::Colon,
    Class::Question,
    Class::Dot,
    Class::Arrow,
    Class::Increment,
    Class::Decrement,
    Class::Star,
    Class::Slash,
    Class::Percent,
    Class::Plus,
    Class::Minus,
    Class::ShiftLeft,
    Class::ShiftRight,
    Class::Less,
    Class::Greater,
    Class::LessEqual,
    Class::GreaterEqual,
    Class::EqualEqual,
    Class::NotEqual,
    Class::Ampersand,
    Class::Caret,
    Class::Bar,
    Class::AndAnd,
    Class::OrOr,
    Class::Equal,
    Class::StarEqual,
    Class::SlashEqual,
    Class::PercentEqual,
    Class::PlusEqual,
    Class::MinusEqual,
    Class::ShiftLeftEqual,
    Class::ShiftRightEqual,
    Class::AmpersandEqual,
    Class::CaretEqual,
    Class::BarEqual,
];

static NAME_TAIL_FIRST: [Class; 1] = [Class::LeftParen];

static NAME_TAIL_FOLLOW: [Class; 41] = [
    Class::RightParen,
    Class::RightBrace,
    Class::LeftBracket,
    Class::RightBracket,
    Class::Semicolon,
    Class::Comma,
    Class::Colon,
    Class::Question,
    Class::Dot,
    Class::Arrow,
    Class::Increment,
    Class::Decrement,
    Class::Star,
    Class::Slash,
    Class::Percent,
    Class::Plus,
    Class::Minus,
    Class::ShiftLeft,
    Class::ShiftRight,
    Class::Less,
    Class::Greater,
    Class::LessEqual,
    Class::GreaterEqual,
    Class::EqualEqual,
    Class::NotEqual,
    Class::Ampersand,
    Class::Caret,
    Class::Bar,
    Class::AndAnd,
    Class::OrOr,
    Class::Equal,
    Class::StarEqual,
    Class::SlashEqual,
    Class::PercentEqual,
    Class::PlusEqual,
    Class::MinusEqual,
    Class::ShiftLeftEqual,
    Class::ShiftRightEqual,
    Class::AmpersandEqual,
    Class::CaretEqual,
    Class::BarEqual,
];

static ARGUMENTS_FIRST: [Class; 11] = [
    Class::Name,
    Class::Constant,
    Class::Sizeof,
    Class::LeftParen,
    Class::RightParen,
    Class::Tilde,
    Class::Exclamation,
    Class::Star,
    Class::Plus,
    Class::Minus,
    Class::Ampersand,
];

static ARGUMENTS_FOLLOW: [Class; 41] = [
    Class::RightParen,
    Class::RightBrace,
    Class::LeftBracket,
    Class::RightBracket,
    Class::Semicolon,
    Class::Comma,
    Class::Colon,
    Class::Question,
    Class::Dot,
    Class::Arrow,
    Class::Increment,
    Class::Decrement,
    Class::Star,
    Class::Slash,
    Class::Percent,
    Class::Plus,
    Class::Minus,
    Class::ShiftLeft,
    Class::ShiftRight,
    Class::Less,
    Class::Greater,
    Class::LessEqual,
    Class::GreaterEqual,
    Class::EqualEqual,
    Class::NotEqual,
    Class::Ampersand,
    Class::Caret,
    Class::Bar,
    Class::AndAnd,
    Class::OrOr,
    Class::Equal,
    Class::StarEqual,
    Class::SlashEqual,
    Class::PercentEqual,
    Class::PlusEqual,
    Class::MinusEqual,
    Class::ShiftLeftEqual,
    Class::ShiftRightEqual,
    Class::AmpersandEqual,
    Class::CaretEqual,
    Class::BarEqual,
];

static MORE_ARGUMENTS_FIRST: [Class; 2] = [Class::RightParen, Class::Comma];

static MORE_ARGUMENTS_FOLLOW: [Class; 41] = [
    Class::RightParen,
    Class::RightBrace,
    Class::LeftBracket,
    Class::RightBracket,
    Class::Semicolon,
    Class::Comma,
    Class::Colon,
    Class::Question,
    Class::Dot,
    Class::Arrow,
    Class::Increment,
    Class::Decrement,
    Class::Star,
    Class::Slash,
    Class::Percent,
    Class::Plus,
    Class::Minus,
    Class::ShiftLeft,
    Class::ShiftRight,
    Class::Less,
    Class::Greater,
    Class::LessEqual,
    Class::GreaterEqual,
    Class::EqualEqual,
    Class::NotEqual,
    Class::Ampersand,
    Class::Caret,
    Class::Bar,
    Class::AndAnd,
    Class::OrOr,
    Class::Equal,
    Class::StarEqual,
    Class::SlashEqual,
    Class::PercentEqual,
    Class::PlusEqual,
    Class::MinusEqual,
    Class::ShiftLeftEqual,
    Class::ShiftRightEqual,
    Class::AmpersandEqual,
    Class::CaretEqual,
    Class::BarEqual,
];

/// The grammar of grammar.txt.
#[derive(Clone, Copy, Debug, PartialEq, Eq)]
pub struct CGrammar;

impl Grammar for CGrammar {
    ghost use Rattle.c_grammar.specs.Grammar.{rules, table};
    ghost use Rattle.c_grammar.specs.GrammarHolds.{is_right};

    type Class = Class;

    type Line = Line;

    type Action = Action;

    ghost rules = { rules };

    ghost table = { table };

    ghost right = { is_right };

    #[tactic(auto, unfolding(crate::specs::Grammar::rules, crate::specs::Grammar::number))]
    fn number(class: Class) -> u8 {
        match class {
            Class::Name => 0,
            Class::TypeName => 1,
            Class::Constant => 2,
            Class::Typedef => 3,
            Class::Static => 4,
            Class::Inline => 5,
            Class::Extern => 6,
            Class::Register => 7,
            Class::Const => 8,
            Class::Restrict => 9,
            Class::Struct => 10,
            Class::Enum => 11,
            Class::Void => 12,
            Class::Bool => 13,
            Class::Char => 14,
            Class::Short => 15,
            Class::Int => 16,
            Class::Long => 17,
            Class::Signed => 18,
            Class::Unsigned => 19,
            Class::If => 20,
            Class::ElseIf => 21,
            Class::Else => 22,
            Class::While => 23,
            Class::Do => 24,
            Class::For => 25,
            Class::Switch => 26,
            Class::Case => 27,
            Class::Default => 28,
            Class::Break => 29,
            Class::Continue => 30,
            Class::Return => 31,
            Class::Sizeof => 32,
            Class::LeftParen => 33,
            Class::RightParen => 34,
            Class::LeftBrace => 35,
            Class::RightBrace => 36,
            Class::LeftBracket => 37,
            Class::RightBracket => 38,
            Class::Semicolon => 39,
            Class::Comma => 40,
            Class::Colon => 41,
            Class::Question => 42,
            Class::Dot => 43,
            Class::Arrow => 44,
            Class::Increment => 45,
            Class::Decrement => 46,
            Class::Tilde => 47,
            Class::Exclamation => 48,
            Class::Star => 49,
            Class::Slash => 50,
            Class::Percent => 51,
            Class::Plus => 52,
            Class::Minus => 53,
            Class::ShiftLeft => 54,
            Class::ShiftRight => 55,
            Class::Less => 56,
            Class::Greater => 57,
            Class::LessEqual => 58,
            Class::GreaterEqual => 59,
            Class::EqualEqual => 60,
            Class::NotEqual => 61,
            Class::Ampersand => 62,
            Class::Caret => 63,
            Class::Bar => 64,
            Class::AndAnd => 65,
            Class::OrOr => 66,
            Class::Equal => 67,
            Class::StarEqual => 68,
            Class::SlashEqual => 69,
            Class::PercentEqual => 70,
            Class::PlusEqual => 71,
            Class::MinusEqual => 72,
            Class::ShiftLeftEqual => 73,
            Class::ShiftRightEqual => 74,
            Class::AmpersandEqual => 75,
            Class::CaretEqual => 76,
            Class::BarEqual => 77,
            Class::Other => 78,
        }
    }

    #[tactic(auto, unfolding(crate::specs::Grammar::rules))]
    fn name() -> Class {
        Class::Name
    }

    #[tactic(auto, unfolding(crate::specs::Grammar::rules))]
    fn type_name() -> Class {
        Class::TypeName
    }

    #[tactic(auto, unfolding(crate::specs::Grammar::rules))]
    fn start() -> Line {
        Line::File
    }

    #[tactic(auto, unfolding(crate::specs::Grammar::rules, crate::specs::Grammar::lines))]
    fn alternatives(line: Line) -> &'static [&'static [Symbol<Class, Line, Action>]] {
        match line {
            Line::File => &FILE,
            Line::Items => &ITEMS,
            Line::Item => &ITEM,
            Line::AfterStatic => &AFTER_STATIC,
            Line::Specifiers => &SPECIFIERS,
            Line::AfterBase => &AFTER_BASE,
            Line::Declared => &DECLARED,
            Line::AfterName => &AFTER_NAME,
            Line::FunctionEnd => &FUNCTION_END,
            Line::NewDeclarator => &NEW_DECLARATOR,
            Line::MoreNewDeclarators => &MORE_NEW_DECLARATORS,
            Line::Params => &PARAMS,
            Line::AfterVoid => &AFTER_VOID,
            Line::MoreParams => &MORE_PARAMS,
            Line::Param => &PARAM,
            Line::ParamRest => &PARAM_REST,
            Line::ParamName => &PARAM_NAME,
            Line::Base => &BASE,
            Line::BaseWords => &BASE_WORDS,
            Line::BaseNoVoid => &BASE_NO_VOID,
            Line::NoVoidWords => &NO_VOID_WORDS,
            Line::NoVoid => &NO_VOID,
            Line::ItemBase => &ITEM_BASE,
            Line::ItemBaseWords => &ITEM_BASE_WORDS,
            Line::TypedefBase => &TYPEDEF_BASE,
            Line::TypedefBaseWords => &TYPEDEF_BASE_WORDS,
            Line::StructRest => &STRUCT_REST,
            Line::StructBody => &STRUCT_BODY,
            Line::Field => &FIELD,
            Line::Fields => &FIELDS,
            Line::Declarator => &DECLARATOR,
            Line::MoreDeclarators => &MORE_DECLARATORS,
            Line::EnumRest => &ENUM_REST,
            Line::EnumBody => &ENUM_BODY,
            Line::Enumerator => &ENUMERATOR,
            Line::EnumeratorValue => &ENUMERATOR_VALUE,
            Line::MoreEnumerators => &MORE_ENUMERATORS,
            Line::EnumeratorsNext => &ENUMERATORS_NEXT,
            Line::Consts => &CONSTS,
            Line::Qualifiers => &QUALIFIERS,
            Line::Dims => &DIMS,
            Line::DimEnd => &DIM_END,
            Line::Words => &WORDS,
            Line::WordsChar => &WORDS_CHAR,
            Line::WordsSign => &WORDS_SIGN,
            Line::WordsShort => &WORDS_SHORT,
            Line::WordsSignShort => &WORDS_SIGN_SHORT,
            Line::WordsShortInt => &WORDS_SHORT_INT,
            Line::WordsInt => &WORDS_INT,
            Line::WordsSignInt => &WORDS_SIGN_INT,
            Line::WordsLong => &WORDS_LONG,
            Line::WordsSignLong => &WORDS_SIGN_LONG,
            Line::WordsLongInt => &WORDS_LONG_INT,
            Line::WordsSignLongInt => &WORDS_SIGN_LONG_INT,
            Line::WordsLongLong => &WORDS_LONG_LONG,
            Line::WordsSignLongLong => &WORDS_SIGN_LONG_LONG,
            Line::WordsLongLongInt => &WORDS_LONG_LONG_INT,
            Line::Block => &BLOCK,
            Line::Parts => &PARTS,
            Line::Local => &LOCAL,
            Line::Init => &INIT,
            Line::InitValue => &INIT_VALUE,
            Line::MoreInits => &MORE_INITS,
            Line::Value => &VALUE,
            Line::MoreValues => &MORE_VALUES,
            Line::ValuesNext => &VALUES_NEXT,
            Line::Stmt => &STMT,
            Line::IfStmt => &IF_STMT,
            Line::ElsePart => &ELSE_PART,
            Line::ReturnRest => &RETURN_REST,
            Line::ForStart => &FOR_START,
            Line::ForTest => &FOR_TEST,
            Line::ForStep => &FOR_STEP,
            Line::Groups => &GROUPS,
            Line::GroupLabels => &GROUP_LABELS,
            Line::GroupParts => &GROUP_PARTS,
            Line::Label => &LABEL,
            Line::Acts => &ACTS,
            Line::MoreActs => &MORE_ACTS,
            Line::Act => &ACT,
            Line::ActParen => &ACT_PAREN,
            Line::ActRest => &ACT_REST,
            Line::Assign => &ASSIGN,
            Line::Cond => &COND,
            Line::CondRest => &COND_REST,
            Line::Question => &QUESTION,
            Line::OrTail => &OR_TAIL,
            Line::And => &AND,
            Line::AndTail => &AND_TAIL,
            Line::BitOr => &BIT_OR,
            Line::BitOrTail => &BIT_OR_TAIL,
            Line::Xor => &XOR,
            Line::XorTail => &XOR_TAIL,
            Line::BitAnd => &BIT_AND,
            Line::BitAndTail => &BIT_AND_TAIL,
            Line::Equality => &EQUALITY,
            Line::EqualityTail => &EQUALITY_TAIL,
            Line::Relational => &RELATIONAL,
            Line::RelationalTail => &RELATIONAL_TAIL,
            Line::Shift => &SHIFT,
            Line::ShiftTail => &SHIFT_TAIL,
            Line::Sum => &SUM,
            Line::SumTail => &SUM_TAIL,
            Line::Product => &PRODUCT,
            Line::ProductTail => &PRODUCT_TAIL,
            Line::Unary => &UNARY,
            Line::AfterParen => &AFTER_PAREN,
            Line::NonParen => &NON_PAREN,
            Line::AfterSizeof => &AFTER_SIZEOF,
            Line::SizeofParen => &SIZEOF_PAREN,
            Line::Type => &TYPE,
            Line::TypeNoVoid => &TYPE_NO_VOID,
            Line::TypeRest => &TYPE_REST,
            Line::TypeDims => &TYPE_DIMS,
            Line::PostfixTail => &POSTFIX_TAIL,
            Line::Primary => &PRIMARY,
            Line::NameTail => &NAME_TAIL,
            Line::Arguments => &ARGUMENTS,
            Line::MoreArguments => &MORE_ARGUMENTS,
        }
    }

    #[tactic(auto, unfolding(crate::specs::Grammar::table, crate::specs::Grammar::first))]
    fn first(line: Line) -> &'static [Class] {
        match line {
            Line::File => &FILE_FIRST,
            Line::Items => &ITEMS_FIRST,
            Line::Item => &ITEM_FIRST,
            Line::AfterStatic => &AFTER_STATIC_FIRST,
            Line::Specifiers => &SPECIFIERS_FIRST,
            Line::AfterBase => &AFTER_BASE_FIRST,
            Line::Declared => &DECLARED_FIRST,
            Line::AfterName => &AFTER_NAME_FIRST,
            Line::FunctionEnd => &FUNCTION_END_FIRST,
            Line::NewDeclarator => &NEW_DECLARATOR_FIRST,
            Line::MoreNewDeclarators => &MORE_NEW_DECLARATORS_FIRST,
            Line::Params => &PARAMS_FIRST,
            Line::AfterVoid => &AFTER_VOID_FIRST,
            Line::MoreParams => &MORE_PARAMS_FIRST,
            Line::Param => &PARAM_FIRST,
            Line::ParamRest => &PARAM_REST_FIRST,
            Line::ParamName => &PARAM_NAME_FIRST,
            Line::Base => &BASE_FIRST,
            Line::BaseWords => &BASE_WORDS_FIRST,
            Line::BaseNoVoid => &BASE_NO_VOID_FIRST,
            Line::NoVoidWords => &NO_VOID_WORDS_FIRST,
            Line::NoVoid => &NO_VOID_FIRST,
            Line::ItemBase => &ITEM_BASE_FIRST,
            Line::ItemBaseWords => &ITEM_BASE_WORDS_FIRST,
            Line::TypedefBase => &TYPEDEF_BASE_FIRST,
            Line::TypedefBaseWords => &TYPEDEF_BASE_WORDS_FIRST,
            Line::StructRest => &STRUCT_REST_FIRST,
            Line::StructBody => &STRUCT_BODY_FIRST,
            Line::Field => &FIELD_FIRST,
            Line::Fields => &FIELDS_FIRST,
            Line::Declarator => &DECLARATOR_FIRST,
            Line::MoreDeclarators => &MORE_DECLARATORS_FIRST,
            Line::EnumRest => &ENUM_REST_FIRST,
            Line::EnumBody => &ENUM_BODY_FIRST,
            Line::Enumerator => &ENUMERATOR_FIRST,
            Line::EnumeratorValue => &ENUMERATOR_VALUE_FIRST,
            Line::MoreEnumerators => &MORE_ENUMERATORS_FIRST,
            Line::EnumeratorsNext => &ENUMERATORS_NEXT_FIRST,
            Line::Consts => &CONSTS_FIRST,
            Line::Qualifiers => &QUALIFIERS_FIRST,
            Line::Dims => &DIMS_FIRST,
            Line::DimEnd => &DIM_END_FIRST,
            Line::Words => &WORDS_FIRST,
            Line::WordsChar => &WORDS_CHAR_FIRST,
            Line::WordsSign => &WORDS_SIGN_FIRST,
            Line::WordsShort => &WORDS_SHORT_FIRST,
            Line::WordsSignShort => &WORDS_SIGN_SHORT_FIRST,
            Line::WordsShortInt => &WORDS_SHORT_INT_FIRST,
            Line::WordsInt => &WORDS_INT_FIRST,
            Line::WordsSignInt => &WORDS_SIGN_INT_FIRST,
            Line::WordsLong => &WORDS_LONG_FIRST,
            Line::WordsSignLong => &WORDS_SIGN_LONG_FIRST,
            Line::WordsLongInt => &WORDS_LONG_INT_FIRST,
            Line::WordsSignLongInt => &WORDS_SIGN_LONG_INT_FIRST,
            Line::WordsLongLong => &WORDS_LONG_LONG_FIRST,
            Line::WordsSignLongLong => &WORDS_SIGN_LONG_LONG_FIRST,
            Line::WordsLongLongInt => &WORDS_LONG_LONG_INT_FIRST,
            Line::Block => &BLOCK_FIRST,
            Line::Parts => &PARTS_FIRST,
            Line::Local => &LOCAL_FIRST,
            Line::Init => &INIT_FIRST,
            Line::InitValue => &INIT_VALUE_FIRST,
            Line::MoreInits => &MORE_INITS_FIRST,
            Line::Value => &VALUE_FIRST,
            Line::MoreValues => &MORE_VALUES_FIRST,
            Line::ValuesNext => &VALUES_NEXT_FIRST,
            Line::Stmt => &STMT_FIRST,
            Line::IfStmt => &IF_STMT_FIRST,
            Line::ElsePart => &ELSE_PART_FIRST,
            Line::ReturnRest => &RETURN_REST_FIRST,
            Line::ForStart => &FOR_START_FIRST,
            Line::ForTest => &FOR_TEST_FIRST,
            Line::ForStep => &FOR_STEP_FIRST,
            Line::Groups => &GROUPS_FIRST,
            Line::GroupLabels => &GROUP_LABELS_FIRST,
            Line::GroupParts => &GROUP_PARTS_FIRST,
            Line::Label => &LABEL_FIRST,
            Line::Acts => &ACTS_FIRST,
            Line::MoreActs => &MORE_ACTS_FIRST,
            Line::Act => &ACT_FIRST,
            Line::ActParen => &ACT_PAREN_FIRST,
            Line::ActRest => &ACT_REST_FIRST,
            Line::Assign => &ASSIGN_FIRST,
            Line::Cond => &COND_FIRST,
            Line::CondRest => &COND_REST_FIRST,
            Line::Question => &QUESTION_FIRST,
            Line::OrTail => &OR_TAIL_FIRST,
            Line::And => &AND_FIRST,
            Line::AndTail => &AND_TAIL_FIRST,
            Line::BitOr => &BIT_OR_FIRST,
            Line::BitOrTail => &BIT_OR_TAIL_FIRST,
            Line::Xor => &XOR_FIRST,
            Line::XorTail => &XOR_TAIL_FIRST,
            Line::BitAnd => &BIT_AND_FIRST,
            Line::BitAndTail => &BIT_AND_TAIL_FIRST,
            Line::Equality => &EQUALITY_FIRST,
            Line::EqualityTail => &EQUALITY_TAIL_FIRST,
            Line::Relational => &RELATIONAL_FIRST,
            Line::RelationalTail => &RELATIONAL_TAIL_FIRST,
            Line::Shift => &SHIFT_FIRST,
            Line::ShiftTail => &SHIFT_TAIL_FIRST,
            Line::Sum => &SUM_FIRST,
            Line::SumTail => &SUM_TAIL_FIRST,
            Line::Product => &PRODUCT_FIRST,
            Line::ProductTail => &PRODUCT_TAIL_FIRST,
            Line::Unary => &UNARY_FIRST,
            Line::AfterParen => &AFTER_PAREN_FIRST,
            Line::NonParen => &NON_PAREN_FIRST,
            Line::AfterSizeof => &AFTER_SIZEOF_FIRST,
            Line::SizeofParen => &SIZEOF_PAREN_FIRST,
            Line::Type => &TYPE_FIRST,
            Line::TypeNoVoid => &TYPE_NO_VOID_FIRST,
            Line::TypeRest => &TYPE_REST_FIRST,
            Line::TypeDims => &TYPE_DIMS_FIRST,
            Line::PostfixTail => &POSTFIX_TAIL_FIRST,
            Line::Primary => &PRIMARY_FIRST,
            Line::NameTail => &NAME_TAIL_FIRST,
            Line::Arguments => &ARGUMENTS_FIRST,
            Line::MoreArguments => &MORE_ARGUMENTS_FIRST,
        }
    }

    #[tactic(auto, unfolding(crate::specs::Grammar::table, crate::specs::Grammar::follow))]
    fn follow(line: Line) -> &'static [Class] {
        match line {
            Line::File => &FILE_FOLLOW,
            Line::Items => &ITEMS_FOLLOW,
            Line::Item => &ITEM_FOLLOW,
            Line::AfterStatic => &AFTER_STATIC_FOLLOW,
            Line::Specifiers => &SPECIFIERS_FOLLOW,
            Line::AfterBase => &AFTER_BASE_FOLLOW,
            Line::Declared => &DECLARED_FOLLOW,
            Line::AfterName => &AFTER_NAME_FOLLOW,
            Line::FunctionEnd => &FUNCTION_END_FOLLOW,
            Line::NewDeclarator => &NEW_DECLARATOR_FOLLOW,
            Line::MoreNewDeclarators => &MORE_NEW_DECLARATORS_FOLLOW,
            Line::Params => &PARAMS_FOLLOW,
            Line::AfterVoid => &AFTER_VOID_FOLLOW,
            Line::MoreParams => &MORE_PARAMS_FOLLOW,
            Line::Param => &PARAM_FOLLOW,
            Line::ParamRest => &PARAM_REST_FOLLOW,
            Line::ParamName => &PARAM_NAME_FOLLOW,
            Line::Base => &BASE_FOLLOW,
            Line::BaseWords => &BASE_WORDS_FOLLOW,
            Line::BaseNoVoid => &BASE_NO_VOID_FOLLOW,
            Line::NoVoidWords => &NO_VOID_WORDS_FOLLOW,
            Line::NoVoid => &NO_VOID_FOLLOW,
            Line::ItemBase => &ITEM_BASE_FOLLOW,
            Line::ItemBaseWords => &ITEM_BASE_WORDS_FOLLOW,
            Line::TypedefBase => &TYPEDEF_BASE_FOLLOW,
            Line::TypedefBaseWords => &TYPEDEF_BASE_WORDS_FOLLOW,
            Line::StructRest => &STRUCT_REST_FOLLOW,
            Line::StructBody => &STRUCT_BODY_FOLLOW,
            Line::Field => &FIELD_FOLLOW,
            Line::Fields => &FIELDS_FOLLOW,
            Line::Declarator => &DECLARATOR_FOLLOW,
            Line::MoreDeclarators => &MORE_DECLARATORS_FOLLOW,
            Line::EnumRest => &ENUM_REST_FOLLOW,
            Line::EnumBody => &ENUM_BODY_FOLLOW,
            Line::Enumerator => &ENUMERATOR_FOLLOW,
            Line::EnumeratorValue => &ENUMERATOR_VALUE_FOLLOW,
            Line::MoreEnumerators => &MORE_ENUMERATORS_FOLLOW,
            Line::EnumeratorsNext => &ENUMERATORS_NEXT_FOLLOW,
            Line::Consts => &CONSTS_FOLLOW,
            Line::Qualifiers => &QUALIFIERS_FOLLOW,
            Line::Dims => &DIMS_FOLLOW,
            Line::DimEnd => &DIM_END_FOLLOW,
            Line::Words => &WORDS_FOLLOW,
            Line::WordsChar => &WORDS_CHAR_FOLLOW,
            Line::WordsSign => &WORDS_SIGN_FOLLOW,
            Line::WordsShort => &WORDS_SHORT_FOLLOW,
            Line::WordsSignShort => &WORDS_SIGN_SHORT_FOLLOW,
            Line::WordsShortInt => &WORDS_SHORT_INT_FOLLOW,
            Line::WordsInt => &WORDS_INT_FOLLOW,
            Line::WordsSignInt => &WORDS_SIGN_INT_FOLLOW,
            Line::WordsLong => &WORDS_LONG_FOLLOW,
            Line::WordsSignLong => &WORDS_SIGN_LONG_FOLLOW,
            Line::WordsLongInt => &WORDS_LONG_INT_FOLLOW,
            Line::WordsSignLongInt => &WORDS_SIGN_LONG_INT_FOLLOW,
            Line::WordsLongLong => &WORDS_LONG_LONG_FOLLOW,
            Line::WordsSignLongLong => &WORDS_SIGN_LONG_LONG_FOLLOW,
            Line::WordsLongLongInt => &WORDS_LONG_LONG_INT_FOLLOW,
            Line::Block => &BLOCK_FOLLOW,
            Line::Parts => &PARTS_FOLLOW,
            Line::Local => &LOCAL_FOLLOW,
            Line::Init => &INIT_FOLLOW,
            Line::InitValue => &INIT_VALUE_FOLLOW,
            Line::MoreInits => &MORE_INITS_FOLLOW,
            Line::Value => &VALUE_FOLLOW,
            Line::MoreValues => &MORE_VALUES_FOLLOW,
            Line::ValuesNext => &VALUES_NEXT_FOLLOW,
            Line::Stmt => &STMT_FOLLOW,
            Line::IfStmt => &IF_STMT_FOLLOW,
            Line::ElsePart => &ELSE_PART_FOLLOW,
            Line::ReturnRest => &RETURN_REST_FOLLOW,
            Line::ForStart => &FOR_START_FOLLOW,
            Line::ForTest => &FOR_TEST_FOLLOW,
            Line::ForStep => &FOR_STEP_FOLLOW,
            Line::Groups => &GROUPS_FOLLOW,
            Line::GroupLabels => &GROUP_LABELS_FOLLOW,
            Line::GroupParts => &GROUP_PARTS_FOLLOW,
            Line::Label => &LABEL_FOLLOW,
            Line::Acts => &ACTS_FOLLOW,
            Line::MoreActs => &MORE_ACTS_FOLLOW,
            Line::Act => &ACT_FOLLOW,
            Line::ActParen => &ACT_PAREN_FOLLOW,
            Line::ActRest => &ACT_REST_FOLLOW,
            Line::Assign => &ASSIGN_FOLLOW,
            Line::Cond => &COND_FOLLOW,
            Line::CondRest => &COND_REST_FOLLOW,
            Line::Question => &QUESTION_FOLLOW,
            Line::OrTail => &OR_TAIL_FOLLOW,
            Line::And => &AND_FOLLOW,
            Line::AndTail => &AND_TAIL_FOLLOW,
            Line::BitOr => &BIT_OR_FOLLOW,
            Line::BitOrTail => &BIT_OR_TAIL_FOLLOW,
            Line::Xor => &XOR_FOLLOW,
            Line::XorTail => &XOR_TAIL_FOLLOW,
            Line::BitAnd => &BIT_AND_FOLLOW,
            Line::BitAndTail => &BIT_AND_TAIL_FOLLOW,
            Line::Equality => &EQUALITY_FOLLOW,
            Line::EqualityTail => &EQUALITY_TAIL_FOLLOW,
            Line::Relational => &RELATIONAL_FOLLOW,
            Line::RelationalTail => &RELATIONAL_TAIL_FOLLOW,
            Line::Shift => &SHIFT_FOLLOW,
            Line::ShiftTail => &SHIFT_TAIL_FOLLOW,
            Line::Sum => &SUM_FOLLOW,
            Line::SumTail => &SUM_TAIL_FOLLOW,
            Line::Product => &PRODUCT_FOLLOW,
            Line::ProductTail => &PRODUCT_TAIL_FOLLOW,
            Line::Unary => &UNARY_FOLLOW,
            Line::AfterParen => &AFTER_PAREN_FOLLOW,
            Line::NonParen => &NON_PAREN_FOLLOW,
            Line::AfterSizeof => &AFTER_SIZEOF_FOLLOW,
            Line::SizeofParen => &SIZEOF_PAREN_FOLLOW,
            Line::Type => &TYPE_FOLLOW,
            Line::TypeNoVoid => &TYPE_NO_VOID_FOLLOW,
            Line::TypeRest => &TYPE_REST_FOLLOW,
            Line::TypeDims => &TYPE_DIMS_FOLLOW,
            Line::PostfixTail => &POSTFIX_TAIL_FOLLOW,
            Line::Primary => &PRIMARY_FOLLOW,
            Line::NameTail => &NAME_TAIL_FOLLOW,
            Line::Arguments => &ARGUMENTS_FOLLOW,
            Line::MoreArguments => &MORE_ARGUMENTS_FOLLOW,
        }
    }

    #[tactic(auto, unfolding(crate::specs::Grammar::table, crate::specs::Grammar::empty))]
    fn is_empty(line: Line) -> bool {
        match line {
            Line::File => true,
            Line::Items => true,
            Line::Item => false,
            Line::AfterStatic => false,
            Line::Specifiers => false,
            Line::AfterBase => false,
            Line::Declared => false,
            Line::AfterName => false,
            Line::FunctionEnd => false,
            Line::NewDeclarator => false,
            Line::MoreNewDeclarators => false,
            Line::Params => false,
            Line::AfterVoid => false,
            Line::MoreParams => false,
            Line::Param => false,
            Line::ParamRest => true,
            Line::ParamName => true,
            Line::Base => false,
            Line::BaseWords => false,
            Line::BaseNoVoid => false,
            Line::NoVoidWords => false,
            Line::NoVoid => false,
            Line::ItemBase => false,
            Line::ItemBaseWords => false,
            Line::TypedefBase => false,
            Line::TypedefBaseWords => false,
            Line::StructRest => false,
            Line::StructBody => true,
            Line::Field => false,
            Line::Fields => false,
            Line::Declarator => false,
            Line::MoreDeclarators => false,
            Line::EnumRest => false,
            Line::EnumBody => true,
            Line::Enumerator => false,
            Line::EnumeratorValue => true,
            Line::MoreEnumerators => false,
            Line::EnumeratorsNext => false,
            Line::Consts => true,
            Line::Qualifiers => true,
            Line::Dims => true,
            Line::DimEnd => false,
            Line::Words => false,
            Line::WordsChar => true,
            Line::WordsSign => true,
            Line::WordsShort => true,
            Line::WordsSignShort => true,
            Line::WordsShortInt => true,
            Line::WordsInt => true,
            Line::WordsSignInt => true,
            Line::WordsLong => true,
            Line::WordsSignLong => true,
            Line::WordsLongInt => true,
            Line::WordsSignLongInt => true,
            Line::WordsLongLong => true,
            Line::WordsSignLongLong => true,
            Line::WordsLongLongInt => true,
            Line::Block => false,
            Line::Parts => false,
            Line::Local => false,
            Line::Init => false,
            Line::InitValue => true,
            Line::MoreInits => false,
            Line::Value => false,
            Line::MoreValues => false,
            Line::ValuesNext => false,
            Line::Stmt => false,
            Line::IfStmt => false,
            Line::ElsePart => true,
            Line::ReturnRest => false,
            Line::ForStart => false,
            Line::ForTest => false,
            Line::ForStep => true,
            Line::Groups => false,
            Line::GroupLabels => false,
            Line::GroupParts => false,
            Line::Label => false,
            Line::Acts => false,
            Line::MoreActs => true,
            Line::Act => false,
            Line::ActParen => false,
            Line::ActRest => true,
            Line::Assign => false,
            Line::Cond => false,
            Line::CondRest => true,
            Line::Question => true,
            Line::OrTail => true,
            Line::And => false,
            Line::AndTail => true,
            Line::BitOr => false,
            Line::BitOrTail => true,
            Line::Xor => false,
            Line::XorTail => true,
            Line::BitAnd => false,
            Line::BitAndTail => true,
            Line::Equality => false,
            Line::EqualityTail => true,
            Line::Relational => false,
            Line::RelationalTail => true,
            Line::Shift => false,
            Line::ShiftTail => true,
            Line::Sum => false,
            Line::SumTail => true,
            Line::Product => false,
            Line::ProductTail => true,
            Line::Unary => false,
            Line::AfterParen => false,
            Line::NonParen => false,
            Line::AfterSizeof => false,
            Line::SizeofParen => false,
            Line::Type => false,
            Line::TypeNoVoid => false,
            Line::TypeRest => true,
            Line::TypeDims => true,
            Line::PostfixTail => true,
            Line::Primary => false,
            Line::NameTail => true,
            Line::Arguments => false,
            Line::MoreArguments => false,
        }
    }
}
