//! The words of the language: what each names, the table of all of them, and how many arguments a function takes.
ghost use Rattle.std.specs.Prelude.{◌≡◌, map};
ghost use Rattle.std.specs.Map.{lookup};
ghost use Rattle.std.specs.Str.{bytes_eq};
ghost use Rattle.cb_words.specs.Words.{arity_of, head_of, takes};

/// What a word names where a list begins with it.
#[derive(Clone, Copy, Debug, PartialEq, Eq)]
pub enum Head {
    /// A construct, which defines something.
    Construct(Construct),
    /// A command, which stands at the top level alone.
    Command(Command),
    /// A function with an effect.
    Action(Action),
    /// A function without one.
    Function(Function),
    /// A construct, command or function of CLIPS that is known and not carried out.
    Refused,
}

/// A construct.
#[derive(Clone, Copy, Debug, PartialEq, Eq)]
pub enum Construct {
    /// `deftemplate`
    Deftemplate,
    /// `deffacts`
    Deffacts,
    /// `defglobal`
    Defglobal,
    /// `defrule`
    Defrule,
}

/// A command.
#[derive(Clone, Copy, Debug, PartialEq, Eq)]
pub enum Command {
    /// `facts`
    Facts,
    /// `reset`
    Reset,
    /// `clear`
    Clear,
    /// `run`
    Run,
    /// `agenda`
    Agenda,
    /// `rules`
    Rules,
    /// `undefrule`
    Undefrule,
    /// `watch`
    Watch,
    /// `unwatch`
    Unwatch,
    /// `set-strategy`
    SetStrategy,
    /// `exit`
    Exit,
}

/// A function with an effect.
#[derive(Clone, Copy, Debug, PartialEq, Eq)]
pub enum Action {
    /// `assert`
    Assert,
    /// `retract`
    Retract,
    /// `modify`
    Modify,
    /// `bind`
    Bind,
    /// `if`
    If,
    /// `while`
    While,
    /// `printout`
    Printout,
    /// `print`
    Print,
    /// `println`
    Println,
    /// `halt`
    Halt,
}

/// A function without an effect (`docs/LANGUAGE.md`, "Functions").
#[derive(Clone, Copy, Debug, PartialEq, Eq)]
pub enum Function {
    /// `+`
    Add,
    /// `-`
    Subtract,
    /// `*`
    Multiply,
    /// `div`
    Div,
    /// `mod`
    Mod,
    /// `=`
    Equal,
    /// `<>`
    NotEqual,
    /// `<`
    Less,
    /// `>`
    Greater,
    /// `<=`
    LessOrEqual,
    /// `>=`
    GreaterOrEqual,
    /// `eq`
    Eq,
    /// `neq`
    Neq,
    /// `and`
    And,
    /// `or`
    Or,
    /// `not`
    Not,
    /// `min`
    Min,
    /// `max`
    Max,
    /// `abs`
    Abs,
    /// `create$`
    Create,
    /// `nth$`
    Nth,
    /// `length$`
    Length,
    /// `member$`
    Member,
    /// `first$`
    First,
    /// `rest$`
    Rest,
    /// `str-cat`
    StrCat,
    /// `sym-cat`
    SymCat,
    /// `integerp`
    Integerp,
    /// `numberp`
    Numberp,
    /// `symbolp`
    Symbolp,
    /// `stringp`
    Stringp,
    /// `lexemep`
    Lexemep,
    /// `multifieldp`
    Multifieldp,
    /// `evenp`
    Evenp,
    /// `oddp`
    Oddp,
}

/// How many arguments a function takes.
#[derive(Clone, Copy, Debug, PartialEq, Eq)]
pub enum Arity {
    /// Exactly this many.
    Exactly(usize),
    /// This many or more.
    AtLeast(usize),
}

impl Arity {
    /// Whether a call may have this many arguments.
    pub fn takes(self, count: usize) -> bool
        ensures { result ≡ takes self count }
    {
        match self {
            Arity::Exactly(number) => count == number,
            Arity::AtLeast(least) => count >= least,
        }
    }
}

impl Function {
    /// How many arguments it takes.
    pub fn arity(self) -> Arity
        ensures { result ≡ arity_of self }
    {
        match self {
            Function::Create => Arity::AtLeast(0),
            Function::And
            | Function::Or
            | Function::Min
            | Function::Max
            | Function::StrCat
            | Function::SymCat => Arity::AtLeast(1),
            Function::Add
            | Function::Subtract
            | Function::Multiply
            | Function::Div
            | Function::Equal
            | Function::NotEqual
            | Function::Less
            | Function::Greater
            | Function::LessOrEqual
            | Function::GreaterOrEqual
            | Function::Eq
            | Function::Neq => Arity::AtLeast(2),
            Function::Mod | Function::Nth | Function::Member => Arity::Exactly(2),
            Function::Not
            | Function::Abs
            | Function::Length
            | Function::First
            | Function::Rest
            | Function::Integerp
            | Function::Numberp
            | Function::Symbolp
            | Function::Stringp
            | Function::Lexemep
            | Function::Multifieldp
            | Function::Evenp
            | Function::Oddp => Arity::Exactly(1),
        }
    }
}

/// Every word of the language, and what it names. No word stands twice.
pub(crate) const WORDS: [(&str, Head); 131] = [
    // Constructs.
    ("deftemplate", Head::Construct(Construct::Deftemplate)),
    ("deffacts", Head::Construct(Construct::Deffacts)),
    ("defglobal", Head::Construct(Construct::Defglobal)),
    ("defrule", Head::Construct(Construct::Defrule)),
    // Functions with an effect.
    ("assert", Head::Action(Action::Assert)),
    ("retract", Head::Action(Action::Retract)),
    ("modify", Head::Action(Action::Modify)),
    ("bind", Head::Action(Action::Bind)),
    ("if", Head::Action(Action::If)),
    ("while", Head::Action(Action::While)),
    ("printout", Head::Action(Action::Printout)),
    ("print", Head::Action(Action::Print)),
    ("println", Head::Action(Action::Println)),
    ("halt", Head::Action(Action::Halt)),
    // Commands.
    ("facts", Head::Command(Command::Facts)),
    ("reset", Head::Command(Command::Reset)),
    ("clear", Head::Command(Command::Clear)),
    ("run", Head::Command(Command::Run)),
    ("agenda", Head::Command(Command::Agenda)),
    ("rules", Head::Command(Command::Rules)),
    ("undefrule", Head::Command(Command::Undefrule)),
    ("watch", Head::Command(Command::Watch)),
    ("unwatch", Head::Command(Command::Unwatch)),
    ("set-strategy", Head::Command(Command::SetStrategy)),
    ("exit", Head::Command(Command::Exit)),
    // Functions without an effect.
    ("+", Head::Function(Function::Add)),
    ("-", Head::Function(Function::Subtract)),
    ("*", Head::Function(Function::Multiply)),
    ("div", Head::Function(Function::Div)),
    ("mod", Head::Function(Function::Mod)),
    ("=", Head::Function(Function::Equal)),
    ("<>", Head::Function(Function::NotEqual)),
    ("<", Head::Function(Function::Less)),
    (">", Head::Function(Function::Greater)),
    ("<=", Head::Function(Function::LessOrEqual)),
    (">=", Head::Function(Function::GreaterOrEqual)),
    ("eq", Head::Function(Function::Eq)),
    ("neq", Head::Function(Function::Neq)),
    ("and", Head::Function(Function::And)),
    ("or", Head::Function(Function::Or)),
    ("not", Head::Function(Function::Not)),
    ("min", Head::Function(Function::Min)),
    ("max", Head::Function(Function::Max)),
    ("abs", Head::Function(Function::Abs)),
    ("create$", Head::Function(Function::Create)),
    ("nth$", Head::Function(Function::Nth)),
    ("length$", Head::Function(Function::Length)),
    ("member$", Head::Function(Function::Member)),
    ("first$", Head::Function(Function::First)),
    ("rest$", Head::Function(Function::Rest)),
    ("str-cat", Head::Function(Function::StrCat)),
    ("sym-cat", Head::Function(Function::SymCat)),
    ("integerp", Head::Function(Function::Integerp)),
    ("numberp", Head::Function(Function::Numberp)),
    ("symbolp", Head::Function(Function::Symbolp)),
    ("stringp", Head::Function(Function::Stringp)),
    ("lexemep", Head::Function(Function::Lexemep)),
    ("multifieldp", Head::Function(Function::Multifieldp)),
    ("evenp", Head::Function(Function::Evenp)),
    ("oddp", Head::Function(Function::Oddp)),
    // Known and not carried out.
    ("/", Head::Refused),
    ("**", Head::Refused),
    ("float", Head::Refused),
    ("integer", Head::Refused),
    ("round", Head::Refused),
    ("sqrt", Head::Refused),
    ("random", Head::Refused),
    ("seed", Head::Refused),
    ("gensym", Head::Refused),
    ("gensym*", Head::Refused),
    ("defmodule", Head::Refused),
    ("focus", Head::Refused),
    ("deffunction", Head::Refused),
    ("defgeneric", Head::Refused),
    ("defmethod", Head::Refused),
    ("defclass", Head::Refused),
    ("definstances", Head::Refused),
    ("defmessage-handler", Head::Refused),
    ("load", Head::Refused),
    ("load*", Head::Refused),
    ("batch", Head::Refused),
    ("batch*", Head::Refused),
    ("bload", Head::Refused),
    ("bsave", Head::Refused),
    ("save", Head::Refused),
    ("open", Head::Refused),
    ("close", Head::Refused),
    ("read", Head::Refused),
    ("readline", Head::Refused),
    ("format", Head::Refused),
    ("loop-for-count", Head::Refused),
    ("foreach", Head::Refused),
    ("progn", Head::Refused),
    ("progn$", Head::Refused),
    ("switch", Head::Refused),
    ("break", Head::Refused),
    ("return", Head::Refused),
    ("duplicate", Head::Refused),
    ("fact-index", Head::Refused),
    ("fact-slot-value", Head::Refused),
    ("refresh", Head::Refused),
    ("matches", Head::Refused),
    ("set-break", Head::Refused),
    ("remove-break", Head::Refused),
    ("show-breaks", Head::Refused),
    ("set-fact-duplication", Head::Refused),
    ("get-strategy", Head::Refused),
    ("undeftemplate", Head::Refused),
    ("undeffacts", Head::Refused),
    ("undefglobal", Head::Refused),
    ("list-defrules", Head::Refused),
    ("list-deftemplates", Head::Refused),
    ("list-deffacts", Head::Refused),
    ("ppdefrule", Head::Refused),
    ("ppfact", Head::Refused),
    ("eval", Head::Refused),
    ("build", Head::Refused),
    ("funcall", Head::Refused),
    ("expand$", Head::Refused),
    ("explode$", Head::Refused),
    ("implode$", Head::Refused),
    ("subseq$", Head::Refused),
    ("delete$", Head::Refused),
    ("insert$", Head::Refused),
    ("replace$", Head::Refused),
    ("str-index", Head::Refused),
    ("str-length", Head::Refused),
    ("str-compare", Head::Refused),
    ("sub-string", Head::Refused),
    ("upcase", Head::Refused),
    ("lowcase", Head::Refused),
];

/// What a word names as the head of a list, or `None` where it names nothing. It looks at each word of the table at most
/// once.
pub fn read_head(word: &[u8]) -> Option<Head>
    ensures { result ≡ head_of word.now }
{
    find(&WORDS, word)
}

fn find(rows: &[(&str, Head)], word: &[u8]) -> Option<Head>
    ensures { result ≡ lookup (bytes_eq word.now) (map (λ row. (row.0.now, row.1)) rows.now) }
{
    for (known, head) in rows {
        if word == known.as_bytes() {
            return Some(*head);
        }
    }
    None
}
