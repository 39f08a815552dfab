//! The faults of a script.
ghost use Rattle.std.specs.Prelude.{◌≡◌};

/// What is wrong with an item of a script, by the numbers that its fault line shows.
///
/// The fault line of a fault is `[CBnn] text`, with [`Fault::number`] in two digits and [`Fault::text`]
/// (`docs/LANGUAGE.md`, "Faults").
#[derive(Clone, Copy, Debug, PartialEq, Eq)]
pub enum Fault {
    /// CB01: a list or a string is open where the script ends.
    FormNotClosed,
    /// CB02: a closing parenthesis stands outside every list.
    UnmatchedParenthesis,
    /// CB03: a list is nested in 200 others.
    NestingTooDeep,
    /// CB04: a number does not fit in a signed 64-bit integer.
    IntegerOutOfRange,
    /// CB05: a word is a number with a point or an exponent.
    FloatNotSupported,
    /// CB06: a list begins with a symbol that names no construct, command or function.
    UnknownFunction,
    /// CB07: a call has another number or shape of arguments than its function takes.
    WrongArguments,
    /// CB08: a form has a shape that no construct or expression has.
    MalformedForm,
    /// CB09: a fact's relation, slots or number of terms are not those of its template.
    FactDoesNotFit,
    /// CB10: a constant is not of the type that its slot allows.
    ValueNotAllowed,
    /// CB11: a variable has no value.
    UnboundVariable,
    /// CB12: a global variable was never defined.
    UnknownGlobal,
    /// CB13: a left side names a global or a function with an effect.
    NotOnLeftSide,
    /// CB14: the form belongs to CLIPS and not to this program's language.
    NotInProfile,
    /// CB15: a rule's `or` elements make more than 64 branches.
    TooManyBranches,
    /// CB16: a salience faults, is no integer or is out of range.
    BadSalience,
    /// CB17: a value is of a type that its place does not take.
    WrongType,
    /// CB18: a result does not fit in a signed 64-bit integer.
    IntegerOverflow,
    /// CB19: a divisor is zero.
    DivisionByZero,
    /// CB20: no fact has the index.
    NoSuchFact,
    /// CB21: no rule has the name.
    NoSuchRule,
    /// CB22: a multifield was given for a slot that holds one value.
    OneValueWanted,
    /// CB23: a template is defined for a relation that is in use.
    TemplateInUse,
}

impl Fault {
    ghost use Rattle.cb_forms.specs.Faults.{number_of, text_of};

    /// The number that the fault line shows after `CB`, from 1 to 23.
    pub fn number(self) -> u8
        ensures { result ≡ number_of self }
    {
        match self {
            Fault::FormNotClosed => 1,
            Fault::UnmatchedParenthesis => 2,
            Fault::NestingTooDeep => 3,
            Fault::IntegerOutOfRange => 4,
            Fault::FloatNotSupported => 5,
            Fault::UnknownFunction => 6,
            Fault::WrongArguments => 7,
            Fault::MalformedForm => 8,
            Fault::FactDoesNotFit => 9,
            Fault::ValueNotAllowed => 10,
            Fault::UnboundVariable => 11,
            Fault::UnknownGlobal => 12,
            Fault::NotOnLeftSide => 13,
            Fault::NotInProfile => 14,
            Fault::TooManyBranches => 15,
            Fault::BadSalience => 16,
            Fault::WrongType => 17,
            Fault::IntegerOverflow => 18,
            Fault::DivisionByZero => 19,
            Fault::NoSuchFact => 20,
            Fault::NoSuchRule => 21,
            Fault::OneValueWanted => 22,
            Fault::TemplateInUse => 23,
        }
    }

    /// The text that the fault line shows, in ASCII.
    pub fn text(self) -> &'static str
        ensures { result.now ≡ text_of self }
    {
        match self {
            Fault::FormNotClosed => "form not closed",
            Fault::UnmatchedParenthesis => "unmatched closing parenthesis",
            Fault::NestingTooDeep => "nesting too deep",
            Fault::IntegerOutOfRange => "integer out of range",
            Fault::FloatNotSupported => "floats are not supported",
            Fault::UnknownFunction => "unknown function",
            Fault::WrongArguments => "wrong arguments",
            Fault::MalformedForm => "malformed form",
            Fault::FactDoesNotFit => "fact does not fit its template",
            Fault::ValueNotAllowed => "value not allowed in slot",
            Fault::UnboundVariable => "unbound variable",
            Fault::UnknownGlobal => "unknown global variable",
            Fault::NotOnLeftSide => "not allowed on a left side",
            Fault::NotInProfile => "not in this profile",
            Fault::TooManyBranches => "too many branches",
            Fault::BadSalience => "bad salience",
            Fault::WrongType => "wrong type",
            Fault::IntegerOverflow => "integer overflow",
            Fault::DivisionByZero => "division by zero",
            Fault::NoSuchFact => "no such fact",
            Fault::NoSuchRule => "no such rule",
            Fault::OneValueWanted => "one value wanted",
            Fault::TemplateInUse => "template in use",
        }
    }
}
