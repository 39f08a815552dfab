//! The numbers and the texts of all faults, as the table of `docs/LANGUAGE.md`, "Faults", has them.
use cb_forms::Fault;

const TEXTS: [(Fault, u8, &str); 23] = [
    (Fault::FormNotClosed, 1, "form not closed"),
    (
        Fault::UnmatchedParenthesis,
        2,
        "unmatched closing parenthesis",
    ),
    (Fault::NestingTooDeep, 3, "nesting too deep"),
    (Fault::IntegerOutOfRange, 4, "integer out of range"),
    (Fault::FloatNotSupported, 5, "floats are not supported"),
    (Fault::UnknownFunction, 6, "unknown function"),
    (Fault::WrongArguments, 7, "wrong arguments"),
    (Fault::MalformedForm, 8, "malformed form"),
    (Fault::FactDoesNotFit, 9, "fact does not fit its template"),
    (Fault::ValueNotAllowed, 10, "value not allowed in slot"),
    (Fault::UnboundVariable, 11, "unbound variable"),
    (Fault::UnknownGlobal, 12, "unknown global variable"),
    (Fault::NotOnLeftSide, 13, "not allowed on a left side"),
    (Fault::NotInProfile, 14, "not in this profile"),
    (Fault::TooManyBranches, 15, "too many branches"),
    (Fault::BadSalience, 16, "bad salience"),
    (Fault::WrongType, 17, "wrong type"),
    (Fault::IntegerOverflow, 18, "integer overflow"),
    (Fault::DivisionByZero, 19, "division by zero"),
    (Fault::NoSuchFact, 20, "no such fact"),
    (Fault::NoSuchRule, 21, "no such rule"),
    (Fault::OneValueWanted, 22, "one value wanted"),
    (Fault::TemplateInUse, 23, "template in use"),
];

/// The first of these faults that has another number or text.
fn first_wrong() -> Option<Fault> {
    for (fault, number, text) in &TEXTS {
        if fault.number() != *number || fault.text() != *text {
            return Some(*fault);
        }
    }
    None
}

#[test]
fn each_fault_has_its_number_and_text(rt: HostRuntime) {
    assert!(rt; first_wrong().is_none());
}
