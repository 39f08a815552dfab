//! The types that the slots of a template may name.
ghost use Rattle.std.specs.Prelude.{◌≡◌};
ghost use Rattle.cb_templates.specs.SlotForms.{type_named};
ghost use Rattle.cb_templates.specs.Slots.{is_of, is_integer_field, is_string_field, is_symbol_field};

use cb_facts::Single;

/// A type that a slot may name (`docs/LANGUAGE.md`, "Templates").
#[derive(Clone, Copy, PartialEq, Eq)]
pub enum SlotType {
    /// `INTEGER`
    Integer,
    /// `SYMBOL`
    Symbol,
    /// `STRING`
    Str,
    /// `NUMBER`: an integer, since there are no other numbers.
    Number,
    /// `LEXEME`: a symbol or a string.
    Lexeme,
}

impl SlotType {
    /// The type of a name.
    pub(crate) fn named(name: &[u8]) -> Option<SlotType>
        ensures { result ≡ type_named name.now }
    {
        if name == b"INTEGER".as_slice() {
            return Some(SlotType::Integer);
        }
        if name == b"SYMBOL".as_slice() {
            return Some(SlotType::Symbol);
        }
        if name == b"STRING".as_slice() {
            return Some(SlotType::Str);
        }
        if name == b"NUMBER".as_slice() {
            return Some(SlotType::Number);
        }
        if name == b"LEXEME".as_slice() {
            return Some(SlotType::Lexeme);
        }
        None
    }

    /// Whether a field is of the type.
    pub(crate) fn has(self, field: &Single) -> bool
        ensures { result ≡ is_of self field.now }
    {
        match self {
            SlotType::Integer | SlotType::Number => is_integer(field),
            SlotType::Symbol => is_symbol(field),
            SlotType::Str => is_string(field),
            SlotType::Lexeme => is_symbol(field) || is_string(field),
        }
    }
}

fn is_integer(field: &Single) -> bool
    ensures { result ≡ is_integer_field field.now }
{
    matches!(field, Single::Int(_))
}

fn is_symbol(field: &Single) -> bool
    ensures { result ≡ is_symbol_field field.now }
{
    matches!(field, Single::Symbol(_))
}

fn is_string(field: &Single) -> bool
    ensures { result ≡ is_string_field field.now }
{
    matches!(field, Single::Str(_))
}
