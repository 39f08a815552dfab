//! Which value a token gives a variable.
ghost use Rattle.std.specs.Prelude.{◌≡◌, IfOk, false, option_copied};
ghost use Rattle.std.specs.Option.{option_map, option_or};
ghost use Rattle.cb_beta.specs.GivenValues.{values_given, values_read};
ghost use Rattle.cb_beta.specs.Tokens.{with_taken};
ghost use Rattle.cb_exprs.specs.Bindings.{Bindings, no_bindings, value_at, with_variables};
ghost use Rattle.cb_matches.specs.Matches.{Partial, with_address};
ghost use Rattle.cb_token_lists.specs.Internal.{giver_value};

use crate::source::Source;
use cb_beta::{Given, Gives, Sought, Token};
use cb_constraints::Tested;
use cb_facts::{Name, Value};
use cb_forms::NoMemory;

/// What gives a variable its value.
#[derive(Clone, Copy)]
pub(crate) enum Giver<'a> {
    /// A field of a fact that is taken, or a value that a test of the pattern found.
    Field(Tested<'a>),
    /// The fact with this index that is taken: the variable has its address.
    Address(u64),
}

impl Giver<'_> {
    /// The value, which shares its bytes or fields. It is refused as `NoMemory` only where a count of sharers is full.
    pub(crate) fn to_value(self) -> Result<Value, NoMemory>
        ensures { IfOk result (λ v. v ≡ giver_value self.entry) }
    {
        match self {
            Giver::Field(field) => field.to_value(),
            Giver::Address(index) => Ok(Value::Fact(index)),
        }
    }
}

/// Whether a token may give a variable a value. Where it doesn't, that is mostly seen, and without a look at names.
#[inline(always)]
pub(crate) fn may_be_given(source: &Source, token: &Token, name: &Sought<'_>) -> bool
    ensures { result ≡ false → (m : Partial)
        → value_at name.now (with_taken source.now.address token.now.taken m).env.variables
        ≡ value_at name.now m.env.variables }
{
    let Some(taken) = token.taken() else {
        return false;
    };
    if taken.given.may_give(name) {
        return true;
    }
    given_by_address(&source.address, taken.index, name.name()).is_some()
}

/// What gives a variable its value by what a token took, or `None` where that gives it none.
pub(crate) fn given_by_token<'a>(
    source: &Source,
    token: &'a Token,
    name: &Sought<'_>,
) -> Option<Giver<'a>>
    ensures { (m : Partial)
        → value_at name.now (with_taken source.now.address token.now.taken m).env.variables
        ≡ option_or (option_map giver_value result) (value_at name.now m.env.variables) }
{
    let taken = token.taken()?;
    given(taken.given, &source.address, taken.index, name)
}

/// The same by a fact with an index, and by what its way gives, if there is one.
pub(crate) fn given_with<'a>(
    way: Option<&'a Given>,
    address: &Option<Name>,
    index: u64,
    name: &Sought<'_>,
) -> Option<Giver<'a>>
    ensures { (env : Bindings) → value_at name.now
        (with_variables (values_given (option_copied way.entry)) (with_address address.now index env)).variables
        ≡ option_or (option_map giver_value result) (value_at name.now env.variables) }
{
    match way {
        Some(way) => {
            let way = way.read();
            if !way.may_give(name) {
                return given_by_address(address, index, name.name());
            }
            given(way, address, index, name)
        }
        None => given_by_address(address, index, name.name()),
    }
}

/// The same by a fact with an index and by its way: the way counts before the variable of the fact's address.
fn given<'a>(
    way: Gives<'a>,
    address: &Option<Name>,
    index: u64,
    name: &Sought<'_>,
) -> Option<Giver<'a>>
    ensures { (env : Bindings)
        → value_at name.now (with_variables (values_read way.entry) (with_address address.now index env)).variables
        ≡ option_or (option_map giver_value result) (value_at name.now env.variables) }
{
    match way.find(name) {
        Some(field) => Some(Giver::Field(field)),
        None => given_by_address(address, index, name.name()),
    }
}

/// The address of the fact with an index, if that is what the variable has.
pub(crate) fn given_by_address<'a>(
    address: &Option<Name>,
    index: u64,
    name: &Name,
) -> Option<Giver<'a>>
    ensures { option_map giver_value result
        ≡ value_at name.now (with_address address.now index no_bindings).variables }
{
    match address {
        Some(own) if *name == *own => Some(Giver::Address(index)),
        _ => None,
    }
}
