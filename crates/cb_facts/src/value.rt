//! Values.
ghost use Rattle.std.specs.Prelude.{◌≡◌, IfOk, fold};
ghost use Rattle.std.specs.Hash.FoldHasher as folding;
ghost use Rattle.cb_facts.specs.ValueMixes.{value_mix};
ghost use Rattle.cb_facts.specs.Values.{constant_of};

use crate::multifield::Multifield;
use crate::name::Name;
use crate::names::Names;
use cb_forms::{NoMemory, Token};
use cb_number_map::mixed;
use std::hash::{FoldHasher, Hash, Hasher};

/// A value of a script. Of two variants the first here is the lesser.
///
/// A clone shares the bytes and the fields. It takes no memory, and is refused only where the count of sharers is full.
#[derive(Clone, Debug, PartialEq, Eq, PartialOrd, Ord, Hash, Drop)]
pub enum Value {
    /// A symbol, by its bytes.
    Symbol(Name),
    /// A string, by its content.
    Str(Name),
    /// A signed 64-bit integer.
    Int(i64),
    /// A fact's address, by the fact's index.
    Fact(u64),
    /// None or more fields.
    Multi(Multifield),
}

impl Value {
    /// A number that depends on the value alone, and that few other values have. It takes constant time, and for a multifield a step
    /// for each field.
    pub fn mix(&self) -> u64
        ensures { result ≡ value_mix self.now }
    {
        match self {
            Value::Symbol(bytes) => bytes.hash_code(),
            Value::Str(bytes) => mixed(bytes.hash_code(), 1),
            Value::Int(number) => number.cast_unsigned(),
            Value::Fact(ix) => mixed(*ix, 2),
            Value::Multi(fields) => hash_of(fields),
        }
    }

    /// The value of a token that is a constant, as a symbol, a string and an integer are; `None` of any other. Growth is
    /// refused as `NoMemory`.
    pub fn constant(names: &mut Names, token: &Token) -> Result<Option<Value>, NoMemory>
        ensures { IfOk result (λ v. v ≡ constant_of token.now) }
    {
        Ok(match token {
            Token::Symbol(bytes) => Some(Value::Symbol(names.name(bytes.as_slice())?)),
            Token::Str(bytes) => Some(Value::Str(names.name(bytes.as_slice())?)),
            Token::Int(number) => Some(Value::Int(*number)),
            _ => None,
        })
    }
}

/// The hash of fields.
fn hash_of(fields: &Multifield) -> u64
    ensures { result
        ≡ folding.finish (fold folding.write folding.initial (⟦<Multifield as Hash>⟧.hash_input fields.now)) }
{
    let mut hasher = FoldHasher::default();
    fields.hash(&mut hasher);
    hasher.finish()
}
