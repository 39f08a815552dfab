//! Expressions from rows.
use cb_exprs::{Channel, Effect, Expr, FactShape, ModifiedSlot, ModifiedSlots};
use cb_facts::{Name, Names, Refused, Value};
use cb_forms::{Form, NoMemory, Token, split_head};
use cb_words::{Action, Head, read_head};
use std::alloc::Global;

/// The expression that a row writes. It is written as in a script, but that `if` and `while` have their parts alone, that
/// `do` heads actions, that a fact of the relation `p` or `q` gives slots, and that a slot of `modify` is no call.
pub(crate) fn expr(alloc: Global, form: &Form) -> Result<Expr, Refused> {
    match form {
        Form::Atom(token) => atom(alloc, token),
        Form::List(forms) => {
            let Some((head, rest)) = forms.split_first() else {
                return Err(Refused::NoMemory);
            };
            let mut parts = Vec::new(alloc);
            for form in rest {
                parts.push(expr(alloc, form)?)?;
            }
            headed(alloc, head, rest, parts)
        }
    }
}

/// A list with this head and these parts, which stand in a row so.
fn headed(alloc: Global, head: &Form, rest: &[Form], parts: Vec<Expr>) -> Result<Expr, Refused> {
    match read_head(head.symbol().ok_or(Refused::NoMemory)?) {
        Some(Head::Function(function)) => Ok(Expr::Call(function, parts)),
        Some(Head::Action(action)) => act(alloc, action, rest, parts),
        _ => Ok(Expr::Actions(parts)),
    }
}

/// An action with these parts, which stand in a row so.
fn act(alloc: Global, action: Action, forms: &[Form], parts: Vec<Expr>) -> Result<Expr, Refused> {
    match action {
        Action::Assert => assert(alloc, forms, parts),
        Action::Retract => Ok(Expr::Effect(Effect::Retract, parts)),
        Action::Modify => modify(alloc, forms, parts),
        Action::Bind => bind(alloc, parts),
        Action::If => choose(alloc, parts),
        Action::While => repeat(alloc, parts),
        Action::Printout => printout(alloc, forms, parts),
        Action::Print => Ok(Expr::Effect(Effect::Print, parts)),
        Action::Println => Ok(Expr::Effect(Effect::Println, parts)),
        Action::Halt => Ok(Expr::Effect(Effect::Halt, parts)),
    }
}

fn last(parts: &mut Vec<Expr>) -> Result<Expr, Refused> {
    Ok(parts.pop().ok_or(Refused::NoMemory)?)
}

/// The first part is what is bound.
fn bind(alloc: Global, parts: Vec<Expr>) -> Result<Expr, Refused> {
    let mut target = None;
    let mut values = Vec::new(alloc);
    for part in parts {
        if target.is_none() {
            target = Some(part);
        } else {
            values.push(part)?;
        }
    }
    match target.ok_or(Refused::NoMemory)? {
        Expr::Variable(name) => Ok(Expr::Effect(Effect::Bind(name), values)),
        Expr::Global(name) => Ok(Expr::Effect(Effect::BindGlobal(name), values)),
        _ => Err(Refused::NoMemory),
    }
}

fn choose(alloc: Global, parts: Vec<Expr>) -> Result<Expr, Refused> {
    let mut parts = parts;
    let no = Box::new(alloc, last(&mut parts)?)?;
    let yes = Box::new(alloc, last(&mut parts)?)?;
    Ok(Expr::If(Box::new(alloc, last(&mut parts)?)?, yes, no))
}

fn repeat(alloc: Global, parts: Vec<Expr>) -> Result<Expr, Refused> {
    let mut parts = parts;
    let action = Box::new(alloc, last(&mut parts)?)?;
    Ok(Expr::While(Box::new(alloc, last(&mut parts)?)?, action))
}

/// The first part names the channel.
fn printout(alloc: Global, forms: &[Form], parts: Vec<Expr>) -> Result<Expr, Refused> {
    let mut values = Vec::new(alloc);
    for (i, part) in parts.into_iter().enumerate() {
        if i > 0 {
            values.push(part)?;
        }
    }
    Ok(Expr::Effect(Effect::Printout(channel(forms)), values))
}

fn channel(forms: &[Form]) -> Channel {
    match forms.first() {
        Some(form) if form.symbol() == Some(b"nil".as_slice()) => Channel::Nowhere,
        _ => Channel::Output,
    }
}

/// The only part is the fact, as if its relation headed actions.
fn assert(alloc: Global, forms: &[Form], parts: Vec<Expr>) -> Result<Expr, Refused> {
    let mut parts = parts;
    match last(&mut parts)? {
        Expr::Actions(values) => Ok(Expr::Effect(Effect::Assert(shape(alloc, forms)?), values)),
        _ => Err(Refused::NoMemory),
    }
}

fn shape(alloc: Global, forms: &[Form]) -> Result<FactShape, Refused> {
    let Some(Form::List(fact)) = forms.first() else {
        return Err(Refused::NoMemory);
    };
    let (relation, members) = split_head(fact.as_slice()).ok_or(Refused::NoMemory)?;
    let name = Name::new(alloc, relation)?;
    if relation == b"p".as_slice() || relation == b"q".as_slice() {
        let slots = slot_names(alloc, members)?;
        return Ok(FactShape::with_slots(alloc, name, slots)?);
    }
    Ok(FactShape::ordered(name))
}

fn slot_names(alloc: Global, members: &[Form]) -> Result<Vec<Name>, Refused> {
    let mut names = Vec::new(alloc);
    for member in members {
        let Form::List(forms) = member else {
            return Err(Refused::NoMemory);
        };
        let (name, _) = split_head(forms.as_slice()).ok_or(Refused::NoMemory)?;
        names.push(Name::new(alloc, name)?)?;
    }
    Ok(names)
}

/// The first part says which fact, and the others are the slots, each as if its name headed actions.
fn modify(alloc: Global, forms: &[Form], parts: Vec<Expr>) -> Result<Expr, Refused> {
    let mut values = Vec::new(alloc);
    for part in parts {
        add_values(&mut values, part)?;
    }
    let (_, slots) = forms.split_first().ok_or(Refused::NoMemory)?;
    Ok(Expr::Effect(Effect::Modify(modified_slots(alloc, slots)?), values))
}

/// Adds the expressions of a slot, or the one that says which fact.
fn add_values(values: &mut Vec<Expr>, part: Expr) -> Result<(), NoMemory> {
    match part {
        Expr::Actions(slot) => {
            let mut slot = slot;
            values.append(&mut slot)?;
        }
        fact => values.push(fact)?,
    }
    Ok(())
}

fn modified_slots(alloc: Global, forms: &[Form]) -> Result<ModifiedSlots, Refused> {
    let mut slots = Vec::new(alloc);
    for form in forms {
        if let Some((name, values)) = form.call() {
            slots.push(ModifiedSlot::new(Name::new(alloc, name)?, values.len()))?;
        }
    }
    Ok(ModifiedSlots::new(alloc, slots)?)
}

fn atom(alloc: Global, token: &Token) -> Result<Expr, Refused> {
    Ok(match token {
        Token::Var(name) => Expr::Variable(Name::new(alloc, name.as_slice())?),
        Token::Global(name) => Expr::Global(Name::new(alloc, name.as_slice())?),
        _ => Expr::Constant(constant(alloc, token)?),
    })
}

fn constant(alloc: Global, token: &Token) -> Result<Value, Refused> {
    let mut names = Names::new(alloc);
    Ok(Value::constant(&mut names, token)?.ok_or(Refused::NoMemory)?)
}
