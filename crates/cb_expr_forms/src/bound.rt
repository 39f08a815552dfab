//! The variables that a `bind` of a form names.
ghost use Rattle.std.specs.Prelude.{◌≡◌, ◌++◌, IfOk, OnOk};
ghost use Rattle.cb_expr_forms.specs.Bound.{bound_here, bound_in, bound_in_all, first_variable};
ghost use Rattle.cb_forms.specs.Members.{members};
ghost use Rattle.cb_forms.specs.Trees.{tree_of};

use crate::name_list::NameList;
use cb_facts::Names;
use cb_forms::{Form, NoMemory, Token, split_head};

/// The variables that a `bind` anywhere in a form names: in any list, at any depth, whose first member is the symbol `bind`
/// and whose second is a variable. Growth is refused as `NoMemory`.
pub fn bound_variables(names: &mut Names, form: &Form) -> Result<NameList, NoMemory>
    ensures { IfOk result (λ bound. bound ≡ bound_in (tree_of form.now)) }
{
    let mut bound = NameList::new(names.alloc());
    add_bound(&mut bound, names, form)?;
    Ok(bound)
}

/// Those of several forms, one after another. Growth is refused as `NoMemory`.
pub fn bound_in_all(names: &mut Names, forms: &[Form]) -> Result<NameList, NoMemory>
    ensures { IfOk result (λ bound. bound ≡ bound_in_all (members forms.now)) }
{
    let mut bound = NameList::new(names.alloc());
    for form in forms {
        add_bound(&mut bound, names, form)?;
    }
    Ok(bound)
}

/// Adds those of a form.
fn add_bound(bound: &mut NameList, names: &mut Names, form: &Form) -> Result<(), NoMemory>
    ensures { OnOk result (bound.new ≡ bound.old ++ bound_in (tree_of form.now)) }
{
    match form {
        Form::Atom(_) => Ok(()),
        Form::List(forms) => {
            add_own(bound, names, forms)?;
            for form in forms {
                add_bound(bound, names, form)?;
            }
            Ok(())
        }
    }
}

/// Adds the variable that a list binds itself, if it is a `bind` of one.
fn add_own(bound: &mut NameList, names: &mut Names, forms: &[Form]) -> Result<(), NoMemory>
    ensures { OnOk result (bound.new ≡ bound.old ++ bound_here (members forms.now)) }
{
    let Some((name, rest)) = split_head(forms) else {
        return Ok(());
    };
    if name != b"bind".as_slice() {
        return Ok(());
    }
    add_variable(bound, names, rest)
}

/// Adds the first of the forms, if it is a variable.
fn add_variable(bound: &mut NameList, names: &mut Names, forms: &[Form]) -> Result<(), NoMemory>
    ensures { OnOk result (bound.new ≡ bound.old ++ first_variable (members forms.now)) }
{
    match forms.first() {
        Some(Form::Atom(Token::Var(name))) | Some(Form::Atom(Token::MultiVar(name))) => {
            bound.push(&names.name(name.as_slice())?)
        }
        _ => Ok(()),
    }
}
