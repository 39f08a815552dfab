//! The lists that are open while a list is read.
ghost use Rattle.std.specs.Prelude.{◌≡◌, ◌+◌, List, [], ◌∷◌, ◌++◌, length, OnOk, OnErr, IfOk, IfSome, Ok, None, MatchOption, ◌<◌};
ghost use Rattle.cb_forms.specs.Lists.{put_first, listed, first_tree};
ghost use Rattle.cb_forms.specs.Internal.ListStacks.{frames_of, closed_up};
ghost use Rattle.cb_forms.specs.Trees.{Tree, tree_of};

use crate::form::Form;
use cb_io::NoMemory;
use std::alloc::Global;
use std::mem;

// A longer list is shortened where it stands.
const MAX_MOVED: usize = 64;

/// The forms that each open list has so far, from the outermost list on.
#[derive(Drop)]
pub(crate) struct ListStack {
    alloc: Global,
    outer: Vec<Vec<Form>>,
    inner: Vec<Form>,
}

impl ListStack {
    /// One open list, with nothing in it.
    pub(crate) fn new(alloc: Global) -> ListStack
        ensures { frames_of result ≡ [] ∷ [] }
    {
        ListStack {
            alloc,
            outer: Vec::new(alloc),
            inner: Vec::new(alloc),
        }
    }

    /// How many lists are open.
    pub(crate) fn depth(&self) -> usize
        ensures { result ≡ length (frames_of self.now) }
    {
        self.outer.len() + 1
    }

    /// Opens a list in the innermost one.
    pub(crate) fn open(&mut self) -> Result<(), NoMemory>
        ensures { OnOk result (frames_of self.new ≡ frames_of self.old ++ [] ∷ []) }
    {
        let inner = mem::replace(&mut self.inner, Vec::new(self.alloc));
        self.outer.push(inner)?;
        Ok(())
    }

    /// Puts a form into the innermost list.
    pub(crate) fn add(&mut self, form: Form) -> Result<(), NoMemory>
        ensures frames { OnOk result ((levels : List (List Tree))
            → closed_up (frames_of self.new) levels
            ≡ closed_up (frames_of self.old) (put_first (tree_of form) levels)) }
        ensures depth { OnOk result (length (frames_of self.new) ≡ length (frames_of self.old)) }
    {
        self.inner.push(form)?;
        Ok(())
    }

    /// Closes the innermost list. If it was the only one, the list is the answer.
    pub(crate) fn close(&mut self) -> Result<Option<Form>, NoMemory>
        ensures inner { result ≡ Ok None → (levels : List (List Tree))
            → closed_up (frames_of self.new) levels ≡ closed_up (frames_of self.old) ([] ∷ levels) }
        ensures only { IfOk result (λ list. IfSome list (λ form. (levels : List (List Tree))
            → first_tree (closed_up (frames_of self.old) ([] ∷ levels)) ≡ tree_of form)) }
        ensures depth { IfOk result (λ list. MatchOption list
            (length (frames_of self.old) ≡ length (frames_of self.new) + 1)
            (λ _. length (frames_of self.old) ≡ 1)) }
    {
        let grown = mem::replace(&mut self.inner, Vec::new(self.alloc));
        let members = without_spare_room(self.alloc, grown)?;
        let list = Form::List(members);
        let Some(mut around) = self.outer.pop() else {
            return Ok(Some(list));
        };
        around.push(list)?;
        self.inner = around;
        Ok(None)
    }
}

/// The same forms, without the room that a vector keeps for more. Few of them move into a block of their size, and the one
/// that they leave serves the next list: what would be given back at its end is too small to be of use.
fn without_spare_room(alloc: Global, mut forms: Vec<Form>) -> Result<Vec<Form>, NoMemory>
    ensures { IfOk result (λ fitted. fitted.items ≡ forms.items) }
{
    if forms.len() > MAX_MOVED {
        forms.shrink_to_fit();
        return Ok(forms);
    }
    let mut fitted = Vec::with_capacity(alloc, forms.len())?;
    fitted.append(&mut forms)?;
    Ok(fitted)
}
