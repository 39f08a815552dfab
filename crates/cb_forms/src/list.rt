//! Reading a list that is closed.
ghost use Rattle.std.specs.Prelude.{◌≡◌, ◌<◌, true, false, length, drop, IfOk};
ghost use Rattle.cb_forms.specs.Bytes.{begins_with};
ghost use Rattle.cb_forms.specs.Items.{is_open_list};
ghost use Rattle.cb_forms.specs.Lists.{list_reading};
ghost use Rattle.cb_forms.specs.Pieces.{lexemes};
ghost use Rattle.cb_forms.specs.Trees.{reading_of};

use crate::byte_kinds::is_blank;
use crate::fault::Fault;
use crate::form::{Form, Item};
use crate::lexeme::Lexeme;
use crate::list_stack::ListStack;
use crate::piece::{read_piece, split_piece};
use cb_io::NoMemory;
use std::alloc::Global;

/// How deep lists nest.
const MAX_DEPTH: usize = 200;

/// Reads a list from its `(` to its matching `)`: its form, or the first fault in it. Growth is refused as `NoMemory`.
pub(crate) fn read_list(alloc: Global, list: &[u8]) -> Result<Item, NoMemory>
    requires opened { begins_with 40 list.now ≡ true }
    requires closed { is_open_list list.now ≡ false }
    ensures { IfOk result (λ item. reading_of item ≡ list_reading (lexemes list.now)) }
{
    let mut stack = ListStack::new(alloc);
    let (_, mut rest) = list.split_at(1);
    while !rest.is_empty() {
        if is_blank(rest[0]) {
            rest = after_first(rest);
            continue;
        }
        let (piece, more) = split_piece(rest);
        rest = more;
        match read_piece(alloc, piece)? {
            Lexeme::Gap => {}
            Lexeme::Opening if stack.depth() >= MAX_DEPTH => return Ok(Item::Bad(
                Fault::NestingTooDeep,
            )),
            Lexeme::Opening => stack.open()?,
            Lexeme::Closing => {
                if let Some(form) = stack.close()? {
                    return Ok(Item::Form(form));
                }
            }
            Lexeme::Atom(Ok(token)) => stack.add(Form::Atom(token))?,
            Lexeme::Atom(Err(fault)) => return Ok(Item::Bad(fault)),
        }
    }
    // A list whose matching `)` is its last byte never comes here.
    Ok(Item::Bad(Fault::FormNotClosed))
}

/// The bytes after the first one.
fn after_first(text: &[u8]) -> &[u8]
    requires { 0 < length text.now }
    ensures { result.now ≡ drop 1 text.now }
{
    let (_, more) = text.split_at(1);
    more
}
