//! Reading an item that is spelled by a part of a script.
ghost use Rattle.std.specs.Prelude.{◌≡◌, true, false, IfOk};
ghost use Rattle.cb_forms.specs.Bytes.{begins_with};
ghost use Rattle.cb_forms.specs.Cuts.{item_readings};
ghost use Rattle.cb_forms.specs.Items.{is_open_list, piece_readings, readings_of};

use crate::fault::Fault;
use crate::form::{Form, Item};
use crate::lexeme::Lexeme;
use crate::list::read_list;
use crate::piece::read_piece;
use cb_io::NoMemory;
use std::alloc::Global;

/// The item that a part is: none for a blank or a comment. A list is closed. Growth is refused as `NoMemory`.
pub(crate) fn read_part(alloc: Global, part: &[u8]) -> Result<Option<Item>, NoMemory>
    requires { begins_with 40 part.now ≡ true → is_open_list part.now ≡ false }
    ensures { IfOk result (λ item. item_readings item ≡ readings_of part.now) }
{
    if part.first() == Some(&b'(') {
        return Ok(Some(read_list(alloc, part)?));
    }
    Ok(piece_item(read_piece(alloc, part)?))
}

/// The item that a piece outside every list is.
fn piece_item(lexeme: Lexeme) -> Option<Item>
    ensures { item_readings result ≡ piece_readings lexeme }
{
    match lexeme {
        Lexeme::Gap | Lexeme::Opening => None,
        Lexeme::Closing => Some(Item::Bad(Fault::UnmatchedParenthesis)),
        Lexeme::Atom(Ok(token)) => Some(Item::Form(Form::Atom(token))),
        Lexeme::Atom(Err(fault)) => Some(Item::Bad(fault)),
    }
}
