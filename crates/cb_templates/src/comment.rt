//! The comment of a construct.
ghost use Rattle.std.specs.Prelude.{◌≡◌};
ghost use Rattle.cb_forms.specs.Members.{members};
ghost use Rattle.cb_templates.specs.Templates.{without_comment};

use cb_forms::{Form, Token};

/// The forms after the comment that may stand after the name of a construct.
pub fn without_comment(forms: &[Form]) -> &[Form]
    ensures { members result.now ≡ without_comment (members forms.now) }
{
    match forms {
        [Form::Atom(Token::Str(_)), rest @ ..] => rest,
        _ => forms,
    }
}
