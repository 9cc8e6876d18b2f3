ghost use Rattle.std.specs.Prelude.{◌≡◌, ◌<◌, ◌^◌, ◌↔◌, IsTrue};
ghost use Rattle.sexp_reader.specs.Forms.{form_of, forms_of, form_size, forms_size, room_behind};

use core_syntax::Span;
use sqlite_items::Items;

/// A form of the text, and where it stands. The place of a list goes from its `(` to its `)`.
#[cycle(sexp)]
#[derive(Drop)]
pub struct Sexp {
    pub at: Span,
    pub form: SexpForm,
}

/// What a form is: one of the tokens of LANGUAGE.md, "Tokens", or a list of forms.
#[cycle(sexp)]
#[derive(Drop)]
pub enum SexpForm {
    /// `-12`
    Int(i64),
    /// `#t` or `#f`
    Bool(bool),
    /// `#\a` or `#\u61`
    Char(char),
    /// What a string says, without its quotes and backslashes.
    Text(Items<u8>),
    Symbol(Items<u8>),
    /// The forms between `(` and `)`.
    Seq(Items<Sexp>),
}

/// The size below which forms are small.
const SMALL: usize = 1 << 26;

/// Whether the forms are small: their size is below 2^26. It counts 1 for each form, lists and their items included, and 1
/// more for each byte of a string. Takes no memory.
pub fn small(forms: &[Sexp]) -> bool
    ensures { IsTrue result ↔ (forms_size (forms_of forms.now) < 2 ^ 26) }
{
    behind_forms(forms, SMALL - 1).is_some()
}

// How much of the room is left behind a form, where there is as much.
#[cycle(sizes)]
fn behind_form(form: &Sexp, room: usize) -> Option<usize>
    ensures { result ≡ room_behind (form_size (form_of form.now)) room }
{
    match &form.form {
        SexpForm::Int(_) => room.checked_sub(1),
        SexpForm::Bool(_) => room.checked_sub(1),
        SexpForm::Char(_) => room.checked_sub(1),
        SexpForm::Text(text) => room.checked_sub(1)?.checked_sub(text.len()),
        SexpForm::Symbol(_) => room.checked_sub(1),
        SexpForm::Seq(items) => behind_forms(items.as_slice(), room.checked_sub(1)?),
    }
}

#[cycle(sizes)]
fn behind_forms(forms: &[Sexp], room: usize) -> Option<usize>
    ensures { result ≡ room_behind (forms_size (forms_of forms.now)) room }
{
    let mut left = room;
    for form in forms {
        left = behind_form(form, left)?;
    }
    Some(left)
}
