ghost use Rattle.std.specs.Prelude.{◌≡◌};
ghost use Rattle.core_syntax.specs.declared.span.Span.{Span};
ghost use Rattle.core_syntax.specs.Refine.{form_of as index_form_of, index_of, indices_of};
ghost use Rattle.sexp_reader.specs.Forms.{form_of, forms_of};
ghost use Rattle.name_resolve.specs.Answers.{Answers};
ghost use Rattle.name_resolve.specs.IndexForms.{index_made, index_head, index as index_read, indices as indices_read};

use crate::errors::{NameRefusal, malformed, unknown};
use crate::space::Space;
use crate::words::{IndexWord, index_word};
use core_syntax::{Index, IndexForm};
use sexp_reader::{Sexp, SexpForm};
use sqlite_items::Items;
use std::alloc::Global;

/// The word at the head of an index form.
fn head_index_word(head: &Sexp) -> Option<IndexWord>
    ensures { result ≡ index_head (form_of head.now) }
{
    match &head.form {
        SexpForm::Symbol(word) => index_word(word.as_slice()),
        _ => None,
    }
}

/// The form of an index with this word.
fn index_form(word: IndexWord, parts: Items<Index>) -> IndexForm
    ensures { (at : Span) → index_form_of at result ≡ index_made word at (indices_of parts) }
{
    match word {
        IndexWord::Plus => IndexForm::Sum(parts),
        IndexWord::Shape => IndexForm::Dims(parts),
        IndexWord::Join => IndexForm::Join(parts),
    }
}

/// The index that a form means.
#[cycle(indices)]
pub fn index(alloc: Global, names: &Space, form: &Sexp) -> Result<Index, NameRefusal>
    ensures { Answers index_of result (index_read names.now (form_of form.now)) }
{
    let at = form.at;
    match &form.form {
        SexpForm::Int(n) => match u64::try_from(*n) {
            Ok(n) => Ok(Index {
                at,
                form: IndexForm::Num(n),
            }),
            Err(_) => Err(malformed(at)),
        },
        SexpForm::Symbol(name) => match names.find(name.as_slice()) {
            Some(k) => Ok(Index {
                at,
                form: IndexForm::Var(k),
            }),
            None => Err(unknown(at)),
        },
        SexpForm::Seq(items) => {
            let [head, parts @ ..] = items.as_slice() else {
                return Err(malformed(at));
            };
            let Some(word) = head_index_word(head) else {
                return Err(malformed(at));
            };
            let parts = indices(alloc, names, parts)?;
            Ok(Index {
                at,
                form: index_form(word, parts),
            })
        }
        _ => Err(malformed(at)),
    }
}

/// The indices that forms mean.
#[cycle(indices)]
pub fn indices(alloc: Global, names: &Space, forms: &[Sexp]) -> Result<Items<Index>, NameRefusal>
    ensures { Answers indices_of result (indices_read names.now (forms_of forms.now)) }
{
    let mut read = Vec::with_capacity(alloc, forms.len())?;
    for form in forms {
        let part = index(alloc, names, form)?;
        read.push(part).map_err(|_| NameRefusal::Memory)?;
    }
    Ok(Items::from_vec(read))
}
