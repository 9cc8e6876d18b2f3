ghost use Rattle.std.specs.Prelude.{◌≡◌, ◌-◌, ◌<◌, ◌^◌, ◌==◌, min};
ghost use Rattle.core_syntax.specs.Lists.{product};
ghost use Rattle.sexp_reader.specs.Forms.{form_of, forms_of};
ghost use Rattle.name_resolve.specs.Answers.{Answers};
ghost use Rattle.name_resolve.specs.TermForms.{number as number_read, numbers as numbers_read, dims as dims_read};

use crate::errors::{NameRefusal, malformed, too_large, too_many, wrong_count};
use crate::lists::listed;
use core_syntax::Span;
use sexp_reader::{Sexp, SexpForm};
use sqlite_items::Items;
use std::alloc::Global;

/// The most numbers that an array or a frame may have.
const LARGEST_RANK: usize = 64;

/// The product of numbers, and the greatest u64 where it is above that.
fn saturated_product(numbers: &[u32]) -> u64
    ensures { result ≡ min (product numbers.now) (2 ^ 64 - 1) }
{
    let mut product = 1u64;
    for number in numbers {
        product = product.saturating_mul(u64::from(*number));
    }
    product
}

/// Whether arrays and frames with these numbers have no item.
pub fn has_no_item(numbers: &[u32]) -> bool
    ensures { result ≡ (product numbers.now == 0) }
{
    saturated_product(numbers) == 0
}

/// The number of an array or a frame that a form is.
fn number(form: &Sexp) -> Result<u32, NameRefusal>
    ensures { Answers (λ n. n) result (number_read (form_of form.now)) }
{
    let at = form.at;
    match &form.form {
        SexpForm::Int(n) => match u64::try_from(*n) {
            Ok(n) => match u32::try_from(n) {
                Ok(n) => Ok(n),
                Err(_) => Err(too_large(at)),
            },
            Err(_) => Err(malformed(at)),
        },
        _ => Err(malformed(at)),
    }
}

/// The numbers that forms are.
fn numbers(alloc: Global, forms: &[Sexp]) -> Result<Vec<u32>, NameRefusal>
    ensures { Answers (λ v. v.items) result (numbers_read (forms_of forms.now)) }
{
    let mut read = Vec::with_capacity(alloc, forms.len())?;
    for form in forms {
        let part = number(form)?;
        read.push(part)?;
    }
    Ok(read)
}

/// The numbers of an array or a frame with so many items, at this place.
pub fn dims(alloc: Global, at: Span, list: &Sexp, items: usize) -> Result<Items<u32>, NameRefusal>
    requires { items < 2 ^ 63 }
    ensures { Answers (λ ns. ns) result (dims_read at (form_of list.now) items) }
{
    let Some(forms) = listed(list) else {
        return Err(malformed(at));
    };
    let numbers = numbers(alloc, forms)?;
    if let Some(form) = forms.get(LARGEST_RANK) {
        return Err(too_many(form.at));
    }
    let count = saturated_product(numbers.as_slice()).max(1);
    if items as u64 != count {
        return Err(wrong_count(at));
    }
    Ok(Items::from_vec(numbers))
}
