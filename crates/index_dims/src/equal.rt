ghost use Rattle.std.specs.Prelude.{◌≡◌, ◌↔◌, IsTrue, List};
ghost use Rattle.core_syntax.specs.Syntax.{Index};
ghost use Rattle.core_syntax.specs.Sorts.{IsSorted};
ghost use Rattle.core_syntax.specs.Value.{Valuation, IndexEqual};
ghost use Rattle.core_syntax.specs.NormValue.{form_value};
ghost use Rattle.core_syntax.specs.Norm.{norm_dim};

use crate::Linear;
use core_syntax::Sort;

/// Whether two linear forms are the same.
fn is_same(a: &Linear, b: &Linear) -> bool
    ensures { IsTrue result ↔ (a.now ≡ b.now) }
{
    a.constant == b.constant && a.coefs.as_slice() == b.coefs.as_slice()
}

/// Whether two linear forms have the same value under every valuation. Of well-sorted indices of
/// one context that come to them, it is whether these are equal (docs/LANGUAGE.md, "Indices").
/// It takes no memory.
pub fn same(a: &Linear, b: &Linear) -> bool
    ensures values { IsTrue result ↔ ((v : Valuation) → form_value v a.now ≡ form_value v b.now) }
    ensures indices { (sorts : List Sort) (i j : Index) → IsSorted sorts Sort.Dim i → IsSorted sorts Sort.Dim j →
        norm_dim i ≡ a.now → norm_dim j ≡ b.now → (IsTrue result ↔ IndexEqual sorts Sort.Dim i j) }
    ensures forms { IsTrue result ↔ (a.now ≡ b.now) }
{
    // Reading the coefficients brings in that their variables rise.
    let _ = &a.coefs;
    let _ = &b.coefs;
    is_same(a, b)
}
