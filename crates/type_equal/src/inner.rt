ghost use Rattle.std.specs.Prelude.{◌≡◌, ◌↔◌, IsTrue};
ghost use Rattle.core_syntax.specs.Refine.{ty_of};
ghost use Rattle.core_syntax.specs.NormTypes.{norm_ty};

use crate::same_type::same_types;
use core_syntax::Ty;

/// Whether two types in normal form, as the parts of normal types are, are equal.
pub fn same_part(a: &Ty, b: &Ty) -> bool
    ensures { norm_ty (ty_of a.now) ≡ ty_of a.now → norm_ty (ty_of b.now) ≡ ty_of b.now → (IsTrue result ↔ (ty_of a.now ≡ ty_of b.now)) }
{
    same_types(a, b)
}
