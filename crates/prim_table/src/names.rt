ghost use Rattle.std.specs.Prelude.{◌≡◌};
ghost use Rattle.prim_table.specs.Names.{named};

use core_syntax::Primitive;

/// The primitive of this name, by the table of LANGUAGE.md, "Primitives", and None exactly where the table has no such name.
/// Takes no memory.
pub fn prim(name: &[u8]) -> Option<Primitive>
    ensures { result ≡ named name.now }
{
    match name {
        b"+" => Some(Primitive::Add),
        b"-" => Some(Primitive::Sub),
        b"*" => Some(Primitive::Mul),
        b"div" => Some(Primitive::Div),
        b"mod" => Some(Primitive::Mod),
        b"min" => Some(Primitive::Min),
        b"max" => Some(Primitive::Max),
        b"=" => Some(Primitive::Equal),
        b"<" => Some(Primitive::Less),
        b"<=" => Some(Primitive::AtMost),
        b"char=" => Some(Primitive::CharEqual),
        b"char<" => Some(Primitive::CharLess),
        b"char->int" => Some(Primitive::CharToInt),
        b"bool->int" => Some(Primitive::BoolToInt),
        b"and" => Some(Primitive::And),
        b"or" => Some(Primitive::Or),
        b"not" => Some(Primitive::Not),
        b"select" => Some(Primitive::Select),
        b"append" => Some(Primitive::Append),
        b"reverse" => Some(Primitive::Reverse),
        b"take" => Some(Primitive::Take),
        b"drop" => Some(Primitive::Drop),
        b"transpose" => Some(Primitive::Transpose),
        b"replicate" => Some(Primitive::Replicate),
        b"length" => Some(Primitive::Length),
        b"positions" => Some(Primitive::Positions),
        b"index-or" => Some(Primitive::IndexOr),
        b"reduce" => Some(Primitive::Reduce),
        b"fold" => Some(Primitive::Fold),
        b"iota" => Some(Primitive::Iota),
        b"reshape" => Some(Primitive::Reshape),
        b"ravel" => Some(Primitive::Ravel),
        b"filter" => Some(Primitive::Filter),
        _ => None,
    }
}
