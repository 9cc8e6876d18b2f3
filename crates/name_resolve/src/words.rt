ghost use Rattle.std.specs.Prelude.{◌≡◌};
ghost use Rattle.name_resolve.specs.Words.{
  index_word as index_word_of,
  type_word as type_word_of,
  base_word as base_word_of,
  atom_word as atom_word_of,
  expr_word as expr_word_of,
  top_word as top_word_of,
  sort_named as sort_named_of,
  reserved,
};

use core_syntax::{Base, Sort};

/// The three spaces of names.
#[derive(Clone, Copy, Debug, PartialEq, Eq)]
pub enum NameSpace {
    Terms,
    Types,
    Indices,
}

/// A binder of index variables in a type.
#[derive(Clone, Copy, Debug, PartialEq, Eq)]
pub enum Quantifier {
    Pi,
    Sigma,
}

/// The words of the index forms.
#[derive(Clone, Copy, Debug, PartialEq, Eq)]
pub enum IndexWord {
    Shape,
    Plus,
    Join,
}

/// The words of the type forms.
#[derive(Clone, Copy, Debug, PartialEq, Eq)]
pub enum TypeWord {
    Arr,
    Arrow,
    Forall,
    Pi,
    Sigma,
}

/// The words of the atoms that are lists.
#[derive(Clone, Copy, Debug, PartialEq, Eq)]
pub enum AtomWord {
    Fn,
    TypeFn,
    IndexFn,
    Box,
}

/// The words of the other expressions.
#[derive(Clone, Copy, Debug, PartialEq, Eq)]
pub enum ExprWord {
    Array,
    Frame,
    Unbox,
    TypeApp,
    IndexApp,
}

/// The words of the top forms.
#[derive(Clone, Copy, Debug, PartialEq, Eq)]
pub enum TopWord {
    Define,
    Main,
}

/// The word of the index forms that a name is.
pub fn index_word(name: &[u8]) -> Option<IndexWord>
    ensures { result ≡ index_word_of name.now }
{
    match name {
        b"shape" => Some(IndexWord::Shape),
        b"+" => Some(IndexWord::Plus),
        b"++" => Some(IndexWord::Join),
        _ => None,
    }
}

/// The base type that a name is.
pub fn base_word(name: &[u8]) -> Option<Base>
    ensures { result ≡ base_word_of name.now }
{
    match name {
        b"Int" => Some(Base::Int),
        b"Bool" => Some(Base::Bool),
        b"Char" => Some(Base::Char),
        _ => None,
    }
}

/// The word of the type forms that a name is.
pub fn type_word(name: &[u8]) -> Option<TypeWord>
    ensures { result ≡ type_word_of name.now }
{
    match name {
        b"A" => Some(TypeWord::Arr),
        b"->" => Some(TypeWord::Arrow),
        b"Forall" => Some(TypeWord::Forall),
        b"Pi" => Some(TypeWord::Pi),
        b"Sigma" => Some(TypeWord::Sigma),
        _ => None,
    }
}

/// The word of the atoms that a name is.
pub fn atom_word(name: &[u8]) -> Option<AtomWord>
    ensures { result ≡ atom_word_of name.now }
{
    match name {
        b"fn" => Some(AtomWord::Fn),
        b"tfn" => Some(AtomWord::TypeFn),
        b"ifn" => Some(AtomWord::IndexFn),
        b"box" => Some(AtomWord::Box),
        _ => None,
    }
}

/// The word of the other expressions that a name is.
pub fn expr_word(name: &[u8]) -> Option<ExprWord>
    ensures { result ≡ expr_word_of name.now }
{
    match name {
        b"array" => Some(ExprWord::Array),
        b"frame" => Some(ExprWord::Frame),
        b"unbox" => Some(ExprWord::Unbox),
        b"t-app" => Some(ExprWord::TypeApp),
        b"i-app" => Some(ExprWord::IndexApp),
        _ => None,
    }
}

/// The word of the top forms that a name is.
pub fn top_word(name: &[u8]) -> Option<TopWord>
    ensures { result ≡ top_word_of name.now }
{
    match name {
        b"define" => Some(TopWord::Define),
        b"main" => Some(TopWord::Main),
        _ => None,
    }
}

/// The sort of this name.
pub fn sort_named(name: &[u8]) -> Option<Sort>
    ensures { result ≡ sort_named_of name.now }
{
    match name {
        b"Dim" => Some(Sort::Dim),
        b"Shape" => Some(Sort::Shape),
        _ => None,
    }
}

/// Whether a name is reserved in a space.
pub fn is_reserved(space: NameSpace, name: &[u8]) -> bool
    ensures { result ≡ reserved space name.now }
{
    match space {
        NameSpace::Terms => {
            atom_word(name).is_some() || expr_word(name).is_some() || top_word(name).is_some()
        }
        NameSpace::Types => base_word(name).is_some() || type_word(name).is_some(),
        NameSpace::Indices => index_word(name).is_some(),
    }
}
