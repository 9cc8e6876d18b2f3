// Reading a whole text.
ghost use Rattle.std.specs.Prelude.{◌≡◌, ◌≤◌, ◌^◌, None, length, take, IfOk, IfErr, MatchOption, MatchResult, IsUtf8};
ghost use Rattle.std.specs.Str.Lossy.{utf8_valid_len};
ghost use Rattle.sexp_reader.specs.Building.{IsBlame};
ghost use Rattle.sexp_reader.specs.Forms.{Forms, forms_of, forms_nesting, forms_size, AreShort};
ghost use Rattle.sexp_reader.specs.Reads.{Reads, read_blame, tokens_blame, marks, forms_marks};
ghost use Rattle.sexp_reader.specs.Tokens.{lexed, start, place_after, span_at};

use crate::builder::Builder;
use crate::errors::SexpRefusal;
use crate::lexer::Lexer;
use crate::sexp::Sexp;
use core_syntax::Span;
use std::alloc::Global;

/// The number of the refusal of what is not UTF-8.
const NOT_UTF8: u8 = 1;

// The first byte of the first sequence that is not UTF-8.
fn bad_sequence(bytes: &[u8]) -> Option<Span>
    requires { length bytes.now ≤ 2 ^ 24 }
    ensures { MatchOption result (IsUtf8 bytes.now)
        (λ at. ¬ (IsUtf8 bytes.now) × (at ≡ span_at (place_after start (take (utf8_valid_len bytes.now) bytes.now)) 1)) }
{
    match simdutf8::compat::from_utf8(bytes) {
        Ok(_) => None,
        Err(fault) => {
            let mut lexer = Lexer::new(bytes);
            lexer.skip(fault.valid_up_to());
            Some(lexer.byte())
        }
    }
}

// Reads a text that is UTF-8.
fn read_tokens(alloc: Global, bytes: &[u8]) -> Result<Vec<Sexp>, SexpRefusal>
    requires { length bytes.now ≤ 2 ^ 24 }
    ensures tokens { IfOk result (λ v. marks (lexed bytes.now) ≡ forms_marks (forms_of v.items)) }
    ensures nested { IfOk result (λ v. forms_nesting (forms_of v.items) ≤ 256) }
    ensures refused { IfErr result (λ e. IsBlame e (tokens_blame (lexed bytes.now))) }
{
    let mut lexer = Lexer::new(bytes);
    let mut builder = Builder::new(alloc);
    while let Some(token) = lexer.next(alloc)? {
        builder.take(token)?;
    }
    builder.finish()
}

/// The forms of a text of at most `MOST_BYTES` bytes, by the grammar of LANGUAGE.md, "Source text". It tests first that the
/// text is UTF-8, and then goes from left to right and answers the first refusal of LANGUAGE.md, "Refusals", 1 to 6.
pub fn read(alloc: Global, bytes: &[u8]) -> Result<Vec<Sexp>, SexpRefusal>
    requires { length bytes.now ≤ 2 ^ 24 }
    // What is read stands in the text.
    ensures found { IfOk result (λ v. Reads bytes.now (forms_of v.items)) }
    // What stands in the text is read, unless memory runs out.
    ensures only { (forms : Forms) → Reads bytes.now forms → MatchResult result (λ v. forms_of v.items ≡ forms) (λ e. e ≡ SexpRefusal.Memory) }
    // Which refusal it is, and that there is none of a text that is read.
    ensures blame { MatchResult result (λ v. read_blame bytes.now ≡ None) (λ e. IsBlame e (read_blame bytes.now)) }
    ensures size { IfOk result (λ v. forms_size (forms_of v.items) ≤ length bytes.now) }
    ensures short { IfOk result (λ v. AreShort (forms_of v.items)) }
{
    if let Some(span) = bad_sequence(bytes) {
        return Err(SexpRefusal::Refused {
            number: NOT_UTF8,
            span,
        });
    }
    read_tokens(alloc, bytes)
}
