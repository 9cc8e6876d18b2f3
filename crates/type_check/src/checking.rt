ghost use Rattle.std.specs.Prelude.{◌≡◌, IfOk, IfErr};
ghost use Rattle.core_syntax.specs.Blame.{program_premises};
ghost use Rattle.core_syntax.specs.Checks.{IsChecked};
ghost use Rattle.core_syntax.specs.Lists.{each};
ghost use Rattle.core_syntax.specs.NormTypes.{norm_ty};
ghost use Rattle.core_syntax.specs.Notes.{note_of};
ghost use Rattle.core_syntax.specs.Refine.{ty_of};
ghost use Rattle.core_syntax.specs.Wholes.{program_of};
ghost use Rattle.type_check.specs.Found.{Refuses};

use crate::program::program_type;
use crate::refusal::TypeRefusal;
use crate::state::{Bound, Checker};
use core_syntax::{Checked, Memory, Note, Program, Ty};
use sqlite_items::Items;
use std::alloc::Global;
use type_equal::NormType;

/// What is found of a program: the type of its body, those of its inputs, and the notes.
#[derive(Drop)]
struct Findings {
    body: Ty,
    inputs: Items<Ty>,
    notes: Items<Note>,
}

/// Copies of the types of term variables.
fn input_types(alloc: Global, terms: &[Bound]) -> Result<Items<Ty>, Memory>
    ensures { IfOk result (λ ts. ts ≡ each (λ b. b.ty) terms.now) }
{
    let mut types = Vec::new(alloc);
    for term in terms {
        let ty = term.ty.ty().copy(alloc)?;
        types.push(ty).map_err(|_| Memory)?;
    }
    Ok(Items::from_vec(types))
}

/// What a checker found of a program whose body has this type.
fn gathered(alloc: Global, checker: Checker, body: NormType) -> Result<Findings, TypeRefusal>
    ensures body { IfOk result (λ f. f.body ≡ body) }
    ensures normal { IfOk result (λ f. norm_ty (ty_of f.body) ≡ ty_of f.body) }
    ensures inputs { IfOk result (λ f. f.inputs ≡ each (λ b. b.ty) checker.terms) }
    ensures notes { IfOk result (λ f. f.notes ≡ checker.notes) }
    ensures memory { IfErr result (λ r. r ≡ TypeRefusal.Memory) }
{
    match input_types(alloc, checker.terms()) {
        Ok(inputs) => Ok(Findings {
            body: body.into_ty(),
            inputs,
            notes: Items::from_vec(checker.into_notes()),
        }),
        Err(_) => Err(TypeRefusal::Memory),
    }
}

/// What is found of a program.
fn found(alloc: Global, p: &Program) -> Result<Findings, TypeRefusal>
    ensures checked { IfOk result (λ f. IsChecked (program_of p.now) (ty_of f.body) (each ty_of f.inputs) (each note_of f.notes)) }
    ensures refused { IfErr result (λ r. Refuses (program_premises (program_of p.now)) r) }
{
    let mut checker = Checker::new(alloc);
    match program_type(&mut checker, p) {
        Ok(body) => gathered(alloc, checker, body),
        Err(refusal) => Err(refusal),
    }
}

/// A program with what was found of it.
fn with_findings(program: Program, findings: Findings) -> Checked
    requires { IsChecked (program_of program) (ty_of findings.body) (each ty_of findings.inputs) (each note_of findings.notes) }
    ensures { result.program ≡ program }
{
    let Findings {
        body,
        inputs,
        notes,
    } = findings;
    Checked::new(program, body, inputs, notes)
}

/// A copy of a program with what was found of it.
fn copy_with_findings(
    alloc: Global,
    p: &Program,
    findings: Findings,
) -> Result<Checked, TypeRefusal>
    requires { IsChecked (program_of p.now) (ty_of findings.body) (each ty_of findings.inputs) (each note_of findings.notes) }
    ensures program { IfOk result (λ c. c.program ≡ p.now) }
    ensures memory { IfErr result (λ r. r ≡ TypeRefusal.Memory) }
{
    match p.copy(alloc) {
        Ok(program) => Ok(with_findings(program, findings)),
        Err(_) => Err(TypeRefusal::Memory),
    }
}

/// A copy of the program with the type of its body and the types of its inputs, both in normal form, and a
/// note for each expression of its definitions and its body (docs/LANGUAGE.md, "Notes"). It comes
/// exactly where the program is typed and all measures hold (docs/LANGUAGE.md, "Typing").
///
/// # Errors
///
/// `Refused` exactly where a premise of the typing isn't met, with the first of them in the order of
/// docs/LANGUAGE.md, "Typing": its number and its place. The numbers are 13 and 16 for a type or an
/// index that is too large, 14 and 15 for one that isn't well formed, 17 and 18 for an atom or a cell
/// of another type than the first, 19 to 22 for an application, 23 to 25 for another type than the
/// form asks for, 26 for a box's content, 27 for a type that isn't the written one, 28 for a
/// definition that is no syntactic value, and 29 and 30 for an input or a result that isn't
/// printable. `Memory` where there was no memory.
pub fn check(alloc: Global, p: &Program) -> Result<Checked, TypeRefusal>
    ensures checked { IfOk result (λ c. c.program ≡ p.now) }
    ensures refused { IfErr result (λ r. Refuses (program_premises (program_of p.now)) r) }
{
    match found(alloc, p) {
        Ok(findings) => copy_with_findings(alloc, p, findings),
        Err(refusal) => Err(refusal),
    }
}

/// The same as `check` for a program that isn't used behind it: the program is moved, and not copied.
///
/// # Errors
///
/// Those of `check`.
pub fn check_owned(alloc: Global, program: Program) -> Result<Checked, TypeRefusal>
    ensures checked { IfOk result (λ c. c.program ≡ program) }
    ensures refused { IfErr result (λ r. Refuses (program_premises (program_of program)) r) }
{
    match found(alloc, &program) {
        Ok(findings) => Ok(with_findings(program, findings)),
        Err(refusal) => Err(refusal),
    }
}
