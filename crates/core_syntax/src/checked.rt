ghost use Rattle.std.specs.Prelude.{◌≡◌};
ghost use Rattle.core_syntax.specs.Checks.{IsChecked};
ghost use Rattle.core_syntax.specs.Lists.{each};
ghost use Rattle.core_syntax.specs.Notes.{note_of};
ghost use Rattle.core_syntax.specs.Refine.{ty_of};
ghost use Rattle.core_syntax.specs.Wholes.{program_of};

use crate::note::Note;
use crate::program::Program;
use crate::ty::Ty;
use sqlite_items::Items;

/// A program that the checker accepts, with the type of its body and the types of its inputs in normal form, and a note for
/// each expression of its definitions in order and then of its body, a node before its parts, and parts from left to right
/// (docs/LANGUAGE.md, "Notes"). It is typed and its measures hold, and the notes are those of the typing rules.
#[derive(Drop)]
pub struct Checked {
    pub program: Program,
    /// The type of the program's body.
    pub body: Ty,
    pub inputs: Items<Ty>,
    pub notes: Items<Note>,
    ghost checked: { ∥ IsChecked (program_of program) (ty_of body) (each ty_of inputs) (each note_of notes) ∥₁ },
}

impl Checked {
    /// A program that is checked, of its parts. It takes no memory.
    pub fn new(program: Program, body: Ty, inputs: Items<Ty>, notes: Items<Note>) -> Checked
        requires { ∥ IsChecked (program_of program) (ty_of body) (each ty_of inputs) (each note_of notes) ∥₁ }
        ensures program { result.program ≡ program }
        ensures body { result.body ≡ body }
        ensures inputs { result.inputs ≡ inputs }
        ensures notes { result.notes ≡ notes }
    {
        Checked {
            program,
            body,
            inputs,
            notes,
        }
    }

    /// The program.
    pub fn program(&self) -> &Program
        ensures { result.now ≡ self.now.program }
    {
        &self.program
    }

    /// The type of the program's body, in normal form.
    pub fn result(&self) -> &Ty
        ensures { result.now ≡ self.now.body }
    {
        &self.body
    }

    /// The types of the program's inputs, in normal form.
    pub fn inputs(&self) -> &[Ty]
        ensures { result.now ≡ self.now.inputs }
    {
        self.inputs.as_slice()
    }

    /// The notes, in the order of the nodes.
    pub fn notes(&self) -> &[Note]
        ensures { result.now ≡ self.now.notes }
    {
        self.notes.as_slice()
    }
}
