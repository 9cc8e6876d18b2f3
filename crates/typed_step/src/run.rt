// Steps of a term where it stands (docs/LANGUAGE.md, "Reduction").
ghost use Rattle.std.specs.Prelude.{◌≡◌, ◌<◌, IfOk};
ghost use Rattle.core_syntax.specs.Lists.{each};
ghost use Rattle.core_syntax.specs.Step.{unfolded};
ghost use Rattle.core_syntax.specs.Typed.{typed_rules};
ghost use Rattle.core_syntax.specs.Refine.{index_of};
ghost use Rattle.core_syntax.specs.RefineTerms.{term_of, terms_of, cell_of, cells_of};
ghost use Rattle.typed_prims.specs.Outcomes.{move_of};
ghost use Rattle.typed_step.specs.Outcomes.{fires, trapped};
ghost use Rattle.typed_step.specs.Runs.{EndsHere, Fired, TermRun, TermsRun, FrameRun, BoxRun, CellRun, CellsRun, ApplicationRun, PartsRun};

use crate::outcome::End;
use crate::rules;
use crate::rules::Application;
use core_syntax::{Index, Memory, Part, Parts, TermAtom, TermExpr, TrapKind};
use std::alloc::Global;
use typed_prims::Outcome;

/// Steps a term until it rests, a step traps or the budget is spent. A term that nests deeper than `room` finds no memory.
#[cycle(run)]
pub(crate) fn run(
    alloc: Global,
    defs: &[TermExpr],
    term: &mut TermExpr,
    budget: &mut u64,
    room: u32,
) -> Result<End, Memory>
    ensures { IfOk result (λ end. TermRun (each term_of defs.now) budget.old (term_of term.old) end budget.new (term_of term.new)) }
{
    loop {
        match run_parts(alloc, defs, term, budget, room)? {
            End::Value => {}
            end => return Ok(end),
        }
        if let Some(end) = fire(alloc, defs, term, budget, room)? {
            return Ok(end);
        }
    }
}

/// Runs the parts of a term that come before its own rule.
#[cycle(run)]
fn run_parts(
    alloc: Global,
    defs: &[TermExpr],
    term: &mut TermExpr,
    budget: &mut u64,
    room: u32,
) -> Result<End, Memory>
    ensures { IfOk result (λ end. PartsRun (each term_of defs.now) budget.old (term_of term.old) end budget.new (term_of term.new)) }
{
    let room = room.checked_sub(1).ok_or(Memory)?;
    match term {
        TermExpr::Array(_, atoms) => {
            let end = run_atoms(alloc, defs, atoms, budget, room)?;
            Ok(end)
        }
        TermExpr::Frame(dims, cells, _) => {
            let end = run_cells(alloc, defs, dims.as_slice(), cells, budget, room)?;
            Ok(end)
        }
        TermExpr::App(function, args, _, _) => {
            let end = run_application(alloc, defs, function, args, budget, room)?;
            Ok(end)
        }
        TermExpr::TypeApp(function, _, _) => {
            let end = run(alloc, defs, function.get_mut(), budget, room)?;
            Ok(end)
        }
        TermExpr::IndexApp(function, _, _) => {
            let end = run(alloc, defs, function.get_mut(), budget, room)?;
            Ok(end)
        }
        TermExpr::Unbox(_, boxed, _, _) => {
            let end = run(alloc, defs, boxed.get_mut(), budget, room)?;
            Ok(end)
        }
        TermExpr::Var(_) | TermExpr::Def(_) | TermExpr::NoAtoms(_, _) | TermExpr::NoCells(_, _) =>
            Ok(End::Value),
    }
}

/// Runs the function of an application, and then its arguments.
#[cycle(run)]
fn run_application(
    alloc: Global,
    defs: &[TermExpr],
    function: &mut Part<TermExpr>,
    args: &mut Parts<TermExpr>,
    budget: &mut u64,
    room: u32,
) -> Result<End, Memory>
    ensures { IfOk result (λ end. ApplicationRun (each term_of defs.now) budget.old (term_of function.old) (terms_of args.old) end budget.new (term_of function.new) (terms_of args.new)) }
{
    match run(alloc, defs, function.get_mut(), budget, room)? {
        End::Value => {
            let end = run_terms(alloc, defs, args, budget, room)?;
            Ok(end)
        }
        end => Ok(end),
    }
}

/// Runs terms from left to right.
#[cycle(run)]
fn run_terms(
    alloc: Global,
    defs: &[TermExpr],
    terms: &mut Parts<TermExpr>,
    budget: &mut u64,
    room: u32,
) -> Result<End, Memory>
    ensures { IfOk result (λ end. TermsRun (each term_of defs.now) budget.old (terms_of terms.old) end budget.new (terms_of terms.new)) }
{
    for place in 0..terms.len() {
        match run(alloc, defs, terms.at_mut(place), budget, room)? {
            End::Value => {}
            end => return Ok(end),
        }
    }
    Ok(End::Value)
}

/// Runs the cells of a frame: the first, and where there is room for as many like it, the others.
#[cycle(run)]
fn run_cells(
    alloc: Global,
    defs: &[TermExpr],
    dims: &[u32],
    cells: &mut Parts<TermExpr>,
    budget: &mut u64,
    room: u32,
) -> Result<End, Memory>
    ensures { IfOk result (λ end. FrameRun (each term_of defs.now) dims.now budget.old (terms_of cells.old) end budget.new (terms_of cells.new)) }
{
    if cells.len() == 0 {
        return Ok(End::Lost);
    }
    match run(alloc, defs, cells.at_mut(0), budget, room)? {
        End::Value => {}
        end => return Ok(end),
    }
    if !term_values::has_room(dims, cells.as_slice()) {
        return Ok(trap(TrapKind::Size, budget));
    }
    let end = run_terms(alloc, defs, cells, budget, room)?;
    Ok(end)
}

/// Runs the boxes among atoms, from left to right.
#[cycle(run)]
fn run_atoms(
    alloc: Global,
    defs: &[TermExpr],
    atoms: &mut Parts<TermAtom>,
    budget: &mut u64,
    room: u32,
) -> Result<End, Memory>
    ensures { IfOk result (λ end. CellsRun (each term_of defs.now) budget.old (cells_of atoms.old) end budget.new (cells_of atoms.new)) }
{
    for place in 0..atoms.len() {
        match run_atom(alloc, defs, atoms.at_mut(place), budget, room)? {
            End::Value => {}
            end => return Ok(end),
        }
    }
    Ok(End::Value)
}

/// Runs the content of a box, and then looks at its indices; any other atom rests.
#[cycle(run)]
fn run_atom(
    alloc: Global,
    defs: &[TermExpr],
    atom: &mut TermAtom,
    budget: &mut u64,
    room: u32,
) -> Result<End, Memory>
    ensures { IfOk result (λ end. CellRun (each term_of defs.now) budget.old (cell_of atom.old) end budget.new (cell_of atom.new)) }
{
    match atom {
        TermAtom::Boxed(indices, content, _) => {
            let end = run_box(alloc, defs, indices.as_slice(), content, budget, room)?;
            Ok(end)
        }
        TermAtom::Int(_)
        | TermAtom::Bool(_)
        | TermAtom::Char(_)
        | TermAtom::Prim(_, _, _)
        | TermAtom::Fn(_, _, _)
        | TermAtom::TypeFn(_, _)
        | TermAtom::IndexFn(_, _) => Ok(End::Value),
    }
}

/// Runs the content of a box, and then looks at its indices.
#[cycle(run)]
fn run_box(
    alloc: Global,
    defs: &[TermExpr],
    indices: &[Index],
    content: &mut Part<TermExpr>,
    budget: &mut u64,
    room: u32,
) -> Result<End, Memory>
    ensures { IfOk result (λ end. BoxRun (each term_of defs.now) (each index_of indices.now) budget.old (term_of content.old) end budget.new (term_of content.new)) }
{
    match run(alloc, defs, content.get_mut(), budget, room)? {
        End::Value => {}
        end => return Ok(end),
    }
    if term_values::all_fit(alloc, indices)? {
        return Ok(End::Value);
    }
    Ok(trap(TrapKind::Size, budget))
}

/// A step that traps, if the budget isn't spent.
fn trap(kind: TrapKind, budget: &mut u64) -> End
    ensures { EndsHere (trapped kind) 0 budget.old result budget.new }
{
    if *budget == 0 {
        return End::Spent;
    }
    *budget -= 1;
    End::Trap(kind)
}

/// The step by a term's own rule, if the budget isn't spent: nothing where the run goes on, and else why it ends.
fn fire(
    alloc: Global,
    defs: &[TermExpr],
    term: &mut TermExpr,
    budget: &mut u64,
    room: u32,
) -> Result<Option<End>, Memory>
    ensures { IfOk result (λ ended. Fired (fires (each term_of defs.now) (term_of term.old)) budget.old (term_of term.old) ended budget.new (term_of term.new)) }
{
    if *budget == 0 {
        let end = look(alloc, defs, term, room)?;
        return Ok(Some(end));
    }
    let outcome = rule(alloc, defs, term, room)?;
    Ok(take(outcome, term, budget))
}

/// Why a run ends at a term whose parts are values where the budget is spent.
fn look(alloc: Global, defs: &[TermExpr], term: &TermExpr, room: u32) -> Result<End, Memory>
    ensures { IfOk result (λ end. EndsHere (fires (each term_of defs.now) (term_of term.now)) 0 0 end 0) }
{
    let outcome = rule(alloc, defs, term, room)?;
    Ok(spent(&outcome))
}

/// Why a run ends where this is what the rule gives and the budget is spent.
fn spent(outcome: &Outcome) -> End
    ensures { EndsHere (move_of outcome.now) 0 0 result 0 }
{
    match outcome {
        Outcome::Rests => End::Value,
        Outcome::Lost => End::Lost,
        Outcome::Trap(_) | Outcome::Goes(_) => End::Spent,
    }
}

/// The step that a rule gives, where the budget isn't spent.
fn take(outcome: Outcome, term: &mut TermExpr, budget: &mut u64) -> Option<End>
    requires { 0 < budget.old }
    ensures { Fired (move_of outcome) budget.old (term_of term.old) result budget.new (term_of term.new) }
{
    match outcome {
        Outcome::Rests => Some(End::Value),
        Outcome::Lost => Some(End::Lost),
        Outcome::Trap(kind) => {
            *budget -= 1;
            Some(End::Trap(kind))
        }
        Outcome::Goes(next) => {
            *budget -= 1;
            put(next, term);
            None
        }
    }
}

/// Puts the next term in the place of the last.
fn put(next: TermExpr, term: &mut TermExpr)
    ensures { term.new ≡ next }
{
    *term = next;
}

/// What the rule of a term gives whose parts are values.
fn rule(alloc: Global, defs: &[TermExpr], term: &TermExpr, room: u32) -> Result<Outcome, Memory>
    ensures { IfOk result (λ o. move_of o ≡ fires (each term_of defs.now) (term_of term.now)) }
{
    match term {
        TermExpr::Var(_) => Ok(Outcome::Lost),
        TermExpr::Array(_, _) | TermExpr::NoAtoms(_, _) => Ok(Outcome::Rests),
        TermExpr::Def(k) => unfold(alloc, defs, *k, room),
        TermExpr::Frame(dims, cells, cell) => {
            rules::collapse(alloc, dims.as_slice(), cells.as_slice(), cell, room)
        }
        TermExpr::NoCells(dims, cell) => rules::empty(alloc, dims.as_slice(), cell),
        TermExpr::App(function, args, cells, answer) => {
            let application = Application {
                function: function.get(),
                args: args.as_slice(),
                cells: cells.as_slice(),
                answer,
            };
            rules::apply(alloc, application, room)
        }
        TermExpr::TypeApp(function, types, answer) => {
            rules::apply_types(alloc, function.get(), types.as_slice(), answer, room)
        }
        TermExpr::IndexApp(function, indices, answer) => {
            rules::apply_indices(alloc, function.get(), indices.as_slice(), answer, room)
        }
        TermExpr::Unbox(sorts, boxed, body, answer) => {
            rules::unbox(
                alloc,
                sorts.as_slice(),
                boxed.get(),
                body.get(),
                answer,
                room,
            )
        }
    }
}

/// `unfold`: the definition with this number.
fn unfold(alloc: Global, defs: &[TermExpr], k: u32, room: u32) -> Result<Outcome, Memory>
    ensures { IfOk result (λ o. move_of o ≡ unfolded typed_rules (each term_of defs.now) k) }
{
    match defs.get(k as usize) {
        None => Ok(Outcome::Lost),
        Some(def) => Ok(Outcome::Goes(def.copy(alloc, room)?)),
    }
}
