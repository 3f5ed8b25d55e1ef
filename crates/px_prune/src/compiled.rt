//! What all machines of one version share.

ghost use Rattle.std.specs.Prelude.{◌≡◌, IfOk};
ghost use Rattle.std.specs.Arc.{arc_value};
ghost use Rattle.px_afa.specs.Sets.{first_set};
ghost use Rattle.px_prune.specs.Needing.{needs_of};

use crate::firsts::first;
use crate::needs::Needs;
use px_afa::Program;
use px_text::Set;
use std::alloc::{AllocError, Global};
use std::marker::Model;
use std::sync::Arc;

/// A program with what a machine that keeps only needed states asks of it: what the bodies of its
/// states need, and the first states of all filters. It is computed once, and any number of
/// machines have a share of it, on any threads. Contracts see the program, of which all else
/// follows.
#[derive(Drop)]
pub struct Compiled {
    program: Arc<Program>,
    needs: Needs,
    firsts: Set,
}

impl Model for Compiled {
    ghost use Rattle.std.specs.Prelude.{◌≡◌};
    ghost use Rattle.std.specs.Arc.{arc_value};
    ghost use Rattle.px_afa.specs.Building.{Automata};
    ghost use Rattle.px_afa.specs.Sets.{first_set};
    ghost use Rattle.px_prune.specs.Needing.{needs_of};

    ghost Value = { Automata };

    ghost view = { λ compiled. arc_value compiled.program };

    ghost invariant = { λ compiled. (compiled.needs ≡
        needs_of (arc_value compiled.program).states) ×
        (compiled.firsts ≡ first_set (arc_value compiled.program).firsts) };
}

impl Compiled {
    /// The first share of a program, compiled. It takes memory for what the states need, at most
    /// that of the filters, and its only failure is want of memory.
    pub fn of(alloc: Global, program: Arc<Program>) -> Result<Arc<Compiled>, AllocError>
        ensures program { IfOk result (λ compiled. arc_value compiled ≡ arc_value program) }
    {
        let needs = Needs::build(alloc, &program)?;
        let firsts = first(alloc, &program)?;
        let compiled = Compiled {
            program,
            needs,
            firsts,
        };
        Ok(Arc::new(alloc, compiled)?)
    }

    /// The program. It takes no memory.
    pub fn program(&self) -> &Program
        ensures program { result.now ≡ self.now }
    {
        &self.program
    }

    /// What the bodies of its states need. It takes no memory.
    pub fn needs(&self) -> &Needs
        ensures needs { result.now ≡ needs_of self.now.states }
    {
        &self.needs
    }

    /// The first states of all filters, which are needed of a document. It takes no memory.
    pub fn firsts(&self) -> &Set
        ensures firsts { result.now ≡ first_set self.now.firsts }
    {
        &self.firsts
    }
}
