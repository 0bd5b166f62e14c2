//! A session over the bracket family: what it is at first, and what a command does to it.

ghost use Rattle.std.specs.Prelude.{◌≡◌, true, replicate, is_ok, IfOk, OnErr};
ghost use Rattle.script.specs.declared.Command.TheVariants.{Neutral, Memory, Bound};
ghost use Rattle.session.specs.Runs.{Allocates, Runs, AtFirst};

use crate::answer::Answer;
use crate::state::Session;
use crate::{cells, work};
use brackets::Brackets;
use grammar::Grammar;
use restriction::Restriction;
use script::Command;
use start_change::StartChange;
use std::alloc::{AllocError, Global};

// Cells that are all 0.
fn zeros(heap: Global, n: usize) -> Result<Vec<u64>, AllocError>
    ensures { IfOk result (λ v. v.items ≡ replicate n 0) }
{
    vec![in heap; 0; n]
}

impl Session<Brackets> {
    /// A session at first.
    pub fn new(heap: Global) -> Result<Session<Brackets>, AllocError>
        ensures { IfOk result AtFirst }
    {
        Ok(Session {
            pile: StartChange::new(Restriction::new(Brackets::new())),
            cells: zeros(heap, 20000)?,
            stack: 1000,
            output: 400,
            bound: 8,
        })
    }

    // Makes both layers neutral.
    #[tactic(auto, using(crate::specs::Runs::neutral, crate::proofs::Kept::same_memory))]
    fn neutral(&mut self) -> Answer
        ensures { Runs self.old self.new Neutral result }
    {
        self.pile.reset();
        self.pile.below_mut().reset();
        Answer::Done
    }

    // Lends other amounts of memory.
    fn lend(
        &mut self,
        heap: Global,
        cells: usize,
        stack: usize,
        output: usize,
    ) -> Result<Answer, AllocError>
        ensures answer { IfOk result (Runs self.old self.new (Memory cells stack output)) }
        ensures out_of_memory { OnErr result (self.new ≡ self.old) }
    {
        self.cells = zeros(heap, cells)?;
        self.stack = stack;
        self.output = output;
        Ok(Answer::Done)
    }

    // Takes another bound.
    fn set_bound(&mut self, bound: usize) -> Answer
        ensures { Runs self.old self.new (Bound bound) result }
    {
        self.bound = bound;
        Answer::Done
    }

    /// What a command answers. Where memory runs out, the session is as it was.
    #[tactic(auto, using(crate::specs::Runs::restrict, crate::proofs::Kept::same_memory))]
    pub fn run(&mut self, heap: Global, command: Command) -> Result<Answer, AllocError>
        ensures answer { IfOk result (Runs self.old self.new command) }
        ensures answered { (Allocates command → ⊥) → is_ok result ≡ true }
        ensures out_of_memory { OnErr result (self.new ≡ self.old) }
    {
        match command {
            Command::Brackets { kinds } => Ok(
                self.pile.below_mut().below_mut().set_kinds(kinds).into(),
            ),
            Command::Neutral => Ok(self.neutral()),
            Command::Restrict { mask } => Ok(self.pile.below_mut().set_mask(mask).into()),
            Command::Start { start } => Ok(self.pile.set_start(start).into()),
            Command::Choice { nonterminal, next } => Ok(self.pile.choice(nonterminal, next).into()),
            Command::Level { nonterminal } => Ok(Answer::Level(self.pile.level(nonterminal))),
            Command::Memory {
                cells,
                stack,
                output,
            } => self.lend(heap, cells, stack, output),
            Command::Bound { bound } => Ok(self.set_bound(bound)),
            Command::Count => Ok(work::count(&self.pile, self.bound, self.cells.as_mut_slice())),
            Command::Check => Ok(work::check(&self.pile, self.bound, self.cells.as_mut_slice())),
            Command::Table => work::show_table(
                heap,
                &self.pile,
                self.bound,
                self.cells.as_mut_slice(),
            ),
            Command::Cell { cell } => Ok(cells::cell(self.cells.as_slice(), cell)),
            Command::Flip { cell, bit } => Ok(cells::flip(&mut self.cells, cell, bit)),
            Command::Poke { cell, value } => Ok(cells::poke(&mut self.cells, cell, value)),
        }
    }
}
