//! A memo over a bank of the shared table.
ghost use Rattle.std.specs.Prelude.{◌≡◌, ◌⊎◌, ◌<◌, ℕ, List, true, [], ◌∷◌, Some, None, IfOk, OnErr};
ghost use Rattle.px_text.specs.Operands.{Operand};
ghost use Rattle.px_afa.specs.Sets.{first_set};
ghost use Rattle.px_afa.specs.Steps.{step, answer_of};
ghost use Rattle.px_rule.specs.Table.{is_inside, bank_in, version_in};
ghost use Rattle.px_rule.specs.Kept.{Grew};
ghost use Rattle.px_intern.specs.Answers.{IsSound, WroteNodes};
ghost use Rattle.px_runner.specs.Operands.{AreOperands};
ghost use Rattle.px_runner.specs.Remembering.{number_of as number};
ghost use Rattle.px_runner.specs.Memos.{Keeps, Advances, Makes};
ghost use Rattle.px_call.specs.Memory.{memory, program_of, StandsFor, TellsOf, IsProgramAt};
ghost use Rattle.px_call.specs.Making.{Works, IsKept};

use crate::booking::{booked, with_full, with_own};
use crate::entry::Entry;
use crate::law::ProgramLaw;
use crate::solving::{number_of, read};
use crate::stepping::{make_beside, make_step};
use crate::tally::Tally;
use px_afa::Program;
use px_intern::{Intern, intern};
use px_prune::Compiled;
use px_rule::{Seat, Shared};
use px_runner::{Held, Memo};
use px_text::{Op, Set};
use std::alloc::{AllocError, Global};
use std::marker::{Model, PhantomData};

/// A memo over the bank that its seat is inside, for a call that began with the seat that `C`
/// names. It looks for a step in the bank, computes it by the program where the bank lacks it, and
/// puts it there. A set or a step that the bank has no room for is the call's own. Contracts see
/// its program, the seat when the call began and the seat now, and what was counted since.
pub struct BankMemo<'s, L: ProgramLaw, C: Entry<L::Entry>> {
    alloc: Global,
    shared: &'s Shared<L>,
    seat: Seat<L>,
    compiled: &'s Compiled,
    tally: Tally,
    of: PhantomData<C>,
}

impl<'s, L: ProgramLaw, C: Entry<L::Entry>> Model for BankMemo<'s, L, C> {
    ghost use Rattle.px_call.specs.Memory.{Memory, memory};
    ghost use Rattle.px_call.specs.Holding.{IsMemory};

    ghost Value = { Memory L.Entry };

    ghost view = { λ m. memory m.compiled.now C.began m.seat m.tally };

    ghost invariant = { λ m. IsMemory L.right L.automata_of m.shared.now
        (memory m.compiled.now C.began m.seat m.tally) };
}

// A value for a set in the bank, and the counts behind it.
fn keep<L: ProgramLaw>(
    shared: &Shared<L>,
    seat: &mut Seat<L>,
    set: &Set,
    tally: Tally,
) -> Result<(Held, Tally), AllocError>
    requires table { seat.old.table ≡ shared.now }
    requires inside { is_inside seat.old.view.stay.place ≡ true }
    requires sound { IsSound L.right shared.now.shape seat.old.view }
    ensures table { seat.new.table ≡ seat.old.table }
    ensures works { Works L.right shared.now.shape seat.old.view seat.new.view }
    ensures wrote { WroteNodes L.right shared.now.shape set.now seat.old.view seat.new.view }
    ensures kept { IfOk result (λ r. IsKept L.right shared.now.shape
        (bank_in seat.old.view.stay.place) (version_in seat.old.view.stay.place) seat.new.view
        set.now r.0 tally r.1) }
{
    match intern(shared, seat, set) {
        Intern::Number(number) => Ok((Held::Numbered(number), tally)),
        Intern::Full { word } => {
            let set = set.clone()?;
            Ok((Held::Own(set), with_full(tally, word)))
        }
    }
}

impl<'s, L: ProgramLaw, C: Entry<L::Entry>> BankMemo<'s, L, C> {
    /// The memo of a call that has counted so much. It takes no memory.
    pub fn new(
        alloc: Global,
        shared: &'s Shared<L>,
        seat: Seat<L>,
        compiled: &'s Compiled,
        tally: Tally,
    ) -> BankMemo<'s, L, C>
        requires table { seat.table ≡ shared.now }
        requires began { seat.table ≡ C.began.table }
        requires grew { Grew C.began.view seat.view }
        requires inside { is_inside seat.view.stay.place ≡ true }
        requires program { IsProgramAt L.automata_of seat.view compiled.now }
        requires sound { IsSound L.right shared.now.shape seat.view }
        ensures memo { result ≡ memory compiled.now C.began seat tally }
    {
        BankMemo {
            alloc,
            shared,
            seat,
            compiled,
            tally,
            of: PhantomData,
        }
    }

    /// Gives the seat back, with the counts. The seat is of the same table, and inside the bank.
    pub fn end(self) -> (Seat<L>, Tally)
        ensures memo { self.entry ≡ memory (program_of self.entry) C.began result.0 result.1 }
        ensures table { result.0.table ≡ C.began.table }
        ensures grew { Grew C.began.view result.0.view }
    {
        let BankMemo {
            alloc: _,
            shared: _,
            seat,
            compiled: _,
            tally,
            of: _,
        } = self;
        (seat, tally)
    }

    // A value for a set.
    fn keep(&mut self, set: &Set) -> Result<Held, AllocError>
        ensures ok { IfOk result (λ held. Advances program_of (StandsFor L.right) (TellsOf L.right)
            self.old self.new [] (set.now ∷ [])) }
        ensures stands { IfOk result (λ held. StandsFor L.right self.new held set.now) }
        ensures err { OnErr result (Keeps program_of (StandsFor L.right) self.old self.new) }
    {
        let (held, tally) = keep(self.shared, &mut self.seat, set, self.tally)?;
        self.tally = tally;
        Ok(held)
    }

    // A step between numbers.
    fn bank_step(
        &mut self,
        op: Op,
        a: &Held,
        b: &Held,
        numbers: (u32, u32),
    ) -> Result<Held, AllocError>
        requires operands { (x : Operand) × (y : Operand) ×
            AreOperands (program_of self.old).states (StandsFor L.right self.old) op a.now b.now
            x y }
        requires numbers { (number a.now ≡ Some numbers.0) × (number b.now ≡ Some numbers.1) }
        ensures ok { IfOk result (λ held. (x y : Operand) →
            AreOperands (program_of self.old).states (StandsFor L.right self.old) op a.now b.now
            x y →
            Makes program_of (StandsFor L.right) (TellsOf L.right) self.old self.new held
            (step (program_of self.old).states op x y ∷ [])
            (answer_of (program_of self.old).states op x y)) }
        ensures err { OnErr result (Keeps program_of (StandsFor L.right) self.old self.new) }
    {
        self.compiled.program().sound();
        let outcome = make_step(
            self.alloc,
            self.shared,
            &mut self.seat,
            self.compiled,
            op,
            a,
            b,
            numbers,
        )?;
        let (tally, held) = booked(self.tally, outcome);
        self.tally = tally;
        Ok(held)
    }

    // A step with an operand of the call's own.
    fn own_step(&mut self, op: Op, a: &Held, b: &Held) -> Result<Held, AllocError>
        requires operands { (x : Operand) × (y : Operand) ×
            AreOperands (program_of self.old).states (StandsFor L.right self.old) op a.now b.now
            x y }
        requires own { (number a.now ≡ None) ⊎ (number b.now ≡ None) }
        ensures ok { IfOk result (λ held. (x y : Operand) →
            AreOperands (program_of self.old).states (StandsFor L.right self.old) op a.now b.now
            x y →
            Makes program_of (StandsFor L.right) (TellsOf L.right) self.old self.new held
            (step (program_of self.old).states op x y ∷ [])
            (answer_of (program_of self.old).states op x y)) }
        ensures err { OnErr result (Keeps program_of (StandsFor L.right) self.old self.new) }
    {
        let held = make_beside(
            self.alloc,
            self.shared,
            &mut self.seat,
            self.compiled,
            op,
            a,
            b,
        )?;
        self.tally = with_own(self.tally);
        Ok(held)
    }
}

impl<'s, L: ProgramLaw, C: Entry<L::Entry>> Memo for BankMemo<'s, L, C> {
    ghost use Rattle.px_call.specs.Memory.{program_of, StandsFor, TellsOf};

    ghost automata = { λ m. m.automata };

    ghost stands_for = { λ m held set. StandsFor L.right m held set };

    ghost tells = { λ m steps sets. TellsOf L.right m steps sets };

    fn program(&self) -> &Program {
        self.compiled.program()
    }

    fn firsts(&mut self) -> Result<Held, AllocError> {
        let compiled = self.compiled;
        self.keep(compiled.firsts())
    }

    fn hold(&mut self, set: &Set) -> Result<Held, AllocError> {
        self.keep(set)
    }

    fn step(&mut self, op: Op, a: &Held, b: &Held) -> Result<Held, AllocError> {
        let Some(x) = number_of(a) else {
            return self.own_step(op, a, b);
        };
        let Some(y) = number_of(b) else {
            return self.own_step(op, a, b);
        };
        self.bank_step(op, a, b, (x, y))
    }

    fn set_of(&mut self, held: &Held) -> Result<Set, AllocError> {
        read(self.alloc, self.shared, &mut self.seat, held)
    }
}
