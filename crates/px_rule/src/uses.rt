//! The protocol once through, as a crate above uses it.
ghost use Rattle.std.specs.Prelude.{◌≡◌, ◌≢◌, ◌+◌, ◌<◌, ◌++◌, ◌∷◌, [], true, length, None};
ghost use Rattle.px_rule.specs.declared.view.Kind.TheVariants.{Desk, Pass};
ghost use Rattle.px_rule.specs.Histories.{Begins, named};
ghost use Rattle.px_rule.specs.Rule.{is_pass};
ghost use Rattle.px_rule.specs.Table.{is_inside};

use crate::law::Law;
use crate::shared::{Seat, Shared};
use crate::words::{node_word, place};

/// Two passes ask for an entry each. Their notes bring the permits to the desk, one after the
/// other, and it accepts both entries.
pub(crate) fn accept_two<L: Law>(
    shared: &Shared<L>,
    desk: &mut Seat<L>,
    one: &mut Seat<L>,
    first: &L::Entry,
    two: &mut Seat<L>,
    second: &L::Entry,
) -> u64
    requires tables { (desk.old.table ≡ shared.now) × (one.old.table ≡ shared.now) ×
        (two.old.table ≡ shared.now) }
    requires desk { (desk.old.view.past.kind ≡ Desk) × (desk.old.view.past.permit ≡ None) }
    requires one { (one.old.view.past.kind ≡ Pass (L.who first.now)) ×
        (named L.who (L.who first.now) one.old.view.past.seen ≡ one.old.view.past.mine) }
    requires two { (two.old.view.past.kind ≡ Pass (L.who second.now)) ×
        (named L.who (L.who second.now) two.old.view.past.seen ≡ two.old.view.past.mine) }
    requires legal { L.legal (desk.old.view.past.seen ++ first.now ∷ []) ×
        L.legal ((desk.old.view.past.seen ++ first.now ∷ []) ++ second.now ∷ []) }
    ensures history { desk.new.view.past.seen ≡ (desk.old.view.past.seen ++ first.now ∷ []) ++
        second.now ∷ [] }
    ensures desk { (desk.new.table ≡ shared.now) × (desk.new.view.past.kind ≡ Desk) ×
        (desk.new.view.past.permit ≡ None) }
    ensures one { (one.new.table ≡ shared.now) × (one.new.view.past.kind ≡ one.old.view.past.kind) }
    ensures two { (two.new.table ≡ shared.now) × (two.new.view.past.kind ≡ two.old.view.past.kind) }
    ensures version { result ≡ length (desk.old.view.past.seen ++ first.now ∷ []) + 1 }
{
    let permit = shared.ask(one, first);
    shared.join(desk, permit);
    shared.change(desk, first);
    let permit = shared.ask(two, second);
    shared.join(desk, permit);
    shared.change(desk, second)
}

/// A note of the desk shows a pass all that the desk has seen. It answers the version that the pass
/// then finds.
pub(crate) fn show<L: Law>(shared: &Shared<L>, desk: &mut Seat<L>, pass: &mut Seat<L>) -> u64
    requires tables { (desk.old.table ≡ shared.now) × (pass.old.table ≡ shared.now) }
    requires desk { desk.old.view.past.kind ≡ Desk }
    requires pass { is_pass pass.old.view.past.kind ≡ true }
    ensures desk { desk.new ≡ desk.old }
    ensures table { pass.new.table ≡ pass.old.table }
    ensures sees { Begins desk.old.view.past.seen pass.new.view.past.seen }
{
    let note = shared.note(desk);
    shared.join(pass, note);
    shared.load(pass)
}

/// Writes the set of one element to the first place of its path, if that is empty, and answers the
/// word found there.
pub(crate) fn write_single<L: Law>(shared: &Shared<L>, seat: &mut Seat<L>, element: u32) -> u64
    requires table { seat.old.table ≡ shared.now }
    requires inside { is_inside seat.old.view.stay.place ≡ true }
    requires element { element < 1048576 }
    ensures table { seat.new.table ≡ seat.old.table }
{
    let word = node_word(element, 0);
    let at = place(&shared.shape(), word, 0);
    shared.write_step(seat, at, word)
}

#[cfg(test)]
mod tests {
    use super::{accept_two, show, write_single};
    use crate::law::Law;
    use crate::shape::Shape;
    use crate::shared::{Seat, Shared};
    use crate::words::{node_word, path_length, place, step_word};
    use px_text::Op;
    use std::alloc::{AllocError, Global};
    use std::test::Fail;

    /// A vote of a pass.
    #[derive(Drop)]
    struct Vote {
        pass: u64,
    }

    /// Histories of votes. No answer of a step is right.
    struct Votes;

    impl Law for Votes {
        type Entry = Vote;

        ghost use Rattle.std.specs.Prelude.{ℕ, List, length, ◌<◌};
        ghost use Rattle.px_text.specs.declared.op.Op.{Op};
        ghost use Rattle.px_text.specs.Operands.{Operand};
        ghost use Rattle.std.proofs.Common.{arith};

        ghost who = { λ vote. vote.pass };

        ghost legal = { λ log. length log < 1048576 };

        ghost right = { λ _ _ _ _ _. ⊥ };

        ghost legal_empty = { Prim.omega arith };

        ghost legal_short = { λ log short. short };

        ghost one_answer = { λ log op a b x y none _. absurd none };
    }

    const SMALL: Shape = Shape {
        banks: 1,
        node_bits: 4,
        step_bits: 4,
    };

    fn is_shared<T: Send + Sync>(_shared: &T) {}

    fn is_sent<T: Send>(_seat: &T) {}

    #[test]
    fn two_passes_see_both_votes(rt: HostRuntime) -> Result<(), Fail> {
        let (shared, mut desk) = Shared::<Votes>::create(rt.alloc(), SMALL)?;
        let mut one = shared.pass(&mut desk);
        let mut two = shared.pass(&mut desk);
        is_shared(&shared);
        is_sent(&one);
        assert_eq!(rt; shared.load(&mut two), 0);
        let version = accept_two(
            &shared,
            &mut desk,
            &mut one,
            &Vote { pass: 0 },
            &mut two,
            &Vote { pass: 1 },
        );
        assert_eq!(rt; version, 2);
        assert_eq!(rt; show(&shared, &mut desk, &mut one), 2);
        assert_eq!(rt; show(&shared, &mut desk, &mut two), 2);
        Ok(())
    }

    #[test]
    fn places_of_the_set_3_5(rt: HostRuntime) {
        let five = node_word(5, 0);
        assert_eq!(rt; five, 0x1000_0500_0000_0000);
        assert_eq!(rt; place(&SMALL, five, 0), 6);
        let three = node_word(3, 6);
        assert_eq!(rt; three, 0x1000_0300_0060_0000);
        assert_eq!(rt; place(&SMALL, three, 0), 12);
        assert_eq!(rt; path_length(&SMALL, three), 15);
        let pop = step_word(Op::Pop, 12, 3, 0);
        assert_eq!(rt; pop, 0x4000_0c00_0030_0000);
        assert_eq!(rt; path_length(&SMALL, pop), 16);
    }
}
