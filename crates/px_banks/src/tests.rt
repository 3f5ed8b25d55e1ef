//! Banks under a law of votes.
ghost use Rattle.std.specs.Prelude.{◌≡◌, ◌+◌, ◌≤◌, [], ◌∷◌, length, None};
ghost use Rattle.px_rule.specs.declared.view.Kind.TheVariants.{Desk, Pass};
ghost use Rattle.px_rule.specs.declared.view.Place.TheVariants.{Inside};
ghost use Rattle.px_rule.specs.Banks.{stand};

use crate::answers::{Claim, Enter};
use crate::banks::{claim, enter, leave, publish, zero};
use px_rule::{Law, Seat, Shape, Shared};
use std::process::Abort;
use std::test::Fail;

/// A vote of a pass.
#[derive(Drop)]
struct Vote {
    pass: u64,
}

/// Histories of votes. No answer of a step is right.
struct Votes;

impl Law for Votes {
    type Entry = Vote;

    ghost use Rattle.std.specs.Prelude.{ℕ, List, length, ◌<◌};
    ghost use Rattle.std.proofs.Common.{arith};

    ghost who = { λ vote. vote.pass };

    ghost legal = { λ log. length log < 1048576 };

    ghost right = { λ _ _ _ _ _. ⊥ };

    ghost legal_empty = { Prim.omega arith };

    ghost legal_short = { λ log short. short };

    ghost one_answer = { λ log op a b x y none _. absurd none };
}

const SMALL: Shape = Shape {
    banks: 1,
    node_bits: 4,
    step_bits: 4,
};

#[test]
fn bank_words(rt: HostRuntime) -> Result<(), Fail> {
    let (shared, mut desk) = Shared::<Votes>::create(rt.alloc(), SMALL)?;
    let mut one = shared.pass(&mut desk);
    let mut two = shared.pass(&mut desk);
    let mut three = shared.pass(&mut desk);
    let permit = shared.ask(&mut one, &Vote { pass: 0 });
    shared.join(&mut desk, permit);
    shared.change(&mut desk, &Vote { pass: 0 });
    let permit = shared.ask(&mut two, &Vote { pass: 1 });
    shared.join(&mut desk, permit);
    shared.change(&mut desk, &Vote { pass: 1 });
    let permit = shared.ask(&mut three, &Vote { pass: 2 });
    shared.join(&mut desk, permit);
    assert_eq!(rt; shared.change(&mut desk, &Vote { pass: 2 }), 3);
    let Enter::Entered = enter(&shared, &mut one, 0, 0) else {
        panic!(rt; "the bank stands at 0")
    };
    let Claim::Busy { word } = claim(&shared, &mut desk, 0, 0, 3) else {
        panic!(rt; "a call is inside")
    };
    assert_eq!(rt; word, 1);
    leave(&shared, &mut one);
    let Claim::Claimed = claim(&shared, &mut desk, 0, 0, 3) else {
        panic!(rt; "no call is inside")
    };
    assert_eq!(rt;
        enter(&shared, &mut two, 0, 0),
        Enter::Gone { word: 3_211_264 }
    );
    zero(&shared, &mut desk, 0);
    publish(&shared, &mut desk, 0);
    assert_eq!(rt;
        enter(&shared, &mut three, 0, 0),
        Enter::Gone { word: 3_145_728 }
    );
    Ok(())
}

// So many passes more come in, one after the other; then the first pass makes a change, and the
// desk finds all inside. They leave again.
fn crowd(
    rt: &impl Abort,
    shared: &Shared<Votes>,
    desk: &mut Seat<Votes>,
    first: &mut Seat<Votes>,
    left: u32,
)
    requires tables { (desk.old.table ≡ shared.now) × (first.old.table ≡ shared.now) }
    requires banks { shared.now.shape.banks ≡ 1 }
    requires desk { (desk.old.view.past.kind ≡ Desk) × (desk.old.view.past.permit ≡ None) ×
        (desk.old.view.past.seen ≡ []) × (desk.old.view.stay.stands ≡ stand 0 0 0 ∷ []) }
    requires room { desk.old.view.past.made + left ≤ 64 }
    requires first { (first.old.view.past.kind ≡ Pass 0) × (first.old.view.past.seen ≡ []) ×
        (first.old.view.past.mine ≡ []) × (first.old.view.stay.place ≡ Inside 0 0) }
    ensures tables { (desk.new.table ≡ shared.now) × (first.new.table ≡ shared.now) }
    ensures desk { (desk.new.view.past.kind ≡ Desk) × (length desk.new.view.past.seen ≡ 1) ×
        (desk.new.view.stay.stands ≡ stand 0 0 0 ∷ []) }
    ensures first { first.new.view.stay.place ≡ Inside 0 0 }
{
    if left == 0 {
        let permit = shared.ask(first, &Vote { pass: 0 });
        shared.join(desk, permit);
        shared.change(desk, &Vote { pass: 0 });
        let Claim::Busy { word } = claim(shared, desk, 0, 0, 1) else {
            panic!(rt; "all are inside")
        };
        assert_eq!(rt; word, 64);
        return;
    }
    let mut pass = shared.pass(desk);
    let Enter::Entered = enter(shared, &mut pass, 0, 0) else {
        panic!(rt; "the bank stands at 0")
    };
    crowd(rt, shared, desk, first, left - 1);
    leave(shared, &mut pass);
}

#[test]
fn sixty_four_inside(rt: HostRuntime) -> Result<(), Fail> {
    let (shared, mut desk) = Shared::<Votes>::create(rt.alloc(), SMALL)?;
    let mut first = shared.pass(&mut desk);
    let Enter::Entered = enter(&shared, &mut first, 0, 0) else {
        panic!(rt; "the bank stands at 0")
    };
    crowd(&rt, &shared, &mut desk, &mut first, 63);
    let Claim::Busy { word } = claim(&shared, &mut desk, 0, 0, 1) else {
        panic!(rt; "one is inside")
    };
    assert_eq!(rt; word, 1);
    leave(&shared, &mut first);
    assert_eq!(rt; claim(&shared, &mut desk, 0, 0, 1), Claim::Claimed);
    Ok(())
}
