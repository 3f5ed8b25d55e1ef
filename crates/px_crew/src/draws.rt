//! Drawing a number.
ghost use Rattle.std.specs.Prelude.{◌≡◌, ◌+◌, ◌<◌, ◌^◌, ℕ, [], IfOk};
ghost use Rattle.px_crew.specs.Drawn.{Drew, hand, one_part_less, both, once_below, times};

use crate::rule::{Quota, Token};
use crate::source::Source;
use std::alloc::{AllocError, Global};
use std::marker::{Brand, Model};

/// A word from which threads draw the numbers from 0. Contracts see which table it is, and its
/// quota.
#[derive(Drop)]
pub struct Draws {
    source: Source,
}

impl Model for Draws {
    ghost use Rattle.px_crew.specs.Drawn.{WordName};

    ghost Value = { WordName };

    ghost view = { λ draws. record {
      table = draws.source.word.shared.table_id;
      quota = draws.source.quota;
    } };
}

/// The token with which a thread draws. Contracts see its table and what it drew.
#[derive(Drop)]
pub struct Drawer {
    token: Token,
}

impl Model for Drawer {
    ghost use Rattle.std.specs.Prelude.{◌≡◌, []};
    ghost use Rattle.px_crew.specs.Drawn.{Seated};

    ghost Value = { Seated };

    ghost view = { λ drawer. record { table = drawer.token.table_id; hand = drawer.token.me.0 } };

    ghost invariant = { λ drawer. drawer.token.me.1 ≡ [] };
}

impl Draws {
    /// A word at 0, and the drawer with every part. Its only failure is want of memory.
    pub fn create(alloc: Global, quota: Quota) -> Result<(Draws, Drawer), AllocError>
        requires room { quota.limit + quota.parts + 1 < 2 ^ 64 }
        ensures quota { IfOk result (λ made. made.0.quota ≡ quota) }
        ensures table { IfOk result (λ made. made.1.table ≡ made.0.table) }
        ensures drawer { IfOk result (λ made. made.1.hand ≡ hand quota.parts [] 0) }
    {
        let (source, token) = Source::create(alloc, quota)?;
        Ok((Draws { source }, Drawer { token }))
    }

    /// Cuts off a drawer with one part, which has drawn nothing, for another thread.
    pub fn share(&self, drawer: &mut Drawer) -> Drawer
        requires table { drawer.old.table ≡ self.now.table }
        requires parts { 1 < drawer.old.hand.parts }
        requires going { drawer.old.hand.ends ≡ 0 }
        ensures table { (drawer.new.table ≡ drawer.old.table) × (result.table ≡ drawer.old.table) }
        ensures left { drawer.new.hand ≡ one_part_less drawer.old.hand }
        ensures right { result.hand ≡ hand 1 [] 0 }
    {
        Drawer {
            token: self.source.share(&mut drawer.token),
        }
    }

    /// Draws the next number. It is above all that the drawer drew before. A drawer that was given
    /// a number that is not below the limit has met the limit, and draws no more.
    pub fn draw(&self, drawer: &mut Drawer) -> u64
        requires table { drawer.old.table ≡ self.now.table }
        requires part { 0 < drawer.old.hand.parts }
        requires going { drawer.old.hand.ends ≡ 0 }
        ensures table { drawer.new.table ≡ drawer.old.table }
        ensures drew { Drew self.now.quota drawer.old.hand result drawer.new.hand }
    {
        self.source.draw::<Brand>(&mut drawer.token)
    }

    /// Takes in what another drawer drew, and its parts.
    pub fn join(&self, drawer: &mut Drawer, other: Drawer)
        requires tables { (drawer.old.table ≡ self.now.table) × (other.table ≡ self.now.table) }
        ensures table { drawer.new.table ≡ drawer.old.table }
        ensures hand { drawer.new.hand ≡ both drawer.old.hand other.hand }
    {
        let Drawer { token } = other;
        self.source.join(&mut drawer.token, token);
    }

    /// The word, learnt by the drawer with every part: it drew each number below the word once, and
    /// no other. Where a drawer that it took in has met the limit, the word is above the limit, and
    /// so each number below the limit was drawn once.
    pub fn learn(&self, drawer: &mut Drawer) -> u64
        requires table { drawer.old.table ≡ self.now.table }
        requires whole { drawer.old.hand.parts ≡ self.now.quota.parts }
        ensures same { drawer.new ≡ drawer.old }
        ensures once { (x : ℕ) → times x drawer.old.hand.drawn ≡ once_below x result }
        ensures all { 0 < drawer.old.hand.ends → self.now.quota.limit < result }
    {
        self.source.learn::<Brand>(&mut drawer.token)
    }
}
