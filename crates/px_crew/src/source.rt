//! The steps on the base's own table, each with what it owes the rule.
ghost use Rattle.std.specs.Prelude.{◌≡◌, ◌+◌, ◌<◌, ◌^◌, ℕ, [], IfOk};
ghost use Rattle.px_crew.specs.Drawn.{Drew, hand, one_part_less, both, once_below, times};

use crate::rule::{Drawing, Known, Learning, Quota, Sharing, Token, Word};
use std::alloc::{AllocError, Global};

/// The word, and its quota.
#[derive(Drop)]
pub(crate) struct Source {
    pub(crate) word: Word,
    pub(crate) quota: Quota,
    ghost quota_is: { word.shared.key ≡ quota },
    ghost one_word: { word.shared.table_id.words ≡ 1 },
    ghost room: { quota.limit + quota.parts + 1 < 2 ^ 64 },
}

impl Source {
    pub(crate) fn create(alloc: Global, quota: Quota) -> Result<(Source, Token), AllocError>
        requires room { quota.limit + quota.parts + 1 < 2 ^ 64 }
        ensures quota { IfOk result (λ made. made.0.quota ≡ quota) }
        ensures table { IfOk result (λ made. made.1.table_id ≡ made.0.word.shared.table_id) }
        ensures hand { IfOk result (λ made. made.1.me ≡ (hand quota.parts [] 0, [])) }
    {
        let (word, token) = Word::of_words(alloc, &[0], &quota)?;
        Ok((Source { word, quota }, token))
    }

    pub(crate) fn share(&self, seat: &mut Token) -> Token
        requires table { seat.old.table_id ≡ self.now.word.shared.table_id }
        requires parts { 1 < seat.old.me.0.parts }
        requires going { seat.old.me.0.ends ≡ 0 }
        ensures table { seat.new.table_id ≡ seat.old.table_id }
        ensures of { result.table_id ≡ seat.old.table_id }
        ensures left { seat.new.me ≡ (one_part_less seat.old.me.0, seat.old.me.1) }
        ensures right { result.me ≡ (hand 1 [] 0, []) }
    {
        self.word.shared.split_seat::<Sharing>(seat)
    }

    pub(crate) fn draw<K: Known>(&self, seat: &mut Token) -> u64
        requires quota { K.quota ≡ self.now.quota }
        requires table { seat.old.table_id ≡ self.now.word.shared.table_id }
        requires part { 0 < seat.old.me.0.parts }
        requires going { seat.old.me.0.ends ≡ 0 }
        ensures table { seat.new.table_id ≡ seat.old.table_id }
        ensures drew { Drew K.quota seat.old.me.0 result seat.new.me.0 }
        ensures rest { seat.new.me.1 ≡ seat.old.me.1 }
    {
        self.word.shared.fetch_add::<Drawing<K>>(seat, 0, 1)
    }

    pub(crate) fn join(&self, seat: &mut Token, other: Token)
        requires table { seat.old.table_id ≡ self.now.word.shared.table_id }
        requires other { other.table_id ≡ self.now.word.shared.table_id }
        requires rest { other.me.1 ≡ [] }
        ensures table { seat.new.table_id ≡ seat.old.table_id }
        ensures both { seat.new.me ≡ (both seat.old.me.0 other.me.0, seat.old.me.1) }
    {
        self.word.shared.join_seat::<Sharing>(seat, other);
    }

    pub(crate) fn learn<K: Known>(&self, seat: &mut Token) -> u64
        requires quota { K.quota ≡ self.now.quota }
        requires table { seat.old.table_id ≡ self.now.word.shared.table_id }
        requires whole { seat.old.me.0.parts ≡ self.now.quota.parts }
        ensures same { (seat.new.table_id ≡ seat.old.table_id) × (seat.new.me ≡ seat.old.me) }
        ensures once { (x : ℕ) → times x seat.old.me.0.drawn ≡ once_below x result }
        ensures all { 0 < seat.old.me.0.ends → self.now.quota.limit < result }
    {
        self.word.shared.load::<Learning<K>>(seat, 0)
    }
}
