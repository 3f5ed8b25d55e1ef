//! Feeders and mailboxes are made.
ghost use Rattle.std.specs.Prelude.{◌≡◌, ◌<◌, ◌≤◌, ◌+◌, Some, slice_get, slice_set, IfOk, OnOk};
ghost use Rattle.px_post.specs.Mail.{Mail};
ghost use Rattle.px_delivery.specs.Posts.{IsPost, AreMailboxes, AreNext, made_all, feeders_of, sender_to, with_made, way_to};

use crate::feeder::Feeder;
use px_post::{Exit, Mailbox, Sender};
use std::alloc::{AllocError, Global};

/// What feeders and mailboxes come from.
pub struct Post {}

impl Post {
    /// So many feeders and mailboxes, each numbered from 0, where so many letters may wait in each
    /// mailbox. Its only failure is want of memory.
    pub fn create(
        alloc: Global,
        feeders: u32,
        boxes: u32,
        capacity: u32,
    ) -> Result<(Vec<Feeder>, Vec<Mailbox>), AllocError>
        requires feeders { (1 ≤ feeders) × (feeders ≤ 16) }
        requires boxes { (1 ≤ boxes) × (boxes ≤ 64) }
        requires capacity { (1 ≤ capacity) × (capacity ≤ 1_024) }
        ensures { IfOk result (λ post. IsPost feeders boxes capacity post.0.items post.1.items) }
    {
        let mut mailboxes = mailboxes(alloc, boxes, capacity)?;
        let feeders = feeders_to(alloc, feeders, &mut mailboxes)?;
        Ok((feeders, mailboxes))
    }
}

// Empty mailboxes with no exits.
fn mailboxes(alloc: Global, boxes: u32, capacity: u32) -> Result<Vec<Mailbox>, AllocError>
    requires some { 0 < capacity }
    ensures { IfOk result (λ mailboxes. AreMailboxes boxes capacity 0 mailboxes.items) }
{
    let mut mailboxes = Vec::new(alloc);
    for number in 0..boxes {
        let mailbox = Mailbox::create(alloc, number, capacity)?;
        mailboxes.push(mailbox)?;
    }
    Ok(mailboxes)
}

// Feeders that lead to these mailboxes, which have no exits.
fn feeders_to(
    alloc: Global,
    feeders: u32,
    mailboxes: &mut Vec<Mailbox>,
) -> Result<Vec<Feeder>, AllocError>
    requires next { AreNext 0 mailboxes.old.items }
    ensures feeders { IfOk result (λ feeders_made. feeders_made.items ≡
        feeders_of feeders mailboxes.old.items) }
    ensures made { OnOk result (mailboxes.new.items ≡ made_all feeders mailboxes.old.items) }
{
    let mut made = Vec::new(alloc);
    for feeder in 0..feeders {
        let sender = sender_of(alloc, feeder, mailboxes)?;
        made.push(Feeder { sender })?;
    }
    Ok(made)
}

// The sender of the next feeder.
fn sender_of(alloc: Global, feeder: u32, mailboxes: &mut Vec<Mailbox>) -> Result<Sender, AllocError>
    requires next { AreNext feeder mailboxes.old.items }
    ensures sender { IfOk result (λ sender. sender ≡ sender_to feeder mailboxes.old.items) }
    ensures made { OnOk result (mailboxes.new.items ≡ made_all (feeder + 1) mailboxes.old.items) }
{
    let mut sender = Sender::new(alloc, feeder);
    for at in 0..mailboxes.len() {
        let exit = exit_of(feeder, mailboxes, at)?;
        sender.add(exit)?;
    }
    Ok(sender)
}

// The exit of the next feeder to one of the mailboxes.
fn exit_of(feeder: u32, mailboxes: &mut Vec<Mailbox>, at: usize) -> Result<Exit, AllocError>
    requires there { (m : Mail) × (slice_get mailboxes.old.items at ≡ Some m)
        × (m.made ≡ feeder) }
    ensures exit { IfOk result (λ exit. (m : Mail) → slice_get mailboxes.old.items at ≡ Some m →
        exit ≡ way_to feeder m) }
    ensures made { OnOk result ((m : Mail) → slice_get mailboxes.old.items at ≡ Some m →
        mailboxes.new.items ≡ slice_set mailboxes.old.items at (with_made (feeder + 1) m)) }
{
    let mailbox = &mut mailboxes[at];
    mailbox.exit(feeder)
}
