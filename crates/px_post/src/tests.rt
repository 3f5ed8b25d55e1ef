//! Letters on one thread and on three: a full mailbox, and two feeders with one reader.
ghost use Rattle.std.specs.Prelude.{◌≡◌, ◌+◌, ◌<◌, ◌≤◌, Some, None, length, IfOk};

use crate::letter::Letter;
use crate::mailbox::{Exit, Mailbox};
use px_crew::{Crew, run_crew};
use std::alloc::{AllocError, Global};
use std::sync::Wait;
use std::test::Fail;
use std::thread;
use std::thread::Threads;

// A mailbox with one place, and the exit of its one feeder.
fn one_place(alloc: Global) -> Result<(Mailbox, Exit), AllocError>
    ensures feeder { IfOk result (λ made. made.1.feeder ≡ 0) }
    ensures table { IfOk result (λ made. made.1.table ≡ made.0.table) }
    ensures put { IfOk result (λ made. length made.1.put ≡ 0) }
{
    let mut mailbox = Mailbox::create(alloc, 0, 1)?;
    let exit = mailbox.exit(0)?;
    Ok((mailbox, exit))
}

// The letter of this number.
fn letter(feeder: u32, seq: u64) -> Letter
    ensures { (result.feeder ≡ feeder) × (result.seq ≡ seq) }
{
    Letter {
        feeder,
        seq,
        document: 1,
        id: 7,
    }
}

// Puts the next letter. It tells how many were put then.
fn put<R: Wait>(rt: &R, exit: &mut Exit, feeder: u32, before: u64) -> u64
    requires feeder { exit.old.feeder ≡ feeder }
    requires before { length exit.old.put ≡ before }
    requires few { before < 1_000_000 }
    ensures feeder { exit.new.feeder ≡ feeder }
    ensures table { exit.new.table ≡ exit.old.table }
    ensures put { length exit.new.put ≡ result }
    ensures few { result ≤ before + 1 }
{
    match exit.put(rt, letter(feeder, before + 1)) {
        Ok(()) => before + 1,
        Err(_) => before,
    }
}

#[test]
fn a_full_mailbox_gives_the_letter_back(rt: HostRuntime) -> Result<(), Fail> {
    let (mut mailbox, mut exit) = one_place(rt.alloc())?;
    let first = put(&rt, &mut exit, 0, 0);
    assert_eq!(rt; first, 1);
    let full = put(&rt, &mut exit, 0, first);
    assert_eq!(rt; full, 1);
    assert!(rt; mailbox.take(&rt) == Some(letter(0, 1)));
    let second = put(&rt, &mut exit, 0, full);
    assert_eq!(rt; second, 2);
    mailbox.take_in(exit.end());
    assert!(rt; mailbox.take(&rt) == Some(letter(0, 2)));
    assert!(rt; mailbox.take(&rt).is_none());
    Ok(())
}

// How often a thread tries.
const TURNS: u32 = 1_000_000_000;

// Puts 100 letters. It tells how many were put.
fn put_hundred<R: Wait>(rt: &R, exit: &mut Exit, feeder: u32) -> u64
    requires feeder { exit.old.feeder ≡ feeder }
    requires none { length exit.old.put ≡ 0 }
{
    let mut done = 0;
    for _ in 0..TURNS {
        if done >= 100 {
            return done;
        }
        let before = done;
        done = put(rt, exit, feeder, before);
        if done == before {
            thread::yield_now();
        }
    }
    done
}

// Takes 200 letters. It tells how many were the next of their feeder.
fn take_two_hundred<R: Wait>(rt: &R, mailbox: &mut Mailbox) -> u64 {
    let mut first = 0u64;
    let mut second = 0u64;
    for _ in 0..TURNS {
        if first.wrapping_add(second) == 200 {
            break;
        }
        match mailbox.take(rt) {
            Some(x) if x.feeder == 0 && x.seq == first.wrapping_add(1) => first = x.seq,
            Some(x) if x.feeder == 1 && x.seq == second.wrapping_add(1) => second = x.seq,
            Some(_) => return 0,
            None => thread::yield_now(),
        }
    }
    first.wrapping_add(second)
}

// What a thread has: an exit, or the mailbox.
#[derive(Drop)]
struct Part {
    feeder: u32,
    exit: Option<Exit>,
    mailbox: Option<Mailbox>,
}

fn feeding(feeder: u32, exit: Exit) -> Part
    ensures { (result.feeder ≡ feeder) × (result.exit ≡ Some exit) }
{
    Part {
        feeder,
        exit: Some(exit),
        mailbox: None,
    }
}

fn reading(mailbox: Mailbox) -> Part
    ensures { result.exit ≡ None }
{
    Part {
        feeder: 2,
        exit: None,
        mailbox: Some(mailbox),
    }
}

// What all threads share.
#[derive(Drop)]
struct Round<'a, R> {
    rt: &'a R,
}

impl<R: Wait> Crew<u64, Part> for Round<'_, R> {
    ghost use Rattle.std.specs.Prelude.{◌≡◌, IfSome, length};

    ghost ready = { λ _ part. IfSome part.exit (λ exit. (exit.feeder ≡ part.feeder)
        × (length exit.put ≡ 0)) };

    ghost worked = { λ _ v a w b. Unit {0} };

    fn work(&self, state: &mut u64, beside: &mut Part) {
        let feeder = beside.feeder;
        if let Some(exit) = &mut beside.exit {
            *state = put_hundred(self.rt, exit, feeder);
        } else if let Some(mailbox) = &mut beside.mailbox {
            *state = take_two_hundred(self.rt, mailbox);
        }
    }
}

// How many letters two feeders put, and how many of them one reader took in order.
fn deliver<R: Threads + Wait + Sync>(rt: &R, alloc: Global) -> Result<[u64; 3], AllocError> {
    let mut mailbox = Mailbox::create(alloc, 0, 1)?;
    let first = mailbox.exit(0)?;
    let second = mailbox.exit(1)?;
    let mut parts = [feeding(0, first), feeding(1, second), reading(mailbox)];
    let mut states = [0; 3];
    run_crew(rt, &Round { rt }, &mut states, &mut parts);
    Ok(states)
}

#[test]
fn two_feeders(rt: HostRuntime) -> Result<(), Fail> {
    assert!(rt; deliver(&rt, rt.alloc())? == [100, 100, 200]);
    Ok(())
}
