//! Processes in the order of their numbers.

ghost use Rattle.std.specs.Prelude.{◌≡◌, ◌+◌, ◌<◌, ◌≤◌, ◌^◌, ◌++◌, OnOk, OnErr, true, if◌then◌else◌, length, reverse, take, drop};
ghost use Rattle.ql_world.specs.World.{numbered, change_numbered};
ghost use Rattle.ql_world.specs.declared.world.Aim.TheVariants.{Die as die};
ghost use Rattle.ql_world.specs.Within.{all_from};
ghost use Rattle.ql_tree.specs.Tree.{lives, lives_within, is_done};
ghost use Rattle.ql_tree.specs.Kept.{running};
ghost use Rattle.ql_tree.specs.Kill.{after_kill, aimed_at, is_killed, killed_numbers, changed_at_each};

use crate::catches::is_over;
use crate::person::Person;
use ql_world::world::{Aim, Catch};
use std::alloc::AllocError;

/// The process with this number.
pub(crate) fn person_at(persons: &[Person], q: u32) -> Option<Person>
    ensures { result ≡ numbered persons.now q }
{
    if q == 0 {
        return None;
    }
    persons.get(q as usize - 1).copied()
}

/// Sets what process q is leaving for.
pub(crate) fn aim_at(persons: &mut [Person], q: u32, aim: Aim)
    ensures aimed { persons.new ≡ change_numbered (aimed_at aim) persons.old q }
    ensures running { running persons.new ≡ running persons.old }
{
    if let Some(person) = person_at(persons, q) {
        persons[q as usize - 1] = Person { aim, ..person };
    }
}

/// Lets process q end, and tells whether it hadn't before.
pub(crate) fn end(persons: &mut [Person], q: u32) -> bool
    ensures ended { persons.new ≡ change_numbered (λ r. record r { ended = true }) persons.old q }
    ensures counted { running persons.old ≡ (if result then running persons.new + 1 else running persons.new) }
{
    let Some(person) = person_at(persons, q) else {
        return false;
    };
    persons[q as usize - 1] = Person {
        ended: true,
        ..person
    };
    !person.ended
}

/// It has neither ended nor been killed.
fn lives(person: &Person) -> bool
    ensures { result ≡ lives person.now }
{
    !person.ended && !matches!(person.aim, Aim::Die)
}

/// Whether process q is live and within catch c.
pub(crate) fn lives_within(persons: &[Person], catches: &[Catch], c: u32, q: u32) -> bool
    ensures { result ≡ lives_within (reverse catches.now) c (numbered persons.now q) }
{
    match person_at(persons, q) {
        None => false,
        Some(person) => lives(&person) && is_over(catches, c, person.home),
    }
}

/// Whether each process within catch c has ended but process p.
pub(crate) fn ended_only(persons: &[Person], catches: &[Catch], p: u32, c: u32) -> bool
    ensures { result ≡ all_from (is_done (reverse catches.now) p c) 1 persons.now }
{
    for (i, person) in persons.iter().enumerate() {
        if !is_done(catches, p, c, i as u64 + 1, person) {
            return false;
        }
    }
    true
}

/// It is process p, or it isn't within catch c, or it has ended.
fn is_done(catches: &[Catch], p: u32, c: u32, number: u64, person: &Person) -> bool
    ensures { result ≡ is_done (reverse catches.now) p c number person.now }
{
    number == u64::from(p) || person.ended || !is_over(catches, c, person.home)
}

/// Appends the numbers of those that are killed by way of catch c. An `Err` leaves what was there, and maybe more.
fn push_killed(
    persons: &[Person],
    catches: &[Catch],
    c: u32,
    owner: u32,
    killed: &mut Vec<u32>,
) -> Result<(), AllocError>
    requires { length persons.now < 2 ^ 32 }
    ensures ok { OnOk result (killed.new.items ≡ killed.old.items ++ killed_numbers (reverse catches.now) c owner persons.now) }
    ensures err { OnErr result (take (length killed.old.items) killed.new.items ≡ killed.old.items) }
{
    for (i, person) in persons.iter().enumerate() {
        if is_killed(catches, c, owner, i as u32 + 1, person) {
            killed.push(i as u32 + 1)?;
        }
    }
    Ok(())
}

/// Whether a process is killed: it is live and within catch c, and not the owner.
fn is_killed(catches: &[Catch], c: u32, owner: u32, number: u32, person: &Person) -> bool
    ensures { result ≡ is_killed (reverse catches.now) c owner number person.now }
{
    lives(person) && is_over(catches, c, person.home) && number != owner
}

/// Kills each live process within catch c but the owner, and appends their numbers, rising. After an `Err` all is as it
/// was.
pub(crate) fn kill(
    persons: &mut [Person],
    catches: &[Catch],
    c: u32,
    owner: u32,
    killed: &mut Vec<u32>,
) -> Result<(), AllocError>
    requires { length persons.old < 2 ^ 32 }
    ensures ok { OnOk result (persons.new ≡ after_kill (reverse catches.now) c owner persons.old) }
    ensures killed { OnOk result (killed.new.items ≡ killed.old.items ++ killed_numbers (reverse catches.now) c owner persons.old) }
    ensures running { running persons.new ≡ running persons.old }
    ensures err { OnErr result (persons.new ≡ persons.old) }
    ensures none { OnErr result (killed.new.items ≡ killed.old.items) }
{
    let from = killed.len();
    match push_killed(persons, catches, c, owner, killed) {
        Ok(()) => {
            kill_each(persons, killed, from);
            Ok(())
        }
        Err(fault) => {
            killed.truncate(from);
            Err(fault)
        }
    }
}

/// Kills those with the numbers that stand from this place on.
fn kill_each(persons: &mut [Person], numbers: &[u32], from: usize)
    requires { from ≤ length numbers.now }
    ensures killed { persons.new ≡ changed_at_each (aimed_at die) persons.old (drop from numbers.now) }
    ensures running { running persons.new ≡ running persons.old }
{
    for n in &numbers[from..] {
        aim_at(persons, *n, Aim::Die);
    }
}
