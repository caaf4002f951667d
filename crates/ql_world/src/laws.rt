//! What holds of every two machines.

ghost use Rattle.ql_world.specs.Machine.{Machine};
ghost use Rattle.ql_world.specs.Follows.{Follows, AreToldAlike, ArePlannedAlike};

use std::marker::Brand;

/// Machines, others that may follow them, and the relations between their processes and between their closures. They
/// are for proofs alone: who calls the law passes `Brand`, and picks there what the law speaks of.
pub trait Paired {
    ghost index: { Type 0 };

    ghost process: { Type 0 };

    ghost closure: { Type 0 };

    ghost point: { Type 0 };

    ghost entry: { Type 0 };

    ghost machine: { index → Machine process closure };

    ghost follower: { index → Machine point entry };

    ghost related: { index → process → point → Type 0 };

    ghost alike: { index → closure → entry → Type 0 };
}

impl Paired for Brand {
    ghost index = { ⊥ };

    ghost process = { Unit {0} };

    ghost closure = { Unit {0} };

    ghost point = { Unit {0} };

    ghost entry = { Unit {0} };

    ghost machine = { λ i. absurd i };

    ghost follower = { λ i. absurd i };

    ghost related = { λ i. absurd i };

    ghost alike = { λ i. absurd i };
}

/// Where the processes of one machine follow those of another, the same is told of both along every schedule.
pub fn followers_are_told_alike<F: Paired>()
    ensures { (i : F.index) → Follows (F.machine i) (F.follower i) (F.related i) (F.alike i) → AreToldAlike (F.machine i) (F.follower i) (F.related i) (F.alike i) }
{}

/// Then one worker takes the same schedules of both.
pub fn followers_are_planned_alike<F: Paired>()
    ensures { (i : F.index) → Follows (F.machine i) (F.follower i) (F.related i) (F.alike i) → ArePlannedAlike (F.machine i) (F.follower i) (F.related i) (F.alike i) }
{}
