// The threads of a life: all are run side by side, or none is.
ghost use Rattle.std.specs.Prelude.{◌+◌, ◌≤◌, All, length};
ghost use Rattle.std.specs.List.{AllZip};
ghost use Rattle.mix_base.specs.Faults.{Rose};
ghost use Rattle.node_actors.specs.Acting.{Gives};
ghost use Rattle.node_run.specs.Crews.{AreAllHands, AreAllLeft, IsHandOf, staff_in};
ghost use Rattle.node_run.specs.Houses.{IsDesk, IsStanding};
ghost use Rattle.node_run.specs.Rooms.{HasRoom};
ghost use Rattle.node_run.specs.Runs.{HasNoThread, IfLeft, IfUnrun, IfUnstaffed};

use crate::life::crews::{add_feeders, hand_all_back, staff_all};
use crate::life::houses::House;
use crate::life::opening::Desk;
use mix_base::Suite;
use mix_links::{Clock, LinkIn, LinkOut};
use node_actors::{Feed, Gate, LeftBy, NodeActor, NotRun, ShardPass, Spawner};
use replay_disk::Rack;
use std::alloc::Global;
use std::sync::Wait;

/// What came of the threads of a life.
#[derive(Drop)]
pub(crate) enum Outcome<R: Rack, S: Suite, N: LinkIn, O: LinkOut> {
    /// All have ended, and left this.
    Left(Vec<LeftBy<R, S, N, O>>),
    /// None was run, since one couldn't be started: each one's passes.
    NoThread(Vec<Vec<ShardPass<R, S>>>),
    /// None was run, since memory was wanting: each one's passes.
    Memory(Vec<Vec<ShardPass<R, S>>>),
    /// None was made, since memory was wanting.
    Unstaffed(Vec<Desk<R, S, N, O>>),
}

/// Runs these actors, or none. There is room for the passes of each.
fn run_actors<'a, H, R, S, N, O, C, G, P>(
    alloc: Global,
    actors: Vec<NodeActor<'a, H, R, S, N, O, C, G>>,
    hands: Vec<Vec<ShardPass<R, S>>>,
    spawner: &mut P,
) -> Outcome<R, S, N, O>
where
    H: Wait + Sync,
    R: Rack + Send,
    S: Suite + Send + Sync,
    S::K: Send,
    S::M: Send,
    S::D: Send,
    S::C: Send,
    S::W: Send,
    N: LinkIn + Send,
    O: LinkOut + Send,
    C: Clock + Sync,
    G: Gate + Sync,
    P: Spawner,
    requires { HasRoom (length actors.items) hands }
    ensures left { IfLeft result (AllZip (Gives S.meaning C.may_give N.left N.faults
        O.given O.faults) actors.entry.items) }
    ensures unrun { IfUnrun result (AllZip IsHandOf actors.entry.items) }
    ensures staffed { IfUnstaffed result (λ _. ⊥) }
    ensures no_thread { HasNoThread result
        → Rose (P.faults spawner.old) (P.faults spawner.new) }
    ensures refused { P.refuses spawner.old → HasNoThread result }
    ensures count { P.faults spawner.old ≤ P.faults spawner.new }
{
    match spawner.run_all(alloc, actors) {
        Ok(lefts) => Outcome::Left(lefts),
        Err(NotRun::Failed(actors)) => Outcome::NoThread(hand_all_back(actors, hands)),
        Err(NotRun::Memory(actors)) => Outcome::Memory(hand_all_back(actors, hands)),
    }
}

/// Runs the threads of all nodes and feeds, which are so many at most, or none.
pub(crate) fn run_crew<'a, H, R, S, N, O, C, G, P>(
    rt: &'a H,
    alloc: Global,
    many: usize,
    houses: &'a [House<R, S, N, O>],
    clock: &'a C,
    gate: &'a G,
    desks: Vec<Desk<R, S, N, O>>,
    feeds: Vec<Feed<O>>,
    hands: Vec<Vec<ShardPass<R, S>>>,
    spawner: &mut P,
) -> Outcome<R, S, N, O>
where
    H: Wait + Sync,
    R: Rack + Send,
    S: Suite + Send + Sync,
    S::K: Send,
    S::M: Send,
    S::D: Send,
    S::C: Send,
    S::W: Send,
    N: LinkIn + Send,
    O: LinkOut + Send,
    C: Clock + Sync,
    G: Gate + Sync,
    P: Spawner,
    requires standing { All (IsStanding S.K.CT) houses.now }
    requires desks { AllZip IsDesk houses.now desks.items }
    requires many { staff_in houses.now + length feeds.items ≤ many }
    requires hands { HasRoom many hands }
    ensures left { IfLeft result (AreAllLeft S.meaning C.may_give N.left N.faults O.given
        O.faults clock.now houses.now feeds.items) }
    ensures unrun { IfUnrun result (AreAllHands houses.now) }
    ensures unstaffed { IfUnstaffed result (AllZip IsDesk houses.now) }
    ensures no_thread { HasNoThread result
        → Rose (P.faults spawner.old) (P.faults spawner.new) }
    ensures refused { P.refuses spawner.old → IfLeft result (λ _. ⊥) }
    ensures count { P.faults spawner.old ≤ P.faults spawner.new }
{
    let Ok(actors) = Vec::with_capacity(alloc, many) else {
        return Outcome::Unstaffed(desks);
    };
    let actors = staff_all(rt, alloc, houses, clock, gate, desks, actors);
    let actors = add_feeders(alloc, feeds, actors);
    run_actors(alloc, actors, hands, spawner)
}
