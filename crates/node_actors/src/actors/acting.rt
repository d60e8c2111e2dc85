// Any of a life's threads, run to its end.
use crate::actors::crew::{
    LeftBy, NodeActor, run_connector, run_feed, run_keeper, run_listener, run_rotator, run_spare,
    run_worker,
};
use crate::actors::gates::Gate;
use crate::spawner::Actor;
use mix_base::Suite;
use mix_links::{Clock, LinkIn, LinkOut};
use replay_disk::Rack;
use std::sync::Wait;

impl<'a, H, R, S, N, O, C, G> Actor for NodeActor<'a, H, R, S, N, O, C, G>
where
    H: Wait,
    R: Rack + Send,
    S: Suite + Send,
    N: LinkIn + Send,
    O: LinkOut + Send,
    C: Clock,
    G: Gate,
{
    ghost use Rattle.node_actors.specs.Acting.{Gives};

    type Done = LeftBy<R, S, N, O>;

    ghost gives = { Gives S.meaning C.may_give N.left N.faults O.given O.faults };

    fn act(self) -> LeftBy<R, S, N, O> {
        match self {
            NodeActor::Listens(listener) => run_listener(listener),
            NodeActor::Works(worker) => run_worker(worker),
            NodeActor::Connects(connector) => run_connector(connector),
            NodeActor::Keeps(keeper) => run_keeper(keeper),
            NodeActor::Rotates(rotator) => run_rotator(rotator),
            NodeActor::Ends(spare) => run_spare(spare),
            NodeActor::Feeds(feeder) => run_feed(feeder),
        }
    }
}
