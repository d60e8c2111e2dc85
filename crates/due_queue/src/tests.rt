// Items through the bound that code above uses them by: which is taken first, and that none is lost.
ghost use Rattle.due_queue.specs.declared.queue.Next.{Next};

use crate::{Dest, Due, DueQueue, Next};
use std::alloc::Global;
use std::test::Fail;

// An item that is what it tells.
#[derive(Drop)]
struct Item {
    next: Next,
}

impl Due for Item {
    ghost told = { λ item. item.next };

    fn due(&self) -> u64 {
        self.next.due
    }

    fn number(&self) -> u64 {
        self.next.number
    }

    fn dest(&self) -> Dest {
        self.next.dest
    }
}

const LEFT: Dest = Dest::Hop([1; 32]);

const RIGHT: Dest = Dest::Hop([2; 32]);

// Puts an item in, where memory doesn't run out.
fn held(alloc: Global, queue: &mut DueQueue<Item>, next: Next) -> bool {
    if queue.reserve(alloc, &next.dest).is_err() {
        return false;
    }
    queue.put(Item { next });
    true
}

#[test]
fn the_first_that_is_due_for_its_destination_is_taken(rt: HostRuntime) -> Result<(), Fail> {
    let mut queue = DueQueue::new(rt.alloc());
    let items = [
        (500, 1, LEFT),
        (300, 7, LEFT),
        (300, 2, LEFT),
        (300, 4, RIGHT),
        (100, 9, Dest::Local),
    ];
    for (due, number, dest) in items {
        assert!(rt; held(rt.alloc(), &mut queue, Next { due, number, dest }));
    }
    assert_eq!(rt; queue.len(), 5);
    // A destination, a moment, and the number of the item that is taken then.
    let takes = [
        (LEFT, 299, None),
        (RIGHT, 300, Some(4)),
        (RIGHT, 300, None),
        (LEFT, 500, Some(2)),
        (LEFT, 500, Some(7)),
        (LEFT, 499, None),
        (LEFT, 500, Some(1)),
        (Dest::Local, 99, None),
        (Dest::Local, 100, Some(9)),
    ];
    for (dest, moment, want) in takes {
        let number = queue.take(&dest, moment).map(|item| item.next.number);
        assert_eq!(rt; number, want);
    }
    assert!(rt; queue.is_empty());
    Ok(())
}

#[test]
fn the_next_is_told_over_all_destinations(rt: HostRuntime) -> Result<(), Fail> {
    let mut queue = DueQueue::new(rt.alloc());
    for (due, number, dest) in [(40, 3, LEFT), (40, 1, RIGHT), (90, 2, Dest::Local)] {
        assert!(rt; held(rt.alloc(), &mut queue, Next { due, number, dest }));
    }
    for (moment, want) in [(39, None), (40, Some(1)), (90, Some(1))] {
        assert_eq!(rt; queue.next_due(moment).map(|next| next.number), want);
    }
    Ok(())
}
