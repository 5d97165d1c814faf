//! What the relation of a queue to a list comes to, in its own words. A law is a function that does nothing, and its
//! contract is the law.
ghost use Rattle.std.specs.Prelude.{◌≡◌, List};
ghost use Rattle.ifl_ringcore.specs.declared.history.Meaning.{Meaning};
ghost use Rattle.ifl_desc.specs.Ends.{posted};
ghost use Rattle.ifl_txq.specs.Done.{IsDone};
ghost use Rattle.ifl_txq.specs.Queue.{QueueSees, IsQueue};
ghost use Rattle.ifl_txq.specs.Standing.{AreTickets, IsFaithful, QueueStandsFor};

/// A queue that stands for a list of items, and whose posted descriptors are all reclaimed, has the order record of
/// just these items with one fate each. The frames that came back are the packets with fate wire or reset and some of
/// those with fate flush, in order, each with its packet's ticket, marks, bytes and fate. The clusters given back are
/// as many as the items held.
///
/// It speaks of items whose tickets are distinct and in the tables, and of a device that changed nothing but the
/// status: of every other list, and once anything else came back, a queue says nothing.
pub fn done_queue_tells_all()
    ensures { (q : QueueSees) (ms : List Meaning) → IsQueue q → posted q.driver ≡ q.driver.back → IsFaithful q.driver → AreTickets q.log.counts ms → QueueStandsFor q ms → IsDone q ms }
{}
