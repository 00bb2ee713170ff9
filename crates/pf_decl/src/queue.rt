//! `queue` (pf.conf(5), GRAMMAR, `queue`, and QUEUEING).
ghost use Rattle.std.specs.Prelude.{◌≡◌};
ghost use Rattle.pf_syntax.specs.Taking.{Takes};
ghost use Rattle.pf_decl.specs.Queues as says;

use crate::bandwidth::take_bandwidth;
use crate::form::{Bandwidth, Queue};
use crate::keyword::QueueWord;
use pf_base::{Name, Place};
use pf_syntax::keyword::{Key, take_key};
use pf_syntax::list::Lay;
use pf_syntax::row::take_to_end;
use pf_syntax::{Cursor, Stop};
use std::marker::Model;

const QUEUE_WORDS: [Key<QueueWord>; 7] = [
    Key(b"on", QueueWord::On),
    Key(b"parent", QueueWord::Parent),
    Key(b"bandwidth", QueueWord::Bandwidth),
    Key(b"min", QueueWord::Min),
    Key(b"max", QueueWord::Max),
    Key(b"default", QueueWord::Default),
    Key(b"qlimit", QueueWord::Qlimit),
];

// A queue of which only the name is known.
fn blank_queue(place: Place, name: Name) -> Queue
    ensures { result ≡ says.blank_queue place name }
{
    Queue {
        name,
        iface: None,
        parent: None,
        bandwidth: None,
        min: None,
        max: None,
        default_queue: false,
        qlimit: None,
        place,
    }
}

// Takes a name, where none was given before.
#[tactic(auto, unfolding(crate::specs::Queues::name_once))]
fn take_name_once(cursor: &mut Cursor, before: &Option<Name>) -> Result<Option<Name>, Stop>
    ensures { Takes (says.name_once before.now) cursor.old result cursor.new }
{
    if before.is_some() {
        return Err(Stop::Outside);
    }
    let name = cursor.take_name()?;
    Ok(Some(name))
}

// Takes a rate, where none was given before.
#[tactic(auto, unfolding(crate::specs::Queues::rate_once))]
fn take_rate_once(
    cursor: &mut Cursor,
    before: &Option<Bandwidth>,
) -> Result<Option<Bandwidth>, Stop>
    ensures { Takes (says.rate_once before.now) cursor.old result cursor.new }
{
    if before.is_some() {
        return Err(Stop::Outside);
    }
    let rate = take_bandwidth(cursor)?;
    Ok(Some(rate))
}

// Takes what stands behind a keyword of a queue.
#[tactic(auto, unfolding(crate::specs::Queues::queue_behind))]
fn take_queue_behind(cursor: &mut Cursor, word: QueueWord, before: Queue) -> Result<Queue, Stop>
    ensures { Takes (says.queue_behind word before) cursor.old result cursor.new }
{
    let mut queue = before;
    match word {
        QueueWord::On => {
            let iface = take_name_once(cursor, &queue.iface)?;
            queue.iface = iface;
        }
        QueueWord::Parent => {
            let parent = take_name_once(cursor, &queue.parent)?;
            queue.parent = parent;
        }
        QueueWord::Bandwidth => {
            let rate = take_rate_once(cursor, &queue.bandwidth)?;
            queue.bandwidth = rate;
        }
        QueueWord::Min => {
            let rate = take_rate_once(cursor, &queue.min)?;
            queue.min = rate;
        }
        QueueWord::Max => {
            let rate = take_rate_once(cursor, &queue.max)?;
            queue.max = rate;
        }
        QueueWord::Default => {
            if queue.default_queue {
                return Err(Stop::Outside);
            }
            queue.default_queue = true;
        }
        QueueWord::Qlimit => {
            if queue.qlimit.is_some() {
                return Err(Stop::Outside);
            }
            let packets = cursor.take_number(1, 65_535)?;
            queue.qlimit = Some(packets);
        }
    }
    Ok(queue)
}

// Takes a part of a queue.
#[tactic(auto, unfolding(crate::specs::Queues::queue_part, crate::specs::Queues::queue_words))]
fn take_queue_part(cursor: &mut Cursor, before: Queue) -> Result<Queue, Stop>
    ensures { Takes (says.queue_part before) cursor.old result cursor.new }
{
    let word = take_key(&QUEUE_WORDS, cursor)?;
    take_queue_behind(cursor, word, before)
}

// A queue of which parts are still to be read. Clauses see the queue.
#[derive(Drop)]
struct Draft {
    queue: Queue,
}

impl Model for Draft {
    ghost use Rattle.pf_decl.specs.declared.form.Queue.{Queue};

    ghost Value = { Queue };

    ghost view = { λ a. a.queue };
}

// The parts of a queue.
#[derive(Clone, Copy)]
struct QueueParts;

impl Lay<Draft> for QueueParts {
    ghost part = { λ _. says.queue_part };

    fn lay(&self, cursor: &mut Cursor, value: Draft) -> Result<Draft, Stop> {
        let queue = take_queue_part(cursor, value.queue)?;
        Ok(Draft { queue })
    }
}

// Takes the parts of a queue, to the end of the statement.
fn take_queue_parts(cursor: &mut Cursor, blank: Queue) -> Result<Queue, Stop>
    ensures { Takes (says.queue_parts blank) cursor.old result cursor.new }
{
    let draft = take_to_end(&QueueParts, cursor, Draft { queue: blank })?;
    Ok(draft.queue)
}

/// Takes a queue behind `queue`, in a statement at this place.
#[tactic(auto, unfolding(crate::specs::Queues::queue))]
pub fn take_queue(cursor: &mut Cursor, place: Place) -> Result<Queue, Stop>
    ensures { Takes (says.queue place) cursor.old result cursor.new }
{
    let name = cursor.take_name()?;
    take_queue_parts(cursor, blank_queue(place, name))
}
