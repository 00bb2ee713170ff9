//! Whether two parts of rules are one.
ghost use Rattle.pf_parts.specs.Equal.{bases, block_kinds, calls, directions, flushes, interface_tests, logs, options_of_states, overloads, prio_pairs, queue_pairs, rates, scrubs, states, tag_tests, tracks};

use crate::block::BlockKind;
use crate::call::{Base, Call};
use crate::direction::Direction;
use crate::matching::{IfTest, TagTest};
use crate::params::{Log, Prios, Queues, Scrub};
use crate::state::{Flush, Overload, Rate, StateKind, StateOptions, Track};
use pf_base::Same;

impl Same for Direction {
    ghost equality = { directions };

    fn same(&self, other: &Direction) -> bool {
        match self {
            Direction::In => matches!(other, Direction::In),
            Direction::Out => matches!(other, Direction::Out),
        }
    }
}

impl Same for IfTest {
    ghost equality = { interface_tests };

    fn same(&self, other: &IfTest) -> bool {
        match (self, other) {
            (IfTest::Any, IfTest::Any) => true,
            (
                IfTest::On { name, negated },
                IfTest::On {
                    name: second,
                    negated: turned,
                },
            ) => name.same(second) && negated.same(turned),
            (IfTest::Any, IfTest::On { .. }) | (IfTest::On { .. }, IfTest::Any) => false,
        }
    }
}

impl Same for TagTest {
    ghost equality = { tag_tests };

    fn same(&self, other: &TagTest) -> bool {
        match (self, other) {
            (TagTest::Any, TagTest::Any) => true,
            (
                TagTest::Is { name, negated },
                TagTest::Is {
                    name: second,
                    negated: turned,
                },
            ) => name.same(second) && negated.same(turned),
            (TagTest::Any, TagTest::Is { .. }) | (TagTest::Is { .. }, TagTest::Any) => false,
        }
    }
}

impl Same for StateKind {
    ghost equality = { states };

    fn same(&self, other: &StateKind) -> bool {
        match self {
            StateKind::None => matches!(other, StateKind::None),
            StateKind::Keep => matches!(other, StateKind::Keep),
            StateKind::Modulate => matches!(other, StateKind::Modulate),
            StateKind::Synproxy => matches!(other, StateKind::Synproxy),
        }
    }
}

impl Same for Track {
    ghost equality = { tracks };

    fn same(&self, other: &Track) -> bool {
        match self {
            Track::Plain => matches!(other, Track::Plain),
            Track::Rule => matches!(other, Track::Rule),
            Track::Global => matches!(other, Track::Global),
        }
    }
}

impl Same for Flush {
    ghost equality = { flushes };

    fn same(&self, other: &Flush) -> bool {
        match self {
            Flush::No => matches!(other, Flush::No),
            Flush::Flush => matches!(other, Flush::Flush),
            Flush::Global => matches!(other, Flush::Global),
        }
    }
}

impl Same for Rate {
    ghost equality = { rates };

    fn same(&self, other: &Rate) -> bool {
        self.count.same(&other.count) && self.seconds.same(&other.seconds)
    }
}

impl Same for Overload {
    ghost equality = { overloads };

    fn same(&self, other: &Overload) -> bool {
        self.table.same(&other.table) && self.flush.same(&other.flush)
    }
}

impl Same for StateOptions {
    ghost equality = { options_of_states };

    #[tactic(auto, unfolding(crate::specs::Equal::options_of_states))]
    fn same(&self, other: &StateOptions) -> bool {
        self.max.same(&other.max)
            && self.source_track.same(&other.source_track)
            && self.max_src_nodes.same(&other.max_src_nodes)
            && self.max_src_states.same(&other.max_src_states)
            && self.max_src_conn.same(&other.max_src_conn)
            && self.max_src_conn_rate.same(&other.max_src_conn_rate)
            && self.overload.same(&other.overload)
            && self.sloppy.same(&other.sloppy)
            && self.no_sync.same(&other.no_sync)
            && self.pflow.same(&other.pflow)
            && self.if_bound.same(&other.if_bound)
            && self.floating.same(&other.floating)
    }
}

impl Same for Queues {
    ghost equality = { queue_pairs };

    fn same(&self, other: &Queues) -> bool {
        self.first.same(&other.first) && self.second.same(&other.second)
    }
}

impl Same for Prios {
    ghost equality = { prio_pairs };

    fn same(&self, other: &Prios) -> bool {
        self.first.same(&other.first) && self.second.same(&other.second)
    }
}

impl Same for Scrub {
    ghost equality = { scrubs };

    #[tactic(auto, unfolding(crate::specs::Equal::scrubs))]
    fn same(&self, other: &Scrub) -> bool {
        self.no_df.same(&other.no_df)
            && self.random_id.same(&other.random_id)
            && self.reassemble_tcp.same(&other.reassemble_tcp)
            && self.min_ttl.same(&other.min_ttl)
            && self.max_mss.same(&other.max_mss)
    }
}

impl Same for Log {
    ghost equality = { logs };

    #[tactic(auto, unfolding(crate::specs::Equal::logs))]
    fn same(&self, other: &Log) -> bool {
        self.on.same(&other.on)
            && self.all.same(&other.all)
            && self.matches.same(&other.matches)
            && self.user.same(&other.user)
            && self.to.same(&other.to)
    }
}

impl Same for BlockKind {
    ghost equality = { block_kinds };

    fn same(&self, other: &BlockKind) -> bool {
        match self {
            BlockKind::Drop => matches!(other, BlockKind::Drop),
            BlockKind::Return => matches!(other, BlockKind::Return),
            BlockKind::Rst { ttl } => match other {
                BlockKind::Rst { ttl: second } => ttl.same(second),
                BlockKind::Drop | BlockKind::Return | BlockKind::Icmp { .. } => false,
            },
            BlockKind::Icmp { code, code6 } => match other {
                BlockKind::Icmp {
                    code: second,
                    code6: second6,
                } => code.same(second) && code6.same(second6),
                BlockKind::Drop | BlockKind::Return | BlockKind::Rst { .. } => false,
            },
        }
    }
}

impl Same for Base {
    ghost equality = { bases };

    fn same(&self, other: &Base) -> bool {
        match self {
            Base::Below => matches!(other, Base::Below),
            Base::Root => matches!(other, Base::Root),
            Base::Up(levels) => match other {
                Base::Up(second) => levels.same(second),
                Base::Below | Base::Root => false,
            },
        }
    }
}

impl Same for Call {
    ghost equality = { calls };

    fn same(&self, other: &Call) -> bool {
        self.base.same(&other.base)
            && self.path.same(&other.path)
            && self.children.same(&other.children)
    }
}
