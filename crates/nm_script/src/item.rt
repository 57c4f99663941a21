//! The lines of a script's text.

use crate::schedule::PlanItem;
use crate::script::Line;
use nm_base::VPage;
use nm_tiers::Node;

/// What a line of a text says.
#[derive(Clone, Copy, Debug, PartialEq, Eq)]
pub enum Item {
    /// `nomad` and the version.
    Version(u32),
    /// `page` and the words of a page.
    Page(u32),
    /// `tiers` and the frames of both tiers.
    Tiers(u32, u32),
    /// `node`, the distance and the frames.
    Node(Node),
    /// `cpus` and the number of processors.
    Cpus(u32),
    /// `retry` and a number of aborts.
    Retry(u32),
    /// `serial turns` and the most turns.
    Serial(u32),
    /// `shuffle`, a number, `turns` and the most turns.
    Shuffle(u64, u32),
    /// `plan turns` and the most turns.
    Plan(u32),
    /// `go`, an actor, a kind of action and a count.
    Go(PlanItem),
    /// `map`, a virtual page, a backing page and the right.
    Map(u32, VPage),
    /// `cpu` and the number of a processor.
    Cpu(u32),
    /// A line of the processor.
    Access(Line),
}

/// What stood last.
#[derive(Clone, Copy, Debug, PartialEq, Eq)]
pub enum Place {
    /// Nothing.
    Begin,
    /// The first line.
    Version,
    /// The line of the page.
    Page,
    /// The line of the tiers, or a node.
    Tier,
    /// The line of the processors.
    Cpus,
    /// The line of the retry.
    Retry,
    /// A serial or a shuffled schedule.
    Order,
    /// A plan, or an item of it.
    Plan,
    /// A mapped virtual page.
    Map,
    /// A processor, or a line of it.
    Program,
}

/// How turns are picked, without the items of a plan.
#[derive(Clone, Copy, Debug, PartialEq, Eq)]
pub enum Order {
    /// By number.
    Serial(u32),
    /// By random numbers.
    Shuffle(u64, u32),
    /// By a plan.
    Plan(u32),
}
