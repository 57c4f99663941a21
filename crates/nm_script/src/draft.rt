//! What the lines so far have told.

ghost use Rattle.std.specs.Prelude.{◌≡◌, ◌≢◌, ◌≤◌, ◌+◌, ◌^◌, ◌<◌, [], length, slice_index_or, Some, None, Ok, Err, IfOk, IfErr, IsTrue, OnOk, map};
ghost use Rattle.nm_tiers.specs.Tiers.{frames_of, tiers_of, tier_count};
ghost use Rattle.nm_base.specs.Geometry.{IsGeometry, made};
ghost use Rattle.nm_script.specs.Told.{with_page, with_line, schedule_of};
ghost use Rattle.nm_script.specs.Reading.{place_in, reached, AreMany};

use crate::fault::{ReadError, ScriptFault};
use crate::fields::{below_in, map_fields, number_in, place_fields, ranged_in};
use crate::item::{Item, Order, Place};
use crate::limits::{MOST_FRAMES, MOST_TURNS};
use crate::reading::{
    Read, cpus_line, go_line, header_in, node_line, page_line, retry_line, schedule_line,
    tiers_line,
};
use crate::schedule::{PlanItem, PlanItems, Schedule};
use crate::script::{Line, Script};
use nm_base::{Geometry, VPage};
use nm_text::{one_field, three_fields, two_fields};
use nm_tiers::{Node, TierRefusal, tiers_from_nodes};
use std::alloc::{AllocError, Global};
use std::marker::Model;

/// What the lines so far have told.
#[derive(Drop)]
pub struct Draft {
    pub place: Place,
    pub version: u32,
    pub words: u32,
    pub tiers: Vec<u32>,
    pub frames: u32,
    pub nodes: Vec<Node>,
    pub cpus: u32,
    pub retry: Option<u32>,
    pub order: Order,
    pub plan: Vec<PlanItem>,
    pub vpages: Vec<Option<VPage>>,
    pub programs: Vec<Vec<Line>>,
}

impl Model for Draft {
    ghost use Rattle.std.specs.Prelude.{map};
    ghost use Rattle.nm_script.specs.Told.{Told};

    ghost Value = { Told };

    ghost view = { λ d. record { place = d.place; version = d.version; words = d.words; tiers = d.tiers.items; frames = d.frames; nodes = d.nodes.items; cpus = d.cpus; retry = d.retry; order = d.order; plan = d.plan.items; vpages = d.vpages.items; programs = map (λ p. p.items) d.programs.items } };
}

/// The backing pages, the processors and this many more are at most the frames.
const SPARE_FRAMES: u32 = 9;
/// The most nodes.
const MOST_NODES: usize = 16;

impl Draft {
    ghost use Rattle.nm_script.specs.Told.{nothing, with_item, is_whole, script_of};
    ghost use Rattle.nm_script.specs.Reading.{map_in, map_line, cpu_in, cpu_line, load_in, store_in, add_in, await_in, access_line, tier_line, more_line, form_at, item_at, told_with, ruled, either_of, schedule_line, GivesTold};
    ghost use Rattle.nm_script.specs.Holds.{IsToldSoFar, ItemFits};

    /// Before the first line.
    pub fn new(alloc: Global) -> Draft
        ensures { result ≡ nothing }
    {
        Draft {
            place: Place::Begin,
            version: 0,
            words: 512,
            tiers: Vec::new(alloc),
            frames: 0,
            nodes: Vec::new(alloc),
            cpus: 0,
            retry: None,
            order: Order::Serial(MOST_TURNS),
            plan: Vec::new(alloc),
            vpages: Vec::new(alloc),
            programs: Vec::new(alloc),
        }
    }

    /// A virtual page that is not mapped yet, and a backing page that leaves frames enough.
    #[tactic(auto, unfolding(crate::specs::Reading::map_in))]
    fn map_in(&self, v: &[u8], page: &[u8], writable: bool) -> Result<Item, ScriptFault>
        requires { self.now.cpus ≤ 16 }
        ensures { result ≡ map_in self.now (v.now, page.now, writable) }
    {
        let v = ranged_in(0, 4095, v)?;
        let page = ranged_in(0, 4095, page)?;
        if vpage_at(&self.vpages, v).is_some() {
            return Err(ScriptFault::DuplicateMap);
        }
        if page + 1 + self.cpus + SPARE_FRAMES > self.frames {
            return Err(ScriptFault::TooManyPages);
        }
        Ok(Item::Map(v, VPage { page, writable }))
    }

    /// The line of a virtual page.
    #[tactic(auto, unfolding(crate::specs::Reading::map_line))]
    fn map_line(&self, line: &[u8]) -> Read
        requires { self.now.cpus ≤ 16 }
        ensures { result ≡ map_line self.now line.now }
    {
        let (v, page, writable) = map_fields(line)?;
        Some(self.map_in(v, page, writable))
    }

    /// The next processor.
    #[tactic(auto, unfolding(crate::specs::Reading::cpu_in))]
    fn cpu_in(&self, field: &[u8]) -> Result<Item, ScriptFault>
        ensures { result ≡ cpu_in self.now field.now }
    {
        let cpu = number_in(field)?;
        if cpu == self.programs.len() as u64 && cpu < u64::from(self.cpus) {
            Ok(Item::Cpu(cpu as u32))
        } else {
            Err(ScriptFault::OutOfRange)
        }
    }

    /// The line of a processor.
    #[tactic(auto, unfolding(crate::specs::Reading::cpu_line))]
    fn cpu_line(&self, line: &[u8]) -> Read
        ensures { result ≡ cpu_line self.now line.now }
    {
        let field = one_field(line, b"cpu ")?;
        Some(self.cpu_in(field))
    }

    /// A load.
    #[tactic(auto, unfolding(crate::specs::Reading::load_in))]
    fn load_in(&self, place: &[u8]) -> Result<Item, ScriptFault>
        ensures { result ≡ load_in self.now place.now }
    {
        let (v, w) = place_in(self.words, place)?;
        reached(vpage_at(&self.vpages, v), false, Line::Load { v, w })
    }

    /// A store.
    #[tactic(auto, unfolding(crate::specs::Reading::store_in))]
    fn store_in(&self, place: &[u8], value: &[u8]) -> Result<Item, ScriptFault>
        ensures { result ≡ store_in self.now (place.now, value.now) }
    {
        let (v, w) = place_in(self.words, place)?;
        let x = number_in(value)?;
        reached(vpage_at(&self.vpages, v), true, Line::Store { v, w, x })
    }

    /// An add.
    #[tactic(auto, unfolding(crate::specs::Reading::add_in))]
    fn add_in(&self, place: &[u8], value: &[u8]) -> Result<Item, ScriptFault>
        ensures { result ≡ add_in self.now (place.now, value.now) }
    {
        let (v, w) = place_in(self.words, place)?;
        let x = number_in(value)?;
        reached(vpage_at(&self.vpages, v), true, Line::Add { v, w, x })
    }

    /// An await.
    #[tactic(auto, unfolding(crate::specs::Reading::await_in))]
    fn await_in(&self, place: &[u8], value: &[u8], max: &[u8]) -> Result<Item, ScriptFault>
        ensures { result ≡ await_in self.now (place.now, value.now, max.now) }
    {
        let (v, w) = place_in(self.words, place)?;
        let x = number_in(value)?;
        let max = ranged_in(1, 1_000_000_000, max)?;
        reached(
            vpage_at(&self.vpages, v),
            false,
            Line::Await { v, w, x, max },
        )
    }

    /// A line of the last processor.
    #[tactic(auto, unfolding(crate::specs::Reading::access_line))]
    fn access_line(&self, line: &[u8]) -> Read
        ensures { result ≡ access_line self.now line.now }
    {
        if let Some(place) = one_field(line, b"load ") {
            return Some(self.load_in(place));
        }
        if let Some((place, value)) = two_fields(line, b"store ") {
            return Some(self.store_in(place, value));
        }
        if let Some((place, value)) = two_fields(line, b"add ") {
            return Some(self.add_in(place, value));
        }
        let (place, value, max) = three_fields(line, b"await ")?;
        Some(self.await_in(place, value, max))
    }

    /// The tiers of version 1, or the first node of version 2.
    #[tactic(auto, unfolding(crate::specs::Reading::tier_line))]
    fn tier_line(&self, line: &[u8]) -> Read
        requires { self.now.frames ≤ MOST_FRAMES }
        ensures { result ≡ tier_line self.now line.now }
    {
        if self.version == 1 {
            tiers_line(line)
        } else {
            node_line(self.frames, line)
        }
    }

    /// A further node.
    #[tactic(auto, unfolding(crate::specs::Reading::more_line))]
    fn more_line(&self, line: &[u8]) -> Read
        requires { self.now.frames ≤ MOST_FRAMES }
        ensures { result ≡ more_line self.now line.now }
    {
        if self.version == 2 && self.nodes.len() < MOST_NODES {
            node_line(self.frames, line)
        } else {
            None
        }
    }

    /// A line of a form that may stand after what stood last.
    #[tactic(auto, unfolding(crate::specs::Reading::form_at))]
    fn form_at(&self, line: &[u8]) -> Read
        requires frames { self.now.frames ≤ MOST_FRAMES }
        requires cpus { self.now.cpus ≤ 16 }
        ensures { result ≡ form_at self.now self.now.place line.now }
    {
        match self.place {
            Place::Begin => Some(header_in(line)),
            Place::Version => page_line(line).or_else(|| self.tier_line(line)),
            Place::Page => self.tier_line(line),
            Place::Tier => self
                .more_line(line)
                .or_else(|| cpus_line(self.tiers.len(), line)),
            Place::Cpus => retry_line(self.version, line).or_else(|| self.schedule_or_map(line)),
            Place::Retry => self.schedule_or_map(line),
            Place::Order => self.map_line(line),
            Place::Plan => go_line(self.cpus, line).or_else(|| self.map_line(line)),
            Place::Map => self.map_line(line).or_else(|| self.cpu_line(line)),
            Place::Program => self.cpu_line(line).or_else(|| self.access_line(line)),
        }
    }

    /// The schedule, or a virtual page where no line says it.
    fn schedule_or_map(&self, line: &[u8]) -> Read
        requires { self.now.cpus ≤ 16 }
        ensures { result ≡ either_of (schedule_line line.now) (map_line self.now line.now) }
    {
        schedule_line(line).or_else(|| self.map_line(line))
    }

    /// What a line says, or its first fault.
    #[tactic(auto, unfolding(crate::specs::Reading::item_at))]
    fn item_at(&self, line: &[u8]) -> Result<Item, ScriptFault>
        requires frames { self.now.frames ≤ MOST_FRAMES }
        requires cpus { self.now.cpus ≤ 16 }
        ensures { result ≡ item_at self.now line.now }
    {
        self.form_at(line).unwrap_or(Err(ScriptFault::BadLine))
    }

    /// Sets the frames of both tiers.
    fn set_tiers(&mut self, fast: u32, slow: u32) -> Result<(), AllocError>
        requires { fast + slow < 2 ^ 32 }
        ensures { OnOk result (self.new ≡ with_item self.old (Item.Tiers fast slow)) }
    {
        self.place = Place::Tier;
        self.tiers.clear();
        self.tiers.push(fast)?;
        self.tiers.push(slow)?;
        self.frames = fast + slow;
        Ok(())
    }

    /// Adds a node, where it brings no fifth tier.
    fn add_node(&mut self, alloc: Global, node: Node) -> Result<(), ReadError>
        requires frames { self.old.frames + node.frames ≤ MOST_FRAMES }
        requires nodes { self.old.frames ≡ frames_of self.old.nodes }
        ensures { GivesTold self.new result (ruled self.old (Item.Node node)) }
    {
        self.place = Place::Tier;
        self.frames += node.frames;
        self.nodes.push(node)?;
        self.tiers = form_tiers(alloc, &self.nodes)?;
        Ok(())
    }

    /// Sets how turns are picked.
    fn set_order(&mut self, place: Place, order: Order)
        ensures { self.new ≡ record self.old { place = place; order = order } }
    {
        self.place = place;
        self.order = order;
    }

    /// Maps a virtual page.
    fn add_map(&mut self, v: u32, vpage: VPage) -> Result<(), AllocError>
        ensures { OnOk result (self.new ≡ with_item self.old (Item.Map v vpage)) }
    {
        self.place = Place::Map;
        add_page(&mut self.vpages, v, vpage)
    }

    /// Begins the next processor.
    fn add_program(&mut self, alloc: Global) -> Result<(), AllocError>
        ensures { OnOk result (self.new ≡ with_item self.old (Item.Cpu (length self.old.programs))) }
    {
        self.place = Place::Program;
        self.programs.push(Vec::new(alloc))?;
        Ok(())
    }

    /// Adds what a line says.
    fn add(&mut self, alloc: Global, item: Item) -> Result<(), ReadError>
        requires { ItemFits self.old item }
        ensures { GivesTold self.new result (ruled self.old item) }
    {
        match item {
            Item::Version(version) => {
                self.place = Place::Version;
                self.version = version;
            }
            Item::Page(words) => {
                self.place = Place::Page;
                self.words = words;
            }
            Item::Tiers(fast, slow) => self.set_tiers(fast, slow)?,
            Item::Node(node) => self.add_node(alloc, node)?,
            Item::Cpus(cpus) => {
                self.place = Place::Cpus;
                self.cpus = cpus;
            }
            Item::Retry(retry) => {
                self.place = Place::Retry;
                self.retry = Some(retry);
            }
            Item::Serial(turns) => self.set_order(Place::Order, Order::Serial(turns)),
            Item::Shuffle(n, turns) => self.set_order(Place::Order, Order::Shuffle(n, turns)),
            Item::Plan(turns) => self.set_order(Place::Plan, Order::Plan(turns)),
            Item::Go(go) => self.plan.push(go)?,
            Item::Map(v, vpage) => self.add_map(v, vpage)?,
            Item::Cpu(_) => self.add_program(alloc)?,
            Item::Access(line) => add_line(&mut self.programs, line)?,
        }
        Ok(())
    }

    /// Takes a line.
    #[tactic(auto, unfolding(crate::specs::Reading::told_with))]
    pub fn take(&mut self, alloc: Global, line: &[u8]) -> Result<(), ReadError>
        requires { IsToldSoFar self.old }
        ensures { GivesTold self.new result (told_with self.old line.now) }
    {
        let item = self.item_at(line)?;
        self.add(alloc, item)
    }

    /// Whether the text may end here: the last processor has its line.
    pub fn is_whole(&self) -> bool
        ensures { result ≡ is_whole self.now }
    {
        self.place == Place::Program && self.programs.len() == self.cpus as usize
    }

    /// The script that was told.
    pub fn finish(self, alloc: Global) -> Result<Script, AllocError>
        requires told { IsToldSoFar self }
        requires whole { IsTrue (is_whole self) }
        ensures { IfOk result (λ s. s ≡ script_of self) }
    {
        let geometry = make_geometry(alloc, self.words, &self.tiers, self.cpus, &self.vpages)?;
        Ok(Script {
            version: self.version,
            geometry,
            programs: self.programs,
            schedule: make_schedule(self.order, self.plan),
            nodes: self.nodes,
            retry: self.retry,
        })
    }
}

/// The geometry with these fields.
fn make_geometry(
    alloc: Global,
    words: u32,
    tiers: &[u32],
    cpus: u32,
    vpages: &[Option<VPage>],
) -> Result<Geometry, AllocError>
    requires { IsGeometry (made words tiers.now cpus vpages.now) }
    ensures { IfOk result (λ g. g ≡ made words tiers.now cpus vpages.now) }
{
    Geometry::new(alloc, words, tiers, cpus, vpages).map_err(|_| AllocError)
}

/// The schedule of this order and these items of a plan.
fn make_schedule(order: Order, plan: Vec<PlanItem>) -> Schedule
    ensures { result ≡ schedule_of order plan.items }
{
    match order {
        Order::Serial(turns) => Schedule::Serial { turns },
        Order::Shuffle(number, turns) => Schedule::Shuffle { number, turns },
        Order::Plan(turns) => Schedule::Plan {
            turns,
            items: PlanItems { items: plan },
        },
    }
}

/// What a virtual page is mapped to, if anything.
fn vpage_at(vpages: &[Option<VPage>], v: u32) -> Option<VPage>
    ensures { result ≡ slice_index_or vpages.now v None }
{
    vpages.get(v as usize).copied().flatten()
}

/// A virtual page and a word of it.
#[tactic(auto, unfolding(crate::specs::Reading::place_in))]
fn place_in(words: u32, field: &[u8]) -> Result<(u32, u32), ScriptFault>
    ensures { result ≡ place_in words field.now }
{
    let (v, w) = place_fields(field);
    let v = ranged_in(0, 4095, v)?;
    let w = below_in(words, w)?;
    Ok((v, w))
}

/// An access, where its page is mapped, and may be written by one that writes.
fn reached(vpage: Option<VPage>, writes: bool, line: Line) -> Result<Item, ScriptFault>
    ensures { result ≡ reached vpage writes line }
{
    match vpage {
        None => Err(ScriptFault::Unmapped),
        Some(vpage) => {
            if writes && !vpage.writable {
                Err(ScriptFault::ReadOnly)
            } else {
                Ok(Item::Access(line))
            }
        }
    }
}

/// The tiers that nodes form, or the fault that there are more than four.
fn form_tiers(alloc: Global, nodes: &[Node]) -> Result<Vec<u32>, ReadError>
    requires some { nodes.now ≢ [] }
    requires frames { frames_of nodes.now ≤ MOST_FRAMES }
    ensures ok { IfOk result (λ v. (v.items ≡ tiers_of nodes.now) × (tier_count nodes.now ≤ 4)) }
    ensures fault { IfErr result (AreMany nodes.now) }
    // Want of memory is no excuse where they form more.
    ensures many { 4 < tier_count nodes.now → result ≡ Err (ReadError.Fault ScriptFault.TooManyTiers) }
{
    match tiers_from_nodes(alloc, nodes) {
        Ok(tiers) => Ok(tiers),
        Err(TierRefusal::TooManyTiers(_)) => Err(ReadError::Fault(ScriptFault::TooManyTiers)),
        Err(TierRefusal::NoNode) => Err(ReadError::Memory),
        Err(TierRefusal::Memory) => Err(ReadError::Memory),
    }
}

/// Maps a virtual page.
fn add_page(vpages: &mut Vec<Option<VPage>>, v: u32, vpage: VPage) -> Result<(), AllocError>
    ensures { OnOk result (vpages.new.items ≡ with_page vpages.old.items v vpage) }
{
    let v = v as usize;
    while vpages.len() <= v {
        vpages.push(None)?;
    }
    vpages[v] = Some(vpage);
    Ok(())
}

/// Adds a line to the last program.
fn add_line(programs: &mut Vec<Vec<Line>>, line: Line) -> Result<(), AllocError>
    requires { 0 < length programs.old.items }
    ensures { OnOk result (map (λ p. p.items) programs.new.items ≡ with_line (map (λ p. p.items) programs.old.items) line) }
{
    let last = programs.len() - 1;
    programs[last].push(line)?;
    Ok(())
}
