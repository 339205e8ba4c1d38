//! Branch and bound: the cheapest choice of a pool, by several workers.
ghost use Rattle.std.specs.Prelude.{◌≡◌, ◌≤◌, ◌<◌, ◌^◌, ◌++◌, ◌∷◌, [], ℕ, List, IfOk, OnOk, length};
ghost use Rattle.std.specs.List.{All};
ghost use Rattle.std.specs.List.Sorted.{IsPermutation};
ghost use Rattle.vrp_partition.specs.Branching.{AreLookedAt, CanLook, AreOpened, IsBest, IsEnd, IsFound, IsLookedAt, IsSearched, IfUnfinished, IsTaken, NodeState, TakesChoice};
ghost use Rattle.vrp_partition.specs.Choice.{NoneBelow};
ghost use Rattle.vrp_partition.specs.Prices.{AllFit};
ghost use Rattle.vrp_partition.specs.declared.route.Route.{Route};

use crate::bounding::Chosen;
use crate::guide::Guide;
use crate::node::{Branches, Node, NodeEnd};
use crate::route::Route;
use crate::task::Task;
use std::alloc::{AllocError, Global};
use std::marker::Model;
use std::thread::{Threads, for_each_mut};
use vrp_model::{Crew, News, PLACES, Watch};

// The number of open nodes that are looked at in parallel, for any number of workers: so a search takes the same steps with every number
// of them.
const NODES_AT_ONCE: usize = 8;

/// The result of a search. If no choice costs less than the incumbent, the cost is the incumbent's, and the routes are no choice.
#[derive(Debug, Drop)]
pub enum Found {
    /// No choice with at least the task's number of routes costs less than this one and the incumbent.
    Cheapest(Chosen),
    /// The search ended unfinished: the cheapest choice so far, and a lower bound on each choice.
    Unfinished { best: Chosen, lower_bound: u64 },
}

/// A cost below the incumbent's that a choice of the pool attains which serves the task's customers with its trucks, and such a choice;
/// if there is none, the incumbent's cost. No choice with at least the task's number of routes costs less. The search ends unfinished if the budget is spent, or the watch stops it; then the rest of
/// the budget is given up. A round of nodes takes one of the budget, and as much as the guides' own work. Each route of the pool must fit
/// one truck. Several open nodes are looked at at a time, the last ones first.
pub fn cheapest_choice<R: Threads + Sync, P: Guide + Send, W: Watch>(
    crew: &Crew<'_, R, W>,
    guide: P,
    task: &Task<'_>,
    pool: Vec<Route>,
    budget: &mut u64,
) -> Result<Found, AllocError>
    requires len { length task.now.fleet.demands.now ≡ PLACES }
    requires fit { AllFit task.now.fleet.demands.now task.now.fleet.capacity pool.items }
    requires incumbent { task.now.incumbent ≤ 2 ^ 32 }
    ensures found { IfOk result (IsFound pool.items task.now.customers task.now.fleet.trucks task.now.least_routes task.now.incumbent) }
    ensures budget { budget.new ≤ budget.old }
    ensures spent { IfOk result (IfUnfinished (budget.new ≡ 0)) }
{
    let mut search = Search::new(crew.alloc, guide, pool, task.incumbent)?;
    while !search.open_nodes.is_empty() {
        if *budget == 0 || !crew.watch.should_continue() {
            *budget = 0;
            let lower_bound = search.lower_bound();
            let best = search.best;
            return Ok(Found::Unfinished { best, lower_bound });
        }
        let work = search.round(crew, task)?;
        *budget = (*budget - 1).saturating_sub(work);
        crew.watch.on_news(search.news());
    }
    Ok(Found::Cheapest(search.best))
}

// A search: its open nodes, the cheapest choice so far, and the number of nodes that are done.
#[derive(Drop)]
pub(crate) struct Search<P: Guide> {
    open_nodes: Vec<Node<P>>,
    best: Chosen,
    done: u64,
}

impl<P: Guide> Model for Search<P> {
    ghost use Rattle.vrp_partition.specs.Branching.{SearchState};

    ghost Value = { SearchState };

    ghost view = { λ s. record { open_nodes = s.open_nodes.items; cost = s.best.cost; routes = s.best.routes.items } };
}

impl<P: Guide + Send> Search<P> {
    // A search that starts with the node of the whole pool.
    fn new(
        alloc: Global,
        guide: P,
        pool: Vec<Route>,
        incumbent: u64,
    ) -> Result<Search<P>, AllocError>
        ensures { IfOk result (λ search. (customers trucks fewest : ℕ) → IsSearched pool.items customers trucks fewest incumbent search search.open_nodes) }
    {
        let mut open_nodes = Vec::new(alloc);
        open_nodes.push(Node::new(pool, 0, guide))?;
        let routes = Vec::new(alloc);
        Ok(Search {
            open_nodes,
            best: Chosen {
                cost: incumbent,
                routes,
            },
            done: 0,
        })
    }

    // Looks at some open nodes for choices cheaper than the best so far, and answers the work of the guides.
    fn round<R: Threads + Sync, W>(
        &mut self,
        crew: &Crew<'_, R, W>,
        task: &Task<'_>,
    ) -> Result<u64, AllocError>
        requires len { length task.now.fleet.demands.now ≡ PLACES }
        requires search { (pool : List Route) × (incumbent : ℕ) × AllFit task.now.fleet.demands.now task.now.fleet.capacity pool
            × (incumbent ≤ 2 ^ 32) × IsSearched pool task.now.customers task.now.fleet.trucks task.now.least_routes incumbent self.old self.old.open_nodes }
        ensures { OnOk result ((pool : List Route) (incumbent : ℕ)
            → IsSearched pool task.now.customers task.now.fleet.trucks task.now.least_routes incumbent self.old self.old.open_nodes
            → IsSearched pool task.now.customers task.now.fleet.trucks task.now.least_routes incumbent self.new self.new.open_nodes) }
    {
        let below = Task {
            incumbent: self.best.cost,
            ..*task
        };
        let nodes = self.take_nodes(crew.alloc)?;
        let nodes = looked_at(
            crew.rt,
            crew.alloc,
            usize::from(crew.workers),
            &below,
            nodes,
        );
        let work = self.absorb_all(nodes)?;
        Ok(work)
    }

    // Takes the last open nodes, in an order in which equal shares of them have about the same work.
    fn take_nodes(&mut self, alloc: Global) -> Result<Vec<Node<P>>, AllocError>
        ensures cost { OnOk result (self.new.cost ≡ self.old.cost) }
        ensures nodes { IfOk result (λ nodes. (pool : List Route) (customers trucks fewest incumbent : ℕ)
            → IsSearched pool customers trucks fewest incumbent self.old self.old.open_nodes
            → IsSearched pool customers trucks fewest incumbent self.new (self.new.open_nodes ++ nodes.items)) }
    {
        let mut nodes = Vec::with_capacity(alloc, NODES_AT_ONCE)?;
        for _ in 0..NODES_AT_ONCE {
            self.take_node(&mut nodes)?;
        }
        spread_out(alloc, &mut nodes)?;
        Ok(nodes)
    }

    // Takes the last open node, if there is one.
    fn take_node(&mut self, nodes: &mut Vec<Node<P>>) -> Result<(), AllocError>
        ensures { OnOk result (IsTaken self.old nodes.old.items self.new nodes.new.items) }
    {
        match self.open_nodes.pop() {
            Some(node) => {
                nodes.push(node)?;
                Ok(())
            }
            None => Ok(()),
        }
    }

    // Takes in the outcomes of the nodes, and answers the work of the guides.
    fn absorb_all(&mut self, mut nodes: Vec<Node<P>>) -> Result<u64, AllocError>
        ensures { OnOk result ((pool : List Route) (customers trucks fewest incumbent limit : ℕ)
            → self.old.cost ≤ limit
            → All (λ node. IfOk node.end (IsEnd node.pool customers trucks fewest limit)) nodes.items
            → IsSearched pool customers trucks fewest incumbent self.old (self.old.open_nodes ++ nodes.items)
            → IsSearched pool customers trucks fewest incumbent self.new self.new.open_nodes) }
    {
        let mut work = 0u64;
        while let Some(node) = nodes.pop() {
            work = work.saturating_add(node.work);
            self.absorb(node)?;
        }
        Ok(work)
    }

    // Takes in the outcome of a node.
    fn absorb(&mut self, node: Node<P>) -> Result<(), AllocError>
        ensures falls { OnOk result (self.new.cost ≤ self.old.cost) }
        ensures searched { OnOk result ((pool : List Route) (customers trucks fewest incumbent limit : ℕ) (rest : List NodeState)
            → self.old.cost ≤ limit
            → IfOk node.end (IsEnd node.pool customers trucks fewest limit)
            → IsSearched pool customers trucks fewest incumbent self.old (self.old.open_nodes ++ (rest ++ node ∷ []))
            → IsSearched pool customers trucks fewest incumbent self.new (self.new.open_nodes ++ rest)) }
    {
        let Node {
            guide,
            end,
            other,
            ..
        } = node;
        self.done = self.done.saturating_add(1);
        match end? {
            NodeEnd::Solved(chosen) => {
                self.take_choice(chosen);
                Ok(())
            }
            NodeEnd::Branched(branches) => {
                self.open_branches(branches, guide, other)?;
                Ok(())
            }
        }
    }

    // Keeps a choice if it costs less than the cheapest one so far.
    fn take_choice(&mut self, chosen: Chosen)
        ensures { TakesChoice self.old chosen self.new }
    {
        if chosen.cost < self.best.cost {
            self.best = chosen;
        }
    }

    // Opens both branches. The first is looked at first.
    fn open_branches(
        &mut self,
        branches: Branches,
        guide: P,
        other: Option<P>,
    ) -> Result<(), AllocError>
        ensures best { OnOk result (IsBest self.old self.new) }
        ensures opened { OnOk result (AreOpened branches self.old.open_nodes self.new.open_nodes) }
    {
        let Branches {
            joint,
            parted,
            lower_bound,
        } = branches;
        // A node that was branched on has a guide for the second branch.
        let Some(other) = other else {
            return Err(AllocError);
        };
        self.open_nodes.push(Node::new(parted, lower_bound, other))?;
        self.open_nodes.push(Node::new(joint, lower_bound, guide))?;
        Ok(())
    }

    // A lower bound on each choice.
    fn lower_bound(&self) -> u64
        ensures { (pool : List Route) (customers trucks fewest incumbent : ℕ)
            → IsSearched pool customers trucks fewest incumbent self.now self.now.open_nodes
            → NoneBelow pool customers trucks fewest result }
    {
        let mut least = self.best.cost;
        for index in 0..self.open_nodes.len() {
            least = least.min(self.open_nodes[index].lower_bound);
        }
        least
    }

    // The progress of the search.
    fn news(&self) -> News {
        News::Nodes {
            done: self.done,
            open: self.open_nodes.len() as u64,
            incumbent: self.best.cost,
            lower_bound: self.lower_bound(),
        }
    }
}

// Orders the nodes so that equal shares of them have about the same number of routes.
fn spread_out<P: Guide>(alloc: Global, nodes: &mut Vec<Node<P>>) -> Result<(), AllocError>
    ensures { IsPermutation nodes.old.items nodes.new.items }
{
    let mut counts = Vec::with_capacity(alloc, nodes.len())?;
    for index in 0..nodes.len() {
        counts.push(nodes[index].pool.len())?;
    }
    nodes.sort_by_key(|node| turn_of(node.pool.len(), counts.as_slice()))?;
    Ok(())
}

// The turn of a count among others. The greatest count has rank 0, and equal ones have the last of their ranks. The turn is the Gray code
// of the rank, read with its last bit as the highest: so each half of the turns, and each quarter, has every other pair of ranks.
fn turn_of(count: usize, counts: &[usize]) -> usize {
    let no_less = counts.iter().filter(|other| **other >= count).count();
    let rank = no_less.saturating_sub(1);
    (rank ^ rank >> 1).reverse_bits()
}

// The nodes after a parallel look at them.
fn looked_at<R: Threads + Sync, P: Guide + Send>(
    rt: &R,
    alloc: Global,
    workers: usize,
    task: &Task<'_>,
    mut nodes: Vec<Node<P>>,
) -> Vec<Node<P>>
    requires workers { 1 ≤ workers }
    requires can { All (CanLook task.now) nodes.items }
    ensures { AreLookedAt task.now nodes.items result.items }
{
    for_each_mut(
        rt,
        nodes.as_mut_slice(),
        workers,
        &|_, node: &mut Node<P>|
            requires { CanLook task.now node.now }
            ensures { IsLookedAt task.entry.now node.entry.now node.exit.now }
        { node.look(alloc, task) },
    );
    nodes
}
