//! Registers with one thread and with several.
ghost use Rattle.std.specs.Prelude.{◌≡◌, ◌≤◌};
ghost use Rattle.std.specs.List.{All};
ghost use Rattle.vrp_sharing.specs.Caller.{IsCallerOf};

use crate::assertion::assert_same;
use crate::register::fixture::{copied, singles_and_joined, there_and_back};
use std::alloc::Global;
use std::marker::Brand;
use std::process::Abort;
use std::sync::Wait;
use std::sync::ledger::{Blank, Ledger};
use std::thread;
use std::thread::{Threads, join};
use vrp_model::{NO_COST, NoMemory, Plan};
use vrp_sharing::{Book, Caller, Closed, Register, Reply};

// Asserts the number of a register's offers, the plan it kept, and the least cost.
fn assert_closed(
    rt: &impl Abort,
    closed: &Closed,
    entries: usize,
    kept: Option<&Plan>,
    least: u64,
) {
    assert_same(rt, closed.book.entries(), entries, "entries");
    let found = closed.book.plan().map(Plan::word);
    assert_same(rt, found, kept.map(Plan::word), "the plan");
    assert_same(rt, closed.least, least, "the least cost");
}

// A register that opens with a plan, and its two callers.
fn opened_for_two<L: Ledger>(
    rt: &impl Abort,
    alloc: Global,
    blank: Blank,
    opening: &Plan,
) -> (Register<L>, Caller<L>, Caller<L>)
    requires name { blank.name ≡ L.name }
    requires parts { blank.parts ≡ L.parts }
    requires two { blank.parts ≡ 2 }
    ensures callers { result.0.callers ≡ 2 }
    ensures zero { IsCallerOf result.0 result.1 }
    ensures one { IsCallerOf result.0 result.2 }
{
    let opening = opening.copy(alloc).expect(rt, "memory");
    let opened = Register::<L>::new(alloc, Some(opening), blank, 2);
    let (register, mut callers) = opened.expect(rt, "memory");
    let one = callers.pop().expect(rt, "caller 1");
    let zero = callers.pop().expect(rt, "caller 0");
    (register, zero, one)
}

// The closed register of two callers.
fn closed_for_two<L: Ledger>(
    rt: &impl Abort,
    alloc: Global,
    register: Register<L>,
    zero: Caller<L>,
    one: Caller<L>,
) -> Closed
    requires callers { register.callers ≡ 2 }
    requires zero { IsCallerOf register zero }
    requires one { IsCallerOf register one }
{
    let callers = Vec::from_array(alloc, [zero, one]).ok();
    register.close(callers.expect(rt, "memory"))
}

#[test]
fn one_thread(rt: HostRuntime) {
    let (singles, joined) = singles_and_joined(&rt, rt.alloc());
    let closed = closed_by_one::<Brand, HostRuntime>(
        &rt,
        rt.alloc(),
        Blank::new(2),
        &singles,
        &joined,
    );
    assert_closed(&rt, &closed, 1, Some(&joined), 20);
}

// The closed register after one caller has offered a plan of cost 20 and the other has asked.
fn closed_by_one<L: Ledger, R: Wait + Abort>(
    rt: &R,
    alloc: Global,
    blank: Blank,
    opening: &Plan,
    joined: &Plan,
) -> Closed
    requires name { blank.name ≡ L.name }
    requires parts { blank.parts ≡ L.parts }
    requires two { blank.parts ≡ 2 }
{
    let (register, mut zero, mut one) = opened_for_two::<L>(rt, alloc, blank, opening);
    assert_replies(rt, alloc, &register, &mut zero, &[(joined, true, 30)]);
    assert_same(rt, register.least(&mut one), 20, "the least cost");
    assert_look(rt, alloc, &register, joined);
    closed_for_two(rt, alloc, register, zero, one)
}

// A look at a register shows this plan.
fn assert_look<L: Ledger, R: Wait + Abort>(
    rt: &R,
    alloc: Global,
    register: &Register<L>,
    wanted: &Plan,
) {
    let found = register.look(rt, alloc).expect(rt, "memory");
    let found = found.as_ref().map(Plan::word);
    assert_same(rt, found, Some(wanted.word()), "a look");
}

// The offers to a register, and the answers.
type Offers<'a> = &'a [(&'a Plan, bool, u64)];

#[test]
fn refused_offers(rt: HostRuntime) {
    let (rt, alloc) = (&rt, rt.alloc());
    let (singles, joined) = singles_and_joined(rt, alloc);
    let (singles, joined) = (&singles, &joined);
    assert_same(rt, (singles.cost(), joined.cost()), (30, 20), "costs");
    check_register(rt, alloc, None, &[], None);
    check_register(rt, alloc, Some(singles), &[], Some(singles));
    let costly = [(singles, false, 20), (joined, false, 20)];
    check_register(rt, alloc, Some(joined), &costly, Some(joined));
    let cheap = [
        (singles, false, 30),
        (joined, true, 30),
        (singles, false, 20),
    ];
    check_register(rt, alloc, Some(singles), &cheap, Some(joined));
    let first = [
        (singles, true, NO_COST),
        (singles, false, 30),
        (joined, true, 30),
    ];
    check_register(rt, alloc, None, &first, Some(joined));
    let many = Vec::from_elem(alloc, (singles, false, 20), 3_000).expect(rt, "memory");
    check_register(rt, alloc, Some(joined), &many, Some(joined));
}

// One caller makes these offers to a register that opens with this plan, and then this plan is kept.
fn check_register<R: Wait + Abort>(
    rt: &R,
    alloc: Global,
    opening: Option<&Plan>,
    offers: Offers<'_>,
    kept: Option<&Plan>,
) {
    let opening = copied(rt, alloc, opening);
    let closed = closed_by_offers::<Brand, R>(rt, alloc, Blank::new(1), opening, offers);
    let least = kept.map_or(NO_COST, Plan::cost);
    assert_closed(rt, &closed, offers.len(), kept, least);
}

// The closed register after one caller has made these offers.
fn closed_by_offers<L: Ledger, R: Wait + Abort>(
    rt: &R,
    alloc: Global,
    blank: Blank,
    opening: Option<Plan>,
    offers: Offers<'_>,
) -> Closed
    requires name { blank.name ≡ L.name }
    requires parts { blank.parts ≡ L.parts }
    requires one { blank.parts ≡ 1 }
{
    let opened = Register::<L>::new(alloc, opening, blank, 1);
    let (register, mut callers) = opened.expect(rt, "memory");
    let mut caller = callers.pop().expect(rt, "a caller");
    assert_replies(rt, alloc, &register, &mut caller, offers);
    let callers = Vec::from_array(alloc, [caller]).ok();
    register.close(callers.expect(rt, "memory"))
}

// A caller makes these offers, and gets these answers.
fn assert_replies<L: Ledger, R: Wait + Abort>(
    rt: &R,
    alloc: Global,
    register: &Register<L>,
    caller: &mut Caller<L>,
    offers: Offers<'_>,
)
    requires { IsCallerOf register.now caller.old }
    ensures { IsCallerOf register.now caller.new }
{
    for &(plan, kept, before) in offers {
        let reply = register.offer(rt, alloc, caller, plan).expect(rt, "memory");
        assert_same(rt, reply, Reply { kept, before }, before);
    }
}

#[test]
fn two_threads(rt: HostRuntime) {
    let (singles, joined) = singles_and_joined(&rt, rt.alloc());
    let closed = closed_by_two::<Brand, HostRuntime>(
        &rt,
        rt.alloc(),
        Blank::new(2),
        &singles,
        &joined,
    );
    assert_closed(&rt, &closed, 4, Some(&joined), 20);
    assert_costs_by(&rt, &closed.book, 0, &[30, 20]);
    assert_costs_by(&rt, &closed.book, 1, &[20, 30]);
    assert_answers_to(&rt, &closed.book, 30, &[false, false]);
    assert_answers_to(&rt, &closed.book, 20, &[true, false]);
}

// Asserts the costs of a caller's plans, in the order of the book.
fn assert_costs_by(rt: &impl Abort, book: &Book, caller: u32, costs: &[u64]) {
    let mut costs = costs.iter();
    for index in 0..book.entries() {
        let entry = book.entry(index);
        if entry.caller == caller {
            assert_same(rt, Some(&entry.plan.cost()), costs.next(), caller);
        }
    }
    assert_same(rt, costs.next(), None, caller);
}

// Asserts the answers to the offers of this cost, in the order of the book.
fn assert_answers_to(rt: &impl Abort, book: &Book, cost: u64, answers: &[bool]) {
    let mut answers = answers.iter();
    for index in 0..book.entries() {
        let entry = book.entry(index);
        if entry.plan.cost() == cost {
            assert_same(rt, Some(&entry.kept), answers.next(), cost);
        }
    }
    assert_same(rt, answers.next(), None, cost);
}

// The closed register after two threads have each made two offers, in either order.
fn closed_by_two<L: Ledger + Send + Sync, R: Threads + Wait + Abort + Sync>(
    rt: &R,
    alloc: Global,
    blank: Blank,
    singles: &Plan,
    joined: &Plan,
) -> Closed
    requires name { blank.name ≡ L.name }
    requires parts { blank.parts ≡ L.parts }
    requires two { blank.parts ≡ 2 }
{
    let (register, zero, one) = opened_for_two::<L>(rt, alloc, blank, singles);
    let shared = &register;
    let (zero, one) = join(
        rt,
        || -> Caller<L>
            requires { IsCallerOf shared.now zero }
            ensures { IsCallerOf shared.entry.now result }
        { offered(rt, alloc, shared, zero, &[singles, joined]) },
        || -> Caller<L>
            requires { IsCallerOf shared.now one }
            ensures { IsCallerOf shared.entry.now result }
        { offered(rt, alloc, shared, one, &[joined, singles]) },
    );
    closed_for_two(rt, alloc, register, zero, one)
}

// Offers these plans, and hands the caller back.
fn offered<L: Ledger, R: Wait + Abort>(
    rt: &R,
    alloc: Global,
    register: &Register<L>,
    mut caller: Caller<L>,
    plans: &[&Plan],
) -> Caller<L>
    requires { IsCallerOf register.now caller }
    ensures { IsCallerOf register.now result }
{
    for plan in plans {
        let reply = register.offer(rt, alloc, &mut caller, plan);
        reply.expect(rt, "memory");
    }
    caller
}

#[test]
fn one_offers_and_one_asks(rt: HostRuntime) {
    let (singles, joined) = singles_and_joined(&rt, rt.alloc());
    let (closed, falls) = closed_while_asked::<Brand, HostRuntime>(
        &rt,
        rt.alloc(),
        Blank::new(2),
        &singles,
        &joined,
    );
    assert!(rt; falls);
    assert_closed(&rt, &closed, 1, Some(&joined), 20);
}

// One thread offers a plan of cost 20 to a register with 30, while the other asks: whether it got 30 and then 20.
fn closed_while_asked<L: Ledger + Send + Sync, R: Threads + Wait + Abort + Sync>(
    rt: &R,
    alloc: Global,
    blank: Blank,
    opening: &Plan,
    joined: &Plan,
) -> (Closed, bool)
    requires name { blank.name ≡ L.name }
    requires parts { blank.parts ≡ L.parts }
    requires two { blank.parts ≡ 2 }
{
    let (register, zero, one) = opened_for_two::<L>(rt, alloc, blank, opening);
    let shared = &register;
    let (zero, (one, falls)) = join(
        rt,
        || -> Caller<L>
            requires { IsCallerOf shared.now zero }
            ensures { IsCallerOf shared.entry.now result }
        { offered(rt, alloc, shared, zero, &[joined]) },
        || -> (Caller<L>, bool)
            requires { IsCallerOf shared.now one }
            ensures { IsCallerOf shared.entry.now result.0 }
        { ask_often(shared, one) },
    );
    (closed_for_two(rt, alloc, register, zero, one), falls)
}

// Asks 1,000 times, and answers whether the answers were 30 or 20 and never rose.
fn ask_often<L: Ledger>(register: &Register<L>, mut caller: Caller<L>) -> (Caller<L>, bool)
    requires { IsCallerOf register.now caller }
    ensures { IsCallerOf register.now result.0 }
{
    let mut falls = true;
    let mut last = 30;
    for _ in 0..1_000 {
        let least = register.least(&mut caller);
        falls = falls && (least == 30 || least == 20) && least <= last;
        last = least;
    }
    (caller, falls)
}

// The number of callers, all of whom but the first offer all plans, the number of offers, and the least cost.
const MANY: &[(u64, usize, u64)] = &[(1, 0, NO_COST), (8, 70, 2), (64, 630, 2)];

#[test]
fn many_callers(rt: HostRuntime) {
    let plans = falling_plans(&rt, rt.alloc());
    for &(callers, offers, least) in MANY {
        assert!(rt; 1 <= callers && callers <= 64);
        let blank = Blank::new(callers);
        let closed = closed_by_many::<Brand, HostRuntime>(
            &rt,
            rt.alloc(),
            blank,
            callers,
            plans.as_slice(),
        );
        let closed = closed.expect(&rt, "memory");
        assert_same(&rt, closed.book.entries(), offers, callers);
        assert_same(&rt, closed.least, least, callers);
        let kept = closed.book.plan().map_or(NO_COST, Plan::cost);
        assert_same(&rt, kept, least, callers);
        assert_costs_by_many(&rt, &closed.book, callers as u32);
    }
}

// Ten plans that cost 20, 18 and so on down to 2.
fn falling_plans(rt: &impl Abort, alloc: Global) -> Vec<Plan> {
    let mut plans = Vec::new(alloc);
    for distance in (1..=10).rev() {
        let plan = there_and_back(rt, alloc, distance);
        plans.push(plan).ok().expect(rt, "memory");
    }
    plans
}

// Each caller but the first has offered all plans, in their order.
fn assert_costs_by_many(rt: &impl Abort, book: &Book, callers: u32) {
    assert_costs_by(rt, book, 0, &[]);
    for caller in 1..callers {
        assert_costs_by(rt, book, caller, &[20, 18, 16, 14, 12, 10, 8, 6, 4, 2]);
    }
}

// The closed register that opened without a plan, after eight threads have offered these plans for all callers but the first.
fn closed_by_many<L: Ledger + Send + Sync, R: Threads + Wait + Sync>(
    rt: &R,
    alloc: Global,
    blank: Blank,
    count: u64,
    plans: &[Plan],
) -> Result<Closed, NoMemory>
    requires name { blank.name ≡ L.name }
    requires parts { blank.parts ≡ L.parts }
    requires count { blank.parts ≡ count }
    requires some { 1 ≤ count }
    requires few { count ≤ 64 }
{
    let (register, mut callers) = Register::<L>::new(alloc, None, blank, count as u32)?;
    offer_in_threads(rt, alloc, &register, callers.as_mut_slice(), plans);
    Ok(register.close(callers))
}

// Eight threads offer these plans for all callers but the first.
fn offer_in_threads<L: Ledger + Send + Sync, R: Threads + Wait + Sync>(
    rt: &R,
    alloc: Global,
    register: &Register<L>,
    callers: &mut [Caller<L>],
    plans: &[Plan],
)
    requires callers { All (IsCallerOf register.now) callers.old }
    ensures { All (IsCallerOf register.now) callers.new }
{
    thread::for_each_mut(
        rt,
        callers,
        8,
        &|index, caller: &mut Caller<L>|
            requires { IsCallerOf register.now caller.old }
            ensures { IsCallerOf register.entry.now caller.new }
        {
            if index > 0 {
                offer_all(rt, alloc, register, caller, plans);
            }
        },
    );
}

// Offers these plans, up to one that is refused.
fn offer_all<L: Ledger, R: Wait>(
    rt: &R,
    alloc: Global,
    register: &Register<L>,
    caller: &mut Caller<L>,
    plans: &[Plan],
)
    requires { IsCallerOf register.now caller.old }
    ensures { IsCallerOf register.now caller.new }
{
    for plan in plans {
        if register.offer(rt, alloc, caller, plan).is_err() {
            return;
        }
    }
}
