//! Solutions in many spellings, and refused ones.
use std::alloc::Global;
use std::process::Abort;
use std::test::*;
use test_fixtures::with_arcs;
use vrp_model::{Instance, MAX_NODES};
use vrp_plan_text::{Solution, SolutionError};

// Five nodes on a line, a step apart, the depot at one end.
const LINE: &[u64] = &[
    0, 1, 2, 3, 4, 1, 0, 1, 2, 3, 2, 1, 0, 1, 2, 3, 2, 1, 0, 1, 4, 3, 2, 1, 0,
];

// Five nodes on a line where a step back costs two more.
const SLOPE: &[u64] = &[
    0, 1, 2, 3, 4, 3, 0, 1, 2, 3, 4, 3, 0, 1, 2, 5, 4, 3, 0, 1, 6, 5, 4, 3, 0,
];

// The demands of four customers. The capacity is three.
const ONE_EACH: &[u64] = &[0, 1, 1, 1, 1];

// An instance by the full matrix of its weights, with capacity three, and this limit on trucks, if any.
fn instance(
    rt: &impl Abort,
    alloc: Global,
    arcs: &[u64],
    demands: &[u64],
    trucks: Option<u16>,
) -> Instance {
    let instance = with_arcs(alloc, arcs, demands, 3).expect(rt, "an instance");
    let Some(trucks) = trucks else {
        return instance;
    };
    assert!(rt; 1 <= trucks && trucks <= MAX_NODES);
    instance.with_trucks(trucks)
}

// The word and the cost of a text's plan, and whether the text states a wrong cost.
type Read<'a> = Result<(&'a [u16], u64, bool), SolutionError>;

// Asserts the result of reading a text.
fn assert_read(rt: &impl Abort, alloc: Global, instance: &Instance, text: &str, wanted: Read<'_>) {
    match Solution::read(alloc, text.as_bytes(), instance) {
        Ok(
            Solution {
                plan,
                states_other_cost,
                ..
            },
        ) => assert!(rt;
            Ok((plan.word(), plan.cost(), states_other_cost)) == wanted,
            "{text}: {plan:?}"
        ),
        Err(error) => assert!(rt; Err(error) == wanted, "{text}: {error}"),
    }
}

const TWO: &[u16] = &[1, 2, 0, 3, 4, 0];

// Spellings that people use.
const SPELLINGS: &[(&str, bool)] = &[
    ("Route #1: 1 2\nRoute #2: 3 4\nCost 12\n", false),
    ("Route #1: 1 2\nRoute #2: 3 4\nCost 12", false),
    ("Route #1: 1 2\r\nRoute #2: 3 4\r\nCost 12\r\n", false),
    ("route #1: 1 2\nroute #2: 3 4\ncost 12\n", false),
    ("ROUTE #1: 1 2\nROUTE #2: 3 4\nCOST 12\n", false),
    ("Route #1: 1 2\nRoute #2: 3 4\n", false),
    ("Route #1: 1 2\nRoute #2: 3 4\nCost 12.0\n", false),
    ("Route #1: 1 2\nRoute #2: 3 4\nCost 12.00000\n", false),
    ("Route #1: 1 2\nRoute #2: 3 4\nCost 1.2e1\n", false),
    ("Route #1: 1 2\nRoute #2: 3 4\nCost: 12\n", false),
    (
        "\n\nRoute #1: 1 2\n \t\nRoute #2: 3 4\n\nCost 12\n\n",
        false,
    ),
    (
        "  Route\t#1 :  1\t2  \nRoute # 2: 3 4 \n Cost  12 \n",
        false,
    ),
    ("Route 1: 1 2\nRoute 2: 3 4\n", false),
    ("Cost 12\nRoute #2: 3 4\nRoute #1: 1 2\n", false),
    ("Route #1: 2 1\nRoute #2: 4 3\nCost 12\n", false),
    ("Route #7: 4 3\nRoute #7: 1 2\nRoute #3:\nCost 12\n", false),
    ("Route #1:1 2\nRoute #2:3 4\nCost 12\n", false),
    ("Route #1: 1 2\nRoute #2: 3 4\nCost 13\n", true),
    ("Route #1: 1 2\nRoute #2: 3 4\nCost 11.9\n", true),
];

#[test]
fn spellings(rt: HostRuntime) {
    let instance = instance(&rt, rt.alloc(), LINE, ONE_EACH, None);
    for (text, other) in SPELLINGS {
        assert_read(&rt, rt.alloc(), &instance, text, Ok((TWO, 12, *other)));
    }
}

// Texts, and their stated costs.
const STATED: &[(&str, Option<u64>)] = &[
    ("Route #1: 1 2\nRoute #2: 3 4\nCost 12\n", Some(12)),
    ("cost: 1.3e1\nRoute #1: 1 2\nRoute #2: 3 4\n", Some(13)),
    ("Route #1: 1 2\nRoute #2: 3 4\nCost 0\n", Some(0)),
    ("Route #1: 1 2\nRoute #2: 3 4\nCost 11.9\n", None),
    ("Route #1: 1 2\nRoute #2: 3 4\n", None),
];

#[test]
fn stated_costs(rt: HostRuntime) {
    let instance = instance(&rt, rt.alloc(), LINE, ONE_EACH, None);
    for (text, cost) in STATED {
        match Solution::read(rt.alloc(), text.as_bytes(), &instance) {
            Ok(solution) => assert!(&rt; solution.stated_cost == *cost, "{text}"),
            Err(error) => assert!(&rt; false, "{text}: {error}"),
        }
    }
}

// Texts that are not a solution, or not one of a feasible plan.
const REFUSED: &[(&str, SolutionError, &str)] = &[
    (
        "Route #1: 1 2\nhello\n",
        SolutionError::UnknownLine(2),
        "line 2: neither a route nor a cost",
    ),
    (
        "Route #1 1 2\n",
        SolutionError::UnknownLine(1),
        "line 1: neither a route nor a cost",
    ),
    (
        "Cost\n",
        SolutionError::UnknownLine(1),
        "line 1: neither a route nor a cost",
    ),
    (
        "Cost 1 2\n",
        SolutionError::UnknownLine(1),
        "line 1: neither a route nor a cost",
    ),
    (
        "Route: 1 2\n",
        SolutionError::UnknownLine(1),
        "line 1: neither a route nor a cost",
    ),
    (
        "Route #1 2: 1 2\n",
        SolutionError::UnknownLine(1),
        "line 1: neither a route nor a cost",
    ),
    (
        "\n\nRoute #1: 1 x\n",
        SolutionError::BadNumber(3),
        "line 3: bad number",
    ),
    (
        "Route #one: 1\n",
        SolutionError::BadNumber(1),
        "line 1: bad number",
    ),
    (
        "Route #-1: 1\n",
        SolutionError::BadNumber(1),
        "line 1: bad number",
    ),
    (
        "Route #1: 1.5\n",
        SolutionError::BadNumber(1),
        "line 1: bad number",
    ),
    (
        "Cost much\n",
        SolutionError::BadNumber(1),
        "line 1: bad number",
    ),
    (
        "Cost 12\nRoute #1: 1 2\nCost 12\n",
        SolutionError::RepeatedCost(3),
        "line 3: repeated cost",
    ),
    (
        "Route #1: 1 2\nRoute #2: 3 5\n",
        SolutionError::NotACustomer {
            route: 2,
            customer: 5,
        },
        "route 2: 5 is not a customer",
    ),
    (
        "Route #1: 0 1 2 0\nRoute #2: 3 4\n",
        SolutionError::NotACustomer {
            route: 1,
            customer: 0,
        },
        "route 1: 0 is not a customer",
    ),
    (
        "Route #1: -1 2\n",
        SolutionError::NotACustomer {
            route: 1,
            customer: -1,
        },
        "route 1: -1 is not a customer",
    ),
    (
        "Route #1: 65537 2\n",
        SolutionError::NotACustomer {
            route: 1,
            customer: 65_537,
        },
        "route 1: 65537 is not a customer",
    ),
    (
        "Route #1: 1 2\nRoute #2: 3 4\nRoute #3: 2\n",
        SolutionError::ServedTwice {
            route: 3,
            customer: 2,
        },
        "route 3: customer 2 is served twice",
    ),
    (
        "Route #1: 1 2 1\nRoute #2: 3 4\n",
        SolutionError::ServedTwice {
            route: 1,
            customer: 1,
        },
        "route 1: customer 1 is served twice",
    ),
    (
        "Route #1: 1 2\nRoute #2: 4\n",
        SolutionError::NotServed(3),
        "customer 3 is not served",
    ),
    ("", SolutionError::NotServed(1), "customer 1 is not served"),
    (
        "Route #1: 1 2 3 4\n",
        SolutionError::Overloaded {
            route: 1,
            load: 4,
            capacity: 3,
        },
        "route 1: load 4 above capacity 3",
    ),
    (
        "Route #1: 1 2\nRoute #2: 3\nRoute #3: 4\n",
        SolutionError::TooManyRoutes { routes: 3 },
        "3 routes, more than there are trucks",
    ),
];

#[test]
fn refusals(rt: HostRuntime) {
    let instance = instance(&rt, rt.alloc(), LINE, ONE_EACH, Some(2));
    for (text, error, told) in REFUSED {
        assert_read(&rt, rt.alloc(), &instance, text, Err(*error));
        assert_told(&rt, rt.alloc(), *error, told);
    }
}

// Asserts the text of a refusal.
fn assert_told(rt: &impl Abort, alloc: Global, error: SolutionError, told: &str) {
    let line = error.to_string(alloc).expect(rt, "memory");
    assert!(rt; line.as_str() == told, "{line}");
}

#[test]
fn one_direction(rt: HostRuntime) {
    // A step up costs one and a step down three, so a route isn't reversed.
    let instance = instance(&rt, rt.alloc(), SLOPE, ONE_EACH, None);
    let up = Ok(([1, 2, 0, 3, 4, 0].as_slice(), 16, false));
    assert_read(
        &rt,
        rt.alloc(),
        &instance,
        "Route #1: 1 2\nRoute #2: 3 4\n",
        up,
    );
    let down = Ok(([2, 1, 0, 4, 3, 0].as_slice(), 20, false));
    assert_read(
        &rt,
        rt.alloc(),
        &instance,
        "Route #1: 4 3\nRoute #2: 2 1\n",
        down,
    );
}

#[test]
fn no_customers(rt: HostRuntime) {
    let instance = instance(&rt, rt.alloc(), &[0], &[0], None);
    assert_read(&rt, rt.alloc(), &instance, "Cost 0\n", Ok((&[], 0, false)));
}

// A text with a route for each of these customers, high numbers first.
fn singles(rt: &impl Abort, alloc: Global, customers: u16) -> String {
    let mut text = String::new(alloc);
    for customer in (1..customers).rev() {
        let line = format!(in alloc; "Route #1: {customer}\n").expect(rt, "memory");
        text.push_str(&line).expect(rt, "memory");
    }
    text
}

#[test]
fn as_many_as_there_may_be(rt: HostRuntime) {
    let arcs = Vec::from_elem(rt.alloc(), 1u64, 1_200 * 1_200).expect(&rt, "memory");
    let demands = Vec::from_elem(rt.alloc(), 0u64, 1_200).expect(&rt, "memory");
    let instance = instance(&rt, rt.alloc(), &arcs, &demands, None);
    let text = singles(&rt, rt.alloc(), 1_200);
    let solution = Solution::read(rt.alloc(), text.as_bytes(), &instance).expect(&rt, "a plan");
    let plan = &solution.plan;
    assert!(rt; plan.routes() == 1_199 && plan.cost() == 2_398);
}
