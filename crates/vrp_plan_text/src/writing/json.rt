//! A finding as JSON (RFC 8259).
ghost use Rattle.std.specs.Option.{ForSome, option_map};
ghost use Rattle.std.specs.Prelude.{◌≡◌, ◌≤◌, IfOk, OnOk, false, map, string_bytes};
ghost use Rattle.serde_json.specs.Data.{array, depth};
ghost use Rattle.serde_json.specs.View.{items_view, members_view, view};
ghost use Rattle.serde_json.specs.Written.{has_float};
ghost use Rattle.vrp_answer.specs.Finding.{told_by};
ghost use Rattle.vrp_plan_text.specs.Inner.Document.{document_of, with_answer, with_problem, with_run, with_settings};
ghost use Rattle.vrp_plan_text.specs.Inner.Routes.{AreRoutes, IsRoute};
ghost use Rattle.vrp_plan_text.specs.Json.{IsJsonOf, IsLineOf, context_by, customers_of, least_told, nodes_of, number_or_null, options_told, routes_told, text_or_null};
ghost use Rattle.vrp_plan_text.specs.Stops.{ArePlaces, HaveStopsIn};
ghost use Rattle.vrp_model.specs.Route.{IsPlanOf};

use crate::writing::gap::gap_of;
use serde_json::{Map, Value, json, put};
use std::alloc::{AllocError, Global};
use vrp_answer::Finding;
use vrp_model::{Instance, NoMemory, Plan, route_cost, route_load};

/// The options of a run.
#[derive(Clone, Copy, Debug, PartialEq, Eq, Drop)]
pub struct Settings {
    /// The number of threads that searched.
    pub workers: u32,
    /// The number of parts into which the search was cut.
    pub pieces: u32,
    /// The budget of partial plans for each part, if it was given.
    pub budget: Option<u64>,
    /// The limit of seconds, if there was one.
    pub seconds: Option<u32>,
    /// The node chosen as the depot, if any.
    pub depot: Option<u16>,
    /// The limit on trucks, if any.
    pub trucks: Option<u16>,
}

/// The context of a finding.
#[derive(Clone, Copy, Debug, PartialEq, Eq, Drop)]
pub struct Context<'a> {
    /// The file's name for itself, if it has one.
    pub name: Option<&'a str>,
    /// The program's version.
    pub version: &'a str,
    /// The stated cost of the start plan, if there is one and it is whole.
    pub stated_cost: Option<u64>,
    /// The options of the run.
    pub asked: Settings,
}

/// A finding as one JSON object on one line. It has the members `best_lower_bound`, `capacity`, `cost`, `cost_is_least`, `customers`,
/// `depot`, `gap`, `lower_bound`, `name`, `options`, `routes`, each of them with its `cost`, `customers`, `load` and `nodes`,
/// `stated_cost`, `verdict` and `version`. Nodes have the file's numbers, and the customers of a route have CVRPLIB's: from 1
/// by rising node, without the depot. The gap is cost minus best lower bound in hundredths of a percent of that bound,
/// rounded up. The cost is known to be least if the best lower bound is no lower. Unknown values are `null`, and without a plan there are no
/// routes.
pub fn json_text(
    alloc: Global,
    instance: &Instance,
    finding: &Finding<'_>,
    context: Context<'_>,
) -> Result<String, NoMemory>
    requires { ForSome (option_map (λ plan. plan.now) finding.now.plan) (IsPlanOf instance.now) }
    ensures { IfOk result (λ text. IsJsonOf instance.now (told_by finding.now) (context_by context.entry) (string_bytes text)) }
{
    let routes = routes_of(alloc, instance, finding.plan)?;
    let gap = gap_of(instance, finding);
    let told = Told {
        instance,
        finding,
        context,
    };
    let document = document(alloc, &told, gap, routes)?;
    Ok(line_of(alloc, document)?)
}

// The line of an object.
fn line_of(alloc: Global, object: Value) -> Result<String, AllocError>
    ensures { IfOk result (λ text. depth (view object) ≤ 4 → has_float (view object) ≡ false → IsLineOf (view object) (string_bytes text)) }
{
    let text = object.to_string(alloc);
    drop(object);
    let mut text = text?;
    text.push_str("\n")?;
    Ok(text)
}

// The finding and its context.
#[derive(Clone, Copy)]
struct Told<'a> {
    instance: &'a Instance,
    finding: &'a Finding<'a>,
    context: Context<'a>,
}

// The object, with this gap and these routes.
fn document(
    alloc: Global,
    told: &Told<'_>,
    gap: Option<u64>,
    routes: Vec<Value>,
) -> Result<Value, AllocError>
    ensures { IfOk result (λ value. view value ≡ document_of told.now.instance.now (told_by told.now.finding.now)
        (context_by told.now.context) gap (map view routes.items)) }
{
    // The members go into a lent map one by one: a failure then drops one value, which is cheaper to prove.
    let mut members = Map::new(alloc);
    put_run(alloc, &mut members, told)?;
    put_answer(alloc, &mut members, told, gap)?;
    put_problem(alloc, &mut members, told.instance)?;
    put(&mut members, alloc, "routes", Value::Array(routes))?;
    Ok(Value::Object(members))
}

// Adds what is known of the run: the file's name, the program's version and the options.
fn put_run(
    alloc: Global,
    members: &mut Map<String, Value>,
    told: &Told<'_>,
) -> Result<(), AllocError>
    ensures { OnOk result (members_view members.new.entries ≡ with_run (context_by told.now.context) (members_view members.old.entries)) }
{
    let context = told.context;
    put(members, alloc, "name", text_or_null(alloc, context.name)?)?;
    let version = Value::try_from_str(alloc, context.version)?;
    put(members, alloc, "version", version)?;
    put(members, alloc, "options", options_of(alloc, context.asked)?)
}

// Adds the verdict and the numbers beside it.
fn put_answer(
    alloc: Global,
    members: &mut Map<String, Value>,
    told: &Told<'_>,
    gap: Option<u64>,
) -> Result<(), AllocError>
    ensures { OnOk result (members_view members.new.entries ≡ with_answer (told_by told.now.finding.now) (context_by told.now.context) gap
        (members_view members.old.entries)) }
{
    let finding = told.finding;
    let verdict = Value::try_from_str(alloc, finding.status.as_str())?;
    put(members, alloc, "verdict", verdict)?;
    let cost = cost_of(finding.plan);
    put(members, alloc, "cost", or_null(cost))?;
    let least = least_or_null(cost, finding.best_lower_bound);
    put(members, alloc, "cost_is_least", least)?;
    let stated_cost = or_null(told.context.stated_cost);
    put(members, alloc, "stated_cost", stated_cost)?;
    let lower_bound = or_null(finding.lower_bound);
    put(members, alloc, "lower_bound", lower_bound)?;
    let best_lower_bound = or_null(finding.best_lower_bound);
    put(members, alloc, "best_lower_bound", best_lower_bound)?;
    put(members, alloc, "gap", or_null(gap))
}

// Adds what is known of the problem.
fn put_problem(
    alloc: Global,
    members: &mut Map<String, Value>,
    instance: &Instance,
) -> Result<(), AllocError>
    ensures { OnOk result (members_view members.new.entries ≡ with_problem instance.now (members_view members.old.entries)) }
{
    let customers = Value::from(instance.customers());
    put(members, alloc, "customers", customers)?;
    let capacity = Value::from(instance.capacity());
    put(members, alloc, "capacity", capacity)?;
    put(members, alloc, "depot", Value::from(instance.node(0)))
}

// The cost of a plan, if there is one.
fn cost_of(plan: Option<&Plan>) -> Option<u64>
    ensures { result ≡ option_map (λ plan. plan.cost) (option_map (λ plan. plan.now) plan.entry) }
{
    match plan {
        Some(plan) => Some(plan.cost()),
        None => None,
    }
}

// A number, or `null` if there is none.
fn or_null(number: Option<u64>) -> Value
    ensures { view result ≡ number_or_null number }
{
    match number {
        Some(number) => Value::from(number),
        None => Value::Null,
    }
}

// Whether no plan costs less, as far as the bound tells; `null` without a cost or a bound.
fn least_or_null(cost: Option<u64>, bound: Option<u64>) -> Value
    ensures { view result ≡ least_told cost bound }
{
    match (cost, bound) {
        (Some(cost), Some(bound)) => Value::Bool(cost <= bound),
        _ => Value::Null,
    }
}

// A text, or `null` if there is none.
fn text_or_null(alloc: Global, text: Option<&str>) -> Result<Value, AllocError>
    ensures { IfOk result (λ value. view value ≡ text_or_null (option_map (λ text. text.now) text.entry)) }
{
    match text {
        Some(text) => Value::try_from_str(alloc, text),
        None => Ok(Value::Null),
    }
}

// The options of the run, as an object.
fn options_of(alloc: Global, settings: Settings) -> Result<Value, AllocError>
    ensures { IfOk result (λ value. view value ≡ options_told settings) }
{
    let mut members = Map::new(alloc);
    put_settings(alloc, &mut members, settings)?;
    Ok(Value::Object(members))
}

// Adds the options of the run.
fn put_settings(
    alloc: Global,
    members: &mut Map<String, Value>,
    settings: Settings,
) -> Result<(), AllocError>
    ensures { OnOk result (members_view members.new.entries ≡ with_settings settings (members_view members.old.entries)) }
{
    put(members, alloc, "workers", Value::from(settings.workers))?;
    put(members, alloc, "pieces", Value::from(settings.pieces))?;
    let budget = Value::from(settings.budget);
    put(members, alloc, "budget", budget)?;
    let seconds = Value::from(settings.seconds);
    put(members, alloc, "seconds", seconds)?;
    let depot = Value::from(settings.depot);
    put(members, alloc, "depot", depot)?;
    let trucks = Value::from(settings.trucks);
    put(members, alloc, "trucks", trucks)
}

// The routes of a plan, if there is one.
fn routes_of(
    alloc: Global,
    instance: &Instance,
    plan: Option<&Plan>,
) -> Result<Vec<Value>, AllocError>
    requires { ForSome (option_map (λ plan. plan.now) plan) (IsPlanOf instance.now) }
    ensures { IfOk result (λ routes. AreRoutes instance.now (routes_told (option_map (λ plan. plan.now) plan.entry))
        (map view routes.items)) }
{
    // What is known of every instance.
    let _customers = instance.customers();
    match plan {
        Some(plan) => objects_of(alloc, instance, plan),
        None => Ok(Vec::new(alloc)),
    }
}

// The routes of a plan.
fn objects_of(alloc: Global, instance: &Instance, plan: &Plan) -> Result<Vec<Value>, AllocError>
    requires { HaveStopsIn instance.now plan.now.routes }
    ensures { IfOk result (λ routes. AreRoutes instance.now plan.now.routes (map view routes.items)) }
{
    let mut routes = Vec::new(alloc);
    for index in 0..plan.routes() {
        routes.push(route_of(alloc, instance, plan.route(index))?)?;
    }
    Ok(routes)
}

// A route with these stops.
fn route_of(alloc: Global, instance: &Instance, stops: &[u16]) -> Result<Value, AllocError>
    requires { ArePlaces instance.now stops.now }
    ensures { IfOk result (λ route. IsRoute instance.now stops.now (view route)) }
{
    // There is a depot.
    let _customers = instance.customers();
    let cost = route_cost(instance, stops);
    let load = route_load(instance, stops);
    let customers = customer_numbers(alloc, stops)?;
    let nodes = node_numbers(alloc, instance, stops)?;
    json!(in alloc; {"nodes": nodes, "customers": customers, "load": load, "cost": cost})
}

// CVRPLIB's numbers of these stops: their places.
fn customer_numbers(alloc: Global, stops: &[u16]) -> Result<Vec<Value>, AllocError>
    ensures { IfOk result (λ customers. array (items_view customers.items) ≡ customers_of stops.now) }
{
    let mut customers = Vec::with_capacity(alloc, stops.len())?;
    for place in stops {
        customers.push(Value::from(*place))?;
    }
    Ok(customers)
}

// The file's node numbers of these stops.
fn node_numbers(alloc: Global, instance: &Instance, stops: &[u16]) -> Result<Vec<Value>, AllocError>
    requires { ArePlaces instance.now stops.now }
    ensures { IfOk result (λ nodes. array (items_view nodes.items) ≡ nodes_of instance.now stops.now) }
{
    let mut nodes = Vec::with_capacity(alloc, stops.len())?;
    for place in stops {
        nodes.push(Value::from(instance.node(*place)))?;
    }
    Ok(nodes)
}
