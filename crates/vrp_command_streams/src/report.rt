//! The report: a line for each route and the cost, if there is a plan, and the verdict. Also a plan in CVRPLIB's format: the
//! same lines with other numbers.
ghost use Rattle.std.specs.Prelude.{◌≡◌, ◌+◌, Some, OnOk, IfOk, ◌++◌, decimal, string_bytes, All};
ghost use Rattle.std.specs.Option.{ForSome, option_map};
ghost use Rattle.vrp_answer.specs.Finding.{told_by};
ghost use Rattle.vrp_command_streams.specs.StopNumbers.{HasNumber, HaveNumbers, number_in};
ghost use Rattle.vrp_command_streams.specs.Report.{HasStopsIn, cost_line, plan_lines, report_of, route_line, route_lines, solution_of, stops_text, verdict_line};

use itoa::Buffer;
use std::alloc::{AllocError, Global};
use vrp_answer::{Finding, Status};
use vrp_model::{Instance, Plan};

/// The report of a finding for the instance.
pub fn report_text(
    alloc: Global,
    instance: &Instance,
    finding: &Finding<'_>,
) -> Result<String, AllocError>
    requires { ForSome (option_map (λ plan. plan.now) finding.now.plan) (λ plan. HasStopsIn instance.now plan.routes) }
    ensures { IfOk result (λ text. string_bytes text ≡ report_of instance.now (told_by finding.now)) }
{
    let mut text = String::new(alloc);
    if let Some(plan) = finding.plan {
        push_plan(&mut text, StopNumbers::Nodes(instance), plan)?;
    }
    push_verdict(&mut text, finding)?;
    Ok(text)
}

/// The plan of a finding in CVRPLIB's `.sol` format: a line `Route #1: 5 2` for each route and the line `Cost 521`. Customers
/// have the numbers of their places: from 1 by rising node, without the depot. Without a plan the text is empty.
pub fn solution_text(alloc: Global, finding: &Finding<'_>) -> Result<String, AllocError>
    ensures { IfOk result (λ text. string_bytes text ≡ solution_of (told_by finding.now)) }
{
    let mut text = String::new(alloc);
    if let Some(plan) = finding.plan {
        push_plan(&mut text, StopNumbers::Places, plan)?;
    }
    Ok(text)
}

// The numbers by which the stops of a plan are printed.
#[derive(Clone, Copy)]
enum StopNumbers<'a> {
    // The instance's node numbers.
    Nodes(&'a Instance),
    // The numbers of the places.
    Places,
}

impl StopNumbers<'_> {
    // The number of a place.
    fn number(self, place: u16) -> u16
        requires { HasNumber self place }
        ensures { result ≡ number_in self.entry place }
    {
        match self {
            StopNumbers::Nodes(instance) => instance.node(place),
            StopNumbers::Places => place,
        }
    }
}

// Appends the lines of a plan.
fn push_plan(text: &mut String, numbering: StopNumbers<'_>, plan: &Plan) -> Result<(), AllocError>
    requires { HaveNumbers numbering plan.now.routes }
    ensures { OnOk result (string_bytes text.new ≡ string_bytes text.old ++ plan_lines (number_in numbering.entry) (Some plan.now)) }
{
    push_routes(text, numbering, plan)?;
    push_cost(text, plan.cost())
}

// Appends a line for each route.
fn push_routes(text: &mut String, numbering: StopNumbers<'_>, plan: &Plan) -> Result<(), AllocError>
    requires { HaveNumbers numbering plan.now.routes }
    ensures { OnOk result (string_bytes text.new ≡ string_bytes text.old ++ route_lines (number_in numbering.entry) 1 plan.now.routes) }
{
    for index in 0..plan.routes() {
        push_route(text, numbering, index + 1, plan.route(index))?;
    }
    Ok(())
}

// Appends the line of one route, which has this number.
fn push_route(
    text: &mut String,
    numbering: StopNumbers<'_>,
    number: usize,
    route: &[u16],
) -> Result<(), AllocError>
    requires { All (HasNumber numbering) route.now }
    ensures { OnOk result (string_bytes text.new ≡ string_bytes text.old ++ route_line (number_in numbering.entry) number route.now) }
{
    text.push_str("Route #")?;
    push_number(text, number as u64)?;
    text.push_str(":")?;
    push_stops(text, numbering, route)?;
    text.push_str("\n")?;
    Ok(())
}

// Appends a space and the number of each stop.
fn push_stops(
    text: &mut String,
    numbering: StopNumbers<'_>,
    route: &[u16],
) -> Result<(), AllocError>
    requires { All (HasNumber numbering) route.now }
    ensures { OnOk result (string_bytes text.new ≡ string_bytes text.old ++ stops_text (number_in numbering.entry) route.now) }
{
    for place in route {
        text.push_str(" ")?;
        push_number(text, u64::from(numbering.number(*place)))?;
    }
    Ok(())
}

// Appends the line of the cost.
fn push_cost(text: &mut String, cost: u64) -> Result<(), AllocError>
    ensures { OnOk result (string_bytes text.new ≡ string_bytes text.old ++ cost_line cost) }
{
    text.push_str("Cost ")?;
    push_number(text, cost)?;
    text.push_str("\n")?;
    Ok(())
}

// Appends the last line.
fn push_verdict(text: &mut String, finding: &Finding<'_>) -> Result<(), AllocError>
    ensures { OnOk result (string_bytes text.new
        ≡ string_bytes text.old ++ verdict_line finding.now.status finding.now.lower_bound) }
{
    match finding.status {
        Status::Proven => text.push_str("Proven\n")?,
        Status::NoPlan => text.push_str("NoPlan\n")?,
        Status::Lawful => text.push_str("Lawful\n")?,
        Status::Open => {
            text.push_str("Open ")?;
            push_number(text, finding.lower_bound.unwrap_or(0))?;
            text.push_str("\n")?;
        }
    }
    Ok(())
}

// Appends a number in decimal.
fn push_number(text: &mut String, number: u64) -> Result<(), AllocError>
    ensures { OnOk result (string_bytes text.new ≡ string_bytes text.old ++ decimal number) }
{
    let mut buffer = Buffer::new();
    text.push_str(buffer.format(number))?;
    Ok(())
}
