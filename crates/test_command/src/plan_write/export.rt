//! A plan in each form, byte for byte.
use crate::plan_write::fixture::{
    BARE, CONTEXT, FOUR, TWO_ROUTES, assert_text, count, drawn, file_of, instance, plan, points,
    told,
};
use std::test::*;
use vrp_answer::{Finding, Status};
use vrp_command_streams::solution_text;
use vrp_model::{MAX_NODES, Plan};
use vrp_plan_text::{json_text, picture_text};

// Read as a solution, the text gives the same plan back.
#[test]
fn solutions(rt: HostRuntime) {
    let alloc = rt.alloc();
    let four = instance(&rt, alloc, FOUR);
    let plan = plan(&rt, alloc, &four, TWO_ROUTES);
    let text = solution_text(alloc, &Finding::lawful(&plan)).expect(&rt, "memory");
    assert_text(&rt, text.as_str(), TWO_ROUTES);
}

// The customers are the nodes except the depot, numbered from 1. 17 is 1 below 18, and 1 of 17 is 588.2 hundredths of a
// percent.
const TWO_ROUTES_JSON: &str =
    "{\"best_lower_bound\":17,\"capacity\":10,\"cost\":18,\"cost_is_least\":false,\"customers\":3,\"depot\":2,\"gap\":589,\"lower_bound\":9,\"name\":\"four\",\"options\":{\"budget\":1000,\"depot\":2,\"pieces\":64,\"seconds\":null,\"trucks\":null,\"workers\":2},\"routes\":[{\"cost\":12,\"customers\":[1,2],\"load\":9,\"nodes\":[1,3]},{\"cost\":6,\"customers\":[3],\"load\":7,\"nodes\":[4]}],\"stated_cost\":18,\"verdict\":\"Open\",\"version\":\"1.2.3\"}\n";

const NO_PLAN_JSON: &str =
    "{\"best_lower_bound\":null,\"capacity\":10,\"cost\":null,\"cost_is_least\":null,\"customers\":3,\"depot\":2,\"gap\":null,\"lower_bound\":null,\"name\":null,\"options\":{\"budget\":null,\"depot\":null,\"pieces\":1,\"seconds\":60,\"trucks\":1,\"workers\":1},\"routes\":[],\"stated_cost\":null,\"verdict\":\"NoPlan\",\"version\":\"\"}\n";

#[test]
fn objects(rt: HostRuntime) {
    let alloc = rt.alloc();
    let four = instance(&rt, alloc, FOUR);
    let plan = plan(&rt, alloc, &four, TWO_ROUTES);
    let open = Finding {
        lower_bound: Some(9),
        ..told(Some(&plan), Status::Open, Some(17))
    };
    let text = json_text(alloc, &four, &open, CONTEXT).expect(&rt, "memory");
    assert_text(&rt, text.as_str(), TWO_ROUTES_JSON);
    let none = told(None, Status::NoPlan, None);
    let text = json_text(alloc, &four, &none, BARE).expect(&rt, "memory");
    assert_text(&rt, text.as_str(), NO_PLAN_JSON);
}

// The verdict on a plan of cost 18, the best bound, and the gap by that. The other bound is 0.
const GAPS: &[(Status, Option<u64>, &str)] = &[
    (Status::Proven, Some(18), "0"),
    (Status::Open, Some(18), "0"),
    (Status::Open, Some(17), "589"),
    (Status::Open, Some(16), "1250"),
    (Status::Open, Some(9), "10000"),
    (Status::Open, Some(7), "15715"),
    (Status::Open, Some(1), "170000"),
    (Status::Open, Some(0), "null"),
    (Status::Lawful, None, "null"),
];

#[test]
fn gaps(rt: HostRuntime) {
    let alloc = rt.alloc();
    let four = instance(&rt, alloc, FOUR);
    let plan = plan(&rt, alloc, &four, TWO_ROUTES);
    for (status, best_lower_bound, gap) in GAPS {
        let finding = Finding {
            lower_bound: Some(0),
            ..told(Some(&plan), *status, *best_lower_bound)
        };
        let text = json_text(alloc, &four, &finding, CONTEXT).expect(&rt, "memory");
        let wanted = format!(in alloc; "\"gap\":{gap},").expect(&rt, "memory");
        assert!(&rt;
            text.as_str().contains(wanted.as_str()),
            "{}",
            text.as_str()
        );
    }
}

// Six units of the plane are 9,200 of the page, and the depot's point is halfway between the left and the right one.
const TWO_ROUTES_SVG: &str = concat!(
    "<svg xmlns=\"http://www.w3.org/2000/svg\" viewBox=\"0 0 14220 7333\" width=\"1422\" height=\"733\" font-family=\"sans-serif\">\n",
    "<title>Cost 18, lower bound 17, Open</title>\n",
    "<rect width=\"14220\" height=\"7333\" fill=\"#ffffff\"/>\n",
    "<g fill=\"none\" stroke-width=\"36\" stroke-linejoin=\"round\">\n",
    "<path stroke=\"#14213d\" stroke-dasharray=\"none\" d=\"M5000 6533L5000 400L9600 6533Z\"><title>Route #1: load 9 of 10, cost 12</title></path>\n",
    "<path stroke=\"#d98200\" stroke-dasharray=\"220 90\" d=\"M5000 6533L400 6533Z\"><title>Route #2: load 7 of 10, cost 6</title></path>\n",
    "</g>\n",
    "<g font-size=\"170\" stroke=\"#ffffff\" stroke-width=\"40\" paint-order=\"stroke\">\n",
    "<text x=\"5130\" y=\"6403\">2</text>\n",
    "<text x=\"5070\" y=\"330\">1</text>\n",
    "<text x=\"9670\" y=\"6463\">3</text>\n",
    "<text x=\"470\" y=\"6463\">4</text>\n",
    "</g>\n",
    "<rect x=\"4890\" y=\"6423\" width=\"220\" height=\"220\"><title>depot, node 2</title></rect>\n",
    "<circle cx=\"5000\" cy=\"400\" r=\"50\"><title>node 1, demand 5</title></circle>\n",
    "<circle cx=\"9600\" cy=\"6533\" r=\"50\"><title>node 3, demand 4</title></circle>\n",
    "<circle cx=\"400\" cy=\"6533\" r=\"50\"><title>node 4, demand 7</title></circle>\n",
    "<g font-size=\"200\" stroke-width=\"36\">\n",
    "<path stroke=\"#14213d\" stroke-dasharray=\"none\" d=\"M10000 400h600\"/>\n",
    "<text x=\"10700\" y=\"470\">#1: load 9 of 10, cost 12</text>\n",
    "<path stroke=\"#d98200\" stroke-dasharray=\"220 90\" d=\"M10000 720h600\"/>\n",
    "<text x=\"10700\" y=\"790\">#2: load 7 of 10, cost 6</text>\n",
    "</g>\n",
    "<text x=\"400\" y=\"7033\" font-size=\"280\">Cost 18, lower bound 17, Open</text>\n",
    "</svg>\n",
);

#[test]
fn pictures(rt: HostRuntime) {
    let text = drawn(&rt, rt.alloc(), FOUR, Status::Open, Some(17));
    let text = text.expect(&rt, "a picture");
    assert_text(&rt, text.as_str(), TWO_ROUTES_SVG);
}

// The verdict and the bound, and the caption below the map.
const CAPTIONS: &[(Status, Option<u64>, &str)] = &[
    (Status::Proven, Some(18), ">Cost 18, Proven</text>\n"),
    (
        Status::Open,
        Some(0),
        ">Cost 18, lower bound 0, Open</text>\n",
    ),
    (Status::Lawful, None, ">Cost 18, Lawful</text>\n"),
];

#[test]
fn captions(rt: HostRuntime) {
    for (status, lower_bound, caption) in CAPTIONS {
        let text = drawn(&rt, rt.alloc(), FOUR, *status, *lower_bound);
        let text = text.expect(&rt, "a picture");
        assert!(&rt; text.as_str().contains(*caption), "{}", text.as_str());
    }
}

// The places are drawn, without routes.
#[test]
fn no_plan(rt: HostRuntime) {
    let alloc = rt.alloc();
    let four = instance(&rt, alloc, FOUR);
    let points = points(&rt, alloc, FOUR, &four);
    let none = told(None, Status::NoPlan, None);
    let text = picture_text(alloc, &four, &none, &points).expect(&rt, "memory");
    let text = text.as_str();
    assert!(&rt; text.contains(">NoPlan</text>"), "{text}");
    assert!(&rt;
        (count(text, "<path"), count(text, "<circle")) == (0, 3),
        "{text}"
    );
}

// The corners of the picture of the four places, by the coordinates of a file.
const CORNERS: &str = "M5000 6533L5000 400L9600 6533Z";

// Sections of a file, and whether they have whole coordinates for the four places, which are always the same.
const SECTIONS: &[(&str, bool)] = &[
    ("NODE_COORD_SECTION\n1 0 4\n2 0 0\n3 3 0\n4 -3 0\n", true),
    (
        "NODE_COORD_SECTION\n4 -3 0\n1 0 4\n3 3 0\n2 0 0\nEOF\n",
        true,
    ),
    ("NODE_COORD_SECTION\n1 0\n4 2 0 0 3\n3.0 0 4 -3e0 0\n", true),
    ("DISPLAY_DATA_SECTION\n1 0 4\n2 0 0\n3 3 0\n4 -3 0\n", true),
    (
        "NODE_COORD_SECTION\n1 0 4.5\nDISPLAY_DATA_SECTION\n1 0 4\n2 0 0\n3 3 0\n4 -3 0\n",
        true,
    ),
    (
        "NODE_COORD_SECTION\n1 0 4\n2 0 0\n3 3 0\n4 -3 0\nDISPLAY_DATA_SECTION\n1 9 9\n2 1 1\n3 3 0\n4 -3 0\n",
        true,
    ),
    (
        "NODE_COORD_SECTION\n1 0 4\n2 0 0\n3 3 0\n4 -3 0\n5 7 7\n",
        true,
    ),
    ("NODE_COORD_SECTION\n1 0 4.5\n2 0 0\n3 3 0\n4 -3 0\n", false),
    ("NODE_COORD_SECTION\n1 0 4\n2 0 0\n3 3 0\n", false),
    ("NODE_COORD_SECTION\n1 0 4\n2 0 0\n3 3 0\n4 -3 x\n", false),
    (
        "NODE_COORD_SECTION\n1 0 4\n2 0 0\n3 3 0\n4 -3 100000001\n",
        false,
    ),
    ("NODE_COORD_SECTION\n-1 0 4\n2 0 0\n3 3 0\n4 -3 0\n", false),
    ("DEMAND_SECTION\n1 0 4\n2 0 0\n3 3 0\n4 -3 0\n", false),
    ("", false),
];

#[test]
fn coordinates(rt: HostRuntime) {
    for (sections, wanted) in SECTIONS {
        let text = drawn(&rt, rt.alloc(), sections, Status::Lawful, None);
        assert!(&rt; text.is_some() == *wanted, "{sections}");
        if let Some(text) = text {
            assert!(&rt; text.as_str().contains(CORNERS), "{sections}");
        }
    }
}

// The greatest number of routes.
#[test]
fn largest(rt: HostRuntime) {
    let alloc = rt.alloc();
    let file = file_of(&rt, alloc, MAX_NODES, 0);
    let instance = instance(&rt, alloc, file.as_str());
    let plan = Plan::singles(alloc, &instance)
        .expect(&rt, "memory")
        .expect(&rt, "trucks");
    let points = points(&rt, alloc, file.as_str(), &instance);
    let finding = told(Some(&plan), Status::Open, Some(0));
    let text = solution_text(alloc, &finding).expect(&rt, "memory");
    assert!(&rt; text.as_str().ends_with("\nRoute #1199: 1199\nCost 0\n"));
    assert!(&rt; count(text.as_str(), "Route #") == 1_199);
    let text = json_text(alloc, &instance, &finding, CONTEXT).expect(&rt, "memory");
    assert!(&rt; count(text.as_str(), "\"nodes\":[") == 1_199);
    assert!(&rt; count(text.as_str(), "\"customers\":[") == 1_199);
    assert!(&rt; count(text.as_str(), "\"gap\":0,") == 1);
    let text = picture_text(alloc, &instance, &finding, &points).expect(&rt, "memory");
    assert!(&rt; count(text.as_str(), "r=\"22\"") == 1_199);
    assert!(&rt; count(text.as_str(), "<path") == 2 * 1_199);
    assert!(&rt; count(text.as_str(), "<text") == 1);
}
