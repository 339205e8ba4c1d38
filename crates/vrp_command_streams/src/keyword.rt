//! Keywords that this program doesn't read, and what they are about.

// The keywords that state the number of trucks.
const TRUCKS: [&[u8]; 7] = [
    b"VEHICLES",
    b"TRUCKS",
    b"VEHICLE",
    b"NUM_VEHICLES",
    b"NUMBER_OF_VEHICLES",
    b"NUM_TRUCKS",
    b"NUMBER_OF_TRUCKS",
];

// A keyword of another problem.
#[derive(Clone, Copy)]
struct Other {
    keyword: &'static [u8],
    // The text that follows the keyword's name.
    states: &'static str,
}

const LENGTH: &str = "limits how long a route may be";

const TIME: &str = "limits how much time a route may take";

const STOP: &str = "is time that a stop takes, where the length of a route is limited";

const PICKUP: &str = "has trucks pick up goods on the way";

const CAPACITIES: &str = "gives trucks different capacities";

const ARCS: &str = "limits which ways a plan may take";

const OTHERS: [Other; 21] = [
    Other {
        keyword: b"DISTANCE",
        states: LENGTH,
    },
    Other {
        keyword: b"MAX_DISTANCE",
        states: LENGTH,
    },
    Other {
        keyword: b"VEHICLES_MAX_DISTANCE",
        states: LENGTH,
    },
    Other {
        keyword: b"DURATION",
        states: TIME,
    },
    Other {
        keyword: b"MAX_DURATION",
        states: TIME,
    },
    Other {
        keyword: b"VEHICLES_MAX_DURATION",
        states: TIME,
    },
    Other {
        keyword: b"SERVICE_TIME",
        states: STOP,
    },
    Other {
        keyword: b"SERVICE_TIME_SECTION",
        states: STOP,
    },
    Other {
        keyword: b"STANDTIME_SECTION",
        states: STOP,
    },
    Other {
        keyword: b"TIME_WINDOW_SECTION",
        states: "limits when a customer may be served",
    },
    Other {
        keyword: b"RELEASE_TIME_SECTION",
        states: "limits when a route may begin",
    },
    Other {
        keyword: b"PICKUP_SECTION",
        states: PICKUP,
    },
    Other {
        keyword: b"PICKUP_AND_DELIVERY_SECTION",
        states: PICKUP,
    },
    Other {
        keyword: b"BACKHAUL_SECTION",
        states: PICKUP,
    },
    Other {
        keyword: b"CAPACITY_SECTION",
        states: CAPACITIES,
    },
    Other {
        keyword: b"VEHICLES_DEPOT_SECTION",
        states: "gives trucks depots of their own",
    },
    Other {
        keyword: b"PRIZE_SECTION",
        states: "leaves it open which customers are served",
    },
    Other {
        keyword: b"FIXED_EDGES_SECTION",
        states: "fixes ways that a plan has to take",
    },
    Other {
        keyword: b"EDGE_DATA_FORMAT",
        states: ARCS,
    },
    Other {
        keyword: b"EDGE_DATA_SECTION",
        states: ARCS,
    },
    Other {
        keyword: b"TOUR_SECTION",
        states: "lists tours",
    },
];

/// Whether a keyword states the number of trucks.
pub(crate) fn counts_trucks(keyword: &[u8]) -> bool {
    TRUCKS.contains(&keyword)
}

/// The text that follows the name of a keyword of another problem.
pub(crate) fn other_problem(keyword: &[u8]) -> Option<&'static str> {
    for other in &OTHERS {
        if keyword == other.keyword {
            return Some(other.states);
        }
    }
    None
}
