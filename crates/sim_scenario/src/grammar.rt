//! What stands behind the first word of a step.

/// What a part of a word is.
#[derive(Clone, Copy, Debug)]
pub(crate) enum PartKind {
    // A number from the first to the second.
    Number(u64, u64),
    // A name.
    Name,
    // One of these words, which are said so.
    OneOf(&'static [&'static str], &'static str),
}

/// A word of parts that have a separator between them.
#[derive(Clone, Copy, Debug)]
pub(crate) struct Whole {
    /// What the word is.
    pub(crate) name: &'static str,
    /// What stands between its parts.
    pub(crate) separator: char,
    /// Its parts, by their names.
    pub(crate) parts: &'static [(&'static str, PartKind)],
}

/// What a word of a step is.
#[derive(Clone, Copy, Debug)]
pub(crate) enum Kind {
    // A server's number.
    Server,
    // A client's number.
    Client,
    // A node's number.
    Node,
    // A server's number, or a client's behind `c`.
    Actor,
    // Something that has one part.
    Plain(&'static str, PartKind),
    // Something that has more of them.
    Whole(Whole),
    // The groups of a job.
    Groups,
    // A list of at most 64 of these, or a dash; with its name, and theirs.
    Batch(&'static str, &'static str, Whole),
}

// The greatest place in the log, and what else is below 2^40.
const LAST: u64 = 1_099_511_627_775;

// The most that a group takes, and that a node has.
const MOST: u64 = 1_000_000;

const EVALUATION: Whole = Whole {
    name: "evaluation",
    separator: '.',
    parts: &[
        ("index", PartKind::Number(1, LAST)),
        ("slot", PartKind::Number(0, 255)),
    ],
};

const ALLOCATION: Whole = Whole {
    name: "allocation",
    separator: '.',
    parts: &[
        ("index", PartKind::Number(1, LAST)),
        ("slot", PartKind::Number(0, 63)),
    ],
};

const TOKEN: Whole = Whole {
    name: "token",
    separator: '.',
    parts: &[
        ("term", PartKind::Number(1, LAST)),
        ("serial", PartKind::Number(1, LAST)),
    ],
};

const PLACEMENT: Whole = Whole {
    name: "placement",
    separator: ':',
    parts: &[
        ("group", PartKind::Name),
        ("place", PartKind::Number(0, 63)),
        ("node", PartKind::Number(1, 64)),
    ],
};

/// A group of a job.
pub(crate) const GROUP: Whole = Whole {
    name: "group",
    separator: ':',
    parts: &[
        ("name", PartKind::Name),
        ("count", PartKind::Number(0, 64)),
        ("class", PartKind::Name),
        ("CPU", PartKind::Number(1, MOST)),
        ("memory", PartKind::Number(1, MOST)),
        ("disk", PartKind::Number(0, MOST)),
    ],
};

const JOB: Kind = Kind::Plain("job", PartKind::Name);

const INDEX: PartKind = PartKind::Number(0, LAST);

const SERVER: &[Kind] = &[Kind::Server];

const ASKED: &[Kind] = &[Kind::Server, Kind::Server];

const CLIENT_ASKED: &[Kind] = &[Kind::Client, Kind::Server];

const DELIVERED: &[Kind] = &[Kind::Plain("message", PartKind::Number(1, u64::MAX))];

/// What stands behind `flow` and behind `settle`.
pub(crate) const REPEATED: &[Kind] = &[Kind::Plain("number", PartKind::Number(0, u64::MAX))];

const ACTOR: &[Kind] = &[Kind::Actor];

const ENDED: &[Kind] = &[
    Kind::Client,
    Kind::Whole(ALLOCATION),
    Kind::Plain(
        "end",
        PartKind::OneOf(&["complete", "failed"], "complete or failed"),
    ),
];

const EXPIRED: &[Kind] = &[
    Kind::Server,
    Kind::Node,
    Kind::Plain("number of heartbeats", INDEX),
];

const DRAINED: &[Kind] = &[Kind::Server, Kind::Node];

const LAPSED: &[Kind] = &[Kind::Server, Kind::Whole(EVALUATION)];

const GIVEN_BACK: &[Kind] = &[
    Kind::Server,
    Kind::Server,
    Kind::Whole(EVALUATION),
    Kind::Whole(TOKEN),
];

const STATUS: Kind = Kind::Plain(
    "status",
    PartKind::OneOf(
        &["blocked", "complete", "failed"],
        "blocked, complete or failed",
    ),
);

const BLOCKED: &[Kind] = &[
    Kind::Server,
    Kind::Server,
    Kind::Whole(EVALUATION),
    Kind::Whole(TOKEN),
    STATUS,
    Kind::Plain("snapshot", INDEX),
];

const FINISHED: &[Kind] = &[
    Kind::Server,
    Kind::Server,
    Kind::Whole(EVALUATION),
    Kind::Whole(TOKEN),
    STATUS,
    Kind::Plain("snapshot", PartKind::OneOf(&["0"], "0")),
];

const SUBMITTED: &[Kind] = &[
    Kind::Server,
    Kind::Server,
    Kind::Whole(EVALUATION),
    Kind::Whole(TOKEN),
    JOB,
    Kind::Plain("version", INDEX),
    Kind::Plain("snapshot", INDEX),
    Kind::Batch("list of stops", "stops", ALLOCATION),
    Kind::Batch("list of places", "places", PLACEMENT),
];

const REQUEST: Kind = Kind::Plain(
    "request",
    PartKind::OneOf(
        &["put", "stop", "eval", "drain"],
        "put, stop, eval or drain",
    ),
);

const PUT: &[Kind] = &[
    Kind::Server,
    REQUEST,
    JOB,
    Kind::Plain("priority", PartKind::Number(1, 100)),
    Kind::Groups,
];

const OF_JOB: &[Kind] = &[Kind::Server, REQUEST, JOB];

const DRAIN: &[Kind] = &[
    Kind::Server,
    REQUEST,
    Kind::Node,
    Kind::Plain(
        "kind of drain",
        PartKind::OneOf(&["slow", "force"], "slow or force"),
    ),
];

const OTHER_REQUEST: &[Kind] = &[Kind::Server, REQUEST];

// The word at a place, from 0, of words with one space between.
fn word_at(words: &str, place: usize) -> &str {
    words.split(' ').nth(place).unwrap_or("")
}

/// What has to stand behind the first word of a step, by these words that stand there; none where no
/// step begins with the first.
pub(crate) fn kinds_of(verb: &str, words: &str) -> Option<&'static [Kind]> {
    Some(match verb {
        "timeout" | "beat" | "plan" | "free" | "reap" | "compact" | "work" => SERVER,
        "take" => ASKED,
        "register" | "ping" | "pull" => CLIENT_ASKED,
        "deliver" => DELIVERED,
        "flow" => REPEATED,
        "crash" | "restart" => ACTOR,
        "end" => ENDED,
        "expire" => EXPIRED,
        "drain" => DRAINED,
        "lapse" => LAPSED,
        _ => return more_kinds_of(verb, words),
    })
}

// The same, of steps that have more words.
fn more_kinds_of(verb: &str, words: &str) -> Option<&'static [Kind]> {
    Some(match verb {
        "nack" => GIVEN_BACK,
        "finish" if word_at(words, 4) == "blocked" => BLOCKED,
        "finish" => FINISHED,
        "submit" => SUBMITTED,
        "request" => request_kinds_of(word_at(words, 1)),
        _ => return None,
    })
}

// The same, of a request by what it asks for.
fn request_kinds_of(word: &str) -> &'static [Kind] {
    match word {
        "put" => PUT,
        "stop" | "eval" => OF_JOB,
        "drain" => DRAIN,
        _ => OTHER_REQUEST,
    }
}

/// What a word is called.
pub(crate) fn name_of(kind: &Kind) -> &'static str {
    match kind {
        Kind::Server => "server",
        Kind::Client => "client",
        Kind::Node => "node",
        Kind::Actor => "server or client",
        Kind::Plain(name, _) => name,
        Kind::Whole(whole) => whole.name,
        Kind::Groups => "list of groups",
        Kind::Batch(name, _, _) => name,
    }
}
