//! The questions of the clients, the replies that they receive, and what they say of them.

/// The ends of a question, the second of its day at which it leaves, its horizon, and the replies that are there.
pub(super) type Case = (&'static str, &'static str, u32, u32, &'static str);

pub(super) static CASES: [Case; 37] = [
    ("A", "D", 28_800, 86_400, "half_hours"),
    ("A", "D", 28_801, 86_400, "half_hours"),
    ("A", "D", 28_800, 1_860, "half_hours"),
    ("A", "D", 28_800, 1_859, "half_hours"),
    ("A", "D", 28_800, 0, "half_hours"),
    ("A", "A", 28_800, 604_801, "half_hours"),
    ("A", "A", 28_800, 86_400, "half_hours"),
    ("Y", "Z", 28_800, 86_400, "half_hours"),
    ("A", "Z", 28_800, 86_400, "half_hours"),
    ("A", "D", 28_800, 86_400, "each"),
    (
        "A",
        "D",
        28_800,
        86_400,
        "gate/08:00:00 stops page/08:00:00///abcdef",
    ),
    ("A", "D", 28_800, 86_400, "gate/ stops page////"),
    ("A", "D", 28_800, 3, "seconds"),
    // The tests of a reply in their order: each is failed by replies that pass those before it, alone and beside a later one.
    ("A", "D", 28_800, 86_400, "long/012345678"),
    ("A", "D", 28_800, 86_400, "long/0123456789"),
    ("A", "D", 28_800, 86_400, "gate/08:00:00 cut"),
    ("A", "D", 28_800, 86_400, "gate/08:00:00 stops gone"),
    ("A", "D", 28_800, 86_400, "fine/08:00:00"),
    ("A", "D", 28_800, 86_400, "ok"),
    ("A", "D", 28_800, 86_400, "none"),
    ("A", "D", 28_800, 86_400, "gate/08:00:00 none"),
    ("A", "D", 28_800, 86_400, "gate/08:00:00 stops found"),
    ("A", "D", 28_800, 86_400, "other/08:00:00"),
    ("A", "D", 28_800, 86_400, "found"),
    ("A", "D", 28_800, 86_400, "gate/08:00:00 ok"),
    (
        "A",
        "D",
        28_800,
        86_400,
        "gate/08:00:00 stops page/08:00:00/09:00:00//bacd",
    ),
    (
        "A",
        "D",
        28_800,
        86_400,
        "gate/08:00:00 stops page/09:00:00/10:00:00//fe",
    ),
    (
        "A",
        "D",
        28_800,
        86_400,
        "gate/08:00:00 stops plain/08:00:00/09:00:00//abcd",
    ),
    (
        "A",
        "D",
        28_800,
        86_400,
        "gate/08:00:00 stops page/09:00:00///e",
    ),
    (
        "A",
        "D",
        28_800,
        86_400,
        "gate/08:00:00 stops page/09:00:00/09:00:00//e",
    ),
    (
        "A",
        "D",
        28_800,
        86_400,
        "gate/08:00:00 stops page/08:00:00/08:11:00//a page/08:12:00/08:20:00//c",
    ),
    (
        "A",
        "D",
        28_800,
        86_400,
        "gate/08:00:00 stops page/08:00:00/08:00:00//abcd",
    ),
    (
        "A",
        "D",
        28_800,
        86_400,
        "gate/08:00:00 stops page/08:00:00/08:20:00//abcd",
    ),
    (
        "A",
        "D",
        28_800,
        86_400,
        "gate/08:00:00 stops page/08:00:00/09:00:00//bcd",
    ),
    (
        "A",
        "D",
        28_800,
        86_400,
        "gate/09:00:00 stops page/09:00:00/09:00:00/08:00:00/e",
    ),
    (
        "A",
        "D",
        28_800,
        86_400,
        "gate/09:00:00 stops page/09:00:00/10:00:00/08:00:00/e",
    ),
    (
        "A",
        "D",
        34_200,
        86_400,
        "gate/08:00:00 stops page/08:00:00/09:00:00//abcd",
    ),
];

/// The replies after which a client is asked what it requests.
pub(super) static REQUESTS: [Case; 3] = [
    ("A", "D", 28_800, 86_400, ""),
    ("A", "D", 28_800, 86_400, "gate/08:00:00"),
    ("A", "D", 28_800, 86_400, "gate/08:00:00 stops"),
];

/// The replies after which an exchange fails.
pub(super) static CUT_OFF: [Case; 1] = [("A", "D", 28_800, 86_400, "gate/08:00:00")];

/// Replies by one word: what a publisher of the small feed replies. Its pages are cut each half hour, or it has a page for each
/// connection. Of the latter the time gate names the first from its path on. There is a page a second, too.
pub(super) fn replies_of(words: &str) -> &str {
    match words {
        "half_hours" => {
            "gate/08:00:00 stops page/08:00:00/09:00:00//abcd page/09:00:00/10:00:00/08:00:00/e page/10:00:00//09:00:00/f"
        }
        "each" => {
            "path/08:00:00 stops page/08:00:00/08:11:00//a page/08:11:00/08:12:00/08:00:00/b page/08:12:00/08:20:00/08:11:00/c page/08:20:00/09:00:00/08:12:00/d page/09:00:00/10:00:00/08:20:00/e page/10:00:00//09:00:00/f"
        }
        "seconds" => {
            "gate/08:00:00 stops page/08:00:00/08:00:01//0 page/08:00:01/08:00:02//1 page/08:00:02/08:00:03//2 page/08:00:03/08:00:04//3 page/08:00:04///"
        }
        _ => words,
    }
}
