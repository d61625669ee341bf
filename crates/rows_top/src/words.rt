//! Arguments that are run over the feed Tiny.

/// A line for each case: by hand from the ten minutes of Tiny at B and its two minutes of change. A page has half an hour of departures:
/// those of 08:00, 09:00 and 10:00. The lines with `--cuts` show how many exchanges a question takes. They have a page for each departure,
/// one page, or half an hour in each. A blank line has no argument at all. The lines of `drill` are those of `bench/drill.py`.
pub const WORDS: &str = "ask tiny A D 2024-05-01T08:00:00Z
ask --days=3 tiny -- A D 2024-05-01T08:00:00Z
ask tiny A D 2024-05-01T08:00:01Z
ask tiny A D 2024-05-01T08:00:00Z --days 1
ask tiny A D 2024-05-01T08:00:00Z --change 121
ask tiny A D 2024-05-01T08:00:00Z --horizon 1860
ask tiny A D 2024-05-01T08:00:00Z --horizon 1859
ask tiny A D 2024-05-01T08:00:00Z --horizon=604800
ask tiny A D 2024-05-01T08:00:00Z --horizon 0
ask tiny X X 2024-05-01T08:00:00Z --horizon 604801
ask tiny A D 2024-05-01T08:00:00Z --horizon 4294967296
ask tiny A D yesterday
ask tiny A D 2024-05-01T08:00:00Z --cache 0
ask tiny A D 2024-05-01T08:00:00Z --base http://lc.example/a!b/
ask tiny A D 2024-05-01T08:00:00Z --days 3 --days 3
ask tiny A D 1970-01-10T23:59:59Z
ask tiny A A 2024-05-01T08:00:00Z
ask tiny X D 2024-05-01T08:00:00Z
ask tiny A X 2024-05-01T08:00:00Z
ask none A D 2024-05-01T08:00:00Z
ask tiny A D 2024-05-01T08:00:00Z --update none.pb
check tiny 20240501
check tiny 20240501 --zone cet
check tiny 20240501 --zone file:none
check tiny 20240230
ask tiny A D 2024-05-01T08:00:00Z --cuts count:1
ask tiny A D 2024-05-01T08:00:00Z --cuts whole
ask tiny A D 2024-05-01T08:00:00Z --cuts span:1800
ask --cache=5 tiny A D 2024-05-01T08:00:00Z
ask tiny -- A D 2024-05-01T08:00:00Z
ask tiny A D 2024-05-01T08:00:00Z --cache 5 --cache 5
ask --help

serve tiny 20240501 --port 8080
serve tiny 20240501 --connections 1
serve tiny 20240501 --port 0 --connections 1
serve tiny 20240501 --port 65536 --connections 1
serve tiny 20240501 --port 8080 --connections 0
serve tiny 20240501 --port 8080 --connections 1 --accept-updates=yes
serve tiny 20240501 --port 8080 --connections 1 --cache 5
serve tiny 20240240 --port 8080 --connections 1
plan http://lc.example/
plan http://lc.example/?a a.csv
plan lc.example a.csv
drill 1
drill 1 --days 2
drill 0
drill 1 --days 8
fewest tiny A D 2024-05-01T08:00:00Z
fewest tiny A D 2024-05-01T08:00:01Z
fewest tiny A D 2024-05-01T08:00:00Z --update d60.pb
fewest tiny A D 2024-05-01T08:00:00Z --cache 5
fewest tiny A A 2024-05-01T08:00:00Z
fewest none A D 2024-05-01T08:00:00Z";

/// Questions for the latest departure, by hand from the same times. The page for the moment comes first, and then those before it, down to the
/// one that has the journey. Causes and statuses are those of `ask`.
pub const ARRIVES: &str = "arrive tiny A D 2024-05-01T08:31:00Z
arrive tiny A D 2024-05-01T08:30:59Z
arrive tiny E F 2024-05-01T10:09:59Z
arrive tiny E F 2024-05-01T10:10:00Z
arrive tiny A D 2024-05-01T08:31:00Z --change 121
arrive tiny A D 2024-05-01T08:40:00Z --change 121
arrive tiny A D 2024-05-01T08:31:00Z --horizon 1860
arrive tiny A D 2024-05-01T08:31:00Z --horizon 1859
arrive tiny A D 2024-05-01T08:31:00Z --cuts count:1
arrive tiny A D 2024-05-01T08:31:00Z --cuts whole
arrive tiny A D 2024-05-01T08:40:00Z --update d60.pb
arrive tiny A D 2024-05-01T08:31:00Z --update d60.pb --known 2024-05-01T06:59:59Z
arrive tiny A D 2024-05-01T08:31:00Z --horizon 0
arrive tiny X X 2024-05-01T08:31:00Z --horizon 604801
arrive tiny A A 2024-05-01T08:31:00Z
arrive tiny X D 2024-05-01T08:31:00Z
arrive tiny A X 2024-05-01T08:31:00Z
arrive none A D 2024-05-01T08:31:00Z
arrive tiny A D 2024-05-01T08:31:00Z --update none.pb
arrive tiny A D 2024-05-01T08:31:00Z --update cut.pb
arrive tiny A D 2024-05-01T08:31:00Z --cache 5
arrive tiny A D 1970-01-17T23:59:59Z";
