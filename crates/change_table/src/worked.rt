ghost use Rattle.std.specs.Prelude.{◌≡◌, [], ◌∷◌, Some, None, codes};
ghost use Rattle.change_table.specs.ChangeRule.{change_of};
ghost use Rattle.change_table.specs.ChangeTable.{AreChangesOf, count_of_changes};
ghost use Rattle.change_table.specs.Worked.{five_changes, no_change, one_minute, row_of, seconds_at_station, six_changes, six_stops, station, within_station};

/// What the definition says of a station P with the stops P1 and P2, by a default of 120 seconds.
pub fn worked_station()
    ensures siblings { seconds_at_station [] (codes "P1") (codes "P2") ≡ Some 120 }
    ensures not_the_station { seconds_at_station [] (codes "P1") (codes "P") ≡ None }
    ensures from_parents { seconds_at_station (within_station ∷ []) (codes "P1") (codes "P2") ≡ Some 300 }
    ensures at_one_child { seconds_at_station (within_station ∷ []) (codes "P1") (codes "P1") ≡ Some 300 }
    ensures at_the_station { seconds_at_station (within_station ∷ []) (codes "P") (codes "P") ≡ Some 300 }
    ensures own_row_behind { seconds_at_station (within_station ∷ no_change ∷ []) (codes "P1") (codes "P2") ≡ None }
    ensures own_row_before { seconds_at_station (no_change ∷ within_station ∷ []) (codes "P1") (codes "P2") ≡ None }
    ensures not_swapped { seconds_at_station (no_change ∷ within_station ∷ []) (codes "P2") (codes "P1") ≡ Some 300 }
    ensures first_row { seconds_at_station (one_minute ∷ no_change ∷ []) (codes "P1") (codes "P2") ≡ Some 60 }
    ensures to_the_parent { seconds_at_station (within_station ∷ row_of (codes "P1") (codes "P") 2 (Some 90) ∷ []) (codes "P1") (codes "P2") ≡ Some 90 }
    ensures from_the_parent { seconds_at_station (within_station ∷ row_of (codes "P") (codes "P2") 2 (Some 80) ∷ []) (codes "P1") (codes "P2") ≡ Some 80 }
    ensures own_before_parent { seconds_at_station (row_of (codes "P") (codes "P2") 2 (Some 80) ∷ row_of (codes "P1") (codes "P") 2 (Some 90) ∷ []) (codes "P1") (codes "P2") ≡ Some 90 }
    ensures usual_type { seconds_at_station (row_of (codes "P1") (codes "P2") 0 (Some 60) ∷ []) (codes "P1") (codes "P2") ≡ Some 120 }
    ensures timed_type { seconds_at_station (row_of (codes "P1") (codes "P2") 1 (Some 60) ∷ []) (codes "P1") (codes "P2") ≡ Some 1 }
    ensures no_time { seconds_at_station (row_of (codes "P1") (codes "P2") 2 None ∷ []) (codes "P1") (codes "P2") ≡ Some 120 }
    ensures other_type { seconds_at_station (row_of (codes "P1") (codes "P2") 4 (Some 60) ∷ []) (codes "P1") (codes "P2") ≡ Some 120 }
    ensures at_least_one { seconds_at_station (row_of (codes "P1") (codes "P2") 2 (Some 0) ∷ []) (codes "P1") (codes "P2") ≡ Some 1 }
    ensures no_stop { seconds_at_station [] (codes "P1") (codes "P3") ≡ None }
    ensures five_changes { count_of_changes station [] 120 ≡ 5 }
{}

/// What the definition refuses of that station.
pub fn refused_at_station()
    ensures a_second_late { ¬ (seconds_at_station [] (codes "P1") (codes "P2") ≡ Some 121) }
    ensures a_second_early { ¬ (seconds_at_station (within_station ∷ []) (codes "P1") (codes "P1") ≡ Some 299) }
    ensures no_change_as_usual { ¬ (seconds_at_station (no_change ∷ []) (codes "P1") (codes "P2") ≡ Some 120) }
    ensures swapped { ¬ (seconds_at_station (one_minute ∷ []) (codes "P2") (codes "P1") ≡ Some 60) }
    ensures the_station_itself { ¬ (seconds_at_station [] (codes "P1") (codes "P") ≡ Some 120) }
{}

/// What the definition says of the six stops of the small feed, without a row: a change at each, and no other.
pub fn worked_six_stops()
    ensures takes { AreChangesOf six_stops [] 120 (six_changes 120) }
    ensures count { count_of_changes six_stops [] 120 ≡ 6 }
    ensures at_least_one { AreChangesOf six_stops [] 0 (six_changes 1) }
    ensures refuses_a_second_more { ¬ AreChangesOf six_stops [] 120 (six_changes 121) }
    ensures refuses_five { ¬ AreChangesOf six_stops [] 120 five_changes }
{}
