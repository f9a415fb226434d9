//! What holds of the scripts of failing calls, over the definitions alone.
ghost use Rattle.std.specs.Prelude.{◌≤◌, length};
ghost use Rattle.mem_shelf.specs.Schedule.{Schedule, faults_of};

/// No more calls failed than the list has numbers, so a count in memory never reaches the last value of an adapter's counter.
pub fn counts_stay_small()
    ensures { (schedule : Schedule) → faults_of schedule ≤ length schedule.fail }
{}
