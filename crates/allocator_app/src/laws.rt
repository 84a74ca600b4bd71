//! What holds of every run, each the contract of a function that does nothing.

ghost use Rattle.std.specs.Prelude.{◌≡◌, ◌≢◌, ◌+◌, ◌≤◌, [], ℕ, List, Option};
ghost use Rattle.bus_spec.specs.Cluster.{Cluster};
ghost use Rattle.allocator_app.specs.InPart.{IsWrittenInPart};
ghost use Rattle.cmd_io.specs.Output.{WritesFront};
ghost use Rattle.bus_physics.specs.Physics.{AreApart, HoldsAreShort, joining_span};
ghost use Rattle.allocator_app.specs.Told.{list_of};
ghost use Rattle.allocator_app.specs.Vehicle.{GoneOut, KeepsPace, vehicle_limits};
ghost use Rattle.allocator_app.specs.declared.told.Told.{Told};
ghost use Rattle.allocator_app.specs.Report.{IsReport};
ghost use Rattle.cmd_io.specs.declared.status.Status.{Status};
ghost use Rattle.spaced_link.specs.Spacing.{between_uses};

use replay_text::laws::a_line_has_one_row;

/// A schedule has one report, with one status.
pub fn a_schedule_has_one_report()
    ensures { (limit : ℕ) (first : Cluster) (bytes report other : List ℕ) (status ending : Status) →
        IsReport limit first bytes report status → IsReport limit first bytes other ending →
        (report ≡ other) × (status ≡ ending) }
{
    a_line_has_one_row();
}

/// What a sink has that failed is a front of the schedule's report.
pub fn what_was_written_begins_the_report()
    ensures { (limit : ℕ) (first : Cluster) (bytes report : List ℕ) (status : Status)
        (left sink_before sink_now : Option (List ℕ)) →
        IsWrittenInPart limit first bytes left sink_before sink_now →
        IsReport limit first bytes report status → WritesFront sink_before sink_now report }
{
    a_line_has_one_row();
}

/// The rest of a process that was told its members, the longest way of a frame, the longest turn and the most that clocks
/// may be off, as they are stated for a vehicle, keep the bounds that `bus_physics` asks of them.
pub fn the_numbers_of_a_vehicle_are_enough()
    ensures { (told : Told) → list_of told ≢ [] → HoldsAreShort (vehicle_limits told) }
{}

/// Where the first frames of two Allocations of one process go out as far apart as `spaced_link` lets those with one
/// transfer ID, and each waited no longer than a link lets a frame wait, the two were made so far apart that nobody joins
/// their frames. That these are the Allocations of a trace is not proved.
pub fn what_goes_out_apart_was_made_apart()
    ensures { (told : Told) (x y : GoneOut) → KeepsPace x y → x.reading + between_uses ≤ y.reading →
        AreApart (joining_span (vehicle_limits told) (vehicle_limits told).drift) x.made y.made }
{}
