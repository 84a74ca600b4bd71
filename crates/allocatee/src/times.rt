//! When a device asks: laws over all that happens at it, each the contract of a function that does nothing.

ghost use Rattle.std.specs.Prelude.{◌≡◌, ◌⊎◌, ℕ, ◌+◌, ◌<◌, ◌≤◌, List, None, length, false, true};
ghost use Rattle.allocatee.specs.Allocatee.{Device, Event, Tick, step};
ghost use Rattle.allocatee.specs.Times.{Asks, AsksFirst, FollowsUp, Happening, LeaveTimer, Opening, TakesAllocation, WasAnswered, after_all, clock, opened};

/// A request of the first stage comes 600 ms at the least after its opening, after any Allocation that it took, and
/// after any other request of the first stage.
pub fn first_stages_are_600_ms_apart()
    ensures opening { (o : Opening) (happenings : List Happening) (number : ℕ) (event : Event) (part : List ℕ) →
        let d = after_all (opened o) happenings in
        Asks true part d number event → o.now + 600 ≤ clock (step d number event).device }
    ensures allocation { (d : Device) (since : List Happening) (number later : ℕ) (event again : Event)
        (part : List ℕ) → let between = (step d number event).device in
        TakesAllocation d event → Asks true part (after_all between since) later again →
        clock between + 600 ≤ clock (step (after_all between since) later again).device }
    ensures request { (d : Device) (since : List Happening) (number later : ℕ) (event again : Event)
        (part part_again : List ℕ) → let between = (step d number event).device in
        Asks true part d number event → Asks true part_again (after_all between since) later again →
        clock between + 600 ≤ clock (step (after_all between since) later again).device }
{}

/// Where it took no Allocation and offered no request of the first stage for 1,000 ms, it asks when it reads its
/// clock, as long as it holds no node ID and its queue has room: a request of the first stage, or a follow-up that is
/// due.
pub fn it_asks_within_1000_ms()
    ensures { (o : Opening) (before since : List Happening) (number now word : ℕ) →
        let from = after_all (opened o) before in let d = after_all from since in
        LeaveTimer from since → d.asking.holds ≡ None → length d.asking.queue < 8 →
        clock from + 1000 ≤ clock (step d number (Tick now word)).device →
        AsksFirst d number (Tick now word) ⊎ ((known : ℕ) × FollowsUp known d number (Tick now word)) }
{}

/// A follow-up comes of an answer alone that was the last Allocation, with the bytes behind those of the answer. It
/// comes 400 ms after that answer at the latest, when it reads its clock, where its queue has room.
pub fn it_follows_up_within_400_ms()
    ensures only { (o : Opening) (happenings : List Happening) (number : ℕ) (event : Event) (part : List ℕ) →
        let d = after_all (opened o) happenings in Asks false part d number event →
        (known moment : ℕ) × WasAnswered (opened o) happenings known moment
        × FollowsUp known d number event }
    ensures within { (o : Opening) (happenings : List Happening) (number now word known moment : ℕ) →
        let d = after_all (opened o) happenings in WasAnswered (opened o) happenings known moment →
        d.asking.holds ≡ None → length d.asking.queue < 8 →
        moment + 400 ≤ clock (step d number (Tick now word)).device →
        FollowsUp known d number (Tick now word) }
{}
