//! Which member a row is for, and whether it may be.

ghost use Rattle.std.specs.Prelude.{◌≡◌, ◌<◌, None, Some, IfOk, IfErr, IfSome, OnOk, length};
ghost use Rattle.bus_spec.specs.Cluster.{Cluster, is_member};
ghost use Rattle.bus_spec.specs.Lawful.{already_running, no_node, not_running, or_else};

use crate::members::Members;
use bus_spec::Unlawful;
use can_frame::Kind;

impl<F: Fn(Kind, u16) -> Option<u64> + Copy> Members<F> {
    ghost use Rattle.bus_world.specs.Members.{StandsFor, ids_of, place_of};

    /// Where a member stands.
    pub(crate) fn place(&self, n: u8) -> Option<usize>
        ensures place { result ≡ place_of self.now.members.items n }
        ensures within { IfSome result (λ place. place < length self.now.members.items) }
    {
        self.members.iter().position(|member| member.id == n)
    }

    pub(crate) fn is_member(&self, n: u8) -> bool
        ensures { result ≡ is_member (ids_of self.now.members.items) n }
    {
        match self.place(n) {
            Some(_) => true,
            None => false,
        }
    }

    /// Where a member stands, or the cause for which the row is refused.
    pub(crate) fn member(&self, n: u8) -> Result<usize, Unlawful>
        ensures place { IfOk result (λ i. place_of self.now.members.items n ≡ Some i) }
        ensures inside { IfOk result (λ i. i < length self.now.members.items) }
        ensures lawful { OnOk result ((c : Cluster) → StandsFor self.now c →
            no_node c n ≡ None) }
        ensures refused { IfErr result (λ why. (c : Cluster) → StandsFor self.now c →
            no_node c n ≡ Some why) }
    {
        match self.place(n) {
            Some(place) => Ok(place),
            None => Err(Unlawful::NoNode),
        }
    }

    /// Where a member stands that is stopped.
    pub(crate) fn stopped(&self, n: u8) -> Result<usize, Unlawful>
        ensures place { IfOk result (λ i. place_of self.now.members.items n ≡ Some i) }
        ensures inside { IfOk result (λ i. i < length self.now.members.items) }
        ensures lawful { OnOk result ((c : Cluster) → StandsFor self.now c →
            or_else (no_node c n) (already_running c n) ≡ None) }
        ensures refused { IfErr result (λ why. (c : Cluster) → StandsFor self.now c →
            or_else (no_node c n) (already_running c n) ≡ Some why) }
    {
        let Some(place) = self.place(n) else {
            return Err(Unlawful::NoNode);
        };
        if self.members[place].is_running() {
            return Err(Unlawful::Running);
        }
        Ok(place)
    }

    /// Where a member stands that runs.
    pub(crate) fn running(&self, n: u8) -> Result<usize, Unlawful>
        ensures place { IfOk result (λ i. place_of self.now.members.items n ≡ Some i) }
        ensures inside { IfOk result (λ i. i < length self.now.members.items) }
        ensures lawful { OnOk result ((c : Cluster) → StandsFor self.now c →
            or_else (no_node c n) (not_running c n) ≡ None) }
        ensures refused { IfErr result (λ why. (c : Cluster) → StandsFor self.now c →
            or_else (no_node c n) (not_running c n) ≡ Some why) }
    {
        let Some(place) = self.place(n) else {
            return Err(Unlawful::NoNode);
        };
        if !self.members[place].is_running() {
            return Err(Unlawful::Stopped);
        }
        Ok(place)
    }
}
