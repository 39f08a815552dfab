//! Where a member stands, if it has a place.
ghost use Rattle.std.specs.Prelude.{◌≡◌, ◌+◌, ◌<◌, ◌^◌, IfSome, None, Some};

use std::marker::Model;

/// The place of a member.
#[derive(Clone, Copy)]
pub(crate) struct Place {
    pub(crate) group: u32,
    /// The position among the members of the group.
    pub(crate) position: u32,
}

/// The place of a member, or that it has none, in eight bytes. Contracts see the place.
#[derive(Drop)]
pub(crate) struct Standing {
    group: u32,
    /// One more than the position, or 0 where there is no place.
    turn: u32,
}

impl Model for Standing {
    ghost use Rattle.std.specs.Prelude.{Option};
    ghost use Rattle.cb_groups.specs.Internal.{place_by_turn};
    ghost use Rattle.cb_groups.specs.declared.standing.Place.{Place};

    ghost Value = { Option Place };

    ghost view = { λ s. place_by_turn s.group s.turn };
}

impl Standing {
    /// No place.
    pub(crate) fn nowhere() -> Standing
        ensures { result ≡ None }
    {
        Standing { group: 0, turn: 0 }
    }

    /// This place.
    pub(crate) fn at(place: Place) -> Standing
        requires { place.position + 1 < 2 ^ 32 }
        ensures { result ≡ Some place }
    {
        Standing {
            group: place.group,
            turn: place.position + 1,
        }
    }

    /// The place.
    pub(crate) fn place(&self) -> Option<Place>
        ensures place { result ≡ self.now }
        ensures next { IfSome result (λ place. place.position + 1 < 2 ^ 32) }
    {
        let position = self.turn.checked_sub(1)?;
        Some(Place {
            group: self.group,
            position,
        })
    }
}
