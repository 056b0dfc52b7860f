//! Where checks of an object end.

use crate::cause::{MemberCause, ObjectCause, RingCause};
use std::alloc::{AllocError, AllocFailed};

/// Why a value is not read as a ring.
#[derive(Clone, Copy, Debug)]
pub enum RingStop {
    /// It is not a ring.
    Cause(RingCause),
    /// Out of memory.
    Memory,
}

/// Why values are not read as holes.
#[derive(Clone, Copy, Debug)]
pub enum HolesStop {
    /// The one at this place, counted from 0, is not a ring.
    Cause(usize, RingCause),
    /// Out of memory.
    Memory,
}

/// Why checks of members end.
#[derive(Clone, Copy, Debug)]
pub enum MemberStop {
    /// Something is wrong with them.
    Cause(MemberCause),
    /// Out of memory.
    Memory,
}

/// Why checks of the object of a line end.
#[derive(Debug, Drop)]
pub enum ObjectStop {
    /// It says no command.
    Cause(ObjectCause),
    /// Out of memory.
    Memory,
}

impl<T: Drop> From<AllocFailed<T>> for RingStop {
    ghost use Rattle.std.specs.Prelude.{◌≡◌};
    ghost use Rattle.cad_dry_run.specs.declared.stop.RingStop.TheVariants.{Memory};

    ghost from_gives = { λ _ e. e ≡ Memory };

    fn from(_refused: AllocFailed<T>) -> RingStop {
        RingStop::Memory
    }
}

impl<T: Drop> From<AllocFailed<T>> for HolesStop {
    ghost use Rattle.std.specs.Prelude.{◌≡◌};
    ghost use Rattle.cad_dry_run.specs.declared.stop.HolesStop.TheVariants.{Memory};

    ghost from_gives = { λ _ e. e ≡ Memory };

    fn from(_refused: AllocFailed<T>) -> HolesStop {
        HolesStop::Memory
    }
}

impl From<AllocError> for MemberStop {
    ghost use Rattle.std.specs.Prelude.{◌≡◌};
    ghost use Rattle.cad_dry_run.specs.declared.stop.MemberStop.TheVariants.{Memory};

    ghost from_gives = { λ _ e. e ≡ Memory };

    fn from(_refused: AllocError) -> MemberStop {
        MemberStop::Memory
    }
}

impl<T: Drop> From<AllocFailed<T>> for MemberStop {
    ghost use Rattle.std.specs.Prelude.{◌≡◌};
    ghost use Rattle.cad_dry_run.specs.declared.stop.MemberStop.TheVariants.{Memory};

    ghost from_gives = { λ _ e. e ≡ Memory };

    fn from(_refused: AllocFailed<T>) -> MemberStop {
        MemberStop::Memory
    }
}

impl From<MemberCause> for MemberStop {
    ghost use Rattle.std.specs.Prelude.{◌≡◌};
    ghost use Rattle.cad_dry_run.specs.declared.stop.MemberStop.TheVariants.{Cause};

    ghost from_gives = { λ cause e. e ≡ Cause cause };

    fn from(cause: MemberCause) -> MemberStop {
        MemberStop::Cause(cause)
    }
}

impl From<MemberCause> for ObjectStop {
    ghost use Rattle.std.specs.Prelude.{◌≡◌};
    ghost use Rattle.cad_dry_run.specs.declared.cause.ObjectCause.TheVariants.{Member};
    ghost use Rattle.cad_dry_run.specs.declared.stop.ObjectStop.TheVariants.{Cause};

    ghost from_gives = { λ cause e. e ≡ Cause (Member cause) };

    fn from(cause: MemberCause) -> ObjectStop {
        ObjectStop::Cause(ObjectCause::Member(cause))
    }
}
