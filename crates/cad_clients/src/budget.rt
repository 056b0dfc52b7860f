//! How much work a turn may do for a reply.

ghost use Rattle.std.specs.Prelude.{◌≡◌, ◌<◌};
ghost use Rattle.cad_clients.specs.Budgets.{units_of};

/// The most units of work of the first piece, which is made in the visit that fed the request. What indexes find is answered by it.
pub const FIRST_PIECE: u32 = 819;

/// The most units of work of a later piece. All others wait for one of these.
pub const LATER_PIECE: u32 = 8192;

/// How much work a turn may do for a reply, if it is a piece of work.
#[derive(Clone, Copy, Debug, PartialEq, Eq)]
pub enum Budget {
    /// In a visit: at most `FIRST_PIECE` units.
    First,
    /// Outside of visits: at most `LATER_PIECE` units.
    Later,
}

impl Budget {
    /// So many units of work.
    pub fn units(self) -> u32
        ensures units { result ≡ units_of self }
        ensures some { 0 < result }
    {
        match self {
            Budget::First => FIRST_PIECE,
            Budget::Later => LATER_PIECE,
        }
    }
}
