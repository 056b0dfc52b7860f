//! Names of members.

/// The name of a member of a command, or of a body.
#[derive(Clone, Copy, Debug, PartialEq, Eq)]
pub enum MemberName {
    /// `do`
    Do,
    /// `object`
    Object,
    /// `first`
    First,
    /// `last`
    Last,
    /// `unit`
    Unit,
    /// `party`
    Party,
    /// `name`
    Name,
    /// `code`
    Code,
    /// `label`
    Label,
    /// `area`
    Area,
    /// `share`
    Share,
    /// `required`
    Required,
    /// `spot`
    Spot,
    /// `shape`
    Shape,
    /// `holes`
    Holes,
}

impl MemberName {
    ghost use Rattle.std.specs.Prelude.{◌≡◌};
    ghost use Rattle.cad_dry_run.specs.Names.{name_text};

    /// The name as a line spells it.
    pub fn text(self) -> &'static str
        ensures { result.now ≡ name_text self }
    {
        match self {
            MemberName::Do => "do",
            MemberName::Object => "object",
            MemberName::First => "first",
            MemberName::Last => "last",
            MemberName::Unit => "unit",
            MemberName::Party => "party",
            MemberName::Name => "name",
            MemberName::Code => "code",
            MemberName::Label => "label",
            MemberName::Area => "area",
            MemberName::Share => "share",
            MemberName::Required => "required",
            MemberName::Spot => "spot",
            MemberName::Shape => "shape",
            MemberName::Holes => "holes",
        }
    }
}
