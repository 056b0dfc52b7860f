//! What the definitions of heads, fronts, requests and replies say together. Nothing runs here.

ghost use Rattle.cad_head.specs.Heads.{HaveOneHead, HeadsStay};
ghost use Rattle.cad_head.specs.Front.{HeadsExcludeAll};
ghost use Rattle.cad_head.specs.Laws.{MembersHoldNoComma, MembersMakeTheValue, OldVersionsClose};
ghost use Rattle.cad_head.specs.ReplyLaws.{RepliesAreUnambiguous};

/// Bytes begin with at most one head, and with one rest after it.
pub fn bytes_have_one_head()
    ensures { HaveOneHead }
{}

/// A whole head stays the same if more bytes follow.
pub fn heads_stay()
    ensures { HeadsStay }
{}

/// If a whole head is found, the bytes are neither incomplete nor invalid.
pub fn heads_exclude_all_else()
    ensures { HeadsExcludeAll }
{}

/// No member of a field's value contains a comma.
pub fn members_hold_no_comma()
    ensures { MembersHoldNoComma }
{}

/// The members of a field's value, joined by commas, are the value.
pub fn members_make_the_value()
    ensures { MembersMakeTheValue }
{}

/// A request of HTTP/1.0 closes its connection, for any fields.
pub fn old_versions_close()
    ensures { OldVersionsClose }
{}

/// Bytes that begin with a reply begin with only one reply: its status, its body and the bytes after it are determined, since the length
/// that it gives is that of its body.
pub fn replies_are_unambiguous()
    ensures { RepliesAreUnambiguous }
{}
