//! Targets of requests.

ghost use Rattle.std.specs.Prelude.{◌≡◌, Some, None, if◌then◌else◌};
ghost use Rattle.std.specs.List.{list_all};
ghost use Rattle.std.specs.Option.{option_copied};
ghost use Rattle.cad_resource.specs.Heads as spec;

/// The text of a target that begins with a slash and has only ASCII, without blanks and control characters.
#[tactic(auto, using(crate::proofs::TargetLemmas::target_utf8))]
pub(crate) fn target_text(target: &[u8]) -> Option<&str>
    ensures { option_copied result ≡ (if spec.is_target target.now then Some target.now else None) }
{
    if !is_target(target) {
        return None;
    }
    match str::from_utf8(target) {
        Ok(text) => Some(text),
        Err(_) => None,
    }
}

fn is_target(target: &[u8]) -> bool
    ensures { result ≡ spec.is_target target.now }
{
    !target.is_empty() && target[0] == b'/' && are_visible(target)
}

fn are_visible(bytes: &[u8]) -> bool
    ensures { result ≡ list_all spec.is_visible bytes.now }
{
    bytes.iter().all(|byte| is_visible(*byte))
}

fn is_visible(byte: u8) -> bool
    ensures { result ≡ spec.is_visible byte }
{
    33 <= byte && byte <= 126
}
