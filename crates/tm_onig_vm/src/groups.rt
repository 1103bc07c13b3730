//! The groups of a search: start and end of each that is set, by number.
ghost use Rattle.std.specs.Prelude.{◌≡◌, slice_get, slice_set, option_and_then};
ghost use Rattle.tm_onig_search.specs.Search.{last_set};

/// A group, if it is set.
pub(crate) fn group_at(caps: &[Option<(u32, u32)>], number: u32) -> Option<(u32, u32)>
    ensures { result ≡ option_and_then (λ c. c) (slice_get caps.now number) }
{
    match caps.get(number as usize) {
        Some(group) => *group,
        None => None,
    }
}

/// The last of the groups that is set.
pub(crate) fn last_set(caps: &[Option<(u32, u32)>], groups: &[u32]) -> Option<(u32, u32)>
    ensures { result ≡ last_set caps.now groups.now }
{
    let mut found = None;
    for i in (0..groups.len()).rev() {
        found = found.or(group_at(caps, groups[i]));
    }
    found
}

/// The group is this, if there is one of this number.
pub(crate) fn set_group(caps: &mut [Option<(u32, u32)>], number: u32, group: Option<(u32, u32)>)
    ensures { caps.new ≡ slice_set caps.old number group }
{
    let at = number as usize;
    if at < caps.len() {
        caps[at] = group;
    }
}
