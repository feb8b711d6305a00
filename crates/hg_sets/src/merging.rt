//! Sets as strictly rising slices, taken in step.

ghost use Rattle.std.specs.Prelude.{◌≡◌, ◌+◌, ◌<◌, ◌≤◌, length, insert, vec_capacity};
ghost use Rattle.std.specs.List.{list_all};
ghost use Rattle.std.specs.List.Sorted.{IsStrictlyIncreasing};
ghost use Rattle.hg_model.specs.Sets.{common, contains};

/// Whether the others have all of the members.
#[inline]
pub(crate) fn is_subset(members: &[u16], others: &[u16]) -> bool
    requires members_rise { IsStrictlyIncreasing members.now }
    requires others_rise { IsStrictlyIncreasing others.now }
    ensures { result ≡ list_all (contains others.now) members.now }
{
    let mut i = 0;
    for other in others {
        if i == members.len() {
            return true;
        }
        if members[i] < *other {
            return false;
        }
        if members[i] == *other {
            i += 1;
        }
    }
    i == members.len()
}

/// Sets `kept` to the members that the others have too. It has the room.
pub(crate) fn write_common(members: &[u16], others: &[u16], kept: &mut Vec<u16>)
    requires members_rise { IsStrictlyIncreasing members.now }
    requires others_rise { IsStrictlyIncreasing others.now }
    requires room { length members.now ≤ vec_capacity kept.old }
    ensures items { kept.new.items ≡ common members.now others.now }
    ensures capacity { vec_capacity kept.old ≤ vec_capacity kept.new }
{
    kept.clear();
    let mut i = 0;
    let mut k = 0;
    while i < members.len() && k < others.len() {
        let member = members[i];
        let other = others[k];
        if member < other {
            i += 1;
        } else if other < member {
            k += 1;
        } else {
            kept.push(member).unwrap();
            i += 1;
            k += 1;
        }
    }
}

/// Sets `joined` to the members with one more at this place. It has the room.
pub(crate) fn write_joined(members: &[u16], at: usize, member: u16, joined: &mut Vec<u16>)
    requires place { at ≤ length members.now }
    requires room { length members.now < vec_capacity joined.old }
    ensures items { joined.new.items ≡ insert members.now at member }
    ensures capacity { vec_capacity joined.old ≤ vec_capacity joined.new }
{
    joined.clear();
    joined.extend_from_slice(&members[..at]).unwrap();
    joined.push(member).unwrap();
    joined.extend_from_slice(&members[at..]).unwrap();
}
