// Whether a PE outside the group lists a member in its peer vector.
ghost use Rattle.std.specs.Prelude.{◌≡◌};
ghost use Rattle.isolation_tests.specs.Group.{member_listed, lists_member, outsider_lists, any_outsider_lists};

use endpoints;
use isolation_groups::is_member;
use kinds::number::PeNumber;

// PE k is a member and in the vector.
#[tactic(auto, unfolding(crate::specs::Group::member_listed))]
fn member_listed(group: &[u64], vector: &[u64], k: u16) -> bool
    ensures { result ≡ member_listed group.now vector.now k }
{
    is_member(group, u64::from(k)) && endpoints::is_listed(vector, usize::from(k))
}

// A member among the first `pes` PEs is in the vector.
// Kept: loops, here and over the PEs outside, for speed: by `rev` and `any` a closed group took twice the time.
fn lists_member(group: &[u64], vector: &[u64], pes: u16) -> bool
    ensures { result ≡ lists_member group.now vector.now pes }
{
    for k in (0..pes).rev() {
        if member_listed(group, vector, k) {
            return true;
        }
    }
    false
}

// PE `pe` is no member and lists one.
#[tactic(auto, unfolding(crate::specs::Group::outsider_lists))]
fn outsider_lists(group: &[u64], peers: &[u64], pes: u16, pe: u16) -> bool
    ensures { result ≡ outsider_lists group.now peers.now pes pe }
{
    !is_member(group, u64::from(pe))
        && lists_member(group, &endpoints::peer_vector(peers, PeNumber(pe)), pes)
}

// One of the first `pes` PEs is no member and lists one of those that are.
pub(crate) fn any_outsider_lists(group: &[u64], peers: &[u64], pes: u16) -> bool
    ensures { result ≡ any_outsider_lists group.now peers.now pes }
{
    for pe in (0..pes).rev() {
        if outsider_lists(group, peers, pes, pe) {
            return true;
        }
    }
    false
}
