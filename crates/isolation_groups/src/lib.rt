// Groups of PEs as bit vectors, as peer vectors are, and marks on memory words. Defined in crates/isolation_groups/specs/Member.antt and Mark.antt.
#![tactic(auto)]

ghost use Rattle.std.specs.Prelude.{◌≡◌};
ghost use Rattle.isolation_groups.specs.Mark.{any_mark};
ghost use Rattle.isolation_groups.specs.Member.{member_of};

use endpoints::is_listed;
use profile::limits::MOST_PES;
use tables::words;

/// Whether a number is that of a member of the group, a bit vector of PEs.
#[tactic(auto, unfolding(crate::specs::Member::member_of))]
pub fn is_member(group: &[u64], number: u64) -> bool
    ensures { result ≡ member_of group.now number }
{
    number < MOST_PES && is_listed(group, number as usize)
}

/// Whether memory word `index` has a mark: its word is there, and is not 0.
#[tactic(auto, unfolding(crate::specs::Mark::any_mark))]
pub fn has_mark(marks: &[u64], index: usize) -> bool
    ensures { result ≡ any_mark marks.now index }
{
    words::word(marks, index) != 0
}
