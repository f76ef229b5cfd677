// The names of answers in a line of replay text.
ghost use Rattle.std.specs.Prelude.{◌≡◌};
ghost use Rattle.replay_text.specs.Name.{name_of};

// The name of a number from 0 to 6, and `bad` for any other.
// Kept: a number, as `Numbers.name` is in the words of C.
#[tactic(auto, using(replay_text::proofs::NameLaws::name_bad), unfolding(replay_text::specs::Name::name_of))]
pub(crate) fn name_text(name: u64) -> &'static [u8]
    ensures { result.now ≡ name_of name }
{
    match name {
        0 => b"pass",
        1 => b"msi",
        2 => b"held",
        3 => b"ones",
        4 => b"drop",
        5 => b"refuse",
        6 => b"done",
        _ => b"bad",
    }
}
