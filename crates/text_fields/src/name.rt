// The names that a field can hold, and the name at a place of a list.
// Kept: a chain of `same`: the default arm of a `match` on byte strings leaves a goal for each length and byte, and a list of pairs with `find` needs each name cut to a slice, and a closure for its proof.
ghost use Rattle.std.specs.Prelude.{◌≡◌};
ghost use Rattle.kinds.specs.declared.request.Direction.TheVariants.{Write};
ghost use Rattle.kinds.specs.declared.request.Part.TheVariants.{Record};
ghost use Rattle.replay_text.specs.declared.Table.TheVariants.{State};
ghost use Rattle.replay_text.specs.Line.{tables, directions, parts};
ghost use Rattle.text_fields.specs.NamePlace.{name_at};

use crate::{FieldValue, same};
use kinds::request::{Direction, Part};
use replay_text::Table;

impl FieldValue for Table {
    ghost use Rattle.replay_text.specs.Line.{tables};
    ghost use Rattle.replay_text.specs.Word.{find};

    ghost read = { find tables };

    #[tactic(auto, using(crate::proofs::NameLaws::found, crate::proofs::NameLaws::not_found, crate::proofs::NameLaws::none_found))]
    fn in_text(text: &[u8]) -> Option<Table> {
        if same(text, b"requesters") {
            Some(Table::Requesters)
        } else if same(text, b"translation") {
            Some(Table::Entries)
        } else if same(text, b"memory") {
            Some(Table::Memory)
        } else if same(text, b"peers") {
            Some(Table::Peers)
        } else if same(text, b"interrupts") {
            Some(Table::Interrupts)
        } else if same(text, b"windows") {
            Some(Table::Windows)
        } else if same(text, b"segments") {
            Some(Table::Segments)
        } else if same(text, b"state") {
            Some(Table::State)
        } else {
            None
        }
    }
}

impl FieldValue for Direction {
    ghost use Rattle.replay_text.specs.Line.{directions};
    ghost use Rattle.replay_text.specs.Word.{find};

    ghost read = { find directions };

    #[tactic(auto, using(crate::proofs::NameLaws::found, crate::proofs::NameLaws::not_found, crate::proofs::NameLaws::none_found))]
    fn in_text(text: &[u8]) -> Option<Direction> {
        if same(text, b"r") {
            Some(Direction::Read)
        } else if same(text, b"w") {
            Some(Direction::Write)
        } else {
            None
        }
    }
}

impl FieldValue for Part {
    ghost use Rattle.replay_text.specs.Line.{parts};
    ghost use Rattle.replay_text.specs.Word.{find};

    ghost read = { find parts };

    #[tactic(auto, using(crate::proofs::NameLaws::found, crate::proofs::NameLaws::not_found, crate::proofs::NameLaws::none_found))]
    fn in_text(text: &[u8]) -> Option<Part> {
        if same(text, b"mmio") {
            Some(Part::Mmio)
        } else if same(text, b"dma") {
            Some(Part::Dma)
        } else if same(text, b"record") {
            Some(Part::Record)
        } else {
            None
        }
    }
}

/// The table at a place of their list, counted from 0; the last one from there on.
pub fn table_at(place: u64) -> Table
    ensures { result ≡ name_at tables State place }
{
    match place {
        0 => Table::Requesters,
        1 => Table::Entries,
        2 => Table::Memory,
        3 => Table::Peers,
        4 => Table::Interrupts,
        5 => Table::Windows,
        6 => Table::Segments,
        _ => Table::State,
    }
}

/// The direction at a place of their list, counted from 0; the last one from there on.
pub fn direction_at(place: u64) -> Direction
    ensures { result ≡ name_at directions Write place }
{
    match place {
        0 => Direction::Read,
        _ => Direction::Write,
    }
}

/// The part at a place of their list, counted from 0; the last one from there on.
pub fn part_at(place: u64) -> Part
    ensures { result ≡ name_at parts Record place }
{
    match place {
        0 => Part::Mmio,
        1 => Part::Dma,
        _ => Part::Record,
    }
}
