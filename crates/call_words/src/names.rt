// Which line a first word names.
ghost use Rattle.std.specs.Prelude.{◌≡◌};
ghost use Rattle.call_words.specs.Names.{named as name_of};

// One of the program's two blocks.
#[derive(Clone, Copy, PartialEq, Eq)]
pub enum Block {
    First,
    Second,
}

#[derive(Clone, Copy, PartialEq, Eq)]
pub enum Name {
    Lend(Block),
    Word(Block),
    Open,
    Push,
    SetAction,
    ClearAction,
    SetTimer,
    ClearTimer,
    PickNext,
    SimNetworkStack,
    Show,
    Words(Block),
    TakeSecond,
    Pack,
}

// The first word of each line, and what it names.
const NAMES: [(&[u8], Name); 17] = [
    (b"push", Name::Push),
    (b"pick_next", Name::PickNext),
    (b"sim_network_stack", Name::SimNetworkStack),
    (b"show", Name::Show),
    (b"set_action", Name::SetAction),
    (b"clear_action", Name::ClearAction),
    (b"set_timer", Name::SetTimer),
    (b"clear_timer", Name::ClearTimer),
    (b"open", Name::Open),
    (b"lend", Name::Lend(Block::First)),
    (b"word", Name::Word(Block::First)),
    (b"words", Name::Words(Block::First)),
    (b"pack", Name::Pack),
    (b"lend_second", Name::Lend(Block::Second)),
    (b"word_second", Name::Word(Block::Second)),
    (b"words_second", Name::Words(Block::Second)),
    (b"take_second", Name::TakeSecond),
];

// The line that these letters name, where they name one.
// A table and no `match` over byte strings: that goes byte by byte, and 22 of its answers were open after six minutes.
#[tactic(auto, using(crate::proofs::NameLaws::row_found))]
pub(crate) fn named(letters: &[u8]) -> Option<Name>
    ensures { result ≡ name_of letters.now }
{
    for row in &NAMES {
        let (text, name) = *row;
        if letters == text {
            return Some(name);
        }
    }
    None
}
