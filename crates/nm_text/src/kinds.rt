//! The words of the kinds of action.

ghost use Rattle.std.specs.Prelude.{◌≡◌};
ghost use Rattle.nm_text.specs.Kinds.{kind_text, all_kinds, kind_among};

use crate::fields::is_text;
use nm_action::ActionKind;

/// Every kind of action.
const KINDS: [ActionKind; 30] = [
    ActionKind::Load,
    ActionKind::Store,
    ActionKind::Add,
    ActionKind::Look,
    ActionKind::Walk,
    ActionKind::Peek,
    ActionKind::Poll,
    ActionKind::Ack,
    ActionKind::Lock,
    ActionKind::Unlock,
    ActionKind::Bump,
    ActionKind::SeeAck,
    ActionKind::Raise,
    ActionKind::Soften,
    ActionKind::Arm,
    ActionKind::ClearDirty,
    ActionKind::Unmap,
    ActionKind::Map,
    ActionKind::Grant,
    ActionKind::CopyLoad,
    ActionKind::CopyStore,
    ActionKind::SetHome,
    ActionKind::SetShadow,
    ActionKind::TakeTurn,
    ActionKind::Scan,
    ActionKind::GiveFrame,
    ActionKind::PutFrame,
    ActionKind::ReleaseTurn,
    ActionKind::Mark,
    ActionKind::Read,
];

/// The first of the kinds that a word spells.
fn kind_among(kinds: &[ActionKind], word: &[u8]) -> Option<ActionKind>
    ensures { result ≡ kind_among kinds.now word.now }
{
    for kind in kinds {
        if is_text(kind_word(*kind), word) {
            return Some(*kind);
        }
    }
    None
}

/// The kind that a word spells.
pub fn read_kind(word: &[u8]) -> Option<ActionKind>
    ensures { result ≡ kind_among all_kinds word.now }
{
    kind_among(&KINDS, word)
}

/// The kind of an action in lower case.
pub fn kind_word(kind: ActionKind) -> &'static [u8]
    ensures { result.now ≡ kind_text kind }
{
    match kind {
        ActionKind::Load => b"load",
        ActionKind::Store => b"store",
        ActionKind::Add => b"add",
        ActionKind::Look => b"look",
        ActionKind::Walk => b"walk",
        ActionKind::Peek => b"peek",
        ActionKind::Poll => b"poll",
        ActionKind::Ack => b"ack",
        ActionKind::Lock => b"lock",
        ActionKind::Unlock => b"unlock",
        ActionKind::Bump => b"bump",
        ActionKind::SeeAck => b"seeack",
        ActionKind::Raise => b"raise",
        ActionKind::Soften => b"soften",
        ActionKind::Arm => b"arm",
        ActionKind::ClearDirty => b"cleardirty",
        ActionKind::Unmap => b"unmap",
        ActionKind::Map => b"map",
        ActionKind::Grant => b"grant",
        ActionKind::CopyLoad => b"copyload",
        ActionKind::CopyStore => b"copystore",
        ActionKind::SetHome => b"sethome",
        ActionKind::SetShadow => b"setshadow",
        ActionKind::TakeTurn => b"taketurn",
        ActionKind::Scan => b"scan",
        ActionKind::GiveFrame => b"giveframe",
        ActionKind::PutFrame => b"putframe",
        ActionKind::ReleaseTurn => b"releaseturn",
        ActionKind::Mark => b"mark",
        ActionKind::Read => b"read",
    }
}
