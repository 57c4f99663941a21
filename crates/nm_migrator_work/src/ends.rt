//! What is told by the ends of the migrator's tasks, and what they count. Of an end of another kind nothing is claimed.

ghost use Rattle.std.specs.Prelude.{◌≡◌};
ghost use Rattle.nm_tally.specs.Counts.{zero_tally};
ghost use Rattle.nm_migrator_work.specs.Planned.{is_busy_move};
ghost use Rattle.nm_migrator_work.specs.Ends.{mark_reply_in, looks_in, cooled_in, batch_in, move_in, drawn_in, all_ended_in, words_in, work_in, full_in, taken_page_in, piece_counts, pieces_counts, move_counts, migrator_counts};

use crate::piece::MigratorEnd;
use crate::work::MigratorWork;
use nm_batch::PieceList;
use nm_cool::Cooled;
use nm_drawing::Drawn;
use nm_event::{Reply, Spent, Tally};
use nm_locked::LockedEnd;
use nm_looks::Seen;
use nm_transfer::TakenWords;
use nm_txn::TxnEnd;
use nm_worker::Ended;

/// The end of a piece of work.
pub fn work_in(end: Ended<MigratorEnd>) -> MigratorEnd
    ensures { result ≡ work_in end }
{
    match end {
        Ended::Run(end) => end,
        Ended::Put { .. } | Ended::Take(_) => MigratorWork::Ask(false),
    }
}

/// Whether a lane was full.
pub fn full_in(end: &Ended<MigratorEnd>) -> bool
    ensures { result ≡ full_in end.now }
{
    match end {
        Ended::Put { full } => *full,
        Ended::Run(_) | Ended::Take(_) => false,
    }
}

/// The page that was taken from a lane.
pub fn taken_page_in(end: &Ended<MigratorEnd>) -> Option<u32>
    ensures { result ≡ taken_page_in end.now }
{
    match end {
        Ended::Take(page) => *page,
        Ended::Run(_) | Ended::Put { .. } => None,
    }
}

/// The reply to a Mark.
pub fn mark_reply_in(end: MigratorEnd) -> Reply
    ensures { result ≡ mark_reply_in end }
{
    match end {
        MigratorWork::Mark(reply) => reply,
        _ => Reply::Busy(0),
    }
}

/// What Looks have seen.
pub fn looks_in(end: MigratorEnd) -> Seen
    ensures { result ≡ looks_in end }
{
    match end {
        MigratorWork::Looks(seen) => seen,
        _other => Seen::nothing(),
    }
}

/// How a candidate was cooled.
pub fn cooled_in(end: MigratorEnd) -> Cooled
    ensures { result ≡ cooled_in end }
{
    match end {
        MigratorWork::Cool(end) => end,
        _ => Cooled::Cold,
    }
}

/// How the pieces of a batch ended, in order, and what was drawn then.
pub fn batch_in(end: MigratorEnd) -> Drawn<PieceList<TxnEnd>>
    ensures { result ≡ batch_in end }
{
    match end {
        MigratorWork::Batch(told) => told,
        _other => Drawn {
            end: PieceList::new(),
            spent: Spent::default(),
        },
    }
}

/// Whether a locked move ended since its page was busy.
pub fn is_busy_in(end: &MigratorEnd) -> bool
    ensures { result ≡ is_busy_move (move_in end.now) }
{
    match end {
        MigratorWork::Move(told) => is_busy_move(told.end.end),
        _ => false,
    }
}

/// Whether a locked move that ended so found its page busy.
fn is_busy_move(end: LockedEnd) -> bool
    ensures { result ≡ is_busy_move end }
{
    match end {
        LockedEnd::Busy => true,
        LockedEnd::Moved => false,
        LockedEnd::NoFrame(_) => false,
        LockedEnd::Gone => false,
        LockedEnd::Worn => false,
    }
}

/// What was drawn when a locked move ended.
pub fn drawn_in(end: &MigratorEnd) -> Spent
    ensures { result ≡ drawn_in end.now }
{
    match end {
        MigratorWork::Move(told) => told.spent,
        _ => Spent::default(),
    }
}

/// The list for taken words that a locked move gives back.
pub fn words_in(end: MigratorEnd) -> Option<TakenWords>
    ensures { result ≡ words_in end }
{
    match end {
        MigratorWork::Move(told) => Some(told.end.taken),
        _ => None,
    }
}

/// Whether all processors have ended.
pub fn all_ended_in(end: MigratorEnd) -> bool
    ensures { result ≡ all_ended_in end }
{
    match end {
        MigratorWork::Ask(all) => all,
        _ => false,
    }
}

/// What the end of a piece of a batch counts.
fn piece_counts(end: TxnEnd) -> Tally
    ensures { result ≡ piece_counts end }
{
    let none = Tally::default();
    match end {
        TxnEnd::Committed => Tally {
            committed: 1,
            ..none
        },
        TxnEnd::Aborted(_) => Tally { aborted: 1, ..none },
        TxnEnd::NoFrame(_) => Tally { noframe: 1, ..none },
        TxnEnd::Gone => Tally { gone: 1, ..none },
        TxnEnd::Worn => Tally { worn: 1, ..none },
        TxnEnd::Busy => none,
    }
}

/// What the ends of the pieces of a batch count.
fn pieces_counts(ends: &PieceList<TxnEnd>) -> Tally
    ensures { result ≡ pieces_counts zero_tally ends.now }
{
    let mut tally = Tally::default();
    for index in 0..ends.len() {
        let Some(end) = ends.get(index) else {
            return tally
        };
        tally = tally.plus(piece_counts(end));
    }
    tally
}

/// What the end of a locked move counts.
fn move_counts(end: LockedEnd) -> Tally
    ensures { result ≡ move_counts end }
{
    let none = Tally::default();
    match end {
        LockedEnd::Moved => Tally { moved: 1, ..none },
        LockedEnd::NoFrame(_) => Tally { noframe: 1, ..none },
        LockedEnd::Gone => Tally { gone: 1, ..none },
        LockedEnd::Worn => Tally { worn: 1, ..none },
        LockedEnd::Busy => none,
    }
}

/// What the end of a piece of work counts.
pub fn migrator_counts(end: &MigratorEnd) -> Tally
    ensures { result ≡ migrator_counts end.now }
{
    match end {
        MigratorWork::Batch(told) => pieces_counts(&told.end),
        MigratorWork::Move(told) => move_counts(told.end.end),
        _ => Tally::default(),
    }
}
