//! Lists of pages, and the counts of their aborts.

ghost use Rattle.std.specs.Prelude.{◌≡◌, ◌+◌, ◌<◌, ◌≤◌, [], length, slice_index, slice_set, All};
ghost use Rattle.nm_view.specs.Lists.{first};
ghost use Rattle.nm_migrator_work.specs.Planned.{is_mapped, is_among, first_or, aborted_more, again_of, aborts_with, is_again, is_moved_locked};

use nm_base::Geometry;
use nm_batch::PieceList;
use nm_txn::TxnEnd;
use nm_vpages::VPageSet;

/// Whether some virtual page is mapped to a page.
pub fn is_mapped(g: &Geometry, page: u32) -> bool
    ensures { result ≡ is_mapped g.now page }
{
    !VPageSet::of_page(g, page).is_empty()
}

/// Whether a page stands in a list.
pub fn is_among(page: u32, pages: &PieceList<u32>) -> bool
    ensures { result ≡ is_among page pages.now }
{
    for index in 0..pages.len() {
        let Some(other) = pages.get(index) else {
            return false
        };
        if other == page {
            return true;
        }
    }
    false
}

/// The first of these virtual pages; where there is none, the least virtual page of the page.
pub fn first_or(mapped: &VPageSet, others: &VPageSet) -> u32
    ensures { result ≡ first_or mapped.now others.now }
{
    match mapped.next(0) {
        Some(vpage) => vpage,
        None => others.next(0).unwrap_or(0),
    }
}

/// Whether a page with so many words that are not 0 is moved while it is locked.
pub fn is_moved_locked(retry: Option<u32>, aborts: u32, count: u32) -> bool
    ensures { result ≡ is_moved_locked retry aborts count }
{
    count >= 2
        || count == 1
            && match retry {
                Some(retry) => aborts >= retry,
                None => false,
            }
}

/// The same list once more.
pub fn copied(list: &PieceList<(u32, u32)>) -> PieceList<(u32, u32)>
    ensures { result ≡ list.now }
{
    let mut copy = PieceList::new();
    for index in 0..list.len() {
        if let Some(item) = list.get(index) {
            copy.push(item);
        }
    }
    copy
}

/// Whether a piece that ended so is tried again.
fn is_again(end: TxnEnd) -> bool
    ensures { result ≡ is_again end }
{
    match end {
        TxnEnd::Aborted(_) | TxnEnd::Busy => true,
        TxnEnd::Committed | TxnEnd::NoFrame(_) | TxnEnd::Gone | TxnEnd::Worn => false,
    }
}

/// The pages of the pieces that are tried again, in order.
pub fn again_of(pieces: &PieceList<(u32, u32)>, ends: &PieceList<TxnEnd>) -> PieceList<u32>
    ensures pages { result ≡ again_of pieces.now ends.now }
    ensures few { length result ≤ 8 }
{
    let mut again = PieceList::new();
    for index in 0..pieces.len() {
        let Some((page, _)) = pieces.get(index) else {
            return again
        };
        let Some(end) = ends.get(index) else {
            return again
        };
        if is_again(end) {
            again.push(page);
        }
    }
    again
}

/// Counts one abort more of a page, up to 2^32 - 1. Condition: there is a count for it.
fn count_abort(aborts: &mut [u32], page: u32)
    requires { page < length aborts.old }
    ensures { aborts.new ≡ aborted_more page aborts.old }
{
    aborts[page as usize] = aborts[page as usize].saturating_add(1);
}

/// Counts the aborts of these pieces. Condition: there is a count for each page.
pub fn count_aborts(aborts: &mut [u32], pieces: &PieceList<(u32, u32)>, ends: &PieceList<TxnEnd>)
    requires { All (λ p. first p < length aborts.old) pieces.now }
    ensures { aborts.new ≡ aborts_with pieces.now ends.now aborts.old }
{
    for index in 0..pieces.len() {
        let Some((page, _)) = pieces.get(index) else {
            return
        };
        let Some(end) = ends.get(index) else { return };
        if let TxnEnd::Aborted(_) = end {
            count_abort(aborts, page);
        }
    }
}

/// The same of a vector.
pub fn count_aborts_in(
    aborts: &mut Vec<u32>,
    pieces: &PieceList<(u32, u32)>,
    ends: &PieceList<TxnEnd>,
)
    requires { All (λ p. first p < length aborts.old.items) pieces.now }
    ensures { aborts.new.items ≡ aborts_with pieces.now ends.now aborts.old.items }
{
    count_aborts(aborts, pieces, ends);
}

/// Sets the count of a page to 0. Condition: there is a count for it.
pub fn clear_aborts(aborts: &mut Vec<u32>, page: u32)
    requires { page < length aborts.old.items }
    ensures { aborts.new.items ≡ slice_set aborts.old.items page 0 }
{
    aborts[page as usize] = 0;
}

/// How many aborts of a page were counted. Condition: there is a count for it.
pub fn aborts_of(aborts: &[u32], page: u32) -> u32
    requires { page < length aborts.now }
    ensures { result ≡ slice_index aborts.now page }
{
    aborts[page as usize]
}
