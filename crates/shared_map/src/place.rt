// Where a key stands.
ghost use Rattle.std.specs.Prelude.{◌≡◌, IfOk, IfErr};
ghost use Rattle.shared_map.specs.Pages.{Rises, AreFilled, joined, IsAt, IsGap, IsHome, IsThere, IsFree, IsPast, starts_by};

use crate::keys::{Copied, Key, Sought};
use crate::page::Page;
use std::cmp::Ordering;

// A place in a page, both counted from the front.
#[derive(Clone, Copy)]
pub(crate) struct Spot {
    pub(crate) page: usize,
    pub(crate) place: usize,
}

// Where the key is among the entries, or where it would go.
pub(crate) fn find<K: Key, V: Copied, Q: Sought<K>>(
    entries: &[(K, V)],
    query: &Q,
) -> Result<usize, usize>
    requires { Rises K.order entries.now }
    ensures found { IfOk result (IsAt K.order (Q.sought query.now) entries.now) }
    ensures absent { IfErr result (IsGap K.order (Q.sought query.now) entries.now) }
{
    entries.binary_search_by(
        |entry: &(K, V)| -> Ordering
            ensures { result ≡ K.order entry.now.0 (Q.sought query.entry.now) }
        { query.against(&entry.0) },
    )
}

// Whether the page begins with a key that is not above this one.
fn starts<K: Key, V: Copied, Q: Sought<K>>(page: &Page<K, V>, query: &Q) -> bool
    ensures { result ≡ starts_by K.order (Q.sought query.now) page.now }
{
    !query.against(page.first()).is_gt()
}

// The page that holds the key if any does.
pub(crate) fn home<K: Key, V: Copied, Q: Sought<K>>(pages: &[Page<K, V>], query: &Q) -> usize
    requires rises { Rises K.order (joined pages.now) }
    requires filled { AreFilled pages.now }
    ensures { IsHome K.order (Q.sought query.now) pages.now result }
{
    let after = pages.partition_point(
        |page: &Page<K, V>| -> bool
            ensures { result ≡ starts_by K.order (Q.sought query.entry.now) page.now }
        { starts(page, query) },
    );
    if after == 0 { 0 } else { after - 1 }
}

// Where the entry of the key stands, or where it would go. Where there are no pages, that is in
// none of them.
#[inline]
pub(crate) fn seek<K: Key, V: Copied, Q: Sought<K>>(
    pages: &[Page<K, V>],
    query: &Q,
) -> Result<Spot, Spot>
    requires rises { Rises K.order (joined pages.now) }
    requires filled { AreFilled pages.now }
    ensures found { IfOk result
        (λ spot. IsThere K.order (Q.sought query.now) pages.now spot.page spot.place) }
    ensures absent { IfErr result
        (λ spot. IsFree K.order (Q.sought query.now) pages.now spot.page spot.place) }
{
    let page = home(pages, query);
    if page >= pages.len() {
        return Err(Spot { page, place: 0 });
    }
    match find(pages[page].entries(), query) {
        Ok(place) => Ok(Spot { page, place }),
        Err(place) => Err(Spot { page, place }),
    }
}

// The number of entries that are not above the key.
pub(crate) fn past<K: Key, V: Copied, Q: Sought<K>>(entries: &[(K, V)], query: &Q) -> usize
    requires { Rises K.order entries.now }
    ensures { IsPast K.order (Q.sought query.now) entries.now result }
{
    match find(entries, query) {
        Ok(place) => place + 1,
        Err(place) => place,
    }
}
