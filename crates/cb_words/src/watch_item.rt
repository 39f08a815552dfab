//! What can be watched.
ghost use Rattle.std.specs.Prelude.{◌≡◌};
ghost use Rattle.cb_words.specs.WatchItems.{watch_item_of};

/// What `watch` and `unwatch` name.
#[derive(Clone, Copy, Debug, PartialEq, Eq)]
pub enum WatchItem {
    /// `facts`: facts that come and go.
    Facts,
    /// `rules`: rules that fire.
    Rules,
    /// `activations`: activations that come and go.
    Activations,
    /// `all`: all of these.
    All,
}

/// What a word names that can be watched, or `None`.
pub fn read_watch_item(word: &[u8]) -> Option<WatchItem>
    ensures { result ≡ watch_item_of word.now }
{
    if word == b"facts".as_slice() {
        return Some(WatchItem::Facts);
    }
    if word == b"rules".as_slice() {
        return Some(WatchItem::Rules);
    }
    if word == b"activations".as_slice() {
        return Some(WatchItem::Activations);
    }
    if word == b"all".as_slice() {
        return Some(WatchItem::All);
    }
    None
}
