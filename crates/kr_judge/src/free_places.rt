//! Pairs that no path needs, whose places others may take.
ghost use Rattle.std.specs.Prelude.{◌≡◌, ◌<◌, ◌≤◌, [], length, IfSome, IfNone, vec_len, vec_capacity};
ghost use Rattle.std.specs.BTreeMap.{is_at};
ghost use Rattle.std.specs.Set.{remove_key};
ghost use Rattle.kr_config.specs.Nexts.{name_cmp};
ghost use Rattle.kr_judge.specs.inner.Indexes.{labels_of, kept_paths, IsChangedAt};
ghost use Rattle.kr_judge.specs.inner.Places.{paths_at, AreFree, AreNeeded};

use crate::pair::Pair;

/// The place of a pair that no path needs, which stays listed. Listed pairs that have paths again
/// are no longer listed.
pub fn find_free(pairs: &mut Vec<Pair>, free: &mut Vec<usize>) -> Option<usize>
    requires { AreFree free.old.items pairs.old.items }
    ensures free { AreFree free.new.items pairs.new.items }
    ensures some { IfSome result
        (λ place. (place < length pairs.new.items) × (paths_at pairs.new.items place ≡ [])) }
    ensures none { IfNone result (AreNeeded pairs.new.items) }
    ensures labels { labels_of pairs.new.items ≡ labels_of pairs.old.items }
    ensures paths { kept_paths pairs.new.items ≡ kept_paths pairs.old.items }
    ensures length { length pairs.new.items ≡ length pairs.old.items }
    ensures room { vec_capacity free.new ≡ vec_capacity free.old }
{
    while let Some(place) = free.pop() {
        if pairs[place].is_free() {
            free.push_reserved(place);
            return Some(place);
        }
        pairs[place].unlist();
    }
    None
}

/// Takes the path from those of the pair. Its place is listed where no path is left.
pub fn take_path(pairs: &mut Vec<Pair>, free: &mut Vec<usize>, place: usize, path: &str)
    requires free { AreFree free.old.items pairs.old.items }
    requires place { place < length pairs.old.items }
    requires room { vec_len pairs.old ≤ vec_capacity free.old }
    ensures free { AreFree free.new.items pairs.new.items }
    ensures taken { IsChangedAt (remove_key (is_at (name_cmp path.now))) place
        pairs.old.items pairs.new.items }
    ensures length { length pairs.new.items ≡ length pairs.old.items }
    ensures room { vec_capacity free.new ≡ vec_capacity free.old }
{
    if pairs[place].take(path) {
        free.push_reserved(place);
    }
}
