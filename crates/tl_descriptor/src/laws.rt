//! What holds of all sets.

ghost use Rattle.std.specs.Prelude.{◌≡◌, ◌↔◌, ◌≤◌, ◌^◌, ◌||◌, ◌==◌, ◌+◌, ℕ, List, Some, true, length};
ghost use Rattle.tl_codec.specs.Taken.{IsBytes};
ghost use Rattle.tl_descriptor.specs.Reading.{FitsSet, read_set, spelling};
ghost use Rattle.tl_descriptor.specs.Tids.{IsCanonical, IsWithin, TidSet, begins, has, inserted};

/// A set with a tid more has this tid, and the others that it had. It is still written in the one way.
pub fn inserted_is_one_more()
    ensures members { (set : TidSet) (tid other : ℕ) → IsCanonical set → tid ≤ 2 ^ 62 → has (inserted set tid) other ≡ (tid == other || has set other) }
    ensures canonical { (set : TidSet) (tid : ℕ) → IsCanonical set → tid ≤ 2 ^ 62 → IsCanonical (inserted set tid) }
    ensures runs { (set : TidSet) (tid : ℕ) → length (inserted set tid).runs ≤ length set.runs + 1 }
{}

/// What is spelled so is read, and what is read is spelled so.
pub fn sets_are_read()
    ensures again { (set : TidSet) → FitsSet set → read_set (spelling set) ≡ Some set }
    ensures taken { (bytes : List ℕ) (set : TidSet) → IsBytes bytes → read_set bytes ≡ Some set → (bytes ≡ spelling set) × FitsSet set }
{}

/// Sets with the same tids are equal.
pub fn same_members()
    ensures { (set other : TidSet) → IsCanonical set → IsCanonical other → ((tid : ℕ) → has set tid ≡ has other tid) → set ≡ other }
{}

/// One set begins another exactly where each of its tids is in the other, and so this is an order.
pub fn begins_is_an_order()
    ensures within { (set other : TidSet) → IsCanonical set → IsCanonical other → ((begins set other ≡ true) ↔ IsWithin set other) }
    ensures reflexive { (set : TidSet) → IsCanonical set → begins set set ≡ true }
    ensures transitive { (a b c : TidSet) → IsCanonical a → IsCanonical b → IsCanonical c → begins a b ≡ true → begins b c ≡ true → begins a c ≡ true }
    ensures antisymmetric { (set other : TidSet) → IsCanonical set → IsCanonical other → begins set other ≡ true → begins other set ≡ true → set ≡ other }
{}
