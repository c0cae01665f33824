//! Laws of the lists as contracts see them: each is the contract of a function with an empty body.
ghost use Rattle.std.specs.Prelude.{◌≡◌, ◌≢◌, ◌<◌, ℕ, true, false, List, Some, None, [], ◌∷◌, ◌++◌, length, map, slice_set};
ghost use Rattle.index_list.specs.Many.{list_at, first_of, last_of, has, before, without, after_of, item_of};

/// An item that is pushed is the last of its list, and each other item is as it was.
pub fn a_pushed_item_is_last<T>()
    ensures last { (list : List (ℕ × T)) (place : ℕ) (item : T) → last_of None (list ++ (place, item) ∷ []) ≡ Some place }
    ensures item { (list : List (ℕ × T)) (place : ℕ) (item : T) → has place list ≡ false
        → item_of place (list ++ (place, item) ∷ []) ≡ Some item }
    ensures others { (list : List (ℕ × T)) (place other : ℕ) (item : T) → other ≢ place
        → item_of other (list ++ (place, item) ∷ []) ≡ item_of other list }
{}

/// A list that changes leaves each other list as it was.
pub fn other_lists_stay<T>()
    ensures { (lists : List (List (ℕ × T))) (list other : ℕ) (new : List (ℕ × T)) → other ≢ list
        → list_at (slice_set lists list new) other ≡ list_at lists other }
{}

/// What is pushed to a list and unlinked again leaves all lists as they were.
pub fn pushed_and_unlinked_is_as_before<T>()
    ensures { (lists : List (List (ℕ × T))) (list place : ℕ) (item : T) → list < length lists
        → ((i : ℕ) → has place (list_at lists i) ≡ false)
        → map (without place) (slice_set lists list (list_at lists list ++ (place, item) ∷ [])) ≡ lists }
{}

/// What is inserted before a place stands just before it, and leaves the list as it was once it is unlinked.
pub fn an_inserted_item_leaves_no_trace<T>()
    ensures next { (list : List (ℕ × T)) (place new : ℕ) (item : T) → has place list ≡ true → has new list ≡ false
        → after_of new (before place (new, item) list) ≡ Some place }
    ensures unlinked { (list : List (ℕ × T)) (place new : ℕ) (item : T) → has new list ≡ false
        → without new (before place (new, item) list) ≡ list }
{}
